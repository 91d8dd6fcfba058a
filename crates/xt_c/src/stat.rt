//! What a mount tells of itself, written as a caller's words.

ghost use Rattle.std.specs.Prelude.{◌≡◌};
ghost use Rattle.xt_c.specs.Holding.{held};
ghost use Rattle.xt_c.specs.Telling.{IsStatOf, stat_words};

use crate::handle::Handle;
use crate::status::refusal;
use crate::words::StatWords;
use std::alloc::Global;
use xt_base::stat::Stat;
use xt_base::steps::Errno;

/// What a mount tells of itself, as words.
fn stat_words(stat: Stat) -> StatWords
    ensures { result ≡ stat_words stat }
{
    StatWords {
        transactions: u32::from(stat.transactions),
        busy: u32::from(stat.busy),
        idle: u32::from(stat.idle),
        committed: u32::from(stat.committed),
        active: u32::from(stat.active),
        owed: u32::from(stat.owed),
        outstanding: u32::from(stat.outstanding),
        frozen: u32::from(stat.frozen),
        cost: stat.cost,
        granted: stat.granted,
        used: stat.used,
        free: stat.free,
        flight: stat.flight,
        least: stat.least,
    }
}

/// Writes what the mount tells of itself, shut or not: 0. The one refusal is ENODEV, and nothing is written.
#[unsafe(no_mangle)]
pub extern "C" fn refskold_abi_stat(
    alloc: Global,
    handle: &mut Handle,
    state: &mut StatWords,
) -> i32
    ensures stat { IsStatOf (held handle.old) result state.new state.old }
    ensures same { held handle.new ≡ held handle.old }
{
    let Some(mount) = handle.take(alloc) else {
        return refusal(Errno::NoDevice);
    };
    *state = stat_words(mount.stat());
    handle.put(mount);
    0
}
