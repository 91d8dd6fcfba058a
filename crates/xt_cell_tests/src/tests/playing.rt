//! A table of deeds, on a slot that was never mounted.

ghost use Rattle.std.specs.Prelude.{◌≡◌, ◌-◌, ◌<◌, ◌^◌};
ghost use Rattle.xt_cell.specs.Ledgers.{AreCut, AreNamed};

use crate::tests::bench::Bench;
use crate::tests::deeds::{Deed, Faults, Told};
use crate::tests::opening::{Devices, Parts, Ways, new_ways, opened};
use crate::tests::replay::Ended;
use crate::tests::two_bytes::home_of;
use std::alloc::{AllocError, Global};
use std::process::Abort;
use std::sync::Wait;
use xt_cell::{Blanks, House};
use xt_dev::fail_at::FailAt;
use xt_dev::mem_log::MemLog;

/// The devices of a bench.
fn new_devices(alloc: Global, faults: Faults) -> Result<Devices, AllocError>
    requires home { 0 < faults.home_at }
    requires log { 0 < faults.log_at }
{
    let home = home_of(alloc, faults.keeper, faults.home_at)?;
    let log = FailAt::over_log(alloc, MemLog::new(alloc), faults.log_at);
    Ok((home, Box::new(alloc, log)?))
}

/// What a bench is made of: its devices, and its ways to a board and a queue.
fn made(alloc: Global, faults: Faults) -> Result<(Devices, Ways), AllocError>
    requires home { 0 < faults.home_at }
    requires log { 0 < faults.log_at }
{
    let devices = new_devices(alloc, faults)?;
    let ways = new_ways(alloc)?;
    Ok((devices, ways))
}

/// The same, made anew where memory was refused.
fn made_again(alloc: Global, faults: Faults) -> Result<(Devices, Ways), AllocError>
    requires home { 0 < faults.home_at }
    requires log { 0 < faults.log_at }
{
    if let Ok(first) = made(alloc, faults) {
        return Ok(first);
    }
    made(alloc, faults)
}

/// A slot that was never mounted, over new ledgers. What that takes is made again where memory was refused for it.
pub fn bench<H: House>(
    alloc: Global,
    blanks: Blanks,
    faults: Faults,
) -> Result<Bench<H>, AllocError>
    requires names { AreNamed H.names blanks }
    requires parts { AreCut H.all blanks }
    requires all { H.all ≡ 2 ^ 64 - 1 }
    requires home { 0 < faults.home_at }
    requires log { 0 < faults.log_at }
{
    let (devices, ways) = made_again(alloc, faults)?;
    let (count, reserve) = opened::<H>(blanks);
    let parts = Parts::new(alloc, count, reserve, ways);
    Ok(Bench::new(alloc, parts, devices))
}

/// Does all deeds of a table on a slot that was never mounted, and closes it.
pub fn play<H: House, R: Abort + Wait>(
    rt: &R,
    alloc: Global,
    blanks: Blanks,
    faults: Faults,
    table: &[(Deed, Told)],
) -> Result<Ended, AllocError>
    requires names { AreNamed H.names blanks }
    requires parts { AreCut H.all blanks }
    requires all { H.all ≡ 2 ^ 64 - 1 }
    requires home { 0 < faults.home_at }
    requires log { 0 < faults.log_at }
{
    let mut bench = bench::<H>(alloc, blanks, faults)?;
    bench.act_all(rt, table);
    Ok(bench.close(rt))
}
