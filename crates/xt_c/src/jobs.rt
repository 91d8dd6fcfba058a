//! Jobs: what a mount owes, and which job a serial names.

ghost use Rattle.std.specs.Prelude.{◌≡◌, None, Some, false, true, IfNone, IfSome};
ghost use Rattle.xt_base.specs.Jobs.{is_begun, is_waiting};
ghost use Rattle.xt_base.specs.declared.names.JobKind.TheVariants.{Ckpt};
ghost use Rattle.xt_c.specs.Holding.{held};
ghost use Rattle.xt_c.specs.Working.{IsTaken, kind_of, name_in};

use crate::handle::Handle;
use crate::mounts::first_slot;
use crate::status::refusal;
use std::alloc::Global;
use xt_base::names::{JobKind, JobName};
use xt_base::steps::Errno;
use xt_mount::mount::{Mount, Stage};

/// What `take` returns where a job was owed.
const TAKEN: i32 = 1;

/// The kind of a job: 0 a checkpoint, 1 a flush.
fn kind_of(kind: u32) -> Option<JobKind>
    ensures { result ≡ kind_of kind }
{
    match kind {
        0 => Some(JobKind::Ckpt),
        1 => Some(JobKind::Flush),
        _ => None,
    }
}

/// The name of a mount's job.
fn name_in(mount: &Mount, kind: JobKind, serial: u64) -> JobName
    requires { mount.now.slot ≡ 0 }
    ensures { result ≡ name_in kind serial mount.now }
{
    JobName {
        slot: first_slot(),
        life: mount.life(),
        kind,
        serial,
    }
}

/// The name of a job that waits.
pub fn waiting(mount: &Mount, kind: JobKind, serial: u64) -> Option<JobName>
    requires { mount.now.slot ≡ 0 }
    ensures name { IfSome result (λ name. name ≡ name_in kind serial mount.now) }
    ensures waits { IfSome result (λ name. is_waiting (name_in kind serial mount.now) mount.now ≡ true) }
    ensures none { IfNone result (is_waiting (name_in kind serial mount.now) mount.now ≡ false) }
{
    let name = name_in(mount, kind, serial);
    match mount.stage(&name) {
        Some(Stage::Waiting) => Some(name),
        _ => None,
    }
}

/// The name of the checkpoint that is begun.
pub fn begun(mount: &Mount, serial: u64) -> Option<JobName>
    requires { mount.now.slot ≡ 0 }
    ensures name { IfSome result (λ name. name ≡ name_in Ckpt serial mount.now) }
    ensures begun { IfSome result (λ name. is_begun (name_in Ckpt serial mount.now) mount.now ≡ true) }
    ensures none { IfNone result (is_begun (name_in Ckpt serial mount.now) mount.now ≡ false) }
{
    let name = name_in(mount, JobKind::Ckpt, serial);
    match mount.stage(&name) {
        Some(Stage::Begun) => Some(name),
        _ => None,
    }
}

/// Posts the job of a kind that is owed, and writes its serial.
fn take(mount: &mut Mount, kind: u32, serial: &mut u64) -> i32
    ensures taken { IsTaken (kind_of kind) result serial.new serial.old (Some mount.new) (Some mount.old) }
    ensures slot { mount.new.slot ≡ mount.old.slot }
{
    let Some(kind) = kind_of(kind) else {
        return refusal(Errno::Invalid);
    };
    match mount.owed(kind) {
        Some(name) => {
            *serial = name.serial;
            mount.posted(name);
            TAKEN
        }
        None => 0,
    }
}

/// Takes the job of a kind that the mount owes: 1, and its serial is written. 0 where it owes none.
#[unsafe(no_mangle)]
pub extern "C" fn refskold_abi_take(
    alloc: Global,
    handle: &mut Handle,
    kind: u32,
    serial: &mut u64,
) -> i32
    ensures { IsTaken (kind_of kind) result serial.new serial.old (held handle.new) (held handle.old) }
{
    let Some(mut mount) = handle.take(alloc) else {
        return refusal(Errno::NoDevice);
    };
    let status = take(&mut mount, kind, serial);
    handle.put(mount);
    status
}
