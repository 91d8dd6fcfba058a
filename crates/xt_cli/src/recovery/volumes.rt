//! The volumes of a service: recovered before its start, and their logs emptied after its end.

ghost use Rattle.std.specs.Prelude.{◌≡◌, ◌⊎◌};

use crate::recovery::files::{LeftLog, Names, Opened, open_home};
use crate::serve::ending::Ended;
use crate::serve::fault::ServeFault;
use crate::serve::files::{fault, second_name};
use crate::serve::held::Held;
use std::alloc::Global;
use std::io;
use xt_dev::FileHome;
use xt_dev::fault::FileFault;
use xt_recover::command::{Asked as Terms, CommandFault, recover_log, recover_log_files};
use xt_recover::files::Wanted;
use xt_recover::gather::LogFault;
use xt_recover::recovering::{RecoverFault, Recovered};
use xt_volumes::{Volume, header_name};
use xt_window::way::Which;

/// Which file of a volume a fault is of.
fn faulty<'a>(names: Names<'a>, fault: &CommandFault) -> &'a str {
    match fault {
        CommandFault::Recover(RecoverFault::Home(_)) => names.home,
        CommandFault::Recover(RecoverFault::Log(LogFault::Rotten(Which::Other, _))) => names.second,
        CommandFault::Recover(RecoverFault::Log(_)) | CommandFault::Empty(_) => names.log,
    }
}

/// What the headers of a volume's log have to tell.
fn wanted_of(volume: &Volume) -> Wanted {
    Wanted {
        name: header_name(volume.home.as_str()),
        block_size: Some(volume.size),
        log_bytes: Some(volume.log_bytes),
    }
}

/// Recovers a volume, and empties its log.
fn recover_one(
    rt: &HostRuntime,
    alloc: Global,
    volume: &Volume,
    takes_any: bool,
) -> Result<Recovered, ServeFault> {
    let second = second_name(alloc, volume.log.as_str())?;
    let names = Names {
        home: volume.home.as_str(),
        log: volume.log.as_str(),
        second: second.as_str(),
    };
    let wanted = if takes_any {
        None
    } else {
        Some(wanted_of(volume))
    };
    let home = open_home(rt, alloc, names.home)?;
    let log = LeftLog::open(rt, alloc, names, true)?;
    match recover_left(rt, alloc, home, log, wanted)? {
        Ok(recovered) => Ok(recovered),
        Err(found) => {
            let name = String::from_str(alloc, faulty(names, &found))?;
            Err(ServeFault::Recovery(volume.slot, name, found))
        }
    }
}

/// Recovers what was opened of a volume, and empties its log.
fn recover_left(
    rt: &HostRuntime,
    alloc: Global,
    home: FileHome,
    log: LeftLog,
    wanted: Option<Wanted>,
) -> io::Result<Result<Recovered, CommandFault>> {
    let mut home = home;
    let is_bare = log.is_bare()?;
    let Opened {
        mut readers,
        mut logs,
    } = log.opened(rt)?;
    if is_bare {
        return Ok(recover_log(alloc, &mut readers.one, &mut home, &mut logs.one, true));
    }
    let terms = Terms {
        wanted,
        is_cut: true,
    };
    match recover_log_files(alloc, &mut readers, &mut home, &mut logs, terms) {
        Ok(found) => Ok(Ok(found.recovered)),
        Err(fault) => Ok(Err(fault)),
    }
}

/// Recovers a volume whose log has something in it, and empties that log. What was recovered is told; that there was nothing is too, but of a
/// new volume.
fn recover_held(
    rt: &HostRuntime,
    alloc: Global,
    held: &Held,
    takes_any: bool,
) -> Result<(), ServeFault> {
    let volume = &held.volume;
    let slot = volume.slot.index();
    match held.has_log() {
        Ok(true) => {}
        Ok(false) if held.is_new() => return Ok(()),
        Ok(false) => {
            let _ = eprintln!(rt; "slot {slot}: nothing to recover");
            return Ok(());
        }
        Err(error) => return Err(fault(alloc, volume.log.as_str(), FileFault::Io(error))),
    }
    let Recovered { texts, blocks, .. } = recover_one(rt, alloc, volume, takes_any)?;
    let _ = eprintln!(rt; "slot {slot}: recovered {texts} texts {blocks} blocks");
    Ok(())
}

/// Recovers each volume whose log has something in it, and empties that log. One that can't be recovered, as where the log is another volume's, is told of, and is not
/// served; it is a fault only where none is left.
pub fn recover_volumes(
    rt: &HostRuntime,
    alloc: Global,
    held: &mut [Held],
    takes_any: bool,
) -> Result<(), ServeFault> {
    for one in held.iter_mut() {
        match recover_held(rt, alloc, one, takes_any) {
            Err(fault @ ServeFault::Recovery(..)) => {
                let _ = eprintln!(rt; "{fault}");
                one.is_served = false;
            }
            outcome => outcome?,
        }
    }
    if held.iter().any(|one| one.is_served) {
        Ok(())
    } else {
        Err(ServeFault::NoneRecovered)
    }
}

/// Empties the log of a volume: whether it could. A fault is told.
fn is_emptied(rt: &HostRuntime, held: &Held) -> bool {
    match held.empty_log() {
        Ok(()) => true,
        Err(error) => {
            let name = held.volume.log.as_str();
            let _ = eprintln!(rt; "fault: {name}: {error}");
            false
        }
    }
}

/// Empties the logs of those volumes of which all that was committed is home: the status of the service, or 1 where a log was not emptied.
pub fn empty_logs(rt: &HostRuntime, ended: &Ended, held: &[Held]) -> u8
    ensures { (result ≡ ended.now.status) ⊎ (result ≡ 1) }
{
    let mut are_emptied = true;
    for one in held {
        if one.is_spent(ended) && !is_emptied(rt, one) {
            are_emptied = false;
        }
    }
    if are_emptied { ended.status } else { 1 }
}
