//! The volumes of a service, with their files locked to its end.

ghost use Rattle.std.specs.Prelude.{◌≡◌, ◌&&◌};
ghost use Rattle.xt_cli.specs.Ends.{is_home};

use crate::serve::ending::Ended;
use crate::serve::fault::ServeFault;
use crate::serve::files::LogRules;
use crate::serve::held_log::HeldLog;
use crate::serve::making::Locked;
use std::alloc::Global;
use std::io;
use xt_volumes::Volume;

/// A volume, with its files locked for as long as this is kept.
#[derive(Drop)]
pub struct Held {
    pub volume: Volume,
    /// Whether it is served: not where it could not be recovered.
    pub is_served: bool,
    home: Locked,
    log: HeldLog,
}

impl Held {
    /// Makes the files of a volume that are missing, and locks all. After a fault none is left that was made.
    pub fn take(
        rt: &HostRuntime,
        alloc: Global,
        volume: Volume,
        rules: LogRules,
    ) -> Result<Self, ServeFault> {
        let home = Locked::take(rt, alloc, volume.home.as_str(), false)?;
        match HeldLog::take(rt, alloc, volume.log.as_str(), rules) {
            Ok(log) => Ok(Held {
                volume,
                is_served: true,
                home,
                log,
            }),
            Err(fault) => {
                home.remove_made(rt);
                Err(fault)
            }
        }
    }

    /// Makes the files that were made safe, with their names.
    pub fn sync_made(&self, rt: &HostRuntime, alloc: Global) -> Result<(), ServeFault> {
        let Volume { home, log, .. } = &self.volume;
        self.home.sync_made(rt, alloc, home.as_str())?;
        self.log.sync_made(rt, alloc, log.as_str())
    }

    /// Removes the files that were made, which are locked still.
    pub fn remove_made(&self, rt: &HostRuntime) {
        self.home.remove_made(rt);
        self.log.remove_made(rt);
    }

    /// Whether the home file was made, so that nothing was ever served from it.
    pub fn is_new(&self) -> bool {
        self.home.made.is_some()
    }

    /// Whether the log has something in it.
    pub fn has_log(&self) -> io::Result<bool> {
        self.log.has_bytes()
    }

    /// Whether the log is of no use any more after a service: the volume was served, and all that was committed is home.
    pub fn is_spent(&self, ended: &Ended) -> bool
        ensures { result ≡ (self.now.is_served && is_home ended.now self.now.volume.slot) }
    {
        self.is_served && ended.is_home(self.volume.slot)
    }

    /// Empties the log: the files that are locked, whatever has their names now.
    pub fn empty_log(&self) -> io::Result<()> {
        self.log.empty()
    }
}
