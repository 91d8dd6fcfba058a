//! The files of a log, locked: one of a bare log, two of a sealed one.

use crate::recovery::logs::{LogFile, is_older};
use crate::serve::fault::ServeFault;
use crate::serve::files::{LogRules, second_name};
use crate::serve::making::Locked;
use std::alloc::Global;
use std::fs::File;
use std::io;
use xt_recover::command::Emptied;

/// The second file of a log.
#[derive(Drop)]
struct Second {
    name: String,
    locked: Locked,
}

/// The files of a log.
#[derive(Drop)]
pub struct HeldLog {
    first: Locked,
    second: Option<Second>,
}

/// Whether a file has any bytes.
fn has_bytes(file: &File) -> io::Result<bool> {
    Ok(file.metadata()?.len() > 0)
}

impl Second {
    /// Makes the second file of a log where it is missing, and locks it.
    fn take(rt: &HostRuntime, alloc: Global, log: &str) -> Result<Self, ServeFault> {
        let name = second_name(alloc, log)?;
        let locked = Locked::take(rt, alloc, name.as_str(), true)?;
        Ok(Second { name, locked })
    }
}

impl HeldLog {
    /// Makes the files of a log that are missing, and locks them. After a fault none is left that was made.
    pub fn take(
        rt: &HostRuntime,
        alloc: Global,
        log: &str,
        rules: LogRules,
    ) -> Result<Self, ServeFault> {
        let first = Locked::take(rt, alloc, log, rules.are_sealed())?;
        if !rules.are_sealed() {
            return Ok(HeldLog {
                first,
                second: None,
            });
        }
        match Second::take(rt, alloc, log) {
            Ok(second) => Ok(HeldLog {
                first,
                second: Some(second),
            }),
            Err(fault) => {
                first.remove_made(rt);
                Err(fault)
            }
        }
    }

    /// Makes the files that were made safe, with their names, of which the first is this one.
    pub fn sync_made(&self, rt: &HostRuntime, alloc: Global, log: &str) -> Result<(), ServeFault> {
        self.first.sync_made(rt, alloc, log)?;
        match &self.second {
            Some(second) => second.locked.sync_made(rt, alloc, second.name.as_str()),
            None => Ok(()),
        }
    }

    /// Removes the files that were made.
    pub fn remove_made(&self, rt: &HostRuntime) {
        self.first.remove_made(rt);
        if let Some(second) = &self.second {
            second.locked.remove_made(rt);
        }
    }

    /// Whether one of the files has any bytes.
    pub fn has_bytes(&self) -> io::Result<bool> {
        if has_bytes(&self.first.file)? {
            return Ok(true);
        }
        match &self.second {
            Some(second) => has_bytes(&second.locked.file),
            None => Ok(false),
        }
    }

    /// Empties the files, and makes that safe, of two the older one first: what is left by a power cut between is the end of the log.
    pub fn empty(&self) -> io::Result<()> {
        let first = &self.first.file;
        let Some(second) = &self.second else {
            return empty(first);
        };
        let second = &second.locked.file;
        if is_older(second, first)? {
            empty(second)?;
            empty(first)
        } else {
            empty(first)?;
            empty(second)
        }
    }
}

/// Empties a file, and makes that safe.
fn empty(file: &File) -> io::Result<()> {
    LogFile::new(Some(file.try_clone()?)).empty()
}
