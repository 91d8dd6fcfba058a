//! Files of volumes, made where they are missing, and locked. Where a volume can't be served, none that was made for another is left behind.

use crate::serve::fault::ServeFault;
use crate::serve::files::{fault, folder_of};
use crate::serve::holding::hold;
use std::alloc::Global;
use std::fs::{self, File};
use std::io::{self, ErrorKind};
use std::path::{Path, PathBuf};
use xt_dev::fault::FileFault;

/// How many symbolic links are followed, one after another: as many as Linux follows.
const LINKS: u32 = 40;

/// Where a path leads by its symbolic links, also where nothing is there yet.
fn end_of_links(rt: &HostRuntime, alloc: Global, name: &str) -> io::Result<PathBuf> {
    let mut path = PathBuf::from_str(alloc, name)?;
    for _link in 0..LINKS {
        let Ok(target) = fs::read_link(rt, &path) else {
            break;
        };
        let _last = path.pop();
        path.push(&target)?;
    }
    Ok(path)
}

/// Makes a file, empty, where it is missing, at the end of the links of its name: its path, if it was.
fn make(rt: &HostRuntime, alloc: Global, name: &str) -> io::Result<Option<PathBuf>> {
    let path = end_of_links(rt, alloc, name)?;
    match File::options().write(true).create_new(true).open(rt, &path) {
        Ok(_file) => Ok(Some(path)),
        Err(error) if error.kind() == ErrorKind::AlreadyExists => Ok(None),
        Err(error) => Err(error),
    }
}

/// Syncs a folder, so that the names in it outlive a crash. A file system that syncs no folders is trusted.
fn sync_folder(rt: &HostRuntime, folder: Path) -> io::Result<()> {
    match File::open(rt, folder)?.sync_all() {
        Err(error) if error.kind() != ErrorKind::InvalidInput => Err(error),
        _ => Ok(()),
    }
}

/// A file of a volume, locked for as long as this is kept.
#[derive(Drop)]
pub struct Locked {
    pub file: File,
    /// Where it is, if it was made.
    pub made: Option<PathBuf>,
}

impl Locked {
    /// Makes the file of a device where it is missing, and locks it, open for reading too where that is wanted. One that was made and is not to be had
    /// stays: another process has it.
    pub fn take(
        rt: &HostRuntime,
        alloc: Global,
        name: &str,
        is_read: bool,
    ) -> Result<Self, ServeFault> {
        let made = match make(rt, alloc, name) {
            Ok(made) => made,
            Err(error) => return Err(fault(alloc, name, FileFault::Io(error))),
        };
        let file = hold(rt, alloc, name, is_read)?;
        Ok(Locked { file, made })
    }

    /// Syncs a file that was made, and its folder.
    fn sync(&self, rt: &HostRuntime) -> io::Result<()> {
        let Some(path) = &self.made else {
            return Ok(());
        };
        self.file.sync_all()?;
        sync_folder(rt, folder_of(path.as_path()))
    }

    /// Makes a file that was made safe, with its name.
    pub fn sync_made(&self, rt: &HostRuntime, alloc: Global, name: &str) -> Result<(), ServeFault> {
        match self.sync(rt) {
            Ok(()) => Ok(()),
            Err(error) => Err(fault(alloc, name, FileFault::Io(error))),
        }
    }

    /// Removes the file, if it was made.
    pub fn remove_made(&self, rt: &HostRuntime) {
        if let Some(path) = &self.made {
            let _ = fs::remove_file(rt, path);
        }
    }
}
