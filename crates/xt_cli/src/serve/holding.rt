//! Files of volumes that are in use: no other process may recover or serve them meanwhile.

use crate::serve::fault::ServeFault;
use crate::serve::files::fault;
use std::alloc::Global;
use std::fs::{File, TryLockError};
use xt_dev::fault::FileFault;

/// Locks a file until its handle and all copies of it are let go, or this process ends. A file system without locks is trusted.
pub fn lock(alloc: Global, name: &str, file: &File) -> Result<(), ServeFault> {
    if let Err(TryLockError::WouldBlock) = file.try_lock() {
        return Err(ServeFault::InUse(String::from_str(alloc, name)?));
    }
    Ok(())
}

/// Locks the file of a device, which is made where it is missing, until the handle is let go, or this process ends. It is open for reading too where
/// that is wanted.
pub fn hold(
    rt: &HostRuntime,
    alloc: Global,
    name: &str,
    is_read: bool,
) -> Result<File, ServeFault> {
    let mut options = File::options();
    options.read(is_read).write(true).create(true);
    let file = match options.open(rt, name) {
        Ok(file) => file,
        Err(error) => return Err(fault(alloc, name, FileFault::Io(error))),
    };
    lock(alloc, name, &file)?;
    Ok(file)
}
