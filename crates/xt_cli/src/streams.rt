//! The standard streams of the program, of which none may be a file of a volume.

use std::fs::File;
use std::io;
use std::os::fd::{AsRawFd, RawFd};

/// The descriptor of standard error, the greatest of the three standard streams.
const LAST_STREAM: RawFd = 2;

/// What is open to nothing in the place of standard streams.
pub type Fillers = [Option<File>; 3];

/// Opens `/dev/null` in the place of each standard stream with which the program was not started, for as long as what is answered is kept. A
/// file that is opened takes the least descriptor that is free: without this the file of a volume would be that stream, and what is printed
/// would be written over what it has. An error where `/dev/null` can't be opened.
pub fn fill(rt: &HostRuntime) -> io::Result<Fillers> {
    let mut fillers = [None, None, None];
    for filler in &mut fillers {
        let null = File::options()
            .read(true)
            .write(true)
            .open(rt, "/dev/null")?;
        if null.as_raw_fd() > LAST_STREAM {
            break;
        }
        *filler = Some(null);
    }
    Ok(fillers)
}
