//! Files of logs: read, looked at, and emptied.

use std::fs::File;
use std::io::{self, ErrorKind, Read};
use std::os::unix::fs::FileExt;
use xt_recover::command::Emptied;
use xt_seal::{HEADER_BYTES, Header};
use xt_window::start::begins_as_text;

/// How many bytes the first word of a text has.
const WORD_BYTES: usize = 4;

/// The file of a log, open for writing where it is to be emptied; one that is missing has nothing.
#[derive(Drop)]
pub struct LogFile {
    file: Option<File>,
    is_emptied: bool,
}

impl LogFile {
    /// The file of a log, with what it has.
    pub fn new(file: Option<File>) -> Self {
        LogFile {
            file,
            is_emptied: false,
        }
    }
}

impl Emptied for LogFile {
    ghost is_emptied = { λ log. log.is_emptied };

    fn empty(&mut self) -> io::Result<()> {
        if let Some(file) = &self.file {
            file.set_len(0)?;
            file.sync_all()?;
        }
        self.is_emptied = true;
        Ok(())
    }
}

/// The file of a log that is read; one that is missing has nothing.
#[derive(Drop)]
pub struct LogReader {
    file: Option<File>,
}

impl LogReader {
    /// Reads a file from its front.
    pub fn new(file: Option<File>) -> Self {
        LogReader { file }
    }
}

impl Read for LogReader {
    fn read(&mut self, buf: &mut [u8]) -> io::Result<usize> {
        match &mut self.file {
            Some(file) => file.read(buf),
            None => Ok(0),
        }
    }
}

/// Reads the bytes at the front of a file, if it has so many.
fn has_front(file: &File, front: &mut [u8]) -> io::Result<bool> {
    match file.read_exact_at(front, 0) {
        Ok(()) => Ok(true),
        Err(error) if error.kind() == ErrorKind::UnexpectedEof => Ok(false),
        Err(error) => Err(error),
    }
}

/// The header that begins a file of a log, if one does.
fn header_of(file: &File) -> io::Result<Option<Header>> {
    let mut front = [0; HEADER_BYTES];
    if !has_front(file, &mut front)? {
        return Ok(None);
    }
    match Header::read(&front) {
        Some((header, _)) => Ok(Some(header)),
        None => Ok(None),
    }
}

/// Whether the first word of a text begins a file.
fn has_text(file: &File) -> io::Result<bool> {
    let mut front = [0; WORD_BYTES];
    Ok(has_front(file, &mut front)? && begins_as_text(&front))
}

/// Whether a file that is there begins with the header of a sealed log.
pub fn is_sealed(rt: &HostRuntime, name: &str) -> bool {
    match File::open(rt, name) {
        Ok(file) => matches!(header_of(&file), Ok(Some(_))),
        Err(_) => false,
    }
}

/// Whether the first file alone is the log, one without seals: no header begins either file, and the first one begins with a text, or there is no other.
pub fn is_bare(first: &File, second: Option<&File>) -> io::Result<bool> {
    if header_of(first)?.is_some() {
        return Ok(false);
    }
    match second {
        Some(second) => Ok(header_of(second)?.is_none() && has_text(first)?),
        None => Ok(true),
    }
}

/// Whether the texts of one file of a log are older than those of the other. A file that no header begins has none.
pub fn is_older(one: &File, other: &File) -> io::Result<bool> {
    Ok(generation_of(one)? < generation_of(other)?)
}

/// The generation that the header of a file tells; 0 where there is none.
fn generation_of(file: &File) -> io::Result<u64> {
    match header_of(file)? {
        Some(header) => Ok(header.generation),
        None => Ok(0),
    }
}
