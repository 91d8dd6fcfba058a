//! How far a long input has been read, told on a terminal.

ghost use Rattle.std.specs.Prelude.{◌≡◌};

use std::io::{self, Read, Write};

/// How many bytes are read between two lines that tell how far it is.
const STRIDE: u64 = 4_194_304;

/// How many bytes a megabyte has.
const MEGABYTE: u64 = 1_048_576;

/// A reader that tells on a terminal how much it has read: a line for each four megabytes, and one at the end of an input of so many. It
/// gives what the reader under it gives.
#[derive(Drop)]
pub struct Watched<R: Read + Drop, T: Write + Drop> {
    /// The reader under it.
    pub reader: R,
    terminal: Option<T>,
    /// How many bytes were read, and how many the last line told of.
    read: u64,
    told: u64,
}

impl<R: Read + Drop, T: Write + Drop> Watched<R, T> {
    /// Watches a reader from here on; with no terminal nothing is told.
    pub fn new(reader: R, terminal: Option<T>) -> Self
        ensures { result.reader ≡ reader }
    {
        Watched {
            reader,
            terminal,
            read: 0,
            told: 0,
        }
    }

    /// How many bytes were read.
    pub fn bytes(&self) -> u64 {
        self.read
    }

    /// Tells something of the bytes that were read. A terminal that fails is told nothing more.
    fn tell(&mut self, before: &str, after: &str)
        ensures { self.new.reader ≡ self.old.reader }
    {
        let Some(terminal) = &mut self.terminal else {
            return;
        };
        let megabytes = self.read / MEGABYTE;
        if writeln!(terminal, "xth: {before}{megabytes} MB{after}").is_err() {
            self.terminal = None;
        }
    }

    /// Notes that so many bytes more were read, and tells of it where it is time.
    fn note(&mut self, count: usize)
        ensures { self.new.reader ≡ self.old.reader }
    {
        self.read = self.read.saturating_add(count as u64);
        if self.read.saturating_sub(self.told) >= STRIDE {
            self.told = self.read;
            self.tell("", " read");
        }
    }

    /// Notes that the input has ended, and tells of it where something was told.
    fn note_end(&mut self)
        ensures { self.new.reader ≡ self.old.reader }
    {
        if self.told > 0 {
            self.told = 0;
            self.tell("all ", " read");
        }
    }
}

impl<R: Read + Drop, T: Write + Drop> Read for Watched<R, T> {
    ghost remaining = { λ watched. R.remaining watched.reader };

    fn read(&mut self, buf: &mut [u8]) -> io::Result<usize> {
        let count = self.reader.read(buf)?;
        if count > 0 {
            self.note(count);
        } else if !buf.is_empty() {
            self.note_end();
        }
        Ok(count)
    }
}
