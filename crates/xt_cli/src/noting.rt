//! A writer that notes a number: that of a line at fault, or where a log is broken.

use std::io::{self, Write};

/// How many bytes a number of 64 bits and its newline have at most.
const NUMBER_BYTES: usize = 21;

/// A writer that notes the number at the end of what was written, before the newline. It takes what the writer under it takes.
#[derive(Drop)]
pub struct Noting<W: Write + Drop> {
    writer: W,
    /// The number at the end of what was written last.
    pub number: u64,
}

impl<W: Write + Drop> Noting<W> {
    /// Notes what is written from here on.
    pub fn new(writer: W) -> Self {
        Noting { writer, number: 0 }
    }

    /// Notes bytes that were written. A number that ends there stands in the last of them, or goes on from those before.
    fn note(&mut self, bytes: &[u8]) {
        for byte in &bytes[bytes.len().saturating_sub(NUMBER_BYTES)..] {
            self.number = match *byte {
                digit @ b'0'..=b'9' => {
                    let shifted = self.number.saturating_mul(10);
                    shifted.saturating_add(u64::from(digit - b'0'))
                }
                b'\n' => self.number,
                _ => 0,
            };
        }
    }
}

impl<W: Write + Drop> Write for Noting<W> {
    fn write(&mut self, buf: &[u8]) -> io::Result<usize> {
        let count = self.writer.write(buf)?;
        self.note(&buf[..count]);
        Ok(count)
    }

    fn flush(&mut self) -> io::Result<()> {
        self.writer.flush()
    }
}
