//! How many lines a second go through a session over memory.

ghost use Rattle.std.specs.Prelude.{◌≡◌};

use anyhow::Result;
use std::alloc::{AllocError, Global};
use std::io::{self, Write};
use std::time::{Clock, Instant};
use xt_base::steps::Reply;
use xt_session::calls::Calls;
use xt_session::session::session;
use xt_text::line::Line;

/// How many lines of each kind are sent where no figures are wanted.
const FEW: u32 = 1_000;

/// The lines that are sent, by their kind.
const KINDS: [(&str, &str); 3] = [
    ("get", "0.1 get t1 7\n"),
    ("log", "0.1 log t1 7 128 00112233445566778899aabbccddeeff\n"),
    ("none", "mount 0 65536 1024\n"),
];

/// What answers `ok` to every line.
#[derive(Drop)]
struct Agreeing;

impl Calls for Agreeing {
    ghost use Rattle.xt_base.specs.declared.steps.Reply.TheVariants.{Okay};

    ghost answers = { λ old line reply new. reply ≡ Okay };

    ghost ends = { λ old new. Unit {0} };

    fn call(&mut self, _line: Line) -> Reply {
        Reply::Okay
    }

    fn end(&mut self) {}
}

/// Counts the lines that are written, by their newlines at the end of each write.
#[derive(Drop)]
struct Counting(u64);

impl Write for Counting {
    fn write(&mut self, buf: &[u8]) -> io::Result<usize> {
        if buf.ends_with(b"\n") {
            self.0 = self.0.saturating_add(1);
        }
        Ok(buf.len())
    }

    fn flush(&mut self) -> io::Result<()> {
        Ok(())
    }
}

/// A line, so often.
fn lines(alloc: Global, line: &str, count: u32) -> Result<Vec<u8>, AllocError> {
    let mut text = Vec::new(alloc);
    for _ in 0..count {
        text.extend_from_slice(line.as_bytes())?;
    }
    Ok(text)
}

/// How many lines of a text a session answers.
fn answered(alloc: Global, mut text: &[u8]) -> u64 {
    let mut writer = Counting(0);
    session(alloc, &mut text, &mut writer, &mut Agreeing);
    writer.0
}

/// How many lines a second a session answers.
fn rate<R: Clock>(rt: &R, alloc: Global, text: &[u8]) -> Result<u128> {
    let start = Instant::now(rt)?;
    let count = answered(alloc, text);
    let micros = start.elapsed(rt)?.as_micros();
    Ok(if micros == 0 {
        0
    } else {
        u128::from(count) * 1_000_000 / micros
    })
}

/// Sends lines of three kinds through, and prints lines a second for each. Where no number is asked for, it sends a few through and prints how
/// many were answered.
pub fn print_sessions<R: Print + Clock>(rt: &R, alloc: Global, asked: Option<u32>) -> Result<()> {
    let count = asked.unwrap_or(FEW);
    for (kind, line) in KINDS {
        let text = lines(alloc, line, count)?;
        if asked.is_none() {
            println!(rt; "{} lines of {kind}", answered(alloc, &text))?;
        } else {
            println!(rt; "{kind}: {} lines/s", rate(rt, alloc, &text)?)?;
        }
    }
    Ok(())
}
