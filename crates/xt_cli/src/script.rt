//! `xth script` and `xth strike` over the process's streams. On a terminal, and where it is asked, the line at fault is shown too.

use crate::noting::Noting;
use crate::{OUTPUT_BYTES, terminal};
use std::alloc::Global;
use std::io::{self, BufWriter, Input, IsTerminal, Read, Stderr, Write};
use xt_base::names::Slot;
use xt_offline::progress::Watched;
use xt_offline::{ScriptFault, run_script};

/// How many bytes of a line are shown at most.
const SHOWN_BYTES: usize = 4_096;

/// A reader that keeps what was read, as long as there is memory for it. It gives what the reader under it gives.
#[derive(Drop)]
struct Keeping<R: Read + Drop> {
    reader: R,
    kept: Option<Vec<u8>>,
}

impl<R: Read + Drop> Keeping<R> {
    /// Keeps what is read from here on.
    fn new(alloc: Global, reader: R) -> Self {
        Keeping {
            reader,
            kept: Some(Vec::new(alloc)),
        }
    }

    /// Keeps bytes that were read, or nothing any more, where memory is refused.
    fn keep(&mut self, bytes: &[u8]) {
        if let Some(kept) = &mut self.kept
            && kept.extend_from_slice(bytes).is_err()
        {
            self.kept = None;
        }
    }
}

impl<R: Read + Drop> Read for Keeping<R> {
    fn read(&mut self, buf: &mut [u8]) -> io::Result<usize> {
        let count = self.reader.read(buf)?;
        self.keep(&buf[..count]);
        Ok(count)
    }
}

/// Shows a line of a script, counted from 1. What is no printable ASCII is escaped, so that no script controls the terminal.
fn show_line(err: &mut Stderr, script: &[u8], number: u64) {
    let lines_before = number.saturating_sub(1) as usize;
    let Some(line) = script.split(|byte| *byte == b'\n').nth(lines_before) else {
        return;
    };
    let shown = &line[..line.len().min(SHOWN_BYTES)];
    let rest = if shown.len() < line.len() { ".." } else { "" };
    let text = shown.escape_ascii();
    let _ = writeln!(err, "line '{text}'{rest}");
}

/// Runs a script, and shows the line that is bad, or that breaks order. `strike` counts the lines of its slot alone, so there the second is
/// not shown.
fn run_and_show(
    rt: &HostRuntime,
    mut details: Stderr,
    only: Option<Slot>,
) -> Result<u8, ScriptFault> {
    let alloc = rt.alloc();
    let output = BufWriter::with_capacity(alloc, OUTPUT_BYTES, rt.stdout())?;
    let (mut writer, mut err) = (Noting::new(output), Noting::new(rt.stderr()));
    let mut reader = Watched::new(Keeping::new(alloc, rt.reader()), terminal(rt));
    let status = run_script(alloc, &mut reader, &mut writer, &mut err, only);
    let number = match status {
        2 => err.number,
        3 if only.is_none() => writer.number,
        _ => return Ok(status),
    };
    if let Some(script) = &reader.reader.kept {
        show_line(&mut details, script, number);
    }
    Ok(status)
}

/// Says at a terminal that steps are awaited from it.
fn greet(rt: &HostRuntime) {
    if rt.stdin().is_terminal()
        && let Some(mut terminal) = terminal(rt)
    {
        let _ = writeln!(
            terminal,
            "xth: reads steps, one on a line, up to the end of the input (^D)"
        );
    }
}

/// Runs the script on standard input, or the steps of one slot of it. Where there are to be details, the line at fault is shown.
pub fn script_on_streams(
    rt: &HostRuntime,
    details: Option<Stderr>,
    only: Option<Slot>,
) -> Result<u8, ScriptFault> {
    greet(rt);
    if let Some(details) = details {
        return run_and_show(rt, details, only);
    }
    let alloc = rt.alloc();
    let mut writer = BufWriter::with_capacity(alloc, OUTPUT_BYTES, rt.stdout())?;
    Ok(run_script(alloc, &mut rt.reader(), &mut writer, &mut rt.stderr(), only))
}
