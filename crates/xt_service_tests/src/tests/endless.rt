//! A reader that never ends.

use crate::tests::Table;
use std::alloc::Global;
use std::io::{self, Read};
use xt_service::session::session_bounded;
use xt_service::session_end::SessionEnd;

/// The line that is given, of ten bytes with its newline.
const LINE: &[u8; 10] = b"0.1 force\n";

/// Gives one line again and again, a byte a turn, and counts the turns.
#[derive(Drop)]
struct Endless(usize);

impl Read for Endless {
    fn read(&mut self, buf: &mut [u8]) -> io::Result<usize> {
        let Some(first) = buf.first_mut() else {
            return Ok(0);
        };
        *first = LINE[self.0 % LINE.len()];
        self.0 = self.0.saturating_add(1);
        Ok(1)
    }
}

/// Whether a session that may read so many bytes reads just these, ends as at a read fault, and answers each of the so many lines that
/// were read to their ends.
fn is_given_up(alloc: Global, bound: usize, lines: usize) -> bool {
    let (mut out, mut table, mut reader) = (Vec::new(alloc), Table::new(), Endless(0));
    let end = session_bounded(alloc, &mut reader, &mut out, &mut table, bound as u64);
    let is_answered = out.chunks(5).all(|line| line == b"done\n".as_slice());
    end == SessionEnd::ReadFault
        && reader.0 == bound
        && is_answered
        && (out.len() / 5, table.calls, table.ends) == (lines, lines, 1)
}

#[test]
fn a_reader_that_never_ends_is_given_up(rt: HostRuntime) {
    for (bound, lines) in [(0, 0), (9, 0), (10, 1), (1_009, 100)] {
        assert!(rt; is_given_up(rt.alloc(), bound, lines), "bound {bound}");
    }
}
