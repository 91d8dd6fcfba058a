//! What scripts print and how they end, with readers and writers that fail.

use crate::rows::ROW01_IN;
use std::alloc::Global;
use std::io::{self, Read, Write};
use std::process::Abort;
use xt_base::names::Slot;
use xt_offline::run_script;

/// A disk that is full.
#[derive(Drop)]
struct Full;

impl Write for Full {
    fn write(&mut self, _: &[u8]) -> io::Result<usize> {
        Err(io::Error::from(io::ErrorKind::StorageFull))
    }

    fn flush(&mut self) -> io::Result<()> {
        Ok(())
    }
}

/// Takes all bytes, and cannot flush them.
#[derive(Drop)]
struct Stuck(Vec<u8>);

impl Write for Stuck {
    fn write(&mut self, buf: &[u8]) -> io::Result<usize> {
        self.0.write(buf)
    }

    fn flush(&mut self) -> io::Result<()> {
        Err(io::Error::from(io::ErrorKind::StorageFull))
    }
}

/// Whether the steps of a script, or those of one slot, print just this, and the status is this.
fn is_said(alloc: Global, input: &str, only: Option<Slot>, want: &str, status: u8) -> bool {
    let (mut out, mut err) = (Vec::new(alloc), Vec::new(alloc));
    let got = run_script(alloc, &mut input.as_bytes(), &mut out, &mut err, only);
    got == status && out.as_slice() == want.as_bytes() && err.is_empty()
}

/// Asserts what a script prints, and its status.
pub fn says(rt: &impl Abort, alloc: Global, input: &str, want: &str, status: u8) {
    assert!(rt; is_said(alloc, input, None, want, status));
}

/// Steps of two slots, among each other.
const TWO_SLOTS: &str = "\
    mount 0 65536 1024\n\
    mount 1 65536 1024\n\
    0.1 alloc 5000 1 plain\n\
    1.1 alloc 5000 1 plain\n\
    0.1 get t1 7\n";

/// Slots, and what their steps of these print.
const ALONE: &[(u8, &str)] = &[
    (0, "0 life 1\n0 t1\n0 ok\n"),
    (1, "1 life 1\n1 t1\n"),
    (15, ""),
];

#[test]
fn the_steps_of_one_slot_are_run(rt: HostRuntime) {
    for (index, want) in ALONE {
        let only = Slot::new(*index);
        assert!(rt; is_said(rt.alloc(), TWO_SLOTS, only, want, 0));
    }
}

/// Asserts what a script that is not run prints as its fault, and its status.
fn refuses<R: Read>(rt: &impl Abort, alloc: Global, reader: &mut R, want: &str, status: u8) {
    let (mut out, mut err) = (Vec::new(alloc), Vec::new(alloc));
    let got = run_script(alloc, reader, &mut out, &mut err, None);
    assert!(rt;
        got == status && out.is_empty() && err.as_slice() == want.as_bytes(),
        "{want}"
    );
}

/// Scripts of which the second line is none.
const BAD_SECOND: &[&str] = &[
    "mount 0 65536 1024\n0.1 frob\n",
    "mount 0 65536 1024\n0.1 frob",
    "mount 0 65536 1024\n\n",
    "take 0 0.1.ckpt.1\n\nmount\n",
];

#[test]
fn a_bad_line_is_counted_and_nothing_is_run(rt: HostRuntime) {
    for script in BAD_SECOND {
        refuses(&rt, rt.alloc(), &mut script.as_bytes(), "bad line 2\n", 2);
    }
}

#[test]
fn an_endless_script_is_refused(rt: HostRuntime) {
    let want = "fault: script too long\n";
    refuses(&rt, rt.alloc(), &mut io::repeat(b' '), want, 1);
}

/// Whether a writer's failure is printed as a fault.
fn is_fault<W: Write>(alloc: Global, writer: &mut W) -> bool {
    let mut err = Vec::new(alloc);
    let got = run_script(alloc, &mut ROW01_IN.as_bytes(), writer, &mut err, None);
    got == 1 && err.starts_with(b"fault: ") && err.ends_with(b"\n")
}

#[test]
fn a_failing_writer_is_a_fault(rt: HostRuntime) {
    let alloc = rt.alloc();
    assert!(rt; is_fault(alloc, &mut Full));
    assert!(rt; is_fault(alloc, &mut Stuck(Vec::new(alloc))));
    assert!(rt; is_fault(alloc, &mut [0u8; 20].as_mut_slice()));
}
