//! Scripts at the greatest sizes: the longest line, all transactions, all legs, many lines. The longest checkpoint is the script
//! `edge.pieces.65` of `rows`.

use crate::scripts::says;
use std::alloc::Global;
use std::fmt::{self, Write};
use std::process::Abort;

/// The lines of a script and what they print, put together piece by piece.
#[derive(Drop)]
struct Script {
    input: String,
    want: String,
    /// Whether there was memory for all pieces.
    is_whole: bool,
}

/// Puts a text behind another, in which each `#` stands for the next number.
fn put(text: &mut String, more: &str, numbers: &[u64]) -> fmt::Result {
    let mut next = numbers.iter();
    for c in more.chars() {
        if c == '#' {
            write!(text, "{}", next.next().ok_or(fmt::Error)?)?;
        } else {
            text.write_char(c)?;
        }
    }
    Ok(())
}

/// Puts a text behind another, so many times.
fn put_times(text: &mut String, more: &str, count: usize) -> fmt::Result {
    for _time in 0..count {
        text.write_str(more)?;
    }
    Ok(())
}

impl Script {
    /// A mount of slot 0 with a log of 65,536 bytes, and the greatest home device.
    fn mounted(alloc: Global) -> Self {
        let mut script = Script {
            input: String::new(alloc),
            want: String::new(alloc),
            is_whole: true,
        };
        script.asks("mount 0 65536 1099511627776\n", &[]);
        script.wants("0 life 1\n", &[]);
        script
    }

    /// Puts lines behind the script.
    fn asks(&mut self, more: &str, numbers: &[u64]) {
        let is_put = put(&mut self.input, more, numbers).is_ok();
        self.is_whole &= is_put;
    }

    /// Puts lines behind what it prints.
    fn wants(&mut self, more: &str, numbers: &[u64]) {
        let is_put = put(&mut self.want, more, numbers).is_ok();
        self.is_whole &= is_put;
    }

    /// The same for a text that comes so many times.
    fn asks_times(&mut self, more: &str, count: usize) {
        let is_put = put_times(&mut self.input, more, count).is_ok();
        self.is_whole &= is_put;
    }

    fn wants_times(&mut self, more: &str, count: usize) {
        let is_put = put_times(&mut self.want, more, count).is_ok();
        self.is_whole &= is_put;
    }

    /// The first checkpoint is forced and lands with two pieces, of which the log is offered the lines that come next.
    fn lands(&mut self) {
        self.asks("0.1 force\npost 0.1.ckpt.1\ntake 7 0.1.ckpt.1\n", &[]);
        self.asks("begin 7 0.1.ckpt.1\nend 7 0.1.ckpt.1 2 ok\n", &[]);
        self.wants("0 wait c1\n0 ok\n0 ok\n0 begun c1 2\n0 landed c1\n", &[]);
    }

    /// Asserts that the script is run to its end and prints just what is wanted.
    fn says(&self, rt: &impl Abort, alloc: Global) {
        assert!(rt; self.is_whole);
        says(rt, alloc, self.input.as_str(), self.want.as_str(), 0);
    }
}

/// A block without equal neighbours is logged and seen.
fn log_uneven_block(script: &mut Script) {
    script.asks("0.1 alloc 4144 1 plain\n0.1 get t1 1099511627775\n", &[]);
    script.asks("0.1 log t1 1099511627775 0 ", &[]);
    script.asks_times("0102", 2048);
    script.asks("\n0.1 view t1 1099511627775\n0.1 commit t1\n", &[]);
    script.wants("0 t1\n0 ok\n0 ok\n0 data ", &[]);
    script.wants_times("0102", 2048);
    script.wants("\n0 c1\n", &[]);
}

/// The two pieces of its checkpoint.
fn want_uneven_pieces(script: &mut Script) {
    script.wants("0 log 58435031.00*7.0100000001000000.ff*9.00*4.", &[]);
    script.wants_times("0102", 2032);
    script.wants(" ok\n0 log ", &[]);
    script.wants_times("0102", 16);
    script.wants("5843453100000001.00*7.01 ok\n0 logsync ok\n", &[]);
}

/// A block without equal neighbours has a line, a reply and offers of more than 8,192 bytes.
#[test]
fn a_line_of_8_kilobytes(rt: HostRuntime) {
    let mut script = Script::mounted(rt.alloc());
    log_uneven_block(&mut script);
    script.lands();
    want_uneven_pieces(&mut script);
    script.asks("0.1 push\npost 0.1.flush.2\ntake 7 0.1.flush.2\n", &[]);
    script.asks("flush 7 0.1.flush.2 ok ok\n0.1 unmount\n", &[]);
    script.wants("0 ok\n0 ok\n0 ok\n0 flushed 1\n0 home 1099511627775 ", &[]);
    script.wants_times("0102", 2048);
    script.wants(" ok\n0 homesync ok\n0 ok\n", &[]);
    script.says(&rt, rt.alloc());
}

/// Each of 32 transactions changes a block of its own, and the first one has block 1.
fn change_in_each(script: &mut Script) {
    for n in 1..33u64 {
        script.asks(
            "0.1 read t# # = 00*4096\n0.1 log t# # 0 11\n",
            &[n, n, n, n],
        );
        script.asks("0.1 get t# 1\n", &[n]);
        script.wants("0 ok\n0 ok\n", &[]);
        script.wants(if n == 1 { "0 ok\n" } else { "0 EAGAIN\n" }, &[]);
    }
}

/// 32 transactions are open, each with a change of its own; the 33rd waits until one has ended.
#[test]
fn all_transactions_at_once(rt: HostRuntime) {
    let mut script = Script::mounted(rt.alloc());
    for n in 1..33u64 {
        script.asks("0.1 alloc 176 8 perm\n", &[]);
        script.wants("0 t#\n", &[n]);
    }
    script.asks("0.1 alloc 176 8 perm\n", &[]);
    script.wants("0 EAGAIN\n", &[]);
    change_in_each(&mut script);
    for n in 1..33u64 {
        script.asks("0.1 commit t#\n", &[n]);
        script.wants("0 c1\n", &[]);
    }
    script.asks("0.1 alloc 176 8 perm\n0.1 cancel t1\n0.1 cancel t33\n", &[]);
    script.wants("0 t33\n0 EINVAL\n0 ok\n", &[]);
    script.says(&rt, rt.alloc());
}

/// A transaction of 8 legs rolls over them all, and once more by a new unit; each leg changes a block.
#[test]
fn all_legs_of_a_transaction(rt: HostRuntime) {
    let mut script = Script::mounted(rt.alloc());
    script.asks("0.1 alloc 176 9 perm\n0.1 alloc 176 8 perm\n", &[]);
    script.wants("0 EINVAL\n0 t1\n", &[]);
    for leg in 1..9u64 {
        script.asks("0.1 read t1 # = 00*4096\n0.1 log t1 # 0 11\n", &[leg, leg]);
        script.asks("0.1 log t1 0 0 11\n0.1 roll t1\n", &[]);
        script.wants("0 ok\n0 ok\n0 EINVAL\n0 c1\n", &[]);
    }
    script.asks("0.1 alloc 65536 1 plain\n0.1 commit t1\n", &[]);
    script.wants("0 EAGAIN\n0 c0\n", &[]);
    script.says(&rt, rt.alloc());
}

/// 10,000 lines: a mount, and then transactions that only look.
#[test]
fn a_script_of_10_000_lines(rt: HostRuntime) {
    let mut script = Script::mounted(rt.alloc());
    for n in 1..3334u64 {
        let answer = if n == 1 { " = 33*4096" } else { "" };
        script.asks("0.1 alloc 1 1 plain\n0.1 read t# 7", &[n]);
        script.asks(answer, &[]);
        script.asks("\n0.1 cancel t#\n", &[n]);
        script.wants("0 t#\n0 ok\n0 ok\n", &[n]);
    }
    assert_eq!(rt; script.input.lines().count(), 10_000);
    script.says(&rt, rt.alloc());
}
