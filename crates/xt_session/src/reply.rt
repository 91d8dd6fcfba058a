//! One line answered, and its reply written.

ghost use Rattle.std.specs.Io.KnownBytes.{Appends};
ghost use Rattle.std.specs.Prelude.{◌≡◌, ◌≤◌, Some, [], length, take};
ghost use Rattle.xt_session.specs.Session.{Answered};
ghost use Rattle.xt_session.specs.Turns.{HoldsReply, IsReplied, held};
ghost use Rattle.xt_text.specs.Buffer.{put};

use crate::calls::Calls;
use std::alloc::Global;
use std::io::{ErrorKind, Write};
use xt_text::bad_line::BadLine;
use xt_text::buffer::Text;
use xt_text::line::Line;
use xt_text::parse::parse_line_in;
use xt_text::print_reply::print_reply;

/// The reply to a line that sessions do not read.
const BAD_LINE: &[u8] = b"bad line";

/// The reply to a line that there was no memory to parse.
const NO_MEMORY: &[u8] = b"ENOMEM";

/// Leaves a text alone in a buffer.
fn write_over(text: &mut Text, reply: &[u8])
    ensures { text.new ≡ put (Some []) reply.now }
{
    text.clear();
    text.put(reply);
}

/// Answers a line: its reply is left in the buffer, without a newline.
fn reply_to<C: Calls>(alloc: Global, line: &[u8], text: &mut Text, calls: &mut C)
    ensures answered { Answered C.answers calls.old line.now (held text.new) calls.new }
    ensures fits { HoldsReply text.new }
{
    match parse_line_in(alloc, line, text) {
        Ok(step) => {
            let line = Line(step);
            if line.in_session() {
                let reply = calls.call(line);
                text.clear();
                print_reply(&reply, text);
            } else {
                write_over(text, BAD_LINE);
            }
        }
        Err(BadLine::Spelling) => write_over(text, BAD_LINE),
        Err(BadLine::Memory) => write_over(text, NO_MEMORY),
    }
}

/// Writes a text up to the writer's first fault, and answers how many of its bytes went out. A write that a signal
/// interrupts is tried again; one that takes nothing is a fault.
#[tactic(auto, using(crate::proofs::StreamLemmas::sent_more))]
fn send<W: Write>(writer: &mut W, text: &[u8]) -> usize
    ensures bound { result ≤ length text.now }
    ensures written { Appends (W.contents writer.old) (W.contents writer.new) (take result text.now) }
{
    let mut sent = 0;
    for _ in 0..u64::MAX {
        if sent >= text.len() {
            return sent;
        }
        match writer.write(&text[sent..]) {
            Ok(0) => return sent,
            Ok(count) => sent += count,
            Err(error) if error.kind() == ErrorKind::Interrupted => (),
            Err(_) => return sent,
        }
    }
    sent
}

/// Answers a line and writes the reply, with its newline: whether all of it went out.
pub(crate) fn answer<W: Write, C: Calls>(
    alloc: Global,
    line: &[u8],
    text: &mut Text,
    writer: &mut W,
    calls: &mut C,
) -> bool
    ensures { IsReplied C.answers result line.now calls.old calls.new (W.contents writer.old) (W.contents writer.new) }
{
    reply_to(alloc, line, text, calls);
    text.push(b'\n');
    let reply = text.bytes();
    send(writer, reply) == reply.len()
}
