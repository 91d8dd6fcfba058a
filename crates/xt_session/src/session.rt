//! Sessions: what is read, what is answered, and how they end.

ghost use Rattle.std.specs.Prelude.{◌≡◌, ◌≤◌, ◌<◌, ◌+◌, ◌-◌, [], IfNone, IfSome, length, take};
ghost use Rattle.xt_session.specs.Cut.{cut, line_end};
ghost use Rattle.xt_session.specs.Session.{Breaks, IsSession, Ran, Writes};
ghost use Rattle.xt_session.specs.Turns.{IsFirst, Last, Turns};

use crate::calls::Calls;
use crate::intake::{Fetched, Intake};
use crate::reply::answer;
use crate::session_end::SessionEnd;
use std::alloc::Global;
use std::io::{Read, Write};
use xt_text::buffer::Text;

/// How much a session reads at most, in bytes, where each turn at the reader counts as one at least.
pub const SESSION_BYTES: u64 = 1_000_000_000;

/// How many bytes of a text stand before its first newline; all, where it has none.
fn line_len(text: &[u8]) -> usize
    ensures { result ≡ line_end text.now }
{
    text.iter().take_while(|byte| **byte != b'\n').count()
}

/// The first line of a text and what stands behind its newline, if there is one.
#[tactic(auto, using(crate::proofs::CutLemmas::none_at))]
fn first_line(text: &[u8]) -> Option<(&[u8], &[u8])>
    ensures first { IfSome result (λ cut. IsFirst text.now cut.0.now cut.1.now) }
    ensures shorter { IfSome result (λ cut. length cut.1.now < length text.now) }
    ensures none { IfNone result ((cut text.now).lines ≡ []) }
{
    let at = line_len(text);
    if at < text.len() {
        Some((&text[..at], &text[at + 1..]))
    } else {
        None
    }
}

/// Answers the lines of some bytes up to the last newline, and says how many bytes stand behind that; None where the
/// writer failed. A newline may stand among the last bytes alone, so many of them.
fn answer_lines<W: Write, C: Calls>(
    alloc: Global,
    bytes: &[u8],
    fresh: usize,
    text: &mut Text,
    writer: &mut W,
    calls: &mut C,
) -> Option<usize>
    requires fresh { fresh ≤ length bytes.now }
    requires seen { (cut (take (length bytes.now - fresh) bytes.now)).lines ≡ [] }
    ensures done { IfSome result (λ _. Writes C.answers (cut bytes.now).lines calls.old calls.new (W.contents writer.old) (W.contents writer.new)) }
    ensures left { IfSome result (λ left. left ≡ length (cut bytes.now).rest) }
    ensures fault { IfNone result (Breaks C.answers (cut bytes.now).lines calls.old calls.new (W.contents writer.old) (W.contents writer.new)) }
{
    let Some(_) = first_line(&bytes[bytes.len() - fresh..]) else {
        return Some(bytes.len());
    };
    let mut rest = bytes;
    while let Some((line, after)) = first_line(rest) {
        if !answer(alloc, line, text, writer, calls) {
            return None;
        }
        rest = after;
    }
    Some(rest.len())
}

/// Answers the lines that the last fetched bytes, so many of them, have ended, and keeps what stands behind the last
/// newline; a line that is too long is answered too. None where the session goes on.
fn answer_fetched<W: Write, C: Calls>(
    alloc: Global,
    fresh: usize,
    intake: &mut Intake,
    text: &mut Text,
    writer: &mut W,
    calls: &mut C,
) -> Option<SessionEnd>
    requires fresh { fresh ≤ length intake.old }
    requires seen { (cut (take (length intake.old - fresh) intake.old)).lines ≡ [] }
    requires room { length intake.old ≤ 8401 }
    ensures { Turns C.answers result intake.old intake.new calls.old calls.new (W.contents writer.old) (W.contents writer.new) }
{
    let Some(left) = answer_lines(alloc, intake.bytes(), fresh, text, writer, calls) else {
        return Some(SessionEnd::WriteFault);
    };
    intake.keep_last(left);
    if !intake.is_full() {
        return None;
    }
    if answer(alloc, intake.bytes(), text, writer, calls) {
        Some(SessionEnd::TooLong)
    } else {
        Some(SessionEnd::WriteFault)
    }
}

/// Answers what stands behind the last newline at the end of the input, where anything does.
fn answer_last<W: Write, C: Calls>(
    alloc: Global,
    line: &[u8],
    text: &mut Text,
    writer: &mut W,
    calls: &mut C,
) -> SessionEnd
    ensures { Last C.answers result line.now calls.old calls.new (W.contents writer.old) (W.contents writer.new) }
{
    if line.is_empty() {
        return SessionEnd::End;
    }
    if answer(alloc, line, text, writer, calls) {
        SessionEnd::End
    } else {
        SessionEnd::WriteFault
    }
}

/// Reads, answers and writes up to the end of the session.
fn serve<R: Read, W: Write, C: Calls>(
    alloc: Global,
    reader: &mut R,
    writer: &mut W,
    calls: &mut C,
    bound: u64,
    mut intake: Intake,
    mut text: Text,
) -> SessionEnd
    requires { intake ≡ [] }
    ensures { Ran C.answers bound calls.old calls.new (R.remaining reader.old) (R.remaining reader.new) (W.contents writer.old) (W.contents writer.new) result }
{
    let mut left = bound;
    while left > 0 {
        match intake.fetch(reader, left) {
            Fetched::Bytes(count) => {
                left -= count as u64;
                let end = answer_fetched(alloc, count, &mut intake, &mut text, writer, calls);
                if let Some(end) = end {
                    return end;
                }
            }
            Fetched::Again => left -= 1,
            Fetched::End => return answer_last(alloc, intake.bytes(), &mut text, writer, calls),
            Fetched::Fault => return SessionEnd::ReadFault,
        }
    }
    SessionEnd::ReadFault
}

/// Makes the buffers, and then reads, answers and writes.
fn run<R: Read, W: Write, C: Calls>(
    alloc: Global,
    reader: &mut R,
    writer: &mut W,
    calls: &mut C,
    bound: u64,
) -> SessionEnd
    ensures { Ran C.answers bound calls.old calls.new (R.remaining reader.old) (R.remaining reader.new) (W.contents writer.old) (W.contents writer.new) result }
{
    match (Intake::new(alloc), Text::new(alloc)) {
        (Ok(intake), Ok(text)) => serve(alloc, reader, writer, calls, bound, intake, text),
        _ => SessionEnd::Memory,
    }
}

/// A session that reads at most so many bytes, where each turn at the reader counts as one at least; past that it ends
/// as by a read fault. `session` says what it does.
pub fn session_bounded<R: Read, W: Write, C: Calls>(
    alloc: Global,
    reader: &mut R,
    writer: &mut W,
    calls: &mut C,
    bound: u64,
) -> SessionEnd
    ensures { IsSession C.answers C.ends bound calls.old calls.new (R.remaining reader.old) (R.remaining reader.new) (W.contents writer.old) (W.contents writer.new) result }
{
    let end = run(alloc, reader, writer, calls, bound);
    calls.end();
    end
}

/// Reads lines, and writes the object's reply to each as a line, until the input ends, a line is too long, the reader
/// or the writer fails, or 1,000,000,000 bytes have been read (each turn at the reader counts as one at least).
///
/// A line that sessions do not read is answered `bad line`; one that there was no memory to parse, `ENOMEM`; and the
/// session goes on. One over 8,400 bytes is answered `bad line`, and the session ends. A last line needs no newline at
/// the end of the input; at a read fault the bytes behind the last newline are no line. A read or a write that a signal
/// interrupts is tried again; a write that takes nothing is a fault. The object's `end` is called once, last, in every
/// case.
///
/// What no clause can say: that memory is found, and that a reader or a writer does not fail. So a session that
/// ends at once by a fault, or one that answers ENOMEM to lines that carry data, would meet the clause; tests show that it does not.
pub fn session<R: Read, W: Write, C: Calls>(
    alloc: Global,
    reader: &mut R,
    writer: &mut W,
    calls: &mut C,
) -> SessionEnd
    ensures { IsSession C.answers C.ends 1000000000 calls.old calls.new (R.remaining reader.old) (R.remaining reader.new) (W.contents writer.old) (W.contents writer.new) result }
{
    session_bounded(alloc, reader, writer, calls, SESSION_BYTES)
}
