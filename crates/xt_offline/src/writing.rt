//! Bytes written so that it is known of a writer which fails how far it came.

ghost use Rattle.std.specs.Prelude.{◌++◌, MatchResult, OnOk};
ghost use Rattle.std.specs.Io.KnownBytes.{Appends, Keeps};
ghost use Rattle.xt_offline.specs.Printing.{numbered, Begins, IsWrittenUpTo};

use itoa::Buffer;
use std::io::{self, ErrorKind, Write};

/// Writes all the bytes, or a beginning of them up to the writer's failure.
#[tactic(auto, using(crate::proofs::AppendLemmas::written_all, crate::proofs::AppendLemmas::written_begins, crate::proofs::AppendLemmas::written_fails, crate::proofs::AppendLemmas::written_more, crate::proofs::AppendLemmas::written_none))]
pub fn write_bytes<W: Write>(writer: &mut W, bytes: &[u8]) -> io::Result<()>
    ensures all { OnOk result (Appends (W.contents writer.old) (W.contents writer.new) bytes.now) }
    ensures part { Begins (W.contents writer.old) (W.contents writer.new) bytes.now }
{
    let mut rest = bytes;
    for _try in 0..u64::MAX {
        if rest.is_empty() {
            return Ok(());
        }
        rest = write_some(writer, rest)?;
    }
    Err(io::Error::from(ErrorKind::TimedOut))
}

/// Writes as many of the bytes as the writer takes at once, none where it was interrupted, and gives the others.
fn write_some<'a, W: Write>(writer: &mut W, bytes: &'a [u8]) -> io::Result<&'a [u8]>
    ensures { MatchResult result (λ rest. IsWrittenUpTo (W.contents writer.old) (W.contents writer.new) bytes.now rest.now) (λ _. Keeps (W.contents writer.old) (W.contents writer.new)) }
{
    match writer.write(bytes) {
        Ok(0) => Err(io::Error::from(ErrorKind::WriteZero)),
        Ok(count) => Ok(&bytes[count..]),
        Err(error) if error.kind() == ErrorKind::Interrupted => Ok(bytes),
        Err(error) => Err(error),
    }
}

/// Writes two texts, one behind the other.
pub fn write_both<W: Write>(writer: &mut W, first: &[u8], second: &[u8]) -> io::Result<()>
    ensures all { OnOk result (Appends (W.contents writer.old) (W.contents writer.new) (first.now ++ second.now)) }
    ensures part { Begins (W.contents writer.old) (W.contents writer.new) (first.now ++ second.now) }
{
    write_bytes(writer, first)?;
    write_bytes(writer, second)
}

/// Writes words, a number and a newline.
pub fn write_numbered<W: Write>(writer: &mut W, words: &[u8], number: u64) -> io::Result<()>
    ensures all { OnOk result (Appends (W.contents writer.old) (W.contents writer.new) (numbered words.now number)) }
    ensures part { Begins (W.contents writer.old) (W.contents writer.new) (numbered words.now number) }
{
    write_bytes(writer, words)?;
    write_bytes(writer, Buffer::new().format(number).as_bytes())?;
    write_bytes(writer, b"\n")
}
