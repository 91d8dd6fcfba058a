//! The lines of a script, read and parsed.

ghost use Rattle.std.specs.Prelude.{◌≡◌, ◌≤◌, ◌==◌, IfErr, IfOk, IfSome, length, not, true, take};
ghost use Rattle.std.specs.List.{prefix_len};
ghost use Rattle.xt_base.specs.declared.steps.Step.{Step as AnyStep};
ghost use Rattle.xt_offline.specs.Script.{is_one_line, IsCut, IsFaultIn, IsScript};

use crate::fault::ScriptFault;
use memchr::memchr;
use std::alloc::{AllocError, Global};
use std::io::{self, Read};
use xt_base::steps::Step;
use xt_text::bad_line::BadLine;
use xt_text::buffer::Text;
use xt_text::parse::parse_line_behind;

/// The most bytes of a script.
pub const SCRIPT_BYTES: usize = 16_777_216;

/// What a reader has, up to a byte more than a script may have.
fn read_up_to<R: Read>(alloc: Global, reader: &mut R) -> io::Result<Vec<u8>>
    ensures { IfOk result (λ got. IfSome (R.remaining reader.old) (λ bytes. got.items ≡ take 16777217 bytes)) }
{
    let mut got = Vec::new(alloc);
    Read::take(reader, SCRIPT_BYTES as u64 + 1).read_to_end(&mut got)?;
    Ok(got)
}

/// All that a reader has, if it is at most 16,777,216 bytes.
#[tactic(auto, using(crate::proofs::ScriptLemmas::read_long, crate::proofs::ScriptLemmas::read_whole))]
pub fn read_script<R: Read>(alloc: Global, reader: &mut R) -> Result<Vec<u8>, ScriptFault>
    ensures whole { IfOk result (λ script. IfSome (R.remaining reader.old) (λ bytes. script.items ≡ bytes)) }
    ensures short { IfOk result (λ script. length script.items ≤ 16777216) }
    ensures fault { IfErr result (λ fault. IfSome (R.remaining reader.old) (λ bytes. IsFaultIn bytes fault)) }
{
    let script = read_up_to(alloc, reader).map_err(ScriptFault::Io)?;
    if script.len() > SCRIPT_BYTES {
        return Err(ScriptFault::TooLong);
    }
    Ok(script)
}

/// How many bytes of a text stand before its first newline; all, where it has none.
fn line_len(text: &[u8]) -> usize
    ensures value { result ≡ prefix_len (λ b. not (b == 10)) text.now }
    ensures bound { result ≤ length text.now }
{
    memchr(b'\n', text).unwrap_or(text.len())
}

/// The first line of a text, without its newline, and what comes after it.
#[tactic(auto, using(crate::proofs::ScriptLemmas::cut_line, crate::proofs::ScriptLemmas::cut_whole, crate::proofs::ScriptLemmas::one_line, crate::proofs::ScriptLemmas::one_whole))]
fn first_line(text: &[u8]) -> (&[u8], &[u8])
    ensures cut { IsCut text.now result.0.now result.1.now }
    ensures line { is_one_line result.0.now ≡ true }
{
    let len = line_len(text);
    if len < text.len() {
        (&text[..len], &text[len + 1..])
    } else {
        (text, &[])
    }
}

/// The steps of the lines of a script. A newline at the very end opens no line.
pub fn parse_script(alloc: Global, script: &[u8]) -> Result<Vec<Step>, ScriptFault>
    ensures steps { IfOk result (λ steps. IsScript script.now steps.items) }
    ensures bad { IfErr result (λ fault. IsFaultIn script.now fault) }
{
    let mut text = Text::new(alloc).map_err(ScriptFault::Memory)?;
    let mut steps = Vec::new(alloc);
    let mut rest = script;
    while !rest.is_empty() {
        let (line, after) = first_line(rest);
        let number = steps.len() + 1;
        match parse_line_behind(alloc, line, &mut text, &mut steps) {
            Ok(()) => {}
            Err(BadLine::Spelling) => return Err(ScriptFault::BadLine(number)),
            Err(BadLine::Memory) => return Err(ScriptFault::Memory(AllocError)),
        }
        rest = after;
    }
    Ok(steps)
}
