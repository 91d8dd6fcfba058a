//! Lines parsed as steps.

ghost use Rattle.std.specs.Prelude.{◌≡◌, ◌<◌, ◌≤◌, ◌↔◌, length, vec_capacity, vec_len, IfOk, IsErrOf, IsTrue, None, OnErr, OnOk, Some};
ghost use Rattle.xt_base.specs.declared.steps.Step.{Step as AnyStep};
ghost use Rattle.xt_text.specs.LineReading.{is_strict, is_strict_request, parsed, step_of, IsReadBehind};
ghost use Rattle.xt_text.specs.Lines.{IsStep, line_of};
ghost use Rattle.xt_text.specs.Reading.{Gives, GivesAs};
ghost use Rattle.xt_text.specs.SessionLines.{takes_memory};
ghost use Rattle.xt_text.specs.declared.bad_line.BadLine.TheVariants.{Memory, Spelling};

use crate::bad_line::BadLine;
use crate::buffer::Text;
use crate::print_step::print_step;
use crate::read_line::step_of;
use std::alloc::Global;
use xt_base::names::Slot;
use xt_base::steps::{Request, Step};

/// The most bytes of a line, without its newline.
pub const LINE_BYTES: usize = 8400;

/// Whether no line but its own gives a request: not a read, behind which an answer stands, nor a verb that stands alone.
fn is_strict_request(request: &Request) -> bool
    ensures { result ≡ is_strict_request request.now }
{
    !matches!(
        request,
        Request::Read { .. }
            | Request::Force
            | Request::Push
            | Request::Shutdown
            | Request::Freeze
            | Request::Thaw
            | Request::Stat
            | Request::Unmount
    )
}

/// Whether no line but its own gives a step: not where answers are spelled, nor where a size may stand.
fn is_strict(step: &Step) -> bool
    ensures { result ≡ is_strict step.now }
{
    match step {
        Step::Call { request, .. } => is_strict_request(request),
        Step::Mount { .. } | Step::Flush { .. } => false,
        _ => true,
    }
}

/// Whether a line that gives a step is the line of that step: it is printed to tell, where other lines may give it too.
#[tactic(auto, using(crate::proofs::ParseLemmas::line_is_printed, crate::proofs::ParseLemmas::printed_is_line, crate::proofs::StrictLemmas::step_strict))]
fn is_line_of(line: &[u8], step: &Step, text: &mut Text) -> bool
    requires short { length line.now ≤ 8400 }
    requires given { step_of line.now ≡ Some step.now }
    ensures { IsTrue result ↔ (line.now ≡ line_of step.now) }
{
    if is_strict(step) {
        return true;
    }
    text.clear();
    print_step(step, text);
    text.holds(line)
}

/// A step that is written over.
#[inline(always)]
fn any_step() -> Step {
    Step::Show(Slot::new(0).unwrap())
}

/// Reads the step that a line spells where it is to stand: a step is large, so it is put there by what reads it, and looked at there.
#[inline(always)]
#[tactic(auto, using(crate::proofs::ParseLemmas::other_parsed, crate::proofs::ParseLemmas::same_parsed, crate::proofs::ParseLemmas::none_parsed, crate::proofs::ParseLemmas::long_parsed))]
fn read_step(alloc: Global, line: &[u8], text: &mut Text, step: &mut Step) -> Result<(), BadLine>
    ensures value { GivesAs (λ _. step.new) result (parsed line.now) }
    ensures valid { OnOk result (IsStep step.new) }
    ensures found { OnOk result (line.now ≡ line_of step.new) }
    ensures short { OnOk result (length line.now ≤ 8400) }
    ensures memory { IsErrOf result Memory → IsTrue (takes_memory line.now) }
{
    if line.len() > LINE_BYTES {
        return Err(BadLine::Spelling);
    }
    step_of(alloc, line, text, step)?;
    if is_line_of(line, step, text) {
        Ok(())
    } else {
        Err(BadLine::Spelling)
    }
}

/// The step that a line spells, without its newline. A line that is not the one spelling of a step is a bad line, and
/// so is one of more than 8,400 bytes. It is answered Memory only where a growth was refused.
pub fn parse_line(alloc: Global, line: &[u8]) -> Result<Step, BadLine>
    ensures parsed { Gives result (parsed line.now) }
    ensures valid { IfOk result IsStep }
    ensures found { IfOk result (λ step. line.now ≡ line_of step) }
    ensures only { (step : AnyStep) → IsStep step → line.now ≡ line_of step → Gives result (Some step) }
{
    let mut text = Text::new(alloc)?;
    parse_line_in(alloc, line, &mut text)
}

/// `parse_line` in a buffer that serves line after line: whatever it holds, it is written over. Only a line whose
/// words say that data or answers follow is answered Memory.
pub fn parse_line_in(alloc: Global, line: &[u8], text: &mut Text) -> Result<Step, BadLine>
    ensures parsed { Gives result (parsed line.now) }
    ensures valid { IfOk result IsStep }
    ensures found { IfOk result (λ step. line.now ≡ line_of step) }
    ensures only { (step : AnyStep) → IsStep step → line.now ≡ line_of step → Gives result (Some step) }
    ensures short { OnOk result (length line.now ≤ 8400) }
    ensures memory { IsErrOf result Memory → IsTrue (takes_memory line.now) }
{
    let mut step = any_step();
    read_step(alloc, line, text, &mut step)?;
    Ok(step)
}

/// `parse_line_in`, with the step put behind others, which stand alone where the line is bad. Where they have room for one more, only a
/// line whose words say that data or answers follow is answered Memory.
pub fn parse_line_behind(
    alloc: Global,
    line: &[u8],
    text: &mut Text,
    steps: &mut Vec<Step>,
) -> Result<(), BadLine>
    ensures put { OnOk result (IsReadBehind line.now steps.new.items steps.old.items) }
    ensures bad { IsErrOf result Spelling → parsed line.now ≡ None }
    ensures kept { OnErr result (steps.new.items ≡ steps.old.items) }
    ensures memory { IsErrOf result Memory → vec_len steps.old < vec_capacity steps.old → IsTrue (takes_memory line.now) }
{
    let at = steps.len();
    let Ok(()) = steps.push(any_step()) else {
        return Err(BadLine::Memory);
    };
    match read_step(alloc, line, text, &mut steps[at]) {
        Ok(()) => Ok(()),
        Err(bad) => {
            steps.pop();
            Err(bad)
        }
    }
}
