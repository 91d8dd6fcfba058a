//! `xth script` and `xth strike`: all lines are parsed, then run, or those of one slot, and each reply is printed as it is given, with
//! the offers that its step made.

ghost use Rattle.std.specs.Prelude.{◌≡◌, [], IfErr, IfOk, IfSome, OnErr, OnOk, false};
ghost use Rattle.xt_base.specs.Alone.{alone};
ghost use Rattle.xt_base.specs.Sound.{Each};
ghost use Rattle.xt_base.specs.Steps.{slot_of};
ghost use Rattle.xt_core.specs.Host.{lone_of, may_come};
ghost use Rattle.xt_core.specs.Runs.{is_offering};
ghost use Rattle.xt_core.specs.declared.host.TurnFault.{TurnFault as ATurnFault};
ghost use Rattle.xt_text.specs.Lines.{IsStep};
ghost use Rattle.xt_offline.specs.Printing.{log_lines};
ghost use Rattle.xt_offline.specs.Script.{is_of_script, picked, IsCutShort, IsFault, IsPlayed, IsPrinted, IsPutBehind, IsReported, IsRun};

use crate::fault::ScriptFault;
use crate::lines::{parse_script, read_script};
use crate::printing::{print_broken, put_ending, put_turn};
use crate::waiting::Waiting;
use crate::writing::{write_bytes, write_numbered};
use std::alloc::{AllocError, Global};
use std::io::{self, Read, Write};
use std::mem::ManuallyDrop;
use xt_base::names::Slot;
use xt_base::steps::Step;
use xt_core::HostCore;
use xt_core::host::TurnFault;

/// The steps that are run: all, or those of one slot.
fn pick(alloc: Global, steps: Vec<Step>, only: Option<Slot>) -> Result<Vec<Step>, ScriptFault>
    ensures picked { IfOk result (λ chosen. chosen.items ≡ picked only steps.items) }
    ensures fault { IfErr result (λ fault. is_of_script fault ≡ false) }
{
    let Some(slot) = only else {
        return Ok(steps);
    };
    match HostCore::strike(alloc, &steps, slot) {
        Ok(struck) => Ok(struck),
        Err(_) => Err(ScriptFault::Memory(AllocError)),
    }
}

/// Takes a step, and puts what it said behind the lines that wait to be written. Offers are put aside in a buffer that serves step
/// after step.
fn put_step(
    host: &mut HostCore,
    waiting: &mut Waiting,
    offers: &mut Waiting,
    step: &Step,
) -> Result<(), TurnFault>
    ensures put { OnOk result (IsPutBehind step.now host.new host.old waiting.new waiting.old) }
    ensures disorder { IfErr result (λ fault. fault ≡ ATurnFault.Disorder → (may_come host.old step.now ≡ false) × (waiting.new ≡ waiting.old)) }
{
    if is_offering(step) {
        put_offering(host, waiting, offers, step)
    } else {
        put_quiet(host, waiting, step)
    }
}

/// Whether a step offers something to a device: the end of a checkpoint, and a flush.
fn is_offering(step: &Step) -> bool
    ensures { result ≡ is_offering step.now }
{
    matches!(step, Step::End { .. } | Step::Flush { .. })
}

/// The same of a step that offers nothing.
#[inline(always)]
#[tactic(auto, using(crate::proofs::PutLemmas::put_quiet))]
fn put_quiet(host: &mut HostCore, waiting: &mut Waiting, step: &Step) -> Result<(), TurnFault>
    requires { is_offering step.now ≡ false }
    ensures put { OnOk result (IsPutBehind step.now host.new host.old waiting.new waiting.old) }
    ensures disorder { IfErr result (λ fault. fault ≡ ATurnFault.Disorder → (may_come host.old step.now ≡ false) × (waiting.new ≡ waiting.old)) }
{
    let Ok(reply) = host.answer(step) else {
        return Err(TurnFault::Disorder);
    };
    waiting
        .put_reply(step.slot(), &reply)
        .map_err(|_| TurnFault::Memory)
}

/// The same of a step that offers something. What the end of a checkpoint offers is put aside before the step is taken, so that the
/// pieces need no copy.
#[inline(never)]
fn put_offering(
    host: &mut HostCore,
    waiting: &mut Waiting,
    offers: &mut Waiting,
    step: &Step,
) -> Result<(), TurnFault>
    ensures put { OnOk result (IsPutBehind step.now host.new host.old waiting.new waiting.old) }
    ensures disorder { IfErr result (λ fault. fault ≡ ATurnFault.Disorder → (may_come host.old step.now ≡ false) × (waiting.new ≡ waiting.old)) }
{
    let Some((answers, pieces)) = host.ending(step) else {
        let turn = host.tell(step)?;
        return put_turn(waiting, &turn).map_err(|_| TurnFault::Memory);
    };
    offers.clear();
    let Ok(()) = put_ending(offers, step.slot(), answers, pieces) else {
        return Err(TurnFault::Memory);
    };
    put_ended(host, waiting, offers, step)
}

/// Takes the end of a checkpoint, whose offers are given as lines, and puts its reply and these behind the lines that wait.
#[tactic(auto, using(crate::proofs::PutLemmas::put_refused, crate::proofs::PutLemmas::put_whole))]
fn put_ended(
    host: &mut HostCore,
    waiting: &mut Waiting,
    offers: &Waiting,
    step: &Step,
) -> Result<(), TurnFault>
    requires log { offers.now ≡ log_lines (slot_of step.now) (alone step.now (lone_of host.old (slot_of step.now))).log }
    requires home { (alone step.now (lone_of host.old (slot_of step.now))).home ≡ [] }
    ensures put { OnOk result (IsPutBehind step.now host.new host.old waiting.new waiting.old) }
    ensures disorder { IfErr result (λ fault. fault ≡ ATurnFault.Disorder → (may_come host.old step.now ≡ false) × (waiting.new ≡ waiting.old)) }
{
    let Ok(reply) = host.answer(step) else {
        return Err(TurnFault::Disorder);
    };
    let Ok(()) = waiting.put_reply(step.slot(), &reply) else {
        return Err(TurnFault::Memory);
    };
    if reply.is_no_memory() {
        return Ok(());
    }
    waiting.put_all(offers).map_err(|_| TurnFault::Memory)
}

/// Runs steps, and prints what each said, many lines at once: the status is 0, or 3 where one breaks order.
#[tactic(auto, using(crate::proofs::PlayLemmas::cut_none))]
fn play_steps<W: Write>(alloc: Global, writer: &mut W, steps: &[Step]) -> Result<u8, ScriptFault>
    requires { Each IsStep steps.now }
    ensures printed { IfOk result (IsPrinted steps.now (W.contents writer.old) (W.contents writer.new)) }
    ensures cut { OnErr result (IsCutShort steps.now (W.contents writer.old) (W.contents writer.new)) }
    ensures fault { IfErr result (λ fault. is_of_script fault ≡ false) }
{
    let mut host = HostCore::new(alloc).map_err(ScriptFault::Memory)?;
    let mut waiting = Waiting::new(alloc).map_err(ScriptFault::Memory)?;
    let mut offers = Waiting::new(alloc).map_err(ScriptFault::Memory)?;
    for (at, step) in steps.iter().enumerate() {
        match put_step(&mut host, &mut waiting, &mut offers, step) {
            Ok(()) => {}
            Err(TurnFault::Disorder) => {
                print_broken(writer, &mut waiting, at).map_err(ScriptFault::Io)?;
                return Ok(3);
            }
            Err(TurnFault::Memory) => return Err(ScriptFault::Memory(AllocError)),
        }
        if waiting.are_many() {
            waiting.write(writer).map_err(ScriptFault::Io)?;
        }
    }
    waiting.write(writer).map_err(ScriptFault::Io)?;
    Ok(0)
}

/// The same, with all that the writer holds back written too.
fn play_to_the_end<W: Write>(
    alloc: Global,
    writer: &mut W,
    steps: &[Step],
) -> Result<u8, ScriptFault>
    requires { Each IsStep steps.now }
    ensures printed { IfOk result (IsPrinted steps.now (W.contents writer.old) (W.contents writer.new)) }
    ensures cut { OnErr result (IsCutShort steps.now (W.contents writer.old) (W.contents writer.new)) }
    ensures fault { IfErr result (λ fault. is_of_script fault ≡ false) }
{
    let status = play_steps(alloc, writer, steps)?;
    writer.flush().map_err(ScriptFault::Io)?;
    Ok(status)
}

/// Reads, parses, runs and prints: the status is 0, or 3 where a step breaks order. The steps too are left to the end of the process.
#[tactic(auto, using(crate::proofs::PlayLemmas::fault_unread, crate::proofs::PlayLemmas::fault_unparsed, crate::proofs::PlayLemmas::fault_unpicked))]
fn play<R: Read, W: Write>(
    alloc: Global,
    reader: &mut R,
    writer: &mut W,
    only: Option<Slot>,
) -> Result<u8, ScriptFault>
    ensures played { IfOk result (λ status. IfSome (R.remaining reader.old) (λ script. IsPlayed only script (W.contents writer.old) (W.contents writer.new) status)) }
    ensures fault { IfErr result (λ fault. IfSome (R.remaining reader.old) (λ script. IsFault only script (W.contents writer.old) (W.contents writer.new) fault)) }
{
    let script = read_script(alloc, reader)?;
    let steps = pick(alloc, parse_script(alloc, &script)?, only)?;
    drop(script);
    let played = play_to_the_end(alloc, writer, &steps);
    let _left = ManuallyDrop::new(steps);
    played
}

/// Runs a script: parses all its lines, runs the steps (with `only`, those of one slot), and prints for each step
/// the slot and the reply, followed by a line for each offer that the step made. It answers the exit status:
/// 0; 1 after a fault, which is printed on `err`, with at most a beginning of what a run prints on `writer`; 2 after
/// `bad line N` on `err`, with nothing on `writer`; 3 after the lines before the first step that breaks order and
/// `disorder N`. What is printed on `err` may end early, where `err` fails.
#[tactic(auto, using(crate::proofs::PlayLemmas::run_whole, crate::proofs::PlayLemmas::run_stopped))]
pub fn run_script<R: Read, W: Write, E: Write>(
    alloc: Global,
    reader: &mut R,
    writer: &mut W,
    err: &mut E,
    only: Option<Slot>,
) -> u8
    ensures { IfSome (R.remaining reader.old) (λ script. IsRun only script (W.contents writer.old) (W.contents writer.new) (E.contents err.old) (E.contents err.new) result) }
{
    match play(alloc, reader, writer, only) {
        Ok(status) => status,
        Err(fault) => {
            let _ = report(err, &fault);
            fault.status()
        }
    }
}

/// Tells of a fault: which line is no step's, that the script is too long, or the words of another.
fn report<E: Write>(err: &mut E, fault: &ScriptFault) -> io::Result<()>
    ensures { IsReported fault.now (E.contents err.old) (E.contents err.new) }
{
    match fault {
        ScriptFault::BadLine(number) => write_numbered(err, b"bad line ", *number as u64),
        ScriptFault::TooLong => write_bytes(err, b"fault: script too long\n"),
        ScriptFault::Io(_) | ScriptFault::Memory(_) => writeln!(err, "{fault}"),
    }
}
