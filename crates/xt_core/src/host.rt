//! The pure host: sixteen slots, one queue of names, and the hands of eight workers.

ghost use Rattle.std.specs.Prelude.{◌≡◌, ◌↔◌, ◌<◌, ◌≤◌, ◌∷◌, ◌++◌, ◌&&◌, All, List, [], None, false, length, true, IfErr, IfOk, IfSome, OnErr, OnOk, is_ok, is_some};
ghost use Rattle.xt_base.specs.Alone.{alone, reason_of, Said};
ghost use Rattle.xt_base.specs.Isolation.{is_no_memory, told_then};
ghost use Rattle.xt_base.specs.Jobs.{fits_pieces};
ghost use Rattle.xt_base.specs.Order.{fits, post_of, told, Event};
ghost use Rattle.xt_base.specs.Steps.{slot_of};
ghost use Rattle.xt_base.specs.Text.{log_offers_of};
ghost use Rattle.xt_base.specs.declared.sizes.TheConstants.{PIECE_BYTES};
ghost use Rattle.xt_base.specs.declared.steps.Step.{Step as AStep};
ghost use Rattle.xt_core.specs.declared.host.TurnFault.{TurnFault as ATurnFault};
ghost use Rattle.xt_core.specs.Host.{happened, lone_of, may_come, was_refused, IsAfter, IsNew, IsStepped};
ghost use Rattle.xt_core.specs.InPlace.{AreUnused};
ghost use Rattle.xt_core.specs.Runs.{is_ending, is_offering, said_as, IsMore, IsSaid, IsToldBy};

use crate::cell::SlotCell;
use crate::turns::Turns;
use bytes::Bytes;
use std::alloc::{AllocError, Global};
use std::marker::Model;
use xt_base::names::{JobName, Slot};
use xt_base::outcomes::{Disorder, Offers, Outcomes, Turn};
use xt_base::sizes::SLOTS;
use xt_base::steps::{Errno, LogAnswers, Reason, Reply, Step};
use xt_frames::table::FrameTable;

/// The host. Clauses see the state of each slot by its number, the names that were posted and not taken, and what each
/// worker took and has not finished. The frames of all slots are made with the host, without contents; all other memory of a mount comes with the mount.
#[derive(Debug, Drop)]
pub struct HostCore {
    alloc: Global,
    cells: Vec<SlotCell>,
    turns: Turns,
}

impl Model for HostCore {
    ghost use Rattle.xt_core.specs.Host.{Host};
    ghost use Rattle.xt_core.specs.InPlace.{AreInPlace};

    ghost Value = { Host };

    ghost view = { λ h. record { cells = h.cells.items; queue = h.turns.queue; hands = h.turns.hands } };

    ghost invariant = { λ h. AreInPlace h.cells.items };
}

/// Why a step told no turn.
#[derive(Clone, Copy, Debug, PartialEq, Eq)]
pub enum TurnFault {
    /// It may not come now.
    Disorder,
    /// What it offered could not be copied.
    Memory,
}

/// The slot of a number below sixteen.
fn slot_at(number: u8) -> Slot
    requires { number < SLOTS }
    ensures { result ≡ number }
{
    match Slot::new(number) {
        Some(slot) => slot,
        None => unreachable!(),
    }
}

/// Sixteen slots that were never mounted, each with its share of the frames, which are made at once. The one error is want of memory.
fn empty_cells(alloc: Global) -> Result<Vec<SlotCell>, AllocError>
    ensures { IfOk result (λ cells. AreUnused SLOTS cells.items) }
{
    let mut table = FrameTable::new(alloc, SLOTS as u8)?;
    let mut cells = Vec::with_capacity(alloc, SLOTS)?;
    for number in 0..SLOTS as u8 {
        let Some(share) = table.take_share(slot_at(number)) else {
            unreachable!()
        };
        cells.push(SlotCell::new(alloc, share))?;
    }
    Ok(cells)
}

impl HostCore {
    /// A host of which no slot was mounted. The one error is want of memory.
    pub fn new(alloc: Global) -> Result<Self, AllocError>
        ensures new { IfOk result (λ core. IsNew core) }
        ensures history { IfOk result (λ core. IsAfter [] core) }
    {
        let cells = empty_cells(alloc)?;
        Ok(HostCore {
            alloc,
            cells,
            turns: Turns::new(alloc),
        })
    }

    /// Why a slot is shut, if it is.
    fn shut(&self, slot: Slot) -> Option<Reason>
        ensures { result ≡ reason_of (lone_of self.now slot).mounted }
    {
        self.cells[slot.index()].shut()
    }

    /// Whether a step may come now: the front of the queue and its worker's hand let it come, and the state of its own slot does.
    #[inline(always)]
    pub(crate) fn can_take(&self, step: &Step) -> bool
        ensures { result ≡ may_come self.now step.now }
    {
        self.turns.can_take(step) && self.cells[step.slot().index()].suits(step)
    }

    /// Posts a job that is owed. Its name goes to the queue first: where that finds no memory, nothing changes.
    fn post(&mut self, name: &JobName) -> Reply
        requires { may_come self.old (AStep.Post name.now) ≡ true }
        ensures stepped { IsStepped (AStep.Post name.now) result self.new self.old }
        ensures range { name.now.slot < SLOTS }
    {
        match self.turns.put(*name) {
            Ok(()) => {
                self.cells[name.slot.index()].posted(name);
                Reply::Okay
            }
            Err(_) => Reply::Refused(Errno::NoMemory),
        }
    }

    /// Serves a step that is no post, and passes on what it does to the queue and the hands.
    #[inline(always)]
    fn turn(&mut self, step: &Step) -> Reply
        requires may { may_come self.old step.now ≡ true }
        requires other { post_of step.now ≡ None }
        ensures stepped { IsStepped step.now result self.new self.old }
        ensures range { slot_of step.now < SLOTS }
    {
        let reply = self.cells[step.slot().index()].serve(step);
        if !reply.is_no_memory() {
            self.turns.pass_on(step, &reply);
        }
        reply
    }

    /// Serves a step that may come.
    #[inline(always)]
    fn serve(&mut self, step: &Step) -> Reply
        requires { may_come self.old step.now ≡ true }
        ensures stepped { IsStepped step.now result self.new self.old }
        ensures range { slot_of step.now < SLOTS }
    {
        match step {
            Step::Post(name) => self.post(name),
            _ => self.turn(step),
        }
    }

    /// Takes one step. `Disorder` where it may not come now, and then nothing changes: it is no step that a running host
    /// could make. Else its reply, which its slot alone would give, or ENOMEM, and then nothing changes.
    ///
    /// A history is the list of the steps that were taken before, with the replies that were given.
    pub fn step(&mut self, step: Step) -> Result<Reply, Disorder>
        ensures disorder { IfErr result (λ _. (may_come self.old step ≡ false) × (self.new ≡ self.old)) }
        ensures taken { IfOk result (λ reply. IsStepped step reply self.new self.old) }
        ensures history { (h : List Event) → IsAfter h self.old → IfOk result (λ reply. IsAfter (h ++ record { step = step; reply = reply } ∷ []) self.new) }
        ensures order { (h : List Event) → IsAfter h self.old → was_refused (slot_of step) h ≡ false → is_ok result ≡ fits (happened h) step }
        ensures reply { (h : List Event) → IsAfter h self.old → was_refused (slot_of step) h ≡ false → IfOk result (λ reply. is_no_memory reply ≡ false → reply ≡ (told (happened h) step).reply) }
    {
        if !self.can_take(&step) {
            return Err(Disorder);
        }
        Ok(self.serve(&step))
    }

    /// What the end of a checkpoint that may come will have offered to the log device: the device's answers, and the pieces, which are
    /// lent, so that they can be told with no copy before it is taken. None of another step, and of one that may not come.
    pub fn ending(&self, step: &Step) -> Option<(LogAnswers, &[Bytes])>
        ensures there { is_some result ≡ (may_come self.now step.now && is_ending step.now) }
        ensures log { IfSome result (λ p. (alone step.now (lone_of self.now (slot_of step.now))).log ≡ log_offers_of p.0 p.1.now) }
        ensures home { IfSome result (λ _. (alone step.now (lone_of self.now (slot_of step.now))).home ≡ []) }
        ensures fits { IfSome result (λ p. fits_pieces p.0 (length p.1.now) ≡ true) }
        ensures short { IfSome result (λ p. All (λ piece. length piece ≤ PIECE_BYTES) p.1.now) }
    {
        if self.can_take(step) {
            self.cells[step.slot().index()].ending(step)
        } else {
            None
        }
    }

    /// Takes one step as `tell` does, and gives its reply alone: what it offers is told by who asked for it before. `Disorder` where it
    /// may not come now, and then nothing changes. It takes no memory for what is told.
    #[inline(always)]
    pub fn answer(&mut self, step: &Step) -> Result<Reply, Disorder>
        ensures said { IfOk result (λ reply. IsSaid step.now (said_as step.now reply self.old) self.new self.old) }
        ensures told { (xs : List AStep) (turns : List Said) → IsToldBy xs turns self.old → IfOk result (λ reply. IsToldBy (xs ++ step.now ∷ []) (turns ++ said_as step.now reply self.old ∷ []) self.new) }
        ensures quiet { IfOk result (λ reply. is_offering step.now ≡ false → said_as step.now reply self.old ≡ record { slot = slot_of step.now; reply = reply; log = []; home = [] }) }
        ensures disorder { IfErr result (λ _. may_come self.old step.now ≡ false) }
        ensures kept { OnErr result (self.new ≡ self.old) }
    {
        if !self.can_take(step) {
            return Err(Disorder);
        }
        Ok(self.serve(step))
    }

    /// Takes a step that may come, and tells its turn: its reply, and what it offered, which is copied. The one error is want of
    /// memory for the copy, and then nothing changes.
    fn take(&mut self, step: &Step) -> Result<Turn, AllocError>
        requires { may_come self.old step.now ≡ true }
        ensures said { IfOk result (λ turn. IsSaid step.now turn self.new self.old) }
        ensures range { IfOk result (λ _. slot_of step.now < SLOTS) }
        ensures kept { OnErr result (self.new ≡ self.old) }
        ensures copies { OnErr result (is_offering step.now ≡ true) }
    {
        let slot = step.slot();
        let offers = self.cells[slot.index()].offers(self.alloc, step)?;
        let reply = self.serve(step);
        if reply.is_no_memory() {
            let offers = Offers::none(slot);
            return Ok(Turn { reply, offers });
        }
        Ok(Turn { reply, offers })
    }

    /// Takes one step, and tells its turn: its reply, which its slot alone would give, or ENOMEM, and what it offered, which is copied.
    /// Where it may not come now, or the copy finds no memory, nothing changes. Only the end of a checkpoint and a flush offer something.
    ///
    /// What steps tell one after another is what a run of them tells, so a turn need not be kept until the last step was taken.
    pub fn tell(&mut self, step: &Step) -> Result<Turn, TurnFault>
        ensures said { IfOk result (λ turn. IsSaid step.now turn self.new self.old) }
        ensures told { (xs : List AStep) (turns : List Said) → IsToldBy xs turns self.old → IfOk result (λ turn. IsToldBy (xs ++ step.now ∷ []) (turns ++ turn ∷ []) self.new) }
        ensures disorder { IfErr result (λ fault. (fault ≡ ATurnFault.Disorder) ↔ (may_come self.old step.now ≡ false)) }
        ensures memory { IfErr result (λ fault. fault ≡ ATurnFault.Memory → is_offering step.now ≡ true) }
        ensures kept { OnErr result (self.new ≡ self.old) }
    {
        if !self.can_take(step) {
            return Err(TurnFault::Disorder);
        }
        self.take(step).map_err(|_| TurnFault::Memory)
    }

    /// Takes a step that may come, and notes its turn. The one error is want of memory for what is told.
    pub(crate) fn advance(&mut self, outcomes: &mut Outcomes, step: &Step) -> Result<(), AllocError>
        requires { may_come self.old step.now ≡ true }
        ensures { OnOk result (IsMore step.now self.new self.old outcomes.new outcomes.old) }
    {
        let turn = self.take(step)?;
        note(outcomes, turn, self.shut(step.slot()))
    }
}

/// Notes a turn, and why its slot is shut then. The one error is want of memory.
fn note(outcomes: &mut Outcomes, turn: Turn, reason: Option<Reason>) -> Result<(), AllocError>
    ensures told { OnOk result (outcomes.new ≡ told_then outcomes.old turn reason) }
    ensures range { OnOk result (turn.slot < SLOTS) }
{
    let slot = turn.slot();
    let refused = turn.reply.is_no_memory();
    outcomes.add(turn)?;
    outcomes.note_shut(slot, reason);
    if refused {
        outcomes.note_refused(slot);
    }
    Ok(())
}
