//! One slot of the pure host: its mount, if there is one, and what the board shows of it.

ghost use Rattle.std.specs.Prelude.{◌≡◌, ◌&&◌, ◌≤◌, [], All, is_some, length, true, IfOk, IfSome, OnErr};
ghost use Rattle.xt_base.specs.Alone.{alone, reason_of, shown};
ghost use Rattle.xt_base.specs.Jobs.{fits_pieces, fits_plan, flight_pieces, flush_plan, is_begun, is_owed_as, is_waiting};
ghost use Rattle.xt_base.specs.Order.{has_size, is_answer, is_there, mount_is, of_life, suits};
ghost use Rattle.xt_base.specs.State.{empty};
ghost use Rattle.xt_base.specs.Steps.{slot_of};
ghost use Rattle.xt_base.specs.Text.{log_offers_of};
ghost use Rattle.xt_base.specs.declared.sizes.TheConstants.{PIECE_BYTES};
ghost use Rattle.xt_base.specs.declared.steps.Step.{Step as AStep};
ghost use Rattle.xt_core.specs.Cells.{IsTurned, with_lone};
ghost use Rattle.xt_core.specs.Runs.{is_ending, is_offering};
ghost use Rattle.xt_frames.specs.Shares.{no_contents};
ghost use Rattle.xt_mount.specs.Slots.{plan_in};

use crate::offers::{home_offers, log_offers};
use bytes::Bytes;
use std::alloc::{AllocError, Global};
use std::marker::Model;
use xt_base::names::{JobName, Life, Slot};
use xt_base::outcomes::Offers;
use xt_base::steps::{Answer, HomeAnswers, LogAnswers, Reason, Reply, Request, Step};
use xt_frames::share::FrameShare;
use xt_mount::mount::Stage;
use xt_mount::slot::MountSlot;

/// One slot of the pure host. Clauses see its number and what the definitions say of a slot alone.
#[derive(Debug, Drop)]
pub struct SlotCell {
    mount: MountSlot,
    /// What the board shows: the life, 0 where nothing was shown, and why it was shut.
    seen_life: Life,
    seen_reason: Option<Reason>,
}

impl Model for SlotCell {
    ghost use Rattle.xt_core.specs.Cells.{Cell};
    ghost use Rattle.xt_mount.specs.Slots.{lone_with};

    ghost Value = { Cell };

    ghost view = { λ c. record { slot = c.mount.slot; lone = lone_with c.seen_life c.seen_reason c.mount } };
}

impl SlotCell {
    /// The slot of a share, which has no contents; it was never mounted.
    pub fn new(alloc: Global, share: FrameShare) -> Self
        requires { share ≡ no_contents share.slot }
        ensures { result ≡ record { slot = share.slot; lone = empty } }
    {
        SlotCell {
            mount: MountSlot::new(alloc, share),
            seen_life: Life(0),
            seen_reason: None,
        }
    }

    /// Its number.
    pub fn slot(&self) -> Slot
        ensures { result ≡ self.now.slot }
    {
        self.mount.slot()
    }

    /// Why the slot is shut, if it is.
    pub fn shut(&self) -> Option<Reason>
        ensures { result ≡ reason_of self.now.lone.mounted }
    {
        self.mount.shut()
    }

    // ---- what may come
    /// Whether an answer is there exactly where the home device is asked.
    fn is_answered(&self, life: Life, request: &Request, answer: &Answer) -> bool
        ensures { result ≡ is_there (mount_is (of_life life request.now) self.now.lone.mounted) answer.now }
    {
        if self.mount.needs(life, request).is_some() {
            is_answer(answer)
        } else {
            !is_answer(answer)
        }
    }

    /// Whether a content that a device answered has the size of the mount's blocks; an empty slot has none.
    fn has_size(&self, answer: &Answer) -> bool
        ensures { result ≡ has_size answer.now self.now.lone.mounted }
    {
        match answer {
            Answer::Content(content) if self.mount.life().is_some() => {
                content.bytes().len() == self.mount.form().block_bytes()
            }
            _ => true,
        }
    }

    /// Whether a job of this name is owed.
    fn is_owed(&self, name: &JobName) -> bool
        ensures { result ≡ mount_is (is_owed_as name.now) self.now.lone.mounted }
    {
        match self.mount.owed(name.kind) {
            Some(owed) => name.life == owed.life && name.serial == owed.serial,
            None => false,
        }
    }

    /// Whether a job is outstanding and not begun.
    fn is_waiting(&self, name: &JobName) -> bool
        requires { name.now.slot ≡ self.now.slot }
        ensures { result ≡ mount_is (is_waiting name.now) self.now.lone.mounted }
    {
        matches!(self.mount.stage(name), Some(Stage::Waiting))
    }

    /// Whether a checkpoint is begun, and the answers have the shape of its end.
    fn fits_end(&self, name: &JobName, answers: &LogAnswers) -> bool
        requires { name.now.slot ≡ self.now.slot }
        ensures { result ≡ mount_is (λ m. is_begun name.now m && fits_pieces answers.now (length (flight_pieces m.items.flight))) self.now.lone.mounted }
    {
        matches!(self.mount.stage(name), Some(Stage::Begun))
            && fits_pieces(answers, self.mount.pieces().len())
    }

    /// Whether a flush is outstanding, and the answers have the shape of its plan.
    fn fits_flush(&self, name: &JobName, answers: &HomeAnswers) -> bool
        requires { name.now.slot ≡ self.now.slot }
        ensures { result ≡ mount_is (λ m. is_waiting name.now m && fits_plan answers.now (flush_plan m)) self.now.lone.mounted }
    {
        self.is_waiting(name) && answers.count == self.mount.flush_plan().count()
    }

    /// Whether the slot's state lets a step of it come.
    #[inline(always)]
    pub fn suits(&self, step: &Step) -> bool
        requires { slot_of step.now ≡ self.now.slot }
        ensures { result ≡ suits step.now self.now.lone }
    {
        match step {
            Step::Call {
                life,
                request,
                answer,
                ..
            } => self.is_answered(*life, request, answer) && self.has_size(answer),
            Step::Post(name) => self.is_owed(name),
            Step::Begin { name, .. } => name.kind.is_ckpt() && self.is_waiting(name),
            Step::End { name, answers, .. } => self.fits_end(name, answers),
            Step::Flush { name, answers, .. } => {
                !name.kind.is_ckpt() && self.fits_flush(name, answers)
            }
            _ => true,
        }
    }

    // ---- what steps do
    /// What the end of a checkpoint will have offered to the log device: the device's answers, and the pieces, which are lent; None of
    /// another step.
    pub fn ending(&self, step: &Step) -> Option<(LogAnswers, &[Bytes])>
        requires suit { suits step.now self.now.lone ≡ true }
        ensures there { is_some result ≡ is_ending step.now }
        ensures log { IfSome result (λ p. (alone step.now self.now.lone).log ≡ log_offers_of p.0 p.1.now) }
        ensures home { IfSome result (λ _. (alone step.now self.now.lone).home ≡ []) }
        ensures fits { IfSome result (λ p. fits_pieces p.0 (length p.1.now) ≡ true) }
        ensures short { IfSome result (λ p. All (λ piece. length piece ≤ PIECE_BYTES) p.1.now) }
    {
        match step {
            Step::End { answers, .. } => Some((*answers, self.mount.pieces())),
            _ => None,
        }
    }

    /// What a step will have offered: at an end the pieces, which are copied, and the sync; at a flush the contents of its
    /// plan, which are copied, and the sync. Reads are left aside. The one error is want of memory.
    pub fn offers(&self, alloc: Global, step: &Step) -> Result<Offers, AllocError>
        requires suit { suits step.now self.now.lone ≡ true }
        ensures slot { IfOk result (λ offers. offers.slot ≡ self.now.slot) }
        ensures log { IfOk result (λ offers. offers.log ≡ (alone step.now self.now.lone).log) }
        ensures home { IfOk result (λ offers. offers.home ≡ (alone step.now self.now.lone).home) }
        ensures copies { OnErr result (is_offering step.now ≡ true) }
    {
        match step {
            Step::End { answers, .. } => {
                let offers = log_offers(alloc, answers, self.mount.pieces())?;
                Offers::to_log(alloc, self.slot(), offers)
            }
            Step::Flush { answers, .. } => {
                let offers = home_offers(alloc, answers, &self.mount)?;
                Offers::to_home(alloc, self.slot(), offers)
            }
            _ => Ok(Offers::none(self.slot())),
        }
    }

    /// A job that is owed was posted: it is outstanding.
    pub fn posted(&mut self, name: &JobName)
        requires owed { mount_is (is_owed_as name.now) self.old.lone.mounted ≡ true }
        requires slot { name.now.slot ≡ self.old.slot }
        ensures { self.new ≡ with_lone (alone (AStep.Post name.now) self.old.lone).slot self.old }
    {
        self.mount.posted(*name);
    }

    /// The board shows what the mount is; an empty slot leaves it.
    fn show(&mut self)
        ensures slot { self.new.slot ≡ self.old.slot }
        ensures shown { self.new.lone ≡ shown self.old.lone.mounted self.old.lone }
    {
        if let Some(life) = self.mount.life() {
            self.seen_life = life;
            self.seen_reason = self.mount.shut();
        }
    }

    /// Serves a step of the slot that its state lets come: its reply, and what it makes of the slot.
    #[inline(always)]
    pub fn serve(&mut self, step: &Step) -> Reply
        requires slot { slot_of step.now ≡ self.old.slot }
        requires suit { suits step.now self.old.lone ≡ true }
        ensures { IsTurned step.now result self.new self.old }
    {
        match step {
            Step::Mount {
                log_bytes,
                blocks,
                size,
                ..
            } => self.mount.mount(*log_bytes, *blocks, *size),
            Step::Call {
                life,
                request,
                answer,
                ..
            } => self.mount.call(*life, request, answer),
            Step::Post(name) => {
                self.posted(name);
                Reply::Okay
            }
            Step::Take { .. } => Reply::Okay,
            Step::Begin { name, .. } => self.mount.begin(*name),
            Step::End { name, answers, .. } => self.mount.end(*name, *answers),
            Step::Flush { name, answers, .. } => self.mount.flush(*name, *answers),
            Step::Show(_) => {
                self.show();
                Reply::Okay
            }
            Step::Peek(_) => Reply::Seen {
                life: self.seen_life,
                reason: self.seen_reason,
            },
        }
    }
}

/// Whether a device answered.
fn is_answer(answer: &Answer) -> bool
    ensures { result ≡ is_answer answer.now }
{
    match answer {
        Answer::None => false,
        Answer::Content(_) | Answer::Failed => true,
    }
}

/// Whether all pieces were taken and the sync answered, or one was not taken.
fn fits_pieces(answers: &LogAnswers, pieces: usize) -> bool
    ensures { result ≡ fits_pieces answers.now pieces }
{
    let taken = answers.taken as usize;
    if answers.sync.is_some() {
        taken == pieces
    } else {
        taken < pieces
    }
}
