//! Reads of blocks that are resident: no device is asked.

ghost use Rattle.std.specs.Prelude.{◌≡◌, ◌≤◌, IfNone, IfSome, false, is_some, true};
ghost use Rattle.xt_base.specs.Isolation.{is_no_memory};
ghost use Rattle.xt_base.specs.Order.{mount_is, of_life};
ghost use Rattle.xt_base.specs.declared.steps.Answer.TheVariants as Answered;
ghost use Rattle.xt_base.specs.declared.steps.Request.TheVariants as ARequest;
ghost use Rattle.xt_base.specs.declared.steps.Step.{Step as AStep};
ghost use Rattle.xt_cell.specs.Counting.{counted};
ghost use Rattle.xt_cell.specs.Events.{IsBooked};
ghost use Rattle.xt_cell.specs.Cells.{IsEvent};
ghost use Rattle.xt_cell.specs.Facts.{has_log, is_flown_by_job, is_last_post};
ghost use Rattle.xt_mount.specs.Slots.{IsServed};
ghost use Rattle.xt_queue.specs.Names.{last_of, unposted};

use crate::book::{SlotBook, write};
use crate::house::House;
use crate::poster::Poster;
use crate::posting::post_both;
use crate::seat::HostSeat;
use crate::shares::{Counts, Shares};
use crate::twin::{Twin, plain_twin};
use std::sync::Wait;
use xt_base::names::{Block, Life, Slot, TransNo};
use xt_base::steps::{Answer, Reply, Request, Step};
use xt_mount::slot::MountSlot;

/// The step of a read that asks no device, twice.
fn read_twin(slot: Slot, life: Life, trans: TransNo, block: Block) -> Twin<Step>
    ensures { result.booked ≡ AStep.Call slot life (ARequest.Read trans block) Answered.None }
{
    let first = Step::Call {
        slot,
        life,
        request: Request::Read { trans, block },
        answer: Answer::None,
    };
    Twin::of(
        first,
        Step::Call {
            slot,
            life,
            request: Request::Read { trans, block },
            answer: Answer::None,
        },
    )
}

/// Reads a block for one life of a slot where that asks no device: the reply, and the same twice. None, and nothing changes, where the
/// device must be asked or memory is refused.
#[tactic(auto, using(crate::proofs::ServedLemmas::served_if, crate::proofs::ServedLemmas::kept_if))]
#[inline(always)]
fn read_resident(
    slot: &mut MountSlot,
    life: Life,
    trans: TransNo,
    block: Block,
) -> Option<(Reply, Twin<Reply>)>
    ensures unasked { IfSome result (λ _. mount_is (of_life life (ARequest.Read trans block)) slot.old.mounted ≡ false) }
    ensures served { IfSome result (λ told. IsServed (AStep.Call slot.old.slot life (ARequest.Read trans block) Answered.None) told.0 slot.new slot.old) }
    ensures twice { IfSome result (λ told. told.1.booked ≡ told.0) }
    ensures happened { IfSome result (λ told. is_no_memory told.0 ≡ false) }
    ensures kept { IfNone result (slot.new ≡ slot.old) }
{
    let Ok(reply) = slot.try_call(life, &Request::Read { trans, block }) else {
        return None;
    };
    if reply.is_no_memory() {
        return None;
    }
    let told = plain_twin(&reply);
    Some((reply, told))
}

impl<H: House, const S: u8> SlotBook<H, S> {
    /// Reads a block for one life of the slot where that asks no device, and books it with its receipt. None, and nothing changes, where
    /// the device must be asked or memory is refused.
    #[tactic(auto, using(crate::proofs::BookLemmas::few_events))]
    pub(crate) fn try_read(
        &mut self,
        seat: &mut HostSeat<H>,
        life: Life,
        trans: TransNo,
        block: Block,
    ) -> Option<Reply>
    where
        Shares<H>: Counts<H, S>,
        requires room { 3 ≤ self.old.room }
        requires seat { 1 ≤ seat.old.room }
        ensures unasked { IfSome result (λ _. mount_is (of_life life (ARequest.Read trans block)) self.old.state.mounted ≡ false) }
        ensures booked { IfSome result (λ reply. IsBooked S (AStep.Call S life (ARequest.Read trans block) Answered.None) reply self.old self.new seat.old seat.new) }
        ensures counted { IfSome result (λ _. ⟦<Shares<H> as Counts<H, S>>⟧.counts seat.new.counts ≡ counted S (⟦<Shares<H> as Counts<H, S>>⟧.counts seat.old.counts)) }
        ensures room { IfSome result (λ _. 2 ≤ self.new.room) }
        ensures happened { IfSome result (λ reply. is_no_memory reply ≡ false) }
        ensures kept { IfNone result ((self.new ≡ self.old) × (seat.new ≡ seat.old)) }
    {
        let number = self.next_number();
        let slot = self.mount.slot();
        match read_resident(&mut self.mount, life, trans, block) {
            Some((reply, told)) => {
                let step = read_twin(slot, life, trans, block);
                write(
                    &mut self.entries,
                    &mut self.count,
                    seat,
                    slot,
                    number,
                    step,
                    told,
                );
                Some(reply)
            }
            None => None,
        }
    }
}

/// Reads a block where that asks no device, and books it with what it made owed. None, and nothing changes, where the device must be asked,
/// memory is refused, or there is no room yet for the event.
#[inline(always)]
pub(crate) fn serve_resident<H: House, R: Wait, const S: u8>(
    rt: &R,
    book: &mut SlotBook<H, S>,
    poster: &mut Poster<S>,
    seat: &mut HostSeat<H>,
    life: Life,
    trans: TransNo,
    block: Block,
) -> Option<Reply>
where
    Shares<H>: Counts<H, S>,
    requires last { is_last_post (last_of unposted poster.old.posted) book.old.state ≡ true }
    requires idle { is_flown_by_job book.old.state.mounted ≡ true }
    ensures last { is_last_post (last_of unposted poster.new.posted) book.new.state ≡ true }
    ensures home { is_some book.new.state.mounted ≡ is_some book.old.state.mounted }
    ensures log { has_log book.new.state.mounted ≡ has_log book.old.state.mounted }
    ensures idle { is_flown_by_job book.new.state.mounted ≡ true }
    ensures board { seat.new.board ≡ seat.old.board }
    ensures booked { IfSome result (λ reply. IsEvent S (AStep.Call S life (ARequest.Read trans block) Answered.None) reply book.old book.new seat.old seat.new poster.old poster.new) }
    ensures unasked { IfSome result (λ _. mount_is (of_life life (ARequest.Read trans block)) book.old.state.mounted ≡ false) }
    ensures counted { IfSome result (λ _. ⟦<Shares<H> as Counts<H, S>>⟧.counts seat.new.counts ≡ counted S (⟦<Shares<H> as Counts<H, S>>⟧.counts seat.old.counts)) }
    ensures happened { IfSome result (λ reply. is_no_memory reply ≡ false) }
    ensures kept { IfNone result ((book.new ≡ book.old) × (seat.new ≡ seat.old) × (poster.new ≡ poster.old)) }
{
    if !book.has_room() || !seat.has_room() {
        return None;
    }
    let Some(reply) = book.try_read(seat, life, trans, block) else {
        return None;
    };
    post_both(rt, book, poster, seat.caller());
    Some(reply)
}
