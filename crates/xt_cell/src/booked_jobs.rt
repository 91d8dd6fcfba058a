//! Jobs in the book of a slot: a begin, an end and a flush are each served, and booked with a receipt.

ghost use Rattle.std.specs.Prelude.{◌≡◌, ◌+◌, ◌≤◌, [], IfErr, IfOk, OnErr, length, true, false};
ghost use Rattle.xt_base.specs.Alone.{has_begun};
ghost use Rattle.xt_base.specs.Isolation.{is_no_memory};
ghost use Rattle.xt_base.specs.Jobs.{fits_pieces, fits_plan, is_begun, is_ckpt, is_waiting};
ghost use Rattle.xt_base.specs.Order.{mount_is};
ghost use Rattle.xt_base.specs.declared.steps.Errno.TheVariants.{NoMemory};
ghost use Rattle.xt_base.specs.declared.steps.Step.{Step as AStep};
ghost use Rattle.xt_cell.specs.Counting.{counted};
ghost use Rattle.xt_cell.specs.Events.{IsBooked};
ghost use Rattle.xt_mount.specs.Slots.{IsServed, pieces_in, plan_in};

use crate::book::{SlotBook, write};
use crate::house::House;
use crate::seat::HostSeat;
use crate::shares::{Counts, Shares};
use crate::twin::{Twin, begin_twin, end_twin, flush_twin, plain_twin};
use bytes::Bytes;
use xt_base::names::{JobName, Worker};
use xt_base::steps::{Errno, HomeAnswers, LogAnswers, Reply};
use xt_items::plan::FlushPlan;
use xt_mount::slot::MountSlot;

impl<H: House, const S: u8> SlotBook<H, S> {
    /// Begins an outstanding checkpoint, and books it with its receipt; or it is refused memory, and nothing changes. With the
    /// reply come the pieces of the checkpoint, none where there is nothing to do.
    #[tactic(auto, using(crate::proofs::BookLemmas::few_events))]
    pub(crate) fn begin(
        &mut self,
        seat: &mut HostSeat<H>,
        worker: Worker,
        name: &JobName,
    ) -> (Reply, Vec<Bytes>)
    where
        Shares<H>: Counts<H, S>,
        requires slot { name.now.slot ≡ S }
        requires kind { is_ckpt name.now.kind ≡ true }
        requires waiting { mount_is (is_waiting name.now) self.old.state.mounted ≡ true }
        requires room { 1 ≤ self.old.room }
        requires seat { 1 ≤ seat.old.room }
        ensures booked { is_no_memory result.0 ≡ false → IsBooked S (AStep.Begin worker name.now) result.0 self.old self.new seat.old seat.new }
        ensures counted { is_no_memory result.0 ≡ false → ⟦<Shares<H> as Counts<H, S>>⟧.counts seat.new.counts ≡ counted S (⟦<Shares<H> as Counts<H, S>>⟧.counts seat.old.counts) }
        ensures refused { is_no_memory result.0 ≡ true → (self.new ≡ self.old) × (seat.new ≡ seat.old) }
        ensures room { is_no_memory result.0 ≡ false → self.new.room + 1 ≡ self.old.room }
        ensures pieces { has_begun result.0 ≡ true → result.1.items ≡ pieces_in self.new.state.mounted }
        ensures none { has_begun result.0 ≡ false → result.1.items ≡ [] }
    {
        let number = self.next_number();
        let slot = self.mount.slot();
        match serve_begin(&mut self.mount, worker, name) {
            Ok((reply, told, pieces)) => {
                let step = begin_twin(worker, name);
                write(
                    &mut self.entries,
                    &mut self.count,
                    seat,
                    slot,
                    number,
                    step,
                    told,
                );
                (reply, pieces)
            }
            Err(errno) => (Reply::Refused(errno), Vec::new(self.alloc)),
        }
    }

    /// Ends the checkpoint in flight by what the log device answered, and books it with its receipt.
    #[tactic(auto, using(crate::proofs::BookLemmas::few_events))]
    pub(crate) fn end(
        &mut self,
        seat: &mut HostSeat<H>,
        worker: Worker,
        name: &JobName,
        answers: &LogAnswers,
    ) -> Reply
    where
        Shares<H>: Counts<H, S>,
        requires slot { name.now.slot ≡ S }
        requires begun { mount_is (is_begun name.now) self.old.state.mounted ≡ true }
        requires fits { fits_pieces answers.now (length (pieces_in self.old.state.mounted)) ≡ true }
        requires room { 1 ≤ self.old.room }
        requires seat { 1 ≤ seat.old.room }
        ensures booked { IsBooked S (AStep.End worker name.now answers.now) result self.old self.new seat.old seat.new }
        ensures counted { ⟦<Shares<H> as Counts<H, S>>⟧.counts seat.new.counts ≡ counted S (⟦<Shares<H> as Counts<H, S>>⟧.counts seat.old.counts) }
        ensures room { self.new.room + 1 ≡ self.old.room }
    {
        let number = self.next_number();
        let slot = self.mount.slot();
        let (reply, told) = serve_end(&mut self.mount, worker, name, answers);
        let step = end_twin(worker, name, answers);
        write(
            &mut self.entries,
            &mut self.count,
            seat,
            slot,
            number,
            step,
            told,
        );
        reply
    }

    /// Ends an outstanding flush of the plan that stands now, by what the home device answered, and books it with its receipt.
    #[tactic(auto, using(crate::proofs::BookLemmas::few_events))]
    pub(crate) fn flush(
        &mut self,
        seat: &mut HostSeat<H>,
        worker: Worker,
        name: &JobName,
        plan: &FlushPlan,
        answers: &HomeAnswers,
    ) -> Reply
    where
        Shares<H>: Counts<H, S>,
        requires slot { name.now.slot ≡ S }
        requires kind { is_ckpt name.now.kind ≡ false }
        requires waiting { mount_is (is_waiting name.now) self.old.state.mounted ≡ true }
        requires planned { plan.now ≡ plan_in self.old.state.mounted }
        requires fits { fits_plan answers.now plan.now ≡ true }
        requires room { 1 ≤ self.old.room }
        requires seat { 1 ≤ seat.old.room }
        ensures booked { IsBooked S (AStep.Flush worker name.now answers.now) result self.old self.new seat.old seat.new }
        ensures counted { ⟦<Shares<H> as Counts<H, S>>⟧.counts seat.new.counts ≡ counted S (⟦<Shares<H> as Counts<H, S>>⟧.counts seat.old.counts) }
        ensures room { self.new.room + 1 ≡ self.old.room }
    {
        let number = self.next_number();
        let slot = self.mount.slot();
        let (reply, told) = serve_flush(&mut self.mount, worker, name, plan, answers);
        let step = flush_twin(worker, name, answers);
        write(
            &mut self.entries,
            &mut self.count,
            seat,
            slot,
            number,
            step,
            told,
        );
        reply
    }
}

/// Begins a checkpoint: the reply, the same twice, and the pieces. The one error is want of memory, and then nothing changes.
#[tactic(auto, using(crate::proofs::ServedLemmas::served_if, crate::proofs::ServedLemmas::kept_if, crate::proofs::ServedLemmas::plain_if))]
fn serve_begin(
    slot: &mut MountSlot,
    worker: Worker,
    name: &JobName,
) -> Result<(Reply, Twin<Reply>, Vec<Bytes>), Errno>
    requires kind { is_ckpt name.now.kind ≡ true }
    requires waiting { mount_is (is_waiting name.now) slot.old.mounted ≡ true }
    ensures served { IfOk result (λ told. IsServed (AStep.Begin worker name.now) told.0 slot.new slot.old) }
    ensures twice { IfOk result (λ told. told.1.booked ≡ told.0) }
    ensures happened { IfOk result (λ told. is_no_memory told.0 ≡ false) }
    ensures pieces { IfOk result (λ told. has_begun told.0 ≡ true → told.2.items ≡ pieces_in slot.new.mounted) }
    ensures none { IfOk result (λ told. has_begun told.0 ≡ false → told.2.items ≡ []) }
    ensures refused { IfErr result (λ errno. errno ≡ NoMemory) }
    ensures kept { OnErr result (slot.new ≡ slot.old) }
{
    let (reply, pieces) = slot.begin_shared(*name);
    if reply.is_no_memory() {
        return Err(Errno::NoMemory);
    }
    let told = plain_twin(&reply);
    Ok((reply, told, pieces))
}

/// Ends a checkpoint: the reply, and the same twice.
fn serve_end(
    slot: &mut MountSlot,
    worker: Worker,
    name: &JobName,
    answers: &LogAnswers,
) -> (Reply, Twin<Reply>)
    requires begun { mount_is (is_begun name.now) slot.old.mounted ≡ true }
    requires fits { fits_pieces answers.now (length (pieces_in slot.old.mounted)) ≡ true }
    ensures served { IsServed (AStep.End worker name.now answers.now) result.0 slot.new slot.old }
    ensures twice { result.1.booked ≡ result.0 }
{
    let _worker = worker;
    let reply = slot.end(*name, *answers);
    let told = plain_twin(&reply);
    (reply, told)
}

/// Ends a flush: the reply, and the same twice.
fn serve_flush(
    slot: &mut MountSlot,
    worker: Worker,
    name: &JobName,
    plan: &FlushPlan,
    answers: &HomeAnswers,
) -> (Reply, Twin<Reply>)
    requires kind { is_ckpt name.now.kind ≡ false }
    requires waiting { mount_is (is_waiting name.now) slot.old.mounted ≡ true }
    requires planned { plan.now ≡ plan_in slot.old.mounted }
    requires fits { fits_plan answers.now plan.now ≡ true }
    ensures served { IsServed (AStep.Flush worker name.now answers.now) result.0 slot.new slot.old }
    ensures twice { result.1.booked ≡ result.0 }
{
    let _worker = worker;
    let reply = slot.flush_planned(*name, plan, *answers);
    let told = plain_twin(&reply);
    (reply, told)
}
