//! Calls and mounts in the book of a slot: each is served, and booked with its receipt.

ghost use Rattle.std.specs.Prelude.{◌≡◌, ◌+◌, ◌≤◌, None, IfErr, IfOk, OnErr, true, false};
ghost use Rattle.xt_base.specs.Carried.{may_leave_held};
ghost use Rattle.xt_base.specs.Isolation.{is_no_memory};
ghost use Rattle.xt_base.specs.Order.{suits};
ghost use Rattle.xt_base.specs.Steps.{is_call, slot_of};
ghost use Rattle.xt_base.specs.declared.steps.Errno.TheVariants.{NoMemory};
ghost use Rattle.xt_base.specs.declared.steps.Step.{Step as AStep};
ghost use Rattle.xt_cell.specs.Books.{may_hold};
ghost use Rattle.xt_cell.specs.Counting.{counted};
ghost use Rattle.xt_cell.specs.Events.{IsBooked};
ghost use Rattle.xt_cell.specs.Twins.{AreReady};
ghost use Rattle.xt_mount.specs.Slots.{IsServed, IsServedUnlessMemory, lone_with};

use crate::book::{SlotBook, write};
use crate::house::House;
use crate::rooms::Rooms;
use crate::seat::HostSeat;
use crate::shares::{Counts, Shares};
use crate::twin::{Twin, call_copy, mount_twin, plain_twin};
use std::alloc::Global;
use xt_base::names::Life;
use xt_base::steps::{Answer, Errno, Reply, Request, Step};
use xt_mount::slot::MountSlot;

impl<H: House, const S: u8> SlotBook<H, S> {
    /// Serves a request to one life of the slot, with the home device's answer where it was asked, and books it with its receipt; or it is
    /// refused memory, and nothing changes. The step is made twice, and bytes that it carries are shared; one with a content is shared whole.
    #[inline(always)]
    pub(crate) fn ask(
        &mut self,
        seat: &mut HostSeat<H>,
        life: Life,
        request: Request,
        answer: Answer,
        rooms: &mut Rooms,
    ) -> Reply
    where
        Shares<H>: Counts<H, S>,
        requires suits { suits (AStep.Call S life request answer) (lone_with 0 None self.old.state) ≡ true }
        requires ready { may_leave_held request ≡ true → AreReady rooms.old }
        requires room { 1 ≤ self.old.room }
        requires seat { 1 ≤ seat.old.room }
        ensures booked { is_no_memory result ≡ false → IsBooked S (AStep.Call S life request answer) result self.old self.new seat.old seat.new }
        ensures counted { is_no_memory result ≡ false → ⟦<Shares<H> as Counts<H, S>>⟧.counts seat.new.counts ≡ counted S (⟦<Shares<H> as Counts<H, S>>⟧.counts seat.old.counts) }
        ensures refused { is_no_memory result ≡ true → (self.new ≡ self.old) × (seat.new ≡ seat.old) }
        ensures room { is_no_memory result ≡ false → self.new.room + 1 ≡ self.old.room }
    {
        let slot = self.slot().slot();
        let copy = call_copy(slot, life, &request, &answer);
        let step = Step::Call {
            slot,
            life,
            request,
            answer,
        };
        match copy {
            Some(copy) => self.call(seat, Twin::of(copy, step), rooms),
            None => self.call_shared(seat, step, rooms),
        }
    }

    /// Serves the step of a call that its entry and its receipt share, and books it; or it is refused memory, and nothing changes.
    #[inline(never)]
    fn call_shared(&mut self, seat: &mut HostSeat<H>, step: Step, rooms: &mut Rooms) -> Reply
    where
        Shares<H>: Counts<H, S>,
        requires slot { slot_of step ≡ S }
        requires call { is_call step ≡ true }
        requires suits { suits step (lone_with 0 None self.old.state) ≡ true }
        requires ready { may_hold step ≡ true → AreReady rooms.old }
        requires room { 1 ≤ self.old.room }
        requires seat { 1 ≤ seat.old.room }
        ensures booked { is_no_memory result ≡ false → IsBooked S step result self.old self.new seat.old seat.new }
        ensures counted { is_no_memory result ≡ false → ⟦<Shares<H> as Counts<H, S>>⟧.counts seat.new.counts ≡ counted S (⟦<Shares<H> as Counts<H, S>>⟧.counts seat.old.counts) }
        ensures refused { is_no_memory result ≡ true → (self.new ≡ self.old) × (seat.new ≡ seat.old) }
        ensures room { is_no_memory result ≡ false → self.new.room + 1 ≡ self.old.room }
    {
        match Twin::shared(self.alloc, step) {
            Ok(step) => self.call(seat, step, rooms),
            Err(_) => Reply::Refused(Errno::NoMemory),
        }
    }

    /// Serves the step of a call, and books it with its receipt; or it is refused memory, and nothing changes.
    #[tactic(auto, using(crate::proofs::BookLemmas::few_events))]
    #[inline(always)]
    pub(crate) fn call(
        &mut self,
        seat: &mut HostSeat<H>,
        step: Twin<Step>,
        rooms: &mut Rooms,
    ) -> Reply
    where
        Shares<H>: Counts<H, S>,
        requires slot { slot_of step.booked ≡ S }
        requires call { is_call step.booked ≡ true }
        requires suits { suits step.booked (lone_with 0 None self.old.state) ≡ true }
        requires ready { may_hold step.booked ≡ true → AreReady rooms.old }
        requires room { 1 ≤ self.old.room }
        requires seat { 1 ≤ seat.old.room }
        ensures booked { is_no_memory result ≡ false → IsBooked S step.booked result self.old self.new seat.old seat.new }
        ensures counted { is_no_memory result ≡ false → ⟦<Shares<H> as Counts<H, S>>⟧.counts seat.new.counts ≡ counted S (⟦<Shares<H> as Counts<H, S>>⟧.counts seat.old.counts) }
        ensures refused { is_no_memory result ≡ true → (self.new ≡ self.old) × (seat.new ≡ seat.old) }
        ensures room { is_no_memory result ≡ false → self.new.room + 1 ≡ self.old.room }
    {
        let number = self.next_number();
        let slot = self.mount.slot();
        match serve(&mut self.mount, self.alloc, step.booked.get(), rooms) {
            Ok((reply, told)) => {
                write(
                    &mut self.entries,
                    &mut self.count,
                    seat,
                    slot,
                    number,
                    step,
                    told,
                );
                reply
            }
            Err(errno) => Reply::Refused(errno),
        }
    }

    /// Mounts the slot anew, and books it with its receipt; or it is refused memory, and nothing changes.
    #[tactic(auto, using(crate::proofs::BookLemmas::few_events))]
    pub(crate) fn mount(
        &mut self,
        seat: &mut HostSeat<H>,
        log_bytes: u32,
        blocks: u64,
        size: Option<u32>,
    ) -> Reply
    where
        Shares<H>: Counts<H, S>,
        requires room { 1 ≤ self.old.room }
        requires seat { 1 ≤ seat.old.room }
        ensures booked { is_no_memory result ≡ false → IsBooked S (AStep.Mount S log_bytes blocks size) result self.old self.new seat.old seat.new }
        ensures counted { is_no_memory result ≡ false → ⟦<Shares<H> as Counts<H, S>>⟧.counts seat.new.counts ≡ counted S (⟦<Shares<H> as Counts<H, S>>⟧.counts seat.old.counts) }
        ensures refused { is_no_memory result ≡ true → (self.new ≡ self.old) × (seat.new ≡ seat.old) }
        ensures room { is_no_memory result ≡ false → self.new.room + 1 ≡ self.old.room }
    {
        let number = self.next_number();
        let slot = self.mount.slot();
        match serve_mount(&mut self.mount, log_bytes, blocks, size) {
            Ok((reply, told)) => {
                let step = mount_twin(slot, log_bytes, blocks, size);
                write(
                    &mut self.entries,
                    &mut self.count,
                    seat,
                    slot,
                    number,
                    step,
                    told,
                );
                reply
            }
            Err(errno) => Reply::Refused(errno),
        }
    }
}

/// Serves the step of a call: its reply, and the same twice. The one error is want of memory, and then nothing changes.
#[tactic(auto, using(crate::proofs::ServedLemmas::served_if, crate::proofs::ServedLemmas::kept_if, crate::proofs::ServedLemmas::content_keeps, crate::proofs::ServedLemmas::held_if))]
#[inline(always)]
fn serve(
    slot: &mut MountSlot,
    alloc: Global,
    step: &Step,
    rooms: &mut Rooms,
) -> Result<(Reply, Twin<Reply>), Errno>
    requires slot { slot_of step.now ≡ slot.old.slot }
    requires call { is_call step.now ≡ true }
    requires suits { suits step.now (lone_with 0 None slot.old) ≡ true }
    requires ready { may_hold step.now ≡ true → AreReady rooms.old }
    ensures served { IfOk result (λ told. IsServed step.now told.0 slot.new slot.old) }
    ensures twice { IfOk result (λ told. told.1.booked ≡ told.0) }
    ensures happened { IfOk result (λ told. is_no_memory told.0 ≡ false) }
    ensures refused { IfErr result (λ errno. errno ≡ NoMemory) }
    ensures kept { OnErr result (slot.new ≡ slot.old) }
{
    let reply = called(slot, step);
    if reply.is_no_memory() {
        return Err(Errno::NoMemory);
    }
    match rooms.twin(alloc, &reply) {
        Ok(told) => Ok((reply, told)),
        Err(_) => Err(Errno::NoMemory),
    }
}

/// What a slot makes of the step of a call.
fn called(slot: &mut MountSlot, step: &Step) -> Reply
    requires slot { slot_of step.now ≡ slot.old.slot }
    requires call { is_call step.now ≡ true }
    requires suits { suits step.now (lone_with 0 None slot.old) ≡ true }
    ensures { IsServedUnlessMemory step.now result slot.new slot.old }
{
    match step {
        Step::Call {
            life,
            request,
            answer,
            ..
        } => slot.call(*life, request, answer),
        _ => unreachable!(),
    }
}

/// Mounts a slot anew: the reply, and the same twice. The one error is want of memory, and then nothing changes.
#[tactic(auto, using(crate::proofs::ServedLemmas::served_if, crate::proofs::ServedLemmas::kept_if, crate::proofs::ServedLemmas::plain_if))]
fn serve_mount(
    slot: &mut MountSlot,
    log_bytes: u32,
    blocks: u64,
    size: Option<u32>,
) -> Result<(Reply, Twin<Reply>), Errno>
    ensures served { IfOk result (λ told. IsServed (AStep.Mount slot.old.slot log_bytes blocks size) told.0 slot.new slot.old) }
    ensures twice { IfOk result (λ told. told.1.booked ≡ told.0) }
    ensures happened { IfOk result (λ told. is_no_memory told.0 ≡ false) }
    ensures refused { IfErr result (λ errno. errno ≡ NoMemory) }
    ensures kept { OnErr result (slot.new ≡ slot.old) }
{
    let reply = slot.mount(log_bytes, blocks, size);
    if reply.is_no_memory() {
        return Err(Errno::NoMemory);
    }
    let told = plain_twin(&reply);
    Ok((reply, told))
}
