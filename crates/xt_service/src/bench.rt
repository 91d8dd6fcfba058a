//! What a worker has: a seat of its own at a host, and a pass.

ghost use Rattle.std.specs.Prelude.{◌≡◌, ◌<◌, ◌++◌, ◌∷◌, [], IfSome, List};
ghost use Rattle.std.specs.Arc.{arc_value};
ghost use Rattle.std.specs.List.{Contains};
ghost use Rattle.xt_base.specs.declared.names.JobName.{JobName as AName};
ghost use Rattle.xt_service.specs.Seats.{AreOf, HasWorked, HasWrittenOut, IsUsed};
ghost use Rattle.xt_service.specs.declared.aside.TheConstants.{MOST_ASIDE};

use crate::aside::Aside;
use crate::door::Door;
use crate::workplace::Workplace;
use std::sync::Wait;
use xt_base::names::JobName;
use xt_cell::house::House;
use xt_cell::mount_ref::MountRef;
use xt_cell::seat::HostSeat;
use xt_host::host::Host;
use xt_host::pause::Pause;
use xt_queue::jobs::WorkPass;

/// A seat and a pass of a host, for one thread.
#[derive(Drop)]
pub struct Bench<H: House> {
    pub seat: HostSeat<H>,
    pub pass: WorkPass,
}

impl<H: House> Bench<H> {
    /// The name to be done next, if there is one: one that waits, or the one that was put aside first, by turns. Where none waits that one is
    /// tried after a pause, in which its memory may come back.
    #[tactic(auto, using(crate::proofs::AsideLemmas::aside_more, crate::proofs::AsideLemmas::aside_out, crate::proofs::AsideLemmas::last_taken))]
    fn next_name<D, R: Wait>(
        &mut self,
        rt: &R,
        host: &Host<H, D>,
        aside: &mut Aside,
        pause: &mut Pause,
    ) -> Option<JobName>
        requires queue { self.old.pass.queue ≡ arc_value host.now.queue }
        requires aside { AreOf self.old.pass.taken aside.old.places }
        ensures queue { self.new.pass.queue ≡ arc_value host.now.queue }
        ensures worker { self.new.pass.worker ≡ self.old.pass.worker }
        ensures taken { (names : List AName) × (self.new.pass.taken ≡ self.old.pass.taken ++ names) }
        ensures seat { self.new.seat ≡ self.old.seat }
        ensures aside { AreOf self.new.pass.taken aside.new.places }
        ensures room { IfSome result (λ _. aside.new.count < MOST_ASIDE) }
        ensures name { IfSome result (λ name. Contains self.new.pass.taken name) }
    {
        if aside.is_due() {
            return aside.take();
        }
        if aside.has_room() {
            if let Some(name) = host.take(rt, &mut self.pass) {
                aside.pass_over();
                return Some(name);
            }
        }
        let name = aside.take()?;
        pause.wait(rt);
        Some(name)
    }

    /// Works for a host until no name waits and all that were taken are done. A name for whose job there is no memory is put aside, so that
    /// it does not hold up others, and is tried again. It forgets the receipts of each job, so that a worker that never rests stays small.
    fn work<D: Workplace<H, R>, R: Wait>(&mut self, rt: &R, host: &Host<H, D>)
        requires board { self.old.seat.board.board ≡ host.now.board }
        requires queue { self.old.pass.queue ≡ arc_value host.now.queue }
        ensures board { self.new.seat.board.board ≡ host.now.board }
        ensures queue { self.new.pass.queue ≡ arc_value host.now.queue }
        ensures worker { self.new.pass.worker ≡ self.old.pass.worker }
        ensures taken { (names : List AName) × (self.new.pass.taken ≡ self.old.pass.taken ++ names) }
        ensures receipts { self.new.seat.receipts ≡ [] }
        ensures worked { HasWorked self.old.pass.worker self.new.pass.taken self.old.seat self.new.seat }
    {
        let mut aside = Aside::new();
        let mut pause = Pause::new();
        for _ in rt.forever() {
            self.seat.forget();
            let Some(name) = self.next_name(rt, host, &mut aside, &mut pause) else {
                return;
            };
            if D::finish(rt, host, &mut self.seat, self.pass.worker(), &name) {
                pause.reset();
            } else {
                aside.put(name);
            }
        }
        unreachable!()
    }

    /// Works for a host until a door is shut and no name waits. Where none does it rests until one is posted: whoever shuts the door
    /// wakes the workers of the host.
    pub fn work_until<D: Workplace<H, R>, R: Wait>(
        &mut self,
        rt: &R,
        host: &Host<H, D>,
        door: &Door,
    )
        requires board { self.old.seat.board.board ≡ host.now.board }
        requires queue { self.old.pass.queue ≡ arc_value host.now.queue }
        ensures board { self.new.seat.board.board ≡ host.now.board }
        ensures queue { self.new.pass.queue ≡ arc_value host.now.queue }
        ensures worker { self.new.pass.worker ≡ self.old.pass.worker }
        ensures receipts { self.new.seat.receipts ≡ [] }
        ensures worked { HasWorked self.old.pass.worker self.new.pass.taken self.old.seat self.new.seat }
    {
        for _ in rt.forever() {
            self.work(rt, host);
            // it looks for a name once more behind the announcement, so that none is posted unseen before it sleeps
            let rest = host.prepare_rest();
            let is_last = door.is_shut();
            self.work(rt, host);
            if is_last {
                return;
            }
            rest.wait(rt);
        }
        unreachable!()
    }

    /// Has what a mount has committed written to the log and home, as far as one force and one push do.
    pub fn write_out<D: Workplace<H, R>, R: Wait>(
        &mut self,
        rt: &R,
        host: &Host<H, D>,
        at: &MountRef,
    )
        requires board { self.old.seat.board.board ≡ host.now.board }
        requires queue { self.old.pass.queue ≡ arc_value host.now.queue }
        ensures board { self.new.seat.board.board ≡ host.now.board }
        ensures queue { self.new.pass.queue ≡ arc_value host.now.queue }
        ensures worker { self.new.pass.worker ≡ self.old.pass.worker }
        ensures taken { (names : List AName) × (self.new.pass.taken ≡ self.old.pass.taken ++ names) }
        ensures receipts { self.new.seat.receipts ≡ [] }
        ensures written { HasWrittenOut (at.now ∷ []) self.old.pass.worker self.new.pass.taken self.old.seat self.new.seat }
        ensures used { IsUsed self.old.seat self.new.seat }
    {
        let _ = host.force(rt, &mut self.seat, *at);
        let _ = host.push(rt, &mut self.seat, *at);
        self.work(rt, host);
    }
}
