//! What one session over a host holds: its seat, and the names of its transactions and held buffers; and how its requests are served.

ghost use Rattle.std.specs.Prelude.{◌≡◌, ◌<◌, ◌≤◌, ◌+◌, [], IfSome, OnOk, false, vec_capacity, vec_len};
ghost use Rattle.xt_base.specs.Calls.{is_unmount};
ghost use Rattle.xt_base.specs.declared.sizes.TheConstants.{BUSY_BLOCKS};
ghost use Rattle.xt_service.specs.Holding.{has_named, held_after, holds, next_back, trans_after};
ghost use Rattle.xt_service.specs.HostCalls.{Ends, IsAsked, IsCalled, IsPeeked, IsTold};

use crate::effect::{
    buffer_of, close_ended, drop_given, effect_of, keep_held, keep_opened, trans_of,
};
use crate::names::{Name, has};
use std::alloc::{AllocError, Global};
use std::marker::Model;
use std::sync::Wait;
use xt_base::names::{Block, Slot, TransNo};
use xt_base::sizes::BUSY_BLOCKS;
use xt_base::steps::{Errno, Reply, Request};
use xt_cell::house::House;
use xt_cell::mount_ref::MountRef;
use xt_cell::seat::HostSeat;
use xt_host::desk::Desk;
use xt_host::host::Host;
use xt_host::pause::Pause;

/// What one session has: its seat at the host, and the names of its transactions and of its held buffers, ascending.
#[derive(Drop)]
pub struct Holding<H: House> {
    seat: HostSeat<H>,
    trans: Vec<Name>,
    held: Vec<Name>,
}

impl<H: House> Model for Holding<H> {
    ghost use Rattle.xt_service.specs.HostCalls.{SessionView};

    ghost Value = { SessionView };

    ghost view = { λ s. record { seat = s.seat; trans = s.trans.items; held = s.held.items } };
}

/// Makes room for what one call can add: a transaction, and as many held buffers as a leg can leave.
fn make_room(trans: &mut Vec<Name>, held: &mut Vec<Name>) -> Result<(), AllocError>
    ensures trans { trans.new.items ≡ trans.old.items }
    ensures held { held.new.items ≡ held.old.items }
    ensures room { OnOk result ((vec_len trans.new < vec_capacity trans.new) × (vec_len held.new + BUSY_BLOCKS ≤ vec_capacity held.new)) }
{
    trans.reserve(1)?;
    held.reserve(BUSY_BLOCKS)
}

/// Whether a transaction or a held buffer that is named, if one is, stands in a list.
fn has_named(names: &[Name], at: &MountRef, number: Option<u64>) -> bool
    ensures { result ≡ has_named at.now number names.now }
{
    match number {
        Some(number) => has(names, &Name { at: *at, number }),
        None => true,
    }
}

/// Asks the host by a seat that forgets its earlier receipts.
#[tactic(auto, using(crate::proofs::HostLemmas::told_of))]
fn ask<H: House, D: Desk<H, T>, T: Wait>(
    rt: &T,
    host: &Host<H, D>,
    seat: &mut HostSeat<H>,
    at: MountRef,
    request: Request,
) -> Reply
    requires board { seat.old.board.board ≡ host.now.board }
    requires kind { is_unmount request ≡ false }
    ensures { IsTold at request result seat.old seat.new }
{
    seat.forget();
    host.call(rt, seat, at, request)
}

impl<H: House> Holding<H> {
    /// A session that holds nothing. It takes no memory.
    pub(crate) fn new(alloc: Global, seat: HostSeat<H>) -> Self
        ensures seat { result.seat ≡ seat }
        ensures trans { result.trans ≡ [] }
        ensures held { result.held ≡ [] }
    {
        Holding {
            seat,
            trans: Vec::new(alloc),
            held: Vec::new(alloc),
        }
    }

    /// Its seat.
    pub(crate) fn into_seat(self) -> HostSeat<H>
        ensures { result ≡ self.seat }
    {
        self.seat
    }

    /// Whether it has all that a request names.
    fn holds(&self, at: &MountRef, request: &Request) -> bool
        ensures { result ≡ holds at.now request.now self.now.trans self.now.held }
    {
        has_named(&self.trans, at, trans_of(request))
            && has_named(&self.held, at, buffer_of(request))
    }

    /// Asks the host, with room for the names that the reply may bring, and changes the names by the reply. ENOMEM where there is no
    /// such room, and then the host is not asked.
    fn ask<D: Desk<H, T>, T: Wait>(
        &mut self,
        rt: &T,
        host: &Host<H, D>,
        at: &MountRef,
        request: Request,
    ) -> Reply
        requires board { self.old.seat.board.board ≡ host.now.board }
        requires kind { is_unmount request ≡ false }
        ensures asked { IsAsked at.now request result self.old self.new }
    {
        if make_room(&mut self.trans, &mut self.held).is_err() {
            self.seat.forget();
            return Reply::Refused(Errno::NoMemory);
        }
        let effect = effect_of(&request);
        let reply = ask(rt, host, &mut self.seat, *at, request);
        if !reply.is_no_memory() {
            close_ended(&mut self.trans, at, &effect);
            keep_opened(&mut self.trans, at, &reply);
            drop_given(&mut self.held, at, &effect, &reply);
            keep_held(&mut self.held, at, &reply);
        }
        reply
    }

    /// Answers a request: EINVAL where it names what the session does not hold.
    pub(crate) fn serve<D: Desk<H, T>, T: Wait>(
        &mut self,
        rt: &T,
        host: &Host<H, D>,
        at: &MountRef,
        request: Request,
    ) -> Reply
        requires board { self.old.seat.board.board ≡ host.now.board }
        requires kind { is_unmount request ≡ false }
        ensures called { IsCalled at.now request result self.old self.new }
        ensures board { self.new.seat.board.board ≡ self.old.seat.board.board }
    {
        if self.holds(at, &request) {
            self.ask(rt, host, at, request)
        } else {
            Reply::Refused(Errno::Invalid)
        }
    }

    /// What its seat sees of a slot.
    pub(crate) fn peek<D>(&mut self, host: &Host<H, D>, slot: Slot) -> Reply
        requires board { self.old.seat.board.board ≡ host.now.board }
        ensures { IsPeeked slot result self.old self.new }
    {
        let (life, reason) = host.seen_shut(&mut self.seat, slot);
        Reply::Seen { life, reason }
    }

    /// What it gives back next.
    fn next_back(&self) -> Option<(MountRef, Request)>
        ensures value { result ≡ next_back self.now.trans self.now.held }
        ensures kind { IfSome result (λ back. is_unmount back.1 ≡ false) }
    {
        if let Some(trans) = self.trans.first() {
            let request = Request::Cancel {
                trans: TransNo(trans.number()),
            };
            return Some((trans.at, request));
        }
        let buffer = self.held.first()?;
        let request = Request::Release {
            block: Block(buffer.number()),
        };
        Some((buffer.at, request))
    }

    /// Gives all back: its transactions are cancelled, ascending, and then its held buffers are released, ascending. What finds no memory
    /// is tried again, after a pause.
    pub(crate) fn give_back<D: Desk<H, T>, T: Wait>(&mut self, rt: &T, host: &Host<H, D>)
        requires board { self.old.seat.board.board ≡ host.now.board }
        ensures ends { Ends self.old self.new }
        ensures board { self.new.seat.board.board ≡ self.old.seat.board.board }
    {
        let mut pause = Pause::new();
        for _ in rt.forever() {
            let Some((at, request)) = self.next_back() else {
                return;
            };
            if self.ask(rt, host, &at, request).is_no_memory() {
                pause.wait(rt);
            }
        }
        unreachable!()
    }
}
