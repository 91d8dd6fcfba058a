//! The log space of one mount: who was granted what, and what its lists and landed checkpoints cost.

ghost use Rattle.std.specs.Prelude.{◌≡◌, ◌^◌, ◌≤◌, ◌<◌, ◌+◌, ◌-◌, ◌*◌, ◌++◌, Some, None, Ok, Err, true, is_none, is_some, sum_by, if◌then◌else◌, OnOk, OnErr};
ghost use Rattle.std.specs.VecDeque.{deque_len, deque_capacity};
ghost use Rattle.xt_base.specs.Maps.{put};
ghost use Rattle.xt_base.specs.Sound.{AllBelow, IsRising};
ghost use Rattle.xt_base.specs.declared.steps.Errno.TheVariants.{Again as IsAgain, Invalid as IsInvalid, NoSpace as IsNoSpace};
ghost use Rattle.xt_resv.specs.Ledgers.{new_ledger, used, flight_cost, is_invalid, grant_refusal, new_grant, grant_unless, charged_with, whole_charge, is_fitting, ungranted, is_no_room, next_grant, regranted, is_counted, still_counted, is_front_uncounted};

use std::alloc::{AllocError, Global};
use std::collections::VecDeque;
use std::marker::Model;
use xt_base::form::Form;
use xt_base::newly::Newly;
use xt_base::sizes::{CHUNK_COST, CHUNKS, GRANTED_LEGS, ITEM_COST, MOST_LOG};
use xt_base::steps::Errno;

/// What a transaction was granted: the log bytes of a leg, the legs left, whether it may roll, and what its
/// present leg was charged for its blocks and chunks. It can't be let go: it ends in `LogSpace::give_back` or `LogSpace::commit`.
#[derive(Debug)]
pub struct Ticket {
    unit: u32,
    legs: u32,
    perm: bool,
    charged: u32,
}

impl Model for Ticket {
    ghost use Rattle.std.specs.Prelude.{◌≤◌};
    ghost use Rattle.xt_resv.specs.Ledgers.{Grant};

    ghost Value = { Grant };

    ghost view = { λ t. record { unit = t.unit; legs = t.legs; perm = t.perm; charged = t.charged } };

    ghost invariant = { λ t. t.charged ≤ t.unit };
}

impl Ticket {
    /// The legs left, the present one counted; 0 after a roll that was given up.
    pub fn legs(&self) -> u32
        ensures { result ≡ self.now.legs }
    {
        self.legs
    }

    /// The log bytes of a leg.
    pub fn unit(&self) -> u32
        ensures { result ≡ self.now.unit }
    {
        self.unit
    }

    /// Whether the transaction may roll.
    pub fn perm(&self) -> bool
        ensures { result ≡ self.now.perm }
    {
        self.perm
    }

    /// What the present leg was charged, in a mount of this form; 0 for a clean leg.
    pub fn charged(&self, form: Form) -> u64
        ensures { result ≡ whole_charge form.ends self.now.charged }
    {
        whole_charge(form, u64::from(self.charged))
    }

    /// What the legs left were granted together.
    fn grant(&self) -> u64
        ensures { result ≡ self.now.unit * self.now.legs }
    {
        u64::from(self.unit) * u64::from(self.legs)
    }

    /// The next leg begins: one less is left, or one new unit.
    fn begin_leg(&mut self)
        ensures { self.new ≡ next_grant self.old }
    {
        if self.legs > 1 {
            self.legs -= 1;
        } else {
            self.legs = 1;
        }
        self.charged = 0;
    }

    /// The ticket ends; what its legs left were granted together.
    fn end(self) -> u64
        ensures { result ≡ self.unit * self.legs }
    {
        let Ticket {
            unit,
            legs,
            perm: _,
            charged: _,
        } = self;
        u64::from(unit) * u64::from(legs)
    }

    /// What the present leg is charged for its blocks and chunks, with what is charged anew.
    fn charged_with(&self, newly: Newly) -> u64
        requires blocks { newly.blocks ≤ 1 }
        requires chunks { newly.chunks ≤ CHUNKS }
        ensures value { result ≡ charged_with newly self.now.charged }
        ensures range { result ≤ self.now.unit + ITEM_COST + CHUNK_COST * CHUNKS }
    {
        u64::from(self.charged)
            + ITEM_COST * u64::from(newly.blocks)
            + CHUNK_COST * u64::from(newly.chunks)
    }
}

/// The log space of one mount, by running totals: no call adds up what was granted or what lists cost. Clauses see
/// a `Ledger`, whose parts are never more than the log together.
#[derive(Debug, Drop)]
pub struct LogSpace {
    size: u32,
    granted: u64,
    cil: u64,
    flight: Option<u64>,
    landed: VecDeque<(u64, u64)>,
    landed_total: u64,
}

impl Model for LogSpace {
    ghost use Rattle.std.specs.Prelude.{◌≡◌, ◌<◌, is_some, true};
    ghost use Rattle.std.specs.VecDeque.{deque_len, deque_capacity};
    ghost use Rattle.xt_resv.specs.Ledgers.{Ledger, IsInOrder};

    ghost Value = { Ledger };

    ghost view = { λ s. record { size = s.size; granted = s.granted; cil = s.cil; flight = s.flight; landed = s.landed.items } };

    ghost invariant = { λ s. IsInOrder (record { size = s.size; granted = s.granted; cil = s.cil; flight = s.flight; landed = s.landed.items }) s.landed_total × (is_some s.flight ≡ true → deque_len s.landed < deque_capacity s.landed) };
}

impl LogSpace {
    /// A log of so many bytes, at most 16,777,216, of which none is in use. It takes no memory.
    pub fn new(alloc: Global, size: u32) -> Self
        requires { size ≤ MOST_LOG }
        ensures { result ≡ new_ledger size }
    {
        LogSpace {
            size,
            granted: 0,
            cil: 0,
            flight: None,
            landed: VecDeque::new(alloc),
            landed_total: 0,
        }
    }

    /// The size of the log.
    pub fn size(&self) -> u32
        ensures value { result ≡ self.now.size }
        ensures range { result ≤ MOST_LOG }
    {
        self.size
    }

    /// What each landed checkpoint costs that still counts, by its number: the older ones, and then the younger ones.
    pub fn landed(&self) -> (&[(u64, u64)], &[(u64, u64)])
        ensures { result.0.now ++ result.1.now ≡ self.now.landed }
    {
        self.landed.as_slices()
    }

    /// The log bytes that open transactions were granted, at most the size.
    pub fn granted(&self) -> u32
        ensures value { result ≡ self.now.granted }
        ensures range { result ≤ self.now.size }
    {
        self.granted as u32
    }

    /// The log bytes in use, at most the size.
    pub fn used(&self) -> u64
        ensures value { result ≡ used self.now }
        ensures range { result ≤ self.now.size }
    {
        self.granted + self.cil + cost_of(self.flight) + self.landed_total
    }

    /// What refuses a grant however much space is left: `Invalid` for a unit of 0, a count outside 1 to 8, more than one
    /// leg of what may not roll, or more than the whole log.
    pub fn refusal(&self, unit: u32, count: u32, perm: bool) -> Option<Errno>
        ensures { result ≡ (if is_invalid unit count perm self.now.size then Some IsInvalid else None) }
    {
        if unit == 0
            || count == 0
            || count > GRANTED_LEGS
            || (count > 1 && !perm)
            || u64::from(unit) * u64::from(count) > u64::from(self.size)
        {
            Some(Errno::Invalid)
        } else {
            None
        }
    }

    /// Grants `count` legs of `unit` log bytes. It is refused with `Invalid` as `refusal` says, else with `Again` where
    /// less space is left, and then nothing changes.
    pub fn grant(&mut self, unit: u32, count: u32, perm: bool) -> Result<Ticket, Errno>
        ensures result { result ≡ grant_unless (grant_refusal unit count perm self.old) (new_grant unit count perm) }
        ensures ok { OnOk result (self.new ≡ record self.old { granted = self.old.granted + unit * count }) }
        ensures err { OnErr result (self.new ≡ self.old) }
    {
        if let Some(errno) = self.refusal(unit, count, perm) {
            return Err(errno);
        }
        let more = u64::from(unit) * u64::from(count);
        if self.used() + more > u64::from(self.size) {
            return Err(Errno::Again);
        }
        self.granted += more;
        Ok(Ticket {
            unit,
            legs: count,
            perm,
            charged: 0,
        })
    }

    /// Whether the present leg may be charged so: its whole charge is then at most the unit. A leg's first change is
    /// charged the ends of a text of this form, a block 16 and a chunk 128.
    pub fn fits(form: Form, ticket: &Ticket, newly: Newly) -> bool
        requires blocks { newly.blocks ≤ 1 }
        requires chunks { newly.chunks ≤ CHUNKS }
        ensures { result ≡ is_fitting form.ends newly ticket.now }
    {
        let unit = u64::from(ticket.unit);
        whole_charge(form, ticket.charged_with(newly)) <= unit
    }

    /// Charges the present leg. It is refused with `NoSpace` where `fits` says no, and then nothing changes.
    pub fn charge(form: Form, ticket: &mut Ticket, newly: Newly) -> Result<(), Errno>
        requires blocks { newly.blocks ≤ 1 }
        requires chunks { newly.chunks ≤ CHUNKS }
        ensures result { result ≡ (if is_fitting form.ends newly ticket.old then Ok tt else Err IsNoSpace) }
        ensures ok { OnOk result (ticket.new ≡ record ticket.old { charged = charged_with newly ticket.old.charged }) }
        ensures err { OnErr result (ticket.new ≡ ticket.old) }
    {
        let charged = ticket.charged_with(newly);
        if whole_charge(form, charged) > u64::from(ticket.unit) {
            return Err(Errno::NoSpace);
        }
        ticket.charged = charged as u32;
        Ok(())
    }

    /// Takes a ticket back with all its legs.
    pub fn give_back(&mut self, ticket: Ticket)
        requires { ticket.unit * ticket.legs ≤ self.old.granted }
        ensures { self.new ≡ ungranted ticket self.old.cil self.old }
    {
        self.granted -= ticket.end();
    }

    /// Takes a ticket back whose leg was committed: the commit list costs `cil_cost` now, no more than what the ticket was
    /// granted above what it did.
    pub fn commit(&mut self, ticket: Ticket, cil_cost: u64)
        requires granted { ticket.unit * ticket.legs ≤ self.old.granted }
        requires cost { cil_cost ≤ self.old.cil + ticket.unit * ticket.legs }
        ensures { self.new ≡ ungranted ticket cil_cost self.old }
    {
        self.granted -= ticket.end();
        self.cil = cil_cost;
    }

    /// A roll: the leg is committed, so that the commit list costs `cil_cost` now, and the next one begins. The last leg
    /// asks one new unit. `Again` where that finds no space, and then nothing changes.
    pub fn next_leg(&mut self, ticket: &mut Ticket, cil_cost: u64) -> Result<(), Errno>
        requires granted { ticket.old.unit * ticket.old.legs ≤ self.old.granted }
        requires legs { 1 ≤ ticket.old.legs }
        requires cost { cil_cost ≤ self.old.cil + ticket.old.unit }
        ensures result { result ≡ (if is_no_room ticket.old cil_cost self.old then Err IsAgain else Ok tt) }
        ensures ok { OnOk result ((self.new ≡ regranted ticket.old cil_cost self.old) × (ticket.new ≡ next_grant ticket.old)) }
        ensures err { OnErr result ((self.new ≡ self.old) × (ticket.new ≡ ticket.old)) }
    {
        if self.is_no_room(ticket, cil_cost) {
            return Err(Errno::Again);
        }
        let before = ticket.grant();
        ticket.begin_leg();
        self.granted = self.granted - before + ticket.grant();
        self.cil = cil_cost;
        Ok(())
    }

    /// Whether the last leg finds no space for one new unit, where its commit makes the commit list cost this.
    pub fn is_no_room(&self, ticket: &Ticket, cil_cost: u64) -> bool
        requires granted { ticket.now.unit * ticket.now.legs ≤ self.now.granted }
        requires cost { cil_cost ≤ self.now.cil + ticket.now.unit }
        ensures { result ≡ is_no_room ticket.now cil_cost self.now }
    {
        ticket.legs == 1
            && self.granted + cil_cost + cost_of(self.flight) + self.landed_total
                > u64::from(self.size)
    }

    /// A roll that is given up: the ticket has no leg left, and what they were granted is free.
    pub fn give_up(&mut self, ticket: &mut Ticket)
        requires { ticket.old.unit * ticket.old.legs ≤ self.old.granted }
        ensures space { self.new ≡ ungranted ticket.old self.old.cil self.old }
        ensures ticket { ticket.new ≡ record ticket.old { legs = 0; charged = 0 } }
    {
        self.granted -= ticket.grant();
        ticket.legs = 0;
        ticket.charged = 0;
    }

    /// What the commit list costs.
    pub fn cil(&self) -> u64
        ensures { result ≡ self.now.cil }
    {
        self.cil
    }

    /// What the commit list costs now. It has to find space.
    pub fn cil_cost(&mut self, cost: u64)
        requires { used (record self.old { cil = cost }) ≤ self.old.size }
        ensures { self.new ≡ record self.old { cil = cost } }
    {
        self.cil = cost;
    }

    /// The commit list becomes the flight, and another, empty list begins. The one error is want of memory for the
    /// landing, and then nothing changes.
    pub fn fly(&mut self) -> Result<(), AllocError>
        requires { is_none self.old.flight ≡ true }
        ensures ok { OnOk result (self.new ≡ record self.old { cil = 0; flight = Some self.old.cil }) }
        ensures err { OnErr result (self.new ≡ self.old) }
    {
        self.landed.reserve(1)?;
        self.flight = Some(self.cil);
        self.cil = 0;
        Ok(())
    }

    /// The flight has landed under a number above those that landed before: what it cost counts under that number, as
    /// far as it and those before it still count where `least` is the least number of the active list. It takes no
    /// memory.
    pub fn land(&mut self, number: u64, least: Option<u64>)
        requires flying { is_some self.old.flight ≡ true }
        requires below { AllBelow number self.old.landed }
        ensures { self.new ≡ record self.old { flight = None; landed = still_counted least (put number (flight_cost self.old.flight) self.old.landed) } }
    {
        let cost = cost_of(self.flight);
        self.flight = None;
        append(&mut self.landed, number, cost);
        self.landed_total += cost;
        prune(&mut self.landed, &mut self.landed_total, least);
    }

    /// The flight is given up.
    pub fn fail(&mut self)
        ensures { self.new ≡ record self.old { flight = None } }
    {
        self.flight = None;
    }

    /// Landed checkpoints below the least number of the active list count no more; none does where that list is empty.
    pub fn tail(&mut self, least: Option<u64>)
        ensures { self.new ≡ record self.old { landed = still_counted least self.old.landed } }
    {
        prune(&mut self.landed, &mut self.landed_total, least);
    }
}

/// The whole charge of a leg, by what its blocks and chunks are charged: with the first change of a leg come the ends of
/// a text of this form.
fn whole_charge(form: Form, charged: u64) -> u64
    requires { charged < 2 ^ 63 }
    ensures value { result ≡ whole_charge form.ends charged }
    ensures range { charged ≤ result }
{
    if charged == 0 {
        0
    } else {
        u64::from(form.ends()) + charged
    }
}

/// What a flight costs; nothing where there is none.
fn cost_of(flight: Option<u64>) -> u64
    ensures { result ≡ flight_cost flight }
{
    flight.unwrap_or(0)
}

/// What a checkpoint cost goes behind those that landed before. It takes no memory.
#[tactic(auto, using(crate::proofs::LandedLemmas::landed_last, crate::proofs::LandedLemmas::landed_sum))]
fn append(landed: &mut VecDeque<(u64, u64)>, number: u64, cost: u64)
    requires room { deque_len landed.old < deque_capacity landed.old }
    requires rising { IsRising landed.old.items }
    requires below { AllBelow number landed.old.items }
    ensures landed { landed.new.items ≡ put number cost landed.old.items }
    ensures rising { IsRising landed.new.items }
    ensures total { sum_by (λ e. e.1) landed.new.items ≡ sum_by (λ e. e.1) landed.old.items + cost }
{
    landed.push_back_reserved((number, cost));
}

/// Gives up the landed checkpoints that count no more, the first ones.
fn prune(landed: &mut VecDeque<(u64, u64)>, total: &mut u64, least: Option<u64>)
    requires rising { IsRising landed.old.items }
    requires total { total.old ≡ sum_by (λ e. e.1) landed.old.items }
    ensures landed { landed.new.items ≡ still_counted least landed.old.items }
    ensures rising { IsRising landed.new.items }
    ensures total { total.new ≡ sum_by (λ e. e.1) landed.new.items }
    ensures less { total.new ≤ total.old }
    ensures count { deque_len landed.new ≤ deque_len landed.old }
    ensures room { deque_capacity landed.new ≡ deque_capacity landed.old }
{
    while is_front_uncounted(landed, least) {
        if let Some((_, cost)) = landed.pop_front() {
            *total -= cost;
        }
    }
}

/// Whether there is a first landed checkpoint, and it counts no more.
fn is_front_uncounted(landed: &VecDeque<(u64, u64)>, least: Option<u64>) -> bool
    ensures { result ≡ is_front_uncounted least landed.now.items }
{
    match landed.front() {
        Some(front) => !is_counted(least, front.0),
        None => false,
    }
}

/// Whether a landed checkpoint still counts.
fn is_counted(least: Option<u64>, number: u64) -> bool
    ensures { result ≡ is_counted least number }
{
    match least {
        Some(least) => least <= number,
        None => false,
    }
}
