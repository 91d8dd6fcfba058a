//! What a run of steps told.

ghost use Rattle.std.specs.Prelude.{◌≡◌, ◌<◌, ◌++◌, ◌∷◌, [], true, map, slice_set, IfOk, OnOk, OnErr};
ghost use Rattle.xt_base.specs.Isolation.{home_offers_in, is_refused, log_offers_in, shut_in, untold};

use crate::names::Slot;
use crate::sizes::SLOTS;
use crate::steps::{HomeOffer, LogOffer, Reason, Reply};
use std::alloc::{AllocError, Global};
use std::marker::Model;

/// A slot, and what a step of it offered to one of its devices. Most steps offer nothing, so offers are in a box.
#[derive(Debug, Drop)]
enum Lists {
    None(Slot),
    Log(Slot, Box<Vec<LogOffer>>),
    Home(Slot, Box<Vec<HomeOffer>>),
}

/// What a step of a slot offered to its log device or to its home device, in order. It knows the slot, so that a turn is small.
#[derive(Debug, Drop)]
pub struct Offers {
    lists: Lists,
}

impl Model for Offers {
    ghost use Rattle.xt_base.specs.Alone.{Offered};
    ghost use Rattle.xt_base.specs.Offers.{offered_of};

    ghost Value = { Offered };

    ghost view = { λ o. offered_of o.lists };
}

impl Offers {
    /// No offer of a slot.
    pub fn none(slot: Slot) -> Self
        ensures { result ≡ record { slot = slot; log = []; home = [] } }
    {
        Offers {
            lists: Lists::None(slot),
        }
    }

    /// These offers to the log device of a slot. The one error is want of memory.
    pub fn to_log(alloc: Global, slot: Slot, offers: Vec<LogOffer>) -> Result<Self, AllocError>
        ensures { IfOk result (λ offered. offered ≡ record { slot = slot; log = offers.items; home = [] }) }
    {
        let offers = Box::new(alloc, offers)?;
        Ok(Offers {
            lists: Lists::Log(slot, offers),
        })
    }

    /// These offers to the home device of a slot. The one error is want of memory.
    pub fn to_home(alloc: Global, slot: Slot, offers: Vec<HomeOffer>) -> Result<Self, AllocError>
        ensures { IfOk result (λ offered. offered ≡ record { slot = slot; log = []; home = offers.items }) }
    {
        let offers = Box::new(alloc, offers)?;
        Ok(Offers {
            lists: Lists::Home(slot, offers),
        })
    }

    /// The slot.
    pub fn slot(&self) -> Slot
        ensures { result ≡ self.now.slot }
    {
        match &self.lists {
            Lists::None(slot) | Lists::Log(slot, _) | Lists::Home(slot, _) => *slot,
        }
    }

    /// What was offered to the log device.
    pub fn log(&self) -> &[LogOffer]
        ensures { result.now ≡ self.now.log }
    {
        match &self.lists {
            Lists::Log(_, offers) => offers,
            _ => &[],
        }
    }

    /// What was offered to the home device, reads aside.
    pub fn home(&self) -> &[HomeOffer]
        ensures { result.now ≡ self.now.home }
    {
        match &self.lists {
            Lists::Home(_, offers) => offers,
            _ => &[],
        }
    }
}

/// What one step said: its reply, and what it offered, which knows its slot.
#[derive(Debug, Drop)]
pub struct Turn {
    pub reply: Reply,
    pub offers: Offers,
}

impl Model for Turn {
    ghost use Rattle.xt_base.specs.Alone.{Said};

    ghost Value = { Said };

    ghost view = { λ t. record { slot = t.offers.slot; reply = t.reply; log = t.offers.log; home = t.offers.home } };
}

impl Turn {
    /// The slot of the step.
    pub fn slot(&self) -> Slot
        ensures { result ≡ self.now.slot }
    {
        self.offers.slot()
    }
}

/// What a run of steps told: a turn for each step, and for each of sixteen slots why it is shut at
/// the end, and whether it was ever refused memory.
#[derive(Debug, Drop)]
pub struct Outcomes {
    turns: Vec<Turn>,
    shut: [Option<Reason>; SLOTS],
    refused: [bool; SLOTS],
}

impl Model for Outcomes {
    ghost use Rattle.xt_base.specs.Isolation.{Told};

    ghost Value = { Told };

    ghost view = { λ o. record { turns = o.turns.items; shut = o.shut; refused = o.refused } };
}

impl Outcomes {
    /// Of a run of no step: no turn, each slot live, and none refused memory. There is room for the turns of so many steps.
    /// The one error is want of memory for it.
    pub fn new(alloc: Global, steps: usize) -> Result<Self, AllocError>
        ensures { IfOk result (λ outcomes. outcomes ≡ untold) }
    {
        let turns = Vec::with_capacity(alloc, steps)?;
        Ok(Outcomes {
            turns,
            shut: [None; SLOTS],
            refused: [false; SLOTS],
        })
    }

    /// The turns, one for each step, in the order of the steps.
    pub fn turns(&self) -> &[Turn]
        ensures { result.now ≡ self.now.turns }
    {
        &self.turns
    }

    /// Why a slot is shut; None where it is live or empty.
    pub fn shut(&self, slot: Slot) -> Option<Reason>
        ensures { result ≡ shut_in slot self.now }
    {
        self.shut[slot.index()]
    }

    /// Whether a step of a slot was answered ENOMEM.
    pub fn refused(&self, slot: Slot) -> bool
        ensures { result ≡ is_refused slot self.now }
    {
        self.refused[slot.index()]
    }

    /// What a slot offered to its log device, in order. The one error is want of memory for the list.
    pub fn log_offers(&self, alloc: Global, slot: Slot) -> Result<Vec<&LogOffer>, AllocError>
        ensures { IfOk result (λ offers. map (λ o. o.now) offers.items ≡ log_offers_in slot self.now) }
    {
        let mut offers = Vec::new(alloc);
        for turn in &self.turns {
            if turn.slot() == slot {
                append_log(&mut offers, turn.offers.log())?;
            }
        }
        Ok(offers)
    }

    /// What a slot offered to its home device, in order, reads aside. The one error is want of memory for the list.
    pub fn home_offers(&self, alloc: Global, slot: Slot) -> Result<Vec<&HomeOffer>, AllocError>
        ensures { IfOk result (λ offers. map (λ o. o.now) offers.items ≡ home_offers_in slot self.now) }
    {
        let mut offers = Vec::new(alloc);
        for turn in &self.turns {
            if turn.slot() == slot {
                append_home(&mut offers, turn.offers.home())?;
            }
        }
        Ok(offers)
    }

    /// Adds the turn of one more step. The one error is want of memory, and then nothing changes.
    pub fn add(&mut self, turn: Turn) -> Result<(), AllocError>
        ensures ok { OnOk result (self.new ≡ record self.old { turns = self.old.turns ++ turn ∷ [] }) }
        ensures err { OnErr result (self.new ≡ self.old) }
    {
        self.turns.push(turn)?;
        Ok(())
    }

    /// Notes why a slot is shut now, or that it is not.
    pub fn note_shut(&mut self, slot: Slot, reason: Option<Reason>)
        ensures noted { self.new ≡ record self.old { shut = slice_set self.old.shut slot reason } }
        ensures range { slot < SLOTS }
    {
        self.shut[slot.index()] = reason;
    }

    /// Notes that a slot was refused memory.
    pub fn note_refused(&mut self, slot: Slot)
        ensures { self.new ≡ record self.old { refused = slice_set self.old.refused slot true } }
    {
        self.refused[slot.index()] = true;
    }
}

/// Appends offers to a log device. The one error is want of memory.
fn append_log<'a>(out: &mut Vec<&'a LogOffer>, offers: &'a [LogOffer]) -> Result<(), AllocError>
    ensures { OnOk result (map (λ o. o.now) out.new.items ≡ map (λ o. o.now) out.old.items ++ offers.now) }
{
    for offer in offers {
        out.push(offer)?;
    }
    Ok(())
}

/// Appends offers to a home device. The one error is want of memory.
fn append_home<'a>(out: &mut Vec<&'a HomeOffer>, offers: &'a [HomeOffer]) -> Result<(), AllocError>
    ensures { OnOk result (map (λ o. o.now) out.new.items ≡ map (λ o. o.now) out.old.items ++ offers.now) }
{
    for offer in offers {
        out.push(offer)?;
    }
    Ok(())
}

/// A step that may not come now.
#[derive(Clone, Copy, Debug, PartialEq, Eq)]
pub struct Disorder;

/// Why a run stopped.
#[derive(Debug, Drop)]
pub enum RunFault {
    /// The step at a place, counted from 0, may not come after the steps before it, which told this.
    Disorder { at: usize, before: Outcomes },
    /// What was told, or a copy of an offer, found no memory.
    Memory,
}
