//! A host, and what its last step said.

ghost use Rattle.std.specs.Prelude.{◌≡◌, ◌≢◌, IfOk, None, Some, option_copied, slice_get};
ghost use Rattle.xt_c_host.specs.Stepping.{IsLine, IsPut, IsText, IsTurn, home_line, log_line, offer_in, offer_line, reply_line};
ghost use Rattle.xt_core.specs.Host.{IsNew};
ghost use Rattle.xt_text.specs.Replies.{home_offer_text, log_offer_text, slot_reply_text};

use crate::status::{DISORDER, INVALID, NO_MEMORY};
use std::alloc::{AllocError, Global};
use std::marker::Model;
use xt_base::names::Slot;
use xt_base::outcomes::Turn;
use xt_base::steps::{HomeOffer, LogOffer, Step};
use xt_core::host::{HostCore, TurnFault};
use xt_text::bad_line::BadLine;
use xt_text::buffer::Text;
use xt_text::parse::parse_line_in;
use xt_text::print_reply::{print_home_offer, print_log_offer, print_slot_reply};

/// A host, and what its last step said. Lines are read and written in one buffer, whose room is made with the host: so no reply, and no line without
/// data or answers, can fail for memory.
#[derive(Drop)]
pub struct ToldHost {
    core: HostCore,
    said: Option<Turn>,
    text: Text,
}

impl Model for ToldHost {
    ghost use Rattle.xt_c_host.specs.Told.{Told};

    ghost Value = { Told };

    ghost view = { λ h. record { host = h.core; said = h.said } };
}

/// Leaves the line of a turn's reply alone in a buffer.
#[tactic(auto, using(crate::proofs::TextLemmas::put_first))]
fn write_reply(turn: &Turn, text: &mut Text)
    ensures { text.new ≡ Some (slot_reply_text turn.now.slot turn.now.reply) }
{
    text.clear();
    print_slot_reply(turn.slot(), &turn.reply, text);
}

/// Leaves the line of what was offered to a log alone in a buffer.
#[tactic(auto, using(crate::proofs::TextLemmas::put_first))]
fn write_log_offer(slot: Slot, offer: &LogOffer, text: &mut Text)
    ensures { text.new ≡ Some (log_offer_text slot offer.now) }
{
    text.clear();
    print_log_offer(slot, offer, text);
}

/// Leaves the line of what was offered to a home device alone in a buffer.
#[tactic(auto, using(crate::proofs::TextLemmas::put_first))]
fn write_home_offer(slot: Slot, offer: &HomeOffer, text: &mut Text)
    ensures { text.new ≡ Some (home_offer_text slot offer.now) }
{
    text.clear();
    print_home_offer(slot, offer, text);
}

/// The offer to a log at a place.
fn log_offer_at(offers: &[LogOffer], index: usize) -> Option<&LogOffer>
    ensures { option_copied result ≡ slice_get offers.now index }
{
    offers.get(index)
}

/// The offer to a home device at a place.
fn home_offer_at(offers: &[HomeOffer], index: usize) -> Option<&HomeOffer>
    ensures { option_copied result ≡ slice_get offers.now index }
{
    offers.get(index)
}

/// Copies a text to the front of a room where it fits.
fn put_bytes(text: &[u8], length: &mut usize, room: &mut [u8]) -> i32
    ensures { IsPut text.now result length.new length.old room.new room.old }
{
    if room.len() < text.len() {
        return INVALID;
    }
    room[..text.len()].copy_from_slice(text);
    *length = text.len();
    0
}

/// Copies the line of what was offered to a log at a place to the front of a room.
fn put_log_offer(
    slot: Slot,
    offers: &[LogOffer],
    index: usize,
    text: &mut Text,
    length: &mut usize,
    room: &mut [u8],
) -> i32
    ensures { IsText (log_line slot (slice_get offers.now index)) result length.new length.old room.new room.old }
{
    match log_offer_at(offers, index) {
        Some(offer) => {
            write_log_offer(slot, offer, text);
            put_bytes(text.bytes(), length, room)
        }
        None => INVALID,
    }
}

/// Copies the line of what was offered to a home device at a place to the front of a room.
fn put_home_offer(
    slot: Slot,
    offers: &[HomeOffer],
    index: usize,
    text: &mut Text,
    length: &mut usize,
    room: &mut [u8],
) -> i32
    ensures { IsText (home_line slot (slice_get offers.now index)) result length.new length.old room.new room.old }
{
    match home_offer_at(offers, index) {
        Some(offer) => {
            write_home_offer(slot, offer, text);
            put_bytes(text.bytes(), length, room)
        }
        None => INVALID,
    }
}

/// Copies the line of a turn's offer at a place to the front of a room: those to the log stand before those to the home device.
fn put_offer(turn: &Turn, index: usize, text: &mut Text, length: &mut usize, room: &mut [u8]) -> i32
    ensures { IsText (offer_in index turn.now) result length.new length.old room.new room.old }
{
    let slot = turn.slot();
    let logged = turn.offers.log();
    if index < logged.len() {
        put_log_offer(slot, logged, index, text, length, room)
    } else {
        let index = index - logged.len();
        put_home_offer(slot, turn.offers.home(), index, text, length, room)
    }
}

impl ToldHost {
    /// A new host. The one error is want of memory.
    pub fn new(alloc: Global) -> Result<Self, AllocError>
        ensures { IfOk result (λ told. IsNew told.host × (told.said ≡ None)) }
    {
        let core = HostCore::new(alloc)?;
        let text = Text::new(alloc)?;
        Ok(ToldHost {
            core,
            said: None,
            text,
        })
    }

    /// Takes a step, and keeps what it said.
    fn tell(&mut self, step: &Step) -> i32
        ensures { IsTurn step.now result self.new self.old }
    {
        match self.core.tell(step) {
            Ok(turn) => {
                self.said = Some(turn);
                0
            }
            Err(TurnFault::Disorder) => DISORDER,
            Err(TurnFault::Memory) => NO_MEMORY,
        }
    }

    /// Takes the step that a line spells.
    pub fn take(&mut self, alloc: Global, line: &[u8]) -> i32
        ensures { IsLine line.now result self.new self.old }
    {
        match parse_line_in(alloc, line, &mut self.text) {
            Ok(step) => self.tell(&step),
            Err(BadLine::Spelling) => INVALID,
            Err(BadLine::Memory) => NO_MEMORY,
        }
    }

    /// Copies the line of the last reply to the front of a room.
    pub fn reply(&mut self, length: &mut usize, room: &mut [u8]) -> i32
        ensures reply { IsText (reply_line self.old.said) result length.new length.old room.new room.old }
        ensures same { self.new ≡ self.old }
    {
        let Some(turn) = &self.said else {
            return INVALID;
        };
        write_reply(turn, &mut self.text);
        put_bytes(self.text.bytes(), length, room)
    }

    /// Copies the line of the last turn's offer at a place to the front of a room.
    pub fn offer(&mut self, index: usize, length: &mut usize, room: &mut [u8]) -> i32
        ensures offer { IsText (offer_line index self.old.said) result length.new length.old room.new room.old }
        ensures same { self.new ≡ self.old }
    {
        match &self.said {
            Some(turn) => put_offer(turn, index, &mut self.text, length, room),
            None => INVALID,
        }
    }
}
