//! Lines that wait to be written: many are written at once.

ghost use Rattle.std.specs.Prelude.{◌≡◌, ◌+◌, ◌≤◌, ◌++◌, [], length, true, IfOk, OnErr, OnOk, Some};
ghost use Rattle.std.specs.Io.KnownBytes.{Appends};
ghost use Rattle.xt_base.specs.declared.sizes.TheConstants.{PIECE_BYTES};
ghost use Rattle.xt_base.specs.declared.steps.LogOffer.{LogOffer as ALogOffer};
ghost use Rattle.xt_offline.specs.Printing.{ended, held, Begins};
ghost use Rattle.xt_text.specs.Replies.{home_offer_text, is_short_reply, log_offer_text, slot_reply_text};

use crate::writing::write_both;
use std::alloc::{AllocError, Global};
use std::io::{self, Write};
use std::marker::Model;
use xt_base::names::Slot;
use xt_base::steps::{HomeOffer, LogOffer, Reply};
use xt_text::buffer::Text;
use xt_text::print_reply::{
    is_short_reply, print_home_offer, print_log_offer, print_log_piece, print_log_sync,
    print_slot_reply,
};

/// How many bytes of lines wait at most for the next step, before they are written.
const LINES_BYTES: usize = 32_768;

/// Up to how many bytes the last lines are gathered: one of a short reply fits behind them.
const LAST_BYTES: usize = 8_192;

/// Lines that wait. The last of them stand where they were printed, and many are put behind the others at once.
#[derive(Drop)]
pub struct Waiting {
    lines: Vec<u8>,
    last: Text,
}

impl Model for Waiting {
    ghost use Rattle.std.specs.Prelude.{◌≡◌, ◌++◌, List, Some, ℕ};
    ghost use Rattle.xt_offline.specs.Printing.{held};

    ghost Value = { List ℕ };

    ghost view = { λ w. w.lines.items ++ held w.last };

    ghost invariant = { λ w. w.last ≡ Some (held w.last) };
}

impl Waiting {
    /// None. The one error is want of memory.
    pub fn new(alloc: Global) -> Result<Self, AllocError>
        ensures { IfOk result (λ waiting. waiting ≡ []) }
    {
        let last = Text::new(alloc)?;
        Ok(Waiting {
            lines: Vec::new(alloc),
            last,
        })
    }

    /// Whether so many wait that they are to be written.
    pub fn are_many(&self) -> bool {
        self.lines.len() >= LINES_BYTES
    }

    /// Puts the slot of a step and its reply behind them. The one error is want of memory.
    pub fn put_reply(&mut self, slot: Slot, reply: &Reply) -> Result<(), AllocError>
        ensures { OnOk result (self.new ≡ self.old ++ ended (slot_reply_text slot reply.now)) }
    {
        if is_short_reply(reply) {
            self.put_short(slot, reply)
        } else {
            self.put_long(slot, reply)
        }
    }

    /// The same of a short reply, as most are.
    #[inline(always)]
    fn put_short(&mut self, slot: Slot, reply: &Reply) -> Result<(), AllocError>
        requires { is_short_reply reply.now ≡ true }
        ensures { OnOk result (self.new ≡ self.old ++ ended (slot_reply_text slot reply.now)) }
    {
        make_room(&mut self.lines, &mut self.last)?;
        print_slot_reply(slot, reply, &mut self.last);
        self.last.push(b'\n');
        Ok(())
    }

    /// The same of any reply.
    #[inline(never)]
    fn put_long(&mut self, slot: Slot, reply: &Reply) -> Result<(), AllocError>
        ensures { OnOk result (self.new ≡ self.old ++ ended (slot_reply_text slot reply.now)) }
    {
        gather(&mut self.lines, &mut self.last)?;
        print_slot_reply(slot, reply, &mut self.last);
        self.last.push(b'\n');
        Ok(())
    }

    /// Puts a piece that was offered to a log device behind them. The one error is want of memory.
    pub fn put_log_piece(&mut self, slot: Slot, bytes: &[u8], ok: bool) -> Result<(), AllocError>
        requires { length bytes.now ≤ PIECE_BYTES }
        ensures { OnOk result (self.new ≡ self.old ++ ended (log_offer_text slot (ALogOffer.Piece bytes.now ok))) }
    {
        gather(&mut self.lines, &mut self.last)?;
        print_log_piece(slot, bytes, ok, &mut self.last);
        self.last.push(b'\n');
        Ok(())
    }

    /// Puts the sync behind the pieces. The one error is want of memory.
    pub fn put_log_sync(&mut self, slot: Slot, ok: bool) -> Result<(), AllocError>
        ensures { OnOk result (self.new ≡ self.old ++ ended (log_offer_text slot (ALogOffer.Sync ok))) }
    {
        make_room(&mut self.lines, &mut self.last)?;
        print_log_sync(slot, ok, &mut self.last);
        self.last.push(b'\n');
        Ok(())
    }

    /// Puts what was offered to a log device behind them. The one error is want of memory.
    pub fn put_log_offer(&mut self, slot: Slot, offer: &LogOffer) -> Result<(), AllocError>
        ensures { OnOk result (self.new ≡ self.old ++ ended (log_offer_text slot offer.now)) }
    {
        gather(&mut self.lines, &mut self.last)?;
        print_log_offer(slot, offer, &mut self.last);
        self.last.push(b'\n');
        Ok(())
    }

    /// Puts what was offered to a home device behind them. The one error is want of memory.
    pub fn put_home_offer(&mut self, slot: Slot, offer: &HomeOffer) -> Result<(), AllocError>
        ensures { OnOk result (self.new ≡ self.old ++ ended (home_offer_text slot offer.now)) }
    {
        gather(&mut self.lines, &mut self.last)?;
        print_home_offer(slot, offer, &mut self.last);
        self.last.push(b'\n');
        Ok(())
    }

    /// Puts lines behind them: few behind the last. The one error is want of memory.
    fn put_lines(&mut self, lines: &[u8]) -> Result<(), AllocError>
        ensures { OnOk result (self.new ≡ self.old ++ lines.now) }
    {
        if lines.len() <= LAST_BYTES && self.last.bytes().len() <= LAST_BYTES - lines.len() {
            self.last.put(lines);
            return Ok(());
        }
        gather(&mut self.lines, &mut self.last)?;
        self.lines.extend_from_slice(lines)
    }

    /// Puts others behind them. The one error is want of memory.
    pub fn put_all(&mut self, others: &Waiting) -> Result<(), AllocError>
        ensures { OnOk result (self.new ≡ self.old ++ others.now) }
    {
        self.put_lines(&others.lines)?;
        self.put_lines(others.last.bytes())
    }

    /// Lets them go.
    pub fn clear(&mut self)
        ensures { self.new ≡ [] }
    {
        self.lines.clear();
        self.last.clear();
    }

    /// Writes them, and then none waits.
    pub fn write<W: Write>(&mut self, writer: &mut W) -> io::Result<()>
        ensures all { OnOk result (Appends (W.contents writer.old) (W.contents writer.new) self.old) }
        ensures none { OnOk result (self.new ≡ []) }
        ensures part { Begins (W.contents writer.old) (W.contents writer.new) self.old }
    {
        write_both(writer, &self.lines, self.last.bytes())?;
        self.lines.clear();
        self.last.clear();
        Ok(())
    }
}

/// Puts the last lines behind the others.
#[inline(never)]
fn gather(lines: &mut Vec<u8>, last: &mut Text) -> Result<(), AllocError>
    requires { last.old ≡ Some (held last.old) }
    ensures lines { OnOk result (lines.new.items ≡ lines.old.items ++ held last.old) }
    ensures none { OnOk result (last.new ≡ Some []) }
    ensures kept { OnErr result ((lines.new.items ≡ lines.old.items) × (last.new ≡ last.old)) }
{
    lines.extend_from_slice(last.bytes())?;
    last.clear();
    Ok(())
}

/// Makes room for a short line behind the last: where they are many, they are put behind the others.
#[inline(always)]
fn make_room(lines: &mut Vec<u8>, last: &mut Text) -> Result<(), AllocError>
    requires { last.old ≡ Some (held last.old) }
    ensures same { lines.new.items ++ held last.new ≡ lines.old.items ++ held last.old }
    ensures held { last.new ≡ Some (held last.new) }
    ensures room { OnOk result (length (held last.new) ≤ LAST_BYTES) }
{
    if last.bytes().len() > LAST_BYTES {
        gather(lines, last)
    } else {
        Ok(())
    }
}
