//! What steps said, printed.

ghost use Rattle.std.specs.Prelude.{◌≡◌, ◌<◌, ◌≤◌, ◌++◌, [], All, length, true, OnOk};
ghost use Rattle.std.specs.Io.KnownBytes.{Appends};
ghost use Rattle.xt_base.specs.Jobs.{fits_pieces};
ghost use Rattle.xt_base.specs.Text.{log_offers_of, offered};
ghost use Rattle.xt_base.specs.declared.sizes.TheConstants.{PIECE_BYTES};
ghost use Rattle.xt_base.specs.declared.steps.LogOffer.{LogOffer as ALogOffer};
ghost use Rattle.xt_offline.specs.Printing.{turn_text, disorder_text, log_lines, home_lines, ended, held, Begins, FitsLine};
ghost use Rattle.xt_text.specs.Replies.{home_offer_text, log_offer_text, slot_reply_text};

use crate::waiting::Waiting;
use crate::writing::{write_bytes, write_numbered};
use bytes::Bytes;
use std::alloc::AllocError;
use std::io::{self, Write};
use xt_base::names::Slot;
use xt_base::outcomes::Turn;
use xt_base::steps::{HomeOffer, LogAnswers, LogOffer};
use xt_text::buffer::Text;

/// Puts what one step said behind lines that wait to be written: its slot and reply, and a line for each of its offers. The one
/// error is want of memory, and then a part of it may stand there.
pub fn put_turn(waiting: &mut Waiting, turn: &Turn) -> Result<(), AllocError>
    ensures { OnOk result (waiting.new ≡ waiting.old ++ turn_text turn.now) }
{
    waiting.put_reply(turn.slot(), &turn.reply)?;
    put_log_lines(waiting, turn.slot(), turn.offers.log())?;
    put_home_lines(waiting, turn.slot(), turn.offers.home())
}

/// Puts what the end of a checkpoint offers to a log device: the pieces that it took, and the sync, or the piece that it did not take.
pub fn put_ending(
    waiting: &mut Waiting,
    slot: Slot,
    answers: LogAnswers,
    pieces: &[Bytes],
) -> Result<(), AllocError>
    requires short { All (λ piece. length piece ≤ PIECE_BYTES) pieces.now }
    requires fits { fits_pieces answers (length pieces.now) ≡ true }
    ensures { OnOk result (waiting.new ≡ waiting.old ++ log_lines slot (log_offers_of answers pieces.now)) }
{
    let taken = answers.taken as usize;
    put_pieces(waiting, slot, &pieces[..taken], true)?;
    match answers.sync {
        Some(ok) => waiting.put_log_sync(slot, ok),
        None => waiting.put_log_piece(slot, pieces[taken].as_slice(), false),
    }
}

/// Puts pieces that a log device took.
fn put_pieces(
    waiting: &mut Waiting,
    slot: Slot,
    pieces: &[Bytes],
    ok: bool,
) -> Result<(), AllocError>
    requires { All (λ piece. length piece ≤ PIECE_BYTES) pieces.now }
    ensures { OnOk result (waiting.new ≡ waiting.old ++ log_lines slot (offered ok pieces.now)) }
{
    for piece in pieces {
        waiting.put_log_piece(slot, piece.as_slice(), ok)?;
    }
    Ok(())
}

/// Puts the offers to a log device.
fn put_log_lines(waiting: &mut Waiting, slot: Slot, offers: &[LogOffer]) -> Result<(), AllocError>
    ensures { OnOk result (waiting.new ≡ waiting.old ++ log_lines slot offers.now) }
{
    for offer in offers {
        waiting.put_log_offer(slot, offer)?;
    }
    Ok(())
}

/// Puts the offers to a home device.
fn put_home_lines(waiting: &mut Waiting, slot: Slot, offers: &[HomeOffer]) -> Result<(), AllocError>
    ensures { OnOk result (waiting.new ≡ waiting.old ++ home_lines slot offers.now) }
{
    for offer in offers {
        waiting.put_home_offer(slot, offer)?;
    }
    Ok(())
}

/// Prints what the buffer holds, and a newline.
pub fn print_line<W: Write>(writer: &mut W, text: &mut Text) -> io::Result<()>
    requires { FitsLine text.old }
    ensures all { OnOk result (Appends (W.contents writer.old) (W.contents writer.new) (ended (held text.old))) }
    ensures part { Begins (W.contents writer.old) (W.contents writer.new) (ended (held text.old)) }
{
    text.push(b'\n');
    write_bytes(writer, text.bytes())
}

/// Writes the lines that wait, and which step breaks order, counted from 1.
pub fn print_broken<W: Write>(writer: &mut W, waiting: &mut Waiting, at: usize) -> io::Result<()>
    requires { at < 18446744073709551615 }
    ensures all { OnOk result (Appends (W.contents writer.old) (W.contents writer.new) (waiting.old ++ disorder_text at)) }
    ensures part { Begins (W.contents writer.old) (W.contents writer.new) (waiting.old ++ disorder_text at) }
{
    waiting.write(writer)?;
    write_numbered(writer, b"disorder ", at as u64 + 1)
}
