//! Replies and offers printed.

ghost use Rattle.std.specs.Fmt.{decimal};
ghost use Rattle.std.specs.Prelude.{◌≡◌, ◌≤◌, ◌∷◌, ◌++◌, [], length, true};
ghost use Rattle.xt_base.specs.Errors.{name_of};
ghost use Rattle.xt_base.specs.declared.sizes.TheConstants.{DATA_BYTES};
ghost use Rattle.xt_base.specs.declared.steps.LogOffer.{LogOffer as ALogOffer};
ghost use Rattle.xt_text.specs.Buffer.{put};
ghost use Rattle.xt_text.specs.Lines.{ckpt_text, ◌␣◌};
ghost use Rattle.xt_text.specs.Replies.{held_text, home_offer_text, is_one_line, is_short_reply, log_offer_text, reply_text, seen_text, slot_reply_text};

use crate::buffer::Text;
use crate::fields::{then_bytes, then_ckpt, then_data, then_number, then_ok, then_word};
use crate::numbers::put_number;
use crate::print_stat::put_stat;
use crate::words::BLANK;
use xt_base::content::HeldBlocks;
use xt_base::names::{CkptNo, Slot};
use xt_base::steps::{Errno, HomeOffer, LogOffer, Reason, Reply};

/// The name of a refusal, as in `errno.h`.
fn put_errno(out: &mut Text, errno: Errno)
    ensures text { out.new ≡ put out.old (name_of errno) }
    ensures short { length (name_of errno) ≤ 7 }
{
    out.put(errno.name().as_bytes());
}

/// What the board shows of a life: live, or why it was shut.
fn then_seen(out: &mut Text, reason: Option<Reason>)
    ensures text { out.new ≡ put out.old (BLANK ∷ seen_text reason) }
    ensures short { length (seen_text reason) ≤ 14 }
{
    match reason {
        None => out.put(b" live"),
        Some(Reason::MetaIoError) => out.put(b" META_IO_ERROR"),
        Some(Reason::LogIoError) => out.put(b" LOG_IO_ERROR"),
        Some(Reason::ForceUmount) => out.put(b" FORCE_UMOUNT"),
        Some(Reason::CorruptIncore) => out.put(b" CORRUPT_INCORE"),
    }
}

/// Blocks that stay held.
#[tactic(auto, using(crate::proofs::BufferLemmas::put_put, crate::proofs::BufferLemmas::put_none))]
fn then_held(out: &mut Text, held: &HeldBlocks)
    ensures text { out.new ≡ put out.old (held_text held.now) }
    ensures short { length (held_text held.now) ≤ 1349 }
{
    out.put(b" held");
    for block in held.blocks() {
        then_number(out, block.0);
    }
}

/// The number of a checkpoint, with no space in front.
#[tactic(auto, using(crate::proofs::BufferLemmas::put_put))]
fn put_ckpt(out: &mut Text, number: CkptNo)
    ensures text { out.new ≡ put out.old (ckpt_text number) }
    ensures short { length (ckpt_text number) ≤ 21 }
{
    out.push(b'c');
    put_number(out, number.0);
}

/// A word and the number of a checkpoint.
#[tactic(auto, using(crate::proofs::BufferLemmas::put_put))]
fn put_with_ckpt(out: &mut Text, word: &[u8], number: CkptNo)
    ensures text { out.new ≡ put out.old (word.now ␣ ckpt_text number) }
    ensures short { length (ckpt_text number) ≤ 21 }
{
    out.put(word);
    then_ckpt(out, number);
}

/// A word and a number.
#[tactic(auto, using(crate::proofs::BufferLemmas::put_put))]
fn put_with_number(out: &mut Text, word: &[u8], number: u64)
    ensures text { out.new ≡ put out.old (word.now ␣ decimal number) }
    ensures short { length (decimal number) ≤ 20 }
{
    out.put(word);
    then_number(out, number);
}

/// A word and blocks that stay held.
#[tactic(auto, using(crate::proofs::BufferLemmas::put_put))]
fn put_with_held(out: &mut Text, word: &[u8], held: &HeldBlocks)
    ensures text { out.new ≡ put out.old (word.now ++ held_text held.now) }
    ensures short { length (held_text held.now) ≤ 1349 }
{
    out.put(word);
    then_held(out, held);
}

/// The number of a leg's checkpoint, and the blocks that stay held.
#[tactic(auto, using(crate::proofs::BufferLemmas::put_put))]
fn put_committed(out: &mut Text, number: CkptNo, held: &HeldBlocks)
    ensures text { out.new ≡ put out.old (ckpt_text number ++ held_text held.now) }
    ensures short { length (ckpt_text number ++ held_text held.now) ≤ 1370 }
{
    put_ckpt(out, number);
    then_held(out, held);
}

/// Whether a reply is short: it has no content, names no held blocks, and does not tell of a whole mount.
#[inline(always)]
pub fn is_short_reply(reply: &Reply) -> bool
    ensures { result ≡ is_short_reply reply.now }
{
    !matches!(
        reply,
        Reply::OkayHeld(_)
            | Reply::CommittedHeld { .. }
            | Reply::Aborted(_)
            | Reply::Data(_)
            | Reply::Stat(_)
    )
}

/// Puts a reply.
#[tactic(auto, using(crate::proofs::BufferLemmas::put_put, crate::proofs::BufferLemmas::put_none))]
fn put_reply(reply: &Reply, out: &mut Text)
    ensures text { out.new ≡ put out.old (reply_text reply.now) }
    ensures short { length (reply_text reply.now) ≤ 8300 }
    ensures few { is_short_reply reply.now ≡ true → length (reply_text reply.now) ≤ 60 }
{
    match reply {
        Reply::Okay => out.put(b"ok"),
        Reply::OkayHeld(held) => put_with_held(out, b"ok", held),
        Reply::Life(life) => put_with_number(out, b"life", life.0 as u64),
        Reply::Trans(trans) => {
            out.push(b't');
            put_number(out, trans.0);
        }
        Reply::Committed(number) => put_ckpt(out, *number),
        Reply::CommittedHeld { number, held } => put_committed(out, *number, held),
        Reply::Aborted(held) => put_with_held(out, b"EIO", held),
        Reply::Wait(number) => put_with_ckpt(out, b"wait", *number),
        Reply::Done => out.put(b"done"),
        Reply::Kept => out.put(b"kept"),
        Reply::Free => out.put(b"free"),
        Reply::Data(content) => {
            out.put(b"data");
            then_bytes(out, content.bytes());
        }
        Reply::Nothing => out.put(b"nothing"),
        Reply::Begun { number, pieces } => {
            put_with_ckpt(out, b"begun", *number);
            then_number(out, *pieces as u64);
        }
        Reply::Landed(number) => put_with_ckpt(out, b"landed", *number),
        Reply::Failed(number) => put_with_ckpt(out, b"failed", *number),
        Reply::Flushed(count) => put_with_number(out, b"flushed", *count as u64),
        Reply::Seen { life, reason } => {
            put_with_number(out, b"seen", life.0 as u64);
            then_seen(out, *reason);
        }
        Reply::Stat(stat) => put_stat(out, *stat),
        Reply::Refused(errno) => put_errno(out, *errno),
    }
}

/// Puts a reply, with no slot in front, behind what the buffer holds. It has no newline, in it or behind it.
#[tactic(auto, using(crate::proofs::OneLine::reply_one_line))]
pub fn print_reply(reply: &Reply, out: &mut Text)
    ensures text { out.new ≡ put out.old (reply_text reply.now) }
    ensures short { length (reply_text reply.now) ≤ 8300 }
    ensures few { is_short_reply reply.now ≡ true → length (reply_text reply.now) ≤ 60 }
    ensures line { is_one_line (reply_text reply.now) ≡ true }
{
    put_reply(reply, out);
}

/// Puts a slot and a space: a slot of one digit, as most are, at once.
#[inline(always)]
#[tactic(auto, using(crate::proofs::BufferLemmas::put_put, std::proofs::lemmas::Fmt::decimal_digit))]
fn put_slot(out: &mut Text, slot: Slot)
    ensures text { out.new ≡ put out.old (decimal slot ++ BLANK ∷ []) }
    ensures short { length (decimal slot) ≤ 20 }
{
    let index = slot.index();
    if index < 10 {
        out.push_both(b'0' + index as u8, BLANK);
    } else {
        put_number(out, index as u64);
        out.push(BLANK);
    }
}

/// Puts a reply with the slot that its step names in front, and no newline in it or behind.
#[tactic(auto, using(crate::proofs::BufferLemmas::put_put, crate::proofs::OneLine::slot_reply_one_line))]
pub fn print_slot_reply(slot: Slot, reply: &Reply, out: &mut Text)
    ensures text { out.new ≡ put out.old (slot_reply_text slot reply.now) }
    ensures short { length (slot_reply_text slot reply.now) ≤ 8400 }
    ensures few { is_short_reply reply.now ≡ true → length (slot_reply_text slot reply.now) ≤ 100 }
    ensures line { is_one_line (slot_reply_text slot reply.now) ≡ true }
{
    put_slot(out, slot);
    print_reply(reply, out);
}

/// Puts a piece that was offered to a log device as `print_log_offer` does, from its bytes: it need not be copied to be told.
#[tactic(auto, using(crate::proofs::BufferLemmas::put_put))]
pub fn print_log_piece(slot: Slot, bytes: &[u8], ok: bool, out: &mut Text)
    ensures text { out.new ≡ put out.old (log_offer_text slot (ALogOffer.Piece bytes.now ok)) }
    ensures short { length bytes.now ≤ DATA_BYTES → length (log_offer_text slot (ALogOffer.Piece bytes.now ok)) ≤ 8400 }
{
    put_number(out, slot.index() as u64);
    then_word(out, b"log");
    then_bytes(out, bytes);
    then_ok(out, ok);
}

/// Puts the sync behind the pieces that a log device took, as `print_log_offer` does.
#[tactic(auto, using(crate::proofs::BufferLemmas::put_put))]
pub fn print_log_sync(slot: Slot, ok: bool, out: &mut Text)
    ensures text { out.new ≡ put out.old (log_offer_text slot (ALogOffer.Sync ok)) }
    ensures short { length (log_offer_text slot (ALogOffer.Sync ok)) ≤ 8400 }
    ensures few { length (log_offer_text slot (ALogOffer.Sync ok)) ≤ 100 }
{
    put_number(out, slot.index() as u64);
    then_word(out, b"logsync");
    then_ok(out, ok);
}

/// Puts what was offered to a log device, with the slot in front and no newline in it or behind.
#[tactic(auto, using(crate::proofs::BufferLemmas::put_put, crate::proofs::OneLine::log_offer_one_line))]
pub fn print_log_offer(slot: Slot, offer: &LogOffer, out: &mut Text)
    ensures text { out.new ≡ put out.old (log_offer_text slot offer.now) }
    ensures short { length (log_offer_text slot offer.now) ≤ 8400 }
    ensures line { is_one_line (log_offer_text slot offer.now) ≡ true }
{
    put_number(out, slot.index() as u64);
    match offer {
        LogOffer::Piece { bytes, ok } => {
            then_word(out, b"log");
            then_data(out, bytes);
            then_ok(out, *ok);
        }
        LogOffer::Sync { ok } => {
            then_word(out, b"logsync");
            then_ok(out, *ok);
        }
    }
}

/// Puts what was offered to a home device, with the slot in front and no newline in it or behind.
#[tactic(auto, using(crate::proofs::BufferLemmas::put_put, crate::proofs::OneLine::home_offer_one_line))]
pub fn print_home_offer(slot: Slot, offer: &HomeOffer, out: &mut Text)
    ensures text { out.new ≡ put out.old (home_offer_text slot offer.now) }
    ensures short { length (home_offer_text slot offer.now) ≤ 8400 }
    ensures line { is_one_line (home_offer_text slot offer.now) ≡ true }
{
    put_number(out, slot.index() as u64);
    match offer {
        HomeOffer::Write { block, content, ok } => {
            then_word(out, b"home");
            then_number(out, block.0);
            then_bytes(out, content.bytes());
            then_ok(out, *ok);
        }
        HomeOffer::Sync { ok } => {
            then_word(out, b"homesync");
            then_ok(out, *ok);
        }
    }
}
