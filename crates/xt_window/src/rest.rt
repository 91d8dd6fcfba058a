//! What stands behind the last text of a sealed log.

ghost use Rattle.std.specs.Prelude.{◌≡◌, ◌+◌, ◌<◌, IfErr, IfOk, IfSome, OnOk, false, length, true};
ghost use Rattle.xt_seal.specs.Headers.{head_bytes};
ghost use Rattle.xt_window.specs.Rest.{BeginsLater, HasLater, IsRest};
ghost use Rattle.xt_window.specs.Window.{ahead, IsTied, IsWhy, is_too_long};

use crate::fault::LogFault;
use crate::window::Window;
use std::alloc::AllocError;
use std::io::Read;
use xt_ckpt::Rooms;
use xt_seal::{HEAD_BYTES, Header, SEAL_BYTES, Sealed, Sealer, judge_sealed};

/// The most bytes that a loss of power leaves behind the last text of a sealed log: of the longest text, and of its seal.
pub const REST_BYTES: usize = 263_212;

/// What stands behind the last text of a sealed log.
#[derive(Clone, Copy, Debug, PartialEq, Eq)]
pub enum Rest {
    /// So many bytes, which a loss of power may have left: no later text is among them.
    Torn(u64),
    /// More bytes than it leaves.
    TooLong,
    /// A later text, with the seal that is due behind the 8 bytes before it.
    Later,
}

impl Window {
    /// Judges what stands behind the last text of a sealed log with this header. Nothing is taken. No more than REST_BYTES and a piece are held.
    #[tactic(auto, using(crate::proofs::WindowLemmas::why_ahead, crate::proofs::WindowLemmas::why_other))]
    pub fn rest<R: Read>(
        &mut self,
        reader: &mut R,
        piece: &mut [u8],
        rooms: &mut Rooms,
        header: &Header,
    ) -> Result<Rest, LogFault>
        requires room { 0 < length piece.old }
        requires ended { IsTied self.old (R.remaining reader.old) }
        ensures found { IfOk result (λ rest. IfSome (ahead self.old (R.remaining reader.old)) (λ log. IsRest (head_bytes header.now) log rest)) }
        ensures place { OnOk result (self.new.offset ≡ self.old.offset) }
        ensures fault { IfErr result (λ fault. IfSome (ahead self.old (R.remaining reader.old)) (λ log. IsWhy self.old.limit (self.old.offset + length log) fault)) }
    {
        self.fill(reader, piece, REST_BYTES + 1)?;
        self.judge_rest(rooms, header)
    }

    /// Judges what is held of it.
    fn judge_rest(&self, rooms: &mut Rooms, header: &Header) -> Result<Rest, LogFault>
        ensures judged { IfOk result (λ rest. IsRest (head_bytes header.now) self.now.bytes rest) }
        ensures fault { IfErr result (λ fault. is_too_long fault ≡ false) }
    {
        let held = self.held();
        if held.len() > REST_BYTES {
            return Ok(Rest::TooLong);
        }
        let (bytes, _) = header.begin();
        let head = &bytes[..HEAD_BYTES];
        match has_later(rooms, head, held) {
            Ok(true) => Ok(Rest::Later),
            Ok(false) => Ok(Rest::Torn(held.len() as u64)),
            Err(AllocError) => Err(LogFault::Memory(AllocError)),
        }
    }
}

/// Whether somewhere in the bytes behind a log's last text a later one stands, with the seal that is due behind the 8 bytes before it. No bytes that
/// a loss of power leaves of one text have such: then texts that were made safe are rotten.
#[tactic(auto, using(crate::proofs::RestLemmas::looked_first, crate::proofs::RestLemmas::looked_next, crate::proofs::RestLemmas::looked_all, crate::proofs::RestLemmas::looked_found))]
pub fn has_later(rooms: &mut Rooms, head: &[u8], rest: &[u8]) -> Result<bool, AllocError>
    ensures later { IfOk result (λ found. found ≡ true → HasLater head.now rest.now) }
    ensures none { IfOk result (λ found. found ≡ false → HasLater head.now rest.now → ⊥) }
{
    for at in 0..rest.len() {
        if begins_later(rooms, head, &rest[at..])? {
            return Ok(true);
        }
    }
    Ok(false)
}

/// Whether a text with the seal that is due behind the first 8 bytes follows these.
fn begins_later(rooms: &mut Rooms, head: &[u8], input: &[u8]) -> Result<bool, AllocError>
    ensures later { IfOk result (λ found. found ≡ true → BeginsLater head.now input.now) }
    ensures none { IfOk result (λ found. found ≡ false → BeginsLater head.now input.now → ⊥) }
{
    if input.len() < SEAL_BYTES {
        return Ok(false);
    }
    let mut sealer = Sealer::behind(head, &input[..SEAL_BYTES]);
    match judge_sealed(rooms, &mut sealer, &input[SEAL_BYTES..]) {
        Ok(Sealed::Text(checkpoint, _)) => {
            rooms.give_back(checkpoint);
            Ok(true)
        }
        Ok(Sealed::Nothing) => Ok(false),
        Ok(Sealed::More) => Ok(false),
        Err(AllocError) => Err(AllocError),
    }
}
