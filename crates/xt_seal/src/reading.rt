//! The reader of a sealed log: a checkpoint and its seal.

ghost use Rattle.std.specs.Prelude.{◌≡◌, ◌+◌, ◌++◌, ◌≤◌, [], List, IfOk, drop, false, length, take, true, ℕ};
ghost use Rattle.xt_ckpt.specs.Reading.{Begins};
ghost use Rattle.xt_seal.specs.Reading.{HasRoom, IsSameUnless, IsSealedNext, IsStillDue, IsTextFound};
ghost use Rattle.xt_seal.specs.Seal.{Seals, text_seal};

use crate::sealer::{SEAL_BYTES, Sealer};
use std::alloc::AllocError;
use xt_ckpt::{Checkpoint, ReadFault, Rooms, read_checkpoint_into};

/// What begins an input that stands behind a seal.
#[derive(Debug, Drop)]
pub enum Sealed {
    /// A text of so many bytes, and its seal.
    Text(Checkpoint, usize),
    /// No text with its seal, whatever follows.
    Nothing,
    /// No text with its seal yet.
    More,
}

/// Judges the input, which stands behind what was summed up. A text that is found is summed up too.
pub fn judge_sealed(
    rooms: &mut Rooms,
    sealer: &mut Sealer,
    input: &[u8],
) -> Result<Sealed, AllocError>
    ensures judged { IfOk result (λ found. (head before : List ℕ) → Seals sealer.old head before [] → IsSealedNext head before input.now found sealer.new) }
    ensures same { IfOk result (λ found. IsSameUnless found sealer.old sealer.new) }
    ensures text { IfOk result (IsTextFound input.now) }
    ensures room { IfOk result (HasRoom input.now) }
    ensures more { IfOk result (IsStillDue input.now) }
{
    match read_checkpoint_into(rooms, input) {
        Ok(Some((checkpoint, len))) => Ok(judge_text(rooms, sealer, input, checkpoint, len)),
        Ok(None) => Ok(Sealed::More),
        Err(ReadFault::Ckpt(fault)) => {
            let _at = fault.at;
            Ok(Sealed::Nothing)
        }
        Err(ReadFault::Memory) => Err(AllocError),
    }
}

/// The same of an input that a text begins.
fn judge_text(
    rooms: &mut Rooms,
    sealer: &mut Sealer,
    input: &[u8],
    checkpoint: Checkpoint,
    len: usize,
) -> Sealed
    requires begins { Begins input.now checkpoint len }
    ensures judged { (head before : List ℕ) → Seals sealer.old head before [] → IsSealedNext head before input.now result sealer.new }
    ensures same { IsSameUnless result sealer.old sealer.new }
    ensures text { IsTextFound input.now result }
    ensures room { HasRoom input.now result }
    ensures more { IsStillDue input.now result }
{
    if is_sealed(sealer, input, len) {
        return Sealed::Text(checkpoint, len);
    }
    rooms.give_back(checkpoint);
    if input.len() - len < SEAL_BYTES {
        return Sealed::More;
    }
    Sealed::Nothing
}

/// Whether the seal of the text that the first `len` bytes of the input are stands behind them; then the text is summed up.
fn is_sealed(sealer: &mut Sealer, input: &[u8], len: usize) -> bool
    requires within { len ≤ length input.now }
    ensures room { result ≡ true → len + 8 ≤ length input.now }
    ensures parts { result ≡ true → (head before : List ℕ) → Seals sealer.old head before [] → input.now ≡ take len input.now ++ (text_seal head before (take len input.now) ++ drop (len + 8) input.now) }
    ensures next { result ≡ true → (head before : List ℕ) → Seals sealer.old head before [] → Seals sealer.new head (text_seal head before (take len input.now)) [] }
    ensures same { result ≡ false → sealer.new ≡ sealer.old }
    ensures no { result ≡ false → (head before more : List ℕ) → Seals sealer.old head before [] → drop len input.now ≡ text_seal head before (take len input.now) ++ more → ⊥ }
{
    let mut next = *sealer;
    next.note(&input[..len]);
    let seal = next.seal();
    if !input[len..].starts_with(&seal) {
        return false;
    }
    *sealer = next;
    true
}
