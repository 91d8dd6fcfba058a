//! Why the word of a volume is refused: which part of it is wrong.

ghost use Rattle.std.specs.Prelude.{◌≡◌, ℕ, IfOk, IfSome, None, Ok};
ghost use Rattle.xt_volumes.specs.declared.volume.Volume.{Volume as AVolume};
ghost use Rattle.xt_volumes.specs.Volumes.{HasSizes, IsOutside, IsWordFault, Spells, SpellsNone};

use crate::fault::WordFault;
use crate::volume::{Volume, blocks_of, bytes_of, parts, size_of, slot_of};
use std::alloc::{AllocError, Global};
use xt_base::form::is_block_size;
use xt_base::sizes::{LEAST_LOG, MOST_BLOCKS, MOST_LOG};

/// What is wrong with a word that spells no volume: the first part that is no number or no name, or how its numbers are spelled.
fn spelling_fault(word: &str) -> WordFault
    ensures { SpellsNone word.now → IsWordFault word.now result }
{
    let Some((slot, log_bytes, blocks, home, log, said)) = parts(word) else {
        return WordFault::Form;
    };
    if slot_of(slot).is_none() {
        WordFault::Slot
    } else if bytes_of(log_bytes).is_none() {
        WordFault::LogBytes
    } else if blocks_of(blocks).is_none() {
        WordFault::Blocks
    } else if home.is_empty() {
        WordFault::HomeFile
    } else if log.is_empty() {
        WordFault::LogFile
    } else if size_of(said).is_none() {
        WordFault::Size
    } else {
        WordFault::Zeros
    }
}

/// Which size of a volume no mount may have, the first one, if there is one.
fn size_fault(volume: &Volume) -> Option<WordFault>
    ensures none { result ≡ None → HasSizes volume.now }
    ensures outside { IfSome result (IsOutside volume.now) }
{
    if volume.log_bytes < LEAST_LOG || volume.log_bytes > MOST_LOG {
        Some(WordFault::LogBytes)
    } else if volume.blocks < 1 || volume.blocks > MOST_BLOCKS {
        Some(WordFault::Blocks)
    } else if !is_block_size(volume.size as usize) {
        Some(WordFault::Size)
    } else {
        None
    }
}

/// What is wrong with a word that is to name a volume, if it spells none, or one of whose sizes no mount may have. The one error is want of
/// memory.
pub fn word_fault(alloc: Global, word: &str) -> Result<Option<WordFault>, AllocError>
    ensures none { result ≡ Ok None → (v : AVolume) × Spells word.now v × HasSizes v }
    ensures found { IfOk result (λ found. IfSome found (IsWordFault word.now)) }
{
    match Volume::read(alloc, word)? {
        Some(volume) => Ok(size_fault(&volume)),
        None => Ok(Some(spelling_fault(word))),
    }
}
