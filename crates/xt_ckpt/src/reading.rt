//! The reader: a checkpoint from the bytes of a log.

ghost use Rattle.std.specs.Prelude.{◌≡◌, ◌++◌, ℕ, List, Option, length, IfOk, IfErr, IfSome, IsNone};
ghost use Rattle.xt_ckpt.specs.Fields.{IsUnfinished};
ghost use Rattle.xt_ckpt.specs.Grammar.{Entry, IsTextIn};
ghost use Rattle.xt_ckpt.specs.Reading.{Begins, BeginsNoText, IsJudged, IsReadAs, IsWhy};
ghost use Rattle.xt_ckpt.specs.declared.reading.ReadFault.TheVariants.{Memory};

use crate::draft::Draft;
use crate::item::Item;
use crate::rooms::Rooms;
use std::alloc::{AllocError, Global};
use thiserror::Error;
use xt_base::names::CkptNo;

/// A checkpoint as a text says it.
#[derive(Debug, Drop)]
pub struct Checkpoint {
    /// At least 1.
    pub no: CkptNo,
    /// The size of a block, where the text says it: 512, 1,024, 2,048 or 4,096 bytes. A text that begins with `XCP1` says
    /// none, and has blocks of 4,096 bytes.
    pub size: Option<u32>,
    /// 1 to 64 items by rising block.
    pub items: Vec<Item>,
}

/// A field of a text that breaks its rule.
#[derive(Clone, Copy, Debug, PartialEq, Eq, Error)]
#[error("the field at byte {at} breaks its rule")]
pub struct CkptFault {
    /// The offset in bytes at which the field begins.
    pub at: usize,
}

/// Why a text could not be read.
#[derive(Clone, Copy, Debug, PartialEq, Eq, Error)]
pub enum ReadFault {
    /// The first field that breaks its rule.
    #[error("{0}")]
    Ckpt(CkptFault),
    /// A growth was refused.
    #[error("out of memory")]
    Memory,
}

impl From<AllocError> for ReadFault {
    ghost from_gives = { λ _ fault. fault ≡ Memory };

    fn from(_error: AllocError) -> ReadFault {
        ReadFault::Memory
    }
}

/// Judges the fields from the first on, each once all its bytes are there.
fn judge(rooms: &mut Rooms, input: &[u8]) -> Result<Option<(Checkpoint, usize)>, ReadFault>
    ensures { IsJudged input.now result }
{
    let mut draft = Draft::new(rooms.alloc());
    let mut at = 0;
    'fields: while !draft.is_whole() {
        let width = draft.next.width();
        if input.len() - at < width {
            return Ok(None);
        }
        if !draft.accept(rooms, &input[at..at + width])? {
            return Err(ReadFault::Ckpt(CkptFault { at }));
        }
        at += width;
    }
    Ok(Some((draft.into_checkpoint(), at)))
}

/// Reads the checkpoint whose text begins the input, and says how many bytes the text has;
/// any bytes may follow it. None where the input ends before the text does, and no field
/// that is all there breaks its rule.
pub fn read_checkpoint(
    alloc: Global,
    input: &[u8],
) -> Result<Option<(Checkpoint, usize)>, ReadFault>
    // What is read is the grammar's.
    ensures found { IfOk result (λ r. IfSome r (λ found. Begins input.now found.0 found.1)) }
    // What is the grammar's is read, whatever follows it, unless memory runs out.
    ensures only { (size : Option ℕ) (text more : List ℕ) (number : ℕ) (items : List Entry) → IsTextIn size text number items
        → input.now ≡ text ++ more → IsReadAs size number items (length text) result }
    // Nothing is read where no text begins the input, which ends within a field; each field before obeys its rule.
    ensures none { IfOk result (λ r. IsNone r → BeginsNoText input.now × IsUnfinished input.now) }
    // A fault is the first field that breaks its rule.
    ensures fault { IfErr result (λ fault. IsWhy input.now fault) }
{
    judge(&mut Rooms::new(alloc), input)
}

/// The same, with the items in room that was given back, as far as there is some.
pub fn read_checkpoint_into(
    rooms: &mut Rooms,
    input: &[u8],
) -> Result<Option<(Checkpoint, usize)>, ReadFault>
    // What is read is the grammar's.
    ensures found { IfOk result (λ r. IfSome r (λ found. Begins input.now found.0 found.1)) }
    // What is the grammar's is read, whatever follows it, unless memory runs out.
    ensures only { (size : Option ℕ) (text more : List ℕ) (number : ℕ) (items : List Entry) → IsTextIn size text number items
        → input.now ≡ text ++ more → IsReadAs size number items (length text) result }
    // Nothing is read where no text begins the input, which ends within a field; each field before obeys its rule.
    ensures none { IfOk result (λ r. IsNone r → BeginsNoText input.now × IsUnfinished input.now) }
    // A fault is the first field that breaks its rule.
    ensures fault { IfErr result (λ fault. IsWhy input.now fault) }
{
    judge(rooms, input)
}
