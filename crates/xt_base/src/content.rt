//! Bytes: the content of a block, what a request carries, and lists of blocks that stay held.

ghost use Rattle.std.specs.Bool.{IsTrue};
ghost use Rattle.std.specs.Prelude.{◌≡◌, ◌==◌, ◌+◌, ◌*◌, ◌/◌, ◌≤◌, ◌<◌, ◌++◌, ◌↔◌, List, ℕ, Some, true, length, take, drop, replicate, IfOk, IsSome, IfSome, OnErr};
ghost use Rattle.xt_base.specs.Form.{is_size};
ghost use Rattle.xt_base.specs.Kept.{kept_bytes, IsStretch};
ghost use Rattle.xt_base.specs.declared.sizes.TheConstants.{BLOCK_BYTES, CHUNK_BYTES};

use crate::data_ref::DataRef;
use crate::form::{Form, is_block_size};
use crate::names::Block;
use crate::sizes::{BUSY_BLOCKS, DATA_BYTES};
use std::alloc::{AllocError, Global};
use std::marker::Model;
use std::sync::Arc;

/// The content of a block: 512, 1,024, 2,048 or 4,096 bytes, in a box, so that what has a content is small.
#[derive(Debug, Drop)]
pub struct Content {
    bytes: Box<Vec<u8>>,
}

impl Model for Content {
    ghost use Rattle.std.specs.Prelude.{◌≡◌, List, ℕ, Some, length, true};
    ghost use Rattle.xt_base.specs.Form.{is_size};

    ghost Value = { List ℕ };

    ghost view = { λ c. c.bytes.value.items };

    ghost invariant = { λ c. is_size (Some (length c.bytes.value.items)) ≡ true };
}

impl Content {
    /// A block of zeros, of the size that a form says. The one error is want of memory.
    pub fn zeros(alloc: Global, form: Form) -> Result<Self, AllocError>
        ensures { IfOk result (λ content. content ≡ replicate form.size 0) }
    {
        let bytes = Box::new(alloc, vec![in alloc; 0u8; form.block_bytes()]?)?;
        Ok(Content { bytes })
    }

    /// The content of these bytes, which are copied; None where they are of none of the four sizes. The one error is want of memory.
    pub fn of(alloc: Global, bytes: &[u8]) -> Result<Option<Self>, AllocError>
        ensures whole { IfOk result (λ found. IsSome found ↔ (is_size (Some (length bytes.now)) ≡ true)) }
        ensures value { IfOk result (λ found. IfSome found (λ content. content ≡ bytes.now)) }
    {
        if !is_block_size(bytes.len()) {
            return Ok(None);
        }
        let copy = bytes.to_vec(alloc)?;
        Content::of_vec(alloc, copy)
    }

    /// The content of these boxed bytes, which are taken over; None where they are of none of the four sizes. It takes no memory.
    pub fn of_boxed(bytes: Box<Vec<u8>>) -> Option<Self>
        ensures whole { IsSome result ↔ (is_size (Some (length bytes.value.items)) ≡ true) }
        ensures value { IfSome result (λ content. content ≡ bytes.value.items) }
    {
        if is_block_size(bytes.len()) {
            Some(Content { bytes })
        } else {
            None
        }
    }

    /// The content of these bytes, which are taken over; None where they are of none of the four sizes. The one error is want of memory.
    pub fn of_vec(alloc: Global, bytes: Vec<u8>) -> Result<Option<Self>, AllocError>
        ensures whole { IfOk result (λ found. IsSome found ↔ (is_size (Some (length bytes.items)) ≡ true)) }
        ensures value { IfOk result (λ found. IfSome found (λ content. content ≡ bytes.items)) }
    {
        if !is_block_size(bytes.len()) {
            return Ok(None);
        }
        let bytes = Box::new(alloc, bytes)?;
        Ok(Some(Content { bytes }))
    }

    /// A copy. The one error is want of memory.
    pub fn copy(&self, alloc: Global) -> Result<Self, AllocError>
        ensures { IfOk result (λ content. content ≡ self.now) }
    {
        let mut bytes = Vec::with_capacity(alloc, self.bytes.len())?;
        bytes.extend_from_slice(&self.bytes)?;
        let bytes = Box::new(alloc, bytes)?;
        Ok(Content { bytes })
    }

    /// Its bytes.
    pub fn bytes(&self) -> &[u8]
        ensures value { result.now ≡ self.now }
        ensures one_of { is_size (Some (length result.now)) ≡ true }
        ensures short { length result.now ≤ BLOCK_BYTES }
        ensures chunks { length result.now ≡ CHUNK_BYTES * (length result.now / CHUNK_BYTES) }
    {
        &self.bytes
    }

    /// Writes bytes from `first` on.
    pub fn write(&mut self, first: usize, bytes: &[u8])
        requires { first + length bytes.now ≤ length self.old }
        ensures { self.new ≡ take first self.old ++ bytes.now ++ drop (first + length bytes.now) self.old }
    {
        // The bound of the sum, for the proof.
        let _room = self.bytes.len();
        let end = first + bytes.len();
        self.bytes[first..end].copy_from_slice(bytes);
    }

    /// Writes data from `first` on.
    pub fn write_data(&mut self, first: usize, bytes: &DataRef<'_>)
        requires { first + length bytes.now ≤ length self.old }
        ensures { self.new ≡ take first self.old ++ bytes.now ++ drop (first + length bytes.now) self.old }
    {
        // The bound of the sum, for the proof.
        let _room = self.bytes.len();
        let end = first + bytes.len();
        bytes.copy_to(&mut self.bytes[first..end]);
    }
}

/// The shortest stretch of one byte that is looked for.
const STRETCH: usize = 128;

/// How far apart the places are where a stretch is looked for.
const STEP: usize = 16;

/// What data are kept as: bytes, and behind the first so many of them one byte so many times, which takes little room however
/// often it stands there.
#[derive(Debug, Drop)]
pub struct Kept {
    pub bytes: Vec<u8>,
    pub first: u16,
    pub count: u16,
    pub byte: u8,
}

/// Where one byte stands so many times among others.
#[derive(Clone, Copy, Debug)]
struct Stretch {
    first: usize,
    count: usize,
    byte: u8,
}

/// Bytes that a request carries or a device was offered: at most 4,096, on the heap, so that what has data is small, and counted, so
/// that they can have several owners.
#[derive(Debug, Drop)]
pub struct Data {
    kept: Arc<Kept, Global>,
}

impl Model for Data {
    ghost use Rattle.std.specs.Prelude.{◌≤◌, List, ℕ, length};
    ghost use Rattle.xt_base.specs.Kept.{kept_bytes};
    ghost use Rattle.xt_base.specs.declared.sizes.TheConstants.{DATA_BYTES};

    ghost Value = { List ℕ };

    ghost view = { λ d. kept_bytes d.kept.value };

    ghost invariant = { λ d. (length (kept_bytes d.kept.value) ≤ DATA_BYTES) × (d.kept.value.first ≤ length d.kept.value.bytes.items) };
}

impl Data {
    /// These bytes, which are copied, a long stretch of one byte as its count; None where they are more than 4,096. The one error
    /// is want of memory.
    pub fn of(alloc: Global, bytes: &[u8]) -> Result<Option<Self>, AllocError>
        ensures valid { IfOk result (λ found. IsSome found ↔ (length bytes.now ≤ DATA_BYTES)) }
        ensures value { IfOk result (λ found. IfSome found (λ carried. carried ≡ bytes.now)) }
    {
        if bytes.len() > DATA_BYTES {
            return Ok(None);
        }
        let kept = kept_around(alloc, bytes, first_stretch(bytes))?;
        let kept = Arc::new(alloc, kept)?;
        Ok(Some(Data { kept }))
    }

    /// These bytes, which are taken over; None where they are more than 4,096. The one error is want of memory.
    pub fn of_vec(alloc: Global, bytes: Vec<u8>) -> Result<Option<Self>, AllocError>
        ensures valid { IfOk result (λ found. IsSome found ↔ (length bytes.items ≤ DATA_BYTES)) }
        ensures value { IfOk result (λ found. IfSome found (λ carried. carried ≡ bytes.items)) }
    {
        if bytes.len() > DATA_BYTES {
            return Ok(None);
        }
        let kept = Kept {
            bytes,
            first: 0,
            count: 0,
            byte: 0,
        };
        let kept = Arc::new(alloc, kept)?;
        Ok(Some(Data { kept }))
    }

    /// One byte so many times; None where that is more than 4,096. The one error is want of memory.
    pub fn of_repeated(alloc: Global, byte: u8, count: usize) -> Result<Option<Self>, AllocError>
        ensures valid { IfOk result (λ found. IsSome found ↔ (count ≤ DATA_BYTES)) }
        ensures value { IfOk result (λ found. IfSome found (λ carried. carried ≡ replicate count byte)) }
    {
        if count > DATA_BYTES {
            return Ok(None);
        }
        let kept = Kept {
            bytes: Vec::new(alloc),
            first: 0,
            count: count as u16,
            byte,
        };
        let kept = Arc::new(alloc, kept)?;
        Ok(Some(Data { kept }))
    }

    /// A copy. The one error is want of memory.
    pub fn copy(&self, alloc: Global) -> Result<Self, AllocError>
        ensures { IfOk result (λ carried. carried ≡ self.now) }
    {
        let own = self.kept();
        let kept = Kept {
            bytes: own.bytes.to_vec(alloc)?,
            first: own.first,
            count: own.count,
            byte: own.byte,
        };
        let kept = Arc::new(alloc, kept)?;
        Ok(Data { kept })
    }

    /// The same bytes, with one owner more. It takes no memory; the one error is where they have as many owners as can be counted.
    pub fn share(&self) -> Result<Self, AllocError>
        ensures { IfOk result (λ same. same ≡ self.now) }
    {
        let kept = Arc::try_clone(&self.kept)?;
        Ok(Data { kept })
    }

    /// How many bytes they are.
    pub fn len(&self) -> usize
        ensures value { result ≡ length self.now }
        ensures short { result ≤ DATA_BYTES }
    {
        let kept = self.kept();
        kept.bytes.len() + kept.count as usize
    }

    /// What they are kept as.
    pub fn kept(&self) -> &Kept
        ensures value { kept_bytes result.now ≡ self.now }
        ensures short { length (kept_bytes result.now) ≤ DATA_BYTES }
        ensures first { result.now.first ≤ length result.now.bytes.items }
    {
        &self.kept
    }

    /// The same bytes, borrowed.
    pub fn lent(&self) -> DataRef<'_>
        ensures { result ≡ self.now }
    {
        let kept = self.kept();
        let (head, tail) = kept.bytes.split_at(kept.first as usize);
        DataRef::around(head, kept.count, kept.byte, tail)
    }

    /// Writes its bytes over as many others.
    pub fn copy_to(&self, room: &mut [u8])
        requires { length room.old ≡ length self.now }
        ensures { room.new ≡ self.now }
    {
        self.lent().copy_to(room);
    }

    /// Whether these are its bytes.
    pub fn holds(&self, bytes: &[u8]) -> bool
        ensures { IsTrue result ↔ (self.now ≡ bytes.now) }
    {
        let mut room = [0; DATA_BYTES];
        let own = &mut room[..self.len()];
        self.copy_to(own);
        &*own == bytes
    }

    /// Whether both are the same bytes, however they are kept.
    pub fn is(&self, other: &Data) -> bool
        ensures { IsTrue result ↔ (self.now ≡ other.now) }
    {
        let mut room = [0; DATA_BYTES];
        let bytes = &mut room[..other.len()];
        other.copy_to(bytes);
        self.holds(bytes)
    }
}

/// The bytes after a block, if it stands at the front.
fn after_block<'a>(bytes: &'a [u8], block: &[u8]) -> Option<&'a [u8]>
    ensures { IfSome result (λ after. bytes.now ≡ block.now ++ after.now) }
{
    match bytes.strip_prefix(block) {
        Some(after) => Some(after),
        None => None,
    }
}

/// How often a byte stands at the front, counted by whole blocks.
#[tactic(auto, using(crate::proofs::PartLemmas::block_more, crate::proofs::PartLemmas::rest_behind))]
fn count_blocks(bytes: &[u8], byte: u8) -> usize
    ensures value { bytes.now ≡ replicate result byte ++ drop result bytes.now }
    ensures bound { result ≤ length bytes.now }
{
    let block = [byte; STRETCH];
    let mut count = 0;
    let mut rest = bytes;
    while let Some(after) = after_block(rest, &block) {
        count += STRETCH;
        rest = after;
    }
    count
}

/// How often the byte at a place stands there, counted by whole blocks: not at all where the last byte of the first block is
/// another.
fn stretch_at(bytes: &[u8], first: usize) -> Stretch
    requires { first + STRETCH ≤ length bytes.now }
    ensures { IsStretch bytes.now result }
{
    let rest = &bytes[first..];
    let byte = rest[0];
    let count = if rest[STRETCH - 1] == byte {
        count_blocks(rest, byte)
    } else {
        0
    };
    Stretch { first, count, byte }
}

/// The first stretch of one byte that is found, where there is one that is worth a note; else one of no byte.
fn first_stretch(bytes: &[u8]) -> Stretch
    ensures { IsStretch bytes.now result }
{
    let mut first = 0;
    while bytes.len() - first >= STRETCH {
        let stretch = stretch_at(bytes, first);
        if stretch.count > 0 {
            return stretch;
        }
        first += STEP;
    }
    Stretch {
        first: 0,
        count: 0,
        byte: 0,
    }
}

/// Bytes of which a stretch is kept as its count. The one error is want of memory.
fn kept_around(alloc: Global, bytes: &[u8], stretch: Stretch) -> Result<Kept, AllocError>
    requires short { length bytes.now ≤ DATA_BYTES }
    requires stretch { IsStretch bytes.now stretch }
    ensures value { IfOk result (λ kept. kept_bytes kept ≡ bytes.now) }
    ensures first { IfOk result (λ kept. kept.first ≤ length kept.bytes.items) }
{
    let Stretch { first, count, byte } = stretch;
    let mut others = Vec::with_capacity(alloc, bytes.len() - count)?;
    others.extend_from_slice(&bytes[..first])?;
    others.extend_from_slice(&bytes[first + count..])?;
    Ok(Kept {
        bytes: others,
        first: first as u16,
        count: count as u16,
        byte,
    })
}

/// Blocks that are handed back held, in the order in which they are told: 1 to 64, in a box, so that a reply is small.
#[derive(Debug, Drop)]
pub struct HeldBlocks {
    blocks: Box<Vec<Block>>,
}

impl Model for HeldBlocks {
    ghost use Rattle.std.specs.Prelude.{◌<◌, ◌≤◌, List, ℕ, length};
    ghost use Rattle.xt_base.specs.declared.sizes.TheConstants.{BUSY_BLOCKS};

    ghost Value = { List ℕ };

    ghost view = { λ h. h.blocks.value.items };

    ghost invariant = { λ h. (0 < length h.blocks.value.items) × (length h.blocks.value.items ≤ BUSY_BLOCKS) };
}

impl HeldBlocks {
    /// The blocks of a list of 1 to 64; else None, which takes no memory. The one error is want of memory.
    pub fn of(alloc: Global, blocks: Vec<Block>) -> Result<Option<Self>, AllocError>
        ensures valid { IfOk result (λ found. IsSome found ↔ ((0 < length blocks.items) × (length blocks.items ≤ BUSY_BLOCKS))) }
        ensures value { IfOk result (λ found. IfSome found (λ held. held ≡ blocks.items)) }
        ensures want { OnErr result (0 < length blocks.items) }
    {
        if blocks.is_empty() || blocks.len() > BUSY_BLOCKS {
            return Ok(None);
        }
        let blocks = Box::new(alloc, blocks)?;
        Ok(Some(HeldBlocks { blocks }))
    }

    /// The blocks, ascending.
    pub fn blocks(&self) -> &[Block]
        ensures value { result.now ≡ self.now }
        ensures count { (0 < length result.now) × (length result.now ≤ BUSY_BLOCKS) }
    {
        &self.blocks
    }

    /// A copy, in a room that was made before. It takes no memory.
    pub fn copy_into(&self, room: HeldRoom) -> HeldBlocks
        ensures { result ≡ self.now }
    {
        let HeldRoom { mut blocks } = room;
        blocks.extend_from_slice(&self.blocks).unwrap();
        HeldBlocks { blocks }
    }
}

/// Room for a list of held blocks, made before it is known which: 64 blocks, in a box. Clauses see nothing of it but that it is there.
#[derive(Debug, Drop)]
pub struct HeldRoom {
    blocks: Box<Vec<Block>>,
}

impl Model for HeldRoom {
    ghost use Rattle.std.specs.Prelude.{◌≡◌, ◌≤◌, [], vec_capacity, ⊤};
    ghost use Rattle.xt_base.specs.declared.sizes.TheConstants.{BUSY_BLOCKS};

    ghost Value = { ⊤ };

    ghost view = { λ r. tt };

    ghost invariant = { λ r. (r.blocks.value.items ≡ []) × (BUSY_BLOCKS ≤ vec_capacity r.blocks.value) };
}

impl HeldRoom {
    /// Room for 64 blocks. The one error is want of memory.
    pub fn new(alloc: Global) -> Result<Self, AllocError> {
        let blocks = Box::new(alloc, Vec::with_capacity(alloc, BUSY_BLOCKS)?)?;
        Ok(HeldRoom { blocks })
    }
}
