//! What the fields of a text have said so far, and the rule of each field.

ghost use Rattle.std.specs.Prelude.{◌≡◌, ◌↔◌, IsTrue, length, IfOk, OnOk};
ghost use Rattle.std.specs.Int.{w32, w64, from_be_bytes};
ghost use Rattle.xt_ckpt.specs.Fields.{opening, width, after, number_rule, count_rule, size_rule, block_rule, start_rule, flag_rule, provided, at_item, end_word, with_item};
ghost use Rattle.xt_ckpt.specs.declared.draft.Field.TheVariants as Field;
ghost use Rattle.xt_ckpt.specs.Drafts.{seen, IsAfter};

use crate::format::{END, SIZED_END, SIZED_START, START};
use crate::item::{Item, is_within};
use crate::reading::Checkpoint;
use crate::rooms::Rooms;
use std::alloc::{AllocError, Global};
use xt_base::chunks::Chunks;
use xt_base::form::is_block_size;
use xt_base::names::{Block, CkptNo};
use xt_base::sizes::{BUSY_BLOCKS, CHUNK_BYTES};

/// The field of a text that comes next.
#[derive(Clone, Copy, Debug)]
pub enum Field {
    /// `XCP1` or `XCP2`.
    Start,
    /// The number of the checkpoint, at least 1.
    Number,
    /// How many items there are, 1 to 64.
    Count,
    /// The bytes of a block, in a text that begins with `XCP2`: 512, 1,024, 2,048 or 4,096.
    Size,
    /// The block of an item, above that of the item before.
    Block,
    /// The map of its chunks, bit k for chunk k, with none that a block of the size lacks.
    Map { block: u64 },
    /// 1 where the map is 0, else 0.
    Flag { block: u64, map: u32 },
    /// 128 bytes for each chunk of a map that is not 0.
    Content { block: u64, map: u32 },
    /// `XCE1` or `XCE2`, as it began.
    End,
    /// The count of items again.
    EndCount,
    /// The number again.
    EndNumber,
    /// The text is whole.
    Nothing,
}

/// A text that has been read as far as some field.
#[derive(Debug, Drop)]
pub struct Draft {
    /// The size of a block in bytes, where the text says it; 0 until it does.
    pub size: Option<u32>,
    pub number: CkptNo,
    /// How many items it is to have.
    pub count: u32,
    pub items: Vec<Item>,
    /// The block of the last item.
    pub last: Option<Block>,
    /// The field that is judged next.
    pub next: Field,
}

/// A word of four bytes, the high byte first.
fn u32_of(bytes: &[u8]) -> u32
    requires { length bytes.now ≡ 4 }
    ensures { result ≡ from_be_bytes w32 bytes.now }
{
    u32::from_be_bytes([bytes[0], bytes[1], bytes[2], bytes[3]])
}

/// A word of eight bytes, the high byte first.
fn u64_of(bytes: &[u8]) -> u64
    requires { length bytes.now ≡ 8 }
    ensures { result ≡ from_be_bytes w64 bytes.now }
{
    u64::from_be_bytes([
        bytes[0], bytes[1], bytes[2], bytes[3], bytes[4], bytes[5], bytes[6], bytes[7],
    ])
}

impl Field {
    /// How many bytes it has.
    pub fn width(self) -> usize
        ensures { result ≡ width self }
    {
        match self {
            Field::Start | Field::Count | Field::Size | Field::End | Field::EndCount => 4,
            Field::Map { block: _ } | Field::Flag { block: _, map: _ } => 4,
            Field::Number | Field::Block | Field::EndNumber => 8,
            Field::Content { block: _, map } => CHUNK_BYTES * Chunks::of_word(map).count() as usize,
            Field::Nothing => 0,
        }
    }
}

impl Draft {
    /// The draft of which nothing is read yet.
    pub fn new(alloc: Global) -> Self
        ensures { seen result ≡ opening }
    {
        Draft {
            size: None,
            number: CkptNo(0),
            count: 0,
            items: Vec::new(alloc),
            last: None,
            next: Field::Start,
        }
    }

    /// Whether all fields are read.
    pub fn is_whole(&self) -> bool
        ensures { IsTrue result ↔ (self.now.next ≡ Field.Nothing) }
    {
        matches!(self.next, Field::Nothing)
    }

    /// What a whole text says.
    pub fn into_checkpoint(self) -> Checkpoint
        ensures size { result.size ≡ self.size }
        ensures number { result.no ≡ self.number }
        ensures items { result.items.items ≡ self.items.items }
    {
        Checkpoint {
            no: self.number,
            size: self.size,
            items: self.items,
        }
    }

    /// Goes on to another field, if the rule of this one holds.
    fn go_on(&mut self, holds: bool, next: Field) -> bool
        ensures { IsAfter result (seen self.new) (provided holds (record (seen self.old) { next = next })) }
    {
        if holds {
            self.next = next;
        }
        holds
    }

    /// The first field of the next item, or of the end where there are as many as counted.
    fn item_or_end(&self) -> Field
        ensures { result ≡ (at_item (seen self.now)).next }
    {
        if self.items.len() == self.count as usize {
            Field::End
        } else {
            Field::Block
        }
    }

    /// Adds an item, with which either the next begins or the end.
    fn push_item(
        &mut self,
        rooms: &mut Rooms,
        block: u64,
        map: u32,
        content: &[u8],
    ) -> Result<(), AllocError>
        ensures { OnOk result (seen self.new ≡ with_item block map content.now (seen self.old)) }
    {
        let content = rooms.copy_of(content)?;
        let block = Block(block);
        self.items.push(Item {
            block,
            chunks: Chunks::of_word(map),
            content,
        })?;
        self.last = Some(block);
        self.next = self.item_or_end();
        Ok(())
    }

    /// Judges the flag of an item: a cancel is whole with it.
    fn accept_flag(
        &mut self,
        rooms: &mut Rooms,
        block: u64,
        map: u32,
        flag: u32,
    ) -> Result<bool, AllocError>
        ensures { IfOk result (λ accepted. IsAfter accepted (seen self.new) (flag_rule block map flag (seen self.old))) }
    {
        if map == 0 {
            let accepted = flag == 1;
            if accepted {
                self.push_item(rooms, block, 0, &[])?;
            }
            Ok(accepted)
        } else {
            Ok(self.go_on(flag == 0, Field::Content { block, map }))
        }
    }

    /// Judges the first word.
    fn accept_start(&mut self, word: u32) -> bool
        ensures { IsAfter result (seen self.new) (start_rule word (seen self.old)) }
    {
        if word == START {
            self.size = None;
            self.go_on(true, Field::Number)
        } else {
            self.size = Some(0);
            self.go_on(word == SIZED_START, Field::Number)
        }
    }

    /// Judges the size of a block.
    fn accept_size(&mut self, size: u32) -> bool
        ensures { IsAfter result (seen self.new) (size_rule size (seen self.old)) }
    {
        self.size = Some(size);
        let next = self.item_or_end();
        self.go_on(is_block_size(size as usize), next)
    }

    /// The word behind the items.
    fn end_word(&self) -> u32
        ensures { result ≡ end_word self.now.size }
    {
        match self.size {
            None => END,
            Some(_) => SIZED_END,
        }
    }

    /// Judges the number.
    fn accept_number(&mut self, number: CkptNo) -> bool
        ensures { IsAfter result (seen self.new) (number_rule number (seen self.old)) }
    {
        self.number = number;
        self.go_on(number.0 >= 1, Field::Count)
    }

    /// Judges the count of items.
    fn accept_count(&mut self, count: u32) -> bool
        ensures { IsAfter result (seen self.new) (count_rule count (seen self.old)) }
    {
        self.count = count;
        let next = match self.size {
            None => self.item_or_end(),
            Some(_) => Field::Size,
        };
        self.go_on(count >= 1 && count as usize <= BUSY_BLOCKS, next)
    }

    /// Judges the block of an item.
    fn accept_block(&mut self, block: u64) -> bool
        ensures { IsAfter result (seen self.new) (block_rule block (seen self.old)) }
    {
        let rises = match self.last {
            None => true,
            Some(last) => last.0 < block,
        };
        self.go_on(rises, Field::Map { block })
    }

    /// Judges the next field, of which all bytes are here: whether it obeys its rule. After
    /// an error, or where it doesn't, the draft is of no further use.
    pub fn accept(&mut self, rooms: &mut Rooms, bytes: &[u8]) -> Result<bool, AllocError>
        requires { length bytes.now ≡ width self.old.next }
        ensures { IfOk result (λ accepted. IsAfter accepted (seen self.new) (after (seen self.old) bytes.now)) }
    {
        Ok(match self.next {
            Field::Start => self.accept_start(u32_of(bytes)),
            Field::Number => self.accept_number(CkptNo(u64_of(bytes))),
            Field::Count => self.accept_count(u32_of(bytes)),
            Field::Size => self.accept_size(u32_of(bytes)),
            Field::Block => self.accept_block(u64_of(bytes)),
            Field::Map { block } => {
                let map = u32_of(bytes);
                self.go_on(is_within(map, self.size), Field::Flag { block, map })
            }
            Field::Flag { block, map } => self.accept_flag(rooms, block, map, u32_of(bytes))?,
            Field::Content { block, map } => {
                self.push_item(rooms, block, map, bytes)?;
                true
            }
            Field::End => self.go_on(u32_of(bytes) == self.end_word(), Field::EndCount),
            Field::EndCount => self.go_on(u32_of(bytes) == self.count, Field::EndNumber),
            Field::EndNumber => self.go_on(u64_of(bytes) == self.number.0, Field::Nothing),
            Field::Nothing => false,
        })
    }
}
