//! What the texts of a log say, gathered block by block.

ghost use Rattle.std.specs.Prelude.{◌≡◌, [], All, IfOk, length, replicate, true};
ghost use Rattle.xt_base.specs.Form.{is_size};
ghost use Rattle.xt_recover.specs.Sizes.{block_size};

use crate::places::{copy_chunks, lay_marked};
use std::alloc::{AllocError, Global};
use std::collections::BTreeMap;
use xt_base::chunks::Chunks;
use xt_base::content::Content;
use xt_base::form::Form;
use xt_base::sizes::BLOCK_BYTES;
use xt_ckpt::Item;

/// What texts say, the oldest first: of each block that they log, the chunks and a content that has them. What a text says of a
/// block takes the place of what older ones said, and a cancel takes the block out. All texts say the same of the size of a block.
#[derive(Drop)]
pub struct Overlay {
    alloc: Global,
    size: Option<u32>,
    pub chunks: BTreeMap<u64, Chunks>,
    pub contents: BTreeMap<u64, Content>,
    ghost one_of: { is_size size ≡ true },
    ghost whole: { All (λ e. length e.1 ≡ block_size size) contents.entries },
}

impl Overlay {
    ghost use Rattle.std.specs.Prelude.{OnOk, Some, unwrap_or};
    ghost use Rattle.xt_base.specs.Maps.{at, put, without};
    ghost use Rattle.xt_base.specs.Text.{content_at};
    ghost use Rattle.xt_ckpt.specs.Grammar.{entries, entry};
    ghost use Rattle.xt_ckpt.specs.Items.{HasForm};
    ghost use Rattle.xt_recover.specs.Gathering.{IsItemWithin};
    ghost use Rattle.xt_recover.specs.Overlaid.{nothing, overlaid, with_item, with_items};
    ghost use Rattle.xt_recover.specs.Writing.{laid_over};

    /// Nothing is said yet by texts that say this of the size of a block.
    pub fn new(alloc: Global, size: Option<u32>) -> Self
        requires one_of { is_size size ≡ true }
        ensures { overlaid result ≡ nothing size }
    {
        Overlay {
            alloc,
            size,
            chunks: BTreeMap::new(alloc),
            contents: BTreeMap::new(alloc),
        }
    }

    /// The size of a block, where the texts say it.
    pub fn size(&self) -> Option<u32>
        ensures { result ≡ (overlaid self.now).size }
    {
        self.size
    }

    /// The bytes of a block: as many as the texts say, and 4,096 where they say nothing of it.
    pub fn block_bytes(&self) -> usize
        ensures value { result ≡ block_size (overlaid self.now).size }
        ensures one_of { is_size (Some result) ≡ true }
    {
        match self.size {
            Some(size) => size as usize,
            None => BLOCK_BYTES,
        }
    }

    /// How many blocks it has.
    pub(crate) fn blocks(&self) -> u64
        ensures { result ≡ length (overlaid self.now).contents }
    {
        self.contents.len() as u64
    }

    /// Lays the items of a text over what older texts said. After want of memory it is of no use.
    pub fn lay(&mut self, items: &[Item]) -> Result<(), AllocError>
        requires form { All HasForm items.now }
        requires within { All (IsItemWithin self.old.size) items.now }
        ensures { OnOk result (overlaid self.new ≡ with_items (entries items.now) (overlaid self.old)) }
    {
        for item in items {
            self.lay_item(item)?;
        }
        Ok(())
    }

    /// Lays one item.
    fn lay_item(&mut self, item: &Item) -> Result<(), AllocError>
        requires form { HasForm item.now }
        requires within { IsItemWithin self.old.size item.now }
        ensures laid { OnOk result (overlaid self.new ≡ with_item (entry item.now) (overlaid self.old)) }
        ensures size { self.new.size ≡ self.old.size }
    {
        if item.chunks.is_empty() {
            self.take_out(item.block.0);
            return Ok(());
        }
        let mut content = self.take_content(item.block.0)?;
        lay_marked(&mut content, item.chunks.word(), &item.content);
        let chunks = self.chunks_of(item.block.0).union(item.chunks);
        self.put(item.block.0, chunks, content)
    }

    /// Puts the chunks and the content of a block.
    fn put(&mut self, block: u64, chunks: Chunks, content: Content) -> Result<(), AllocError>
        requires whole { length content ≡ block_size self.old.size }
        ensures put { OnOk result (overlaid self.new ≡ record { size = self.old.size; chunks = put block chunks self.old.chunks.entries; contents = put block content self.old.contents.entries }) }
        ensures size { self.new.size ≡ self.old.size }
    {
        if self.contents.insert(block, content).is_err() {
            return Err(AllocError);
        }
        if self.chunks.insert(block, chunks).is_err() {
            return Err(AllocError);
        }
        Ok(())
    }

    /// Takes a block out.
    fn take_out(&mut self, block: u64)
        ensures { overlaid self.new ≡ record { size = self.old.size; chunks = without block self.old.chunks.entries; contents = without block self.old.contents.entries } }
    {
        let _chunks = self.chunks.remove(&block);
        let _content = self.contents.remove(&block);
    }

    /// Takes the content of a block; zeros where there is none.
    fn take_content(&mut self, block: u64) -> Result<Content, AllocError>
        ensures value { IfOk result (λ content. content ≡ content_at (block_size self.old.size) block self.old.contents.entries) }
        ensures whole { IfOk result (λ content. length content ≡ block_size self.old.size) }
        ensures contents { OnOk result (self.new.contents.entries ≡ without block self.old.contents.entries) }
        ensures chunks { OnOk result (self.new.chunks.entries ≡ self.old.chunks.entries) }
        ensures size { self.new.size ≡ self.old.size }
    {
        match self.contents.remove(&block) {
            Some(content) => Ok(content),
            None => zeros(self.alloc, self.size),
        }
    }

    /// Lays what the texts say of a block over the bytes that a home device has of it; where they say nothing, these stay.
    pub fn lay_over(&self, block: u64, home: &mut [u8])
        requires { length home.old ≡ block_size (overlaid self.now).size }
        ensures { home.new ≡ laid_over (overlaid self.now) block home.old }
    {
        if let Some(content) = self.contents.get(&block) {
            copy_chunks(home, self.chunks_of(block), content);
        }
    }

    /// The chunks of a block.
    pub(crate) fn chunks_of(&self, block: u64) -> Chunks
        ensures { result ≡ unwrap_or (at block self.now.chunks.entries) [] }
    {
        match self.chunks.get(&block) {
            Some(chunks) => *chunks,
            None => Chunks::none(),
        }
    }
}

/// A block of zeros, where texts say this of its size.
fn zeros(alloc: Global, size: Option<u32>) -> Result<Content, AllocError>
    requires one_of { is_size size ≡ true }
    ensures { IfOk result (λ content. content ≡ replicate (block_size size) 0) }
{
    match Form::of(size) {
        Some(form) => Content::zeros(alloc, form),
        None => unreachable!(),
    }
}
