//! The contents of all blocks of a home device.

use std::alloc::{AllocError, Global};
use xt_base::content::Content;
use xt_base::form::Form;
use xt_base::names::Block;

/// How many blocks a home device has that crashes: fewer than others, since each crash looks at all.
pub const BLOCKS: u8 = 24;

/// The contents of all blocks of a home device, the first block's first.
#[derive(Drop)]
pub struct Image {
    form: Form,
    contents: Vec<Content>,
}

/// The place of a block; the end for one behind the last.
fn place(block: Block) -> usize {
    block.0.min(u64::from(BLOCKS)) as usize
}

impl Image {
    /// Zeros, in blocks of a form.
    pub fn zeros(alloc: Global, form: Form) -> Result<Self, AllocError> {
        let mut contents = Vec::with_capacity(alloc, usize::from(BLOCKS))?;
        for _ in 0..BLOCKS {
            contents.push(Content::zeros(alloc, form)?)?;
        }
        Ok(Image { form, contents })
    }

    /// The form of its blocks.
    pub fn form(&self) -> Form {
        self.form
    }

    /// A copy.
    pub fn copy(&self, alloc: Global) -> Result<Self, AllocError> {
        let mut contents = Vec::with_capacity(alloc, self.contents.len())?;
        for content in &self.contents {
            contents.push(content.copy(alloc)?)?;
        }
        Ok(Image {
            form: self.form,
            contents,
        })
    }

    /// What a block has; None behind the last.
    pub fn block(&self, block: Block) -> Option<&Content> {
        self.contents.get(place(block))
    }

    /// Writes bytes of a block from `first` on, where they lie in it.
    pub fn write(&mut self, block: Block, first: usize, bytes: &[u8]) {
        if let Some(content) = self.contents.get_mut(place(block)) {
            write_within(content, first, bytes);
        }
    }

    /// Whether a block has the same bytes in both.
    pub fn is_same(&self, other: &Image, block: Block) -> bool {
        match (self.block(block), other.block(block)) {
            (Some(one), Some(other)) => one.bytes() == other.bytes(),
            _ => false,
        }
    }
}

/// Writes bytes of a content from `first` on, where they lie in it.
pub fn write_within(content: &mut Content, first: usize, bytes: &[u8]) {
    let size = content.bytes().len();
    if first <= size && bytes.len() <= size - first {
        content.write(first, bytes);
    }
}
