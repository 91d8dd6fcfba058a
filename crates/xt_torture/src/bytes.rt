//! Texts of checkpoints with each byte changed, and cut at each length.

use crate::judge::{Judged, judge};
use std::alloc::{AllocError, Global};
use xt_ckpt::{Checkpoint, ReadFault, read_checkpoint};

/// What was tried, and how it came out.
#[derive(Clone, Copy, Default)]
pub struct Tried {
    pub texts: u64,
    /// Read whole.
    pub whole: u64,
    /// No whole text yet.
    pub cut: u64,
    /// A fault at a field.
    pub fault: u64,
    /// Another answer than the plain reading gives.
    pub different: u64,
}

/// An item of a text: its block, and the map of its chunks.
#[derive(Clone, Copy)]
struct Entry {
    block: u64,
    map: u32,
}

/// The texts that are tried: the size of a block, where they say it, and their items. One chunk; a whole block; cancels beside chunks; and
/// the same of smaller blocks.
const TEXTS: [(Option<u32>, &[Entry]); 6] = [
    (None, &[Entry { block: 7, map: 2 }]),
    (
        None,
        &[Entry {
            block: 7,
            map: u32::MAX,
        }],
    ),
    (
        None,
        &[
            Entry { block: 0, map: 0 },
            Entry {
                block: 9,
                map: 0x8000_0001,
            },
            Entry {
                block: 1 << 40,
                map: 0,
            },
        ],
    ),
    (Some(512), &[Entry { block: 7, map: 2 }]),
    (
        Some(1024),
        &[
            Entry { block: 0, map: 0 },
            Entry {
                block: 9,
                map: 0x81,
            },
        ],
    ),
    (
        Some(2048),
        &[Entry {
            block: 7,
            map: 0xffff,
        }],
    ),
];

/// Puts what stands before the items of a text.
fn put_front(
    text: &mut Vec<u8>,
    number: u64,
    count: u32,
    size: Option<u32>,
) -> Result<(), AllocError> {
    text.extend_from_slice(if size.is_some() { b"XCP2" } else { b"XCP1" })?;
    text.extend_from_slice(&number.to_be_bytes())?;
    text.extend_from_slice(&count.to_be_bytes())?;
    if let Some(size) = size {
        text.extend_from_slice(&size.to_be_bytes())?;
    }
    Ok(())
}

/// Puts what stands behind them.
fn put_end(
    text: &mut Vec<u8>,
    number: u64,
    count: u32,
    size: Option<u32>,
) -> Result<(), AllocError> {
    text.extend_from_slice(if size.is_some() { b"XCE2" } else { b"XCE1" })?;
    text.extend_from_slice(&count.to_be_bytes())?;
    text.extend_from_slice(&number.to_be_bytes())?;
    Ok(())
}

/// The text of checkpoint 1 with these items.
fn text_of(alloc: Global, size: Option<u32>, items: &[Entry]) -> Result<Vec<u8>, AllocError> {
    let mut text = Vec::new(alloc);
    let count = u32::try_from(items.len()).unwrap_or(0);
    put_front(&mut text, 1, count, size)?;
    for item in items {
        let flag = u32::from(item.map == 0);
        text.extend_from_slice(&item.block.to_be_bytes())?;
        text.extend_from_slice(&item.map.to_be_bytes())?;
        text.extend_from_slice(&flag.to_be_bytes())?;
        for chunk in 0..32u32 {
            if item.map >> chunk & 1 == 1 {
                text.extend_from_slice(&[chunk as u8; 128])?;
            }
        }
    }
    put_end(&mut text, 1, count, size)?;
    Ok(text)
}

/// The text of a checkpoint, written plainly.
fn written(alloc: Global, checkpoint: &Checkpoint) -> Result<Vec<u8>, AllocError> {
    let mut text = Vec::new(alloc);
    let count = u32::try_from(checkpoint.items.len()).unwrap_or(0);
    put_front(&mut text, checkpoint.no.0, count, checkpoint.size)?;
    for item in &checkpoint.items {
        let map = item.chunks.word();
        let flag = u32::from(map == 0);
        text.extend_from_slice(&item.block.0.to_be_bytes())?;
        text.extend_from_slice(&map.to_be_bytes())?;
        text.extend_from_slice(&flag.to_be_bytes())?;
        text.extend_from_slice(&item.content)?;
    }
    put_end(&mut text, checkpoint.no.0, count, checkpoint.size)?;
    Ok(text)
}

/// Whether a checkpoint that was read is written as the first bytes of a text, so many.
fn is_of(
    alloc: Global,
    checkpoint: &Checkpoint,
    len: usize,
    text: &[u8],
) -> Result<bool, AllocError> {
    let own = written(alloc, checkpoint)?;
    Ok(own.len() == len && text.starts_with(&own))
}

impl Tried {
    /// Reads bytes, and compares the answer with the plain reading.
    fn read(&mut self, alloc: Global, text: &[u8]) -> Result<(), AllocError> {
        self.texts = self.texts.saturating_add(1);
        let wanted = judge(text);
        let is_right = match read_checkpoint(alloc, text) {
            Ok(Some((checkpoint, len))) => {
                self.whole = self.whole.saturating_add(1);
                wanted == Judged::Whole(len) && is_of(alloc, &checkpoint, len, text)?
            }
            Ok(None) => {
                self.cut = self.cut.saturating_add(1);
                wanted == Judged::Cut
            }
            Err(ReadFault::Ckpt(fault)) => {
                self.fault = self.fault.saturating_add(1);
                wanted == Judged::Fault(fault.at)
            }
            Err(ReadFault::Memory) => return Err(AllocError),
        };
        if !is_right {
            self.different = self.different.saturating_add(1);
        }
        Ok(())
    }

    /// Reads a text cut at each length.
    fn read_cut(&mut self, alloc: Global, text: &[u8]) -> Result<(), AllocError> {
        for len in 0..=text.len() {
            self.read(alloc, &text[..len])?;
        }
        Ok(())
    }

    /// Reads a text with each byte changed to each of so many values.
    fn read_changed(
        &mut self,
        alloc: Global,
        text: &mut [u8],
        values: u8,
    ) -> Result<(), AllocError> {
        for at in 0..text.len() {
            let own = text[at];
            for value in 1..=values {
                text[at] = own.wrapping_add(value);
                self.read(alloc, text)?;
            }
            text[at] = own;
        }
        Ok(())
    }
}

/// Tries each text cut at each length, and with each byte changed to so many other values.
pub fn try_bytes(alloc: Global, values: u8) -> Result<Tried, AllocError> {
    let mut tried = Tried::default();
    for (size, items) in TEXTS {
        let mut text = text_of(alloc, size, items)?;
        tried.read_cut(alloc, &text)?;
        tried.read_changed(alloc, &mut text, values)?;
    }
    Ok(tried)
}
