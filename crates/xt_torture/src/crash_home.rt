//! A home device that crashes.

ghost use Rattle.std.specs.Prelude.{[], false};

use crate::image::Image;
use std::alloc::{AllocError, Global};
use xt_base::content::Content;
use xt_base::names::Block;
use xt_base::sizes::CHUNK_BYTES;
use xt_base::steps::HomeOffer;
use xt_dev::fault::DevFault;
use xt_dev::home::HomeDevice;
use xt_trials::dice::Dice;

/// A write that no sync has made safe yet.
#[derive(Drop)]
struct Write {
    block: Block,
    content: Content,
    /// How it was answered. One that failed may have landed all the same.
    ok: bool,
}

impl Write {
    /// Writes some of its chunks over an image, as the dice say; all of them where a sync made it safe.
    fn land_some(&self, image: &mut Image, dice: &mut Dice, is_synced: bool) {
        let mut first = 0usize;
        for chunk in self.content.bytes().chunks(CHUNK_BYTES) {
            if is_synced && self.ok || dice.is_one_in(2) {
                image.write(self.block, first, chunk);
            }
            first = first.saturating_add(chunk.len());
        }
    }
}

/// A home device in memory. It keeps what was made safe, and each write since, of which a crash leaves some chunks. It tells nothing.
#[derive(Drop)]
pub struct CrashHome {
    alloc: Global,
    dice: Dice,
    safe: Image,
    unsynced: Vec<Write>,
}

impl CrashHome {
    /// One that has an image.
    pub fn over(alloc: Global, safe: Image, seed: u64) -> Self {
        CrashHome {
            alloc,
            dice: Dice::new(seed),
            safe,
            unsynced: Vec::new(alloc),
        }
    }

    /// What is safe, where it is used no more.
    pub fn into_safe(self) -> Image {
        self.safe
    }

    /// Whether a crash may tear something.
    pub fn is_unsynced(&self) -> bool {
        !self.unsynced.is_empty()
    }

    /// What a crash leaves.
    pub fn crashed(&mut self) -> Result<Image, AllocError> {
        let mut image = self.safe.copy(self.alloc)?;
        for write in &self.unsynced {
            write.land_some(&mut image, &mut self.dice, false);
        }
        Ok(image)
    }

    /// A sync was answered: what became of each write is decided. Where it was Ok, all that were answered Ok have landed.
    fn settle(&mut self, ok: bool) {
        for write in &self.unsynced {
            write.land_some(&mut self.safe, &mut self.dice, ok);
        }
        self.unsynced.clear();
    }

    /// Takes an offer with its answer.
    pub fn take(&mut self, offer: &HomeOffer) -> Result<(), AllocError> {
        match offer {
            HomeOffer::Write { block, content, ok } => {
                let content = content.copy(self.alloc)?;
                self.unsynced.push(Write {
                    block: *block,
                    content,
                    ok: *ok,
                })?;
            }
            HomeOffer::Sync { ok } => self.settle(*ok),
        }
        Ok(())
    }

    /// What a block has, whether it is safe or not.
    fn content(&self, block: Block) -> Option<&Content> {
        let mut content = self.safe.block(block);
        for write in &self.unsynced {
            if write.block == block {
                content = Some(&write.content);
            }
        }
        content
    }

    /// Keeps a write that was answered Ok; false where there is no memory for it.
    fn keep(&mut self, block: Block, content: &[u8]) -> bool {
        let Ok(Some(content)) = Content::of(self.alloc, content) else {
            return false;
        };
        let write = Write {
            block,
            content,
            ok: true,
        };
        self.unsynced.push(write).is_ok()
    }
}

/// Hands out what a block has; zeros where another size is asked.
fn give(content: &[u8], into: &mut [u8]) {
    if content.len() == into.len() {
        into.copy_from_slice(content);
    } else {
        into.fill(0);
    }
}

impl HomeDevice for CrashHome {
    ghost home_tells = { λ _. false };

    ghost home_taken = { λ _. [] };

    ghost home_failures = { λ _. 0 };

    fn read(&mut self, block: Block, into: &mut [u8]) -> Result<(), DevFault> {
        match self.content(block) {
            Some(content) => give(content.bytes(), into),
            None => into.fill(0),
        }
        Ok(())
    }

    /// A write for which there is no memory is safe at once.
    fn write(&mut self, block: Block, content: &[u8]) -> Result<(), DevFault> {
        if !self.keep(block, content) {
            self.safe.write(block, 0, content);
        }
        Ok(())
    }

    fn sync(&mut self) -> Result<(), DevFault> {
        self.settle(true);
        Ok(())
    }
}
