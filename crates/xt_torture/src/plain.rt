//! A plain reading of what is committed, block by block, from what a mount is asked and replies.

use crate::image::{BLOCKS, Image, write_within};
use std::alloc::{AllocError, Global};
use xt_base::content::{Content, Data};
use xt_base::names::{Block, TransNo};
use xt_base::sizes::DATA_BYTES;
use xt_base::steps::{Answer, Errno, Reply, Request, Step};

/// What is committed: the content of each block, and the blocks that were given up, of which nothing is promised.
#[derive(Drop)]
pub struct Committed {
    image: Image,
    given_up: Vec<Block>,
}

impl Committed {
    /// A copy.
    fn copy(&self, alloc: Global) -> Result<Self, AllocError> {
        Ok(Committed {
            image: self.image.copy(alloc)?,
            given_up: self.given_up.to_vec(alloc)?,
        })
    }

    /// Whether a block was given up.
    fn is_given_up(&self, block: Block) -> bool {
        self.given_up.contains(&block)
    }

    /// Whether recovery that found one image and left another one gives what is committed, and leaves the blocks that were given up.
    pub fn is_recovered(&self, found: &Image, left: &Image) -> bool {
        for number in 0..BLOCKS {
            let block = Block(u64::from(number));
            let wanted = if self.is_given_up(block) {
                found
            } else {
                &self.image
            };
            if !left.is_same(wanted, block) {
                return false;
            }
        }
        true
    }

    /// A content is committed; None where the block is given up.
    fn put(&mut self, block: Block, content: Option<&Content>) -> Result<(), AllocError> {
        self.given_up.retain(|other| *other != block);
        match content {
            Some(content) => self.image.write(block, 0, content.bytes()),
            None => self.given_up.push(block)?,
        }
        Ok(())
    }
}

/// What a transaction changed of a block in this leg: what it has then, or None where it is given up.
#[derive(Drop)]
struct Change {
    trans: TransNo,
    block: Block,
    content: Option<Content>,
}

/// What a mount has committed, and what a crash must leave of it.
#[derive(Drop)]
pub struct Plain {
    alloc: Global,
    changes: Vec<Change>,
    committed: Committed,
    /// What was committed at the begin of the last checkpoint that has not landed.
    begun: Option<Committed>,
    /// What was committed at the begin of the last that landed.
    landed: Committed,
    /// Blocks that the home device answered otherwise than was committed.
    pub wrong: u64,
}

impl Plain {
    /// Of a new mount over a home device.
    pub fn new(alloc: Global, home: &Image) -> Result<Self, AllocError> {
        let landed = Committed {
            image: home.copy(alloc)?,
            given_up: Vec::new(alloc),
        };
        Ok(Plain {
            alloc,
            changes: Vec::new(alloc),
            committed: landed.copy(alloc)?,
            begun: None,
            landed,
            wrong: 0,
        })
    }

    /// A checkpoint begins.
    pub fn begin(&mut self) -> Result<(), AllocError> {
        self.begun = Some(self.committed.copy(self.alloc)?);
        Ok(())
    }

    /// The checkpoint landed.
    pub fn land(&mut self) {
        if let Some(begun) = self.begun.take() {
            self.landed = begun;
        }
    }

    /// What a crash must leave: where the whole text of the last checkpoint is there, what was committed at its begin.
    pub fn wanted(&self, is_whole: bool) -> &Committed {
        match &self.begun {
            Some(begun) if is_whole => begun,
            _ => &self.landed,
        }
    }

    /// Learns from a step that was taken.
    pub fn learn(&mut self, step: &Step, reply: &Reply) -> Result<(), AllocError> {
        match step {
            Step::Call {
                request,
                answer,
                ..
            } => {
                self.learn_end(request, reply)?;
                if *reply == Reply::Okay {
                    self.learn_change(request, answer)?;
                }
                Ok(())
            }
            _ => Ok(()),
        }
    }

    /// Learns whether a request ended a leg.
    fn learn_end(&mut self, request: &Request, reply: &Reply) -> Result<(), AllocError> {
        match request {
            Request::Commit { trans } | Request::Roll { trans } => self.end_leg(*trans, reply),
            Request::Cancel { trans } => {
                self.give_up(*trans, reply);
                Ok(())
            }
            _ => Ok(()),
        }
    }

    /// Learns from a request that was answered Ok.
    fn learn_change(&mut self, request: &Request, answer: &Answer) -> Result<(), AllocError> {
        match request {
            Request::Read { block, .. } => self.read(*block, answer),
            Request::Inval { trans, block } => self.change(*trans, *block, None),
            Request::Log {
                first,
                trans,
                block,
                bytes,
            } => self.log(*trans, *block, *first as usize, bytes),
            _ => Ok(()),
        }
    }

    /// The home device was asked for a block: what it answers is what is committed, or is so from now on.
    fn read(&mut self, block: Block, answer: &Answer) -> Result<(), AllocError> {
        let Answer::Content(content) = answer else {
            return Ok(());
        };
        if self.committed.is_given_up(block) {
            return self.committed.put(block, Some(content));
        }
        let is_same = match self.committed.image.block(block) {
            Some(own) => own.bytes() == content.bytes(),
            None => false,
        };
        if !is_same {
            self.wrong = self.wrong.saturating_add(1);
        }
        Ok(())
    }

    /// A block is changed in a leg.
    fn change(
        &mut self,
        trans: TransNo,
        block: Block,
        content: Option<Content>,
    ) -> Result<(), AllocError> {
        self.changes.retain(|change| change.block != block);
        self.changes.push(Change {
            trans,
            block,
            content,
        })?;
        Ok(())
    }

    /// What a leg has of a block: what it made of it, else what is committed.
    fn seen(&self, block: Block) -> Option<&Content> {
        for change in &self.changes {
            if change.block == block {
                return change.content.as_ref();
            }
        }
        self.committed.image.block(block)
    }

    /// Bytes of a block are written in a leg.
    fn log(
        &mut self,
        trans: TransNo,
        block: Block,
        first: usize,
        bytes: &Data,
    ) -> Result<(), AllocError> {
        let mut content = match self.seen(block) {
            Some(content) => content.copy(self.alloc)?,
            None => Content::zeros(self.alloc, self.committed.image.form())?,
        };
        let mut room = [0; DATA_BYTES];
        let own = &mut room[..bytes.len()];
        bytes.copy_to(own);
        write_within(&mut content, first, own);
        self.change(trans, block, Some(content))
    }

    /// A leg ends: its changes are committed, or they are lost, or it goes on.
    fn end_leg(&mut self, trans: TransNo, reply: &Reply) -> Result<(), AllocError> {
        match reply {
            Reply::Committed(_) | Reply::CommittedHeld { .. } => {
                for change in &self.changes {
                    if change.trans == trans {
                        self.committed.put(change.block, change.content.as_ref())?;
                    }
                }
                self.forget(trans);
            }
            Reply::Aborted(_) | Reply::Refused(Errno::Io) => self.forget(trans),
            _ => {}
        }
        Ok(())
    }

    /// A transaction is cancelled.
    fn give_up(&mut self, trans: TransNo, reply: &Reply) {
        if matches!(reply, Reply::Okay | Reply::OkayHeld(_)) {
            self.forget(trans);
        }
    }

    /// Forgets the changes of a transaction.
    fn forget(&mut self, trans: TransNo) {
        self.changes.retain(|change| change.trans != trans);
    }
}
