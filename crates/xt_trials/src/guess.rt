//! What is guessed of a slot from its replies: enough to choose steps that mostly may come. The host itself says which may not.

ghost use Rattle.std.specs.Prelude.{◌<◌};

use crate::dice::Dice;
use std::alloc::{AllocError, Global};
use xt_base::content::Data;
use xt_base::names::{Block, CkptNo, JobKind, JobName, Life, Slot, TransNo};
use xt_base::sizes::{BLOCK_BYTES, OPEN_TRANSACTIONS};
use xt_base::steps::{Errno, Reply, Request, Step};

/// How many blocks a home device has, so few that transactions meet.
pub const BLOCKS: u8 = 90;

/// The units of log space that are asked, from too few to more than a small log has.
const UNITS: [u32; 6] = [100, 700, 5_000, 9_000, 20_000, 70_000];

/// How many locked and how many held blocks are remembered at most.
const REMEMBERED: usize = 64;

/// A block that a transaction has.
#[derive(Clone, Copy)]
struct Lock {
    trans: TransNo,
    block: Block,
}

/// What is guessed of a slot.
#[derive(Drop)]
pub struct Guess {
    slot: Slot,
    blocks: u8,
    life: Life,
    open: Vec<TransNo>,
    /// Blocks that open transactions have.
    locked: Vec<Lock>,
    /// Blocks that were handed back held.
    held: Vec<Block>,
    serial: u64,
    checkpoint: u64,
    /// The bytes of a block of the mount that is tried.
    size: u32,
    /// A device failed or the mount is shut, so it is brought to its end.
    is_ending: bool,
    /// Nothing is mounted.
    is_empty: bool,
}

impl Guess {
    /// Of a slot that was never mounted, over a home device of so many blocks, of 4,096 bytes until another size is told.
    pub fn new(alloc: Global, slot: Slot, blocks: u8) -> Result<Self, AllocError> {
        Ok(Guess {
            slot,
            blocks,
            life: Life(0),
            open: Vec::with_capacity(alloc, OPEN_TRANSACTIONS)?,
            locked: Vec::with_capacity(alloc, REMEMBERED)?,
            held: Vec::with_capacity(alloc, REMEMBERED)?,
            serial: 0,
            checkpoint: 0,
            size: BLOCK_BYTES as u32,
            is_ending: false,
            is_empty: true,
        })
    }

    /// The slot is to be mounted with blocks of so many bytes: changes are tried within them, and a little past their end.
    pub fn set_size(&mut self, size: u32) {
        self.size = size;
    }

    /// The bytes of a block of the slot's mount, or of its last where there is none.
    pub fn size(&self) -> u32 {
        self.size
    }

    /// Whether the slot should be mounted: mostly where it is empty.
    pub fn wants_mount(&self, dice: &mut Dice) -> bool {
        let one_in = if self.is_empty { 2 } else { 60 };
        dice.is_one_in(one_in)
    }

    /// The life to call: mostly the present one.
    pub fn life(&self, dice: &mut Dice) -> Life {
        if dice.is_one_in(50) {
            Life(dice.below(4))
        } else {
            self.life
        }
    }

    /// The name of the job of a kind that would be posted next.
    pub fn next_name(&self, kind: JobKind) -> JobName {
        JobName {
            slot: self.slot,
            life: self.life,
            kind,
            serial: self.serial.wrapping_add(1),
        }
    }

    /// A transaction: mostly one that is open.
    fn trans(&self, dice: &mut Dice) -> TransNo {
        let open = self.open.len().min(OPEN_TRANSACTIONS) as u32;
        if open == 0 || dice.is_one_in(40) {
            return TransNo(u64::from(dice.below(9)));
        }
        match self.open.get(dice.below(open) as usize) {
            Some(trans) => *trans,
            None => TransNo(0),
        }
    }

    /// A request to bring the mount to its end.
    fn last_request(&self, dice: &mut Dice) -> Request {
        let trans = self.trans(dice);
        match dice.below(8) {
            0 => Request::Unmount,
            1 | 2 => Request::Release {
                block: self.held_block(dice),
            },
            3 => Request::Force,
            _ if self.open.is_empty() => Request::Unmount,
            _ => Request::Cancel { trans },
        }
    }

    /// A request.
    pub fn request(&self, alloc: Global, dice: &mut Dice) -> Result<Request, AllocError> {
        if self.is_ending && !dice.is_one_in(4) {
            return Ok(self.last_request(dice));
        }
        if self.open.is_empty() && dice.is_one_in(2) {
            return Ok(alloc_request(dice));
        }
        match dice.below(100) {
            0..=19 => Ok(self.lock(dice)),
            20..=69 => self.change(alloc, dice),
            70..=91 => Ok(self.end(dice)),
            _ => Ok(self.of_mount(dice)),
        }
    }

    /// A block, now and then one behind the last.
    fn any_block(&self, dice: &mut Dice) -> Block {
        Block(u64::from(dice.below(u32::from(self.blocks) + 1)))
    }

    /// A request that locks a block.
    fn lock(&self, dice: &mut Dice) -> Request {
        let trans = self.trans(dice);
        let block = self.any_block(dice);
        match dice.below(8) {
            0..=3 => Request::Get { trans, block },
            4..=6 => Request::Read { trans, block },
            _ => Request::Join {
                trans,
                block: self.held_block(dice),
            },
        }
    }

    /// A lock: mostly one that a transaction has.
    fn locked(&self, dice: &mut Dice) -> Lock {
        let count = self.locked.len().min(REMEMBERED) as u32;
        if count > 0 && !dice.is_one_in(30) {
            if let Some(lock) = self.locked.get(dice.below(count) as usize) {
                return *lock;
            }
        }
        Lock {
            trans: self.trans(dice),
            block: self.any_block(dice),
        }
    }

    /// A block: mostly one that is held.
    fn held_block(&self, dice: &mut Dice) -> Block {
        let count = self.held.len().min(REMEMBERED) as u32;
        if count > 0 && !dice.is_one_in(30) {
            if let Some(block) = self.held.get(dice.below(count) as usize) {
                return *block;
            }
        }
        self.any_block(dice)
    }

    /// A request that looks at a block or changes it.
    fn change(&self, alloc: Global, dice: &mut Dice) -> Result<Request, AllocError> {
        if self.locked.is_empty() && !dice.is_one_in(6) {
            return Ok(self.lock(dice));
        }
        let Lock { trans, block } = self.locked(dice);
        Ok(match dice.below(60) {
            0..=3 => Request::View { trans, block },
            4..=10 => Request::Hold { trans, block },
            11 | 12 => Request::Unhold { trans, block },
            13..=18 => Request::Relse { trans, block },
            19 | 20 => Request::Release {
                block: self.held_block(dice),
            },
            21..=23 => Request::Inval { trans, block },
            _ => log_request(alloc, dice, trans, block, self.size)?,
        })
    }

    /// A request that begins or ends a leg.
    fn end(&self, dice: &mut Dice) -> Request {
        let trans = self.trans(dice);
        match dice.below(30) {
            0..=11 => alloc_request(dice),
            12..=20 => Request::Commit { trans },
            21..=24 => Request::Roll { trans },
            _ => Request::Cancel { trans },
        }
    }

    /// A request of the mount as a whole.
    fn of_mount(&self, dice: &mut Dice) -> Request {
        match dice.below(200) {
            0..=79 => Request::Force,
            80..=109 => Request::ForceTo {
                number: CkptNo(self.checkpoint.wrapping_add(u64::from(dice.below(3)))),
            },
            110..=165 => Request::Push,
            166..=179 => Request::Stat,
            180..=185 => Request::Freeze,
            186..=196 => Request::Thaw,
            197 | 198 => Request::Unmount,
            _ => Request::Shutdown,
        }
    }

    /// Learns which life the slot has, where others mount it too.
    pub fn see(&mut self, life: Life) {
        if life != self.life {
            self.begin_life(life);
        }
    }

    /// Learns from a step of the slot that was taken.
    pub fn learn(&mut self, step: &Step, reply: &Reply) {
        match reply {
            Reply::Life(life) => self.begin_life(*life),
            Reply::Trans(trans) => self.opened(*trans),
            Reply::Begun { number, .. } => self.checkpoint = number.0,
            Reply::Failed(_) | Reply::Refused(Errno::Io) => self.is_ending = true,
            Reply::Refused(Errno::NoDevice) => self.is_empty = true,
            _ => {}
        }
        match step {
            Step::Mount { size, .. } if matches!(reply, Reply::Life(_)) => {
                self.size = size.unwrap_or(BLOCK_BYTES as u32);
            }
            Step::Post(name) => self.serial = name.serial,
            Step::Call { request, .. } => self.learn_call(request, reply),
            _ => {}
        }
    }

    /// Learns from a request that was served: which blocks are locked and held from here on.
    fn learn_call(&mut self, request: &Request, reply: &Reply) {
        self.keep_held(reply);
        match request {
            Request::Get { trans, block } | Request::Read { trans, block } => {
                self.keep_lock(*trans, *block, reply);
            }
            Request::Join { trans, block } => {
                self.keep_lock(*trans, *block, reply);
                self.forget_held(*block);
            }
            Request::Release { block } => self.forget_held(*block),
            Request::Relse { trans, block } => self.forget_lock(*trans, *block),
            Request::Roll { trans } => self.forget_locks(*trans),
            Request::Commit { trans } | Request::Cancel { trans } => {
                self.forget_locks(*trans);
                self.forget_trans(*trans);
            }
            _ => {}
        }
    }

    /// Remembers a lock, if it was given.
    fn keep_lock(&mut self, trans: TransNo, block: Block, reply: &Reply) {
        if matches!(reply, Reply::Okay) && self.locked.len() < REMEMBERED {
            let _ = self.locked.push(Lock { trans, block });
        }
    }

    /// Remembers the blocks that a reply says are held.
    fn keep_held(&mut self, reply: &Reply) {
        if let Reply::OkayHeld(held)
        | Reply::Aborted(held)
        | Reply::CommittedHeld { held, .. } = reply
        {
            for block in held.blocks() {
                if self.held.len() < REMEMBERED {
                    let _ = self.held.push(*block);
                }
            }
        }
    }

    /// Forgets a held block.
    fn forget_held(&mut self, block: Block) {
        self.held.retain(|held| *held != block);
    }

    /// Forgets a lock.
    fn forget_lock(&mut self, trans: TransNo, block: Block) {
        self.locked
            .retain(|lock| lock.trans != trans || lock.block != block);
    }

    /// Forgets the locks of a transaction.
    fn forget_locks(&mut self, trans: TransNo) {
        self.locked.retain(|lock| lock.trans != trans);
    }

    /// Forgets a transaction.
    fn forget_trans(&mut self, trans: TransNo) {
        self.open.retain(|open| *open != trans);
    }

    /// A life begins.
    fn begin_life(&mut self, life: Life) {
        self.life = life;
        self.open.clear();
        self.locked.clear();
        self.held.clear();
        self.serial = 0;
        self.checkpoint = 0;
        self.is_ending = false;
        self.is_empty = false;
    }

    /// A transaction was opened. One that is too many to keep is forgotten.
    fn opened(&mut self, trans: TransNo) {
        if self.open.len() < OPEN_TRANSACTIONS {
            let _ = self.open.push(trans);
        }
    }
}

/// A request for a transaction: mostly one that may be granted.
fn alloc_request(dice: &mut Dice) -> Request {
    let perm = dice.is_one_in(2);
    Request::Alloc {
        unit: unit(dice),
        count: if perm || dice.is_one_in(20) {
            dice.below(5)
        } else {
            1
        },
        perm,
    }
}

/// A unit of log space.
fn unit(dice: &mut Dice) -> u32 {
    match UNITS.get(dice.below(UNITS.len() as u32) as usize) {
        Some(unit) => *unit,
        None => 0,
    }
}

/// A change of some bytes of a block that has so many.
pub fn log_request(
    alloc: Global,
    dice: &mut Dice,
    trans: TransNo,
    block: Block,
    size: u32,
) -> Result<Request, AllocError> {
    // No block is empty or longer, which a number does not say.
    let size = size.clamp(1, BLOCK_BYTES as u32);
    let first = dice.below(size);
    let most = if dice.is_one_in(8) { size } else { 300 };
    let room = size - first;
    let count = (dice.below(most) + 1).min(room + dice.below(2)) as usize;
    let data = if dice.is_one_in(2) {
        Data::of_repeated(alloc, dice.byte(), count)?
    } else {
        let mut bytes = Vec::with_capacity(alloc, count)?;
        for _ in 0..count {
            bytes.push(dice.byte())?;
        }
        Data::of_vec(alloc, bytes)?
    };
    Ok(match data {
        Some(bytes) => Request::Log {
            first,
            trans,
            block,
            bytes,
        },
        None => Request::Force,
    })
}
