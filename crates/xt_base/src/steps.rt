//! Requests, answers, replies, steps and offers.

ghost use Rattle.std.specs.Prelude.{◌≡◌, ◌≤◌, false, true, length, is_some, IfOk};
ghost use Rattle.xt_base.specs.Alone.{carries_content, names_held};
ghost use Rattle.xt_base.specs.Errors.{name_of, number_of};
ghost use Rattle.xt_base.specs.Isolation.{is_no_memory};
ghost use Rattle.xt_base.specs.Steps.{is_call, slot_of};

use crate::content::{Content, Data, HeldBlocks, HeldRoom};
use crate::names::{Block, CkptNo, JobName, Life, Slot, TransNo, Worker};
use crate::sizes::FLUSH_BLOCKS;
use crate::stat::Stat;
use std::alloc::{AllocError, Global};

/// Why a call was refused: the numbers and names of `errno.h` on Linux.
#[derive(Clone, Copy, Debug, PartialEq, Eq)]
pub enum Errno {
    /// EIO: the mount is shut, or a device failed in that call.
    Io,
    /// EAGAIN: locked elsewhere, no log space, 32 open transactions, or a frozen mount.
    Again,
    /// ENOMEM: a growth was refused.
    NoMemory,
    /// EBUSY: the slot is in use, an unmount found something left, or the mount is frozen already.
    Busy,
    /// ENODEV: an empty slot.
    NoDevice,
    /// EINVAL: no such transaction, no own buffer, or an argument out of its range.
    Invalid,
    /// ENOSPC: a charge over the unit, or a counter at its end.
    NoSpace,
    /// ENOBUFS: a 65th busy block.
    NoBufs,
    /// ESTALE: the slot has another life.
    Stale,
}

impl Errno {
    /// Its number in `errno.h`.
    pub fn number(self) -> u8
        ensures { result ≡ number_of self }
    {
        match self {
            Errno::Io => 5,
            Errno::Again => 11,
            Errno::NoMemory => 12,
            Errno::Busy => 16,
            Errno::NoDevice => 19,
            Errno::Invalid => 22,
            Errno::NoSpace => 28,
            Errno::NoBufs => 105,
            Errno::Stale => 116,
        }
    }

    /// Its name in `errno.h`.
    pub fn name(self) -> &'static str
        ensures value { result.now ≡ name_of self }
        ensures short { length result.now ≤ 7 }
    {
        match self {
            Errno::Io => "EIO",
            Errno::Again => "EAGAIN",
            Errno::NoMemory => "ENOMEM",
            Errno::Busy => "EBUSY",
            Errno::NoDevice => "ENODEV",
            Errno::Invalid => "EINVAL",
            Errno::NoSpace => "ENOSPC",
            Errno::NoBufs => "ENOBUFS",
            Errno::Stale => "ESTALE",
        }
    }
}

/// Why a mount was shut: the `SHUTDOWN_*` reasons of `xfs_mount.h`. The first is kept.
#[derive(Clone, Copy, Debug, PartialEq, Eq)]
pub enum Reason {
    MetaIoError,
    LogIoError,
    ForceUmount,
    CorruptIncore,
}

/// What a mount is asked: the calls of `xfs_trans.h`, the log force of `xfs_log.h`, and its administration.
#[derive(Debug, Drop, PartialEq)]
pub enum Request {
    /// Opens a transaction: log bytes for a leg, 1 to 8 legs, and whether it may roll (`xfs_trans_alloc`).
    Alloc {
        unit: u32,
        count: u32,
        perm: bool,
    },
    /// Locks a block, unread (`xfs_trans_get_buf`).
    Get {
        trans: TransNo,
        block: Block,
    },
    /// Locks a block with its content (`xfs_trans_read_buf`).
    Read {
        trans: TransNo,
        block: Block,
    },
    /// What the transaction sees of its block.
    View {
        trans: TransNo,
        block: Block,
    },
    /// Writes bytes from `first` on and marks their chunks (`xfs_trans_log_buf`).
    Log {
        first: u32,
        trans: TransNo,
        block: Block,
        bytes: Data,
    },
    /// Keeps a block locked beyond the leg (`xfs_trans_bhold`).
    Hold {
        trans: TransNo,
        block: Block,
    },
    /// Takes the hold mark away (`xfs_trans_bhold_release`).
    Unhold {
        trans: TransNo,
        block: Block,
    },
    /// Gives back one lock (`xfs_trans_brelse`).
    Relse {
        trans: TransNo,
        block: Block,
    },
    /// Takes a held block over (`xfs_trans_bjoin`).
    Join {
        trans: TransNo,
        block: Block,
    },
    /// Gives up a held block; spelled `drop`.
    Release {
        block: Block,
    },
    /// Gives a block up for good (`xfs_trans_binval`).
    Inval {
        trans: TransNo,
        block: Block,
    },
    /// Ends the transaction and commits its leg (`xfs_trans_commit`).
    Commit {
        trans: TransNo,
    },
    /// Commits the leg and goes on (`xfs_trans_roll`).
    Roll {
        trans: TransNo,
    },
    /// Gives the leg up and ends the transaction (`xfs_trans_cancel`).
    Cancel {
        trans: TransNo,
    },
    /// Asks that all that is committed reach the log (`xfs_log_force`).
    Force,
    /// The same for one checkpoint (`xfs_log_force_seq`).
    ForceTo {
        number: CkptNo,
    },
    /// Asks that blocks be written home (`xfs_ail_push_all`).
    Push,
    /// Shuts the mount (`xfs_force_shutdown`).
    Shutdown,
    /// Opens no transaction from here on; those that are open go on (`xfs_fs_freeze`).
    Freeze,
    /// Opens transactions again.
    Thaw,
    /// What the mount tells of itself; it changes nothing.
    Stat,
    /// Empties the slot.
    Unmount,
}

/// What the home device answered to a read, if it was asked.
#[derive(Debug, Drop, PartialEq)]
pub enum Answer {
    /// It was not asked.
    None,
    /// It gave this content.
    Content(Content),
    /// It failed.
    Failed,
}

/// What a step is answered. Each spelling of the line language is one value.
#[derive(Debug, Drop, PartialEq)]
pub enum Reply {
    Okay,
    /// `ok`, with the blocks that a cancelled transaction leaves held.
    OkayHeld(HeldBlocks),
    Life(Life),
    Trans(TransNo),
    /// The checkpoint of a leg; 0 for a clean one.
    Committed(CkptNo),
    /// The same, with the blocks that stay held.
    CommittedHeld { number: CkptNo, held: HeldBlocks },
    /// EIO of a leg that was given up, with the blocks that it leaves held.
    Aborted(HeldBlocks),
    /// A force waits for this checkpoint.
    Wait(CkptNo),
    Done,
    /// A lock was given back, and the block is still the transaction's.
    Kept,
    /// A block was unlocked.
    Free,
    Data(Content),
    /// A job found nothing to do.
    Nothing,
    Begun { number: CkptNo, pieces: u32 },
    Landed(CkptNo),
    Failed(CkptNo),
    /// How many blocks left the active list.
    Flushed(u32),
    /// What the board shows of a slot; life 0 where nothing was shown.
    Seen { life: Life, reason: Option<Reason> },
    /// What a mount tells of itself.
    Stat(Stat),
    Refused(Errno),
}

/// What the log device answered: how many pieces it took, and to the sync, if there was one.
#[derive(Clone, Copy, Debug, PartialEq, Eq)]
pub struct LogAnswers {
    pub taken: u32,
    pub sync: Option<bool>,
}

/// What the home device answered to a flush: to the first `count` writes, 0 to 8, and to the sync.
/// A count of 0 means that nothing was offered, and no answer given.
#[derive(Clone, Copy, Debug, PartialEq)]
pub struct HomeAnswers {
    pub count: u8,
    pub writes: [bool; FLUSH_BLOCKS],
    pub sync: bool,
}

/// One line of a script.
#[derive(Debug, Drop, PartialEq)]
pub enum Step {
    /// Mounts a slot with a log of so many bytes and a home device of so many blocks, of a size where one is named.
    Mount {
        slot: Slot,
        log_bytes: u32,
        blocks: u64,
        size: Option<u32>,
    },
    /// A request to one life of a slot, with the home device's answer where it was asked.
    Call {
        slot: Slot,
        life: Life,
        request: Request,
        answer: Answer,
    },
    Post(JobName),
    Take {
        worker: Worker,
        name: JobName,
    },
    Begin {
        worker: Worker,
        name: JobName,
    },
    End {
        worker: Worker,
        name: JobName,
        answers: LogAnswers,
    },
    Flush {
        worker: Worker,
        name: JobName,
        answers: HomeAnswers,
    },
    Show(Slot),
    Peek(Slot),
}

impl Request {
    /// A copy. The one error is want of memory.
    pub fn copy(&self, alloc: Global) -> Result<Self, AllocError>
        ensures { IfOk result (λ request. request ≡ self.now) }
    {
        let request = match *self {
            Request::Alloc { unit, count, perm } => Request::Alloc { unit, count, perm },
            Request::Get { trans, block } => Request::Get { trans, block },
            Request::Read { trans, block } => Request::Read { trans, block },
            Request::View { trans, block } => Request::View { trans, block },
            Request::Log {
                first,
                trans,
                block,
                ref bytes,
            } => Request::Log {
                first,
                trans,
                block,
                bytes: bytes.copy(alloc)?,
            },
            Request::Hold { trans, block } => Request::Hold { trans, block },
            Request::Unhold { trans, block } => Request::Unhold { trans, block },
            Request::Relse { trans, block } => Request::Relse { trans, block },
            Request::Join { trans, block } => Request::Join { trans, block },
            Request::Release { block } => Request::Release { block },
            Request::Inval { trans, block } => Request::Inval { trans, block },
            Request::Commit { trans } => Request::Commit { trans },
            Request::Roll { trans } => Request::Roll { trans },
            Request::Cancel { trans } => Request::Cancel { trans },
            Request::Force => Request::Force,
            Request::ForceTo { number } => Request::ForceTo { number },
            Request::Push => Request::Push,
            Request::Shutdown => Request::Shutdown,
            Request::Freeze => Request::Freeze,
            Request::Thaw => Request::Thaw,
            Request::Stat => Request::Stat,
            Request::Unmount => Request::Unmount,
        };
        Ok(request)
    }
}

impl Answer {
    /// A copy. The one error is want of memory.
    pub fn copy(&self, alloc: Global) -> Result<Self, AllocError>
        ensures { IfOk result (λ answer. answer ≡ self.now) }
    {
        let answer = match self {
            Answer::None => Answer::None,
            Answer::Content(content) => Answer::Content(content.copy(alloc)?),
            Answer::Failed => Answer::Failed,
        };
        Ok(answer)
    }
}

impl Reply {
    /// Whether it is ENOMEM.
    pub fn is_no_memory(&self) -> bool
        ensures { result ≡ is_no_memory self.now }
    {
        matches!(self, Reply::Refused(Errno::NoMemory))
    }

    /// A copy of a reply without a content; blocks that it names are copied into a room that was made before. It takes no memory.
    pub fn copy_into(&self, room: Option<HeldRoom>) -> Reply
        requires content { carries_content self.now ≡ false }
        requires room { names_held self.now ≡ true → is_some room ≡ true }
        ensures { result ≡ self.now }
    {
        match self {
            Reply::Okay => Reply::Okay,
            Reply::OkayHeld(held) => Reply::OkayHeld(held.copy_into(room.unwrap())),
            Reply::Life(life) => Reply::Life(*life),
            Reply::Trans(trans) => Reply::Trans(*trans),
            Reply::Committed(number) => Reply::Committed(*number),
            Reply::CommittedHeld { number, held } => Reply::CommittedHeld {
                number: *number,
                held: held.copy_into(room.unwrap()),
            },
            Reply::Aborted(held) => Reply::Aborted(held.copy_into(room.unwrap())),
            Reply::Wait(number) => Reply::Wait(*number),
            Reply::Done => Reply::Done,
            Reply::Kept => Reply::Kept,
            Reply::Free => Reply::Free,
            Reply::Data(_) => unreachable!(),
            Reply::Nothing => Reply::Nothing,
            Reply::Begun { number, pieces } => Reply::Begun {
                number: *number,
                pieces: *pieces,
            },
            Reply::Landed(number) => Reply::Landed(*number),
            Reply::Failed(number) => Reply::Failed(*number),
            Reply::Flushed(count) => Reply::Flushed(*count),
            Reply::Seen { life, reason } => Reply::Seen {
                life: *life,
                reason: *reason,
            },
            Reply::Stat(stat) => Reply::Stat(*stat),
            Reply::Refused(errno) => Reply::Refused(*errno),
        }
    }
}

impl Step {
    /// A copy. The one error is want of memory.
    pub fn copy(&self, alloc: Global) -> Result<Self, AllocError>
        ensures { IfOk result (λ step. step ≡ self.now) }
    {
        match self {
            Step::Call {
                slot,
                life,
                request,
                answer,
            } => Ok(Step::Call {
                slot: *slot,
                life: *life,
                request: request.copy(alloc)?,
                answer: answer.copy(alloc)?,
            }),
            _ => Ok(self.copy_plain()),
        }
    }

    /// A copy of a step that is no call. It takes no memory.
    fn copy_plain(&self) -> Step
        requires { is_call self.now ≡ false }
        ensures { result ≡ self.now }
    {
        match *self {
            Step::Mount {
                slot,
                log_bytes,
                blocks,
                size,
            } => Step::Mount {
                slot,
                log_bytes,
                blocks,
                size,
            },
            Step::Call { .. } => unreachable!(),
            Step::Post(name) => Step::Post(name),
            Step::Take { worker, name } => Step::Take { worker, name },
            Step::Begin { worker, name } => Step::Begin { worker, name },
            Step::End {
                worker,
                name,
                answers,
            } => Step::End {
                worker,
                name,
                answers,
            },
            Step::Flush {
                worker,
                name,
                answers,
            } => Step::Flush {
                worker,
                name,
                answers,
            },
            Step::Show(slot) => Step::Show(slot),
            Step::Peek(slot) => Step::Peek(slot),
        }
    }

    /// The slot that the step names.
    pub fn slot(&self) -> Slot
        ensures { result ≡ slot_of self.now }
    {
        match self {
            Step::Mount { slot, .. } | Step::Call { slot, .. } => *slot,
            Step::Post(name) | Step::Take { name, .. } | Step::Begin { name, .. } => name.slot,
            Step::End { name, .. } | Step::Flush { name, .. } => name.slot,
            Step::Show(slot) | Step::Peek(slot) => *slot,
        }
    }
}

/// What was offered to a log device, with its answer.
#[derive(Debug, Drop)]
pub enum LogOffer {
    Piece { bytes: Data, ok: bool },
    Sync { ok: bool },
}

/// What was offered to a home device, reads aside, with its answer.
#[derive(Debug, Drop)]
pub enum HomeOffer {
    Write {
        block: Block,
        content: Content,
        ok: bool,
    },
    Sync {
        ok: bool,
    },
}

/// Who has a block.
#[derive(Clone, Copy, Debug, PartialEq, Eq)]
pub enum Owner {
    /// A transaction, with its recursion count.
    Trans { number: TransNo, count: u32 },
    /// Nobody yet: a buffer that was held at the end of a leg.
    Held,
    /// A cancelled block, until this checkpoint has landed.
    Stale(CkptNo),
}
