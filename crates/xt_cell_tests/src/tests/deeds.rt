//! What a test does to a slot, and what it is told, in values that stand in a table.

ghost use Rattle.std.specs.Prelude.{◌≡◌, IfOk, false};
ghost use Rattle.xt_base.specs.Calls.{is_unmount};

use crate::tests::two_bytes::Keeper;
use std::alloc::{AllocError, Global};
use xt_base::content::Data;
use xt_base::names::{Block, TransNo};
use xt_base::sizes::BLOCK_BYTES;
use xt_base::steps::{Errno, Reason, Reply, Request};

/// In what a home device keeps what is written, and which call each device fails, counted from 1.
#[derive(Clone, Copy)]
pub struct Faults {
    pub keeper: Keeper,
    pub home_at: u64,
    pub log_at: u64,
}

/// What is done to the slot.
#[derive(Clone, Copy)]
pub enum Deed {
    /// Mounts it, over the devices that are at hand.
    Mount,
    /// The same, with blocks of so many bytes.
    MountSized(u32),
    /// Takes its devices back.
    Unmount,
    /// Opens a transaction of one leg, of so many log bytes.
    Alloc(u32),
    Read {
        trans: u64,
        block: u64,
    },
    Get {
        trans: u64,
        block: u64,
    },
    View {
        trans: u64,
        block: u64,
    },
    /// Writes one byte.
    Log {
        trans: u64,
        block: u64,
        first: u32,
        byte: u8,
    },
    /// Writes 4,096 bytes, all of a block.
    Fill {
        trans: u64,
        block: u64,
        byte: u8,
    },
    /// Writes 512 bytes, all of a small block.
    FillSmall {
        trans: u64,
        block: u64,
        byte: u8,
    },
    Commit(u64),
    Force,
    Push,
    /// Takes the next name, begins its checkpoint, and runs it.
    Begin,
    /// Ends what was run.
    End,
    /// Takes the next name, and flushes.
    Flush,
    /// What the board shows of the slot.
    Peek,
    /// How many receipts the seat has, and the number of the last one's entry.
    Count,
    /// Folds the book, where it is at its limit.
    Fold,
    /// The first byte of each of the first two chunks of a block, as the home device that came back gives it.
    Home(u64),
    /// The same of a block of 512 bytes.
    HomeSmall(u64),
}

/// What it is answered.
#[derive(Clone, Copy, Debug, PartialEq)]
pub enum Told {
    Okay,
    Life(u32),
    Trans(u64),
    Committed(u64),
    Wait(u64),
    /// The first byte of a content.
    Data(u8),
    Nothing,
    Begun { number: u64, pieces: u32 },
    Landed(u64),
    Failed(u64),
    Flushed(u32),
    Refused(Errno),
    /// A job came back: it was not the flight's.
    Stranger,
    /// There was no name to take, no job to end or no device, or the name was of another job.
    Missing,
    Shown { life: u32, shut: Option<Reason> },
    Counted { receipts: usize, last: Option<u64> },
    Bytes(u8, u8),
    /// Another reply, which no test here wants.
    Other,
}

/// A reply, as a table has it.
pub fn answer_of(reply: &Reply) -> Told {
    match reply {
        Reply::Okay => Told::Okay,
        Reply::Life(life) => Told::Life(life.0),
        Reply::Trans(trans) => Told::Trans(trans.0),
        Reply::Committed(number) => Told::Committed(number.0),
        Reply::Wait(number) => Told::Wait(number.0),
        Reply::Data(content) => Told::Data(content.bytes()[0]),
        Reply::Nothing => Told::Nothing,
        Reply::Begun { number, pieces } => Told::Begun {
            number: number.0,
            pieces: *pieces,
        },
        Reply::Landed(number) => Told::Landed(number.0),
        Reply::Failed(number) => Told::Failed(number.0),
        Reply::Flushed(blocks) => Told::Flushed(*blocks),
        Reply::Refused(errno) => Told::Refused(*errno),
        _ => Told::Other,
    }
}

/// A write of some bytes.
fn logged(
    alloc: Global,
    trans: u64,
    block: u64,
    first: u32,
    bytes: &[u8],
) -> Result<Request, AllocError>
    ensures kind { IfOk result (λ request. is_unmount request ≡ false) }
{
    let Some(bytes) = Data::of(alloc, bytes)? else {
        return Err(AllocError);
    };
    Ok(Request::Log {
        first,
        trans: TransNo(trans),
        block: Block(block),
        bytes,
    })
}

/// The request of a deed, `Push` where it is none.
pub fn request_of(alloc: Global, deed: Deed) -> Result<Request, AllocError>
    ensures kind { IfOk result (λ request. is_unmount request ≡ false) }
{
    Ok(match deed {
        Deed::Alloc(unit) => Request::Alloc {
            unit,
            count: 1,
            perm: false,
        },
        Deed::Read { trans, block } => Request::Read {
            trans: TransNo(trans),
            block: Block(block),
        },
        Deed::Get { trans, block } => Request::Get {
            trans: TransNo(trans),
            block: Block(block),
        },
        Deed::View { trans, block } => Request::View {
            trans: TransNo(trans),
            block: Block(block),
        },
        Deed::Log {
            trans,
            block,
            first,
            byte,
        } => logged(alloc, trans, block, first, &[byte])?,
        Deed::Fill { trans, block, byte } => logged(alloc, trans, block, 0, &[byte; BLOCK_BYTES])?,
        Deed::FillSmall { trans, block, byte } => logged(alloc, trans, block, 0, &[byte; 512])?,
        Deed::Commit(trans) => Request::Commit {
            trans: TransNo(trans),
        },
        Deed::Force => Request::Force,
        _ => Request::Push,
    })
}
