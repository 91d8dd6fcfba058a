//! Replies, written as a caller's words.

ghost use Rattle.std.specs.Prelude.{◌≡◌, ◌≤◌, length};
ghost use Rattle.xt_base.specs.declared.sizes.TheConstants.{BUSY_BLOCKS};
ghost use Rattle.xt_c.specs.Replies.{Shows, StandsIn, errno_in, held_in, number_in, pieces_in, room_after, word_in};

use crate::words::ReplyWords;
use xt_base::names::Block;
use xt_base::steps::{Errno, Reply};

/// The word of a reply.
fn word_in(reply: &Reply) -> u32
    ensures { result ≡ word_in reply.now }
{
    match reply {
        Reply::Okay => 0,
        Reply::OkayHeld(_) => 1,
        Reply::Life(_) => 2,
        Reply::Trans(_) => 3,
        Reply::Committed(_) => 4,
        Reply::CommittedHeld { number: _, held: _ } => 5,
        Reply::Aborted(_) => 6,
        Reply::Wait(_) => 7,
        Reply::Done => 8,
        Reply::Kept => 9,
        Reply::Free => 10,
        Reply::Data(_) => 11,
        Reply::Nothing => 12,
        Reply::Begun {
            number: _,
            pieces: _,
        } => 13,
        Reply::Landed(_) => 14,
        Reply::Failed(_) => 15,
        Reply::Flushed(_) => 16,
        Reply::Seen { life: _, reason: _ } => 17,
        Reply::Refused(_) => 18,
        Reply::Stat(_) => 19,
    }
}

/// Why it refuses; 0 where it doesn't.
fn errno_in(reply: &Reply) -> u32
    ensures { result ≡ errno_in reply.now }
{
    match reply {
        Reply::Refused(errno) => u32::from(errno.number()),
        Reply::Aborted(_) => u32::from(Errno::Io.number()),
        _ => 0,
    }
}

/// The number that it tells; 0 where it tells none.
fn number_in(reply: &Reply) -> u64
    ensures { result ≡ number_in reply.now }
{
    match reply {
        Reply::Life(life) => u64::from(life.0),
        Reply::Trans(trans) => trans.0,
        Reply::Committed(number)
        | Reply::Wait(number)
        | Reply::Landed(number)
        | Reply::Failed(number) => number.0,
        Reply::CommittedHeld { number, held: _ } => number.0,
        Reply::Begun { number, pieces: _ } => number.0,
        Reply::Flushed(count) => u64::from(*count),
        Reply::Seen { life, reason: _ } => u64::from(life.0),
        _ => 0,
    }
}

/// How many pieces a begun checkpoint has; else 0.
fn pieces_in(reply: &Reply) -> u32
    ensures { result ≡ pieces_in reply.now }
{
    match reply {
        Reply::Begun { number: _, pieces } => *pieces,
        _ => 0,
    }
}

/// The blocks that it leaves held.
fn held_in(reply: &Reply) -> &[Block]
    ensures value { result.now ≡ held_in reply.now }
    ensures few { length result.now ≤ BUSY_BLOCKS }
{
    match reply {
        Reply::OkayHeld(held) => held.blocks(),
        Reply::CommittedHeld { number: _, held } => held.blocks(),
        Reply::Aborted(held) => held.blocks(),
        _ => &[],
    }
}

/// Writes blocks from the front of a room on.
pub fn put_blocks(room: &mut [u64], blocks: &[Block])
    requires { length blocks.now ≤ length room.old }
    ensures { StandsIn blocks.now room.new }
{
    for k in 0..blocks.len() {
        let block = blocks[k];
        room[k] = block.0;
    }
}

/// Writes a reply as words.
pub fn put_reply(to: &mut ReplyWords, reply: &Reply)
    ensures { Shows reply.now to.new }
{
    to.word = word_in(reply);
    to.errno = errno_in(reply);
    to.number = number_in(reply);
    to.pieces = pieces_in(reply);
    let held = held_in(reply);
    to.held_count = held.len() as u32;
    put_blocks(&mut to.held, held);
}

/// Writes the content that a reply carries into a room of its length.
pub fn put_content(room: &mut [u8], reply: &Reply)
    ensures { room.new ≡ room_after reply.now room.old }
{
    if let Reply::Data(content) = reply {
        let bytes = content.bytes();
        if room.len() == bytes.len() {
            room.copy_from_slice(bytes);
        }
    }
}
