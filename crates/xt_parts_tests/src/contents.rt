//! The contents on small lists worked out by hand.
//!
//! A function that names the frames pays for all that they hold, and one that is long pays with the square of its length. So what
//! becomes of a few blocks stands in constants, step by step, and a few short functions play them.

ghost use Rattle.std.specs.Prelude.{◌≡◌, ◌<◌, length, true, IfOk, IfSome};
ghost use Rattle.xt_base.specs.Maps.{at, is_in};
ghost use Rattle.xt_frames.specs.Shares.{no_contents};

use std::alloc::{AllocError, Global};
use xt_base::content::{Content, Data};
use xt_base::form::Form;
use xt_base::names::Slot;
use xt_frames::frames::Frames;
use xt_frames::share::FrameShare;
use xt_frames::table::FrameTable;

/// What is done to a block, or has to be seen of it.
#[derive(Clone, Copy)]
enum Step {
    /// A content that begins with this byte, and is zeros else, is committed.
    Commit(u64, u8),
    /// It is brought in with such a content.
    BringContent(u64, u8),
    /// It is brought in.
    Bring(u64),
    /// It is brought in if it is idle.
    BringIdle(u64),
    /// It becomes fresh.
    MakeFresh(u64),
    /// A leg writes its first byte in place.
    Log(u64, u8),
    /// What was written is committed.
    Keep(u64),
    /// What was written is given back.
    Undo(u64),
    /// Its content goes, and its fresh mark; the content is kept as an idle one, or not.
    Settle(u64, bool),
    /// Its content is taken away.
    Uncommit(u64),
    /// Its fresh mark is taken away.
    LeaveFresh(u64),
    /// It is the one that is not saved.
    Forget(u64),
    /// It has a frame, whose bytes begin with this one as a leg has them; it is neither idle nor fresh.
    Begins(u64, u8),
    /// It is idle alone.
    Idle(u64),
    /// It is fresh alone.
    Fresh(u64),
    /// It is none of these.
    Gone(u64),
}

/// A content that begins with this byte, and is zeros else.
fn content_of(alloc: Global, first: u8) -> Result<Content, AllocError> {
    let mut content = Content::zeros(alloc, Form::one())?;
    content.write(0, &[first]);
    Ok(content)
}

/// Data of one byte.
fn one_byte(alloc: Global, byte: u8) -> Result<Data, AllocError>
    ensures { IfOk result (λ bytes. length bytes ≡ 1) }
{
    let found = Data::of_repeated(alloc, byte, 1)?;
    found.ok_or(AllocError)
}

/// The steps that want room in the frames; others do nothing.
fn enter(alloc: Global, frames: &mut Frames, step: Step) -> Result<(), AllocError> {
    if frames.is_full() {
        return Ok(());
    }
    match step {
        Step::Commit(block, first) => frames.commit(block, content_of(alloc, first)?),
        Step::BringContent(block, first) => frames.bring_content(block, content_of(alloc, first)?),
        Step::Bring(block) => frames.bring(block),
        Step::BringIdle(block) => {
            let _was_idle = frames.bring_idle(block);
        }
        Step::MakeFresh(block) => frames.make_fresh(block),
        _ => {}
    }
    Ok(())
}

/// Whether a block has a frame.
fn has_frame(frames: &Frames, block: u64) -> bool
    ensures there { result ≡ true → is_in block frames.now.frames ≡ true }
    ensures byte { result ≡ true → IfSome (at block frames.now.frames) (λ f. 0 < length f.edit) }
{
    match frames.frame(block) {
        Some(frame) => !frame.content().bytes().is_empty(),
        None => false,
    }
}

/// The steps of a leg that writes in place, where the block has a frame; others do nothing.
fn write(alloc: Global, frames: &mut Frames, step: Step) -> Result<(), AllocError> {
    match step {
        Step::Log(block, first) if has_frame(frames, block) => {
            frames.log(alloc, block, 0, &one_byte(alloc, first)?.lent())
        }
        Step::Keep(block) if frames.frame(block).is_some() => {
            frames.keep(block);
            Ok(())
        }
        _ => Ok(()),
    }
}

/// The steps that may always be done; others do nothing.
fn leave(frames: &mut Frames, step: Step) {
    match step {
        Step::Undo(block) => frames.undo(block),
        Step::Settle(block, is_kept) => frames.settle(is_kept, |_near, other| other != block),
        Step::Uncommit(block) => frames.uncommit(block),
        Step::LeaveFresh(block) => frames.leave_fresh(block),
        Step::Forget(block) => frames.forget(|other| other != block),
        _ => {}
    }
}

/// The first byte of a block as a leg has it, and whether it is idle and fresh.
fn seen(frames: &Frames, block: u64) -> (Option<u8>, bool, bool) {
    let first = match frames.frame(block) {
        Some(frame) => Some(frame.content().bytes()[0]),
        None => None,
    };
    (first, frames.is_idle(block), frames.is_fresh(block))
}

/// Whether a step that looks at a block sees what it says; others see all they want.
fn sees(frames: &Frames, step: Step) -> bool {
    match step {
        Step::Begins(block, first) => seen(frames, block) == (Some(first), false, false),
        Step::Idle(block) => seen(frames, block) == (None, true, false),
        Step::Fresh(block) => seen(frames, block) == (None, false, true),
        Step::Gone(block) => seen(frames, block) == (None, false, false),
        _ => true,
    }
}

/// Whether all steps that look see what they say.
fn plays(alloc: Global, frames: &mut Frames, steps: &[Step]) -> Result<bool, AllocError> {
    for step in steps {
        enter(alloc, frames, *step)?;
        write(alloc, frames, *step)?;
        leave(frames, *step);
        if !sees(frames, *step) {
            return Ok(false);
        }
    }
    Ok(true)
}

/// The frames over a share without contents.
fn over(alloc: Global, share: FrameShare) -> Result<Frames, AllocError>
    requires { share ≡ no_contents share.slot }
{
    match Frames::over(alloc, share) {
        Ok(frames) => Ok(frames),
        Err(_) => Err(AllocError),
    }
}

/// The frames of a slot, without contents.
fn no_frames(alloc: Global, slot: Slot) -> Result<Frames, AllocError> {
    let mut table = FrameTable::new(alloc, 4)?;
    over(alloc, table.take_share(slot).ok_or(AllocError)?)
}

/// What becomes of blocks, one row after another, each over frames without contents.
const ROWS: &[(&str, &[Step])] = &[
    (
        "a content that is kept is idle, and comes back with its block",
        &[
            Step::Commit(7, 0x11),
            Step::Begins(7, 0x11),
            Step::Settle(7, true),
            Step::Idle(7),
            Step::Bring(7),
            Step::Begins(7, 0x11),
            Step::Settle(7, true),
            Step::BringIdle(8),
            Step::Gone(8),
            Step::BringIdle(7),
            Step::Begins(7, 0x11),
        ],
    ),
    (
        "a content that is not kept is gone: its block comes back fresh",
        &[
            Step::Commit(7, 0x11),
            Step::Begins(7, 0x11),
            Step::Settle(7, false),
            Step::Gone(7),
            Step::Bring(7),
            Step::Fresh(7),
        ],
    ),
    (
        "a block that was idle is brought with another content: the old one is gone",
        &[
            Step::Commit(7, 0x11),
            Step::Settle(7, true),
            Step::Idle(7),
            Step::BringContent(7, 0x33),
            Step::Begins(7, 0x33),
        ],
    ),
    (
        "contents go one by one, and others stay",
        &[
            Step::Commit(9, 0x11),
            Step::Commit(7, 0x33),
            Step::Commit(5, 0x22),
            Step::Uncommit(7),
            Step::Gone(7),
            Step::Begins(5, 0x22),
            Step::Settle(5, false),
            Step::Gone(5),
            Step::Begins(9, 0x11),
            Step::Forget(9),
            Step::Gone(9),
        ],
    ),
    (
        "fresh blocks come by number, and leave by number or where they settle",
        &[
            Step::Bring(9),
            Step::Bring(4),
            Step::MakeFresh(6),
            Step::Fresh(4),
            Step::Fresh(6),
            Step::Fresh(9),
            Step::Settle(4, true),
            Step::LeaveFresh(6),
            Step::Fresh(9),
            Step::Gone(4),
            Step::Gone(6),
        ],
    ),
    (
        "of a chunk that a leg wrote twice, an undo gives the bytes back that were there before the first",
        &[
            Step::Commit(7, 0x11),
            Step::Log(7, 0x22),
            Step::Begins(7, 0x22),
            Step::Log(7, 0x33),
            Step::Begins(7, 0x33),
            Step::Undo(7),
            Step::Begins(7, 0x11),
        ],
    ),
    (
        "what was committed in place, an undo leaves, and one of a later leg gives it back",
        &[
            Step::Commit(7, 0x11),
            Step::Log(7, 0x22),
            Step::Keep(7),
            Step::Undo(7),
            Step::Begins(7, 0x22),
            Step::Log(7, 0x33),
            Step::Begins(7, 0x33),
            Step::Undo(7),
            Step::Begins(7, 0x22),
        ],
    ),
    (
        "a block that was changed in place rests with its committed content",
        &[
            Step::Commit(7, 0x11),
            Step::Log(7, 0x22),
            Step::Begins(7, 0x22),
            Step::Settle(7, true),
            Step::Idle(7),
            Step::Bring(7),
            Step::Begins(7, 0x11),
        ],
    ),
];

#[test]
fn blocks_come_and_go(rt: HostRuntime) -> Result<(), AllocError> {
    let slot = Slot::new(0).ok_or(AllocError)?;
    for (row, steps) in ROWS {
        let mut frames = no_frames(rt.alloc(), slot)?;
        assert!(rt; plays(rt.alloc(), &mut frames, steps)?, "{row}");
    }
    Ok(())
}

/// A block is committed, and becomes idle.
fn rest(alloc: Global, frames: &mut Frames, block: u64) -> Result<bool, AllocError> {
    let steps = [
        Step::Commit(block, 0x44),
        Step::Settle(block, true),
        Step::Idle(block),
    ];
    plays(alloc, frames, &steps)
}

/// How many of the blocks from 0 to 99 are idle.
fn idle_count(frames: &Frames) -> usize {
    let mut count = 0;
    for block in 0..100 {
        if count < 100 && frames.is_idle(block) {
            count += 1;
        }
    }
    count
}

/// Of blocks 1 to 65, that become idle one after another, 1 is cut. Then 2 is used again and 70 is new: 3 is cut, and 2
/// stays.
#[test]
fn the_idle_list_keeps_the_last_64(rt: HostRuntime) -> Result<(), AllocError> {
    const USED_AGAIN: &[Step] = &[
        Step::Gone(1),
        Step::Bring(2),
        Step::Settle(2, true),
        Step::Commit(70, 0x44),
        Step::Settle(70, true),
        Step::Idle(70),
        Step::Gone(3),
        Step::Idle(2),
    ];
    let mut frames = no_frames(rt.alloc(), Slot::new(0).ok_or(AllocError)?)?;
    for block in 1..66 {
        assert!(rt; rest(rt.alloc(), &mut frames, block)?);
    }
    assert!(rt; idle_count(&frames) == 64);
    assert!(rt; plays(rt.alloc(), &mut frames, USED_AGAIN)? && idle_count(&frames) == 64);
    Ok(())
}

/// A share that was taken is not there until it is given back; that of another slot is.
#[test]
fn a_share_is_in_one_hand(rt: HostRuntime) -> Result<(), AllocError> {
    let slot = Slot::new(3).ok_or(AllocError)?;
    let other = Slot::new(4).ok_or(AllocError)?;
    let mut table = FrameTable::new(rt.alloc(), 16)?;
    let share = table.take_share(slot).ok_or(AllocError)?;
    assert!(rt; share.slot() == slot && share.drops() == 0);
    assert!(rt; table.take_share(slot).is_none() && table.take_share(other).is_some());
    table.give_back(share);
    assert!(rt; table.take_share(slot).is_some());
    Ok(())
}

/// What was idle in one life of a slot is no part of the next.
#[test]
fn a_life_begins_without_contents(rt: HostRuntime) -> Result<(), AllocError> {
    let slot = Slot::new(3).ok_or(AllocError)?;
    let mut frames = no_frames(rt.alloc(), slot)?;
    assert!(rt; rest(rt.alloc(), &mut frames, 7)?);
    let again = over(rt.alloc(), frames.into_share(slot))?;
    assert!(rt; !again.is_idle(7));
    Ok(())
}
