//! Tables of deeds, each with what it is told.

ghost use Rattle.std.specs.Prelude.{◌<◌};

use crate::tests::deeds::{Deed, Faults, Told};
use crate::tests::playing::play;
use crate::tests::replay::Ended;
use crate::tests::two_bytes::Keeper;
use std::alloc::{AllocError, Global};
use std::marker::Brand;
use std::process::Abort;
use std::rt::HostRuntime;
use std::sync::Wait;
use xt_base::steps::{Answer, Errno, LogAnswers, Reason, Step};
use xt_cell::Blanks;

/// Does all deeds of a table over new ledgers, and closes the slot.
fn plays<R: Abort + Wait>(
    rt: &R,
    alloc: Global,
    faults: Faults,
    table: &[(Deed, Told)],
) -> Result<Ended, AllocError>
    requires home { 0 < faults.home_at }
    requires log { 0 < faults.log_at }
{
    play::<Brand, R>(rt, alloc, Blanks::new(), faults, table)
}

/// The same: whether the host core, run on the book, gives its replies and is left as the slot was, and each receipt is of an entry.
fn plays_again<R: Abort + Wait>(
    rt: &R,
    alloc: Global,
    faults: Faults,
    table: &[(Deed, Told)],
) -> Result<bool, Errno>
    requires home { 0 < faults.home_at }
    requires log { 0 < faults.log_at }
{
    let Ok(ended) = plays(rt, alloc, faults, table) else {
        return Err(Errno::NoMemory);
    };
    Ok(ended.is_replayed(alloc)? && ended.has_receipts)
}

/// A device fails no call.
const NEVER: u64 = u64::MAX;

/// Devices that do not fail, the home device in memory.
const GOOD: Faults = Faults {
    keeper: Keeper::Memory,
    home_at: NEVER,
    log_at: NEVER,
};

/// Devices that do not fail, also where memory is refused.
const STEADY: Faults = Faults {
    keeper: Keeper::TwoBytes,
    home_at: NEVER,
    log_at: NEVER,
};

/// Of these the log device fails its first call, the first piece.
const PIECE_FAILS: Faults = Faults {
    keeper: Keeper::TwoBytes,
    home_at: NEVER,
    log_at: 1,
};

/// Of these it fails its second, the sync.
const SYNC_FAILS: Faults = Faults {
    keeper: Keeper::TwoBytes,
    home_at: NEVER,
    log_at: 2,
};

/// Of these it fails its second, the second of two pieces.
const SECOND_FAILS: Faults = Faults {
    keeper: Keeper::TwoBytes,
    home_at: NEVER,
    log_at: 2,
};

/// Of these the home device, whose block 7 has sevens, fails its first call.
const READ_FAILS: Faults = Faults {
    keeper: Keeper::Sevens,
    home_at: 1,
    log_at: NEVER,
};

/// Block 7 is changed, its checkpoint flies and fails; the mount is shut, and the board shows it.
const LOG_FAILS: &[(Deed, Told)] = &[
    (Deed::Mount, Told::Life(1)),
    (Deed::Alloc(176), Told::Trans(1)),
    (Deed::Read { trans: 1, block: 7 }, Told::Okay),
    (
        Deed::Log {
            trans: 1,
            block: 7,
            first: 0,
            byte: 0x11,
        },
        Told::Okay,
    ),
    (Deed::Commit(1), Told::Committed(1)),
    (Deed::Force, Told::Wait(1)),
    (
        Deed::Peek,
        Told::Shown {
            life: 1,
            shut: None,
        },
    ),
    (
        Deed::Begin,
        Told::Begun {
            number: 1,
            pieces: 1,
        },
    ),
    (Deed::End, Told::Failed(1)),
    (
        Deed::Peek,
        Told::Shown {
            life: 1,
            shut: Some(Reason::LogIoError),
        },
    ),
    (Deed::Force, Told::Refused(Errno::Io)),
];

/// A piece is not taken.
#[test]
fn a_flight_that_fails_shuts_the_mount(rt: HostRuntime) {
    assert_eq!(rt;
        plays_again(&rt, rt.alloc(), PIECE_FAILS, LOG_FAILS),
        Ok(true)
    );
}

/// All pieces are taken, and the sync fails.
#[test]
fn a_sync_that_fails_shuts_the_mount(rt: HostRuntime) {
    assert_eq!(rt;
        plays_again(&rt, rt.alloc(), SYNC_FAILS, LOG_FAILS),
        Ok(true)
    );
}

/// Block 7 is changed and flies; it is changed again in the flight, which lands; a flush finds it committed anew, and waits for
/// the second flight. Then it is written home, and the devices come back.
const LANDS: &[(Deed, Told)] = &[
    (Deed::Home(7), Told::Bytes(0, 0)),
    (Deed::Mount, Told::Life(1)),
    (Deed::Home(7), Told::Missing),
    (Deed::Alloc(176), Told::Trans(1)),
    (Deed::Read { trans: 1, block: 7 }, Told::Okay),
    (
        Deed::Log {
            trans: 1,
            block: 7,
            first: 0,
            byte: 0x11,
        },
        Told::Okay,
    ),
    (Deed::Commit(1), Told::Committed(1)),
    (Deed::Force, Told::Wait(1)),
    (
        Deed::Begin,
        Told::Begun {
            number: 1,
            pieces: 1,
        },
    ),
    (Deed::Alloc(176), Told::Trans(2)),
    (Deed::Get { trans: 2, block: 7 }, Told::Okay),
    (
        Deed::Log {
            trans: 2,
            block: 7,
            first: 128,
            byte: 0x22,
        },
        Told::Okay,
    ),
    (Deed::Commit(2), Told::Committed(2)),
    (Deed::Unmount, Told::Refused(Errno::Busy)),
    (Deed::End, Told::Landed(1)),
    (Deed::Push, Told::Okay),
    (Deed::Flush, Told::Nothing),
    (Deed::Force, Told::Wait(2)),
    (
        Deed::Begin,
        Told::Begun {
            number: 2,
            pieces: 1,
        },
    ),
    (Deed::End, Told::Landed(2)),
    (Deed::Push, Told::Okay),
    (Deed::Flush, Told::Flushed(1)),
    (Deed::Unmount, Told::Okay),
    (Deed::Home(7), Told::Bytes(0x11, 0x22)),
    (
        Deed::Peek,
        Told::Shown {
            life: 1,
            shut: None,
        },
    ),
    (Deed::Unmount, Told::Refused(Errno::NoDevice)),
    (Deed::Mount, Told::Life(2)),
    (
        Deed::Peek,
        Told::Shown {
            life: 2,
            shut: None,
        },
    ),
];

/// No device fails.
#[test]
fn a_flight_lands_and_is_written_home(rt: HostRuntime) {
    assert_eq!(rt; plays_again(&rt, rt.alloc(), GOOD, LANDS), Ok(true));
}

/// The same over a home device that takes no memory. Run it with each allocation failing in turn: each deed that is refused
/// memory leaves the book as it was, and the same deed again is told what it would have been told.
#[test]
fn a_refused_deed_is_done_again(rt: HostRuntime) {
    assert_eq!(rt; plays_again(&rt, rt.alloc(), STEADY, LANDS), Ok(true));
}

/// Block 7 is changed, flies, lands and is written home, and the book is folded on the way: below its limit it stays, at its limit its
/// entries go into the base, and what comes after is told as without folds.
const FOLDED: &[(Deed, Told)] = &[
    (Deed::Mount, Told::Life(1)),
    (Deed::Alloc(176), Told::Trans(1)),
    (Deed::Read { trans: 1, block: 7 }, Told::Okay),
    (Deed::Fold, Told::Okay),
    (
        Deed::Log {
            trans: 1,
            block: 7,
            first: 0,
            byte: 0x11,
        },
        Told::Okay,
    ),
    (Deed::Fold, Told::Okay),
    (Deed::Commit(1), Told::Committed(1)),
    (Deed::Force, Told::Wait(1)),
    (
        Deed::Begin,
        Told::Begun {
            number: 1,
            pieces: 1,
        },
    ),
    (Deed::Fold, Told::Okay),
    (Deed::End, Told::Landed(1)),
    (Deed::Push, Told::Okay),
    (Deed::Fold, Told::Okay),
    (Deed::Flush, Told::Flushed(1)),
    (Deed::Fold, Told::Okay),
    (Deed::Unmount, Told::Okay),
    (Deed::Home(7), Told::Bytes(0x11, 0)),
    (
        Deed::Count,
        Told::Counted {
            receipts: 11,
            last: Some(12),
        },
    ),
];

/// How many entries are folded, and how many are left, where the slot is closed after so many deeds of the table.
const FOLDS: &[(usize, u64, usize)] = &[(4, 0, 3), (6, 4, 0), (13, 8, 3), (15, 12, 0), (18, 12, 1)];

/// The same, as it is.
fn folded_after<R: Abort + Wait>(
    rt: &R,
    alloc: Global,
    deeds: usize,
) -> Result<(u64, usize), AllocError> {
    let first = &FOLDED[..deeds.min(FOLDED.len())];
    let ended = plays(rt, alloc, STEADY, first)?;
    Ok((ended.account.folded(), ended.account.entries().len()))
}

/// A book is folded, and each receipt that is not older than its base is of an entry. Run it with each allocation failing in turn: a
/// fold that is refused memory leaves the book as it was.
#[test]
fn a_book_is_folded(rt: HostRuntime) -> Result<(), AllocError> {
    for (deeds, folded, entries) in FOLDS {
        let told = folded_after(&rt, rt.alloc(), *deeds)?;
        assert_eq!(rt; told, (*folded, *entries));
    }
    let ended = plays(&rt, rt.alloc(), STEADY, FOLDED)?;
    assert!(rt; ended.has_receipts && ended.account.count() == 11);
    Ok(())
}

/// All of block 7 is changed, so that the text of its checkpoint has two pieces.
const TWO_PIECES: &[(Deed, Told)] = &[
    (Deed::Mount, Told::Life(1)),
    (Deed::Alloc(4144), Told::Trans(1)),
    (Deed::Read { trans: 1, block: 7 }, Told::Okay),
    (
        Deed::Fill {
            trans: 1,
            block: 7,
            byte: 0x11,
        },
        Told::Okay,
    ),
    (Deed::Commit(1), Told::Committed(1)),
    (Deed::Force, Told::Wait(1)),
    (
        Deed::Begin,
        Told::Begun {
            number: 1,
            pieces: 2,
        },
    ),
];

/// What the log device answered to the checkpoint of a table of which the last deed ends it.
fn answers_to_job<R: Abort + Wait>(
    rt: &R,
    alloc: Global,
    faults: Faults,
    end: Told,
) -> Result<Option<LogAnswers>, AllocError>
    requires home { 0 < faults.home_at }
    requires log { 0 < faults.log_at }
{
    let mut table = Vec::new(alloc);
    for row in TWO_PIECES {
        table.push(*row)?;
    }
    table.push((Deed::End, end))?;
    let ended = plays(rt, alloc, faults, table.as_slice())?;
    for entry in ended.account.entries() {
        if let Step::End { answers, .. } = entry.step.get() {
            return Ok(Some(*answers));
        }
    }
    Ok(None)
}

/// All pieces are taken, and the sync is answered.
#[test]
fn a_job_is_written(rt: HostRuntime) {
    let wanted = LogAnswers {
        taken: 2,
        sync: Some(true),
    };
    let told = answers_to_job(&rt, rt.alloc(), GOOD, Told::Landed(1));
    assert_eq!(rt; told, Ok(Some(wanted)));
}

/// The second piece fails: one was taken, and there is no sync.
#[test]
fn a_job_stops_at_the_first_failure(rt: HostRuntime) {
    let wanted = LogAnswers {
        taken: 1,
        sync: None,
    };
    let told = answers_to_job(&rt, rt.alloc(), SECOND_FAILS, Told::Failed(1));
    assert_eq!(rt; told, Ok(Some(wanted)));
}

/// A block is read, and a read that fails is an answer too.
const ASKED: &[(Deed, Told)] = &[
    (Deed::Mount, Told::Life(1)),
    (Deed::Alloc(176), Told::Trans(1)),
    (Deed::Read { trans: 1, block: 7 }, Told::Refused(Errno::Io)),
    (Deed::Read { trans: 1, block: 7 }, Told::Okay),
    (Deed::View { trans: 1, block: 7 }, Told::Data(7)),
];

/// Whether a step is a read of a block that failed, or of one that begins with a byte.
fn is_answered(step: &Step, first: Option<u8>) -> bool {
    match (step, first) {
        (
            Step::Call {
                answer: Answer::Failed,
                ..
            },
            None,
        ) => true,
        (
            Step::Call {
                answer: Answer::Content(content),
                ..
            },
            Some(first),
        ) => content.bytes()[0] == first,
        _ => false,
    }
}

/// The device fails its first call. The book has what it answered to both reads.
#[test]
fn a_block_is_asked_for(rt: HostRuntime) -> Result<(), AllocError> {
    let ended = plays(&rt, rt.alloc(), READ_FAILS, ASKED)?;
    let [_, _, failed, read, _] = ended.account.entries() else {
        return Ok(assert!(rt; false, "five events"));
    };
    assert!(rt; is_answered(failed.step.get(), None));
    assert!(rt; is_answered(read.step.get(), Some(7)));
    Ok(())
}

/// Devices that do not fail; block 7 of the home device has sevens, 4,096 of them.
const SEVENS: Faults = Faults {
    keeper: Keeper::Sevens,
    home_at: NEVER,
    log_at: NEVER,
};

/// Blocks of 512 bytes. A device in memory has nothing of that length at block 7, so it is read as zeros. Then the slot is mounted
/// anew over the same devices, with blocks of 4,096.
const SMALL_BLOCKS: &[(Deed, Told)] = &[
    (Deed::MountSized(600), Told::Refused(Errno::Invalid)),
    (Deed::MountSized(512), Told::Life(1)),
    (Deed::Alloc(708), Told::Trans(1)),
    (Deed::Read { trans: 1, block: 7 }, Told::Okay),
    (Deed::View { trans: 1, block: 7 }, Told::Data(0)),
    (
        Deed::Log {
            trans: 1,
            block: 7,
            first: 512,
            byte: 0x11,
        },
        Told::Refused(Errno::Invalid),
    ),
    (
        Deed::Log {
            trans: 1,
            block: 7,
            first: 128,
            byte: 0x11,
        },
        Told::Okay,
    ),
    (Deed::Get { trans: 1, block: 8 }, Told::Okay),
    (
        Deed::Fill {
            trans: 1,
            block: 8,
            byte: 0x22,
        },
        Told::Refused(Errno::Invalid),
    ),
    (
        Deed::FillSmall {
            trans: 1,
            block: 8,
            byte: 0x22,
        },
        Told::Okay,
    ),
    (Deed::Commit(1), Told::Committed(1)),
    (Deed::Force, Told::Wait(1)),
    (
        Deed::Begin,
        Told::Begun {
            number: 1,
            pieces: 1,
        },
    ),
    (Deed::End, Told::Landed(1)),
    (Deed::Push, Told::Okay),
    (Deed::Flush, Told::Flushed(2)),
    (Deed::Unmount, Told::Okay),
    (Deed::HomeSmall(7), Told::Bytes(0, 0x11)),
    (Deed::HomeSmall(8), Told::Bytes(0x22, 0x22)),
    (Deed::Mount, Told::Life(2)),
    (Deed::Alloc(176), Told::Trans(1)),
    (Deed::Read { trans: 1, block: 8 }, Told::Okay),
    (Deed::View { trans: 1, block: 8 }, Told::Data(0)),
];

/// A slot has small blocks, and then others. The book leads the host core to the same state.
#[test]
fn blocks_are_small(rt: HostRuntime) {
    let is_so = plays_again(&rt, rt.alloc(), SEVENS, SMALL_BLOCKS);
    assert_eq!(rt; is_so, Ok(true));
}
