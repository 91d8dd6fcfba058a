//! Jobs that are not the flight's: of another name, or of other pieces.

ghost use Rattle.std.specs.Prelude.{◌≡◌, ◌-◌, ◌^◌};
ghost use Rattle.xt_cell.specs.Ledgers.{AreCut, AreNamed};

use crate::tests::bench::Bench;
use crate::tests::deeds::{Deed, Faults, Told};
use crate::tests::playing::bench;
use crate::tests::replay::Ended;
use crate::tests::two_bytes::Keeper;
use std::alloc::{AllocError, Global};
use std::marker::Brand;
use std::process::Abort;
use std::rt::HostRuntime;
use std::sync::Wait;
use xt_base::steps::Errno;
use xt_cell::{Blanks, House};

/// Devices that do not fail, also where memory is refused.
const STEADY: Faults = Faults {
    keeper: Keeper::TwoBytes,
    home_at: u64::MAX,
    log_at: u64::MAX,
};

/// A life begins, with a flush for its first job.
const NEW: &[(Deed, Told)] = &[
    (Deed::Mount, Told::Life(1)),
    (Deed::Push, Told::Okay),
    (Deed::Flush, Told::Nothing),
];

/// A life begins.
const PLAIN: &[(Deed, Told)] = &[(Deed::Mount, Told::Life(1))];

/// A second life begins, with a flush for its first job.
const LATER: &[(Deed, Told)] = &[
    (Deed::Mount, Told::Life(1)),
    (Deed::Unmount, Told::Okay),
    (Deed::Mount, Told::Life(2)),
    (Deed::Push, Told::Okay),
    (Deed::Flush, Told::Nothing),
];

/// Block 7 is changed, and its checkpoint flies.
const ONES: &[(Deed, Told)] = &[
    (Deed::Alloc(176), Told::Trans(1)),
    (Deed::Read { trans: 1, block: 7 }, Told::Okay),
    (
        Deed::Log {
            trans: 1,
            block: 7,
            first: 0,
            byte: 0x11,
        },
        Told::Okay,
    ),
    (Deed::Commit(1), Told::Committed(1)),
    (Deed::Force, Told::Wait(1)),
    (
        Deed::Begin,
        Told::Begun {
            number: 1,
            pieces: 1,
        },
    ),
];

/// The same with another byte.
const THREES: &[(Deed, Told)] = &[
    (Deed::Alloc(176), Told::Trans(1)),
    (Deed::Read { trans: 1, block: 7 }, Told::Okay),
    (
        Deed::Log {
            trans: 1,
            block: 7,
            first: 0,
            byte: 0x33,
        },
        Told::Okay,
    ),
    (Deed::Commit(1), Told::Committed(1)),
    (Deed::Force, Told::Wait(1)),
    (
        Deed::Begin,
        Told::Begun {
            number: 1,
            pieces: 1,
        },
    ),
];

/// The first flight ends.
const LANDED: &[(Deed, Told)] = &[(Deed::End, Told::Landed(1))];

/// The second flight: 19 entries so far, of which 3 are posts.
const SECOND: &[(Deed, Told)] = &[
    (Deed::Alloc(176), Told::Trans(2)),
    (Deed::Read { trans: 2, block: 8 }, Told::Okay),
    (
        Deed::Log {
            trans: 2,
            block: 8,
            first: 0,
            byte: 0x22,
        },
        Told::Okay,
    ),
    (Deed::Commit(2), Told::Committed(2)),
    (Deed::Force, Told::Wait(2)),
    (
        Deed::Begin,
        Told::Begun {
            number: 2,
            pieces: 1,
        },
    ),
    (
        Deed::Count,
        Told::Counted {
            receipts: 16,
            last: Some(18),
        },
    ),
];

/// It ends, with the next entry.
const LAST: &[(Deed, Told)] = &[
    (Deed::End, Told::Landed(2)),
    (
        Deed::Count,
        Told::Counted {
            receipts: 17,
            last: Some(19),
        },
    ),
];

/// A cell with its flight, and a job of another cell that is given to it: what the cell does before, and after, and what the other
/// does before its job is run.
struct Scene {
    before: &'static [&'static [(Deed, Told)]],
    other: &'static [&'static [(Deed, Told)]],
    after: &'static [&'static [(Deed, Told)]],
}

/// A job of the name of the first flight, with another piece.
const OF_OTHER_PIECES: &[&[(Deed, Told)]] = &[NEW, THREES];

/// A job of an earlier serial, with the first flight's pieces.
const OF_OTHER_SERIAL: &[&[(Deed, Told)]] = &[PLAIN, ONES];

/// A job of a later life, with the first flight's pieces.
const OF_OTHER_LIFE: &[&[(Deed, Told)]] = &[LATER, ONES];

/// Before the first flight, in it, after it landed, and in the second.
const SCENES: &[Scene] = &[
    Scene {
        before: &[NEW],
        other: OF_OTHER_PIECES,
        after: &[ONES, LANDED],
    },
    Scene {
        before: &[NEW, ONES],
        other: OF_OTHER_PIECES,
        after: &[LANDED],
    },
    Scene {
        before: &[NEW, ONES],
        other: OF_OTHER_SERIAL,
        after: &[LANDED],
    },
    Scene {
        before: &[NEW, ONES],
        other: OF_OTHER_LIFE,
        after: &[LANDED],
    },
    Scene {
        before: &[NEW, ONES, LANDED],
        other: OF_OTHER_PIECES,
        after: &[SECOND, LAST],
    },
    Scene {
        before: &[NEW, ONES, LANDED, SECOND],
        other: OF_OTHER_PIECES,
        after: &[LAST],
    },
];

/// Does all deeds of some tables.
fn act_each<H: House, R: Abort + Wait>(
    rt: &R,
    cell: &mut Bench<H>,
    tables: &[&'static [(Deed, Told)]],
) {
    for table in tables {
        cell.act_all(rt, *table);
    }
}

/// The other cell's job comes back from the cell, which books nothing; its own cell takes it.
fn meet<H: House, G: House, R: Abort + Wait>(
    rt: &R,
    alloc: Global,
    blanks: Blanks,
    others: Blanks,
    scene: &Scene,
) -> Result<Ended, AllocError>
    requires names { AreNamed H.names blanks }
    requires parts { AreCut H.all blanks }
    requires all { H.all ≡ 2 ^ 64 - 1 }
    requires other_names { AreNamed G.names others }
    requires other_parts { AreCut G.all others }
    requires other_all { G.all ≡ 2 ^ 64 - 1 }
{
    let mut cell = bench::<H>(alloc, blanks, STEADY)?;
    act_each(rt, &mut cell, scene.before);
    let Ok(mut other) = bench::<G>(alloc, others, STEADY) else {
        panic!(rt; "memory");
    };
    act_each(rt, &mut other, scene.other);
    let done = other.take_job(rt);
    let back = cell.hands_back(rt, done);
    other.put_job(rt, back);
    other.act_all(rt, LANDED);
    let _ended = other.close(rt);
    act_each(rt, &mut cell, scene.after);
    Ok(cell.close(rt))
}

/// The same over new ledgers: whether the host core, run on the book, gives its replies.
fn meets<R: Abort + Wait>(
    rt: &R,
    alloc: Global,
    blanks: Blanks,
    others: Blanks,
    scene: &Scene,
) -> Result<bool, Errno>
    requires parts { AreCut (2 ^ 64 - 1) blanks }
    requires other_parts { AreCut (2 ^ 64 - 1) others }
{
    let Ok(ended) = meet::<Brand, Brand, R>(rt, alloc, blanks, others, scene) else {
        return Err(Errno::NoMemory);
    };
    Ok(ended.is_replayed(alloc)? && ended.has_receipts)
}

/// A stranger comes back and books nothing; then the right job ends.
#[test]
fn a_job_of_another_flight_comes_back(rt: HostRuntime) {
    for scene in SCENES {
        let told = meets(&rt, rt.alloc(), Blanks::new(), Blanks::new(), scene);
        assert_eq!(rt; told, Ok(true));
    }
}
