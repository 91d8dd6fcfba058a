//! Each device through its happy path, `FailAt` through each of its calls, and what is offered.
//!
//! A test function is proved too, at a cost that grows with the square of its length. So calls stand
//! in constants, with the answers that are expected: one function plays those of a log, another those of a home device.

ghost use Rattle.std.specs.Prelude.{◌≡◌, ◌≤◌, ◌<◌, [], false, length, is_ok};
ghost use Rattle.xt_dev.specs.Devices.{failures_after};

mod files;
mod gates;
mod sealed;

use bytes::Bytes;
use std::alloc::Global;
use xt_base::names::Block;
use xt_base::steps::{HomeAnswers, HomeOffer, LogAnswers, LogOffer};
use xt_dev::LogCut;
use xt_dev::call::HomeCall;
use xt_dev::fail_at::FailAt;
use xt_dev::fault::DevFault;
use xt_dev::home::HomeDevice;
use xt_dev::log::LogDevice;
use xt_dev::mem_home::MemHome;
use xt_dev::mem_log::MemLog;
use xt_dev::offer::offer;
use xt_dev::offer_home::offer_home;

/// A call of a log device as a test writes it: the piece, or None for a sync, and the answer.
type LogCall = (Option<&'static [u8]>, bool);

const AB: Option<&[u8]> = Some(b"ab");

const CDE: Option<&[u8]> = Some(b"cde");

const EMPTY: Option<&[u8]> = Some(b"");

const SYNC: Option<&[u8]> = None;

fn is_offer(offer: &LogOffer, piece: Option<&[u8]>, answered: bool) -> bool {
    match (offer, piece) {
        (LogOffer::Piece { bytes, ok }, Some(piece)) => bytes.holds(piece) && *ok == answered,
        (LogOffer::Sync { ok }, None) => *ok == answered,
        _ => false,
    }
}

/// Whether a log tells just these calls.
fn log_tells(told: Option<&[LogOffer]>, calls: &[LogCall]) -> bool {
    let Some(offers) = told else {
        return false;
    };
    for (offer, (piece, answered)) in offers.iter().zip(calls) {
        if !is_offer(offer, *piece, *answered) {
            return false;
        }
    }
    offers.len() == calls.len()
}

/// A call of a home device as a test writes it: the block, of 4,096 bytes or a small one of 512, the byte that
/// its content has all over, and the answer.
#[derive(Clone, Copy, PartialEq)]
enum Told {
    Read(u64, Option<u8>),
    Unread(u64),
    Write(u64, Option<u8>, bool),
    SmallRead(u64, Option<u8>),
    SmallUnread(u64),
    SmallWrite(u64, Option<u8>, bool),
    Sync(bool),
}

/// The byte that a content has all over.
fn even_byte(content: &[u8]) -> Option<u8> {
    let first = *content.first()?;
    for byte in content {
        if *byte != first {
            return None;
        }
    }
    Some(first)
}

/// A read as a test writes it.
fn plain_read(block: u64, content: &[u8]) -> Told {
    let byte = even_byte(content);
    match content.len() {
        512 => Told::SmallRead(block, byte),
        _ => Told::Read(block, byte),
    }
}

/// A write as a test writes it.
fn plain_write(block: u64, content: &[u8], ok: bool) -> Told {
    let byte = even_byte(content);
    match content.len() {
        512 => Told::SmallWrite(block, byte, ok),
        _ => Told::Write(block, byte, ok),
    }
}

/// A call as a test writes it.
fn plain(call: &HomeCall) -> Told {
    match call {
        HomeCall::Read {
            block,
            content: Some(content),
        } => plain_read(block.0, content.bytes()),
        HomeCall::Read { block, .. } => Told::Unread(block.0),
        HomeCall::Offer(HomeOffer::Write { block, content, ok }) => {
            plain_write(block.0, content.bytes(), *ok)
        }
        HomeCall::Offer(HomeOffer::Sync { ok }) => Told::Sync(*ok),
    }
}

/// Whether a home device tells just these calls.
fn home_tells(taken: Option<&[HomeCall]>, calls: &[Told]) -> bool {
    let Some(taken) = taken else {
        return false;
    };
    for (call, want) in taken.iter().zip(calls) {
        if plain(call) != *want {
            return false;
        }
    }
    taken.len() == calls.len()
}

/// How many calls a device tells.
fn count<C>(taken: Option<&[C]>) -> Option<usize> {
    Some(taken?.len())
}

/// A device that answers Ok, keeps nothing and tells nothing.
#[derive(Drop)]
struct Deaf;

impl LogDevice for Deaf {
    ghost log_tells = { λ _. false };

    ghost log_taken = { λ _. [] };

    ghost log_failures = { λ _. 0 };

    fn append(&mut self, _piece: &[u8]) -> Result<(), DevFault> {
        Ok(())
    }

    fn sync(&mut self) -> Result<(), DevFault> {
        Ok(())
    }
}

impl HomeDevice for Deaf {
    ghost home_tells = { λ _. false };

    ghost home_taken = { λ _. [] };

    ghost home_failures = { λ _. 0 };

    fn read(&mut self, _block: Block, _into: &mut [u8]) -> Result<(), DevFault> {
        Ok(())
    }

    fn write(&mut self, _block: Block, _content: &[u8]) -> Result<(), DevFault> {
        Ok(())
    }

    fn sync(&mut self) -> Result<(), DevFault> {
        Ok(())
    }
}

/// Appends through the bound.
fn append_through<L: LogDevice>(log: &mut L, piece: &[u8]) -> Result<(), DevFault>
    requires { length piece.now ≤ 4096 }
    ensures { L.log_failures log.new ≡ failures_after (is_ok result) (L.log_failures log.old) }
{
    log.append(piece)
}

/// Whether a log answers these calls so, one after another.
fn log_answers<L: LogDevice>(log: &mut L, calls: &[LogCall]) -> bool {
    for (piece, answered) in calls {
        let is_taken = match piece {
            Some(piece) => piece.len() <= 4096 && append_through(log, piece).is_ok(),
            None => log.sync().is_ok(),
        };
        if is_taken != *answered {
            return false;
        }
    }
    true
}

/// The read of a block, with the answer.
fn read_of<H: HomeDevice>(home: &mut H, block: u64) -> Told {
    let mut content = [0xff; 4096];
    match home.read(Block(block), &mut content) {
        Ok(()) => Told::Read(block, even_byte(&content)),
        Err(_) => Told::Unread(block),
    }
}

/// Writes a block full of one byte, and whether that is answered Ok.
fn is_written<H: HomeDevice>(home: &mut H, block: u64, byte: u8) -> bool {
    let content = [byte; 4096];
    home.write(Block(block), &content).is_ok()
}

/// The read of a small block, with the answer.
fn small_read_of<H: HomeDevice>(home: &mut H, block: u64) -> Told {
    let mut content = [0xff; 512];
    match home.read(Block(block), &mut content) {
        Ok(()) => Told::SmallRead(block, even_byte(&content)),
        Err(_) => Told::SmallUnread(block),
    }
}

/// Writes a small block full of one byte, and whether that is answered Ok.
fn is_small_written<H: HomeDevice>(home: &mut H, block: u64, byte: u8) -> bool {
    let content = [byte; 512];
    home.write(Block(block), &content).is_ok()
}

/// The same call of a small block, or a sync, with the answer that a home device gives to it.
fn small_answered<H: HomeDevice>(home: &mut H, call: Told) -> Told {
    match call {
        Told::SmallWrite(block, Some(byte), _) => {
            Told::SmallWrite(block, Some(byte), is_small_written(home, block, byte))
        }
        Told::SmallRead(block, _) | Told::SmallUnread(block) => small_read_of(home, block),
        _ => Told::Sync(home.sync().is_ok()),
    }
}

/// The same call, with the answer that a home device gives to it. A write of no byte is none.
fn answered<H: HomeDevice>(home: &mut H, call: Told) -> Told {
    match call {
        Told::Read(block, _) | Told::Unread(block) => read_of(home, block),
        Told::Write(block, Some(byte), _) => {
            Told::Write(block, Some(byte), is_written(home, block, byte))
        }
        Told::Write(block, None, _) => Told::Unread(block),
        small => small_answered(home, small),
    }
}

/// Whether a home device answers these calls so, one after another.
fn home_answers<H: HomeDevice>(home: &mut H, calls: &[Told]) -> bool {
    for call in calls {
        if answered(home, *call) != *call {
            return false;
        }
    }
    true
}

#[test]
fn log_in_memory(rt: HostRuntime) {
    const CALLS: &[LogCall] = &[(AB, true), (SYNC, true), (EMPTY, true)];
    let mut log = MemLog::new(rt.alloc());
    assert!(rt; log_answers(&mut log, CALLS) && log_tells(log.taken(), CALLS));
}

#[test]
fn cut_is_told_and_handed_on(rt: HostRuntime) {
    const CALLS: &[LogCall] = &[(AB, true), (SYNC, true)];
    const BEHIND: &[LogCall] = &[(CDE, true)];
    const CUTS: &[LogCut] = &[LogCut { size: 7, behind: 2 }, LogCut { size: 9, behind: 3 }];
    let alloc = rt.alloc();
    let mut log = FailAt::over_log(alloc, MemLog::new(alloc), 9);
    assert!(rt; log_answers(&mut log, CALLS));
    log.cut(7);
    assert!(rt; log_answers(&mut log, BEHIND));
    log.cut(9);
    assert!(rt; log.device.cuts() == CUTS && log.left == 6 && count(log.taken()) == Some(3));
}

#[test]
fn home_in_memory(rt: HostRuntime) {
    const CALLS: &[Told] = &[
        Told::Read(7, Some(0)),
        Told::Write(7, Some(3), true),
        Told::Write(u64::MAX, Some(4), true),
        Told::Write(7, Some(5), true),
        Told::Sync(true),
        Told::Read(7, Some(5)),
        Told::Read(u64::MAX, Some(4)),
    ];
    let mut home = MemHome::new(rt.alloc());
    assert!(rt; home_answers(&mut home, CALLS) && home_tells(home.taken(), CALLS));
}

/// A block is read as it was written with that length, and else as zeros; the last write is what counts.
#[test]
fn small_blocks_in_memory(rt: HostRuntime) {
    const CALLS: &[Told] = &[
        Told::SmallWrite(7, Some(3), true),
        Told::SmallRead(7, Some(3)),
        Told::SmallRead(8, Some(0)),
        Told::Read(7, Some(0)),
        Told::Write(7, Some(5), true),
        Told::Read(7, Some(5)),
        Told::SmallRead(7, Some(0)),
    ];
    let mut home = MemHome::new(rt.alloc());
    assert!(rt; home_answers(&mut home, CALLS) && home_tells(home.taken(), CALLS));
}

/// Offers two pieces.
fn offer_two(log: &mut dyn LogDevice) -> LogAnswers {
    offer(
        log,
        &[Bytes::from_static(b"ab"), Bytes::from_static(b"cde")],
    )
}

const ALL_TAKEN: LogAnswers = LogAnswers {
    taken: 2,
    sync: Some(true),
};

const TAKEN: &[LogCall] = &[(AB, true), (CDE, true), (SYNC, true)];

/// Of each call that fails, 1, 2, 3 or none: how many pieces a log takes of two and what it answers to the sync, what it tells, and
/// what it answers to them later.
type LogFault = (
    u32,
    (u32, Option<bool>),
    &'static [LogCall],
    (u32, Option<bool>),
);

const LOG_FAULTS: &[LogFault] = &[
    (1, (0, None), &[(AB, false)], (2, Some(true))),
    (2, (1, None), &[(AB, true), (CDE, false)], (2, Some(true))),
    (
        3,
        (2, Some(false)),
        &[(AB, true), (CDE, true), (SYNC, false)],
        (2, Some(true)),
    ),
    (4, (2, Some(true)), TAKEN, (0, None)),
];

/// Whether two pieces are taken so.
fn takes_two(log: &mut FailAt<MemLog, LogOffer>, (taken, sync): (u32, Option<bool>)) -> bool {
    offer_two(log) == LogAnswers { taken, sync }
}

/// Two pieces are offered to a log that fails one call: whether it takes and tells them so, and takes them so later.
fn log_fails(
    alloc: Global,
    at: u32,
    first: (u32, Option<bool>),
    calls: &[LogCall],
    later: (u32, Option<bool>),
) -> bool {
    if at == 0 {
        return false;
    }
    let mut log = FailAt::over_log(alloc, MemLog::new(alloc), u64::from(at));
    takes_two(&mut log, first)
        && log_tells(log.taken(), calls)
        && count(log.device.taken()) == Some(at as usize - 1)
        && takes_two(&mut log, later)
}

#[test]
fn log_fails_at_each_call(rt: HostRuntime) {
    for (at, first, calls, later) in LOG_FAULTS {
        assert!(rt;
            log_fails(rt.alloc(), *at, *first, calls, *later),
            "call {at}"
        );
    }
}

/// Whether two writes were answered so, and then the sync.
fn answers(answers: &HomeAnswers, first: bool, second: bool, sync: bool) -> bool {
    answers.count == 2 && answers.writes[..2] == [first, second] && answers.sync == sync
}

/// Two writes are offered to a home device that fails one call: whether each other one is answered Ok.
fn home_fails(alloc: Global, at: u64) -> bool
    requires at { 0 < at }
{
    let (first, second, sync) = (at != 1, at != 2, at != 3);
    let calls = [
        Told::Write(7, Some(7), first),
        Told::Write(9, Some(9), second),
        Told::Sync(sync),
    ];
    let mut home = FailAt::over_home(alloc, MemHome::new(alloc), at);
    let offered = offer_home(&mut home, &[(Block(7), &[7; 4096]), (Block(9), &[9; 4096])]);
    let kept = Told::Read(7, Some(if first { 7 } else { 0 }));
    answers(&offered, first, second, sync)
        && home_tells(home.taken(), &calls)
        && read_of(&mut home.device, 7) == kept
}

/// The call 1, 2, 3 or none fails.
#[test]
fn home_fails_at_each_call(rt: HostRuntime) {
    for at in 1..5 {
        assert!(rt; home_fails(rt.alloc(), at), "call {at}");
    }
}

#[test]
fn read_fails_once(rt: HostRuntime) {
    const CALLS: &[Told] = &[Told::Unread(7), Told::Read(7, Some(0))];
    let alloc = rt.alloc();
    let mut home = FailAt::over_home(alloc, MemHome::new(alloc), 1);
    assert!(rt; home_answers(&mut home, CALLS) && home_tells(home.taken(), CALLS));
}

/// Nothing is allocated here: run it with the first allocation failing.
#[test]
fn offers_take_no_memory(rt: HostRuntime) {
    let pieces = [Bytes::from_static(b"ab"), Bytes::from_static(b"cde")];
    assert!(rt; offer(&mut Deaf, &pieces) == ALL_TAKEN);
    let zeros = [0; 4096];
    let offered = offer_home(&mut Deaf, &[(Block(7), &zeros), (Block(7), &zeros)]);
    assert!(rt; answers(&offered, true, true, true));
}

const NONE_OFFERED: LogAnswers = LogAnswers {
    taken: 0,
    sync: Some(true),
};

#[test]
fn nothing_to_offer(rt: HostRuntime) {
    let mut log = MemLog::new(rt.alloc());
    assert!(rt; offer(&mut log, &[]) == NONE_OFFERED && log_tells(log.taken(), &[(SYNC, true)]));
    let mut home = MemHome::new(rt.alloc());
    assert!(rt; offer_home(&mut home, &[]).count == 0 && home_tells(home.taken(), &[]));
}

/// Whichever growth is refused, a log answers as before, and what it still tells is all there.
#[test]
fn log_without_memory(rt: HostRuntime) {
    let mut log = MemLog::new(rt.alloc());
    assert!(rt; log_answers(&mut log, TAKEN));
    assert!(rt; log.taken().is_none() || log_tells(log.taken(), TAKEN));
}

/// A write either failed and is not there, or is there whole.
fn is_kept_or_not(home: &mut MemHome, block: u64, byte: u8) -> bool {
    let there = if is_written(home, block, byte) {
        byte
    } else {
        0
    };
    read_of(home, block) == Told::Read(block, Some(there))
}

/// Whichever growth is refused, what a home device still tells is all there.
#[test]
fn home_without_memory(rt: HostRuntime) {
    let mut home = MemHome::new(rt.alloc());
    let is_kept = is_kept_or_not(&mut home, 7, 7) && is_kept_or_not(&mut home, 9, 9);
    assert!(rt; is_kept && home.sync().is_ok());
    assert!(rt; matches!(count(home.taken()), None | Some(5)));
}

/// Makes so many calls, each sixth a sync and the others appends of their numbers: whether just the one at this place fails.
fn fails_just<L: LogDevice>(log: &mut L, calls: u64, fault: u64) -> bool {
    for n in 0..calls {
        let is_taken = if n % 6 == 5 {
            log.sync().is_ok()
        } else {
            append_through(log, &n.to_be_bytes()).is_ok()
        };
        if is_taken == (n == fault) {
            return false;
        }
    }
    true
}

/// Whether these are such calls, of which none failed.
fn are_many(offers: &[LogOffer]) -> bool {
    for (i, offer) in offers.iter().enumerate() {
        let n = (i as u64).to_be_bytes();
        let piece = if i % 6 == 5 { None } else { Some(n.as_slice()) };
        if !is_offer(offer, piece, true) {
            return false;
        }
    }
    true
}

/// A log tells thousands of calls, all in their order.
#[test]
fn log_over_many_calls(rt: HostRuntime) {
    let mut log = MemLog::new(rt.alloc());
    assert!(rt; fails_just(&mut log, 6000, u64::MAX) && count(log.taken()) == Some(6000));
    assert!(rt; are_many(log.taken().unwrap_or(&[])));
}

/// A log that fails its call 3,000 takes the 2,999 before it and the 1,000 after it.
#[test]
fn log_fails_at_a_late_call(rt: HostRuntime) {
    let alloc = rt.alloc();
    let mut log = FailAt::over_log(alloc, MemLog::new(alloc), 3000);
    assert!(rt; fails_just(&mut log, 4000, 2999) && count(log.taken()) == Some(4000));
    assert!(rt; count(log.device.taken()) == Some(3999));
}

/// The last block that a mount may have.
const LAST: u64 = 1_099_511_627_775;

/// Whether a home device writes a thousand blocks down from the last, each with a byte that tells it from those near it, or reads
/// them so.
fn answers_many(home: &mut MemHome, byte: u8, is_write: bool) -> bool
    requires byte { byte ≤ 2 }
{
    for n in 0..1000u64 {
        let (block, byte) = (LAST - n, Some(byte + (n % 250) as u8));
        let call = if is_write {
            Told::Write(block, byte, true)
        } else {
            Told::Read(block, byte)
        };
        if answered(home, call) != call {
            return false;
        }
    }
    true
}

/// What stands at some places of the calls of such a device.
const PLACES: &[(usize, Told)] = &[
    (0, Told::Write(LAST, Some(1), true)),
    (1999, Told::Write(LAST - 999, Some(251), true)),
    (2000, Told::Read(LAST, Some(2))),
];

/// Whether calls are 3,002, with these at their places.
fn have_places(calls: &[HomeCall]) -> bool {
    for (place, want) in PLACES {
        match calls.get(*place) {
            Some(call) if plain(call) == *want => {}
            _ => return false,
        }
    }
    calls.len() == 3002
}

/// A home device keeps a thousand blocks up to the last that a mount may have, each written twice, and tells all calls.
#[test]
fn home_over_many_calls(rt: HostRuntime) {
    const OTHERS: &[Told] = &[
        Told::Read(LAST - 1000, Some(0)),
        Told::Read(LAST + 1, Some(0)),
    ];
    let mut home = MemHome::new(rt.alloc());
    assert!(rt; answers_many(&mut home, 1, true) && answers_many(&mut home, 2, true));
    assert!(rt; answers_many(&mut home, 2, false) && home_answers(&mut home, OTHERS));
    assert!(rt; have_places(home.taken().unwrap_or(&[])));
}
