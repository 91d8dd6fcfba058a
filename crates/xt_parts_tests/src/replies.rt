//! Replies and offers as they are printed, and a buffer that is full.

use std::alloc::{AllocError, Global};
use std::process::Abort;
use xt_base::content::{Content, Data, HeldBlocks};
use xt_base::form::Form;
use xt_base::names::{Block, CkptNo, Life, Slot, TransNo};
use xt_base::stat::Stat;
use xt_base::steps::{Errno, HomeOffer, LogOffer, Reason, Reply};
use xt_text::buffer::Text;
use xt_text::print_reply::{print_home_offer, print_log_offer, print_reply, print_slot_reply};

/// Whether a reply is printed so.
fn is_said(alloc: Global, reply: &Reply, want: &str) -> Result<bool, AllocError> {
    let mut out = Text::new(alloc)?;
    print_reply(reply, &mut out);
    Ok(out.holds(want.as_bytes()))
}

/// Asserts that a reply is printed so.
fn says(rt: &impl Abort, alloc: Global, reply: Reply, want: &str) {
    assert!(rt; is_said(alloc, &reply, want) == Ok(true), "{want}");
}

#[test]
fn replies_without_numbers_are_printed(rt: HostRuntime) {
    let alloc = rt.alloc();
    says(&rt, alloc, Reply::Okay, "ok");
    says(&rt, alloc, Reply::Done, "done");
    says(&rt, alloc, Reply::Kept, "kept");
    says(&rt, alloc, Reply::Free, "free");
    says(&rt, alloc, Reply::Nothing, "nothing");
}

#[test]
fn replies_of_transactions_are_printed(rt: HostRuntime) {
    let alloc = rt.alloc();
    says(&rt, alloc, Reply::Life(Life(u32::MAX)), "life 4294967295");
    let last = Reply::Trans(TransNo(u64::MAX));
    says(&rt, alloc, last, "t18446744073709551615");
    says(&rt, alloc, Reply::Committed(CkptNo(3)), "c3");
    says(&rt, alloc, Reply::Wait(CkptNo(10)), "wait c10");
}

#[test]
fn replies_of_jobs_are_printed(rt: HostRuntime) {
    let alloc = rt.alloc();
    let (number, pieces) = (CkptNo(1), 2);
    says(&rt, alloc, Reply::Begun { number, pieces }, "begun c1 2");
    says(&rt, alloc, Reply::Landed(CkptNo(1)), "landed c1");
    says(&rt, alloc, Reply::Failed(CkptNo(1)), "failed c1");
    says(&rt, alloc, Reply::Flushed(8), "flushed 8");
}

/// Refusals, and how they are printed.
const REFUSALS: &[(Errno, &str)] = &[
    (Errno::Io, "EIO"),
    (Errno::Again, "EAGAIN"),
    (Errno::NoMemory, "ENOMEM"),
    (Errno::Busy, "EBUSY"),
    (Errno::NoDevice, "ENODEV"),
    (Errno::Invalid, "EINVAL"),
    (Errno::NoSpace, "ENOSPC"),
    (Errno::NoBufs, "ENOBUFS"),
    (Errno::Stale, "ESTALE"),
];

/// What is seen of a life, and how it is printed.
const REASONS: &[(Option<Reason>, &str)] = &[
    (None, "seen 2 live"),
    (Some(Reason::MetaIoError), "seen 2 META_IO_ERROR"),
    (Some(Reason::LogIoError), "seen 2 LOG_IO_ERROR"),
    (Some(Reason::ForceUmount), "seen 2 FORCE_UMOUNT"),
    (Some(Reason::CorruptIncore), "seen 2 CORRUPT_INCORE"),
];

#[test]
fn names_of_refusals_and_reasons_are_printed(rt: HostRuntime) {
    for (errno, want) in REFUSALS {
        says(&rt, rt.alloc(), Reply::Refused(*errno), want);
    }
    for (reason, want) in REASONS {
        let (life, reason) = (Life(2), *reason);
        says(&rt, rt.alloc(), Reply::Seen { life, reason }, want);
    }
}

/// What mounts tell of themselves, with another number in each place, and with the greatest there, and how it is printed.
const TOLD: &[(Stat, &str)] = &[
    (
        Stat {
            transactions: 1,
            busy: 2,
            idle: 3,
            committed: 4,
            active: 7,
            owed: 0,
            outstanding: 2,
            frozen: false,
            cost: 5,
            granted: 9,
            used: 10,
            free: 11,
            flight: 6,
            least: 8,
        },
        "stat 1 2 3 4 5 c6 7 c8 9 10 11 thawed 0 2",
    ),
    (
        Stat {
            transactions: 255,
            busy: 255,
            idle: 255,
            committed: 255,
            active: 255,
            owed: 255,
            outstanding: 255,
            frozen: true,
            cost: 4_294_967_295,
            granted: 4_294_967_295,
            used: 4_294_967_295,
            free: 4_294_967_295,
            flight: 18_446_744_073_709_551_615,
            least: 18_446_744_073_709_551_615,
        },
        "stat 255 255 255 255 4294967295 c18446744073709551615 255 c18446744073709551615 \
         4294967295 4294967295 4294967295 frozen 255 255",
    ),
];

#[test]
fn what_mounts_tell_is_printed(rt: HostRuntime) {
    for (stat, want) in TOLD {
        says(&rt, rt.alloc(), Reply::Stat(*stat), want);
    }
}

#[test]
fn a_content_is_printed(rt: HostRuntime) -> Result<(), AllocError> {
    let zeros = Reply::Data(Content::zeros(rt.alloc(), Form::one())?);
    assert!(rt; is_said(rt.alloc(), &zeros, "data 00*4096")?);
    let small = Form::of(Some(512)).ok_or(AllocError)?;
    let zeros = Reply::Data(Content::zeros(rt.alloc(), small)?);
    assert!(rt; is_said(rt.alloc(), &zeros, "data 00*512")?);
    Ok(())
}

/// Held blocks of these numbers, in order; none of no number.
fn held(alloc: Global, numbers: &[u64]) -> Result<Option<HeldBlocks>, AllocError> {
    let mut blocks = Vec::new(alloc);
    for number in numbers {
        blocks.push(Block(*number))?;
    }
    HeldBlocks::of(alloc, blocks)
}

/// A reply that leaves blocks held, of a kind.
fn holding(alloc: Global, kind: &str, numbers: &[u64]) -> Result<Option<Reply>, AllocError> {
    let Some(held) = held(alloc, numbers)? else {
        return Ok(None);
    };
    Ok(match kind {
        "cancelled" => Some(Reply::OkayHeld(held)),
        "aborted" => Some(Reply::Aborted(held)),
        _ => Some(Reply::CommittedHeld {
            number: CkptNo(0),
            held,
        }),
    })
}

/// Kinds of replies that leave blocks held, the blocks, and how they are printed.
const HOLDING: &[(&str, &[u64], &str)] = &[
    ("cancelled", &[5], "ok held 5"),
    ("aborted", &[7], "EIO held 7"),
    ("committed", &[0, 1099511627775], "c0 held 0 1099511627775"),
];

#[test]
fn held_blocks_are_printed(rt: HostRuntime) -> Result<(), AllocError> {
    for (kind, numbers, want) in HOLDING {
        let reply = holding(rt.alloc(), kind, numbers)?.ok_or(AllocError)?;
        assert!(rt; is_said(rt.alloc(), &reply, want)?, "{want}");
    }
    assert!(rt; held(rt.alloc(), &[])?.is_none());
    Ok(())
}

/// Whether an offer of slot 15 to the log is printed so.
fn is_log_said(alloc: Global, offer: &LogOffer, want: &[u8]) -> Result<bool, AllocError> {
    let mut out = Text::new(alloc)?;
    print_log_offer(Slot::new(15).ok_or(AllocError)?, offer, &mut out);
    Ok(out.holds(want))
}

/// Whether one of slot 15 to the home device is.
fn is_home_said(alloc: Global, offer: &HomeOffer, want: &[u8]) -> Result<bool, AllocError> {
    let mut out = Text::new(alloc)?;
    print_home_offer(Slot::new(15).ok_or(AllocError)?, offer, &mut out);
    Ok(out.holds(want))
}

/// Data of these bytes.
fn data_of(alloc: Global, bytes: &[u8]) -> Result<Data, AllocError> {
    Data::of(alloc, bytes)?.ok_or(AllocError)
}

#[test]
fn offers_to_the_log_are_printed(rt: HostRuntime) -> Result<(), AllocError> {
    let bytes = data_of(rt.alloc(), &[0xaa; 32])?;
    let piece = LogOffer::Piece { bytes, ok: true };
    assert!(rt; is_log_said(rt.alloc(), &piece, b"15 log aa*32 ok")?);
    let sync = LogOffer::Sync { ok: false };
    assert!(rt; is_log_said(rt.alloc(), &sync, b"15 logsync fail")?);
    Ok(())
}

/// A long stretch among other bytes is kept once, and runs go on over its ends.
#[test]
fn a_piece_with_a_stretch_is_printed(rt: HostRuntime) -> Result<(), AllocError> {
    let mut bytes = [0xb9; 160];
    bytes[3] = 0x58;
    let bytes = data_of(rt.alloc(), &bytes)?;
    assert!(rt; bytes.kept().bytes.len() == 32);
    let piece = LogOffer::Piece { bytes, ok: false };
    assert!(rt; is_log_said(rt.alloc(), &piece, b"15 log b9b9b958.b9*156 fail")?);
    Ok(())
}

#[test]
fn offers_to_the_home_device_are_printed(rt: HostRuntime) -> Result<(), AllocError> {
    let (block, ok) = (Block(7), false);
    let content = Content::zeros(rt.alloc(), Form::one())?;
    let write = HomeOffer::Write { block, content, ok };
    assert!(rt; is_home_said(rt.alloc(), &write, b"15 home 7 00*4096 fail")?);
    let sync = HomeOffer::Sync { ok: true };
    assert!(rt; is_home_said(rt.alloc(), &sync, b"15 homesync ok")?);
    Ok(())
}

/// A slot's reply is put behind what the buffer holds.
#[test]
fn a_reply_of_a_slot_is_printed(rt: HostRuntime) -> Result<(), AllocError> {
    let (mut out, slot) = (Text::new(rt.alloc())?, Slot::new(15).ok_or(AllocError)?);
    out.put(b"15 homesync ok\n");
    print_slot_reply(slot, &Reply::Okay, &mut out);
    assert!(rt; out.holds(b"15 homesync ok\n15 ok"));
    Ok(())
}

/// Whether a buffer still has room after what was put, and holds so many bytes.
fn has_room(out: &Text, len: usize) -> bool {
    !out.is_full() && out.bytes().len() == len
}

#[test]
fn a_text_that_does_not_fit_fills_the_buffer(rt: HostRuntime) -> Result<(), AllocError> {
    let (mut out, half) = (Text::new(rt.alloc())?, [b'x'; 4224]);
    out.put(&half);
    out.put(&half);
    assert!(rt; has_room(&out, 8448));
    out.put(b"y");
    assert!(rt; out.is_full());
    out.clear();
    assert!(rt; has_room(&out, 0));
    Ok(())
}
