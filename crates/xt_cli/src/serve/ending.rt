//! What becomes of the volumes at the end of a service.

ghost use Rattle.std.specs.Prelude.{◌≡◌, ◌<◌, ℕ, All, Bool, IfNone, IfSome, None, Some, false, slice_index_or, slice_set, true, vec_len};
ghost use Rattle.xt_base.specs.declared.sizes.TheConstants.{SLOTS};
ghost use Rattle.xt_cli.specs.Ends.{Looks, is_device_fault, is_home};
ghost use Rattle.xt_queue.specs.Words.{word_of};
ghost use Rattle.xt_text.specs.Replies.{seen_text};

use std::io::Eprint;
use xt_base::names::Slot;
use xt_base::sizes::SLOTS;
use xt_base::steps::{Errno, Reason};
use xt_cell::house::House;
use xt_cell::mount_ref::MountRef;
use xt_cell::seat::HostSeat;
use xt_host::host::Host;
use xt_service::service::ServiceEnd;

/// What became of a service.
#[derive(Clone, Copy, Debug)]
pub struct Ended {
    /// The exit status.
    pub status: u8,
    /// Whether the books of the host and its seats agree.
    pub is_closed: bool,
    /// Why each slot is still mounted, of those that are.
    pub kept: [Option<Errno>; SLOTS],
    /// Why each slot was shut, of those that were.
    pub shut: [Option<Reason>; SLOTS],
}

impl Ended {
    /// Whether all that was committed of a volume is on its home device, so that its log is of no use any more: it was unmounted live, of a
    /// host whose books agree. A mount that is live is unmounted only where all that was committed is home.
    pub fn is_home(&self, slot: Slot) -> bool
        ensures { result ≡ is_home self.now slot }
    {
        let is_unmounted = self.kept[slot.index()].is_none();
        let is_live = self.shut[slot.index()].is_none();
        self.is_closed && is_unmounted && is_live
    }
}

/// Why the board shows a slot shut, if it does.
fn shut_of<H: House, D>(host: &Host<H, D>, seat: &mut HostSeat<H>, slot: Slot) -> Option<Reason>
    requires board { seat.old.board.board ≡ host.now.board }
    ensures seen { (life : ℕ) × (seat.new.board.seen ≡ slice_set seat.old.board.seen slot (word_of life result)) }
    ensures board { seat.new.board.board ≡ host.now.board }
{
    let (_life, shut) = host.seen_shut(seat, slot);
    shut
}

/// Why each of some mounts was shut, of those that were.
fn all_shut<H: House, D>(
    host: &Host<H, D>,
    seat: &mut HostSeat<H>,
    mounts: &[MountRef],
) -> [Option<Reason>; SLOTS]
    requires board { seat.old.board.board ≡ host.now.board }
    ensures looks { Looks seat.old mounts.now seat.new result }
    ensures board { seat.new.board.board ≡ host.now.board }
{
    let mut shut = [None; SLOTS];
    for at in mounts {
        shut[at.slot.index()] = shut_of(host, seat, at.slot);
    }
    shut
}

/// Why each mount of a service was shut up to its end, of those that were, as the board shows.
pub fn with_shut<H: House, D>(
    host: &Host<H, D>,
    end: ServiceEnd<H>,
    mounts: &[MountRef],
) -> (ServiceEnd<H>, [Option<Reason>; SLOTS])
    requires boards { All (λ seat. seat.board.board ≡ host.now.board) end.seats.items }
    requires some { 0 < vec_len end.seats }
{
    let ServiceEnd {
        kept,
        mut seats,
        passes,
    } = end;
    let Some(mut seat) = seats.pop() else {
        unreachable!()
    };
    let shut = all_shut(host, &mut seat, mounts);
    seats.push_reserved(seat);
    let end = ServiceEnd {
        kept,
        seats,
        passes,
    };
    (end, shut)
}

/// A reason as the reply to `peek` spells it.
fn spell(reason: Reason) -> &'static str
    ensures { result.now ≡ seen_text (Some reason) }
{
    match reason {
        Reason::MetaIoError => "META_IO_ERROR",
        Reason::LogIoError => "LOG_IO_ERROR",
        Reason::ForceUmount => "FORCE_UMOUNT",
        Reason::CorruptIncore => "CORRUPT_INCORE",
    }
}

/// Prints of each slot that was shut why it was, ascending.
pub fn print_shut<R: Eprint>(rt: &R, shut: &[Option<Reason>; SLOTS]) {
    for index in 0..SLOTS {
        if let Some(reason) = shut[index] {
            let reason = spell(reason);
            let _ = eprintln!(rt; "slot {index} shut: {reason}");
        }
    }
}

/// Whether a device failed where a slot was shut for a reason, if it was.
fn is_device_fault(reason: Option<Reason>) -> bool
    ensures { result ≡ is_device_fault reason }
{
    match reason {
        Some(Reason::MetaIoError | Reason::LogIoError) => true,
        Some(Reason::ForceUmount | Reason::CorruptIncore) | None => false,
    }
}

/// The first slot that was shut since a device failed, if one was.
fn first_fault(shut: &[Option<Reason>; SLOTS]) -> Option<usize>
    ensures fault { IfSome result (λ slot. is_device_fault (slice_index_or shut.now slot None) ≡ true) }
    ensures none { IfNone result (All (λ reason. is_device_fault reason ≡ false) shut.now) }
{
    shut.iter().position(|reason| is_device_fault(*reason))
}

/// The exit status of a service by whether it ended in order: 1 where it did not, or where a volume was shut since a device failed.
pub fn status(is_in_order: bool, shut: &[Option<Reason>; SLOTS]) -> u8
    ensures order { is_in_order ≡ false → result ≡ 1 }
    ensures fault { (slot : ℕ) → slot < SLOTS → is_device_fault (slice_index_or shut.now slot None) ≡ true → result ≡ 1 }
    ensures none { is_in_order ≡ true → All (λ reason. is_device_fault reason ≡ false) shut.now → result ≡ 0 }
{
    u8::from(!is_in_order || first_fault(shut).is_some())
}
