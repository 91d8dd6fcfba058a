//! Mounts and unmounts of a locked slot: its devices come and go with them.

ghost use Rattle.std.specs.Prelude.{◌≡◌, None, IfErr, IfOk, OnErr, OnOk, Some, false, is_some, true};
ghost use Rattle.xt_base.specs.Alone.{is_okay};
ghost use Rattle.xt_base.specs.Isolation.{is_no_memory};
ghost use Rattle.xt_base.specs.declared.steps.Answer.TheVariants as AnAnswer;
ghost use Rattle.xt_base.specs.declared.steps.Reply.TheVariants.{Life as LifeReply, Okay, Refused};
ghost use Rattle.xt_base.specs.declared.steps.Request.TheVariants as ARequest;
ghost use Rattle.xt_base.specs.declared.steps.Step.{Step as AStep};
ghost use Rattle.xt_cell.specs.Books.{IsSameBook};
ghost use Rattle.xt_cell.specs.Cells.{IsEvent, is_done, is_life};
ghost use Rattle.xt_cell.specs.Counting.{counted};
ghost use Rattle.xt_cell.specs.Facts.{has_log, is_flown_by_job, is_last_post};
ghost use Rattle.xt_cell.specs.HostSeats.{IsSameSeat, Shows};
ghost use Rattle.xt_queue.specs.Names.{last_of, unposted};
ghost use Rattle.xt_queue.specs.Words.{word_of};
ghost use Rattle.xt_queue.specs.Boards.{Rises};

use crate::book::SlotBook;
use crate::cell::SlotCell;
use crate::event::make_room;
use crate::house::House;
use crate::mount_ref::MountRef;
use crate::poster::Poster;
use crate::posting::post_both;
use crate::rooms::Rooms;
use crate::seat::HostSeat;
use crate::shares::{Counts, Shares};
use crate::twin::Twin;
use std::sync::Wait;
use xt_base::names::{Life, Slot};
use xt_base::steps::{Answer, Errno, Reply, Request, Step};
use xt_dev::home::HomeDevice;
use xt_dev::log::LogDevice;
use xt_queue::board::Board;

/// A mount that was refused: why, and both devices back.
#[derive(Drop)]
pub struct MountRefused {
    pub errno: Errno,
    pub home: Box<dyn HomeDevice + Send>,
    pub log: Box<dyn LogDevice + Send>,
}

impl<H: House, const S: u8> SlotCell<H, S> {
    /// Mounts the slot anew, with a log of `log_bytes` bytes and a home device of `blocks` blocks, over these devices, and shows the
    /// new life on the board. A block has `size` bytes, or 4,096 where none is said; then checkpoints do not say the size either. Where
    /// it is refused both devices come back: `Busy` where the slot is in use, `Invalid` for a log, a home device or a block of a wrong
    /// size, and `NoSpace` where lives are at their end, and these are booked; ENOMEM, and then nothing was booked.
    pub fn mount<R: Wait>(
        &mut self,
        rt: &R,
        seat: &mut HostSeat<H>,
        board: &Board,
        log_bytes: u32,
        blocks: u64,
        size: Option<u32>,
        home: Box<dyn HomeDevice + Send>,
        log: Box<dyn LogDevice + Send>,
    ) -> Result<MountRef, MountRefused>
    where
        Shares<H>: Counts<H, S>,
        requires board { seat.old.board.board ≡ board.now }
        ensures refused { IfErr result (λ back. is_no_memory (Refused back.errno) ≡ true → IsSameBook self.old.book self.new.book × IsSameSeat seat.old seat.new) }
        ensures mounted { IfOk result (λ at. (at.slot ≡ S) × IsEvent S (AStep.Mount S log_bytes blocks size) (LifeReply at.life) self.old.book self.new.book seat.old seat.new self.old.poster self.new.poster) }
        ensures booked { IfErr result (λ back. is_no_memory (Refused back.errno) ≡ false → IsEvent S (AStep.Mount S log_bytes blocks size) (Refused back.errno) self.old.book self.new.book seat.old seat.new self.old.poster self.new.poster) }
        ensures counted_mounted { OnOk result (⟦<Shares<H> as Counts<H, S>>⟧.counts seat.new.counts ≡ counted S (⟦<Shares<H> as Counts<H, S>>⟧.counts seat.old.counts)) }
        ensures counted { IfErr result (λ back. is_no_memory (Refused back.errno) ≡ false → ⟦<Shares<H> as Counts<H, S>>⟧.counts seat.new.counts ≡ counted S (⟦<Shares<H> as Counts<H, S>>⟧.counts seat.old.counts)) }
        ensures taken { OnOk result ((self.new.home ≡ Some home) × (self.new.log ≡ Some log)) }
        ensures back { IfErr result (λ back. (back.home ≡ home) × (back.log ≡ log) × (self.new.home ≡ self.old.home) × (self.new.log ≡ self.old.log)) }
        ensures shown { IfOk result (λ at. Shows S (word_of at.life None) seat.old.board seat.new.board) }
        ensures unshown { OnErr result (seat.new.board ≡ seat.old.board) }
        ensures board { seat.new.board.board ≡ seat.old.board.board }
        ensures rises { Rises seat.old.board.seen seat.new.board.seen }
        ensures splits { seat.new.board.splits ≡ seat.old.board.splits }
        ensures rank { seat.new.board.rank ≡ seat.old.board.rank }
    {
        let slot = self.book.slot().slot();
        let SlotCell {
            book,
            poster,
            home: home_place,
            log: log_place,
            ..
        } = self;
        match serve_mount(rt, book, poster, seat, log_bytes, blocks, size) {
            Ok(life) => {
                *home_place = Some(home);
                *log_place = Some(log);
                seat.show(board, slot, life, None);
                Ok(MountRef { slot, life })
            }
            Err(errno) => Err(MountRefused { errno, home, log }),
        }
    }

    /// Unmounts one life of the slot: both devices come back. `NoDevice` where the slot is empty, `Stale` where it has another life,
    /// `Busy` where the mount is in use or has changes to write; these are booked. ENOMEM where memory is refused, and then nothing was.
    pub fn unmount<R: Wait>(
        &mut self,
        rt: &R,
        seat: &mut HostSeat<H>,
        at: MountRef,
    ) -> Result<(Box<dyn HomeDevice + Send>, Box<dyn LogDevice + Send>), Errno>
    where
        Shares<H>: Counts<H, S>,
        requires slot { at.slot ≡ S }
        ensures refused { IfErr result (λ errno. is_no_memory (Refused errno) ≡ true → IsSameBook self.old.book self.new.book × IsSameSeat seat.old seat.new) }
        ensures unmounted { OnOk result (IsEvent S (AStep.Call S at.life ARequest.Unmount AnAnswer.None) Okay self.old.book self.new.book seat.old seat.new self.old.poster self.new.poster) }
        ensures booked { IfErr result (λ errno. is_no_memory (Refused errno) ≡ false → IsEvent S (AStep.Call S at.life ARequest.Unmount AnAnswer.None) (Refused errno) self.old.book self.new.book seat.old seat.new self.old.poster self.new.poster) }
        ensures counted_unmounted { OnOk result (⟦<Shares<H> as Counts<H, S>>⟧.counts seat.new.counts ≡ counted S (⟦<Shares<H> as Counts<H, S>>⟧.counts seat.old.counts)) }
        ensures counted { IfErr result (λ errno. is_no_memory (Refused errno) ≡ false → ⟦<Shares<H> as Counts<H, S>>⟧.counts seat.new.counts ≡ counted S (⟦<Shares<H> as Counts<H, S>>⟧.counts seat.old.counts)) }
        ensures devices { IfOk result (λ devices. (self.old.home ≡ Some devices.0) × (self.old.log ≡ Some devices.1) × (self.new.home ≡ None) × (self.new.log ≡ None)) }
        ensures kept { OnErr result ((self.new.home ≡ self.old.home) × (self.new.log ≡ self.old.log)) }
        ensures shown { seat.new.board ≡ seat.old.board }
    {
        let SlotCell {
            book,
            poster,
            home,
            log,
            ..
        } = self;
        serve_unmount(rt, book, poster, seat, at.life)?;
        match (home.take(), log.take()) {
            (Some(home), Some(log)) => Ok((home, log)),
            _ => unreachable!(),
        }
    }
}

/// Mounts a slot anew and books that with its posts, or is refused memory.
fn serve_mount<H: House, R: Wait, const S: u8>(
    rt: &R,
    book: &mut SlotBook<H, S>,
    poster: &mut Poster<S>,
    seat: &mut HostSeat<H>,
    log_bytes: u32,
    blocks: u64,
    size: Option<u32>,
) -> Result<Life, Errno>
where
    Shares<H>: Counts<H, S>,
    requires last { is_last_post (last_of unposted poster.old.posted) book.old.state ≡ true }
    requires idle { is_flown_by_job book.old.state.mounted ≡ true }
    ensures last { is_last_post (last_of unposted poster.new.posted) book.new.state ≡ true }
    ensures idle { is_flown_by_job book.new.state.mounted ≡ true }
    ensures there { OnOk result ((is_some book.new.state.mounted ≡ true) × (has_log book.new.state.mounted ≡ true)) }
    ensures kept { OnErr result ((is_some book.new.state.mounted ≡ is_some book.old.state.mounted) × (has_log book.new.state.mounted ≡ has_log book.old.state.mounted)) }
    ensures board { seat.new.board ≡ seat.old.board }
    ensures refused { IfErr result (λ errno. is_no_memory (Refused errno) ≡ true → IsSameBook book.old book.new × IsSameSeat seat.old seat.new) }
    ensures mounted { IfOk result (λ life. IsEvent S (AStep.Mount S log_bytes blocks size) (LifeReply life) book.old book.new seat.old seat.new poster.old poster.new) }
    ensures booked { IfErr result (λ errno. is_no_memory (Refused errno) ≡ false → IsEvent S (AStep.Mount S log_bytes blocks size) (Refused errno) book.old book.new seat.old seat.new poster.old poster.new) }
    ensures counted_mounted { OnOk result (⟦<Shares<H> as Counts<H, S>>⟧.counts seat.new.counts ≡ counted S (⟦<Shares<H> as Counts<H, S>>⟧.counts seat.old.counts)) }
    ensures counted { IfErr result (λ errno. is_no_memory (Refused errno) ≡ false → ⟦<Shares<H> as Counts<H, S>>⟧.counts seat.new.counts ≡ counted S (⟦<Shares<H> as Counts<H, S>>⟧.counts seat.old.counts)) }
{
    let Ok(()) = make_room(book, seat) else {
        return Err(Errno::NoMemory);
    };
    let reply = book.mount(seat, log_bytes, blocks, size);
    if reply.is_no_memory() {
        return Err(Errno::NoMemory);
    }
    post_both(rt, book, poster, seat.caller());
    life_of(&reply)
}

/// The life that a mount was answered, or why it was refused.
fn life_of(reply: &Reply) -> Result<Life, Errno>
    requires { is_life reply.now ≡ true }
    ensures life { IfOk result (λ life. reply.now ≡ LifeReply life) }
    ensures refused { IfErr result (λ errno. reply.now ≡ Refused errno) }
{
    match reply {
        Reply::Life(life) => Ok(*life),
        Reply::Refused(errno) => Err(*errno),
        _ => unreachable!(),
    }
}

/// Unmounts a life of a slot and books that with its posts, or is refused memory.
fn serve_unmount<H: House, R: Wait, const S: u8>(
    rt: &R,
    book: &mut SlotBook<H, S>,
    poster: &mut Poster<S>,
    seat: &mut HostSeat<H>,
    life: Life,
) -> Result<(), Errno>
where
    Shares<H>: Counts<H, S>,
    requires last { is_last_post (last_of unposted poster.old.posted) book.old.state ≡ true }
    requires idle { is_flown_by_job book.old.state.mounted ≡ true }
    ensures last { is_last_post (last_of unposted poster.new.posted) book.new.state ≡ true }
    ensures idle { is_flown_by_job book.new.state.mounted ≡ true }
    ensures gone { OnOk result ((is_some book.old.state.mounted ≡ true) × (has_log book.old.state.mounted ≡ true) × (book.new.state.mounted ≡ None)) }
    ensures kept { OnErr result ((is_some book.new.state.mounted ≡ is_some book.old.state.mounted) × (has_log book.new.state.mounted ≡ has_log book.old.state.mounted)) }
    ensures board { seat.new.board ≡ seat.old.board }
    ensures refused { IfErr result (λ errno. is_no_memory (Refused errno) ≡ true → IsSameBook book.old book.new × IsSameSeat seat.old seat.new) }
    ensures unmounted { OnOk result (IsEvent S (AStep.Call S life ARequest.Unmount AnAnswer.None) Okay book.old book.new seat.old seat.new poster.old poster.new) }
    ensures booked { IfErr result (λ errno. is_no_memory (Refused errno) ≡ false → IsEvent S (AStep.Call S life ARequest.Unmount AnAnswer.None) (Refused errno) book.old book.new seat.old seat.new poster.old poster.new) }
    ensures counted_unmounted { OnOk result (⟦<Shares<H> as Counts<H, S>>⟧.counts seat.new.counts ≡ counted S (⟦<Shares<H> as Counts<H, S>>⟧.counts seat.old.counts)) }
    ensures counted { IfErr result (λ errno. is_no_memory (Refused errno) ≡ false → ⟦<Shares<H> as Counts<H, S>>⟧.counts seat.new.counts ≡ counted S (⟦<Shares<H> as Counts<H, S>>⟧.counts seat.old.counts)) }
{
    let Ok(()) = make_room(book, seat) else {
        return Err(Errno::NoMemory);
    };
    let slot = book.slot().slot();
    let reply = book.call(seat, unmount_twin(slot, life), &mut Rooms::none());
    if reply.is_no_memory() {
        return Err(Errno::NoMemory);
    }
    post_both(rt, book, poster, seat.caller());
    done_of(&reply)
}

/// Whether an unmount was done, or why it was refused.
fn done_of(reply: &Reply) -> Result<(), Errno>
    requires { is_done reply.now ≡ true }
    ensures done { OnOk result (reply.now ≡ Okay) }
    ensures refused { IfErr result (λ errno. reply.now ≡ Refused errno) }
{
    match reply {
        Reply::Okay => Ok(()),
        Reply::Refused(errno) => Err(*errno),
        _ => unreachable!(),
    }
}

/// The step of an unmount, twice.
fn unmount_twin(slot: Slot, life: Life) -> Twin<Step>
    ensures { result.booked ≡ AStep.Call slot life ARequest.Unmount AnAnswer.None }
{
    let first = Step::Call {
        slot,
        life,
        request: Request::Unmount,
        answer: Answer::None,
    };
    Twin::of(
        first,
        Step::Call {
            slot,
            life,
            request: Request::Unmount,
            answer: Answer::None,
        },
    )
}
