//! One locked slot: its book, its devices, and its way to the queue.

ghost use Rattle.std.specs.Prelude.{◌≡◌, ◌+◌, ◌++◌, ◌<◌, ◌≤◌, ◌∷◌, ◌⊎◌, [], None, Some, IfOk, IfSome, MatchOption, OnErr, OnOk, is_some, slice_index, false, true, ℕ};
ghost use Rattle.xt_base.specs.Alone.{reason_of};
ghost use Rattle.xt_base.specs.Calls.{is_unmount};
ghost use Rattle.xt_base.specs.Carried.{may_leave_held};
ghost use Rattle.xt_base.specs.Isolation.{is_no_memory};
ghost use Rattle.xt_base.specs.Order.{has_size, is_there, mount_is, of_life};
ghost use Rattle.xt_base.specs.Replies.{is_read, may_get};
ghost use Rattle.xt_base.specs.declared.sizes.TheConstants.{SLOTS};
ghost use Rattle.xt_base.specs.declared.steps.Answer.{Answer as AnAnswer};
ghost use Rattle.xt_base.specs.declared.steps.Answer.TheVariants as Answered;
ghost use Rattle.xt_base.specs.declared.steps.Reply.TheVariants.{Okay};
ghost use Rattle.xt_base.specs.declared.steps.Request.TheVariants as ARequest;
ghost use Rattle.xt_base.specs.declared.steps.Step.{Step as AStep};
ghost use Rattle.xt_cell.specs.Asking.{failed_calls, failed_reads, read_calls, step_calls};
ghost use Rattle.xt_cell.specs.Books.{IsSameBook, Readies, events_of, unwritten};
ghost use Rattle.xt_cell.specs.Counting.{counted};
ghost use Rattle.xt_cell.specs.Cells.{IsEvent, IsShown, IsStepOf, is_shutdown, word_shown};
ghost use Rattle.xt_cell.specs.Facts.{has_log, is_flown_by_job, is_last_post};
ghost use Rattle.xt_cell.specs.HostSeats.{IsSameSeat, receipt};
ghost use Rattle.xt_cell.specs.Twins.{AreReady};
ghost use Rattle.xt_dev.specs.Devices.{Tells};
ghost use Rattle.xt_mount.specs.Come.{read_block};
ghost use Rattle.xt_mount.specs.Slots.{stage_in};
ghost use Rattle.xt_queue.specs.Names.{last_of, unposted};
ghost use Rattle.xt_queue.specs.Boards.{Rises};
ghost use Rattle.xt_queue.specs.Words.{word_of};

use crate::account::Account;
use crate::asking;
use crate::book::SlotBook;
use crate::event::{make_room, show_shut};
use crate::house::House;
use crate::mount_ref::MountRef;
use crate::poster::Poster;
use crate::posting::post_both;
use crate::reading::serve_resident;
use crate::rooms::Rooms;
use crate::seat::HostSeat;
use crate::shares::{Counts, Shares};
use std::alloc::{AllocError, Global};
use std::sync::Wait;
use xt_base::names::{Block, JobName, Life};
use xt_base::steps::{Answer, Errno, Reply, Request};
use xt_dev::home::HomeDevice;
use xt_dev::log::LogDevice;
use xt_mount::mount::Stage;
use xt_mount::slot::MountSlot;
use xt_queue::board::Board;

/// What slot S's lock guards: its book with its mount, its devices, and its way to the queue. The home device is there exactly while
/// the slot is mounted, the log device while it is mounted and no checkpoint is in flight; and it is known what was posted last.
#[derive(Drop)]
pub struct SlotCell<H: House, const S: u8> {
    alloc: Global,
    /// From how many entries on the book is folded.
    limit: u64,
    pub(crate) book: SlotBook<H, S>,
    pub(crate) poster: Poster<S>,
    pub(crate) home: Option<Box<dyn HomeDevice + Send>>,
    pub(crate) log: Option<Box<dyn LogDevice + Send>>,
    /// Room for the blocks that a reply may name.
    rooms: Rooms,
    ghost last: { is_last_post (last_of unposted poster.posted) book.state ≡ true },
    ghost has_home: { is_some home ≡ is_some book.state.mounted },
    ghost log_at_hand: { is_some log ≡ has_log book.state.mounted },
    ghost idle: { is_flown_by_job book.state.mounted ≡ true },
}

impl<H: House, const S: u8> SlotCell<H, S> {
    /// A slot that was never mounted: from how many entries on its book is to be folded, its book, its way to the queue, and no device.
    pub fn new(
        alloc: Global,
        limit: u64,
        book: SlotBook<H, S>,
        poster: Poster<S>,
        home: Option<Box<dyn HomeDevice + Send>>,
        log: Option<Box<dyn LogDevice + Send>>,
    ) -> Self
        requires book { IsSameBook (unwritten S) book }
        requires poster { poster.posted ≡ [] }
        requires devices { (is_some home ≡ false) × (is_some log ≡ false) }
        ensures limit { result.limit ≡ limit }
        ensures book { result.book ≡ book }
        ensures poster { result.poster ≡ poster.entry }
    {
        SlotCell {
            alloc,
            limit,
            book,
            poster,
            home,
            log,
            rooms: Rooms::none(),
        }
    }

    /// How far a job has come; None where it is not outstanding here.
    pub fn stage(&self, name: &JobName) -> Option<Stage>
        requires slot { name.now.slot ≡ S }
        ensures { result ≡ stage_in name.now self.now.book.state }
    {
        self.book.slot().stage(name)
    }

    /// Makes the slot ready for its next event: a book that has at least as many entries as its limit is folded, where there is memory for
    /// the state of the slot. Where there is none the book stays, grows by the event, and the next one tries again.
    #[inline(always)]
    pub fn fold(&mut self)
        ensures book { Readies self.old.limit self.old.book self.new.book }
        ensures state { self.new.book.state ≡ self.old.book.state }
        ensures limit { self.new.limit ≡ self.old.limit }
        ensures poster { self.new.poster ≡ self.old.poster }
        ensures devices { (self.new.home ≡ self.old.home) × (self.new.log ≡ self.old.log) }
    {
        self.book.fold_from(self.limit);
    }

    /// Closes the slot: its book, in which nothing more is written. Its devices, if it has any, are let go.
    pub fn into_account(self) -> Account
        requires slot { S < SLOTS }
        ensures base { result.base ≡ self.book.base }
        ensures slot { result.base.state.slot ≡ S }
        ensures entries { result.entries ≡ self.book.entries }
        ensures count { result.count ≡ events_of self.book }
    {
        let SlotCell { book, .. } = self;
        book.into_account()
    }

    /// Serves a request to one life of the slot: asks the home device where the mount must, books the step with its receipt,
    /// posts what it made owed, and shows the mount on the board where the request shut it, or was to shut it. ENOMEM where memory is
    /// refused: then nothing was booked, and all that changed is room. The log device is left alone. An unmount is no such request.
    /// The reply is one that the request may get, and the seat has seen shut what a shutdown shut.
    pub fn call<R: Wait>(
        &mut self,
        rt: &R,
        seat: &mut HostSeat<H>,
        board: &Board,
        at: MountRef,
        request: Request,
    ) -> Reply
    where
        Shares<H>: Counts<H, S>,
        requires slot { at.slot ≡ S }
        requires board { seat.old.board.board ≡ board.now }
        requires kind { is_unmount request ≡ false }
        ensures refused { is_no_memory result ≡ true → IsSameBook self.old.book self.new.book × IsSameSeat seat.old seat.new }
        ensures tried { is_no_memory result ≡ true → (self.new.home ≡ self.old.home) ⊎ ((answer : AnAnswer) × MatchOption self.old.home (self.new.home ≡ None) (λ h. IfSome self.new.home (λ k. Tells (home_tells h) (home_taken h) (read_calls (read_block request) answer) (home_tells k) (home_taken k)))) }
        ensures booked { is_no_memory result ≡ false → (step : AStep) × IsStepOf S at.life request self.old.book.state.mounted step × IsEvent S step result self.old.book self.new.book seat.old seat.new self.old.poster self.new.poster × MatchOption self.old.home (self.new.home ≡ None) (λ h. IfSome self.new.home (λ k. Tells (home_tells h) (home_taken h) (step_calls step) (home_tells k) (home_taken k))) }
        ensures counted { is_no_memory result ≡ false → ⟦<Shares<H> as Counts<H, S>>⟧.counts seat.new.counts ≡ counted S (⟦<Shares<H> as Counts<H, S>>⟧.counts seat.old.counts) }
        ensures kind { may_get request result ≡ true }
        ensures unasked { is_no_memory result ≡ false → is_read request ≡ false → (number : ℕ) × (seat.new.receipts ≡ seat.old.receipts ++ receipt S number (AStep.Call S at.life request Answered.None) result ∷ []) }
        ensures failures { is_no_memory result ≡ false → (step : AStep) × (number : ℕ) × (seat.new.receipts ≡ seat.old.receipts ++ receipt S number step result ∷ []) × MatchOption self.old.home (self.new.home ≡ None) (λ h. IfSome self.new.home (λ k. home_failures k ≡ home_failures h + failed_calls step)) }
        ensures caller { seat.new.caller ≡ seat.old.caller }
        ensures log { self.new.log ≡ self.old.log }
        ensures shut { request ≡ ARequest.Shutdown → result ≡ Okay → word_of at.life None < slice_index seat.new.board.seen S }
        ensures shown { is_no_memory result ≡ false → IsShown S (word_shown (is_shutdown request) (reason_of self.old.book.state.mounted) self.new.book.state.mounted) seat.old.board seat.new.board }
        ensures board { seat.new.board.board ≡ seat.old.board.board }
        ensures rises { Rises seat.old.board.seen seat.new.board.seen }
        ensures splits { seat.new.board.splits ≡ seat.old.board.splits }
        ensures rank { seat.new.board.rank ≡ seat.old.board.rank }
    {
        let before = self.book.slot().shut();
        let is_asked = is_shutdown(&request);
        let SlotCell {
            alloc,
            book,
            poster,
            home,
            rooms,
            ..
        } = self;
        let reply = serve_call(
            rt, *alloc, book, poster, seat, home, at.life, request, rooms,
        );
        if !reply.is_no_memory() {
            show_shut(book, seat, board, is_asked, before);
        }
        reply
    }
}

/// Whether a request shuts its mount.
fn is_shutdown(request: &Request) -> bool
    ensures { result ≡ is_shutdown request.now }
{
    matches!(request, Request::Shutdown)
}

/// The block that a request to one life of a slot must ask the home device for, if there is one. A read alone asks, so the mount is not
/// looked at for another request.
#[inline(always)]
fn needed(slot: &MountSlot, life: Life, request: &Request) -> Option<Block>
    ensures asked { is_some result ≡ mount_is (of_life life request.now) slot.now.mounted }
    ensures block { IfSome result (λ block. read_block request.now ≡ Some block) }
{
    match request {
        Request::Read { .. } => slot.needs(life, request),
        _ => None,
    }
}

/// The home device's answer to a request to one life of a slot, where it must be asked; it is asked once, for as many bytes as the blocks
/// of the mount have. The one error is want of memory, and then it was not asked.
fn asked<H: House, const S: u8>(
    alloc: Global,
    book: &SlotBook<H, S>,
    home: &mut Option<Box<dyn HomeDevice + Send>>,
    life: Life,
    request: &Request,
) -> Result<Answer, AllocError>
    requires home { is_some home.old ≡ is_some book.now.state.mounted }
    ensures there { IfOk result (λ answer. is_there (mount_is (of_life life request.now) book.now.state.mounted) answer ≡ true) }
    ensures size { IfOk result (λ answer. has_size answer book.now.state.mounted ≡ true) }
    ensures home { is_some home.new ≡ is_some home.old }
    ensures unasked { OnErr result (home.new ≡ home.old) }
    ensures asked { IfOk result (λ answer. MatchOption home.old (home.new ≡ None) (λ h. IfSome home.new (λ k. Tells (home_tells h) (home_taken h) (read_calls (read_block request.now) answer) (home_tells k) (home_taken k)))) }
    ensures failures { IfOk result (λ answer. MatchOption home.old (home.new ≡ None) (λ h. IfSome home.new (λ k. home_failures k ≡ home_failures h + failed_reads answer))) }
{
    let slot = book.slot();
    let Some(block) = needed(slot, life, request) else {
        return Ok(Answer::None);
    };
    let place = asking::place(alloc, slot.form())?;
    match home {
        Some(home) => Ok(asking::read(&mut **home, block, place)),
        None => unreachable!(),
    }
}

/// Makes what an event of a request needs before its step: room, and the home device's answer. The one error is want of memory.
#[inline(always)]
fn ready<H: House, const S: u8>(
    alloc: Global,
    book: &mut SlotBook<H, S>,
    seat: &mut HostSeat<H>,
    home: &mut Option<Box<dyn HomeDevice + Send>>,
    life: Life,
    request: &Request,
    rooms: &mut Rooms,
) -> Result<Answer, AllocError>
    requires home { is_some home.old ≡ is_some book.old.state.mounted }
    ensures book { IsSameBook book.old book.new }
    ensures seat { IsSameSeat seat.old seat.new }
    ensures home { is_some home.new ≡ is_some home.old }
    ensures room { OnOk result (3 ≤ book.new.room) }
    ensures place { OnOk result (1 ≤ seat.new.room) }
    ensures there { IfOk result (λ answer. is_there (mount_is (of_life life request.now) book.old.state.mounted) answer ≡ true) }
    ensures size { IfOk result (λ answer. has_size answer book.old.state.mounted ≡ true) }
    ensures rooms { OnOk result (may_leave_held request.now ≡ true → AreReady rooms.new) }
    ensures tried { OnErr result (home.new ≡ home.old) }
    ensures asked { IfOk result (λ answer. MatchOption home.old (home.new ≡ None) (λ h. IfSome home.new (λ k. Tells (home_tells h) (home_taken h) (read_calls (read_block request.now) answer) (home_tells k) (home_taken k)))) }
    ensures failures { IfOk result (λ answer. MatchOption home.old (home.new ≡ None) (λ h. IfSome home.new (λ k. home_failures k ≡ home_failures h + failed_reads answer))) }
{
    make_room(book, seat)?;
    rooms.prepare(alloc, request)?;
    asked(alloc, book, home, life, request)
}

/// Serves a request and books it with its posts, or is refused memory. Most reads find their block resident: of those no device is asked,
/// and nothing is looked up twice.
#[inline(always)]
fn serve_call<H: House, R: Wait, const S: u8>(
    rt: &R,
    alloc: Global,
    book: &mut SlotBook<H, S>,
    poster: &mut Poster<S>,
    seat: &mut HostSeat<H>,
    home: &mut Option<Box<dyn HomeDevice + Send>>,
    life: Life,
    request: Request,
    rooms: &mut Rooms,
) -> Reply
where
    Shares<H>: Counts<H, S>,
    requires last { is_last_post (last_of unposted poster.old.posted) book.old.state ≡ true }
    requires home { is_some home.old ≡ is_some book.old.state.mounted }
    requires idle { is_flown_by_job book.old.state.mounted ≡ true }
    requires kind { is_unmount request ≡ false }
    ensures last { is_last_post (last_of unposted poster.new.posted) book.new.state ≡ true }
    ensures home { is_some home.new ≡ is_some book.new.state.mounted }
    ensures log { has_log book.new.state.mounted ≡ has_log book.old.state.mounted }
    ensures idle { is_flown_by_job book.new.state.mounted ≡ true }
    ensures board { seat.new.board ≡ seat.old.board }
    ensures refused { is_no_memory result ≡ true → IsSameBook book.old book.new × IsSameSeat seat.old seat.new }
    ensures tried { is_no_memory result ≡ true → (home.new ≡ home.old) ⊎ ((answer : AnAnswer) × MatchOption home.old (home.new ≡ None) (λ h. IfSome home.new (λ k. Tells (home_tells h) (home_taken h) (read_calls (read_block request) answer) (home_tells k) (home_taken k)))) }
    ensures booked { is_no_memory result ≡ false → (step : AStep) × IsStepOf S life request book.old.state.mounted step × IsEvent S step result book.old book.new seat.old seat.new poster.old poster.new × MatchOption home.old (home.new ≡ None) (λ h. IfSome home.new (λ k. Tells (home_tells h) (home_taken h) (step_calls step) (home_tells k) (home_taken k))) }
    ensures counted { is_no_memory result ≡ false → ⟦<Shares<H> as Counts<H, S>>⟧.counts seat.new.counts ≡ counted S (⟦<Shares<H> as Counts<H, S>>⟧.counts seat.old.counts) }
    ensures failures { is_no_memory result ≡ false → (step : AStep) × (number : ℕ) × (seat.new.receipts ≡ seat.old.receipts ++ receipt S number step result ∷ []) × MatchOption home.old (home.new ≡ None) (λ h. IfSome home.new (λ k. home_failures k ≡ home_failures h + failed_calls step)) }
{
    if let Request::Read { trans, block } = request {
        match serve_resident(rt, book, poster, seat, life, trans, block) {
            Some(reply) => return reply,
            None => {
                let again = Request::Read { trans, block };
                return serve_asking(rt, alloc, book, poster, seat, home, life, again, rooms);
            }
        }
    }
    serve_asking(rt, alloc, book, poster, seat, home, life, request, rooms)
}

/// The same, where the home device is asked if it must be.
fn serve_asking<H: House, R: Wait, const S: u8>(
    rt: &R,
    alloc: Global,
    book: &mut SlotBook<H, S>,
    poster: &mut Poster<S>,
    seat: &mut HostSeat<H>,
    home: &mut Option<Box<dyn HomeDevice + Send>>,
    life: Life,
    request: Request,
    rooms: &mut Rooms,
) -> Reply
where
    Shares<H>: Counts<H, S>,
    requires last { is_last_post (last_of unposted poster.old.posted) book.old.state ≡ true }
    requires home { is_some home.old ≡ is_some book.old.state.mounted }
    requires idle { is_flown_by_job book.old.state.mounted ≡ true }
    requires kind { is_unmount request ≡ false }
    ensures last { is_last_post (last_of unposted poster.new.posted) book.new.state ≡ true }
    ensures home { is_some home.new ≡ is_some book.new.state.mounted }
    ensures log { has_log book.new.state.mounted ≡ has_log book.old.state.mounted }
    ensures idle { is_flown_by_job book.new.state.mounted ≡ true }
    ensures board { seat.new.board ≡ seat.old.board }
    ensures refused { is_no_memory result ≡ true → IsSameBook book.old book.new × IsSameSeat seat.old seat.new }
    ensures tried { is_no_memory result ≡ true → (home.new ≡ home.old) ⊎ ((answer : AnAnswer) × MatchOption home.old (home.new ≡ None) (λ h. IfSome home.new (λ k. Tells (home_tells h) (home_taken h) (read_calls (read_block request) answer) (home_tells k) (home_taken k)))) }
    ensures booked { is_no_memory result ≡ false → (step : AStep) × IsStepOf S life request book.old.state.mounted step × IsEvent S step result book.old book.new seat.old seat.new poster.old poster.new × MatchOption home.old (home.new ≡ None) (λ h. IfSome home.new (λ k. Tells (home_tells h) (home_taken h) (step_calls step) (home_tells k) (home_taken k))) }
    ensures counted { is_no_memory result ≡ false → ⟦<Shares<H> as Counts<H, S>>⟧.counts seat.new.counts ≡ counted S (⟦<Shares<H> as Counts<H, S>>⟧.counts seat.old.counts) }
    ensures failures { is_no_memory result ≡ false → (step : AStep) × (number : ℕ) × (seat.new.receipts ≡ seat.old.receipts ++ receipt S number step result ∷ []) × MatchOption home.old (home.new ≡ None) (λ h. IfSome home.new (λ k. home_failures k ≡ home_failures h + failed_calls step)) }
{
    let Ok(answer) = ready(alloc, book, seat, home, life, &request, rooms) else {
        return Reply::Refused(Errno::NoMemory);
    };
    let reply = book.ask(seat, life, request, answer, rooms);
    if !reply.is_no_memory() {
        post_both(rt, book, poster, seat.caller());
    }
    reply
}
