//! The jobs of a locked slot: a checkpoint's begin and end, between which its worker has the log device, and a flush.

ghost use Rattle.std.specs.Bool.{Decides};
ghost use Rattle.std.specs.Prelude.{◌≡◌, ◌+◌, ◌++◌, ◌≤◌, ◌∷◌, [], All, None, IfErr, IfOk, IfSome, MatchOption, OnErr, OnOk, Some, false, is_some, length, true, ℕ};
ghost use Rattle.xt_base.specs.Alone.{has_begun, reason_of};
ghost use Rattle.xt_base.specs.Isolation.{is_no_memory};
ghost use Rattle.xt_base.specs.Jobs.{fits_pieces, fits_plan, is_begun, is_ckpt, is_waiting};
ghost use Rattle.xt_base.specs.Maps.{is_in};
ghost use Rattle.xt_base.specs.Order.{mount_is};
ghost use Rattle.xt_base.specs.declared.sizes.TheConstants.{PIECE_BYTES, TEXT_PIECES};
ghost use Rattle.xt_base.specs.declared.steps.HomeAnswers.{HomeAnswers as AnAnswer};
ghost use Rattle.xt_base.specs.declared.steps.Step.{Step as AStep};
ghost use Rattle.xt_cell.specs.Asking.{flush_calls};
ghost use Rattle.xt_cell.specs.Books.{IsSameBook};
ghost use Rattle.xt_cell.specs.Cells.{IsEvent, IsFlight, IsShown, word_shown};
ghost use Rattle.xt_cell.specs.Counting.{counted};
ghost use Rattle.xt_cell.specs.Events.{IsBooked};
ghost use Rattle.xt_cell.specs.Facts.{has_log, is_flown_by_job, is_last_post};
ghost use Rattle.xt_cell.specs.HostSeats.{IsSameSeat, receipt};
ghost use Rattle.xt_cell.specs.declared.running.EndFault.TheVariants.{Memory as NoRoom, Stranger as OfNoFlight};
ghost use Rattle.xt_dev.specs.Devices.{IsCut, Tells};
ghost use Rattle.xt_dev.specs.Flushes.{failed_answers};
ghost use Rattle.xt_mount.specs.Slots.{IsUnchangedIn, contents_in, pieces_in, plan_in, spent_in};
ghost use Rattle.xt_queue.specs.Names.{last_of, unposted};
ghost use Rattle.xt_queue.specs.Boards.{Rises};

use crate::asking;
use crate::book::SlotBook;
use crate::cell::SlotCell;
use crate::event::{make_room, show_shut};
use crate::house::House;
use crate::job::{CkptJob, DoneJob};
use crate::poster::Poster;
use crate::posting::post_both;
use crate::seat::HostSeat;
use crate::shares::{Counts, Shares};
use bytes::Bytes;
use std::sync::Wait;
use xt_base::names::{JobName, Worker};
use xt_base::steps::{Errno, HomeAnswers, LogAnswers, Reply};
use xt_dev::home::HomeDevice;
use xt_dev::log::LogDevice;
use xt_items::plan::FlushPlan;
use xt_mount::mount::Stage;
use xt_queue::board::Board;

/// Why a checkpoint was not ended.
#[derive(Clone, Copy, Debug, PartialEq, Eq)]
pub enum EndFault {
    /// Its name or its pieces are not those of the checkpoint in flight.
    Stranger,
    /// There is no room for its entry or its receipt.
    Memory,
}

impl<H: House, const S: u8> SlotCell<H, S> {
    /// Begins an outstanding checkpoint for a worker: with the reply comes the job, which has the pieces and the log device; none where
    /// the mount is shut, and so there is nothing to do. ENOMEM where memory is refused: then nothing was booked, and the job waits.
    pub fn begin<R: Wait>(
        &mut self,
        rt: &R,
        seat: &mut HostSeat<H>,
        worker: Worker,
        name: &JobName,
    ) -> (Reply, Option<CkptJob>)
    where
        Shares<H>: Counts<H, S>,
        requires slot { name.now.slot ≡ S }
        requires kind { is_ckpt name.now.kind ≡ true }
        requires waiting { mount_is (is_waiting name.now) self.old.book.state.mounted ≡ true }
        ensures refused { is_no_memory result.0 ≡ true → IsSameBook self.old.book self.new.book × IsSameSeat seat.old seat.new }
        ensures booked { is_no_memory result.0 ≡ false → IsEvent S (AStep.Begin worker name.now) result.0 self.old.book self.new.book seat.old seat.new self.old.poster self.new.poster }
        ensures counted { is_no_memory result.0 ≡ false → ⟦<Shares<H> as Counts<H, S>>⟧.counts seat.new.counts ≡ counted S (⟦<Shares<H> as Counts<H, S>>⟧.counts seat.old.counts) }
        ensures job { is_some result.1 ≡ has_begun result.0 }
        ensures named { IfSome result.1 (λ job. (job.worker ≡ worker) × (job.name ≡ name.now)) }
        ensures pieces { IfSome result.1 (λ job. job.pieces.items ≡ pieces_in self.new.book.state.mounted) }
        ensures log { MatchOption result.1 (self.new.log ≡ self.old.log) (λ job. (self.old.log ≡ Some job.log) × (self.new.log ≡ None)) }
        ensures home { self.new.home ≡ self.old.home }
        ensures shown { seat.new.board ≡ seat.old.board }
    {
        let SlotCell {
            book,
            poster,
            log,
            ..
        } = self;
        let (reply, pieces) = serve_begin(rt, book, poster, seat, worker, name);
        match pieces {
            Some(pieces) => match log.take() {
                Some(log) => (
                    reply,
                    Some(CkptJob {
                        worker,
                        name: *name,
                        pieces,
                        log,
                    }),
                ),
                None => unreachable!(),
            },
            None => (reply, None),
        }
    }

    /// Ends the checkpoint in flight by what the log device answered, and takes the device back. A job that is not the flight's, by its
    /// name or its pieces, comes back, and so does one for which there is no memory: then nothing was booked.
    pub fn end<R: Wait>(
        &mut self,
        rt: &R,
        seat: &mut HostSeat<H>,
        board: &Board,
        done: DoneJob,
    ) -> Result<Reply, (DoneJob, EndFault)>
    where
        Shares<H>: Counts<H, S>,
        requires slot { done.name.slot ≡ S }
        requires board { seat.old.board.board ≡ board.now }
        ensures booked { IfOk result (λ reply. IsEvent S (AStep.End done.worker done.name done.answers) reply self.old.book self.new.book seat.old seat.new self.old.poster self.new.poster) }
        ensures counted { OnOk result (⟦<Shares<H> as Counts<H, S>>⟧.counts seat.new.counts ≡ counted S (⟦<Shares<H> as Counts<H, S>>⟧.counts seat.old.counts)) }
        ensures flight { OnOk result (IsFlight done.name done.pieces.items self.old.book.state.mounted) }
        ensures log { OnOk result (self.new.log ≡ Some done.log) }
        ensures stranger { IfErr result (λ back. back.1 ≡ OfNoFlight → IsFlight done.name done.pieces.items self.old.book.state.mounted → false ≡ true) }
        ensures memory { IfErr result (λ back. back.1 ≡ NoRoom → IsFlight done.name done.pieces.items self.old.book.state.mounted) }
        ensures back { IfErr result (λ back. (back.0 ≡ done) × IsSameBook self.old.book self.new.book × IsSameSeat seat.old seat.new × (self.new.log ≡ self.old.log)) }
        ensures home { self.new.home ≡ self.old.home }
        ensures shown { OnOk result (IsShown S (word_shown false (reason_of self.old.book.state.mounted) self.new.book.state.mounted) seat.old.board seat.new.board) }
        ensures board { seat.new.board.board ≡ seat.old.board.board }
        ensures rises { Rises seat.old.board.seen seat.new.board.seen }
        ensures splits { seat.new.board.splits ≡ seat.old.board.splits }
        ensures rank { seat.new.board.rank ≡ seat.old.board.rank }
    {
        let SlotCell {
            book,
            poster,
            log,
            ..
        } = self;
        if !is_flight(book, &done) {
            return Err((done, EndFault::Stranger));
        }
        let Ok(()) = make_room(book, seat) else {
            return Err((done, EndFault::Memory));
        };
        let DoneJob {
            worker,
            name,
            pieces: _,
            log: device,
            answers,
        } = done;
        let before = book.slot().shut();
        let reply = serve_end(rt, book, poster, seat, worker, &name, &answers);
        *log = Some(device);
        show_shut(book, seat, board, false, before);
        Ok(reply)
    }

    /// Runs an outstanding flush: offers the home device what its plan names, and books what it answered. Where all that landed is
    /// home then, the log device is told that it may be cut; nothing else happens to it. ENOMEM where memory is
    /// refused: then no device was asked and nothing was booked, and the job waits.
    pub fn flush<R: Wait>(
        &mut self,
        rt: &R,
        seat: &mut HostSeat<H>,
        board: &Board,
        worker: Worker,
        name: &JobName,
    ) -> Reply
    where
        Shares<H>: Counts<H, S>,
        requires slot { name.now.slot ≡ S }
        requires board { seat.old.board.board ≡ board.now }
        requires kind { is_ckpt name.now.kind ≡ false }
        requires waiting { mount_is (is_waiting name.now) self.old.book.state.mounted ≡ true }
        ensures refused { is_no_memory result ≡ true → IsSameBook self.old.book self.new.book × IsSameSeat seat.old seat.new × (self.new.home ≡ self.old.home) × (self.new.log ≡ self.old.log) }
        ensures booked { is_no_memory result ≡ false → (answers : AnAnswer) × IsEvent S (AStep.Flush worker name.now answers) result self.old.book self.new.book seat.old seat.new self.old.poster self.new.poster × IfSome self.old.home (λ h. IfSome self.new.home (λ k. Tells (home_tells h) (home_taken h) (flush_calls answers self.old.book.state.mounted) (home_tells k) (home_taken k))) }
        ensures failures { is_no_memory result ≡ false → (answers : AnAnswer) × (number : ℕ) × (seat.new.receipts ≡ seat.old.receipts ++ receipt S number (AStep.Flush worker name.now answers) result ∷ []) × IfSome self.old.home (λ h. IfSome self.new.home (λ k. home_failures k ≡ home_failures h + failed_answers answers)) }
        ensures counted { is_no_memory result ≡ false → ⟦<Shares<H> as Counts<H, S>>⟧.counts seat.new.counts ≡ counted S (⟦<Shares<H> as Counts<H, S>>⟧.counts seat.old.counts) }
        ensures log_needed { spent_in self.new.book.state.mounted ≡ None → self.new.log ≡ self.old.log }
        ensures log_kept { IfSome self.old.log (λ d. IfSome self.new.log (λ e. (log_tells e ≡ log_tells d) × (log_taken e ≡ log_taken d) × (log_failures e ≡ log_failures d))) }
        ensures log_cut { IfSome (spent_in self.new.book.state.mounted) (λ size. IfSome self.old.log (λ d. IfSome self.new.log (λ e. IsCut size (log_taken d) (log_cuts d) (log_cuts e)))) }
        ensures shown { is_no_memory result ≡ false → IsShown S (word_shown false (reason_of self.old.book.state.mounted) self.new.book.state.mounted) seat.old.board seat.new.board }
        ensures board { seat.new.board.board ≡ seat.old.board.board }
        ensures rises { Rises seat.old.board.seen seat.new.board.seen }
        ensures splits { seat.new.board.splits ≡ seat.old.board.splits }
        ensures rank { seat.new.board.rank ≡ seat.old.board.rank }
    {
        let SlotCell {
            book,
            poster,
            home,
            log,
            ..
        } = self;
        let Ok(()) = make_room(book, seat) else {
            return Reply::Refused(Errno::NoMemory);
        };
        let before = book.slot().shut();
        let plan = plan_of(book);
        let answers = offered(book, home, &plan);
        let reply = serve_flush(rt, book, poster, seat, worker, name, &plan, &answers);
        cut_spent(book, log);
        show_shut(book, seat, board, false, before);
        reply
    }
}

/// Whether a job is that of the checkpoint in flight, by its name and its pieces.
fn is_flight<H: House, const S: u8>(book: &SlotBook<H, S>, done: &DoneJob) -> bool
    requires slot { done.now.name.slot ≡ S }
    ensures { Decides result (IsFlight done.now.name done.now.pieces.items book.now.state.mounted) }
{
    book.slot().stage(&done.name) == Some(Stage::Begun)
        && same_pieces(&done.pieces, book.slot().pieces())
}

/// Whether two lists of pieces are one.
#[tactic(auto, using(crate::proofs::RunLemmas::pieces_decide))]
fn same_pieces(pieces: &[Bytes], others: &[Bytes]) -> bool
    ensures { Decides result (pieces.now ≡ others.now) }
{
    pieces == others
}

/// Begins a checkpoint and books that with its posts, or is refused memory: the reply, and the pieces where one is begun.
fn serve_begin<H: House, R: Wait, const S: u8>(
    rt: &R,
    book: &mut SlotBook<H, S>,
    poster: &mut Poster<S>,
    seat: &mut HostSeat<H>,
    worker: Worker,
    name: &JobName,
) -> (Reply, Option<Vec<Bytes>>)
where
    Shares<H>: Counts<H, S>,
    requires last { is_last_post (last_of unposted poster.old.posted) book.old.state ≡ true }
    requires idle { is_flown_by_job book.old.state.mounted ≡ true }
    requires slot { name.now.slot ≡ S }
    requires kind { is_ckpt name.now.kind ≡ true }
    requires waiting { mount_is (is_waiting name.now) book.old.state.mounted ≡ true }
    ensures last { is_last_post (last_of unposted poster.new.posted) book.new.state ≡ true }
    ensures home { is_some book.new.state.mounted ≡ is_some book.old.state.mounted }
    ensures idle { is_flown_by_job book.new.state.mounted ≡ true }
    ensures begun { is_some result.1 ≡ true → (has_log book.old.state.mounted ≡ true) × (has_log book.new.state.mounted ≡ false) }
    ensures other { is_some result.1 ≡ false → has_log book.new.state.mounted ≡ has_log book.old.state.mounted }
    ensures board { seat.new.board ≡ seat.old.board }
    ensures refused { is_no_memory result.0 ≡ true → IsSameBook book.old book.new × IsSameSeat seat.old seat.new }
    ensures booked { is_no_memory result.0 ≡ false → IsEvent S (AStep.Begin worker name.now) result.0 book.old book.new seat.old seat.new poster.old poster.new }
    ensures counted { is_no_memory result.0 ≡ false → ⟦<Shares<H> as Counts<H, S>>⟧.counts seat.new.counts ≡ counted S (⟦<Shares<H> as Counts<H, S>>⟧.counts seat.old.counts) }
    ensures job { is_some result.1 ≡ has_begun result.0 }
    ensures pieces { IfSome result.1 (λ pieces. pieces.items ≡ pieces_in book.new.state.mounted) }
    ensures count { IfSome result.1 (λ pieces. length pieces.items ≤ TEXT_PIECES) }
    ensures short { IfSome result.1 (λ pieces. All (λ piece. length piece ≤ PIECE_BYTES) pieces.items) }
{
    let Ok(()) = make_room(book, seat) else {
        return (Reply::Refused(Errno::NoMemory), None);
    };
    let (reply, pieces) = started(book, seat, worker, name);
    if reply.is_no_memory() {
        return (reply, pieces);
    }
    post_both(rt, book, poster, seat.caller());
    (reply, pieces)
}

/// Begins a checkpoint and books that, or is refused memory: the reply, and the pieces where one is begun.
fn started<H: House, const S: u8>(
    book: &mut SlotBook<H, S>,
    seat: &mut HostSeat<H>,
    worker: Worker,
    name: &JobName,
) -> (Reply, Option<Vec<Bytes>>)
where
    Shares<H>: Counts<H, S>,
    requires slot { name.now.slot ≡ S }
    requires kind { is_ckpt name.now.kind ≡ true }
    requires waiting { mount_is (is_waiting name.now) book.old.state.mounted ≡ true }
    requires room { 1 ≤ book.old.room }
    requires seat { 1 ≤ seat.old.room }
    ensures booked { is_no_memory result.0 ≡ false → IsBooked S (AStep.Begin worker name.now) result.0 book.old book.new seat.old seat.new }
    ensures counted { is_no_memory result.0 ≡ false → ⟦<Shares<H> as Counts<H, S>>⟧.counts seat.new.counts ≡ counted S (⟦<Shares<H> as Counts<H, S>>⟧.counts seat.old.counts) }
    ensures refused { is_no_memory result.0 ≡ true → (book.new ≡ book.old) × (seat.new ≡ seat.old) }
    ensures room { is_no_memory result.0 ≡ false → book.new.room + 1 ≡ book.old.room }
    ensures job { is_some result.1 ≡ has_begun result.0 }
    ensures pieces { IfSome result.1 (λ pieces. pieces.items ≡ pieces_in book.new.state.mounted) }
    ensures count { IfSome result.1 (λ pieces. length pieces.items ≤ TEXT_PIECES) }
    ensures short { IfSome result.1 (λ pieces. All (λ piece. length piece ≤ PIECE_BYTES) pieces.items) }
{
    let (reply, pieces) = book.begin(seat, worker, name);
    let own = book.slot().pieces();
    let pieces = if_begun(&reply, pieces, own);
    (reply, pieces)
}

/// The pieces of a checkpoint, where a reply says that it was begun: then they are those of the mount.
fn if_begun(reply: &Reply, pieces: Vec<Bytes>, own: &[Bytes]) -> Option<Vec<Bytes>>
    requires own { has_begun reply.now ≡ true → pieces.items ≡ own.now }
    ensures job { is_some result ≡ has_begun reply.now }
    ensures pieces { IfSome result (λ same. same.items ≡ own.now) }
{
    let _own = own;
    if has_begun(reply) { Some(pieces) } else { None }
}

/// Whether a reply says that a checkpoint was begun.
fn has_begun(reply: &Reply) -> bool
    ensures { result ≡ has_begun reply.now }
{
    matches!(reply, Reply::Begun { .. })
}

/// Ends a checkpoint and books that with its posts.
fn serve_end<H: House, R: Wait, const S: u8>(
    rt: &R,
    book: &mut SlotBook<H, S>,
    poster: &mut Poster<S>,
    seat: &mut HostSeat<H>,
    worker: Worker,
    name: &JobName,
    answers: &LogAnswers,
) -> Reply
where
    Shares<H>: Counts<H, S>,
    requires last { is_last_post (last_of unposted poster.old.posted) book.old.state ≡ true }
    requires slot { name.now.slot ≡ S }
    requires begun { mount_is (is_begun name.now) book.old.state.mounted ≡ true }
    requires fits { fits_pieces answers.now (length (pieces_in book.old.state.mounted)) ≡ true }
    requires room { 3 ≤ book.old.room }
    requires seat { 1 ≤ seat.old.room }
    ensures last { is_last_post (last_of unposted poster.new.posted) book.new.state ≡ true }
    ensures home { is_some book.new.state.mounted ≡ is_some book.old.state.mounted }
    ensures log { has_log book.new.state.mounted ≡ true }
    ensures idle { is_flown_by_job book.new.state.mounted ≡ true }
    ensures board { seat.new.board ≡ seat.old.board }
    ensures booked { IsEvent S (AStep.End worker name.now answers.now) result book.old book.new seat.old seat.new poster.old poster.new }
    ensures counted { ⟦<Shares<H> as Counts<H, S>>⟧.counts seat.new.counts ≡ counted S (⟦<Shares<H> as Counts<H, S>>⟧.counts seat.old.counts) }
{
    let reply = book.end(seat, worker, name, answers);
    post_both(rt, book, poster, seat.caller());
    reply
}

/// What a flush writes home now.
fn plan_of<H: House, const S: u8>(book: &SlotBook<H, S>) -> FlushPlan
    ensures planned { result ≡ plan_in book.now.state.mounted }
    ensures committed { All (λ b. is_in b (contents_in book.now.state.mounted) ≡ true) result }
    ensures unchanged { All (λ b. IsUnchangedIn b book.now.state.mounted) result }
{
    book.slot().flush_plan()
}

/// What the home device of a mount answers to a flush of this plan; it is offered the flush's writes once.
fn offered<H: House, const S: u8>(
    book: &SlotBook<H, S>,
    home: &mut Option<Box<dyn HomeDevice + Send>>,
    plan: &FlushPlan,
) -> HomeAnswers
    requires home { is_some home.old ≡ true }
    requires planned { plan.now ≡ plan_in book.now.state.mounted }
    requires committed { All (λ b. is_in b (contents_in book.now.state.mounted) ≡ true) plan.now }
    requires unchanged { All (λ b. IsUnchangedIn b book.now.state.mounted) plan.now }
    ensures fits { fits_plan result plan.now ≡ true }
    ensures home { is_some home.new ≡ true }
    ensures offered { IfSome home.old (λ h. IfSome home.new (λ k. Tells (home_tells h) (home_taken h) (flush_calls result book.now.state.mounted) (home_tells k) (home_taken k))) }
    ensures failures { IfSome home.old (λ h. IfSome home.new (λ k. home_failures k ≡ home_failures h + failed_answers result)) }
{
    match home {
        Some(home) => asking::flush(&mut **home, book.slot(), plan),
        None => unreachable!(),
    }
}

/// Ends a flush and books that with its posts.
fn serve_flush<H: House, R: Wait, const S: u8>(
    rt: &R,
    book: &mut SlotBook<H, S>,
    poster: &mut Poster<S>,
    seat: &mut HostSeat<H>,
    worker: Worker,
    name: &JobName,
    plan: &FlushPlan,
    answers: &HomeAnswers,
) -> Reply
where
    Shares<H>: Counts<H, S>,
    requires last { is_last_post (last_of unposted poster.old.posted) book.old.state ≡ true }
    requires idle { is_flown_by_job book.old.state.mounted ≡ true }
    requires slot { name.now.slot ≡ S }
    requires kind { is_ckpt name.now.kind ≡ false }
    requires waiting { mount_is (is_waiting name.now) book.old.state.mounted ≡ true }
    requires planned { plan.now ≡ plan_in book.old.state.mounted }
    requires fits { fits_plan answers.now plan.now ≡ true }
    requires room { 3 ≤ book.old.room }
    requires seat { 1 ≤ seat.old.room }
    ensures last { is_last_post (last_of unposted poster.new.posted) book.new.state ≡ true }
    ensures home { is_some book.new.state.mounted ≡ is_some book.old.state.mounted }
    ensures log { has_log book.new.state.mounted ≡ has_log book.old.state.mounted }
    ensures idle { is_flown_by_job book.new.state.mounted ≡ true }
    ensures board { seat.new.board ≡ seat.old.board }
    ensures happened { is_no_memory result ≡ false }
    ensures booked { IsEvent S (AStep.Flush worker name.now answers.now) result book.old book.new seat.old seat.new poster.old poster.new }
    ensures counted { ⟦<Shares<H> as Counts<H, S>>⟧.counts seat.new.counts ≡ counted S (⟦<Shares<H> as Counts<H, S>>⟧.counts seat.old.counts) }
{
    let reply = book.flush(seat, worker, name, plan, answers);
    post_both(rt, book, poster, seat.caller());
    reply
}

/// Tells a log that it may be cut, where nothing on it is of use any more.
fn cut_spent<H: House, const S: u8>(
    book: &SlotBook<H, S>,
    log: &mut Option<Box<dyn LogDevice + Send>>,
)
    ensures needed { spent_in book.now.state.mounted ≡ None → log.new ≡ log.old }
    ensures hand { is_some log.new ≡ is_some log.old }
    ensures offered { IfSome log.old (λ d. IfSome log.new (λ e. (log_tells e ≡ log_tells d) × (log_taken e ≡ log_taken d) × (log_failures e ≡ log_failures d))) }
    ensures cut { IfSome (spent_in book.now.state.mounted) (λ size. IfSome log.old (λ d. IfSome log.new (λ e. IsCut size (log_taken d) (log_cuts d) (log_cuts e)))) }
{
    if let (Some(size), Some(log)) = (book.slot().spent_log(), log) {
        log.cut(size);
    }
}
