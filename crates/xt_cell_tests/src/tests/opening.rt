//! What a cell is made of, and each of its calls.

ghost use Rattle.std.specs.Prelude.{◌≡◌, ◌-◌, ◌^◌, IfOk, false};
ghost use Rattle.std.specs.Arc.{arc_value};
ghost use Rattle.xt_base.specs.Calls.{is_unmount};
ghost use Rattle.xt_frames.specs.Shares.{no_contents};
ghost use Rattle.xt_queue.specs.Passes.{fresh_post};
ghost use Rattle.xt_cell.specs.Ledgers.{AreCut, AreNamed};

use std::alloc::{AllocError, Global};
use std::sync::ledger::Book;
use std::sync::{Arc, Wait};
use xt_base::names::{JobName, Life, Slot, Worker};
use xt_base::sizes::SLOTS;
use xt_base::steps::{Errno, Reason, Reply, Request};
use xt_cell::{
    Account, Blanks, Books, DoneJob, EndFault, HostSeat, House, MountRef, MountRefused, Of, Poster,
    Reserve, SlotBook, SlotCell,
};
use xt_dev::home::HomeDevice;
use xt_dev::log::LogDevice;
use xt_frames::share::FrameShare;
use xt_frames::table::FrameTable;
use xt_mount::mount::Stage;
use xt_queue::{Board, JobQueue, PostPass, Seat, WorkPass};

/// From how many entries on a cell's book is folded, where a test asks for that.
pub const BOOK_LIMIT: u64 = 4;

/// The two devices of a mount.
pub type Devices = (Box<dyn HomeDevice + Send>, Box<dyn LogDevice + Send>);

/// The way to the board and to the queue, and from there, and the frames of slot 15.
#[derive(Drop)]
pub struct Ways {
    board: Board,
    showing: Seat,
    reading: Seat,
    queue: Arc<JobQueue, Global>,
    posting: Arc<JobQueue, Global>,
    post: PostPass,
    work: WorkPass,
    share: FrameShare,
    ghost shows: { showing.board ≡ board },
    ghost reads: { reading.board ≡ board },
    ghost posts: { post ≡ fresh_post (arc_value posting) 15 },
    ghost takes: { work.queue ≡ arc_value queue },
    ghost empty: { share ≡ no_contents 15 },
}

/// A queue twice, with the pass of slot 15 and of a worker.
type Queued = (
    Arc<JobQueue, Global>,
    Arc<JobQueue, Global>,
    PostPass,
    WorkPass,
);

/// Shares a queue.
fn shared(
    alloc: Global,
    queue: JobQueue,
) -> Result<(Arc<JobQueue, Global>, Arc<JobQueue, Global>), AllocError>
    ensures first { IfOk result (λ two. arc_value two.0 ≡ queue) }
    ensures second { IfOk result (λ two. arc_value two.1 ≡ queue) }
{
    let queue = Arc::new(alloc, queue)?;
    let posting = Arc::try_clone(&queue)?;
    Ok((queue, posting))
}

/// A new queue.
fn queued(alloc: Global) -> Result<Queued, AllocError>
    ensures post { IfOk result (λ made. made.2 ≡ fresh_post (arc_value made.1) 15) }
    ensures work { IfOk result (λ made. made.3.queue ≡ arc_value made.0) }
{
    let Ok((queue, mut passes)) = JobQueue::new(alloc) else {
        return Err(AllocError);
    };
    let (Some(post), Some(work)) = (passes.posts.pop(), passes.works.pop()) else {
        unreachable!();
    };
    let (queue, posting) = shared(alloc, queue)?;
    Ok((queue, posting, post, work))
}

/// The frames of slot 15, without contents.
fn new_share(alloc: Global) -> Result<FrameShare, AllocError>
    ensures { IfOk result (λ share. share ≡ no_contents 15) }
{
    let Some(slot) = Slot::new(15) else {
        unreachable!();
    };
    let mut table = FrameTable::new(alloc, SLOTS as u8)?;
    match table.take_share(slot) {
        Some(share) => Ok(share),
        None => unreachable!(),
    }
}

/// A new queue and a new board.
pub fn new_ways(alloc: Global) -> Result<Ways, AllocError> {
    let (queue, posting, post, work) = queued(alloc)?;
    let Ok((board, mut showing)) = Board::new(alloc) else {
        return Err(AllocError);
    };
    let reading = board.split(&mut showing);
    let share = new_share(alloc)?;
    Ok(Ways {
        board,
        showing,
        reading,
        queue,
        posting,
        post,
        work,
        share,
    })
}

/// The ledger of slot 15, and the reserve of seats.
pub fn opened<H: House>(blanks: Blanks) -> (Book<Of<H, 15>>, Reserve<H>)
    requires names { AreNamed H.names blanks }
    requires parts { AreCut H.all blanks }
    requires all { H.all ≡ 2 ^ 64 - 1 }
    ensures none { result.0.total ≡ 0 }
    ensures first { result.1 ≡ 1 }
{
    let (books, reserve) = Reserve::open(blanks);
    let Books { b15, .. } = books;
    (b15, reserve)
}

/// A cell of slot 15 that was never mounted, over a queue.
fn cell_over<H: House>(
    alloc: Global,
    count: Book<Of<H, 15>>,
    share: FrameShare,
    queue: Arc<JobQueue, Global>,
    post: PostPass,
) -> SlotCell<H, 15>
    requires none { count.total ≡ 0 }
    requires share { share ≡ no_contents 15 }
    requires post { post ≡ fresh_post (arc_value queue) 15 }
{
    let book = SlotBook::new(alloc, share, count);
    let poster = Poster::new(queue, post);
    SlotCell::new(alloc, BOOK_LIMIT, book, poster, None, None)
}

/// A cell of slot 15 with the way to take what it posts, and a seat with its board.
pub struct Parts<H: House> {
    cell: SlotCell<H, 15>,
    seat: HostSeat<H>,
    board: Board,
    reading: Seat,
    queue: Arc<JobQueue, Global>,
    work: WorkPass,
    ghost shows: { seat.board.board ≡ board },
    ghost reads: { reading.board ≡ board },
    ghost takes: { work.queue ≡ arc_value queue },
}

impl<H: House> Drop for Parts<H> {
    fn drop(self) {
        let Parts {
            cell: _cell,
            seat: _seat,
            board: _board,
            reading: _reading,
            queue: _queue,
            work: _work,
        } = self;
    }
}

impl<H: House> Parts<H> {
    /// All of it, over a ledger.
    pub fn new(alloc: Global, count: Book<Of<H, 15>>, reserve: Reserve<H>, ways: Ways) -> Self
        requires none { count.total ≡ 0 }
        requires first { reserve ≡ 1 }
    {
        let Ways {
            board,
            showing,
            reading,
            queue,
            posting,
            post,
            work,
            share,
        } = ways;
        let mut reserve = reserve;
        Parts {
            cell: cell_over(alloc, count, share, posting, post),
            seat: HostSeat::first(alloc, &mut reserve, showing),
            board,
            reading,
            queue,
            work,
        }
    }

    /// The seat.
    pub fn seat(&self) -> &HostSeat<H> {
        &self.seat
    }

    /// Folds the book, where it is at its limit and there is memory.
    pub fn fold(&mut self) {
        self.cell.fold();
    }

    /// Mounts the slot, with blocks of a size where one is said.
    pub fn mount<R: Wait>(
        &mut self,
        rt: &R,
        size: Option<u32>,
        devices: Devices,
    ) -> Result<MountRef, MountRefused> {
        let (home, log) = devices;
        self.cell.mount(
            rt,
            &mut self.seat,
            &self.board,
            65536,
            1024,
            size,
            home,
            log,
        )
    }

    /// Takes the devices back.
    pub fn unmount<R: Wait>(&mut self, rt: &R, at: MountRef) -> Result<Devices, Errno>
        requires slot { at.slot ≡ 15 }
    {
        self.cell.unmount(rt, &mut self.seat, at)
    }

    /// Asks the mount something.
    pub fn ask<R: Wait>(&mut self, rt: &R, at: MountRef, request: Request) -> Reply
        requires slot { at.slot ≡ 15 }
        requires kind { is_unmount request ≡ false }
    {
        self.cell.call(rt, &mut self.seat, &self.board, at, request)
    }

    /// The next name.
    pub fn take<R: Wait>(&mut self, rt: &R) -> Option<JobName> {
        self.queue.take(rt, &mut self.work)
    }

    /// Begins a checkpoint, and runs it; None where that does not wait.
    pub fn begin<R: Wait>(
        &mut self,
        rt: &R,
        worker: Worker,
        name: &JobName,
    ) -> Option<(Reply, Option<DoneJob>)> {
        if !name.kind.is_ckpt()
            || name.slot.index() != 15
            || self.cell.stage(name) != Some(Stage::Waiting)
        {
            return None;
        }
        let (reply, job) = self.cell.begin(rt, &mut self.seat, worker, name);
        match job {
            Some(job) => Some((reply, Some(job.run()))),
            None => Some((reply, None)),
        }
    }

    /// Ends a checkpoint; where that is not done the job comes back, and so does one of another slot.
    pub fn end<R: Wait>(&mut self, rt: &R, done: DoneJob) -> Result<Reply, (DoneJob, EndFault)> {
        if done.slot().index() != 15 {
            return Err((done, EndFault::Stranger));
        }
        self.cell.end(rt, &mut self.seat, &self.board, done)
    }

    /// Runs a flush; None where that does not wait.
    pub fn flush<R: Wait>(&mut self, rt: &R, worker: Worker, name: &JobName) -> Option<Reply> {
        if name.kind.is_ckpt()
            || name.slot.index() != 15
            || self.cell.stage(name) != Some(Stage::Waiting)
        {
            return None;
        }
        Some(
            self.cell
                .flush(rt, &mut self.seat, &self.board, worker, name),
        )
    }

    /// Closes the slot: its book, and the seat.
    pub fn close(self) -> (Account, HostSeat<H>) {
        let Parts {
            cell,
            seat,
            board: _board,
            reading: _reading,
            queue: _queue,
            work: _work,
        } = self;
        (cell.into_account(), seat)
    }

    /// What the board shows of the slot.
    pub fn peek(&mut self, slot: Slot) -> (Life, Option<Reason>) {
        self.board.peek(&mut self.reading, slot)
    }
}
