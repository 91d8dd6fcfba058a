//! What is done with a locked slot besides its calls, as values: so that one function finds a slot and its lock, whatever is to be done
//! there.

ghost use Rattle.std.specs.Prelude.{◌≡◌};
ghost use Rattle.xt_slots.specs.Commands.{Did, MayBe, slot_of, with_counts};

use std::sync::Wait;
use xt_base::names::{JobName, Slot, Worker};
use xt_base::steps::{Errno, Reply};
use xt_cell::cell::SlotCell;
use xt_cell::house::House;
use xt_cell::job::{CkptJob, DoneJob};
use xt_cell::mount_ref::MountRef;
use xt_cell::mounting::MountRefused;
use xt_cell::running::EndFault;
use xt_cell::seat::HostSeat;
use xt_cell::shares::{Counts, Shares};
use xt_dev::home::HomeDevice;
use xt_dev::log::LogDevice;
use xt_mount::mount::Stage;
use xt_queue::board::Board;

/// Something to do with one locked slot.
pub enum Command {
    /// Mounts the slot anew over these devices, with blocks of a size where one is named.
    Mount {
        slot: Slot,
        log_bytes: u32,
        blocks: u64,
        size: Option<u32>,
        home: Box<dyn HomeDevice + Send>,
        log: Box<dyn LogDevice + Send>,
    },
    /// Unmounts a mount.
    Unmount {
        at: MountRef,
    },
    /// Begins a checkpoint for a worker, where its name waits.
    Begin {
        worker: Worker,
        name: JobName,
    },
    /// Ends a checkpoint that was run.
    End {
        done: DoneJob,
    },
    /// Runs a flush for a worker, where its name waits.
    Flush {
        worker: Worker,
        name: JobName,
    },
}

/// What comes of a command, for each kind.
pub enum Outcome {
    Mounted(Result<MountRef, MountRefused>),
    Unmounted(Result<(Box<dyn HomeDevice + Send>, Box<dyn LogDevice + Send>), Errno>),
    Begun(Option<(Reply, Option<CkptJob>)>),
    Ended(Result<Reply, (DoneJob, EndFault)>),
    Flushed(Option<Reply>),
}

impl Command {
    /// Its slot.
    pub fn slot(&self) -> Slot
        ensures { result ≡ slot_of self.now }
    {
        match self {
            Command::Unmount { at } => at.slot,
            Command::Mount { slot, .. } => *slot,
            Command::Begin { name, .. } | Command::Flush { name, .. } => name.slot,
            Command::End { done } => done.slot(),
        }
    }

    /// Does it with its slot.
    pub fn run<H: House, R: Wait, const S: u8>(
        self,
        rt: &R,
        cell: &mut SlotCell<H, S>,
        seat: &mut HostSeat<H>,
        board: &Board,
    ) -> Outcome
    where
        Shares<H>: Counts<H, S>,
        requires slot { slot_of self ≡ S }
        requires kind { MayBe self }
        requires board { seat.old.board.board ≡ board.now }
        ensures did { Did self (with_counts (⟦<Shares<H> as Counts<H, S>>⟧.counts seat.old.counts) seat.old) (with_counts (⟦<Shares<H> as Counts<H, S>>⟧.counts seat.new.counts) seat.new) result }
        ensures board { seat.new.board.board ≡ seat.old.board.board }
    {
        match self {
            Command::Mount {
                slot: _,
                log_bytes,
                blocks,
                size,
                home,
                log,
            } => Outcome::Mounted(cell.mount(rt, seat, board, log_bytes, blocks, size, home, log)),
            Command::Unmount { at } => Outcome::Unmounted(cell.unmount(rt, seat, at)),
            Command::Begin { worker, name } => {
                if cell.stage(&name) != Some(Stage::Waiting) {
                    return Outcome::Begun(None);
                }
                Outcome::Begun(Some(cell.begin(rt, seat, worker, &name)))
            }
            Command::End { done } => Outcome::Ended(cell.end(rt, seat, board, done)),
            Command::Flush { worker, name } => {
                if cell.stage(&name) != Some(Stage::Waiting) {
                    return Outcome::Flushed(None);
                }
                Outcome::Flushed(Some(cell.flush(rt, seat, board, worker, &name)))
            }
        }
    }
}
