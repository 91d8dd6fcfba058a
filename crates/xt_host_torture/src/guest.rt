//! One thread at a running host: random calls of all sixteen slots, and the work of one worker.

ghost use Rattle.std.specs.Prelude.{◌≡◌};
ghost use Rattle.std.specs.Arc.{arc_value};

use crate::working::{Volume, Workplace};
use std::alloc::{AllocError, Global};
use std::sync::Wait;
use xt_base::names::{Life, Slot};
use xt_base::sizes::SLOTS;
use xt_base::steps::Request;
use xt_cell::house::House;
use xt_cell::mount_ref::MountRef;
use xt_cell::records::Receipt;
use xt_cell::seat::HostSeat;
use xt_host::host::Host;
use xt_queue::jobs::WorkPass;
use xt_trials::dice::Dice;
use xt_trials::guess::{BLOCKS, Guess};

/// The bytes of a log.
const LOG_BYTES: u32 = 65_536;

/// The sizes of a block that slots are mounted with: none is said, or one of the four.
const SIZES: [Option<u32>; 5] = [None, Some(512), Some(1_024), Some(2_048), Some(4_096)];

/// What is mounted in a slot.
pub fn volume_in(slot: Slot) -> Volume {
    Volume {
        slot,
        log_bytes: LOG_BYTES,
        blocks: u64::from(BLOCKS),
        size: match SIZES.get(slot.index() % SIZES.len()) {
            Some(size) => *size,
            None => None,
        },
    }
}

/// What is guessed of a slot at first: the size of its blocks is known, whoever mounts it.
fn guess_of(alloc: Global, slot: Slot) -> Result<Guess, AllocError> {
    let mut guess = Guess::new(alloc, slot, BLOCKS)?;
    if let Some(size) = volume_in(slot).size {
        guess.set_size(size);
    }
    Ok(guess)
}

/// What a thread does next.
#[derive(Clone, Copy)]
enum Deed {
    Mount(Slot),
    Call(Slot),
    Look(Slot),
    Work,
}

/// What a thread draws its calls from.
#[derive(Drop)]
pub struct Mind {
    alloc: Global,
    dice: Dice,
    guesses: Vec<Guess>,
}

impl Mind {
    /// One that knows nothing yet.
    pub fn new(alloc: Global, seed: u64) -> Result<Self, AllocError> {
        let mut guesses = Vec::with_capacity(alloc, SLOTS)?;
        for index in 0..SLOTS as u8 {
            if let Some(slot) = Slot::new(index) {
                guesses.push(guess_of(alloc, slot)?)?;
            }
        }
        Ok(Mind {
            alloc,
            dice: Dice::new(seed),
            guesses,
        })
    }

    /// What to do next.
    fn deed(&mut self) -> Deed {
        let Some(slot) = Slot::new(self.dice.below(SLOTS as u32) as u8) else {
            return Deed::Work;
        };
        match self.dice.below(10) {
            0 => Deed::Look(slot),
            1 | 2 => Deed::Work,
            _ => match self.guesses.get(slot.index()) {
                Some(guess) if guess.wants_mount(&mut self.dice) => Deed::Mount(slot),
                _ => Deed::Call(slot),
            },
        }
    }

    /// A request to a slot, and of which life.
    fn request(&mut self, slot: Slot) -> Result<(MountRef, Request), AllocError> {
        match self.guesses.get(slot.index()) {
            Some(guess) => {
                let life = guess.life(&mut self.dice);
                let request = guess.request(self.alloc, &mut self.dice)?;
                Ok((MountRef { slot, life }, request))
            }
            None => Ok((
                MountRef {
                    slot,
                    life: Life(1),
                },
                Request::Force,
            )),
        }
    }

    /// Learns from what was booked.
    fn learn(&mut self, receipt: &Receipt) {
        if let Some(guess) = self.guesses.get_mut(receipt.slot.index()) {
            guess.learn(receipt.step.get(), receipt.reply.get());
        }
    }

    /// Learns which life a slot has.
    fn see(&mut self, slot: Slot, life: Life) {
        if let Some(guess) = self.guesses.get_mut(slot.index()) {
            guess.see(life);
        }
    }
}

/// One thread before it begins: its seat, the worker that it is too, and the seed of its dice.
#[derive(Drop)]
pub struct Guest<H: House> {
    pub seat: HostSeat<H>,
    pub pass: WorkPass,
    pub seed: u64,
}

/// Mounts a slot over devices that some mount gave back, if there are any. Where it is refused they are kept.
fn mount<H: House, D: Workplace<H, R>, R: Wait>(
    rt: &R,
    host: &Host<H, D>,
    seat: &mut HostSeat<H>,
    stock: &mut Vec<D::Devices>,
    slot: Slot,
)
    requires board { seat.old.board.board ≡ host.now.board }
    ensures board { seat.new.board.board ≡ seat.old.board.board }
{
    let Some(devices) = stock.pop() else {
        return;
    };
    if let Err((devices, _errno)) = D::mount(rt, host, seat, &volume_in(slot), devices) {
        let _ = stock.push(devices);
    }
}

/// Asks a mount something, or unmounts it, and keeps the devices.
fn call<H: House, D: Workplace<H, R>, R: Wait>(
    rt: &R,
    host: &Host<H, D>,
    seat: &mut HostSeat<H>,
    stock: &mut Vec<D::Devices>,
    at: &MountRef,
    request: Request,
)
    requires board { seat.old.board.board ≡ host.now.board }
    ensures board { seat.new.board.board ≡ seat.old.board.board }
{
    if request != Request::Unmount {
        let _reply = host.call(rt, seat, *at, request);
    } else if let Some(devices) = D::unmount(rt, host, seat, *at) {
        let _ = stock.push(devices);
    }
}

/// Mounts, calls, or looks at the board, and learns from it.
fn serve<H: House, D: Workplace<H, R>, R: Wait>(
    rt: &R,
    host: &Host<H, D>,
    seat: &mut HostSeat<H>,
    stock: &mut Vec<D::Devices>,
    mind: &mut Mind,
    deed: Deed,
) -> Result<(), AllocError>
    requires board { seat.old.board.board ≡ host.now.board }
    ensures board { seat.new.board.board ≡ seat.old.board.board }
{
    match deed {
        Deed::Mount(slot) => mount(rt, host, seat, stock, slot),
        Deed::Call(slot) => {
            let (at, request) = mind.request(slot)?;
            call(rt, host, seat, stock, &at, request);
        }
        Deed::Look(slot) => {
            let (life, _) = host.seen_shut(seat, slot);
            mind.see(slot, life);
            return Ok(());
        }
        Deed::Work => return Ok(()),
    }
    if let Some(receipt) = seat.receipts().last() {
        mind.learn(receipt);
    }
    Ok(())
}

/// What a thread leaves: its seat, and whether no job came back to it.
pub type Lived<H> = (HostSeat<H>, Result<bool, AllocError>);

/// Does one thing: whether no job came back.
fn turn<H: House, D: Workplace<H, R>, R: Wait>(
    rt: &R,
    host: &Host<H, D>,
    seat: &mut HostSeat<H>,
    pass: &mut WorkPass,
    stock: &mut Vec<D::Devices>,
    mind: &mut Mind,
) -> Result<bool, AllocError>
    requires queue { pass.old.queue ≡ arc_value host.now.queue }
    requires board { seat.old.board.board ≡ host.now.board }
    ensures queue { pass.new.queue ≡ pass.old.queue }
    ensures board { seat.new.board.board ≡ seat.old.board.board }
{
    let deed = mind.deed();
    if let Deed::Work = deed {
        return Ok(D::work(rt, host, pass, seat));
    }
    serve(rt, host, seat, stock, mind, deed)?;
    Ok(true)
}

/// Does so many things.
pub fn live<H: House, D: Workplace<H, R>, R: Wait>(
    rt: &R,
    alloc: Global,
    host: &Host<H, D>,
    guest: Guest<H>,
    turns: u32,
) -> Lived<H>
    requires queue { guest.pass.queue ≡ arc_value host.now.queue }
    requires board { guest.seat.board.board ≡ host.now.board }
{
    let Guest {
        mut seat,
        mut pass,
        seed,
    } = guest;
    let mut mind = match Mind::new(alloc, seed) {
        Ok(mind) => mind,
        Err(fault) => return (seat, Err(fault)),
    };
    let mut stock = Vec::new(alloc);
    for _ in 0..turns {
        match turn(rt, host, &mut seat, &mut pass, &mut stock, &mut mind) {
            Ok(true) => {}
            told => return (seat, told),
        }
    }
    (seat, Ok(true))
}
