//! A row through a running host of one worker, while one request for memory is refused, which one is for others to say.

ghost use Rattle.std.specs.Prelude.{◌≡◌, ◌-◌, ◌^◌};
ghost use Rattle.std.specs.Arc.{arc_value};
ghost use Rattle.xt_cell.specs.Ledgers.{AreCut, AreNamed};

use crate::working::{Volume, Workplace};
use std::alloc::{AllocError, Global};
use std::marker::Brand;
use std::sync::Wait;
use xt_base::steps::{Errno, Request, Step};
use xt_cell::house::House;
use xt_cell::mount_ref::MountRef;
use xt_cell::records::Receipt;
use xt_cell::reserve::Blanks;
use xt_cell::seat::HostSeat;
use xt_dev::mem_home::MemHome;
use xt_dev::mem_log::MemLog;
use xt_host::host::{BOOK_ENTRIES, Host};
use xt_queue::jobs::WorkPass;
use xt_text::buffer::Text;
use xt_trials::row::{Row, RowFault, is_printed};
use xt_trials::seen::Seen;

/// The mount that a row begins with.
fn volume_of(row: &Row) -> Result<Volume, RowFault> {
    match row.steps.first() {
        Some(
            Step::Mount {
                slot,
                log_bytes,
                blocks,
                size,
            },
        ) => Ok(Volume {
            slot: *slot,
            log_bytes: *log_bytes,
            blocks: *blocks,
            size: *size,
        }),
        _ => Err(RowFault::Input),
    }
}

/// Mounts a slot over devices, and once more where that is refused memory.
fn mount<H: House, D: Workplace<H, R>, R: Wait>(
    rt: &R,
    host: &Host<H, D>,
    seat: &mut HostSeat<H>,
    volume: &Volume,
    devices: D::Devices,
    seen: &mut Seen,
)
    requires board { seat.old.board.board ≡ host.now.board }
    ensures board { seat.new.board.board ≡ seat.old.board.board }
{
    let Err((devices, errno)) = D::mount(rt, host, seat, volume, devices) else {
        return;
    };
    seen.refuse();
    seen.judge(errno == Errno::NoMemory);
    let again = D::mount(rt, host, seat, volume, devices);
    seen.judge(again.is_ok());
}

/// Asks a mount something, and once more where that is refused memory. An unmount is not asked.
fn call<H: House, D: Workplace<H, R>, R: Wait>(
    rt: &R,
    alloc: Global,
    host: &Host<H, D>,
    seat: &mut HostSeat<H>,
    at: &MountRef,
    request: &Request,
    seen: &mut Seen,
) -> Result<(), RowFault>
    requires board { seat.old.board.board ≡ host.now.board }
    ensures board { seat.new.board.board ≡ seat.old.board.board }
{
    let (first, second) = (request.copy(alloc)?, request.copy(alloc)?);
    if first == Request::Unmount || second == Request::Unmount {
        return Err(RowFault::Input);
    }
    if host.call(rt, seat, *at, first).is_no_memory() {
        seen.refuse();
        seen.judge(!host.call(rt, seat, *at, second).is_no_memory());
    }
    Ok(())
}

/// Takes a step of a row: a call is made, and where a job is posted the worker does it to its end. What the worker does itself, and the
/// mount, are left out.
fn take<H: House, D: Workplace<H, R>, R: Wait>(
    rt: &R,
    alloc: Global,
    host: &Host<H, D>,
    seat: &mut HostSeat<H>,
    pass: &mut WorkPass,
    step: &Step,
    seen: &mut Seen,
) -> Result<(), RowFault>
    requires queue { pass.old.queue ≡ arc_value host.now.queue }
    requires board { seat.old.board.board ≡ host.now.board }
    ensures queue { pass.new.queue ≡ pass.old.queue }
    ensures board { seat.new.board.board ≡ seat.old.board.board }
{
    match step {
        Step::Call {
            slot,
            life,
            request,
            ..
        } => {
            let at = MountRef {
                slot: *slot,
                life: *life,
            };
            call(rt, alloc, host, seat, &at, request, seen)
        }
        Step::Post(_) => {
            seen.judge(D::work(rt, host, pass, seat));
            Ok(())
        }
        _ => Ok(()),
    }
}

/// Takes all steps of a row.
fn take_all<H: House, D: Workplace<H, R>, R: Wait>(
    rt: &R,
    alloc: Global,
    host: &Host<H, D>,
    seat: &mut HostSeat<H>,
    pass: &mut WorkPass,
    row: &Row,
    seen: &mut Seen,
) -> Result<(), RowFault>
    requires queue { pass.old.queue ≡ arc_value host.now.queue }
    requires board { seat.old.board.board ≡ host.now.board }
    ensures board { seat.new.board.board ≡ seat.old.board.board }
{
    for step in &row.steps {
        take(rt, alloc, host, seat, pass, step, seen)?;
    }
    Ok(())
}

/// Whether a seat has a receipt of a step: a post and a take are events of no seat.
fn is_received(step: &Step) -> bool {
    !matches!(step, Step::Post(_) | Step::Take { .. })
}

/// Compares the receipts of a seat with a row: one of each step, in order, with the step and the reply of the row.
fn compare(
    alloc: Global,
    row: &Row,
    receipts: &[Receipt],
    seen: &mut Seen,
) -> Result<(), AllocError> {
    let mut text = Text::new(alloc)?;
    let mut rest = receipts;
    for (step, wanted) in row.steps.iter().zip(&row.replies) {
        if !is_received(step) {
            continue;
        }
        seen.count();
        let Some((receipt, tail)) = rest.split_first() else {
            seen.judge(false);
            continue;
        };
        let is_step = receipt.step.get().is(step);
        seen.judge(is_step && is_printed(&mut text, receipt.slot, receipt.reply.get(), wanted));
        rest = tail;
    }
    seen.judge(rest.is_empty());
    Ok(())
}

/// A host from its making to its end, with the row between.
fn run<H: House, R: Wait>(
    rt: &R,
    alloc: Global,
    blanks: Blanks,
    row: &Row,
    seen: &mut Seen,
) -> Result<(), RowFault>
    requires names { AreNamed H.names blanks }
    requires parts { AreCut H.all blanks }
    requires all { H.all ≡ 2 ^ 64 - 1 }
{
    let volume = volume_of(row)?;
    let mut seats = Vec::with_capacity(alloc, 1)?;
    let (host, mut seat, mut passes) = match Host::<H>::new(alloc, blanks, 1, BOOK_ENTRIES) {
        Ok(made) => made,
        Err(errno) => {
            seen.refuse();
            seen.judge(errno == Errno::NoMemory);
            return Ok(());
        }
    };
    let mut pass = passes.pop().ok_or(RowFault::Input)?;
    let home = Box::new(alloc, MemHome::new(alloc)).map_err(|_| RowFault::Memory)?;
    let log = Box::new(alloc, MemLog::new(alloc)).map_err(|_| RowFault::Memory)?;
    mount(rt, &host, &mut seat, &volume, (home, log), seen);
    take_all(rt, alloc, &host, &mut seat, &mut pass, row, seen)?;
    compare(alloc, row, seat.receipts(), seen)?;
    seats.push_reserved(seat);
    seen.judge(host.close(seats, passes).is_ok());
    Ok(())
}

/// Tries the row of a text through a running host, over new ledgers.
pub fn try_served<R: Wait>(
    rt: &R,
    alloc: Global,
    blanks: Blanks,
    text: &[u8],
) -> Result<Seen, RowFault>
    requires parts { AreCut (2 ^ 64 - 1) blanks }
{
    let row = Row::read(alloc, text)?;
    let mut seen = Seen::default();
    run::<Brand, R>(rt, alloc, blanks, &row, &mut seen)?;
    Ok(seen)
}
