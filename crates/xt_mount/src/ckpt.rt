//! The begin and the end of a checkpoint job.

ghost use Rattle.std.specs.Prelude.{◌≡◌, ◌≤◌, ◌<◌, true, All, length, is_some, is_none, IfOk, OnOk, OnErr, Some, [], IfSome, false};
ghost use Rattle.xt_base.specs.Alone.{has_begun};
ghost use Rattle.xt_base.specs.Calls.{gives};
ghost use Rattle.xt_base.specs.Jobs.{begin as begin_step, begun as begun_step, end as end_step, failed as failed_step, flight_pieces, is_ok, landed as landed_step, next_pieces};
ghost use Rattle.xt_base.specs.Sized.{IsSized};
ghost use Rattle.xt_base.specs.Sound.{IsSound};
ghost use Rattle.xt_ckpt.specs.Entries.{IsWhole};
ghost use Rattle.xt_items.specs.Lists.{flight_number};
ghost use Rattle.xt_mount.specs.Machines.{state_of};
ghost use Rattle.xt_mount.specs.Texts.{entries_of};

use crate::machine::Machine;
use bytes::Bytes;
use std::alloc::{AllocError, Global};
use xt_base::chunks::Chunks;
use xt_base::names::{CkptNo, JobKind};
use xt_base::sizes::TEXT_PIECES;
use xt_base::steps::{LogAnswers, Reason, Reply};
use xt_ckpt::source::ItemSource;
use xt_ckpt::writing::write_checkpoint_in;
use xt_vectors::vector::LogVector;

/// The log vectors of a commit list, as a checkpoint is written from them: where they lie.
#[derive(Clone, Copy)]
struct Vectors<'a>(&'a [(u64, LogVector)]);

impl Machine {
    /// The pieces of a checkpoint of the committed items, as they are now, on a live mount.
    fn pieces_now(&self) -> Result<Vec<Bytes>, AllocError>
        requires sound { IsSound (state_of self.now) }
        requires sized { IsSized (state_of self.now) }
        requires live { is_none self.now.accounts.shut ≡ true }
        requires worth { 0 < length self.now.accounts.items.cil }
        ensures pieces { IfOk result (λ pieces. pieces.items ≡ next_pieces (state_of self.now)) }
        ensures few { IfOk result (λ pieces. length pieces.items ≤ TEXT_PIECES) }
    {
        let items = Vectors(self.accounts.vectors());
        items.are_whole();
        let form = self.accounts.form();
        write_checkpoint_in(self.alloc, form, self.accounts.open_number(), &items)
    }

    /// Begins the outstanding checkpoint: the committed items become the flight. On a shut mount there is
    /// nothing to do.
    pub fn begin(&mut self) -> Result<Reply, AllocError>
        requires sound { IsSound (state_of self.old) }
        requires sized { IsSized (state_of self.old) }
        requires outstanding { is_some (state_of self.old).jobs.ckpt ≡ true }
        requires waiting { is_none self.old.accounts.items.flight ≡ true }
        ensures ok { IfOk result (λ reply. gives reply (state_of self.new) ≡ begin_step (state_of self.old)) }
        ensures few { OnOk result (length (flight_pieces self.new.accounts.items.flight) ≤ TEXT_PIECES) }
        ensures err { OnErr result (state_of self.new ≡ state_of self.old) }
        ensures want { OnErr result (has_begun (begin_step (state_of self.old)).reply ≡ true) }
    {
        if self.is_shut() {
            self.jobs.finish(JobKind::Ckpt);
            return Ok(Reply::Nothing);
        }
        let pieces = self.pieces_now()?;
        self.depart(pieces)
    }

    /// The same, and these pieces have other owners too, so that they can be written where the mount is not at hand. `copies` is
    /// changed only where a checkpoint is begun.
    pub fn begin_shared(&mut self, copies: &mut Vec<Bytes>) -> Result<Reply, AllocError>
        requires sound { IsSound (state_of self.old) }
        requires sized { IsSized (state_of self.old) }
        requires outstanding { is_some (state_of self.old).jobs.ckpt ≡ true }
        requires waiting { is_none self.old.accounts.items.flight ≡ true }
        ensures ok { IfOk result (λ reply. gives reply (state_of self.new) ≡ begin_step (state_of self.old)) }
        ensures few { OnOk result (length (flight_pieces self.new.accounts.items.flight) ≤ TEXT_PIECES) }
        ensures err { OnErr result (state_of self.new ≡ state_of self.old) }
        ensures want { OnErr result (has_begun (begin_step (state_of self.old)).reply ≡ true) }
        ensures copies { IfOk result (λ reply. has_begun reply ≡ true → copies.new.items ≡ flight_pieces self.new.accounts.items.flight) }
        ensures kept { IfOk result (λ reply. has_begun reply ≡ false → copies.new ≡ copies.old) }
        ensures refused { OnErr result (copies.new ≡ copies.old) }
    {
        if self.is_shut() {
            self.jobs.finish(JobKind::Ckpt);
            return Ok(Reply::Nothing);
        }
        let pieces = self.pieces_now()?;
        let shared = shared_pieces(self.alloc, &pieces)?;
        let reply = self.depart(pieces)?;
        *copies = shared;
        Ok(reply)
    }

    /// The committed items of a live mount become the flight, with these pieces. The one error is want of memory, and then nothing changes.
    fn depart(&mut self, pieces: Vec<Bytes>) -> Result<Reply, AllocError>
        requires waiting { is_none self.old.accounts.items.flight ≡ true }
        requires number { self.old.accounts.items.open_number < 18446744073709551615 }
        requires few { length pieces.items ≤ TEXT_PIECES }
        ensures ok { IfOk result (λ reply. gives reply (state_of self.new) ≡ begun_step pieces.items (state_of self.old)) }
        ensures begun { IfOk result (λ reply. has_begun reply ≡ true) }
        ensures pieces { OnOk result (flight_pieces self.new.accounts.items.flight ≡ pieces.items) }
        ensures err { OnErr result (state_of self.new ≡ state_of self.old) }
    {
        let number = self.accounts.open_number();
        let count = pieces.len() as u32;
        self.accounts.fly(self.alloc, pieces)?;
        self.jobs.clear(JobKind::Ckpt);
        Ok(Reply::Begun {
            number,
            pieces: count,
        })
    }

    /// The flight has landed. It takes no memory.
    fn land(&mut self, number: CkptNo)
        requires sound { IsSound (state_of self.old) }
        requires flying { flight_number self.old.accounts.items.flight ≡ Some number }
        ensures { IfSome self.old.accounts.items.flight (λ f. state_of self.new ≡ landed_step [] f (state_of self.old)) }
    {
        let stays = self.lands_plainly();
        self.locks.free_stale(number);
        self.accounts.land();
        self.jobs.finish(JobKind::Ckpt);
        self.settle_unless(stays);
    }

    /// The flight is given up, and a live mount is shut. It takes no memory.
    fn fail(&mut self)
        requires { IsSound (state_of self.old) }
        ensures { state_of self.new ≡ failed_step [] (state_of self.old) }
    {
        self.accounts.fail();
        self.shut_down(Reason::LogIoError);
        self.jobs.finish(JobKind::Ckpt);
        self.settle();
    }

    /// Ends the checkpoint in flight: it has landed where its sync was answered Ok, else the mount is shut.
    /// It takes no memory.
    pub fn end(&mut self, answers: LogAnswers) -> Reply
        requires sound { IsSound (state_of self.old) }
        ensures { gives result (state_of self.new) ≡ end_step [] answers (state_of self.old) }
    {
        let Some(number) = self.accounts.flight_number() else {
            return Reply::Nothing;
        };
        if is_synced(answers) {
            self.land(number);
            Reply::Landed(number)
        } else {
            self.fail();
            Reply::Failed(number)
        }
    }
}

impl Vectors<'_> {
    /// Each has 128 bytes for each of its chunks: for a proof, at run time nothing.
    fn are_whole(&self)
        ensures { All IsWhole (entries_of self.now.0.now) }
    {
        for v in self.0 {
            let _bytes = v.1.bytes();
        }
    }
}

impl ItemSource for Vectors<'_> {
    ghost entries = { λ v. entries_of v.0.now };

    fn item_count(&self) -> usize {
        self.0.len()
    }

    fn block_at(&self, index: usize) -> u64 {
        self.0[index].0
    }

    fn chunks_at(&self, index: usize) -> Chunks {
        let v = &self.0[index];
        v.1.chunks()
    }

    fn content_at(&self, index: usize) -> &[u8] {
        let v = &self.0[index];
        v.1.bytes()
    }
}

/// Other owners of these pieces.
pub(crate) fn shared_pieces(alloc: Global, pieces: &[Bytes]) -> Result<Vec<Bytes>, AllocError>
    ensures { IfOk result (λ shared. shared.items ≡ pieces.now) }
{
    let mut shared = Vec::with_capacity(alloc, pieces.len())?;
    for piece in pieces {
        shared.push(piece.clone()?)?;
    }
    Ok(shared)
}

/// Whether the sync was answered Ok.
fn is_synced(answers: LogAnswers) -> bool
    ensures { result ≡ is_ok answers.sync }
{
    match answers.sync {
        Some(ok) => ok,
        None => false,
    }
}
