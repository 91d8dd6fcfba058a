//! The accounts of a mount: its open transactions with their tickets, its journal, and the log space that both use.

ghost use Rattle.std.specs.Prelude.{◌≡◌, ◌+◌, ◌*◌, ◌≤◌, ◌<◌, ◌++◌, [], None, true, is_none, is_some, length, nat_lt, not, ◌==◌, IfErr, IfOk, IfSome, OnOk, OnErr, slice_get};
ghost use Rattle.xt_base.specs.Calls.{shut_for};
ghost use Rattle.xt_base.specs.Jobs.{fits_plan, flight_pieces, gone};
ghost use Rattle.xt_base.specs.Legs.{with_marks};
ghost use Rattle.xt_base.specs.Maps.{at, is_in};
ghost use Rattle.xt_base.specs.Sound.{AllBelow, IsRising};
ghost use Rattle.xt_base.specs.Space.{cost, flight_items, granted, is_listed, least_number};
ghost use Rattle.xt_frames.specs.Shares.{no_contents};
ghost use Rattle.xt_mount.specs.Accounts.{cleaned_in, flown_in, landed_in, lists_in, no_accounts, used_in};
ghost use Rattle.xt_items.specs.Lists.{flight_number};
ghost use Rattle.xt_items.specs.Plans.{due, planned};
ghost use Rattle.xt_resv.specs.Ledgers.{is_invalid, is_no_room};
ghost use Rattle.xt_resv.specs.Mounts.{grant_of, ledger};
ghost use Rattle.xt_vectors.specs.Vectors.{vectors_of};

use crate::open_trans::OpenTrans;
use crate::opened::Opened;
use bytes::Bytes;
use std::alloc::{AllocError, Global};
use std::marker::Model;
use xt_base::chunks::Chunks;
use xt_base::form::Form;
use xt_base::map::NumberMap;
use xt_base::names::{Block, CkptNo, Slot};
use xt_base::sizes::{IDLE_BLOCKS, MOST_LOG, ROOM};
use xt_base::steps::{HomeAnswers, Reason};
use xt_frames::share::FrameShare;
use xt_items::items::Items;
use xt_items::plan::FlushPlan;
use xt_journal::journal::Journal;
use xt_locks::locks::Locks;
use xt_resv::space::LogSpace;
use xt_trans::trans::TransRec;
use xt_vectors::vector::LogVector;

/// The open transactions of a mount, its journal, and its log space, which has what both use: what each ticket was
/// granted, and what each list costs. Clauses see the transactions, and the lists and contents of the journal.
#[derive(Debug)]
pub struct Accounts {
    pub(crate) transactions: NumberMap<OpenTrans>,
    pub(crate) journal: Journal,
    pub(crate) space: LogSpace,
    /// The leg of a transaction that ended, for a later one.
    pub(crate) spare: Option<TransRec>,
}

impl Model for Accounts {
    ghost use Rattle.std.specs.Prelude.{◌≡◌};
    ghost use Rattle.xt_base.specs.Space.{cost, granted};
    ghost use Rattle.xt_mount.specs.Accounts.{AccountsState};
    ghost use Rattle.xt_frames.specs.Contents.{contents_of};
    ghost use Rattle.xt_items.specs.Lists.{with_landed};
    ghost use Rattle.xt_journal.specs.Over.{transactions_over};
    ghost use Rattle.xt_mount.specs.Shown.{AreInFrames};
    ghost use Rattle.xt_resv.specs.Mounts.{flight_of};

    ghost Value = { AccountsState };

    ghost view = { λ j. record {
      log_bytes = j.space.size;
      form = j.journal.form;
      transactions = transactions_over j.journal.frames.frames j.transactions;
      items = with_landed j.space.landed j.journal.lists;
      frames = contents_of j.journal.frames;
      shut = j.journal.shut;
    } };

    ghost invariant = { λ j. (j.space.granted ≡ granted j.transactions) × (j.space.cil ≡ cost j.journal.form.ends j.journal.lists.cil) × (j.space.flight ≡ flight_of j.journal.form.ends j.journal.lists.flight) × AreInFrames j.journal.frames.frames j.transactions };
}

impl Drop for Accounts {
    fn drop(self) {
        let Accounts {
            mut transactions,
            journal: _journal,
            mut space,
            spare: _spare,
        } = self;
        give_all_back(&mut transactions, &mut space);
        transactions.destroy_empty();
    }
}

/// Gives the tickets of all open transactions back.
fn give_all_back(transactions: &mut NumberMap<OpenTrans>, space: &mut LogSpace)
    requires { granted transactions.old ≤ space.old.granted }
    ensures { transactions.new ≡ [] }
{
    while let Some((_, opened)) = transactions.pop_first() {
        let (ticket, _leg) = opened.into_parts();
        space.give_back(ticket);
    }
}

impl Accounts {
    /// The accounts of a log of so many bytes, at most 16,777,216, of which nothing is in use, in a mount of this form, with the frames
    /// of a share that has no contents. Where memory is refused the share is handed back.
    pub fn over(
        alloc: Global,
        form: Form,
        log_bytes: u32,
        share: FrameShare,
    ) -> Result<Self, FrameShare>
        requires log { log_bytes ≤ MOST_LOG }
        requires empty { share ≡ no_contents share.slot }
        ensures ok { IfOk result (λ accounts. accounts ≡ no_accounts log_bytes form) }
        ensures back { IfErr result (λ back. back ≡ share) }
    {
        let Ok(transactions) = NumberMap::new(alloc) else {
            return Err(share);
        };
        match Journal::over(alloc, form, share) {
            Ok(journal) => Ok(Accounts {
                transactions,
                journal,
                space: LogSpace::new(alloc, log_bytes),
                spare: None,
            }),
            Err(share) => {
                transactions.destroy_empty();
                Err(share)
            }
        }
    }

    /// All open transactions end, and the frames go back into a share of their slot, without contents. It takes no memory.
    pub fn into_share(self, slot: Slot) -> FrameShare
        ensures { result ≡ no_contents slot }
    {
        let Accounts {
            mut transactions,
            journal,
            mut space,
            spare: _spare,
        } = self;
        give_all_back(&mut transactions, &mut space);
        transactions.destroy_empty();
        journal.into_share(slot)
    }

    /// Shuts the mount, for this reason if it was live.
    pub fn shut_down(&mut self, reason: Reason)
        ensures { self.new ≡ record self.old { shut = shut_for reason self.old.shut } }
    {
        self.journal.shut_down(reason);
    }

    // ---- what it has
    /// The log bytes.
    pub fn log_bytes(&self) -> u32
        ensures { result ≡ self.now.log_bytes }
    {
        self.space.size()
    }

    /// The form of the mount.
    pub fn form(&self) -> Form
        ensures { result ≡ self.now.form }
    {
        self.journal.form()
    }

    /// Why the mount is shut, if it is.
    pub fn shut(&self) -> Option<Reason>
        ensures { result ≡ self.now.shut }
    {
        self.journal.shut()
    }

    /// The item lists.
    fn items(&self) -> &Items
        ensures number { result.now.open_number ≡ self.now.items.open_number }
        ensures cil { result.now.cil ≡ self.now.items.cil }
        ensures flight { result.now.flight ≡ self.now.items.flight }
        ensures ail { result.now.ail ≡ self.now.items.ail }
    {
        self.journal.items()
    }

    /// The open transaction of a number.
    pub fn get(&self, trans: u64) -> Option<Opened<'_>>
        ensures { result ≡ at trans self.now.transactions }
    {
        match self.transactions.get(trans) {
            Some(opened) => Some(Opened::new(opened, self.journal.frames())),
            None => None,
        }
    }

    /// Whether a transaction is open.
    pub fn is_open(&self, trans: u64) -> bool
        ensures { result ≡ is_in trans self.now.transactions }
    {
        self.transactions.contains(trans)
    }

    /// The open transaction at a place, by rising number, with its number.
    pub fn opened_at(&self, index: usize) -> Option<(u64, Opened<'_>)>
        ensures { result ≡ slice_get self.now.transactions index }
    {
        match self.transactions.entries().get(index) {
            Some(e) => Some((e.0, Opened::new(&e.1, self.journal.frames()))),
            None => None,
        }
    }

    /// How many transactions are open.
    pub fn open_count(&self) -> usize
        ensures value { result ≡ length self.now.transactions }
        ensures small { result ≤ ROOM }
    {
        self.transactions.len()
    }

    /// The number of the open checkpoint.
    pub fn open_number(&self) -> CkptNo
        ensures { result ≡ self.now.items.open_number }
    {
        CkptNo(self.items().open_number())
    }

    /// The committed items, by rising block.
    pub fn cil(&self) -> &[(u64, Chunks)]
        ensures value { result.now ≡ self.now.items.cil }
        ensures small { length result.now ≤ ROOM }
    {
        self.items().cil()
    }

    /// The log vectors of the commit list of a live mount, by rising block: what a checkpoint of it is written from.
    pub fn vectors(&self) -> &[(u64, LogVector)]
        requires { is_none self.now.shut ≡ true }
        ensures { result.now ≡ vectors_of self.now.form.size self.now.frames.committed self.now.items.cil }
    {
        self.journal.vectors()
    }

    /// The active list: each block with the number of its checkpoint.
    pub fn ail(&self) -> &[(u64, u64)]
        ensures value { result.now ≡ self.now.items.ail }
        ensures small { length result.now ≤ ROOM }
    {
        self.items().ail()
    }

    /// The items in flight, by rising block.
    pub fn flight_items(&self) -> Option<&[(u64, Chunks)]>
        ensures some { IfSome result (λ items. (items.now ≡ flight_items self.now.items.flight) × (length items.now ≤ ROOM)) }
        ensures none { is_some result ≡ is_some self.now.items.flight }
    {
        self.items().flight_items()
    }

    /// Whether a block is on the commit list.
    pub fn is_committed(&self, block: u64) -> bool
        ensures { result ≡ is_in block self.now.items.cil }
    {
        self.items().is_committed(block)
    }

    /// Whether a block is in flight.
    pub fn is_in_flight(&self, block: u64) -> bool
        ensures { result ≡ is_in block (flight_items self.now.items.flight) }
    {
        self.items().is_in_flight(block)
    }

    /// Whether a block is on a list.
    pub fn is_listed(&self, block: u64) -> bool
        ensures { result ≡ is_listed self.now.items block }
    {
        self.items().is_listed(block)
    }

    /// Whether a checkpoint is in flight.
    pub fn is_flying(&self) -> bool
        ensures { result ≡ is_some self.now.items.flight }
    {
        self.items().is_flying()
    }

    /// The number of the checkpoint in flight.
    pub fn flight_number(&self) -> Option<CkptNo>
        ensures { result ≡ flight_number self.now.items.flight }
    {
        Some(CkptNo(self.items().flight_number()?))
    }

    /// The pieces of the flight's text; none where nothing is in flight.
    pub fn pieces(&self) -> &[Bytes]
        ensures { result.now ≡ flight_pieces self.now.items.flight }
    {
        self.items().pieces()
    }

    /// What each landed checkpoint costs that still counts, by its number: the older ones, and then the younger ones.
    pub fn landed(&self) -> (&[(u64, u64)], &[(u64, u64)])
        ensures { result.0.now ++ result.1.now ≡ self.now.items.landed }
    {
        self.space.landed()
    }

    /// How many blocks are idle.
    pub fn idle_count(&self) -> usize
        ensures value { result ≡ length self.now.frames.idle }
        ensures small { result ≤ IDLE_BLOCKS }
    {
        self.journal.frames().idle_count()
    }

    /// The least number of the active list; None where that is empty.
    pub fn least(&self) -> Option<u64>
        ensures { result ≡ least_number self.now.items.ail }
    {
        self.items().least()
    }

    // ---- log space
    /// The log bytes that open transactions were granted, as the space has them: so nothing is added up.
    pub fn granted(&self) -> u32
        ensures { result ≡ granted self.now.transactions }
    {
        self.space.granted()
    }

    /// The log bytes in use, at most all of them.
    pub fn used(&self) -> u64
        ensures value { result ≡ used_in self.now }
        ensures range { result ≤ self.now.log_bytes }
    {
        self.space.used()
    }

    /// What the commit list costs, as the space has it: so nothing is added up.
    pub fn cil_cost(&self) -> u64
        ensures { result ≡ cost self.now.form.ends self.now.items.cil }
    {
        self.space.cil()
    }

    /// Whether this can't be granted, however much space is left.
    pub fn is_invalid(&self, unit: u32, count: u32, perm: bool) -> bool
        ensures { result ≡ is_invalid unit count perm self.now.log_bytes }
    {
        self.space.refusal(unit, count, perm).is_some()
    }

    /// Whether so many legs of so many log bytes find space.
    pub fn has_room(&self, unit: u32, count: u32) -> bool
        ensures { result ≡ not (nat_lt self.now.log_bytes (used_in self.now + unit * count)) }
    {
        let left = u64::from(self.space.size()) - self.space.used();
        u64::from(unit) * u64::from(count) <= left
    }

    /// Whether the last leg of a transaction finds no space for one new unit, once its leg was committed.
    pub fn finds_no_room(&self, opened: &Opened<'_>) -> bool
        requires rising { IsRising opened.now.leg.changes }
        requires list { IsRising self.now.items.cil }
        requires granted { opened.now.unit * opened.now.legs ≤ granted self.now.transactions }
        requires paid { cost self.now.form.ends (with_marks opened.now.leg.changes self.now.items.cil) ≤ cost self.now.form.ends self.now.items.cil + opened.now.unit }
        ensures { result ≡ is_no_room (grant_of opened.now) (cost self.now.form.ends (with_marks opened.now.leg.changes self.now.items.cil)) (ledger self.now.form.ends self.now.log_bytes self.now.transactions self.now.items) }
    {
        let cost = opened.leg().cost_with(self.form(), self.items().list());
        self.space.is_no_room(opened.ticket(), cost)
    }

    // ---- checkpoints
    /// The committed items become the flight, with these pieces, and the next number opens. The one error is want of memory,
    /// and then nothing changes. Room for the landing is made here.
    pub fn fly(&mut self, alloc: Global, pieces: Vec<Bytes>) -> Result<(), AllocError>
        requires none { is_none self.old.items.flight ≡ true }
        requires number { self.old.items.open_number < 18446744073709551615 }
        ensures ok { OnOk result (self.new ≡ flown_in pieces.items self.old) }
        ensures err { OnErr result (self.new ≡ self.old) }
    {
        let next = self.journal.next_list(alloc)?;
        self.space.fly()?;
        self.journal.fly(next, pieces);
        Ok(())
    }

    /// The flight has landed. It takes no memory.
    pub fn land(&mut self)
        requires below { IfSome self.old.items.flight (λ f. AllBelow f.number self.old.items.landed) }
        requires room { length self.old.items.ail + length (flight_items self.old.items.flight) ≤ ROOM }
        ensures { IfSome self.old.items.flight (λ f. self.new ≡ landed_in f self.old) }
    {
        if let Some(number) = self.journal.items().flight_number() {
            self.journal.land();
            self.space.land(number, self.journal.items().least());
        }
    }

    /// The flight is given up. It takes no memory.
    pub fn fail(&mut self)
        ensures { self.new ≡ record self.old { items = record self.old.items { flight = None } } }
    {
        self.journal.fail();
        self.space.fail();
    }

    // ---- flushes
    /// The blocks that a flush writes home: the first 8 of the active list, in the order of (number, block), that are neither
    /// committed nor in flight and that nobody owns. It takes no memory.
    pub fn flush_plan(&self, locks: &Locks) -> FlushPlan
        ensures { result ≡ planned (λ b. is_in b locks.now) (lists_in self.now) }
    {
        self.items().flush_plan(&|block| is_owned(locks, block))
    }

    /// Whether a flush has something to write.
    pub fn has_due(&self, locks: &Locks) -> bool
        ensures { result ≡ not (length (due (λ b. is_in b locks.now) (lists_in self.now)) == 0) }
    {
        self.items().has_due(&|block| is_owned(locks, block))
    }

    /// A flush of this plan was answered so: where the sync was Ok, the blocks whose write was Ok leave the active list, and landed
    /// checkpoints that nothing needs any more leave the log. How many blocks they are. It takes no memory.
    pub fn flush_done(&mut self, plan: &FlushPlan, answers: &HomeAnswers) -> u32
        requires { fits_plan answers.now plan.now ≡ true }
        ensures count { result ≡ length (gone plan.now answers.now) }
        ensures accounts { self.new ≡ cleaned_in (gone plan.now answers.now) self.old }
    {
        let count = self.journal.flush_done(plan, answers);
        self.space.tail(self.journal.items().least());
        count
    }
}

/// Whether somebody owns a block.
fn is_owned(locks: &Locks, block: u64) -> bool
    ensures { result ≡ is_in block locks.now }
{
    locks.is_locked(Block(block))
}
