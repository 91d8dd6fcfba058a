//! The item lists: the commit list, the checkpoint in flight, and the active list.

ghost use Rattle.std.specs.Prelude.{ℕ, ◌≡◌, ◌+◌, ◌<◌, ◌≤◌, ◌==◌, ◌*◌, [], Bool, length, false, filter, Some, None, true, is_some, not, sum_by, unwrap_or, if◌then◌else◌, IfOk, IfSome};
ghost use Rattle.xt_base.specs.Chunks.{union};
ghost use Rattle.xt_base.specs.Maps.{at, has, is_in, put, without};
ghost use Rattle.xt_base.specs.Space.{cost, flight_items, is_listed, item_cost, least_number, lesser};
ghost use Rattle.xt_base.specs.Jobs.{activated, fits_plan, flight_pieces, gone};
ghost use Rattle.xt_base.specs.Sized.{IsWithin};
ghost use Rattle.xt_base.specs.Sound.{IsRising};
ghost use Rattle.xt_items.specs.Lists.{no_items, flight_number, marked, with_landed};
ghost use Rattle.xt_items.specs.Plans.{due, is_unpinned, planned};
ghost use Rattle.xt_vectors.specs.Vectors.{chunks_of, no_vector};

use crate::clean::remove_written;
use crate::plan::{Earliest, FlushPlan};
use crate::sieved::SievedMap;
use crate::spares::SpareRooms;
use bytes::Bytes;
use std::alloc::{AllocError, Global};
use std::marker::Model;
use std::mem;
use xt_base::chunks::Chunks;
use xt_base::content::Content;
use xt_base::form::Form;
use xt_base::map::NumberMap;
use xt_base::sizes::{CHUNK_COST, CHUNKS, ITEM_COST, MOST_ENDS, ROOM};
use xt_base::steps::HomeAnswers;
use xt_vectors::vector::{LogVector, VectorRoom};

/// A checkpoint that is being written: its number, its items, and the pieces of its text.
#[derive(Debug, Drop)]
struct Flight {
    number: u64,
    items: SievedMap<Chunks>,
    pieces: Vec<Bytes>,
}

impl Model for Flight {
    ghost use Rattle.xt_base.specs.State.{Flight as FlightValue};

    ghost Value = { FlightValue };

    ghost view = { λ f. record { number = f.number; items = f.items; pieces = f.pieces.items } };
}

/// The item lists of a mount: the commit list (`xfs_cil`: committed blocks with their marked chunks, and beside them the log vector of
/// each), the checkpoint in flight (`xfs_cil_ctx`), and the active list (`xfs_ail`: landed blocks that are not home yet, with the number
/// of their checkpoint). A block with no chunks is cancelled. Each list has room for 128 blocks. Only `new` and `next_list` take memory.
#[derive(Debug, Drop)]
pub struct Items {
    open_number: u64,
    cil: SievedMap<Chunks>,
    vectors: NumberMap<LogVector>,
    /// What the items of the commit list cost, without the ends of a text.
    weight: u64,
    flight: Option<Flight>,
    ail: SievedMap<u64>,
    /// The list of a flight that has landed, for a later one.
    spare: Option<NumberMap<Chunks>>,
    /// The rooms of log vectors that are gone, for later ones.
    spare_rooms: SpareRooms,
}

impl Model for Items {
    ghost use Rattle.std.specs.Prelude.{◌≡◌, sum_by};
    ghost use Rattle.xt_base.specs.Sound.{Each};
    ghost use Rattle.xt_base.specs.Space.{item_cost};
    ghost use Rattle.xt_items.specs.Lists.{HasFewChunks, Lists};
    ghost use Rattle.xt_vectors.specs.Vectors.{chunks_of};

    ghost Value = { Lists };

    ghost view = { λ l. record { open_number = l.open_number; cil = l.cil; vectors = l.vectors; flight = l.flight; ail = l.ail } };

    ghost invariant = { λ l. (chunks_of l.vectors ≡ l.cil) × (l.weight ≡ sum_by item_cost l.cil) × Each HasFewChunks l.cil };
}

impl Items {
    /// Empty lists; the open checkpoint has number 1. The one error is want of memory.
    pub fn new(alloc: Global) -> Result<Self, AllocError>
        ensures { IfOk result (λ items. items ≡ no_items) }
    {
        let cil = SievedMap::new(alloc)?;
        let vectors = NumberMap::new(alloc)?;
        let ail = SievedMap::new(alloc)?;
        let spare_rooms = SpareRooms::new(alloc)?;
        Ok(Items {
            open_number: 1,
            cil,
            vectors,
            weight: 0,
            flight: None,
            ail,
            spare: None,
            spare_rooms,
        })
    }

    /// The number of the open checkpoint, which the commit list gets when it flies; counted from 1.
    pub fn open_number(&self) -> u64
        ensures { result ≡ self.now.open_number }
    {
        self.open_number
    }

    /// The committed items, by rising block.
    pub fn cil(&self) -> &[(u64, Chunks)]
        ensures value { result.now ≡ self.now.cil }
        ensures small { length result.now ≤ ROOM }
        ensures rising { IsRising result.now }
    {
        self.cil.entries()
    }

    /// The log vectors of the committed items, by rising block.
    pub fn vectors(&self) -> &[(u64, LogVector)]
        ensures { result.now ≡ self.now.vectors }
    {
        self.vectors.entries()
    }

    /// What the commit list has of a block: its marked chunks, none of a cancelled block; None where it is not there.
    pub fn marks(&self, block: u64) -> Option<Chunks>
        ensures { result ≡ at block self.now.cil }
    {
        self.cil.get(block).copied()
    }

    /// The commit list, by rising block.
    pub fn list(&self) -> &NumberMap<Chunks>
        ensures { result.now ≡ self.now.cil }
    {
        self.cil.map()
    }

    /// Whether a block is in flight.
    pub fn is_in_flight(&self, block: u64) -> bool
        ensures { result ≡ is_in block (flight_items self.now.flight) }
    {
        match &self.flight {
            Some(flight) => flight.items.contains(block),
            None => false,
        }
    }

    /// Whether a block is on the commit list.
    pub fn is_committed(&self, block: u64) -> bool
        ensures { result ≡ is_in block self.now.cil }
    {
        self.cil.contains(block)
    }

    /// Whether a block is on a list.
    pub fn is_listed(&self, block: u64) -> bool
        ensures { result ≡ is_listed (with_landed [] self.now) block }
    {
        self.is_committed(block) || self.is_in_flight(block) || self.ail.contains(block)
    }

    /// Whether a block is on a list, for blocks that are asked in rising order: `near` is where to look first on the active
    /// list, which may be wrong, and then where to look first for the next block.
    #[inline(always)]
    pub fn is_listed_near(&self, near: &mut usize, block: u64) -> bool
        ensures { result ≡ is_listed (with_landed [] self.now) block }
    {
        self.is_active_near(near, block) || self.is_committed(block) || self.is_in_flight(block)
    }

    /// Whether a block is on the active list, asked as `is_listed_near` is. Where the place to look shows that it is not, nothing is
    /// searched.
    #[inline(always)]
    fn is_active_near(&self, near: &mut usize, block: u64) -> bool
        ensures { result ≡ is_in block self.now.ail }
    {
        !is_passed(self.ail.entries(), *near, block) && self.ail.contains_near(near, block)
    }

    /// Whether a checkpoint is in flight.
    pub fn is_flying(&self) -> bool
        ensures { result ≡ is_some self.now.flight }
    {
        self.flight.is_some()
    }

    /// The number of the checkpoint in flight.
    pub fn flight_number(&self) -> Option<u64>
        ensures { result ≡ flight_number self.now.flight }
    {
        match &self.flight {
            Some(flight) => Some(flight.number),
            None => None,
        }
    }

    /// The active list: each block with the number of its checkpoint, by rising block.
    pub fn ail(&self) -> &[(u64, u64)]
        ensures value { result.now ≡ self.now.ail }
        ensures small { length result.now ≤ ROOM }
    {
        self.ail.entries()
    }

    /// The least number of the active list, from whose checkpoint on the log is still needed (`xfs_ail_min_lsn`);
    /// None where the list is empty.
    pub fn least(&self) -> Option<u64>
        ensures { result ≡ least_number self.now.ail }
    {
        least_of(self.ail.entries())
    }

    /// The items in flight, by rising block.
    pub fn flight_items(&self) -> Option<&[(u64, Chunks)]>
        ensures some { IfSome result (λ items. (items.now ≡ flight_items self.now.flight) × (length items.now ≤ ROOM)) }
        ensures none { is_some result ≡ is_some self.now.flight }
    {
        match &self.flight {
            Some(flight) => Some(flight.items.entries()),
            None => None,
        }
    }

    /// The pieces of the flight's text; none where nothing is in flight.
    pub fn pieces(&self) -> &[Bytes]
        ensures { result.now ≡ flight_pieces self.now.flight }
    {
        match &self.flight {
            Some(flight) => &flight.pieces,
            None => &[],
        }
    }

    /// Marks of a commit are joined to those of the block's item, and its log vector has the committed bytes of them all, in this
    /// room; the content has all these chunks. It takes no memory.
    pub fn mark(&mut self, block: u64, marks: Chunks, content: &Content, room: VectorRoom)
        requires few { length self.old.cil < ROOM }
        requires within { IsWithin (length content.now) (union (unwrap_or (at block self.old.cil) []) marks) }
        ensures { self.new ≡ marked block (union (unwrap_or (at block self.old.cil) []) marks) content.now self.old }
    {
        let before = self.marks(block);
        let chunks = joined(&before, marks);
        let vector = room.filled(content, chunks);
        self.put_vector(block, &before, vector);
    }

    /// The block's item cancels it: it has no chunks. It takes no memory.
    pub fn cancel(&mut self, block: u64)
        requires { length self.old.cil < ROOM }
        ensures { self.new ≡ record self.old { cil = put block [] self.old.cil; vectors = put block no_vector self.old.vectors } }
    {
        let before = self.marks(block);
        self.put_vector(block, &before, LogVector::none());
    }

    /// The block's item has this log vector, and its chunks; `before` are those that it had.
    fn put_vector(&mut self, block: u64, before: &Option<Chunks>, vector: LogVector)
        requires few { length self.old.cil < ROOM }
        requires before { before.now ≡ at block self.old.cil }
        ensures { self.new ≡ record self.old { cil = put block vector.chunks self.old.cil; vectors = put block vector self.old.vectors } }
    {
        if before.is_none() {
            self.put_first(block, vector);
            return;
        }
        let chunks = vector.chunks();
        if !self.has_item(block, before, chunks) {
            let weight = self.weight_with(block, before, chunks);
            self.cil.put(block, chunks);
            self.weight = weight;
        }
        keep_vector(&mut self.vectors, &mut self.spare_rooms, block, vector);
    }

    /// The same where the block has no item: its place is searched once for both lists.
    fn put_first(&mut self, block: u64, vector: LogVector)
        requires few { length self.old.cil < ROOM }
        requires absent { at block self.old.cil ≡ None }
        ensures { self.new ≡ record self.old { cil = put block vector.chunks self.old.cil; vectors = put block vector self.old.vectors } }
    {
        let chunks = vector.chunks();
        let weight = self.weight_with(block, &None, chunks);
        put_both(&mut self.cil, &mut self.vectors, block, chunks, vector);
        self.weight = weight;
    }

    /// Whether the block's item has these chunks already, where it has those before.
    fn has_item(&self, block: u64, before: &Option<Chunks>, chunks: Chunks) -> bool
        requires { before.now ≡ at block self.now.cil }
        ensures { result ≡ true → put block chunks self.now.cil ≡ self.now.cil }
    {
        // For the proof, that the blocks rise: at run time nothing.
        let _items = self.cil.entries();
        match *before {
            Some(before) => before.word() == chunks.word(),
            None => false,
        }
    }

    /// What the items of the commit list cost once the block's item has these chunks in place of those before.
    fn weight_with(&self, block: u64, before: &Option<Chunks>, chunks: Chunks) -> u64
        requires room { length self.now.cil < ROOM }
        requires before { before.now ≡ at block self.now.cil }
        ensures value { result ≡ sum_by item_cost (put block chunks self.now.cil) }
        ensures few { length chunks ≤ CHUNKS }
    {
        // For the proof, that the blocks rise: at run time nothing.
        let _items = self.cil.entries();
        let weight = self.weight + item_cost(chunks);
        match *before {
            Some(before) => weight - item_cost(before),
            None => weight,
        }
    }

    /// The room of a log vector that is gone, if there is one: a later one may take its place.
    pub fn take_room(&mut self) -> Option<VectorRoom>
        ensures { self.new ≡ self.old }
    {
        self.spare_rooms.take()
    }

    /// The cost of the commit list in bytes: the length of its checkpoint text of this form, 0 where it is empty.
    pub fn cil_cost(&self, form: Form) -> u64
        ensures value { result ≡ cost form.ends self.now.cil }
        ensures range { result ≤ MOST_ENDS + ROOM * (ITEM_COST + CHUNK_COST * CHUNKS) }
    {
        if self.cil().is_empty() {
            return 0;
        }
        u64::from(form.ends()) + self.weight
    }

    /// An empty list for the next `fly`: that of a flight which has landed, or a new one. The one error is want of memory.
    pub fn next_list(&mut self, alloc: Global) -> Result<NumberMap<Chunks>, AllocError>
        ensures list { IfOk result (λ list. list ≡ []) }
        ensures lists { self.new ≡ self.old }
    {
        match self.spare.take() {
            Some(mut list) => {
                list.clear();
                Ok(list)
            }
            None => NumberMap::new(alloc),
        }
    }

    /// The committed items become the flight, with these pieces; `next`, an empty list, takes their place under the next number, and
    /// there are no log vectors any more. It takes no memory.
    pub fn fly(&mut self, next: NumberMap<Chunks>, pieces: Vec<Bytes>)
        requires next { next ≡ [] }
        requires number { self.old.open_number < 18446744073709551615 }
        ensures { self.new ≡ record self.old {
          open_number = self.old.open_number + 1;
          cil = [];
          vectors = [];
          flight = Some (record { number = self.old.open_number; items = self.old.cil; pieces = pieces.items });
        } }
    {
        let items = mem::replace(&mut self.cil, SievedMap::over(next));
        keep_rooms(&mut self.vectors, &mut self.spare_rooms);
        self.weight = 0;
        self.flight = Some(Flight {
            number: self.open_number,
            items,
            pieces,
        });
        self.open_number += 1;
    }

    /// The flight has landed: cancelled blocks leave the active list, and each other block goes there with the flight's
    /// number unless it is there. It takes no memory.
    pub fn land(&mut self)
        requires flying { is_some self.old.flight ≡ true }
        requires room { length self.old.ail + length (flight_items self.old.flight) ≤ ROOM }
        ensures { IfSome self.old.flight (λ f. self.new ≡ record self.old { flight = None; ail = activated f.number f.items self.old.ail }) }
    {
        if let Some(flight) = self.flight.take() {
            activate(&mut self.ail, flight.number, flight.items.entries());
            self.spare = Some(flight.items.into_map());
        }
    }

    /// The flight is given up.
    pub fn fail(&mut self)
        ensures { self.new ≡ record self.old { flight = None } }
    {
        self.flight = None;
    }

    /// Whether a block is neither committed nor in flight, and nobody owns it.
    fn is_unpinned<F: Fn(u64) -> bool>(&self, block: u64, is_owned: &F) -> bool
        requires { F.IsAlwaysCallable is_owned.now }
        ensures { (f : ℕ → Bool) → ((b : ℕ) → (o : Bool) → F.post is_owned.now b o → o ≡ f b) → result ≡ is_unpinned f self.now block }
    {
        !self.is_committed(block) && !self.is_in_flight(block) && !is_owned(block)
    }

    /// The blocks that a flush writes home (`xfsaild_push`): the first 8 of the active list, in the order of (number, block),
    /// that are neither committed nor in flight and that nobody owns, as `is_owned` says of a block. It takes no memory.
    pub fn flush_plan<F: Fn(u64) -> bool>(&self, is_owned: &F) -> FlushPlan
        requires { F.IsAlwaysCallable is_owned.now }
        ensures { (f : ℕ → Bool) → ((b : ℕ) → (o : Bool) → F.post is_owned.now b o → o ≡ f b) → result ≡ planned f self.now }
    {
        let entries = self.ail.entries();
        let mut earliest = Earliest::none();
        for entry in entries {
            if earliest.takes(entry.1) && self.is_unpinned(entry.0, is_owned) {
                earliest.add(*entry);
            }
        }
        earliest.plan()
    }

    /// Whether some block of the active list is neither committed nor in flight and nobody owns it, as `is_owned` says of a block:
    /// whether a flush has something to write.
    pub fn has_due<F: Fn(u64) -> bool>(&self, is_owned: &F) -> bool
        requires { F.IsAlwaysCallable is_owned.now }
        ensures { (f : ℕ → Bool) → ((b : ℕ) → (o : Bool) → F.post is_owned.now b o → o ≡ f b) → result ≡ not (length (due f self.now) == 0) }
    {
        let entries = self.ail.entries();
        for entry in entries {
            if self.is_unpinned(entry.0, is_owned) {
                return true;
            }
        }
        false
    }

    /// A flush of this plan was answered so: where the sync was Ok, the blocks whose write was Ok leave the active list.
    /// How many they are. It takes no memory.
    pub fn flush_done(&mut self, plan: &FlushPlan, answers: &HomeAnswers) -> u32
        requires { fits_plan answers.now plan.now ≡ true }
        ensures count { result ≡ length (gone plan.now answers.now) }
        ensures lists { self.new ≡ record self.old { ail = filter (λ e. not (has (gone plan.now answers.now) e.0)) self.old.ail } }
    {
        if !answers.sync {
            return 0;
        }
        let gone = remove_written(
            &mut self.ail,
            plan.blocks(),
            &answers.writes[..answers.count as usize],
        );
        self.ail.refit();
        gone
    }
}

/// The chunks that an item had, if there was one, and these.
fn joined(before: &Option<Chunks>, marks: Chunks) -> Chunks
    ensures { result ≡ union (unwrap_or before.now []) marks }
{
    match *before {
        Some(before) => before.union(marks),
        None => Chunks::none().union(marks),
    }
}

/// A block gets its first item and its first log vector, which stand at one place. It takes no memory.
fn put_both(
    cil: &mut SievedMap<Chunks>,
    vectors: &mut NumberMap<LogVector>,
    block: u64,
    chunks: Chunks,
    vector: LogVector,
)
    requires tied { chunks_of vectors.old ≡ cil.old }
    requires few { length cil.old < ROOM }
    requires absent { at block cil.old ≡ None }
    ensures items { cil.new ≡ put block chunks cil.old }
    ensures vectors { vectors.new ≡ put block vector vectors.old }
{
    match vectors.find(block) {
        Ok(_) => unreachable!(),
        Err(place) => {
            cil.insert_at(place, block, chunks);
            vectors.insert_at(place, block, vector);
        }
    }
}

/// A block that has a log vector has this one in its place; the room of the one before it is kept for a later one. It takes no
/// memory.
fn keep_vector(
    vectors: &mut NumberMap<LogVector>,
    spare_rooms: &mut SpareRooms,
    block: u64,
    vector: LogVector,
)
    requires { is_in block vectors.old ≡ true }
    ensures { vectors.new ≡ put block vector vectors.old }
{
    let before = mem::replace(vectors.value_mut(block), vector);
    spare_rooms.give(before.into_room());
}

/// All log vectors go, the last one first, and their rooms are kept for later ones. It takes no memory.
fn keep_rooms(vectors: &mut NumberMap<LogVector>, spare_rooms: &mut SpareRooms)
    ensures { vectors.new ≡ [] }
{
    let mut count = vectors.len();
    while count > 0 {
        count -= 1;
        let (_, vector) = vectors.remove_at(count);
        spare_rooms.give(vector.into_room());
    }
}

/// What an item costs that has these chunks.
fn item_cost(chunks: Chunks) -> u64
    ensures value { result ≡ ITEM_COST + CHUNK_COST * length chunks }
    ensures few { length chunks ≤ CHUNKS }
{
    ITEM_COST + CHUNK_COST * u64::from(chunks.count())
}

/// Whether the entry at a place has a higher block, and the one before it, if there is one, a lower one: then the block has no entry.
fn is_passed(entries: &[(u64, u64)], at: usize, block: u64) -> bool
    requires { IsRising entries.now }
    ensures { result ≡ true → is_in block entries.now ≡ false }
{
    if at >= entries.len() || block >= entries[at].0 {
        return false;
    }
    if at == 0 {
        return true;
    }
    entries[at - 1].0 < block
}

/// The least number among entries.
fn least_of(entries: &[(u64, u64)]) -> Option<u64>
    ensures { result ≡ least_number entries.now }
{
    let mut least = None;
    let mut index = entries.len();
    while index > 0 {
        index -= 1;
        least = Some(lesser(entries[index].1, least));
    }
    least
}

/// A number, or one that is less.
fn lesser(number: u64, other: Option<u64>) -> u64
    ensures { result ≡ lesser number other }
{
    match other {
        Some(least) if least < number => least,
        _ => number,
    }
}

/// Cancelled blocks leave the active list, and each other block goes there unless it is there.
fn activate(ail: &mut SievedMap<u64>, number: u64, items: &[(u64, Chunks)])
    requires { length ail.old + length items.now ≤ ROOM }
    ensures { ail.new ≡ activated number items.now ail.old }
{
    for e in items {
        activate_one(ail, number, e.0, e.1);
    }
}

/// The same for one item.
fn activate_one(ail: &mut SievedMap<u64>, number: u64, block: u64, chunks: Chunks)
    requires { length ail.old < ROOM }
    ensures list { ail.new ≡ (if length chunks == 0 then without block ail.old else (if is_in block ail.old then ail.old else put block number ail.old)) }
    ensures count { length ail.new ≤ length ail.old + 1 }
{
    if chunks.is_empty() {
        let _left = ail.remove(block);
    } else if !ail.contains(block) {
        ail.put(block, number);
    }
}
