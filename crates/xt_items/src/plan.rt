//! The plan of a flush: which blocks it writes home, and in which order.

ghost use Rattle.std.specs.Prelude.{◌≡◌, ◌+◌, ◌<◌, ◌≤◌, ◌∷◌, ◌++◌, [], length, map, take};
ghost use Rattle.xt_base.specs.Jobs.{all_ok};
ghost use Rattle.xt_items.specs.Plans.{inserted, placed_last, rank, takes};

use std::marker::Model;
use xt_base::names::Block;
use xt_base::sizes::FLUSH_BLOCKS;
use xt_base::steps::HomeAnswers;

/// The blocks that a flush writes home, 0 to 8, in the order of their writes. Clauses see the list of them.
#[derive(Debug, Drop)]
pub struct FlushPlan {
    /// How many blocks it writes, 0 to 8.
    pub count: u8,
    /// Its blocks, the first `count` of these; the others stand for nothing.
    pub blocks: [Block; FLUSH_BLOCKS],
}

impl Model for FlushPlan {
    ghost use Rattle.std.specs.Prelude.{List, ℕ, ◌≤◌, take};
    ghost use Rattle.xt_base.specs.declared.sizes.TheConstants.{FLUSH_BLOCKS};

    ghost Value = { List ℕ };

    ghost view = { λ p. take p.count p.blocks };

    ghost invariant = { λ p. p.count ≤ FLUSH_BLOCKS };
}

impl FlushPlan {
    /// A plan of no block.
    pub fn none() -> Self
        ensures { result ≡ [] }
    {
        FlushPlan {
            count: 0,
            blocks: [Block(0); FLUSH_BLOCKS],
        }
    }

    /// How many blocks it writes.
    pub fn count(&self) -> u8
        ensures value { result ≡ length self.now }
        ensures range { result ≤ FLUSH_BLOCKS }
    {
        self.blocks().len() as u8
    }

    /// Its blocks, in the order of their writes.
    pub fn blocks(&self) -> &[Block]
        ensures value { result.now ≡ self.now }
        ensures range { length result.now ≤ FLUSH_BLOCKS }
    {
        &self.blocks[..self.count as usize]
    }

    /// One block more at its end.
    fn push(&mut self, block: Block)
        requires { length self.old < FLUSH_BLOCKS }
        ensures { self.new ≡ self.old ++ block ∷ [] }
    {
        self.blocks[self.count as usize] = block;
        self.count += 1;
    }
}

/// The first 8 of some entries of the active list in the order of (number, block). Clauses see the list of them.
#[derive(Debug, Drop)]
pub(crate) struct Earliest {
    count: usize,
    entries: [(u64, u64); FLUSH_BLOCKS],
}

impl Model for Earliest {
    ghost use Rattle.std.specs.Prelude.{List, ℕ, ◌≡◌, ◌≤◌, length, take};
    ghost use Rattle.xt_base.specs.declared.sizes.TheConstants.{FLUSH_BLOCKS};

    ghost Value = { List (ℕ × ℕ) };

    ghost view = { λ f. take f.count f.entries };

    ghost invariant = { λ f. (f.count ≤ FLUSH_BLOCKS) × (length f.entries ≡ FLUSH_BLOCKS) };
}

impl Earliest {
    /// No entry.
    pub(crate) fn none() -> Self
        ensures { result ≡ [] }
    {
        Earliest {
            count: 0,
            entries: [(0, 0); FLUSH_BLOCKS],
        }
    }

    /// Its entries in order.
    fn entries(&self) -> &[(u64, u64)]
        ensures value { result.now ≡ self.now }
        ensures range { length result.now ≤ FLUSH_BLOCKS }
    {
        &self.entries[..self.count]
    }

    /// Whether an entry of this number and of a higher block than each other's would be among them: fewer than eight are there, or the
    /// last one's number is higher.
    pub(crate) fn takes(&self, number: u64) -> bool
        ensures { result ≡ takes number self.now }
    {
        let entries = self.entries();
        entries.len() < FLUSH_BLOCKS || number < entries[FLUSH_BLOCKS - 1].1
    }

    /// With an entry of a higher block than each other's; the ninth goes.
    pub(crate) fn add(&mut self, entry: (u64, u64))
        ensures { self.new ≡ take FLUSH_BLOCKS (placed_last entry self.old) }
    {
        let at = rank_of(self.entries(), entry.1);
        self.insert(at, entry);
    }

    /// With an entry behind so many others; the ninth goes.
    fn insert(&mut self, at: usize, entry: (u64, u64))
        requires { at ≤ length self.old }
        ensures { self.new ≡ take FLUSH_BLOCKS (inserted at entry self.old) }
    {
        let mut carried = entry;
        for place in at..self.count {
            let next = self.entries[place];
            self.entries[place] = carried;
            carried = next;
        }
        if self.count < FLUSH_BLOCKS {
            self.entries[self.count] = carried;
            self.count += 1;
        }
    }

    /// The plan of its blocks.
    pub(crate) fn plan(&self) -> FlushPlan
        ensures { result ≡ map (λ e. e.0) self.now }
    {
        let mut plan = FlushPlan::none();
        for entry in self.entries() {
            plan.push(block_of(*entry));
        }
        plan
    }
}

/// The block of an entry of the active list.
fn block_of(entry: (u64, u64)) -> Block
    ensures { result ≡ entry.0 }
{
    Block(entry.0)
}

/// How many entries stand before the first whose number is higher.
fn rank_of(entries: &[(u64, u64)], number: u64) -> usize
    ensures value { result ≡ rank number entries.now }
    ensures range { result ≤ length entries.now }
{
    for (i, e) in entries.iter().enumerate() {
        if number < e.1 {
            return i;
        }
    }
    entries.len()
}

/// Whether each answer to a flush was Ok: those of its writes, and that of its sync.
pub fn all_ok(answers: &HomeAnswers) -> bool
    ensures { result ≡ all_ok answers.now }
{
    answers.sync
        && answers
            .writes
            .iter()
            .take(answers.count as usize)
            .all(|ok| *ok)
}
