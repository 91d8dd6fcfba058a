//! The contents of idle blocks.

ghost use Rattle.std.specs.List.{IsDistinct};
ghost use Rattle.std.specs.Map.{keys_of, lookup, set_value};
ghost use Rattle.std.specs.Prelude.{◌≡◌, ◌≤◌, ◌∷◌, List, None, Some, [], is_some, length, nat_eq, option_map, slice_get, take, true, IfNone, IfOk, IfSome, ℕ};
ghost use Rattle.lru.specs.LruCache.{demoted, last_entry, lru_cache, put_entries};
ghost use Rattle.xt_base.specs.Maps.{at, is_in, without};
ghost use Rattle.xt_frames.specs.Idle.{content_under, idle_of, name_of, IsFull, IsPacked};

use lru::LruCache;
use std::alloc::{AllocError, Global};
use std::marker::Model;
use std::mem;
use std::num::NonZeroUsize;
use xt_base::content::Content;
use xt_base::sizes::IDLE_BLOCKS;

/// The names under which idle contents stand: a block with its content, or none.
type Names = LruCache<u32, Option<(u64, Content)>>;

/// The contents of idle blocks: at most 64, of which the least recent goes where one more comes. They stand under 64 names,
/// which are put in once, so that no later call takes memory. Clauses see the blocks with their contents, the most recent first.
#[derive(Debug, Drop)]
pub struct IdleList {
    names: Names,
}

impl Model for IdleList {
    ghost use Rattle.std.specs.Prelude.{List, ℕ};

    ghost Value = { List (ℕ × List ℕ) };

    ghost use Rattle.xt_frames.specs.Idle.{idle_of, IsFull};

    ghost view = { λ i. idle_of i.names.entries };

    ghost invariant = { λ i. IsFull i.names };
}

impl IdleList {
    /// No block is idle. The one error is want of memory.
    pub fn new(alloc: Global) -> Result<Self, AllocError>
        ensures { IfOk result (λ idle. idle ≡ []) }
    {
        let names = empty_names(alloc)?;
        Ok(IdleList { names })
    }

    /// Whether a block is idle.
    pub fn contains(&self, block: u64) -> bool
        ensures { result ≡ is_in block self.now }
    {
        name_of(&self.names, block).is_some()
    }

    /// How many blocks are idle.
    pub fn count(&self) -> usize
        ensures value { result ≡ length self.now }
        ensures small { result ≤ IDLE_BLOCKS }
    {
        count_of(&self.names)
    }

    /// At most 64 blocks are idle: for a proof, at run time nothing.
    pub fn is_short(&self)
        ensures { length self.now ≤ IDLE_BLOCKS }
    {
        let _names = &self.names;
    }

    /// Takes the content of a block away. It takes no memory.
    pub fn take(&mut self, block: u64) -> Option<Content>
        ensures value { result ≡ at block self.old }
        ensures rest { self.new ≡ without block self.old }
        ensures missing { IfNone result (self.new ≡ self.old) }
    {
        let name = name_of(&self.names, block)?;
        names_differ(&self.names);
        take_under(&mut self.names, name)
    }

    /// Puts a block with its content in front; where that is one too many, the least recent goes. It takes no memory.
    pub fn put(&mut self, block: u64, content: Content)
        ensures { self.new ≡ take IDLE_BLOCKS ((block, content) ∷ self.old) }
    {
        names_differ(&self.names);
        let name = last_name(&self.names);
        put_under(&mut self.names, name, block, content);
    }

    /// The most recent block, if one is idle.
    fn first(&self) -> Option<u64>
        ensures { result ≡ option_map (λ (e : ℕ × List ℕ). e.0) (slice_get self.now 0) }
    {
        match self.names.peek_mru() {
            Some((_, idle)) => match idle {
                Some(entry) => Some(entry.0),
                None => None,
            },
            None => None,
        }
    }

    /// All contents go. It takes no memory.
    pub fn clear(&mut self)
        ensures { self.new ≡ [] }
    {
        while let Some(block) = self.first() {
            let _content = self.take(block);
        }
    }

    /// The contents in a list of their own, the most recent first. The one error is want of memory.
    pub fn copies(&self, alloc: Global) -> Result<Vec<(u64, Content)>, AllocError>
        ensures { IfOk result (λ copies. copies.items ≡ self.now) }
    {
        copies_of(alloc, &self.names)
    }
}

/// The names, none with a block. The one error is want of memory.
fn empty_names(alloc: Global) -> Result<Names, AllocError>
    ensures empty { IfOk result (λ names. idle_of names.entries ≡ []) }
    ensures full { IfOk result IsFull }
{
    let Some(count) = NonZeroUsize::new(IDLE_BLOCKS) else {
        unreachable!()
    };
    let mut names = LruCache::new(alloc, count)?;
    for name in 0..IDLE_BLOCKS as u32 {
        if names.put(name, None).is_err() {
            return Err(AllocError);
        }
    }
    Ok(names)
}

/// The name of a block, if it is idle. Names without a block stand last, so the first of them ends the search.
fn name_of(names: &Names, block: u64) -> Option<u32>
    requires { IsPacked names.now.entries }
    ensures { result ≡ name_of block names.now.entries }
{
    for (name, idle) in names.iter() {
        match idle {
            Some(entry) => {
                if entry.0 == block {
                    return Some(*name);
                }
            }
            None => return None,
        }
    }
    None
}

/// No two names are the same: for a proof, at run time nothing.
fn names_differ(names: &Names)
    ensures { IsDistinct nat_eq (keys_of names.now.entries) }
{
    let _count = names.len();
}

/// The name that stands last.
fn last_name(names: &Names) -> u32
    requires { length names.now.entries ≡ IDLE_BLOCKS }
    ensures { IfSome (last_entry names.now.entries) (λ e. result ≡ e.0) }
{
    match names.peek_lru() {
        Some((name, _)) => *name,
        None => unreachable!(),
    }
}

/// Takes what stands under a name; the name goes behind all others.
fn take_under(names: &mut Names, name: u32) -> Option<Content>
    requires { is_some (lookup (nat_eq name) names.old.entries) ≡ true }
    ensures value { result ≡ content_under (lookup (nat_eq name) names.old.entries) }
    ensures names { names.new ≡ lru_cache (demoted (nat_eq name) (set_value (nat_eq name) names.old.entries None)) names.old.cap }
{
    let before = match names.peek_mut(&name) {
        Some(idle) => mem::replace(idle, None),
        None => unreachable!(),
    };
    let _is_there = names.demote(&name);
    match before {
        Some((_, content)) => Some(content),
        None => None,
    }
}

/// Puts a block with its content under a name, which goes before all others.
fn put_under(names: &mut Names, name: u32, block: u64, content: Content)
    requires { is_some (lookup (nat_eq name) names.old.entries) ≡ true }
    ensures { names.new ≡ lru_cache (put_entries nat_eq names.old name (Some (block, content))) names.old.cap }
{
    match names.put(name, Some((block, content))) {
        Ok(_) => {}
        Err(_) => unreachable!(),
    }
}

/// How many names have a block.
fn count_of(names: &Names) -> usize
    requires { IsFull names.now }
    ensures value { result ≡ length (idle_of names.now.entries) }
    ensures small { result ≤ IDLE_BLOCKS }
{
    let mut count = 0;
    for (_, idle) in names.iter() {
        if idle.is_some() {
            count += 1;
        }
    }
    count
}

/// The contents of some names, in a list of their own. The one error is want of memory.
fn copies_of(alloc: Global, names: &Names) -> Result<Vec<(u64, Content)>, AllocError>
    ensures { IfOk result (λ copies. copies.items ≡ idle_of names.now.entries) }
{
    let mut copies = Vec::with_capacity(alloc, IDLE_BLOCKS)?;
    for (_, idle) in names.iter() {
        if let Some(entry) = idle {
            copies.push((entry.0, entry.1.copy(alloc)?))?;
        }
    }
    Ok(copies)
}
