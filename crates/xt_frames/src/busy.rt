//! The frames of busy blocks.

ghost use Rattle.std.specs.Prelude.{◌≡◌, ◌+◌, ◌<◌, ◌≤◌, ◌++◌, ℕ, Some, [], drop, false, length, option_copied, option_map, slice_get, take, true, IfOk, IfSome, OnErr, OnOk};
ghost use Rattle.xt_base.specs.Maps.{at, is_in, put, without};
ghost use Rattle.xt_base.specs.Sound.{IsRising};
ghost use Rattle.xt_frames.specs.Busy.{base_in, busy_of, changed_in, committed_of};
ghost use Rattle.xt_frames.specs.Kept.{Framed, committed_now, logged, undone};

use crate::buf::Buf;
use crate::spares::SpareRooms;
use slab::Slab;
use std::alloc::{AllocError, Global};
use std::marker::Model;
use xt_base::content::Content;
use xt_base::data_ref::DataRef;
use xt_base::map::NumberMap;
use xt_base::sizes::ROOM;

/// The frames of busy blocks, each of which stays where it is until its block rests. It has room for 128, made once: to bring one
/// takes no memory. Clauses see them by rising block, each with its bytes, as the leg that changes it has them, and with its
/// committed content.
#[derive(Debug, Drop)]
pub struct BusyFrames {
    frames: Slab<(u64, Buf)>,
    /// The keys of the frames, by their blocks.
    index: NumberMap<usize>,
    spares: SpareRooms,
}

impl Model for BusyFrames {
    ghost use Rattle.std.specs.Prelude.{List, ℕ};
    ghost use Rattle.xt_frames.specs.Kept.{Framed};

    ghost Value = { List (ℕ × Framed) };

    ghost use Rattle.xt_frames.specs.Busy.{AreTied, busy_of};

    ghost view = { λ b. busy_of b.frames b.index };

    ghost invariant = { λ b. AreTied b.frames b.index };
}

impl BusyFrames {
    /// No frame. The one error is want of memory.
    pub fn new(alloc: Global) -> Result<Self, AllocError>
        ensures { IfOk result (λ busy. busy ≡ []) }
    {
        let frames = Slab::with_capacity(alloc, ROOM)?;
        let index = NumberMap::new(alloc)?;
        let spares = SpareRooms::new(alloc)?;
        Ok(BusyFrames {
            frames,
            index,
            spares,
        })
    }

    /// How many frames there are.
    pub fn len(&self) -> usize
        ensures value { result ≡ length self.now }
        ensures small { result ≤ ROOM }
    {
        self.index.len()
    }

    /// The blocks of the frames rise: for a proof, at run time nothing.
    pub fn blocks_rise(&self)
        ensures { IsRising self.now }
    {
        let _entries = self.index.entries();
    }

    /// The frame of a block.
    pub fn get(&self, block: u64) -> Option<&Buf>
        ensures { option_copied result ≡ at block self.now }
    {
        match self.index.get(block).copied() {
            Some(key) => match self.frames.get(key) {
                Some(frame) => Some(&frame.1),
                None => None,
            },
            None => None,
        }
    }

    /// The block of the frame at a place.
    pub fn block_at(&self, index: usize) -> Option<u64>
        ensures value { result ≡ option_map (λ (e : ℕ × Framed). e.0) (slice_get self.now index) }
        ensures small { IfSome result (λ _. index < ROOM) }
    {
        let entries = self.index.entries();
        if index < entries.len() {
            Some(entries[index].0)
        } else {
            None
        }
    }

    /// Brings a frame, and hands back the one that stood in its place. A new block needs room. It takes no memory.
    #[inline(always)]
    pub fn exchange(&mut self, block: u64, frame: Buf) -> Option<Buf>
        requires { is_in block self.old ≡ false → length self.old < ROOM }
        ensures value { result ≡ at block self.old }
        ensures contents { self.new ≡ put block frame self.old }
    {
        match self.index.find(block) {
            Ok(key) => {
                let (_, before) = self.frames.remove(*key);
                let _key = self.frames.insert_reserved((block, frame));
                Some(before)
            }
            Err(place) => {
                let key = self.frames.insert_reserved((block, frame));
                self.index.insert_at(place, block, key);
                None
            }
        }
    }

    /// Takes the frame of a block away; its place is free for another.
    pub fn remove(&mut self, block: u64) -> Option<Buf>
        ensures value { result ≡ at block self.old }
        ensures rest { self.new ≡ without block self.old }
    {
        let key = self.index.remove(block)?;
        let (_, frame) = self.frames.remove(key);
        Some(frame)
    }

    /// Takes the frame at a place away.
    pub fn remove_at(&mut self, index: usize) -> (u64, Buf)
        requires { index < length self.old }
        ensures value { slice_get self.old index ≡ Some result }
        ensures rest { self.new ≡ take index self.old ++ drop (index + 1) self.old }
    {
        let (block, key) = self.index.remove_at(index);
        let (_, frame) = self.frames.remove(key);
        (block, frame)
    }

    /// All frames go, and the spare rooms. It takes no memory.
    pub fn clear(&mut self)
        ensures { self.new ≡ [] }
    {
        self.frames.clear();
        self.index.clear();
        self.spares.clear();
    }

    /// The committed contents in a list of their own, by rising block. The one error is want of memory.
    pub fn copies(&self, alloc: Global) -> Result<Vec<(u64, Content)>, AllocError>
        ensures { IfOk result (λ copies. copies.items ≡ committed_of self.now) }
    {
        copies_of(alloc, &self.frames, self.index.entries())
    }

    /// A leg writes bytes of a block that has a frame, in place. The one error is want of memory for the first chunk that is kept of
    /// it, and then nothing changes.
    pub fn log(
        &mut self,
        alloc: Global,
        block: u64,
        first: u32,
        bytes: &DataRef<'_>,
    ) -> Result<(), AllocError>
        requires there { is_in block self.old ≡ true }
        requires within { IfSome (at block self.old) (λ f. first + length bytes.now ≤ length f.edit) }
        requires some { 0 < length bytes.now }
        ensures ok { OnOk result (self.new ≡ changed_in (logged first bytes.now) block self.old) }
        ensures err { OnErr result (self.new ≡ self.old) }
    {
        let Some(key) = self.index.get(block).copied() else {
            unreachable!();
        };
        match self.frames.get_mut(key) {
            Some(frame) => frame.1.log(&mut self.spares, alloc, first, bytes),
            None => unreachable!(),
        }
    }

    /// What a leg changed of a block is put back, if it has a frame. It takes no memory.
    pub fn undo(&mut self, block: u64)
        ensures { self.new ≡ changed_in undone block self.old }
    {
        let Some(key) = self.index.get(block).copied() else {
            return;
        };
        match self.frames.get_mut(key) {
            Some(frame) => frame.1.undo(&mut self.spares),
            None => unreachable!(),
        }
    }

    /// The bytes of a block that has a frame, as its leg has them, are committed. It takes no memory.
    pub fn commit(&mut self, block: u64)
        requires { is_in block self.old ≡ true }
        ensures { self.new ≡ changed_in committed_now block self.old }
    {
        let Some(key) = self.index.get(block).copied() else {
            unreachable!();
        };
        match self.frames.get_mut(key) {
            Some(frame) => frame.1.commit(&mut self.spares),
            None => unreachable!(),
        }
    }
}

/// The committed contents of the frames that an index leads to, in a list of their own. The one error is want of memory.
fn copies_of(
    alloc: Global,
    frames: &Slab<(u64, Buf)>,
    index: &[(u64, usize)],
) -> Result<Vec<(u64, Content)>, AllocError>
    ensures { IfOk result (λ copies. copies.items ≡ committed_of (busy_of frames.now index.now)) }
{
    let mut copies = Vec::with_capacity(alloc, index.len())?;
    for e in index {
        if let Some(content) = copy_of(alloc, frames, e.1)? {
            copies.push((e.0, content))?;
        }
    }
    Ok(copies)
}

/// A copy of the committed content of the frame under a key, if it is there. The one error is want of memory.
fn copy_of(
    alloc: Global,
    frames: &Slab<(u64, Buf)>,
    key: usize,
) -> Result<Option<Content>, AllocError>
    ensures { IfOk result (λ copy. copy ≡ base_in frames.now key) }
{
    match frames.get(key) {
        Some(frame) => Ok(Some(frame.1.committed_copy(alloc)?)),
        None => Ok(None),
    }
}
