//! The frame of a busy block, which a leg changes in place.

ghost use Rattle.std.specs.Prelude.{ℕ, List, ◌≡◌, ◌+◌, ◌<◌, ◌≤◌, None, length, IfOk, IfSome, OnErr, OnOk};
ghost use Rattle.xt_frames.specs.Kept.{before_edits, clean_of, committed_now, logged, restored, undone};

use crate::kept::{KeptChunks, content_len};
use crate::spares::SpareRooms;
use std::alloc::{AllocError, Global};
use std::marker::Model;
use xt_base::content::Content;
use xt_base::data_ref::DataRef;

/// The frame of a busy block: its bytes, and each chunk that a leg wrote, as it was. Clauses see the bytes, and the committed content,
/// which is the bytes with the kept chunks put back.
#[derive(Debug, Drop)]
pub struct Buf {
    content: Content,
    kept: Option<KeptChunks>,
}

impl Model for Buf {
    ghost use Rattle.std.specs.Prelude.{IfSome, ◌≡◌, length};
    ghost use Rattle.xt_frames.specs.Kept.{Framed, framed};

    ghost Value = { Framed };

    ghost view = { λ b. framed b.content b.kept };

    ghost invariant = { λ b. IfSome b.kept (λ k. length k.bytes ≡ length b.content) };
}

impl Buf {
    /// The frame of a committed content, which nobody changed.
    pub fn clean(content: Content) -> Self
        ensures { result ≡ clean_of content }
    {
        Buf {
            content,
            kept: None,
        }
    }

    /// Its bytes, as the leg that changes it has them: as many as the committed ones.
    pub fn content(&self) -> &Content
        ensures value { result.now ≡ self.now.edit }
        ensures size { length result.now ≡ length self.now.committed }
    {
        let _size = content_len(&self.content);
        &self.content
    }

    /// Writes bytes in place, and keeps the chunks that they touch as they were, the first of them in a spare room. The one error is want
    /// of memory for that, and then nothing changes.
    pub fn log(
        &mut self,
        spares: &mut SpareRooms,
        alloc: Global,
        first: u32,
        bytes: &DataRef<'_>,
    ) -> Result<(), AllocError>
        requires within { first + length bytes.now ≤ length self.old.edit }
        requires some { 0 < length bytes.now }
        ensures ok { OnOk result (self.new ≡ logged first bytes.now self.old) }
        ensures err { OnErr result (self.new ≡ self.old) }
    {
        let mut kept = kept_or_room(self.kept.take(), spares, alloc, &self.content)?;
        kept.write(&mut self.content, first, bytes);
        self.kept = Some(kept);
        Ok(())
    }

    /// All changes are put back. It takes no memory.
    pub fn undo(&mut self, spares: &mut SpareRooms)
        ensures { self.new ≡ undone self.old }
    {
        put_back(&self.kept, &mut self.content);
        self.keep_none(spares);
    }

    /// The bytes are committed. It takes no memory.
    pub fn commit(&mut self, spares: &mut SpareRooms)
        ensures { self.new ≡ committed_now self.old }
    {
        self.keep_none(spares);
    }

    /// No chunk is kept any more: the room for them is spare.
    fn keep_none(&mut self, spares: &mut SpareRooms)
        ensures { self.new ≡ clean_of self.old.edit }
    {
        if let Some(kept) = self.kept.take() {
            spares.give(kept.into_room());
        }
    }

    /// A copy of the committed content. The one error is want of memory.
    pub fn committed_copy(&self, alloc: Global) -> Result<Content, AllocError>
        ensures { IfOk result (λ copy. copy ≡ self.now.committed) }
    {
        let mut copy = self.content.copy(alloc)?;
        put_back(&self.kept, &mut copy);
        Ok(copy)
    }

    /// The frame goes: its committed content. It takes no memory.
    pub fn into_committed(self) -> Content
        ensures { result ≡ self.committed }
    {
        let Buf { mut content, kept } = self;
        put_back(&kept, &mut content);
        content
    }
}

/// The chunks that are kept of a content, or room to keep some. The one error is want of memory for that.
fn kept_or_room(
    kept: Option<KeptChunks>,
    spares: &mut SpareRooms,
    alloc: Global,
    content: &Content,
) -> Result<KeptChunks, AllocError>
    requires { IfSome kept (λ k. length k.bytes ≡ length content.now) }
    ensures size { IfOk result (λ room. length room.bytes ≡ length content.now) }
    ensures ok { IfOk result (λ room. restored room content.now ≡ before_edits kept content.now) }
    ensures err { OnErr result (kept ≡ None) }
{
    let _size = content_len(content);
    match kept {
        Some(kept) => Ok(kept),
        None => {
            let room = spares.take(alloc, content)?;
            Ok(KeptChunks::none(room))
        }
    }
}

/// The kept chunks are put back into a content, where some are kept.
fn put_back(kept: &Option<KeptChunks>, content: &mut Content)
    requires { IfSome kept.now (λ k. length k.bytes ≡ length content.old) }
    ensures size { length content.new ≡ length content.old }
    ensures value { content.new ≡ before_edits kept.now content.old }
{
    if let Some(kept) = kept {
        kept.put_back(content);
    }
}
