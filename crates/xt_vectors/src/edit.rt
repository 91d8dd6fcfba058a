//! What a leg has of a block that it changed.

ghost use Rattle.std.specs.Prelude.{◌≡◌, ◌+◌, ◌≤◌, [], Some, length, option_copied, true, unwrap_or};
ghost use Rattle.xt_base.specs.Calls.{overwritten};
ghost use Rattle.xt_vectors.specs.Edits.{has_own, own_bytes};

use crate::vector::{VectorRoom, content_len};
use std::marker::Model;
use xt_base::content::Content;
use xt_base::data_ref::DataRef;

/// What a leg has of a block: bytes of its own, or none where the block is changed in place; with room for the log vector that its
/// commit makes, so the commit takes no memory. Clauses see the bytes, which are none where it has none of its own.
#[derive(Debug, Drop)]
pub struct Edit {
    content: Option<Content>,
    room: VectorRoom,
}

impl Model for Edit {
    ghost use Rattle.std.specs.Prelude.{List, [], unwrap_or, ℕ};

    ghost Value = { List ℕ };

    ghost view = { λ e. unwrap_or e.content [] };
}

impl Edit {
    /// These bytes of its own, with this room.
    pub fn own(content: Content, room: VectorRoom) -> Self
        ensures { result ≡ content }
    {
        let content = Some(content);
        Edit { content, room }
    }

    /// No bytes of its own, since the block is changed in place, with this room.
    pub fn in_place(room: VectorRoom) -> Self
        ensures { result ≡ [] }
    {
        let content = None;
        Edit { content, room }
    }

    /// The bytes of its own, if it has some.
    pub fn content(&self) -> Option<&Content>
        ensures { option_copied result ≡ own_bytes self.now }
    {
        match &self.content {
            Some(content) => Some(whole(content)),
            None => None,
        }
    }

    /// Writes bytes of its own from `first` on.
    pub fn write(&mut self, first: usize, bytes: &DataRef<'_>)
        requires own { has_own self.old ≡ true }
        requires within { first + length bytes.now ≤ length self.old }
        ensures { self.new ≡ overwritten first bytes.now self.old }
    {
        if let Some(content) = &mut self.content {
            let _size = content_len(content);
            content.write_data(first, bytes);
        }
    }

    /// The bytes of its own, if it has some, and its room.
    pub fn into_parts(self) -> (Option<Content>, VectorRoom)
        ensures { result.0 ≡ own_bytes self }
    {
        let Edit { content, room } = self;
        (kept_whole(content), room)
    }
}

/// A content, which has a byte.
fn whole(content: &Content) -> &Content
    ensures value { result.now ≡ content.now }
    ensures own { Some content.now ≡ own_bytes content.now }
{
    let _whole = content.bytes();
    content
}

/// A content, if there is one, which has a byte.
fn kept_whole(content: Option<Content>) -> Option<Content>
    ensures value { result ≡ content }
    ensures own { result ≡ own_bytes (unwrap_or content []) }
{
    if let Some(content) = &content {
        let _whole = content.bytes();
    }
    content
}
