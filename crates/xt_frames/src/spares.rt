//! Room for kept chunks that is used again.

ghost use Rattle.std.specs.Prelude.{◌≡◌, length, IfOk};

use std::alloc::{AllocError, Global};
use std::marker::Model;
use xt_base::content::Content;

/// How many rooms are held at most.
const SPARE_ROOMS: usize = 8;

/// Rooms for contents that no frame needs at present, at most eight: a leg that changes few blocks in place asks no memory for what it
/// keeps of them. Clauses see nothing of these.
#[derive(Debug, Drop)]
pub struct SpareRooms {
    rooms: Vec<Content>,
}

impl Model for SpareRooms {
    ghost use Rattle.std.specs.Prelude.{⊤};

    ghost Value = { ⊤ };

    ghost view = { λ r. tt };
}

impl SpareRooms {
    /// No room, but a place for each that is held later. The one error is want of memory.
    pub fn new(alloc: Global) -> Result<Self, AllocError> {
        let rooms = Vec::with_capacity(alloc, SPARE_ROOMS)?;
        Ok(SpareRooms { rooms })
    }

    /// A room as long as a content: one that nobody needs, if there is one of that length, else a new one. The one error is want of
    /// memory.
    pub fn take(&mut self, alloc: Global, content: &Content) -> Result<Content, AllocError>
        ensures { IfOk result (λ room. length room ≡ length content.now) }
    {
        match self.rooms.pop() {
            Some(room) => {
                if room.bytes().len() == content.bytes().len() {
                    Ok(room)
                } else {
                    content.copy(alloc)
                }
            }
            None => content.copy(alloc),
        }
    }

    /// A room that nobody needs any more is held, where fewer than eight are. It takes no memory.
    pub fn give(&mut self, room: Content) {
        if self.rooms.len() < SPARE_ROOMS {
            let _held = self.rooms.push(room);
        }
    }

    /// All rooms go.
    pub fn clear(&mut self) {
        self.rooms.clear();
    }
}
