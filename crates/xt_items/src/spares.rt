//! Rooms for log vectors that are used again.

use std::alloc::{AllocError, Global};
use std::marker::Model;
use xt_base::sizes::ROOM;
use xt_vectors::vector::VectorRoom;

/// Rooms of log vectors that nobody needs any more, at most 128, as many as a commit list has: a mount in steady use asks no memory
/// for a new log vector. Clauses see nothing of these.
#[derive(Debug, Drop)]
pub(crate) struct SpareRooms {
    rooms: Vec<VectorRoom>,
}

impl Model for SpareRooms {
    ghost use Rattle.std.specs.Prelude.{◌≤◌, vec_capacity, ⊤};
    ghost use Rattle.xt_base.specs.declared.sizes.TheConstants.{ROOM};

    ghost Value = { ⊤ };

    ghost view = { λ r. tt };

    ghost invariant = { λ r. ROOM ≤ vec_capacity r.rooms };
}

impl SpareRooms {
    /// No room, but a place for each that is held later. The one error is want of memory.
    pub(crate) fn new(alloc: Global) -> Result<Self, AllocError> {
        let rooms = Vec::with_capacity(alloc, ROOM)?;
        Ok(SpareRooms { rooms })
    }

    /// A room that nobody needs, if there is one. It takes no memory.
    pub(crate) fn take(&mut self) -> Option<VectorRoom> {
        self.rooms.pop()
    }

    /// A room that nobody needs any more is held, if there is one and a place is left. It takes no memory.
    pub(crate) fn give(&mut self, room: Option<VectorRoom>) {
        if let Some(room) = room {
            self.hold(room);
        }
    }

    /// A room is held, if a place is left.
    fn hold(&mut self, room: VectorRoom) {
        if self.rooms.len() < ROOM {
            self.rooms.push_reserved(room);
        }
    }
}
