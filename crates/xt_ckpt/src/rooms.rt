//! Room of items that are let go, for the items of the texts that are read next.

ghost use Rattle.std.specs.Prelude.{◌≡◌, [], IfOk};

use crate::item::Item;
use crate::reading::Checkpoint;
use std::alloc::{AllocError, Global};

/// Room for the bytes of items. What is given back is used again, so that of texts that are read one after another only the first asks
/// the system for room.
#[derive(Debug, Drop)]
pub struct Rooms {
    alloc: Global,
    /// Items that are let go.
    spare: Vec<Item>,
}

impl Rooms {
    /// No room yet.
    pub fn new(alloc: Global) -> Self {
        Rooms {
            alloc,
            spare: Vec::new(alloc),
        }
    }

    /// The allocator that is asked where no room is left.
    pub(crate) fn alloc(&self) -> Global {
        self.alloc
    }

    /// Takes the room of a checkpoint's items. Where there is no memory to note it, it goes back to the allocator.
    pub fn give_back(&mut self, checkpoint: Checkpoint) {
        let mut items = checkpoint.items;
        let _ = self.spare.append(&mut items);
    }

    /// Room that was given back, with nothing in it; or none yet.
    fn take(&mut self) -> Vec<u8>
        ensures { result.items ≡ [] }
    {
        match self.spare.pop() {
            Some(item) => {
                let mut content = item.content;
                content.clear();
                content
            }
            None => Vec::new(self.alloc),
        }
    }

    /// A copy of these bytes.
    pub(crate) fn copy_of(&mut self, bytes: &[u8]) -> Result<Vec<u8>, AllocError>
        ensures { IfOk result (λ content. content.items ≡ bytes.now) }
    {
        let mut content = self.take();
        content.extend_from_slice(bytes)?;
        Ok(content)
    }
}
