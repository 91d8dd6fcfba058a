//! Room for what a reply may name, kept from call to call.

ghost use Rattle.std.specs.Prelude.{◌≡◌, IfOk, OnErr, OnOk, None, is_some, true};
ghost use Rattle.xt_base.specs.Alone.{carries_content, names_held};
ghost use Rattle.xt_base.specs.Carried.{may_leave_held};
ghost use Rattle.xt_cell.specs.Twins.{AreReady};

use crate::twin::{Twin, twin_if_plain};
use std::alloc::{AllocError, Global};
use xt_base::content::HeldRoom;
use xt_base::steps::{Reply, Request};

/// Room for two copies of the blocks that the reply to a request may name, made before the request is served, and kept for a later one
/// where the reply names none.
#[derive(Drop)]
pub struct Rooms {
    first: Option<HeldRoom>,
    second: Option<HeldRoom>,
}

impl Rooms {
    /// Room for nothing.
    pub(crate) fn none() -> Self
        ensures { result ≡ record { first = None; second = None } }
    {
        Rooms {
            first: None,
            second: None,
        }
    }

    /// Makes what the reply to a request may need and is not there yet: a commit, a roll and a cancel may leave blocks held. The one
    /// error is want of memory.
    #[inline(always)]
    pub(crate) fn prepare(&mut self, alloc: Global, request: &Request) -> Result<(), AllocError>
        ensures { OnOk result (may_leave_held request.now ≡ true → AreReady self.new) }
    {
        match request {
            Request::Commit { .. } | Request::Roll { .. } | Request::Cancel { .. } => {
                fill(alloc, &mut self.first)?;
                fill(alloc, &mut self.second)
            }
            _ => Ok(()),
        }
    }

    /// A reply twice. A content is copied once, and shared; the one error is want of memory for that. The rooms stay where the reply
    /// names no held block.
    #[inline(always)]
    pub(crate) fn twin(&mut self, alloc: Global, reply: &Reply) -> Result<Twin<Reply>, AllocError>
        requires { names_held reply.now ≡ true → AreReady self.old }
        ensures ok { IfOk result (λ twin. twin.booked ≡ reply.now) }
        ensures err { OnErr result (carries_content reply.now ≡ true) }
    {
        match twin_if_plain(reply) {
            Some(twin) => Ok(twin),
            None => self.carried_twin(alloc, reply),
        }
    }

    /// The same of a reply that carries a content, or names held blocks.
    #[inline(never)]
    fn carried_twin(&mut self, alloc: Global, reply: &Reply) -> Result<Twin<Reply>, AllocError>
        requires { names_held reply.now ≡ true → AreReady self.old }
        ensures ok { IfOk result (λ twin. twin.booked ≡ reply.now) }
        ensures err { OnErr result (carries_content reply.now ≡ true) }
    {
        if let Reply::Data(content) = reply {
            return Twin::shared(alloc, Reply::Data(content.copy(alloc)?));
        }
        let (first, second) = (self.first.take(), self.second.take());
        Ok(Twin::of(reply.copy_into(first), reply.copy_into(second)))
    }
}

/// Makes a room where there is none. The one error is want of memory.
fn fill(alloc: Global, room: &mut Option<HeldRoom>) -> Result<(), AllocError>
    ensures { OnOk result (is_some room.new ≡ true) }
{
    if room.is_none() {
        *room = Some(HeldRoom::new(alloc)?);
    }
    Ok(())
}
