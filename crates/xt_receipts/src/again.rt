//! Replies that ask for another try.

ghost use Rattle.std.specs.Prelude.{◌≡◌};
ghost use Rattle.xt_receipts.specs.Again.{is_again};

use xt_base::steps::{Errno, Reply};

/// Whether a reply asks that its request be tried again: EAGAIN, and a force that waits for a checkpoint.
pub fn asks_again(reply: &Reply) -> bool
    ensures { result ≡ is_again reply.now }
{
    matches!(reply, Reply::Refused(Errno::Again) | Reply::Wait(_))
}
