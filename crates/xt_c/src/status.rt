//! What an export returns: 0 or more, or an errno of Linux, negative.

ghost use Rattle.std.specs.Prelude.{◌≡◌, pos};
ghost use Rattle.xt_c.specs.Status.{refusal, status_of};

use xt_base::steps::{Errno, Reply};

/// A refusal: its errno, negative.
pub fn refusal(errno: Errno) -> i32
    ensures { result ≡ refusal errno }
{
    match errno {
        Errno::Io => -5,
        Errno::Again => -11,
        Errno::NoMemory => -12,
        Errno::Busy => -16,
        Errno::NoDevice => -19,
        Errno::Invalid => -22,
        Errno::NoSpace => -28,
        Errno::NoBufs => -105,
        Errno::Stale => -116,
    }
}

/// What a served call or job returns: 0, or what it was refused with.
pub fn status_of(reply: &Reply) -> i32
    ensures { result ≡ status_of reply.now }
{
    match reply {
        Reply::Refused(errno) => refusal(*errno),
        Reply::Aborted(_) => refusal(Errno::Io),
        _ => 0,
    }
}
