//! What the book of a slot has of one caller.

use xt_base::names::Caller;
use xt_base::steps::{Errno, Reply, Step};
use xt_cell::account::Account;

/// Whether a call was told to try again.
fn is_told_again(reply: &Reply) -> bool {
    matches!(reply, Reply::Refused(Errno::Again) | Reply::Wait(_))
}

/// What a book has of a caller.
pub struct Booked {
    pub calls: u64,
    /// How many of the calls were told to try again.
    pub tries: u64,
    /// How many jobs that its calls made owed were posted: those are no calls, and no seat counts them.
    pub posts: u64,
}

/// What a book has of a caller that it has nothing of.
pub const UNBOOKED: Booked = Booked {
    calls: 0,
    tries: 0,
    posts: 0,
};

/// What a book has of a caller.
pub fn booked_for(book: &Account, caller: Caller) -> Booked {
    let mut booked = UNBOOKED;
    for entry in book.entries() {
        if entry.caller != caller {
            continue;
        }
        if matches!(entry.step.get(), Step::Post(_)) {
            booked.posts = booked.posts.saturating_add(1);
            continue;
        }
        booked.calls = booked.calls.saturating_add(1);
        if is_told_again(entry.reply.get()) {
            booked.tries = booked.tries.saturating_add(1);
        }
    }
    booked
}
