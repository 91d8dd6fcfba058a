//! The posts of the jobs that an event made owed.

ghost use Rattle.std.specs.Prelude.{◌≡◌, ◌+◌, ◌≤◌, is_some, true};
ghost use Rattle.xt_cell.specs.Facts.{has_log, is_flown_by_job, is_last_post};
ghost use Rattle.xt_cell.specs.Posts.{PostsBoth, PostsOne};
ghost use Rattle.xt_mount.specs.Slots.{pieces_in};
ghost use Rattle.xt_queue.specs.Names.{last_of, unposted};

use crate::book::SlotBook;
use crate::house::House;
use crate::poster::Poster;
use std::sync::Wait;
use xt_base::names::{Caller, JobKind};

/// Posts the job of a kind that is owed, if there is one, and books that; where 32 names wait it stays owed.
#[tactic(auto, using(crate::proofs::FactLemmas::follows, crate::proofs::FactLemmas::posted_last))]
#[inline(never)]
pub fn post_one<H: House, R: Wait, const S: u8>(
    rt: &R,
    book: &mut SlotBook<H, S>,
    poster: &mut Poster<S>,
    caller: Caller,
    kind: JobKind,
)
    requires last { is_last_post (last_of unposted poster.old.posted) book.old.state ≡ true }
    requires room { 1 ≤ book.old.room }
    ensures posts { PostsOne kind caller poster.old book.old poster.new book.new }
    ensures last { is_last_post (last_of unposted poster.new.posted) book.new.state ≡ true }
    ensures home { is_some book.new.state.mounted ≡ is_some book.old.state.mounted }
    ensures log { has_log book.new.state.mounted ≡ has_log book.old.state.mounted }
    ensures idle { is_flown_by_job book.old.state.mounted ≡ true → is_flown_by_job book.new.state.mounted ≡ true }
    ensures pieces { pieces_in book.new.state.mounted ≡ pieces_in book.old.state.mounted }
    ensures room { book.old.room ≤ book.new.room + 1 }
{
    if let Some(name) = book.slot().owed(kind) {
        if poster.post(rt, name).is_ok() {
            book.posted(caller, &name);
        }
    }
}

/// The same. It is asked first whether one is owed, so that where none is, as after most events, nothing is called.
#[inline(always)]
fn post_owed<H: House, R: Wait, const S: u8>(
    rt: &R,
    book: &mut SlotBook<H, S>,
    poster: &mut Poster<S>,
    caller: Caller,
    kind: JobKind,
)
    requires last { is_last_post (last_of unposted poster.old.posted) book.old.state ≡ true }
    requires room { 1 ≤ book.old.room }
    ensures posts { PostsOne kind caller poster.old book.old poster.new book.new }
    ensures last { is_last_post (last_of unposted poster.new.posted) book.new.state ≡ true }
    ensures home { is_some book.new.state.mounted ≡ is_some book.old.state.mounted }
    ensures log { has_log book.new.state.mounted ≡ has_log book.old.state.mounted }
    ensures idle { is_flown_by_job book.old.state.mounted ≡ true → is_flown_by_job book.new.state.mounted ≡ true }
    ensures pieces { pieces_in book.new.state.mounted ≡ pieces_in book.old.state.mounted }
    ensures room { book.old.room ≤ book.new.room + 1 }
{
    if book.slot().owed(kind).is_some() {
        post_one(rt, book, poster, caller, kind);
    }
}

/// Posts what is owed after an event: a checkpoint, and then a flush.
#[inline(always)]
pub fn post_both<H: House, R: Wait, const S: u8>(
    rt: &R,
    book: &mut SlotBook<H, S>,
    poster: &mut Poster<S>,
    caller: Caller,
)
    requires last { is_last_post (last_of unposted poster.old.posted) book.old.state ≡ true }
    requires room { 2 ≤ book.old.room }
    ensures posts { PostsBoth caller poster.old book.old poster.new book.new }
    ensures last { is_last_post (last_of unposted poster.new.posted) book.new.state ≡ true }
    ensures home { is_some book.new.state.mounted ≡ is_some book.old.state.mounted }
    ensures log { has_log book.new.state.mounted ≡ has_log book.old.state.mounted }
    ensures idle { is_flown_by_job book.old.state.mounted ≡ true → is_flown_by_job book.new.state.mounted ≡ true }
    ensures pieces { pieces_in book.new.state.mounted ≡ pieces_in book.old.state.mounted }
{
    post_owed(rt, book, poster, caller, JobKind::Ckpt);
    post_owed(rt, book, poster, caller, JobKind::Flush);
}
