//! In which way the two files of a log are read, by how they begin.

ghost use Rattle.std.specs.Prelude.{◌≡◌, List, false, true, ℕ};
ghost use Rattle.xt_window.specs.Start.{IsStartOf, IsUnsealed};
ghost use Rattle.xt_window.specs.Ways.{HasBegun, IsNextHeader, IsWay, newest_of as newest, older_of as older};

use crate::start::{Start, Unsealed};
use xt_seal::{Header, Sealer};

/// One of the two files of a log.
#[derive(Clone, Copy, Debug, PartialEq, Eq)]
pub enum Which {
    One,
    Other,
}

/// A header that begins a file, and what sums up the texts behind it.
#[derive(Clone, Copy)]
pub struct Begun {
    pub header: Header,
    pub sealer: Sealer,
}

/// In which way two files are read.
#[derive(Clone, Copy)]
pub enum Way {
    /// The first one has a log without seals, the other nothing.
    Bare,
    /// Both have headers, the second next to the first: that of the older file, which is told.
    Linked(Which, Begun, Begun),
    /// One has a header; the other, which is told, has no text.
    Alone(Which, Begun),
    /// Neither has a text.
    Nothing,
}

/// In which way two files are read that begin so; None where they are no log.
pub fn way_of(one: &Start, other: &Start) -> Option<Way>
    ensures { (first second : List ℕ) → IsStartOf first one.now → IsStartOf second other.now → IsWay first second result }
{
    match one {
        Start::Sealed(header, sealer) => way_of_sealed(
            Begun {
                header: *header,
                sealer: *sealer,
            },
            other,
        ),
        Start::Other(seen) => way_of_unsealed(*seen, other),
    }
}

/// The same, where a header begins the first one.
fn way_of_sealed(one: Begun, other: &Start) -> Option<Way>
    ensures { (first second : List ℕ) → HasBegun first one → IsStartOf second other.now → IsWay first second result }
{
    match other {
        Start::Sealed(header, sealer) => way_of_both(
            one,
            Begun {
                header: *header,
                sealer: *sealer,
            },
        ),
        Start::Other(seen) => {
            if seen.short.is_some() {
                Some(Way::Alone(Which::Other, one))
            } else {
                None
            }
        }
    }
}

/// The same, where headers begin both.
fn way_of_both(one: Begun, other: Begun) -> Option<Way>
    ensures { (first second : List ℕ) → HasBegun first one → HasBegun second other → IsWay first second result }
{
    if is_next(&one.header, &other.header) {
        return Some(Way::Linked(Which::One, one, other));
    }
    if is_next(&other.header, &one.header) {
        return Some(Way::Linked(Which::Other, other, one));
    }
    None
}

/// Whether a header is the next one after another, in one life.
fn is_next(header: &Header, next: &Header) -> bool
    ensures yes { result ≡ true → IsNextHeader header.now next.now }
    ensures no { result ≡ false → IsNextHeader header.now next.now → ⊥ }
{
    header.generation < next.generation
        && next.generation - header.generation == 1
        && header.salt == next.salt
        && header.name == next.name
        && header.block_size == next.block_size
        && header.log_bytes == next.log_bytes
}

/// The same, where none begins the first one.
fn way_of_unsealed(one: Unsealed, other: &Start) -> Option<Way>
    ensures { (first second : List ℕ) → IsUnsealed first one → IsStartOf second other.now → IsWay first second result }
{
    match other {
        Start::Sealed(header, sealer) => {
            if one.short.is_some() {
                Some(Way::Alone(
                    Which::One,
                    Begun {
                        header: *header,
                        sealer: *sealer,
                    },
                ))
            } else {
                None
            }
        }
        Start::Other(seen) => way_of_neither(one, *seen),
    }
}

/// The same, where none begins either.
fn way_of_neither(one: Unsealed, other: Unsealed) -> Option<Way>
    ensures { (first second : List ℕ) → IsUnsealed first one → IsUnsealed second other → IsWay first second result }
{
    if one.has_text && other.short == Some(0) {
        return Some(Way::Bare);
    }
    if one.short.is_some() && other.short.is_some() {
        return Some(Way::Nothing);
    }
    None
}

/// Which file is older, or has nothing that counts: it is emptied first.
pub fn older_of(way: &Way) -> Which
    ensures { result ≡ older way.now }
{
    match way {
        Way::Linked(older, ..) | Way::Alone(older, _) => *older,
        Way::Bare | Way::Nothing => Which::Other,
    }
}

/// The newer header of two, or the only one.
pub fn newest_of(way: &Way) -> Option<Header>
    ensures { result ≡ newest way.now }
{
    match way {
        Way::Linked(_, _, newer) | Way::Alone(_, newer) => Some(newer.header),
        Way::Bare | Way::Nothing => None,
    }
}
