//! The shares that no seat has yet, with the next seat's number.

ghost use Rattle.std.specs.Prelude.{◌≡◌, ◌+◌, ◌-◌, ◌<◌, ◌^◌, ◌↔◌, replicate, sum, length, None, IsSome, IfSome};
ghost use Rattle.xt_base.specs.declared.sizes.TheConstants.{SLOTS};
ghost use Rattle.xt_cell.specs.Ledgers.{AreCut, AreNamed};

use crate::house::{House, Of};
use crate::shares::Shares;
use crate::tally::Tally;
use std::marker::Model;
use std::sync::ledger::{Blank, Book, Share};
use xt_base::names::Caller;

/// Sixteen new ledgers, which no house names yet.
#[derive(Drop)]
pub struct Blanks {
    pub b0: Blank,
    pub b1: Blank,
    pub b2: Blank,
    pub b3: Blank,
    pub b4: Blank,
    pub b5: Blank,
    pub b6: Blank,
    pub b7: Blank,
    pub b8: Blank,
    pub b9: Blank,
    pub b10: Blank,
    pub b11: Blank,
    pub b12: Blank,
    pub b13: Blank,
    pub b14: Blank,
    pub b15: Blank,
}

impl Blanks {
    /// Sixteen ledgers, each cut into as many parts as a u64 counts: one for every seat that can ever be made.
    pub fn new() -> Self
        ensures parts { AreCut (2 ^ 64 - 1) result }
    {
        Blanks {
            b0: Blank::new(u64::MAX),
            b1: Blank::new(u64::MAX),
            b2: Blank::new(u64::MAX),
            b3: Blank::new(u64::MAX),
            b4: Blank::new(u64::MAX),
            b5: Blank::new(u64::MAX),
            b6: Blank::new(u64::MAX),
            b7: Blank::new(u64::MAX),
            b8: Blank::new(u64::MAX),
            b9: Blank::new(u64::MAX),
            b10: Blank::new(u64::MAX),
            b11: Blank::new(u64::MAX),
            b12: Blank::new(u64::MAX),
            b13: Blank::new(u64::MAX),
            b14: Blank::new(u64::MAX),
            b15: Blank::new(u64::MAX),
        }
    }
}

/// The sixteen books, one a slot. Each goes behind the lock of its slot.
#[derive(Drop)]
pub struct Books<H: House> {
    pub b0: Book<Of<H, 0>>,
    pub b1: Book<Of<H, 1>>,
    pub b2: Book<Of<H, 2>>,
    pub b3: Book<Of<H, 3>>,
    pub b4: Book<Of<H, 4>>,
    pub b5: Book<Of<H, 5>>,
    pub b6: Book<Of<H, 6>>,
    pub b7: Book<Of<H, 7>>,
    pub b8: Book<Of<H, 8>>,
    pub b9: Book<Of<H, 9>>,
    pub b10: Book<Of<H, 10>>,
    pub b11: Book<Of<H, 11>>,
    pub b12: Book<Of<H, 12>>,
    pub b13: Book<Of<H, 13>>,
    pub b14: Book<Of<H, 14>>,
    pub b15: Book<Of<H, 15>>,
}

/// The parts of the ledger of slot S that no seat has. A contract sees how many.
#[derive(Drop)]
pub struct Purse<H: House, const S: u8> {
    share: Share<Of<H, S>>,
}

impl<H: House, const S: u8> Model for Purse<H, S> {
    ghost use Rattle.std.specs.Prelude.{◌≡◌, ℕ};

    ghost Value = { ℕ };

    ghost view = { λ p. p.share.parts };

    ghost invariant = { λ p. p.share.amount ≡ 0 };
}

impl<H: House, const S: u8> Purse<H, S> {
    /// Opens the ledger of slot S: its book, and all its parts.
    pub fn open(blank: Blank) -> (Book<Of<H, S>>, Self)
        requires name { blank.name ≡ H.names S }
        requires parts { blank.parts ≡ H.all }
        ensures total { result.0.total ≡ 0 }
        ensures parts { result.1 ≡ H.all }
    {
        let (book, share) = blank.open();
        (book, Purse { share })
    }

    /// Takes one part out, as a tally of no event.
    pub fn draw(&mut self) -> Tally<H, S>
        requires some { 0 < self.old }
        ensures left { self.new + 1 ≡ self.old }
        ensures value { result ≡ 0 }
    {
        Tally::new(self.share.split_off(1, 0))
    }

    /// Where the tallies that come back and the parts left here make up the whole ledger,
    /// the tallies add up to the book's total.
    pub fn settle(self, book: &mut Book<Of<H, S>>, tallies: Vec<Tally<H, S>>)
        ensures whole { self + length tallies.items ≡ H.all → book.old.total ≡ sum tallies.items }
        ensures same { book.new.total ≡ book.old.total }
    {
        let Purse { mut share } = self;
        let mut rest = tallies;
        while let Some(tally) = rest.pop() {
            share.merge(tally.into_share());
        }
        book.audit(&mut share);
    }
}

/// The purses of four slots, which have as many parts left. A contract sees how many.
struct Purses<H: House, const A: u8, const B: u8, const C: u8, const D: u8> {
    a: Purse<H, A>,
    b: Purse<H, B>,
    c: Purse<H, C>,
    d: Purse<H, D>,
}

impl<H: House, const A: u8, const B: u8, const C: u8, const D: u8> Model for Purses<H, A, B, C, D> {
    ghost use Rattle.std.specs.Prelude.{◌≡◌, ℕ};

    ghost Value = { ℕ };

    ghost view = { λ p. p.a };

    ghost invariant = { λ p. (p.b ≡ p.a) × (p.c ≡ p.a) × (p.d ≡ p.a) };
}

impl<H: House, const A: u8, const B: u8, const C: u8, const D: u8> Drop for Purses<H, A, B, C, D> {
    fn drop(self) {
        let Purses {
            a: _a,
            b: _b,
            c: _c,
            d: _d,
        } = self;
    }
}

/// The books of four slots.
type FourBooks<H, const A: u8, const B: u8, const C: u8, const D: u8> = (
    Book<Of<H, A>>,
    Book<Of<H, B>>,
    Book<Of<H, C>>,
    Book<Of<H, D>>,
);

/// The tallies of four slots.
type FourTallies<H, const A: u8, const B: u8, const C: u8, const D: u8> = (
    Tally<H, A>,
    Tally<H, B>,
    Tally<H, C>,
    Tally<H, D>,
);

impl<H: House, const A: u8, const B: u8, const C: u8, const D: u8> Purses<H, A, B, C, D> {
    /// Opens the ledgers of four slots: their books, and all their parts.
    fn open(a: Blank, b: Blank, c: Blank, d: Blank) -> (FourBooks<H, A, B, C, D>, Self)
        requires names { (a.name ≡ H.names A) × (b.name ≡ H.names B) × (c.name ≡ H.names C) × (d.name ≡ H.names D) }
        requires parts { (a.parts ≡ H.all) × (b.parts ≡ H.all) × (c.parts ≡ H.all) × (d.parts ≡ H.all) }
        ensures totals { (result.0.0.total ≡ 0) × (result.0.1.total ≡ 0) × (result.0.2.total ≡ 0) × (result.0.3.total ≡ 0) }
        ensures parts { result.1 ≡ H.all }
    {
        let (book_a, a) = Purse::open(a);
        let (book_b, b) = Purse::open(b);
        let (book_c, c) = Purse::open(c);
        let (book_d, d) = Purse::open(d);
        ((book_a, book_b, book_c, book_d), Purses { a, b, c, d })
    }

    /// Takes one part of each out, as tallies of no event.
    fn draw(&mut self) -> FourTallies<H, A, B, C, D>
        requires some { 0 < self.old }
        ensures left { self.new + 1 ≡ self.old }
        ensures values { (result.0 ≡ 0) × (result.1 ≡ 0) × (result.2 ≡ 0) × (result.3 ≡ 0) }
    {
        (self.a.draw(), self.b.draw(), self.c.draw(), self.d.draw())
    }
}

/// What a host keeps for the seats to come: the next seat's number, and one part of each ledger for each of them.
/// A contract sees the next number.
#[derive(Drop)]
pub struct Reserve<H: House> {
    next: u64,
    low: Purses<H, 0, 1, 2, 3>,
    lower: Purses<H, 4, 5, 6, 7>,
    upper: Purses<H, 8, 9, 10, 11>,
    high: Purses<H, 12, 13, 14, 15>,
}

impl<H: House> Model for Reserve<H> {
    ghost use Rattle.std.specs.Prelude.{◌≡◌, ◌+◌, ◌<◌, ◌^◌, ℕ};

    ghost Value = { ℕ };

    ghost view = { λ r. r.next };

    ghost invariant = { λ r. (0 < r.next) × (r.low + r.next ≡ 2 ^ 64) × (r.lower + r.next ≡ 2 ^ 64) × (r.upper + r.next ≡ 2 ^ 64) × (r.high + r.next ≡ 2 ^ 64) };
}

impl<H: House> Reserve<H> {
    /// Opens the sixteen ledgers of the house: their books, and the reserve, whose first seat has the number 1.
    pub fn open(blanks: Blanks) -> (Books<H>, Self)
        requires names { AreNamed H.names blanks }
        requires parts { AreCut H.all blanks }
        requires all { H.all ≡ 2 ^ 64 - 1 }
        ensures totals { (result.0.b0.total ≡ 0) × (result.0.b1.total ≡ 0) × (result.0.b2.total ≡ 0) × (result.0.b3.total ≡ 0) × (result.0.b4.total ≡ 0) × (result.0.b5.total ≡ 0) × (result.0.b6.total ≡ 0) × (result.0.b7.total ≡ 0) × (result.0.b8.total ≡ 0) × (result.0.b9.total ≡ 0) × (result.0.b10.total ≡ 0) × (result.0.b11.total ≡ 0) × (result.0.b12.total ≡ 0) × (result.0.b13.total ≡ 0) × (result.0.b14.total ≡ 0) × (result.0.b15.total ≡ 0) }
        ensures next { result.1 ≡ 1 }
    {
        let ((b0, b1, b2, b3), low) = Purses::open(blanks.b0, blanks.b1, blanks.b2, blanks.b3);
        let ((b4, b5, b6, b7), lower) = Purses::open(blanks.b4, blanks.b5, blanks.b6, blanks.b7);
        let ((b8, b9, b10, b11), upper) = Purses::open(
            blanks.b8, blanks.b9, blanks.b10, blanks.b11,
        );
        let ((b12, b13, b14, b15), high) = Purses::open(
            blanks.b12, blanks.b13, blanks.b14, blanks.b15,
        );
        let books = Books {
            b0,
            b1,
            b2,
            b3,
            b4,
            b5,
            b6,
            b7,
            b8,
            b9,
            b10,
            b11,
            b12,
            b13,
            b14,
            b15,
        };
        let reserve = Reserve {
            next: 1,
            low,
            lower,
            upper,
            high,
        };
        (books, reserve)
    }

    /// The number of the next seat, with a tally of no event for each slot. None, and nothing changes, where the last u64 is next:
    /// the numbers and the parts end together.
    pub(crate) fn draw(&mut self) -> Option<(Caller, Shares<H>)>
        ensures given { IsSome result ↔ (self.old + 1 < 2 ^ 64) }
        ensures drawn { IfSome result (λ seat. (seat.0 ≡ self.old) × (seat.1 ≡ replicate SLOTS 0) × (self.new ≡ self.old + 1)) }
        ensures none { result ≡ None → self.new ≡ self.old }
    {
        if self.next == u64::MAX {
            return None;
        }
        let caller = Caller(self.next);
        self.next += 1;
        let (s0, s1, s2, s3) = self.low.draw();
        let (s4, s5, s6, s7) = self.lower.draw();
        let (s8, s9, s10, s11) = self.upper.draw();
        let (s12, s13, s14, s15) = self.high.draw();
        let shares = Shares {
            s0,
            s1,
            s2,
            s3,
            s4,
            s5,
            s6,
            s7,
            s8,
            s9,
            s10,
            s11,
            s12,
            s13,
            s14,
            s15,
        };
        Some((caller, shares))
    }
}
