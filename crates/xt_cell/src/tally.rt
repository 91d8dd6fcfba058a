//! What one seat counted of one slot's events.

ghost use Rattle.std.specs.Prelude.{◌≡◌, ◌+◌, ◌<◌, ◌^◌};

use crate::house::{House, Of};
use std::marker::Model;
use std::sync::ledger::{Book, Share};

/// The number of events of slot S that one seat counted, with the share of the slot's ledger that vouches for it.
/// A contract sees the number.
#[derive(Drop)]
pub struct Tally<H: House, const S: u8> {
    amount: u64,
    share: Share<Of<H, S>>,
}

impl<H: House, const S: u8> Model for Tally<H, S> {
    ghost use Rattle.std.specs.Prelude.{◌≡◌, ℕ};

    ghost Value = { ℕ };

    ghost view = { λ t. t.amount };

    ghost invariant = { λ t. (t.share.amount ≡ t.amount) × (t.share.parts ≡ 1) };
}

impl<H: House, const S: u8> Tally<H, S> {
    /// A tally of no event, over one part of the ledger that counted nothing.
    pub fn new(share: Share<Of<H, S>>) -> Self
        requires part { share.parts ≡ 1 }
        requires empty { share.amount ≡ 0 }
        ensures value { result ≡ 0 }
    {
        Tally { amount: 0, share }
    }

    /// Counts one event, in the book too.
    pub fn add(&mut self, book: &mut Book<Of<H, S>>)
        requires room { book.old.total < 2 ^ 63 }
        ensures total { book.new.total ≡ book.old.total + 1 }
        ensures amount { self.new ≡ self.old + 1 }
    {
        // The share's amount is at most the book's total, so the sum below stays in range.
        book.audit(&mut self.share);
        book.add(&mut self.share, 1);
        self.amount += 1;
    }

    /// The number of events counted.
    pub fn amount(&self) -> u64
        ensures value { result ≡ self.now }
    {
        self.amount
    }

    /// Gives the share back, one part with the number for its amount.
    pub fn into_share(self) -> Share<Of<H, S>>
        ensures part { result.parts ≡ 1 }
        ensures amount { result.amount ≡ self }
    {
        let Tally { amount: _, share } = self;
        share
    }
}
