//! The sums of a log's texts.

ghost use Rattle.std.specs.Prelude.{◌≡◌, ◌++◌, [], List, length, ℕ};
ghost use Rattle.xt_seal.specs.Seal.{Seals, seal_of, text_seal};

use std::hash::{DefaultHasher, Hasher};
use std::marker::Model;

/// How many bytes a seal has.
pub const SEAL_BYTES: usize = 8;

/// What was summed up of a log: its header, the last seal, and the pieces of a text behind that.
#[derive(Clone, Copy)]
pub struct Sealer {
    head: DefaultHasher,
    text: DefaultHasher,
}

impl Model for Sealer {
    ghost use Rattle.xt_seal.specs.Sums.{Sums};

    ghost Value = { Sums };

    ghost view = { λ s. record { head = s.head; text = s.text } };

    ghost inverse = { λ v. record { head = v.head; text = v.text } };
}

impl Sealer {
    /// A log that has nothing but a header, and the header's own seal, which stands behind it.
    pub(crate) fn new(head: &[u8]) -> (Sealer, [u8; SEAL_BYTES])
        ensures seals { Seals result.0 head.now (seal_of head.now) [] }
        ensures seal { result.1 ≡ seal_of head.now }
        ensures length { length result.1 ≡ 8 }
    {
        let mut hasher = DefaultHasher::new();
        hasher.write(head);
        let seal = hasher.finish().to_be_bytes();
        let mut text = hasher;
        text.write(&seal);
        (Sealer { head: hasher, text }, seal)
    }

    /// A log that goes on behind a seal: of the header and that seal all is summed up, and nothing of a text behind them.
    pub fn behind(head: &[u8], seal: &[u8]) -> Sealer
        ensures { Seals result head.now seal.now [] }
    {
        let mut hasher = DefaultHasher::new();
        hasher.write(head);
        let mut text = hasher;
        text.write(seal);
        Sealer { head: hasher, text }
    }

    /// Takes a piece of a text.
    pub fn note(&mut self, piece: &[u8])
        ensures { (head before text : List ℕ) → Seals self.old head before text → Seals self.new head before (text ++ piece.now) }
    {
        self.text.write(piece);
    }

    /// The seal of the text, whose pieces were all taken. What is taken then is of the next text.
    pub fn seal(&mut self) -> [u8; SEAL_BYTES]
        ensures length { length result ≡ 8 }
        ensures seal { (head before text : List ℕ) → Seals self.old head before text → result ≡ text_seal head before text }
        ensures next { (head before text : List ℕ) → Seals self.old head before text → Seals self.new head (text_seal head before text) [] }
    {
        let seal = self.text.finish().to_be_bytes();
        self.text = self.head;
        self.text.write(&seal);
        seal
    }
}
