//! A buffer of fixed room that text is put into.

ghost use Rattle.std.specs.Prelude.{◌≡◌, ◌≢◌, ◌↔◌, ◌∷◌, ◌+◌, ◌++◌, ◌≤◌, Some, None, [], IfOk, IsTrue, length, vec_capacity, vec_len};
ghost use Rattle.xt_text.specs.Buffer.{put};

use std::alloc::{AllocError, Global};
use std::marker::Model;

/// The room of a `Text` in bytes: any reply and any offer fits.
pub const TEXT_BYTES: usize = 8448;

/// The most bytes that are put one by one.
const FEW: usize = 8;

/// Text of at most 8,448 bytes, or full: once a text did not fit, all further ones are left out until it is cleared.
/// Its room is made when it is made, so nothing that is put into it can fail for memory.
#[derive(Debug, Drop)]
pub struct Text {
    bytes: Vec<u8>,
    full: bool,
}

impl Model for Text {
    ghost use Rattle.std.specs.Prelude.{◌≤◌, List, None, Option, Some, if◌then◌else◌, length, vec_capacity, ℕ};

    ghost Value = { Option (List ℕ) };

    ghost view = { λ t. if t.full then None else Some t.bytes.items };

    ghost invariant = { λ t. (length t.bytes.items ≤ 8448) × (8448 ≤ vec_capacity t.bytes) };
}

impl Text {
    /// An empty one. The one error is want of memory.
    pub fn new(alloc: Global) -> Result<Self, AllocError>
        ensures { IfOk result (λ text. text ≡ Some []) }
    {
        let bytes = Vec::with_capacity(alloc, TEXT_BYTES)?;
        Ok(Text { bytes, full: false })
    }

    /// Empties it.
    pub fn clear(&mut self)
        ensures { self.new ≡ Some [] }
    {
        self.bytes.clear();
        self.full = false;
    }

    /// Puts a text behind what it holds, or is full where that does not fit.
    pub fn put(&mut self, more: &[u8])
        ensures { self.new ≡ put self.old more.now }
    {
        if self.full {
            return;
        }
        if more.len() <= TEXT_BYTES - self.bytes.len() {
            append(&mut self.bytes, more);
        } else {
            self.full = true;
        }
    }

    /// Puts a byte behind what it holds, or is full where that does not fit.
    pub fn push(&mut self, byte: u8)
        ensures { self.new ≡ put self.old (byte ∷ []) }
    {
        if self.full {
            return;
        }
        if self.bytes.len() < TEXT_BYTES {
            self.bytes.push_reserved(byte);
        } else {
            self.full = true;
        }
    }

    /// Puts two bytes behind what it holds, or is full where they do not fit.
    pub(crate) fn push_both(&mut self, first: u8, second: u8)
        ensures { self.new ≡ put self.old (first ∷ second ∷ []) }
    {
        if self.full {
            return;
        }
        if self.bytes.len() <= TEXT_BYTES - 2 {
            self.bytes.push_reserved(first);
            self.bytes.push_reserved(second);
        } else {
            self.full = true;
        }
    }

    /// Whether a text did not fit.
    pub fn is_full(&self) -> bool
        ensures { IsTrue result ↔ (self.now ≡ None) }
    {
        self.full
    }

    /// Whether it holds just this text.
    pub fn holds(&self, text: &[u8]) -> bool
        ensures { IsTrue result ↔ (self.now ≡ Some text.now) }
    {
        !self.full && self.bytes.as_slice() == text
    }

    /// What it holds; where it is full, something else.
    pub fn bytes(&self) -> &[u8]
        ensures { self.now ≢ None → self.now ≡ Some result.now }
    {
        &self.bytes
    }
}

/// Puts bytes behind others that have room for them: a few one by one, since that costs no call.
fn append(bytes: &mut Vec<u8>, more: &[u8])
    requires room { vec_len bytes.old + length more.now ≤ vec_capacity bytes.old }
    ensures items { bytes.new.items ≡ bytes.old.items ++ more.now }
    ensures room { vec_capacity bytes.old ≤ vec_capacity bytes.new }
{
    if more.len() <= FEW {
        append_few(bytes, more);
    } else {
        append_many(bytes, more);
    }
}

/// Puts bytes at once behind others that have room for them. It stands apart, so that a few bytes are put with no frame of a call.
#[inline(never)]
fn append_many(bytes: &mut Vec<u8>, more: &[u8])
    requires room { vec_len bytes.old + length more.now ≤ vec_capacity bytes.old }
    ensures items { bytes.new.items ≡ bytes.old.items ++ more.now }
    ensures room { vec_capacity bytes.old ≤ vec_capacity bytes.new }
{
    bytes.extend_from_slice(more).unwrap();
}

/// Puts bytes one by one behind others that have room for them.
fn append_few(bytes: &mut Vec<u8>, more: &[u8])
    requires room { vec_len bytes.old + length more.now ≤ vec_capacity bytes.old }
    ensures items { bytes.new.items ≡ bytes.old.items ++ more.now }
    ensures room { vec_capacity bytes.new ≡ vec_capacity bytes.old }
{
    for byte in more {
        bytes.push_reserved(*byte);
    }
}
