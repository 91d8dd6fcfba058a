//! Data, borrowed: of a request, or bytes that somebody else has.

ghost use Rattle.std.specs.Prelude.{◌≡◌, ◌++◌, ◌↔◌, ◌≤◌, length, replicate, IsSome, IfSome};
ghost use Rattle.xt_base.specs.declared.sizes.TheConstants.{DATA_BYTES};

use crate::sizes::DATA_BYTES;
use std::marker::Model;

/// Borrowed bytes of a change, at most 4,096: some, one byte so many times, and others. So data and a plain slice are written alike,
/// and neither is copied before. Clauses see the bytes.
#[derive(Debug, Drop)]
pub struct DataRef<'a> {
    head: &'a [u8],
    count: u16,
    byte: u8,
    tail: &'a [u8],
}

impl<'a> Model for DataRef<'a> {
    ghost use Rattle.std.specs.Prelude.{◌≤◌, ◌++◌, List, ℕ, length, replicate};
    ghost use Rattle.xt_base.specs.declared.sizes.TheConstants.{DATA_BYTES};

    ghost Value = { List ℕ };

    ghost view = { λ d. d.head.now ++ replicate d.count d.byte ++ d.tail.now };

    ghost invariant = { λ d. length (d.head.now ++ replicate d.count d.byte ++ d.tail.now) ≤ DATA_BYTES };
}

impl<'a> DataRef<'a> {
    /// These bytes, as they stand; None where they are more than 4,096.
    pub fn of(bytes: &'a [u8]) -> Option<Self>
        ensures valid { IsSome result ↔ (length bytes.now ≤ DATA_BYTES) }
        ensures value { IfSome result (λ lent. lent ≡ bytes.now) }
    {
        if bytes.len() > DATA_BYTES {
            return None;
        }
        Some(DataRef {
            head: bytes,
            count: 0,
            byte: 0,
            tail: &[],
        })
    }

    /// Some bytes, one byte so many times, and others: not more than 4,096 in all.
    pub(crate) fn around(head: &'a [u8], count: u16, byte: u8, tail: &'a [u8]) -> Self
        requires { length (head.now ++ replicate count byte ++ tail.now) ≤ DATA_BYTES }
        ensures { result ≡ head.now ++ replicate count byte ++ tail.now }
    {
        DataRef {
            head,
            count,
            byte,
            tail,
        }
    }

    /// How many bytes they are.
    pub fn len(&self) -> usize
        ensures value { result ≡ length self.now }
        ensures short { result ≤ DATA_BYTES }
    {
        self.head.len() + self.count as usize + self.tail.len()
    }

    /// Writes its bytes over as many others.
    pub fn copy_to(&self, room: &mut [u8])
        requires { length room.old ≡ length self.now }
        ensures { room.new ≡ self.now }
    {
        // bytes as they stand, which are most, are copied in one piece
        if self.count == 0 && self.tail.is_empty() {
            room.copy_from_slice(self.head);
            return;
        }
        let (front, rest) = room.split_at_mut(self.head.len());
        let (middle, back) = rest.split_at_mut(self.count as usize);
        front.copy_from_slice(self.head);
        middle.fill(self.byte);
        back.copy_from_slice(self.tail);
    }
}
