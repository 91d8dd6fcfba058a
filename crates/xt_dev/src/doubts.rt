//! Which sectors of a home device may be read: not those that were written before a sync that failed.

ghost use Rattle.std.proofs.Props.{props};
ghost use Rattle.std.specs.Bool.{IsTrue};
ghost use Rattle.std.specs.List.{IsDistinct};
ghost use Rattle.std.specs.Prelude.{◌≡◌, ◌≤◌, ◌+◌, ◌++◌, ◌||◌, ◌↔◌, [], OnErr, OnOk, filter, length, nat_eq, not, ℕ};
ghost use Rattle.std.specs.Set.{distinct_count};
ghost use Rattle.std.specs.Vec.{vec_capacity, vec_len};
ghost use Rattle.xt_dev.specs.Doubting.{HasAmong, is_among, sectors_from};

use crate::sectors::Sectors;
use std::alloc::{AllocError, Global};

/// What was written since the last sync, and what is in doubt: it was written before a sync that failed, and not written and synced
/// since. A file may show such bytes as they were written, where no crash would keep them. They are noted by sector, so that blocks
/// of one size are seen to lie over those of another: a device may be mounted again with blocks of another size. A sector that is in
/// doubt is noted once, however many syncs fail.
#[derive(Drop)]
pub(crate) struct Doubts {
    written: Vec<u64>,
    doubtful: Vec<u64>,
    ghost room: { vec_len doubtful + vec_len written ≤ vec_capacity doubtful },
    ghost once: { IsDistinct nat_eq doubtful.items } by { Prim.hlevel props },
}

impl Doubts {
    /// Of a device that nothing was written to.
    pub(crate) fn none(alloc: Global) -> Self
        ensures written { result.written.items ≡ [] }
        ensures doubtful { result.doubtful.items ≡ [] }
    {
        Doubts {
            written: Vec::new(alloc),
            doubtful: Vec::new(alloc),
        }
    }

    /// How many sectors are in doubt, each counted once.
    pub(crate) fn count(&self) -> usize
        ensures { result ≡ distinct_count nat_eq self.now.doubtful.items }
    {
        self.doubtful.len()
    }

    /// Whether one of these sectors is in doubt.
    pub(crate) fn has(&self, sectors: Sectors) -> bool
        ensures { IsTrue result ↔ HasAmong self.now.doubtful.items sectors.first sectors.count }
    {
        for k in 0..sectors.count {
            if self.has_one(sectors.first + k as u64) {
                return true;
            }
        }
        false
    }

    /// Whether a sector is in doubt.
    fn has_one(&self, sector: u64) -> bool
        ensures { result ≡ is_among self.now.doubtful.items sector }
    {
        is_in(&self.doubtful, sector)
    }

    /// Notes that sectors will be written. Where memory is refused nothing is noted, and they must not be written.
    pub(crate) fn note(&mut self, sectors: Sectors) -> Result<(), AllocError>
        ensures written { OnOk result (self.new.written.items ≡ self.old.written.items ++ sectors_from sectors.first sectors.count) }
        ensures refused { OnErr result (self.new.written.items ≡ self.old.written.items) }
        ensures doubtful { self.new.doubtful.items ≡ self.old.doubtful.items }
    {
        let Doubts { written, doubtful } = self;
        written.reserve(sectors.count)?;
        doubtful.reserve(written.len() + sectors.count)?;
        push_all(written, sectors);
        Ok(())
    }

    /// Notes that a sync was good: what was written is in doubt no more.
    pub(crate) fn synced(&mut self)
        ensures doubtful { self.new.doubtful.items ≡ filter (λ s. not (is_among self.old.written.items s)) self.old.doubtful.items }
        ensures written { self.new.written.items ≡ [] }
    {
        let Doubts { written, doubtful } = self;
        doubtful.retain(|sector| !written.contains(sector));
        written.clear();
    }

    /// Notes that a sync failed: what was written is in doubt too. It takes no memory.
    pub(crate) fn not_synced(&mut self)
        ensures doubtful { (s : ℕ) → is_among self.new.doubtful.items s ≡ (is_among self.old.doubtful.items s || is_among self.old.written.items s) }
        ensures written { self.new.written.items ≡ [] }
    {
        let Doubts { written, doubtful } = self;
        join(doubtful, written);
        written.clear();
    }
}

/// Whether a sector is one of these.
fn is_in(sectors: &[u64], sector: u64) -> bool
    ensures { result ≡ is_among sectors.now sector }
{
    sectors.contains(&sector)
}

/// Puts sectors behind others, each that is not there yet; for all of them there is room.
fn join(doubtful: &mut Vec<u64>, sectors: &[u64])
    requires room { vec_len doubtful.old + length sectors.now ≤ vec_capacity doubtful.old }
    requires once { IsDistinct nat_eq doubtful.old.items }
    ensures once { IsDistinct nat_eq doubtful.new.items }
    ensures joined { (s : ℕ) → is_among doubtful.new.items s ≡ (is_among doubtful.old.items s || is_among sectors.now s) }
    ensures room { vec_len doubtful.new ≤ vec_capacity doubtful.new }
{
    for sector in sectors {
        if !is_in(doubtful, *sector) {
            doubtful.push_reserved(*sector);
        }
    }
}

/// Puts sectors behind others, for which there is room.
fn push_all(written: &mut Vec<u64>, sectors: Sectors)
    requires room { vec_len written.old + sectors.count ≤ vec_capacity written.old }
    ensures items { written.new.items ≡ written.old.items ++ sectors_from sectors.first sectors.count }
    ensures len { vec_len written.new ≡ vec_len written.old + sectors.count }
{
    for k in 0..sectors.count {
        written.push_reserved(sectors.first + k as u64);
    }
}
