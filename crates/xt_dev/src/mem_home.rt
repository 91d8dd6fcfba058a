//! A home device in memory.

ghost use Rattle.std.specs.Prelude.{◌≡◌, ◌∷◌, [], None, Some, true, false, length, IsOk, IfSome, IsSomeAnd, OnOk, OnErr, is_ok, if◌then◌else◌};
ghost use Rattle.xt_base.specs.Form.{is_size};
ghost use Rattle.xt_base.specs.Maps.{put};
ghost use Rattle.xt_base.specs.declared.steps.HomeOffer.{HomeOffer};
ghost use Rattle.xt_dev.specs.Devices.{Tells, as_asked, failures_after, kept_at};
ghost use Rattle.xt_dev.specs.declared.call.HomeCall.{HomeCall};

use crate::call::HomeCall;
use crate::copies::{content_of, read_call, write_call};
use crate::failures::Failures;
use crate::fault::DevFault;
use crate::home::HomeDevice;
use crate::record::Record;
use std::alloc::Global;
use std::collections::BTreeMap;
use xt_base::content::Content;
use xt_base::names::Block;
use xt_base::steps::HomeOffer;

/// A home device in memory. It keeps what was written by block, with its length; it reads zeros
/// where nothing of the length that is asked was written. It fails a write that it can't keep
/// for want of memory, and nothing else. It tells what it was asked until a record
/// finds no memory; then it tells no more, and answers as before.
#[derive(Drop)]
pub struct MemHome {
    alloc: Global,
    /// What was written and kept, by block.
    pub blocks: BTreeMap<u64, Content>,
    kept: Record<HomeCall>,
    failures: Failures,
}

impl MemHome {
    /// A device to which nothing was written.
    pub fn new(alloc: Global) -> Self
        ensures blocks { result.blocks.entries ≡ [] }
        ensures tells { ⟦<MemHome as HomeDevice>⟧.home_tells result ≡ true }
        ensures taken { ⟦<MemHome as HomeDevice>⟧.home_taken result ≡ [] }
        ensures failures { ⟦<MemHome as HomeDevice>⟧.home_failures result ≡ 0 }
    {
        MemHome {
            alloc,
            blocks: BTreeMap::new(alloc),
            kept: Record::new(alloc),
            failures: Failures::none(),
        }
    }

    /// Its calls, in order; None where it tells no more.
    pub fn taken(&self) -> Option<&[HomeCall]>
        ensures told { ⟦<MemHome as HomeDevice>⟧.home_tells self.now ≡ true → IsSomeAnd result (λ calls. calls.now ≡ ⟦<MemHome as HomeDevice>⟧.home_taken self.now) }
        ensures silent { IfSome result (λ _. ⟦<MemHome as HomeDevice>⟧.home_tells self.now ≡ true) }
    {
        self.kept.told()
    }

    /// Gives what a block has: zeros where nothing was written, or something of another length. That is so where a slot is
    /// mounted again with blocks of another size, which are none of those that were written.
    fn give(&self, block: Block, into: &mut [u8])
        ensures { into.new ≡ kept_at (length into.old) block self.now.blocks.entries }
    {
        match self.blocks.get(&block.0) {
            Some(content) => copy_whole(content.bytes(), into),
            None => into.fill(0),
        }
    }

    /// Keeps the content of a block; false where there is no memory for it.
    fn keep(&mut self, block: Block, content: &[u8]) -> bool
        requires whole { is_size (Some (length content.now)) ≡ true }
        ensures kept { result ≡ true → self.new.blocks.entries ≡ put block content.now self.old.blocks.entries }
        ensures lost { result ≡ false → self.new.blocks.entries ≡ self.old.blocks.entries }
        ensures rest { (self.new.kept ≡ self.old.kept) × (self.new.failures ≡ self.old.failures) }
    {
        match content_of(self.alloc, content) {
            Some(content) => self.blocks.insert(block.0, content).is_ok(),
            None => false,
        }
    }
}

impl HomeDevice for MemHome {
    ghost home_tells = { λ d. d.kept.tells };

    ghost home_taken = { λ d. d.kept.calls.items };

    ghost home_failures = { λ d. d.failures.count };

    fn read(&mut self, block: Block, into: &mut [u8]) -> Result<(), DevFault>
        requires whole { is_size (Some (length into.old)) ≡ true }
        ensures told { Tells (⟦<MemHome as HomeDevice>⟧.home_tells self.old) (⟦<MemHome as HomeDevice>⟧.home_taken self.old) (HomeCall.Read block (if is_ok result then Some into.new else None) ∷ []) (⟦<MemHome as HomeDevice>⟧.home_tells self.new) (⟦<MemHome as HomeDevice>⟧.home_taken self.new) }
        ensures failures { ⟦<MemHome as HomeDevice>⟧.home_failures self.new ≡ failures_after (is_ok result) (⟦<MemHome as HomeDevice>⟧.home_failures self.old) }
        ensures ok { IsOk result }
        ensures content { into.new ≡ kept_at (length into.old) block self.old.blocks.entries }
        ensures same { self.new.blocks ≡ self.old.blocks }
    {
        self.give(block, into);
        let call = read_call(self.alloc, block, into);
        self.kept.note(call);
        Ok(())
    }

    fn write(&mut self, block: Block, content: &[u8]) -> Result<(), DevFault>
        requires whole { is_size (Some (length content.now)) ≡ true }
        ensures told { Tells (⟦<MemHome as HomeDevice>⟧.home_tells self.old) (⟦<MemHome as HomeDevice>⟧.home_taken self.old) (HomeCall.Offer (HomeOffer.Write block content.now (is_ok result)) ∷ []) (⟦<MemHome as HomeDevice>⟧.home_tells self.new) (⟦<MemHome as HomeDevice>⟧.home_taken self.new) }
        ensures failures { ⟦<MemHome as HomeDevice>⟧.home_failures self.new ≡ failures_after (is_ok result) (⟦<MemHome as HomeDevice>⟧.home_failures self.old) }
        ensures kept { OnOk result (self.new.blocks.entries ≡ put block content.now self.old.blocks.entries) }
        ensures lost { OnErr result (self.new.blocks.entries ≡ self.old.blocks.entries) }
    {
        let kept = self.keep(block, content);
        let call = write_call(self.alloc, block, content, kept);
        self.kept.note(call);
        if kept {
            Ok(())
        } else {
            self.failures = self.failures.one_more();
            Err(DevFault)
        }
    }

    fn sync(&mut self) -> Result<(), DevFault>
        ensures told { Tells (⟦<MemHome as HomeDevice>⟧.home_tells self.old) (⟦<MemHome as HomeDevice>⟧.home_taken self.old) (HomeCall.Offer (HomeOffer.Sync (is_ok result)) ∷ []) (⟦<MemHome as HomeDevice>⟧.home_tells self.new) (⟦<MemHome as HomeDevice>⟧.home_taken self.new) }
        ensures failures { ⟦<MemHome as HomeDevice>⟧.home_failures self.new ≡ failures_after (is_ok result) (⟦<MemHome as HomeDevice>⟧.home_failures self.old) }
        ensures ok { IsOk result }
        ensures same { self.new.blocks ≡ self.old.blocks }
    {
        self.kept
            .note(Some(HomeCall::Offer(HomeOffer::Sync { ok: true })));
        Ok(())
    }
}

/// Copies bytes where they are as many as are asked for; else gives zeros.
fn copy_whole(bytes: &[u8], into: &mut [u8])
    ensures { into.new ≡ as_asked (length into.old) bytes.now }
{
    if bytes.len() == into.len() {
        into.copy_from_slice(bytes);
    } else {
        into.fill(0);
    }
}
