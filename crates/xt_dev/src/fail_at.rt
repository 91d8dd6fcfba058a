//! A device that fails once.

ghost use Rattle.std.specs.Prelude.{◌≡◌, ◌≢◌, ◌≤◌, ◌<◌, ◌-◌, ◌+◌, ◌==◌, ◌∷◌, [], None, Some, true, length, IfSome, IsSomeAnd, IsErr, is_ok, if◌then◌else◌};
ghost use Rattle.xt_base.specs.Form.{is_size};
ghost use Rattle.xt_base.specs.declared.steps.HomeOffer.{HomeOffer};
ghost use Rattle.xt_base.specs.declared.steps.LogOffer.{LogOffer};
ghost use Rattle.xt_dev.specs.Devices.{IsCut, Tells, failures_after};
ghost use Rattle.xt_dev.specs.declared.call.HomeCall.{HomeCall};

use crate::call::HomeCall;
use crate::copies::{piece_offer, read_call, write_call};
use crate::fault::DevFault;
use crate::home::HomeDevice;
use crate::log::LogDevice;
use crate::record::Record;
use std::alloc::Global;
use xt_base::names::Block;
use xt_base::sizes::PIECE_BYTES;
use xt_base::steps::{HomeOffer, LogOffer};

/// A device over another one, that fails one call and hands on every other. The call that it
/// fails is not handed on. It tells each call with its answer, the failed one among them, until
/// a record finds no memory. Over a log device `C` is `LogOffer`, over a home device `HomeCall`.
#[derive(Drop)]
pub struct FailAt<D, C> {
    pub device: D,
    /// The calls up to the one that fails, that one among them; 0 after it.
    pub left: u64,
    alloc: Global,
    kept: Record<C>,
}

impl<D, C: Drop> FailAt<D, C> {
    fn new(alloc: Global, device: D, at: u64) -> Self
        ensures device { result.device ≡ device }
        ensures left { result.left ≡ at }
        ensures kept { (result.kept.tells ≡ true) × (result.kept.calls.items ≡ []) }
    {
        FailAt {
            device,
            left: at,
            alloc,
            kept: Record::new(alloc),
        }
    }

    /// Counts a call, and says whether it is the one that fails.
    fn is_due(&mut self) -> bool
        ensures due { result ≡ (self.old.left == 1) }
        ensures left { self.new.left ≡ self.old.left - 1 }
        ensures rest { (self.new.device ≡ self.old.device) × (self.new.kept ≡ self.old.kept) }
    {
        let due = self.left == 1;
        self.left = self.left.saturating_sub(1);
        due
    }
}

impl<D: LogDevice> FailAt<D, LogOffer> {
    /// A log device that fails the call `at`, counted from 1.
    pub fn over_log(alloc: Global, device: D, at: u64) -> Self
        requires { 0 < at }
        ensures device { result.device ≡ device }
        ensures left { result.left ≡ at }
        ensures tells { ⟦<FailAt<D, LogOffer> as LogDevice>⟧.log_tells result ≡ true }
        ensures taken { ⟦<FailAt<D, LogOffer> as LogDevice>⟧.log_taken result ≡ [] }
        ensures failures { ⟦<FailAt<D, LogOffer> as LogDevice>⟧.log_failures result ≡ D.log_failures device }
        ensures loses { ⟦<FailAt<D, LogOffer> as LogDevice>⟧.log_loses result ≡ D.log_loses device }
    {
        FailAt::new(alloc, device, at)
    }

    /// Its calls, in order; None where it tells no more.
    pub fn taken(&self) -> Option<&[LogOffer]>
        ensures told { ⟦<FailAt<D, LogOffer> as LogDevice>⟧.log_tells self.now ≡ true → IsSomeAnd result (λ offers. offers.now ≡ ⟦<FailAt<D, LogOffer> as LogDevice>⟧.log_taken self.now) }
        ensures silent { IfSome result (λ _. ⟦<FailAt<D, LogOffer> as LogDevice>⟧.log_tells self.now ≡ true) }
    {
        self.kept.told()
    }
}

impl<D: HomeDevice> FailAt<D, HomeCall> {
    /// A home device that fails the call `at`, counted from 1.
    pub fn over_home(alloc: Global, device: D, at: u64) -> Self
        requires { 0 < at }
        ensures device { result.device ≡ device }
        ensures left { result.left ≡ at }
        ensures tells { ⟦<FailAt<D, HomeCall> as HomeDevice>⟧.home_tells result ≡ true }
        ensures taken { ⟦<FailAt<D, HomeCall> as HomeDevice>⟧.home_taken result ≡ [] }
        ensures failures { ⟦<FailAt<D, HomeCall> as HomeDevice>⟧.home_failures result ≡ D.home_failures device }
    {
        FailAt::new(alloc, device, at)
    }

    /// Its calls, in order; None where it tells no more.
    pub fn taken(&self) -> Option<&[HomeCall]>
        ensures told { ⟦<FailAt<D, HomeCall> as HomeDevice>⟧.home_tells self.now ≡ true → IsSomeAnd result (λ calls. calls.now ≡ ⟦<FailAt<D, HomeCall> as HomeDevice>⟧.home_taken self.now) }
        ensures silent { IfSome result (λ _. ⟦<FailAt<D, HomeCall> as HomeDevice>⟧.home_tells self.now ≡ true) }
    {
        self.kept.told()
    }
}

impl<D: LogDevice> LogDevice for FailAt<D, LogOffer> {
    ghost log_tells = { λ d. d.kept.tells };

    ghost log_taken = { λ d. d.kept.calls.items };

    ghost log_failures = { λ d. D.log_failures d.device + (if d.left == 0 then 1 else 0) };

    ghost log_loses = { λ d. D.log_loses d.device };

    fn append(&mut self, piece: &[u8]) -> Result<(), DevFault>
        requires short { length piece.now ≤ PIECE_BYTES }
        ensures told { Tells (⟦<FailAt<D, LogOffer> as LogDevice>⟧.log_tells self.old) (⟦<FailAt<D, LogOffer> as LogDevice>⟧.log_taken self.old) (LogOffer.Piece piece.now (is_ok result) ∷ []) (⟦<FailAt<D, LogOffer> as LogDevice>⟧.log_tells self.new) (⟦<FailAt<D, LogOffer> as LogDevice>⟧.log_taken self.new) }
        ensures failures { ⟦<FailAt<D, LogOffer> as LogDevice>⟧.log_failures self.new ≡ failures_after (is_ok result) (⟦<FailAt<D, LogOffer> as LogDevice>⟧.log_failures self.old) }
        ensures loses { ⟦<FailAt<D, LogOffer> as LogDevice>⟧.log_loses self.new ≡ ⟦<FailAt<D, LogOffer> as LogDevice>⟧.log_loses self.old }
        ensures left { self.new.left ≡ self.old.left - 1 }
        ensures fails { self.old.left ≡ 1 → IsErr result }
        ensures kept_back { self.old.left ≡ 1 → self.new.device ≡ self.old.device }
        ensures handed_on { self.old.left ≢ 1 → Tells (D.log_tells self.old.device) (D.log_taken self.old.device) (LogOffer.Piece piece.now (is_ok result) ∷ []) (D.log_tells self.new.device) (D.log_taken self.new.device) }
        ensures answered { self.old.left ≢ 1 → D.log_failures self.new.device ≡ failures_after (is_ok result) (D.log_failures self.old.device) }
    {
        let answer = if self.is_due() {
            Err(DevFault)
        } else {
            self.device.append(piece)
        };
        let call = piece_offer(self.alloc, piece, answer.is_ok());
        self.kept.note(call);
        answer
    }

    fn sync(&mut self) -> Result<(), DevFault>
        ensures told { Tells (⟦<FailAt<D, LogOffer> as LogDevice>⟧.log_tells self.old) (⟦<FailAt<D, LogOffer> as LogDevice>⟧.log_taken self.old) (LogOffer.Sync (is_ok result) ∷ []) (⟦<FailAt<D, LogOffer> as LogDevice>⟧.log_tells self.new) (⟦<FailAt<D, LogOffer> as LogDevice>⟧.log_taken self.new) }
        ensures failures { ⟦<FailAt<D, LogOffer> as LogDevice>⟧.log_failures self.new ≡ failures_after (is_ok result) (⟦<FailAt<D, LogOffer> as LogDevice>⟧.log_failures self.old) }
        ensures loses { ⟦<FailAt<D, LogOffer> as LogDevice>⟧.log_loses self.new ≡ ⟦<FailAt<D, LogOffer> as LogDevice>⟧.log_loses self.old }
        ensures left { self.new.left ≡ self.old.left - 1 }
        ensures fails { self.old.left ≡ 1 → IsErr result }
        ensures kept_back { self.old.left ≡ 1 → self.new.device ≡ self.old.device }
        ensures handed_on { self.old.left ≢ 1 → Tells (D.log_tells self.old.device) (D.log_taken self.old.device) (LogOffer.Sync (is_ok result) ∷ []) (D.log_tells self.new.device) (D.log_taken self.new.device) }
        ensures answered { self.old.left ≢ 1 → D.log_failures self.new.device ≡ failures_after (is_ok result) (D.log_failures self.old.device) }
    {
        let answer = if self.is_due() {
            Err(DevFault)
        } else {
            self.device.sync()
        };
        let ok = answer.is_ok();
        self.kept.note(Some(LogOffer::Sync { ok }));
        answer
    }

    /// It is handed on, and counts as no call.
    fn make_room(&mut self, bytes: u64)
        ensures tells { ⟦<FailAt<D, LogOffer> as LogDevice>⟧.log_tells self.new ≡ ⟦<FailAt<D, LogOffer> as LogDevice>⟧.log_tells self.old }
        ensures taken { ⟦<FailAt<D, LogOffer> as LogDevice>⟧.log_taken self.new ≡ ⟦<FailAt<D, LogOffer> as LogDevice>⟧.log_taken self.old }
        ensures failures { ⟦<FailAt<D, LogOffer> as LogDevice>⟧.log_failures self.new ≡ ⟦<FailAt<D, LogOffer> as LogDevice>⟧.log_failures self.old }
        ensures cuts { ⟦<FailAt<D, LogOffer> as LogDevice>⟧.log_cuts self.new ≡ ⟦<FailAt<D, LogOffer> as LogDevice>⟧.log_cuts self.old }
        ensures loses { ⟦<FailAt<D, LogOffer> as LogDevice>⟧.log_loses self.new ≡ ⟦<FailAt<D, LogOffer> as LogDevice>⟧.log_loses self.old }
        ensures left { self.new.left ≡ self.old.left }
    {
        self.device.make_room(bytes);
    }

    /// It is handed on, and counts as no call.
    fn cut(&mut self, size: u32)
        ensures tells { ⟦<FailAt<D, LogOffer> as LogDevice>⟧.log_tells self.new ≡ ⟦<FailAt<D, LogOffer> as LogDevice>⟧.log_tells self.old }
        ensures taken { ⟦<FailAt<D, LogOffer> as LogDevice>⟧.log_taken self.new ≡ ⟦<FailAt<D, LogOffer> as LogDevice>⟧.log_taken self.old }
        ensures failures { ⟦<FailAt<D, LogOffer> as LogDevice>⟧.log_failures self.new ≡ ⟦<FailAt<D, LogOffer> as LogDevice>⟧.log_failures self.old }
        ensures cuts { IsCut size (⟦<FailAt<D, LogOffer> as LogDevice>⟧.log_taken self.old) (⟦<FailAt<D, LogOffer> as LogDevice>⟧.log_cuts self.old) (⟦<FailAt<D, LogOffer> as LogDevice>⟧.log_cuts self.new) }
        ensures loses { ⟦<FailAt<D, LogOffer> as LogDevice>⟧.log_loses self.new ≡ ⟦<FailAt<D, LogOffer> as LogDevice>⟧.log_loses self.old }
        ensures left { self.new.left ≡ self.old.left }
        ensures handed_on { IsCut size (D.log_taken self.old.device) (D.log_cuts self.old.device) (D.log_cuts self.new.device) }
    {
        self.device.cut(size);
    }
}

impl<D: HomeDevice> HomeDevice for FailAt<D, HomeCall> {
    ghost home_tells = { λ d. d.kept.tells };

    ghost home_taken = { λ d. d.kept.calls.items };

    ghost home_failures = { λ d. D.home_failures d.device + (if d.left == 0 then 1 else 0) };

    fn read(&mut self, block: Block, into: &mut [u8]) -> Result<(), DevFault>
        requires whole { is_size (Some (length into.old)) ≡ true }
        ensures told { Tells (⟦<FailAt<D, HomeCall> as HomeDevice>⟧.home_tells self.old) (⟦<FailAt<D, HomeCall> as HomeDevice>⟧.home_taken self.old) (HomeCall.Read block (if is_ok result then Some into.new else None) ∷ []) (⟦<FailAt<D, HomeCall> as HomeDevice>⟧.home_tells self.new) (⟦<FailAt<D, HomeCall> as HomeDevice>⟧.home_taken self.new) }
        ensures failures { ⟦<FailAt<D, HomeCall> as HomeDevice>⟧.home_failures self.new ≡ failures_after (is_ok result) (⟦<FailAt<D, HomeCall> as HomeDevice>⟧.home_failures self.old) }
        ensures left { self.new.left ≡ self.old.left - 1 }
        ensures fails { self.old.left ≡ 1 → IsErr result }
        ensures kept_back { self.old.left ≡ 1 → self.new.device ≡ self.old.device }
        ensures handed_on { self.old.left ≢ 1 → Tells (D.home_tells self.old.device) (D.home_taken self.old.device) (HomeCall.Read block (if is_ok result then Some into.new else None) ∷ []) (D.home_tells self.new.device) (D.home_taken self.new.device) }
        ensures answered { self.old.left ≢ 1 → D.home_failures self.new.device ≡ failures_after (is_ok result) (D.home_failures self.old.device) }
    {
        let answer = if self.is_due() {
            Err(DevFault)
        } else {
            self.device.read(block, into)
        };
        let call = match answer {
            Ok(()) => read_call(self.alloc, block, into),
            Err(DevFault) => Some(HomeCall::Read {
                block,
                content: None,
            }),
        };
        self.kept.note(call);
        answer
    }

    fn write(&mut self, block: Block, content: &[u8]) -> Result<(), DevFault>
        requires whole { is_size (Some (length content.now)) ≡ true }
        ensures told { Tells (⟦<FailAt<D, HomeCall> as HomeDevice>⟧.home_tells self.old) (⟦<FailAt<D, HomeCall> as HomeDevice>⟧.home_taken self.old) (HomeCall.Offer (HomeOffer.Write block content.now (is_ok result)) ∷ []) (⟦<FailAt<D, HomeCall> as HomeDevice>⟧.home_tells self.new) (⟦<FailAt<D, HomeCall> as HomeDevice>⟧.home_taken self.new) }
        ensures failures { ⟦<FailAt<D, HomeCall> as HomeDevice>⟧.home_failures self.new ≡ failures_after (is_ok result) (⟦<FailAt<D, HomeCall> as HomeDevice>⟧.home_failures self.old) }
        ensures left { self.new.left ≡ self.old.left - 1 }
        ensures fails { self.old.left ≡ 1 → IsErr result }
        ensures kept_back { self.old.left ≡ 1 → self.new.device ≡ self.old.device }
        ensures handed_on { self.old.left ≢ 1 → Tells (D.home_tells self.old.device) (D.home_taken self.old.device) (HomeCall.Offer (HomeOffer.Write block content.now (is_ok result)) ∷ []) (D.home_tells self.new.device) (D.home_taken self.new.device) }
        ensures answered { self.old.left ≢ 1 → D.home_failures self.new.device ≡ failures_after (is_ok result) (D.home_failures self.old.device) }
    {
        let answer = if self.is_due() {
            Err(DevFault)
        } else {
            self.device.write(block, content)
        };
        let call = write_call(self.alloc, block, content, answer.is_ok());
        self.kept.note(call);
        answer
    }

    fn sync(&mut self) -> Result<(), DevFault>
        ensures told { Tells (⟦<FailAt<D, HomeCall> as HomeDevice>⟧.home_tells self.old) (⟦<FailAt<D, HomeCall> as HomeDevice>⟧.home_taken self.old) (HomeCall.Offer (HomeOffer.Sync (is_ok result)) ∷ []) (⟦<FailAt<D, HomeCall> as HomeDevice>⟧.home_tells self.new) (⟦<FailAt<D, HomeCall> as HomeDevice>⟧.home_taken self.new) }
        ensures failures { ⟦<FailAt<D, HomeCall> as HomeDevice>⟧.home_failures self.new ≡ failures_after (is_ok result) (⟦<FailAt<D, HomeCall> as HomeDevice>⟧.home_failures self.old) }
        ensures left { self.new.left ≡ self.old.left - 1 }
        ensures fails { self.old.left ≡ 1 → IsErr result }
        ensures kept_back { self.old.left ≡ 1 → self.new.device ≡ self.old.device }
        ensures handed_on { self.old.left ≢ 1 → Tells (D.home_tells self.old.device) (D.home_taken self.old.device) (HomeCall.Offer (HomeOffer.Sync (is_ok result)) ∷ []) (D.home_tells self.new.device) (D.home_taken self.new.device) }
        ensures answered { self.old.left ≢ 1 → D.home_failures self.new.device ≡ failures_after (is_ok result) (D.home_failures self.old.device) }
    {
        let answer = if self.is_due() {
            Err(DevFault)
        } else {
            self.device.sync()
        };
        let ok = answer.is_ok();
        self.kept
            .note(Some(HomeCall::Offer(HomeOffer::Sync { ok })));
        answer
    }
}
