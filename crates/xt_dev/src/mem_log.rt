//! A log device in memory.

ghost use Rattle.std.specs.Prelude.{◌≡◌, [], true, IfSome, IsSomeAnd};

use crate::copies::piece_offer;
use crate::cut::LogCut;
use crate::fault::DevFault;
use crate::log::LogDevice;
use crate::record::Record;
use std::alloc::Global;
use xt_base::steps::LogOffer;

/// A log in memory. It never fails, and tells what it was offered until a record finds no
/// memory; then it tells no more, and answers as before. A cut leaves what it has, and is told too; one for which there is no
/// memory is left undone.
#[derive(Drop)]
pub struct MemLog {
    alloc: Global,
    kept: Record<LogOffer>,
    cuts: Vec<LogCut>,
}

impl MemLog {
    /// A log to which nothing was offered.
    pub fn new(alloc: Global) -> Self
        ensures tells { ⟦<MemLog as LogDevice>⟧.log_tells result ≡ true }
        ensures taken { ⟦<MemLog as LogDevice>⟧.log_taken result ≡ [] }
        ensures failures { ⟦<MemLog as LogDevice>⟧.log_failures result ≡ 0 }
        ensures cuts { ⟦<MemLog as LogDevice>⟧.log_cuts result ≡ [] }
    {
        MemLog {
            alloc,
            kept: Record::new(alloc),
            cuts: Vec::new(alloc),
        }
    }

    /// What it was offered, in order; None where it tells no more.
    pub fn taken(&self) -> Option<&[LogOffer]>
        ensures told { ⟦<MemLog as LogDevice>⟧.log_tells self.now ≡ true → IsSomeAnd result (λ offers. offers.now ≡ ⟦<MemLog as LogDevice>⟧.log_taken self.now) }
        ensures silent { IfSome result (λ _. ⟦<MemLog as LogDevice>⟧.log_tells self.now ≡ true) }
    {
        self.kept.told()
    }

    /// The cuts that it made, in order.
    pub fn cuts(&self) -> &[LogCut]
        ensures { result.now ≡ ⟦<MemLog as LogDevice>⟧.log_cuts self.now }
    {
        &self.cuts
    }
}

impl LogDevice for MemLog {
    ghost log_tells = { λ d. d.kept.tells };

    ghost log_taken = { λ d. d.kept.calls.items };

    ghost log_failures = { λ _. 0 };

    ghost log_cuts = { λ d. d.cuts.items };

    fn append(&mut self, piece: &[u8]) -> Result<(), DevFault> {
        let call = piece_offer(self.alloc, piece, true);
        self.kept.note(call);
        Ok(())
    }

    fn sync(&mut self) -> Result<(), DevFault> {
        self.kept.note(Some(LogOffer::Sync { ok: true }));
        Ok(())
    }

    fn cut(&mut self, size: u32) {
        let behind = self.kept.calls.len();
        let _told = self.cuts.push(LogCut { size, behind });
    }
}
