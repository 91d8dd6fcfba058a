//! A checkpoint on its way to the log and back, in the hands of one worker and under no lock.

ghost use Rattle.std.specs.Prelude.{◌≡◌, ◌<◌, ◌≤◌, ◌^◌, All, length, true};
ghost use Rattle.xt_base.specs.Jobs.{fits_pieces, is_ckpt, is_ok};
ghost use Rattle.xt_base.specs.Text.{log_offers_of};
ghost use Rattle.xt_base.specs.declared.sizes.TheConstants.{PIECE_BYTES, TEXT_PIECES};
ghost use Rattle.xt_dev.specs.Devices.{Tells, failures_after};

use bytes::Bytes;
use xt_base::names::{JobName, Slot, Worker};
use xt_base::steps::LogAnswers;
use xt_dev::log::LogDevice;
use xt_dev::offer::offer;

/// A checkpoint that is begun: its name, who began it, the pieces of its text, and the log device of its mount. It must be run,
/// and what it becomes be ended, or the mount has no log again.
pub struct CkptJob {
    pub(crate) worker: Worker,
    pub(crate) name: JobName,
    pub(crate) pieces: Vec<Bytes>,
    pub(crate) log: Box<dyn LogDevice + Send>,
    ghost count: { length pieces.items ≤ TEXT_PIECES },
    ghost short: { All (λ piece. length piece ≤ PIECE_BYTES) pieces.items },
}

/// A checkpoint whose pieces were offered to the log device, with what it answered.
pub struct DoneJob {
    pub(crate) worker: Worker,
    pub(crate) name: JobName,
    pub(crate) pieces: Vec<Bytes>,
    pub(crate) log: Box<dyn LogDevice + Send>,
    pub(crate) answers: LogAnswers,
    ghost fits: { fits_pieces answers (length pieces.items) ≡ true },
}

impl CkptJob {
    /// Offers the pieces to the log device in order, up to the first failure, and one sync only if none failed. It cuts nothing of the log,
    /// and takes no memory and no lock.
    pub fn run(self) -> DoneJob
        requires kind { is_ckpt self.name.kind ≡ true }
        ensures worker { result.worker ≡ self.worker }
        ensures name { result.name ≡ self.name }
        ensures pieces { result.pieces ≡ self.pieces }
        ensures offered { Tells (log_tells self.log) (log_taken self.log) (log_offers_of result.answers self.pieces.items) (log_tells result.log) (log_taken result.log) }
        ensures failures { log_failures result.log ≡ failures_after (is_ok result.answers.sync) (log_failures self.log) }
        ensures cuts { log_cuts result.log ≡ log_cuts self.log }
    {
        let CkptJob {
            worker,
            name,
            pieces,
            mut log,
        } = self;
        let answers = offer(&mut *log, &pieces);
        DoneJob {
            worker,
            name,
            pieces,
            log,
            answers,
        }
    }
}

impl DoneJob {
    /// The slot that its checkpoint is of.
    pub fn slot(&self) -> Slot
        ensures { result ≡ self.now.name.slot }
    {
        self.name.slot
    }
}
