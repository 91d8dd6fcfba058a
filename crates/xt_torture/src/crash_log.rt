//! A log device that crashes.

use std::alloc::{AllocError, Global};
use std::collections::VecDeque;
use std::mem;
use xt_base::content::Data;
use xt_base::sizes::DATA_BYTES;
use xt_base::steps::LogOffer;
use xt_trials::dice::Dice;

/// More bytes than a text has.
const MOST_END: usize = 1 << 20;

/// A log in memory. It keeps the texts that were made safe, but for old ones that it lost, and what was appended since, of which a
/// crash leaves a beginning.
#[derive(Drop)]
pub struct CrashLog {
    alloc: Global,
    safe: VecDeque<Vec<u8>>,
    end: Vec<u8>,
    /// How many pieces of the text in flight there are, and how many of them were offered.
    pieces: u32,
    offered: u32,
}

/// What a crash leaves of the end of a log.
#[derive(Clone, Copy)]
pub struct Left {
    /// So many bytes.
    pub bytes: usize,
    /// They are a whole text.
    pub is_whole: bool,
}

impl Left {
    /// How many bytes stand behind the last whole text.
    pub fn rest(self) -> u64 {
        if self.is_whole { 0 } else { self.bytes as u64 }
    }
}

impl CrashLog {
    /// An empty log.
    pub fn new(alloc: Global) -> Self {
        CrashLog {
            alloc,
            safe: VecDeque::new(alloc),
            end: Vec::new(alloc),
            pieces: 0,
            offered: 0,
        }
    }

    /// A text of so many pieces is in flight.
    pub fn begin(&mut self, pieces: u32) {
        self.pieces = pieces;
        self.offered = 0;
    }

    /// Appends a piece. Of one that failed some may be there all the same.
    fn append(&mut self, piece: &Data) -> Result<(), AllocError> {
        let mut room = [0; DATA_BYTES];
        let bytes = &mut room[..piece.len()];
        piece.copy_to(bytes);
        self.end.extend_from_slice(bytes)?;
        self.offered = self.offered.saturating_add(1);
        Ok(())
    }

    /// Takes the pieces among these offers.
    pub fn append_all(&mut self, offers: &[LogOffer]) -> Result<(), AllocError> {
        for offer in offers {
            if let LogOffer::Piece { bytes, .. } = offer {
                self.append(bytes)?;
            }
        }
        Ok(())
    }

    /// Makes all safe, where a sync among these offers was answered Ok.
    pub fn sync_all(&mut self, offers: &[LogOffer]) -> Result<(), AllocError> {
        if let Some(LogOffer::Sync { ok: true }) = offers.last() {
            let text = mem::replace(&mut self.end, Vec::new(self.alloc));
            self.safe.push_back(text)?;
        }
        Ok(())
    }

    /// How many bytes the safe texts have.
    fn safe_bytes(&self) -> usize {
        let mut bytes = 0usize;
        for text in &self.safe {
            bytes = bytes.saturating_add(text.len());
        }
        bytes
    }

    /// Whether no safe text is left.
    pub fn is_empty(&self) -> bool {
        self.safe.is_empty()
    }

    /// Loses its oldest texts, until the others have no more than so many bytes. Whether it lost one.
    pub fn cut(&mut self, most: usize) -> bool {
        let before = self.safe.len();
        for _ in 0..before {
            if self.safe_bytes() <= most {
                break;
            }
            let _lost = self.safe.pop_front();
        }
        self.safe.len() < before
    }

    /// How much of the end a crash leaves: often all, or all but some bytes.
    pub fn any_left(&self, dice: &mut Dice) -> Left {
        let most = self.end.len().min(MOST_END) as u32;
        let bytes = match dice.below(4) {
            0 => most,
            1 => most.saturating_sub(dice.below(20)),
            _ => dice.below(most + 1),
        };
        Left {
            bytes: bytes as usize,
            is_whole: bytes > 0 && bytes == most && self.offered == self.pieces,
        }
    }

    /// The bytes that a crash leaves.
    pub fn crashed(&self, left: Left) -> Result<Vec<u8>, AllocError> {
        let mut bytes = Vec::new(self.alloc);
        for text in &self.safe {
            bytes.extend_from_slice(text)?;
        }
        if let Some(end) = self.end.get(..left.bytes) {
            bytes.extend_from_slice(end)?;
        }
        Ok(bytes)
    }
}
