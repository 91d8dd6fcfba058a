//! Devices whose calls can be read while a host has them.

ghost use Rattle.std.specs.Prelude.{[], false};

use std::alloc::{AllocError, Global};
use std::sync::Arc;
use std::sync::atomic::{AtomicU8, AtomicUsize, Ordering};
use xt_base::content::Data;
use xt_base::names::Block;
use xt_base::sizes::DATA_BYTES;
use xt_base::steps::{HomeOffer, LogOffer};
use xt_dev::fault::DevFault;
use xt_dev::home::HomeDevice;
use xt_dev::log::LogDevice;
use xt_dev::mem_home::MemHome;

/// How many bytes a tape takes.
const TAPE_BYTES: usize = 0x4_0000;

/// What was offered to a device, spelled out as bytes. One device writes on it; whoever shares it reads it when that is done.
#[derive(Drop)]
pub struct Tape {
    cells: Vec<AtomicU8>,
    used: AtomicUsize,
}

/// The kinds of offers, as a tape has them.
const PIECE: u8 = 1;

const LOG_SYNC: u8 = 2;

const BLOCK: u8 = 3;

const HOME_SYNC: u8 = 4;

impl Tape {
    /// A blank one.
    pub fn new(alloc: Global) -> Result<Self, AllocError> {
        let mut cells = Vec::with_capacity(alloc, TAPE_BYTES)?;
        for _ in 0..TAPE_BYTES {
            cells.push(AtomicU8::new(0))?;
        }
        Ok(Tape {
            cells,
            used: AtomicUsize::new(0),
        })
    }

    /// How many bytes were written; more than there are cells, where the tape was too short.
    pub fn used(&self) -> usize {
        self.used.load(Ordering::SeqCst)
    }

    /// Whether two tapes are written alike, and neither was too short.
    pub fn is_like(&self, other: &Tape) -> bool {
        let used = self.used();
        if used != other.used() || used > self.cells.len() || used > other.cells.len() {
            return false;
        }
        let both = self.cells.iter().zip(&other.cells).take(used);
        for (one, two) in both {
            if one.load(Ordering::SeqCst) != two.load(Ordering::SeqCst) {
                return false;
            }
        }
        true
    }

    /// Writes one byte behind the others.
    fn put(&self, byte: u8) {
        let at = self.used.fetch_add(1, Ordering::SeqCst);
        if let Some(cell) = self.cells.get(at) {
            cell.store(byte, Ordering::SeqCst);
        }
    }

    /// Writes bytes, with their number before them.
    fn put_all(&self, bytes: &[u8]) {
        for byte in (bytes.len() as u64).to_le_bytes() {
            self.put(byte);
        }
        for byte in bytes {
            self.put(*byte);
        }
    }

    /// Writes data, with the number of their bytes before them.
    fn put_data(&self, data: &Data) {
        let mut room = [0; DATA_BYTES];
        let bytes = &mut room[..data.len()];
        data.copy_to(bytes);
        self.put_all(bytes);
    }

    /// Notes a piece that a log device was offered.
    fn piece(&self, bytes: &[u8], ok: bool) {
        self.put(PIECE);
        self.put(u8::from(ok));
        self.put_all(bytes);
    }

    /// Notes a block that a home device was offered.
    fn block(&self, block: Block, bytes: &[u8], ok: bool) {
        self.put(BLOCK);
        self.put(u8::from(ok));
        self.put_all(&block.0.to_le_bytes());
        self.put_all(bytes);
    }

    /// Notes a sync of this kind.
    fn sync(&self, kind: u8, ok: bool) {
        self.put(kind);
        self.put(u8::from(ok));
    }

    /// Notes an offer to a log device that somebody else noted.
    pub fn log_offer(&self, offer: &LogOffer) {
        match offer {
            LogOffer::Piece { bytes, ok } => {
                self.put(PIECE);
                self.put(u8::from(*ok));
                self.put_data(bytes);
            }
            LogOffer::Sync { ok } => self.sync(LOG_SYNC, *ok),
        }
    }

    /// Notes an offer to a home device that somebody else noted.
    pub fn home_offer(&self, offer: &HomeOffer) {
        match offer {
            HomeOffer::Write { block, content, ok } => self.block(*block, content.bytes(), *ok),
            HomeOffer::Sync { ok } => self.sync(HOME_SYNC, *ok),
        }
    }
}

/// A log device that notes its calls on a tape, and never fails. It keeps nothing else.
#[derive(Drop)]
pub struct TapedLog {
    pub tape: Arc<Tape, Global>,
}

impl LogDevice for TapedLog {
    ghost log_tells = { λ _. false };

    ghost log_taken = { λ _. [] };

    ghost log_failures = { λ _. 0 };

    fn append(&mut self, piece: &[u8]) -> Result<(), DevFault> {
        self.tape.piece(piece, true);
        Ok(())
    }

    fn sync(&mut self) -> Result<(), DevFault> {
        self.tape.sync(LOG_SYNC, true);
        Ok(())
    }
}

/// A home device in memory that notes its writes and syncs on a tape.
#[derive(Drop)]
pub struct TapedHome {
    pub home: MemHome,
    pub tape: Arc<Tape, Global>,
}

impl HomeDevice for TapedHome {
    ghost home_tells = { λ _. false };

    ghost home_taken = { λ _. [] };

    ghost home_failures = { λ d. ⟦<MemHome as HomeDevice>⟧.home_failures d.home };

    fn read(&mut self, block: Block, into: &mut [u8]) -> Result<(), DevFault> {
        self.home.read(block, into)
    }

    fn write(&mut self, block: Block, content: &[u8]) -> Result<(), DevFault> {
        let written = self.home.write(block, content);
        self.tape.block(block, content, written.is_ok());
        written
    }

    fn sync(&mut self) -> Result<(), DevFault> {
        let synced = self.home.sync();
        self.tape.sync(HOME_SYNC, synced.is_ok());
        synced
    }
}
