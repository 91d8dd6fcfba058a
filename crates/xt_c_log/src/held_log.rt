//! What is held of a log: its bytes, as far as they came, and then what its texts say.

ghost use Rattle.std.specs.Prelude.{◌≡◌, [], IfErr, IfOk, IsSomeAnd, OnOk, Some, pos};
ghost use Rattle.xt_c_log.specs.Logs.{Both, Bytes, Says, fed, texts_of, turned};
ghost use Rattle.xt_c_log.specs.Told.{IsAdded, IsBlockOf, IsEnded, IsLaid, IsOpen, IsOpenFiles, IsRefused, IsRefusedFiles, IsTaken, IsTold, no_memory};

use crate::gathered::{Gathered, gather_both, gather_texts, put_fault, put_files_fault};
use crate::status::{BUSY, NO_DEVICE, NO_MEMORY};
use crate::words::LogWords;
use std::alloc::{AllocError, Global};
use std::marker::Model;
use std::mem;
use xt_window::way::Which;

/// What is held of a log.
#[derive(Drop)]
pub struct HeldLog {
    state: State,
}

/// How far a log has come.
#[derive(Drop)]
enum State {
    /// These of its bytes came.
    Came(Vec<u8>),
    /// Of its two files these bytes came.
    CameBoth(Vec<u8>, Vec<u8>),
    /// All came, and were read: its texts say this.
    Read(Gathered),
}

impl Model for HeldLog {
    ghost use Rattle.xt_c_log.specs.Logs.{Log, log_of};

    ghost Value = { Log };

    ghost view = { λ l. log_of l.state };
}

/// Puts a piece behind bytes.
fn add(bytes: &mut Vec<u8>, piece: &[u8]) -> i32
    ensures { IsAdded piece.now result bytes.new.items bytes.old.items }
{
    match bytes.extend_from_slice(piece) {
        Ok(()) => 0,
        Err(AllocError) => NO_MEMORY,
    }
}

impl HeldLog {
    /// A log of which these bytes came, in a box.
    pub fn of_bytes(alloc: Global, bytes: &[u8]) -> Result<Box<HeldLog>, AllocError>
        ensures { IfOk result (λ log. log.value ≡ Bytes bytes.now) }
    {
        let mut came = Vec::new(alloc);
        came.extend_from_slice(bytes)?;
        let state = State::Came(came);
        Ok(Box::new(alloc, HeldLog { state })?)
    }

    /// A log in two files of which nothing came, in a box.
    pub fn of_nothing(alloc: Global) -> Result<Box<HeldLog>, AllocError>
        ensures { IfOk result (λ log. log.value ≡ Both [] []) }
    {
        let state = State::CameBoth(Vec::new(alloc), Vec::new(alloc));
        Ok(Box::new(alloc, HeldLog { state })?)
    }

    /// What was gathered, in a box, and told; or ENOMEM.
    fn of_gathered(
        alloc: Global,
        gathered: Gathered,
        older: Which,
        told: &mut LogWords,
    ) -> Result<Box<HeldLog>, i32>
        ensures held { IfOk result (λ log. log.value ≡ Says gathered) }
        ensures told { OnOk result (IsTold told.new told.old older gathered) }
        ensures memory { IfErr result (λ status. (status ≡ no_memory) × (told.new ≡ told.old)) }
    {
        let words = gathered.told(older, told);
        let state = State::Read(gathered);
        match Box::new(alloc, HeldLog { state }) {
            Ok(log) => {
                *told = words;
                Ok(log)
            }
            Err(_) => Err(NO_MEMORY),
        }
    }

    /// A log that came whole, read, in a box; else what is to be returned.
    pub fn of_texts(alloc: Global, bytes: &[u8], told: &mut LogWords) -> Result<Box<HeldLog>, i32>
        ensures ok { IfOk result (λ log. IsSomeAnd (texts_of (Some log.value)) (IsOpen bytes.now told.new told.old)) }
        ensures refused { IfErr result (λ status. IsRefused bytes.now status told.new told.old) }
    {
        match gather_texts(alloc, bytes) {
            Ok(gathered) => Self::of_gathered(alloc, gathered, Which::One, told),
            Err(fault) => Err(put_fault(fault, told)),
        }
    }

    /// The same of a log in two files.
    pub fn of_files(
        alloc: Global,
        one: &[u8],
        other: &[u8],
        told: &mut LogWords,
    ) -> Result<Box<HeldLog>, i32>
        ensures ok { IfOk result (λ log. IsSomeAnd (texts_of (Some log.value)) (IsOpenFiles one.now other.now told.new told.old)) }
        ensures refused { IfErr result (λ status. IsRefusedFiles one.now other.now status told.new told.old) }
    {
        match gather_both(alloc, one, other) {
            Ok((gathered, older)) => Self::of_gathered(alloc, gathered, older, told),
            Err(fault) => Err(put_files_fault(fault, told)),
        }
    }

    /// Takes a piece of its bytes, behind those that came. EBUSY where its texts were read.
    pub fn feed(&mut self, piece: &[u8]) -> i32
        ensures { IsTaken (fed piece.now self.old) result (Some self.new) (Some self.old) }
    {
        match &mut self.state {
            State::Came(bytes) => add(bytes, piece),
            State::CameBoth(_, bytes) => add(bytes, piece),
            State::Read(_) => BUSY,
        }
    }

    /// What comes from here on is the other file. EBUSY where it is already, or its texts were read.
    pub fn turn(&mut self, alloc: Global) -> i32
        ensures { IsTaken (turned self.old) result (Some self.new) (Some self.old) }
    {
        let State::Came(bytes) = &mut self.state else {
            return BUSY;
        };
        let one = mem::replace(bytes, Vec::new(alloc));
        self.state = State::CameBoth(one, Vec::new(alloc));
        0
    }

    /// Holds what was gathered, and tells it.
    fn keep(&mut self, gathered: Gathered, older: Which, told: &mut LogWords) -> i32
        ensures status { result ≡ pos 0 }
        ensures held { self.new ≡ Says gathered }
        ensures told { IsTold told.new told.old older gathered }
    {
        *told = gathered.told(older, told);
        self.state = State::Read(gathered);
        0
    }

    /// Reads the texts of the bytes that came, which it holds no more then. EBUSY where they were read.
    pub fn end(&mut self, alloc: Global, told: &mut LogWords) -> i32
        ensures { IsEnded (Some self.old) result told.new told.old (Some self.new) }
    {
        match &self.state {
            State::Came(bytes) => match gather_texts(alloc, bytes) {
                Ok(gathered) => self.keep(gathered, Which::One, told),
                Err(fault) => put_fault(fault, told),
            },
            State::CameBoth(one, other) => match gather_both(alloc, one, other) {
                Ok((gathered, older)) => self.keep(gathered, older, told),
                Err(fault) => put_files_fault(fault, told),
            },
            State::Read(_) => BUSY,
        }
    }

    /// Writes the block at a place of those of which its texts say something.
    pub fn block(&self, index: u64, block: &mut u64) -> i32
        ensures { IsBlockOf index (texts_of (Some self.now)) result block.new block.old }
    {
        match &self.state {
            State::Came(_) | State::CameBoth(_, _) => NO_DEVICE,
            State::Read(gathered) => gathered.block(index, block),
        }
    }

    /// Lays what its texts say of a block over its bytes.
    pub fn lay(&self, block: u64, content: &mut [u8]) -> i32
        ensures { IsLaid block (texts_of (Some self.now)) result content.new content.old }
    {
        match &self.state {
            State::Came(_) | State::CameBoth(_, _) => NO_DEVICE,
            State::Read(gathered) => gathered.lay(block, content),
        }
    }
}
