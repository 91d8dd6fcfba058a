//! The devices of a volume, which tell on standard error at once what becomes of their files.

ghost use Rattle.std.specs.Prelude.{◌≡◌, [], false};
ghost use Rattle.xt_cli.specs.declared.serve.telling.OpenLog.TheVariants as AnOpenLog;

use std::io::{self, Stderr, Write};
use xt_base::names::{Block, Slot};
use xt_dev::{DevFault, FileHome, FileLog, HomeDevice, LogDevice, SealedLog};

/// Of how many bytes a log file says that it has them: 1 GiB.
const LONG: u64 = 0x4000_0000;

/// Whose file a device is, and where it tells of it. A standard error that fails changes nothing.
#[derive(Drop)]
pub struct Voice {
    slot: Slot,
    /// The file, as the command line names it.
    name: String,
    err: Stderr,
}

impl Voice {
    /// The file of a slot by its name, and standard error.
    pub fn new(slot: Slot, name: String, err: Stderr) -> Self {
        Voice { slot, name, err }
    }
}

/// The log of a volume: bare texts in one file, or sealed ones in two.
#[derive(Drop)]
pub enum OpenLog {
    Bare(FileLog),
    Sealed(SealedLog),
}

impl OpenLog {
    /// Why each call fails, since one did; None where none failed yet.
    fn fault(&self) -> Option<io::Error> {
        match self {
            OpenLog::Bare(log) => log.fault(),
            OpenLog::Sealed(log) => log.fault(),
        }
    }

    /// How many bytes its files have.
    fn bytes(&self) -> u64 {
        match self {
            OpenLog::Bare(log) => log.bytes(),
            OpenLog::Sealed(log) => log.bytes(),
        }
    }
}

impl LogDevice for OpenLog {
    ghost log_tells = { λ _. false };

    ghost log_taken = { λ _. [] };

    ghost log_failures = { elim [ AnOpenLog.Bare log ↦ ⟦<FileLog as LogDevice>⟧.log_failures log | AnOpenLog.Sealed log ↦ ⟦<SealedLog as LogDevice>⟧.log_failures log ] };

    ghost log_loses = { elim [ AnOpenLog.Bare log ↦ ⟦<FileLog as LogDevice>⟧.log_loses log | AnOpenLog.Sealed log ↦ ⟦<SealedLog as LogDevice>⟧.log_loses log ] };

    fn append(&mut self, piece: &[u8]) -> Result<(), DevFault> {
        match self {
            OpenLog::Bare(log) => log.append(piece),
            OpenLog::Sealed(log) => log.append(piece),
        }
    }

    fn sync(&mut self) -> Result<(), DevFault> {
        match self {
            OpenLog::Bare(log) => log.sync(),
            OpenLog::Sealed(log) => log.sync(),
        }
    }

    fn make_room(&mut self, bytes: u64) {
        match self {
            OpenLog::Bare(log) => log.make_room(bytes),
            OpenLog::Sealed(log) => log.make_room(bytes),
        }
    }

    fn cut(&mut self, size: u32) {
        match self {
            OpenLog::Bare(log) => log.cut(size),
            OpenLog::Sealed(log) => log.cut(size),
        }
    }
}

/// A log in files. Its first call that fails is told, since its mount is shut by that. Once it has 1 GiB, that is told too: such a log was
/// never cut, or some block that it logs was never home.
#[derive(Drop)]
pub struct TellingLog {
    log: OpenLog,
    voice: Voice,
    is_fault_told: bool,
    is_growth_told: bool,
}

impl TellingLog {
    /// A log that tells of itself.
    pub fn new(log: OpenLog, voice: Voice) -> Self
        ensures loses { ⟦<TellingLog as LogDevice>⟧.log_loses result ≡ ⟦<OpenLog as LogDevice>⟧.log_loses log }
    {
        TellingLog {
            log,
            voice,
            is_fault_told: false,
            is_growth_told: false,
        }
    }

    /// Tells that a call failed, if one did and that was not told.
    fn watch(&mut self)
        ensures { self.new.log ≡ self.old.log }
    {
        let Some(error) = self.log.fault() else {
            return;
        };
        if !self.is_fault_told {
            self.is_fault_told = true;
            let Voice { slot, name, err } = &mut self.voice;
            let slot = slot.index();
            let _ = writeln!(err, "slot {slot}: log {name}: {error}: shut, LOG_IO_ERROR");
        }
    }

    /// Tells that the file has grown long, if it has and that was not told.
    fn watch_growth(&mut self)
        ensures { self.new.log ≡ self.old.log }
    {
        if !self.is_growth_told && self.log.bytes() >= LONG {
            self.is_growth_told = true;
            let Voice { slot, name, err } = &mut self.voice;
            let slot = slot.index();
            let _ = writeln!(err, "slot {slot}: log {name}: grown to 1 GiB");
        }
    }
}

impl LogDevice for TellingLog {
    ghost log_tells = { λ _. false };

    ghost log_taken = { λ _. [] };

    ghost log_failures = { λ d. ⟦<OpenLog as LogDevice>⟧.log_failures d.log };

    ghost log_loses = { λ d. ⟦<OpenLog as LogDevice>⟧.log_loses d.log };

    fn append(&mut self, piece: &[u8]) -> Result<(), DevFault> {
        self.watch_growth();
        let appended = self.log.append(piece);
        self.watch();
        appended
    }

    fn sync(&mut self) -> Result<(), DevFault> {
        let synced = self.log.sync();
        self.watch();
        synced
    }

    fn make_room(&mut self, bytes: u64) {
        self.log.make_room(bytes);
    }

    fn cut(&mut self, size: u32) {
        self.log.cut(size);
    }
}

/// A home device in a file. Its first read that fails is told, and its first write or sync that does: after that its volume goes on, with
/// blocks that wait.
#[derive(Drop)]
pub struct TellingHome {
    home: FileHome,
    voice: Voice,
    is_read_told: bool,
    is_write_told: bool,
}

impl TellingHome {
    /// A home device that tells of itself.
    pub fn new(home: FileHome, voice: Voice) -> Self {
        TellingHome {
            home,
            voice,
            is_read_told: false,
            is_write_told: false,
        }
    }

    /// Tells why the last call that failed did, and what comes of that.
    fn tell(&mut self, what: &str)
        ensures { self.new.home ≡ self.old.home }
    {
        if let Some(error) = self.home.fault() {
            let Voice { slot, name, err } = &mut self.voice;
            let slot = slot.index();
            let _ = writeln!(err, "slot {slot}: home {name}: {error}: {what}");
        }
    }

    /// Tells that a read failed, if it did and that of none was told.
    fn watch_read(&mut self, succeeded: bool)
        ensures { self.new.home ≡ self.old.home }
    {
        if !self.is_read_told && !succeeded {
            self.is_read_told = true;
            self.tell("a block is not read");
        }
    }

    /// Tells that a write or a sync failed, if it did and that of none was told.
    fn watch_write(&mut self, succeeded: bool)
        ensures { self.new.home ≡ self.old.home }
    {
        if !self.is_write_told && !succeeded {
            self.is_write_told = true;
            self.tell("its blocks wait");
        }
    }
}

impl HomeDevice for TellingHome {
    ghost home_tells = { λ _. false };

    ghost home_taken = { λ _. [] };

    ghost home_failures = { λ d. ⟦<FileHome as HomeDevice>⟧.home_failures d.home };

    fn read(&mut self, block: Block, into: &mut [u8]) -> Result<(), DevFault> {
        let read = self.home.read(block, into);
        self.watch_read(read.is_ok());
        read
    }

    fn write(&mut self, block: Block, content: &[u8]) -> Result<(), DevFault> {
        let written = self.home.write(block, content);
        self.watch_write(written.is_ok());
        written
    }

    fn sync(&mut self) -> Result<(), DevFault> {
        let synced = self.home.sync();
        self.watch_write(synced.is_ok());
        synced
    }
}
