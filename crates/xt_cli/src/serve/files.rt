//! The files of volumes, looked at before any is made, and opened as devices.

ghost use Rattle.std.specs.Prelude.{◌≡◌, IfOk, Some, true};
ghost use Rattle.xt_cli.specs.Logs.{loses_only_beyond};
ghost use Rattle.xt_dev.specs.TwoFiles.{IsFirst};

use crate::recovery::logs::is_sealed;
use crate::serve::fault::ServeFault;
use crate::serve::held::Held;
use crate::serve::telling::{OpenLog, TellingHome, TellingLog, Voice};
use std::alloc::{AllocError, Global};
use std::fs::{self, File, Metadata};
use std::io::{self, ErrorKind};
use std::os::unix::fs::{FileExt, FileTypeExt, MetadataExt};
use std::path::{Path, PathBuf};
use std::random::RandomSource;
use xt_base::names::Slot;
use xt_dev::{FileFault, FileHome, FileLog, LogDevice, SealedLog};
use xt_seal::{HEADER_BYTES, Header, SEAL_BYTES};
use xt_volumes::{Volume, header_name};

/// The number of `/dev/full` on Linux, the device that takes nothing: people try a full disk with it.
const FULL_DEVICE: u64 = 0x107;

/// Which device of a volume a file is.
#[derive(Clone, Copy, Debug, PartialEq, Eq)]
pub enum Part {
    Home,
    Log,
}

/// What a mount of a volume is told: its slot, the bytes of its log, the blocks of its home device, and the bytes of a block.
#[derive(Clone, Copy, Debug)]
pub struct Geometry {
    pub slot: Slot,
    pub log_bytes: u32,
    pub blocks: u64,
    pub size: u32,
}

/// A volume whose files are open.
#[derive(Drop)]
pub struct Opened {
    pub geometry: Geometry,
    pub home: TellingHome,
    pub log: TellingLog,
    /// What the log loses, no mount with a log of so many bytes needs any more.
    ghost tied: { loses_only_beyond geometry.log_bytes (⟦<TellingLog as LogDevice>⟧.log_loses log) ≡ true },
}

/// How the logs of volumes are kept.
#[derive(Clone, Copy, Debug)]
pub enum LogRules {
    /// In one file, which is empty at the start.
    Bare {
        /// Whether they are emptied where they are of no use any more.
        are_cut: bool,
        /// Whether the end of each text waits until what is before it is safe.
        have_barrier: bool,
    },
    /// Sealed, in two files by turns. What these have at the start is recovered, and they are emptied where they are of no use any more.
    Sealed {
        /// Whether the log of another volume is recovered too.
        take_any: bool,
    },
}

impl LogRules {
    /// Whether logs are sealed, and recovered before the start.
    pub fn are_sealed(self) -> bool {
        matches!(self, LogRules::Sealed { .. })
    }

    /// Whether logs that are of no use any more are emptied at the end of a service.
    pub fn are_emptied(self) -> bool {
        match self {
            LogRules::Bare { are_cut, .. } => are_cut,
            LogRules::Sealed { .. } => true,
        }
    }
}

/// The name of the second file of a log.
pub fn second_name(alloc: Global, log: &str) -> Result<String, AllocError> {
    format!(in alloc; "{log}.1")
}

/// A fault of a file, with its name.
pub fn fault(alloc: Global, name: &str, fault: FileFault) -> ServeFault {
    match String::from_str(alloc, name) {
        Ok(name) => ServeFault::File(name, fault),
        Err(refused) => ServeFault::Memory(refused),
    }
}

/// The folder in which a path has its last name.
pub fn folder_of(path: Path<'_>) -> Path<'_> {
    match path.parent() {
        Some(folder) if !folder.as_str().is_empty() => folder,
        _ => Path::new("."),
    }
}

/// Where a file will be that is not there, in a folder that is.
fn new_place(rt: &HostRuntime, alloc: Global, path: Path) -> io::Result<PathBuf> {
    let Some(name) = path.file_name() else {
        return Err(io::Error::from(ErrorKind::NotFound));
    };
    Ok(fs::canonicalize(rt, folder_of(path))?.join(alloc, name)?)
}

/// Where a file is, or will be, by a path with no links.
fn place(rt: &HostRuntime, alloc: Global, name: &str) -> io::Result<PathBuf> {
    let path = Path::new(name);
    match fs::canonicalize(rt, path) {
        Err(error) if error.kind() == ErrorKind::NotFound => new_place(rt, alloc, path),
        result => result,
    }
}

/// Looks whether a file that is there can be a part of a volume. No folder can, nor a pipe, which has no bytes to go back to, nor a device of
/// characters but the one that takes nothing. A device of blocks can be a home device and no log: a log is as long as what was appended to it.
fn look_at_kind(found: &Metadata, part: Part) -> io::Result<()> {
    let kind = found.file_type();
    if found.is_dir() {
        return Err(io::Error::from(ErrorKind::IsADirectory));
    }
    if kind.is_fifo() {
        return Err(io::Error::from(ErrorKind::NotSeekable));
    }
    if kind.is_block_device() && part == Part::Log {
        return Err(io::Error::other("a block device has no length, so it can't be a log"));
    }
    if kind.is_char_device() && found.rdev() != FULL_DEVICE {
        return Err(io::Error::other("a character device can't be a log or a home device"));
    }
    Ok(())
}

/// How many bytes the file of a part of a volume has, if it is there; no name that ends as one of a folder is that of a file.
fn size(rt: &HostRuntime, name: &str, part: Part) -> io::Result<u64> {
    match fs::metadata(rt, name) {
        Ok(found) => {
            look_at_kind(&found, part)?;
            Ok(found.len())
        }
        Err(error) if error.kind() == ErrorKind::NotFound && !name.ends_with('/') => Ok(0),
        Err(error) => Err(error),
    }
}

/// Looks at a file, and notes where it is: its size.
pub fn look_at(
    rt: &HostRuntime,
    alloc: Global,
    name: &str,
    part: Part,
    places: &mut Vec<PathBuf>,
) -> Result<u64, ServeFault> {
    let (place, size) = match (place(rt, alloc, name), size(rt, name, part)) {
        (Ok(place), Ok(size)) => (place, size),
        (Err(error), _) | (_, Err(error)) => return Err(fault(alloc, name, FileFault::Io(error))),
    };
    if places.contains(&place) {
        return Err(ServeFault::Twice(String::from_str(alloc, name)?));
    }
    places.push(place)?;
    Ok(size)
}

/// Looks at the files of volumes before any is made: a file in no folder, one of a kind that none is, one that two devices would have, and a log
/// that has something in it, where logs are not recovered, are faults.
pub fn look(
    rt: &HostRuntime,
    alloc: Global,
    volumes: &[Volume],
    rules: LogRules,
) -> Result<(), ServeFault> {
    let mut places = Vec::new(alloc);
    for volume in volumes {
        look_at(rt, alloc, volume.home.as_str(), Part::Home, &mut places)?;
        let has_texts = match rules {
            LogRules::Sealed { take_any } => {
                look_at_both(rt, alloc, volume, take_any, &mut places)?
            }
            LogRules::Bare { .. } => look_at_one(rt, alloc, volume, &mut places)?,
        };
        if has_texts {
            look_for(rt, alloc, volume.home.as_str())?;
        }
    }
    Ok(())
}

/// Looks at both files of a sealed log: whether one has something in it. Then it is to be recovered, and the home device must be there.
fn look_at_both(
    rt: &HostRuntime,
    alloc: Global,
    volume: &Volume,
    takes_any: bool,
    places: &mut Vec<PathBuf>,
) -> Result<bool, ServeFault> {
    let first = volume.log.as_str();
    let second = second_name(alloc, first)?;
    let first_size = look_at(rt, alloc, first, Part::Log, places)?;
    let second_size = look_at(rt, alloc, second.as_str(), Part::Log, places)?;
    if !takes_any {
        look_for_both(rt, alloc, first, second.as_str())?;
    }
    Ok(first_size > 0 || second_size > 0)
}

/// Looks for both files of a sealed log. A service makes their names safe before either has a header: where one has, and the other is missing, somebody took
/// that away.
pub fn look_for_both(
    rt: &HostRuntime,
    alloc: Global,
    first: &str,
    second: &str,
) -> Result<(), ServeFault> {
    for (there, missing) in [(first, second), (second, first)] {
        if is_missing(rt, missing) && is_sealed(rt, there) {
            return Err(ServeFault::LogMissing(
                String::from_str(alloc, missing)?,
                String::from_str(alloc, there)?,
            ));
        }
    }
    Ok(())
}

/// Whether there is no file of this name.
fn is_missing(rt: &HostRuntime, name: &str) -> bool {
    match fs::metadata(rt, name) {
        Ok(_found) => false,
        Err(error) => error.kind() == ErrorKind::NotFound,
    }
}

/// Looks at the file of a bare log, which must be empty. A second file beside it that has texts of a sealed log is a fault too: they would be lost.
fn look_at_one(
    rt: &HostRuntime,
    alloc: Global,
    volume: &Volume,
    places: &mut Vec<PathBuf>,
) -> Result<bool, ServeFault> {
    if look_at(rt, alloc, volume.log.as_str(), Part::Log, places)? > 0 {
        let name = String::from_str(alloc, volume.log.as_str())?;
        return Err(ServeFault::NotRecovered(name));
    }
    let second = second_name(alloc, volume.log.as_str())?;
    if has_sealed_texts(rt, second.as_str()) {
        return Err(ServeFault::NotRecovered(second));
    }
    Ok(false)
}

/// Whether a file has more than the header of a sealed log, with which it begins. One that is not there has nothing, and one that can't be read is no log.
fn has_sealed_texts(rt: &HostRuntime, name: &str) -> bool {
    let mut front = [0; HEADER_BYTES + 1];
    match File::open(rt, name) {
        Ok(file) => { file.read_exact_at(&mut front, 0).is_ok() && Header::read(&front).is_some() }
        Err(_) => false,
    }
}

/// Looks for a file that must be there.
pub fn look_for(rt: &HostRuntime, alloc: Global, name: &str) -> Result<(), ServeFault> {
    match fs::metadata(rt, name) {
        Ok(_found) => Ok(()),
        Err(error) => Err(fault(alloc, name, FileFault::Io(error))),
    }
}

/// Opens the file of a bare log.
fn open_bare(
    rt: &HostRuntime,
    name: &str,
    are_cut: bool,
    have_barrier: bool,
) -> Result<FileLog, FileFault> {
    let mut log = FileLog::open(rt, name)?;
    if are_cut {
        log = log.emptied_by_cuts();
    }
    if have_barrier {
        log = log.with_barrier();
    }
    Ok(log)
}

/// The header that begins a life of a volume.
fn first_header<R: RandomSource>(rt: &R, volume: &Volume) -> io::Result<Header>
    ensures first { IfOk result IsFirst }
    ensures log_bytes { IfOk result (λ header. header.log_bytes ≡ volume.now.log_bytes) }
{
    let mut salt = [0; 8];
    rt.fill_bytes(&mut salt)?;
    Ok(Header {
        block_size: volume.size,
        log_bytes: volume.log_bytes,
        generation: 1,
        salt: u64::from_be_bytes(salt),
        link: [0; SEAL_BYTES],
        name: header_name(volume.home.as_str()),
    })
}

/// Opens both files of a sealed log, which begins a life.
fn open_sealed(rt: &HostRuntime, volume: &Volume, second: &str) -> Result<SealedLog, FileFault>
    // A text is lost only once the newer ones have more bytes than the log of the mount.
    ensures { IfOk result (λ log. ⟦<SealedLog as LogDevice>⟧.log_loses log ≡ Some volume.now.log_bytes) }
{
    let header = first_header(rt, volume)?;
    SealedLog::open(rt, volume.log.as_str(), second, header)
}

/// Opens the log of a volume, which tells of itself by this voice.
fn open_log(
    rt: &HostRuntime,
    alloc: Global,
    volume: &Volume,
    rules: LogRules,
    voice: Voice,
) -> Result<TellingLog, ServeFault>
    ensures tied { IfOk result (λ log. loses_only_beyond volume.now.log_bytes (⟦<TellingLog as LogDevice>⟧.log_loses log) ≡ true) }
{
    let name = volume.log.as_str();
    match rules {
        LogRules::Bare {
            are_cut,
            have_barrier,
        } => match open_bare(rt, name, are_cut, have_barrier) {
            Ok(log) => Ok(TellingLog::new(OpenLog::Bare(log), voice)),
            Err(found) => Err(fault(alloc, name, found)),
        },
        LogRules::Sealed { .. } => {
            let second = second_name(alloc, name)?;
            match open_sealed(rt, volume, second.as_str()) {
                Ok(log) => Ok(TellingLog::new(OpenLog::Sealed(log), voice)),
                Err(found) => Err(fault(alloc, name, found)),
            }
        }
    }
}

/// Opens the files of a volume.
fn open_one(
    rt: &HostRuntime,
    alloc: Global,
    volume: &Volume,
    rules: LogRules,
) -> Result<Opened, ServeFault> {
    let home = match FileHome::open(rt, alloc, volume.home.as_str()) {
        Ok(home) => home,
        Err(found) => return Err(fault(alloc, volume.home.as_str(), found)),
    };
    let voice_of_log = voice(rt, alloc, volume, volume.log.as_str())?;
    Ok(Opened {
        geometry: Geometry {
            slot: volume.slot,
            log_bytes: volume.log_bytes,
            blocks: volume.blocks,
            size: volume.size,
        },
        home: TellingHome::new(home, voice(rt, alloc, volume, volume.home.as_str())?),
        log: open_log(rt, alloc, volume, rules, voice_of_log)?,
    })
}

/// What tells of a file of a volume.
fn voice(
    rt: &HostRuntime,
    alloc: Global,
    volume: &Volume,
    name: &str,
) -> Result<Voice, ServeFault> {
    let name = String::from_str(alloc, name)?;
    Ok(Voice::new(volume.slot, name, rt.stderr()))
}

/// Opens the files of those volumes that are served.
pub fn open(
    rt: &HostRuntime,
    alloc: Global,
    held: &[Held],
    rules: LogRules,
) -> Result<Vec<Opened>, ServeFault> {
    let mut opened = Vec::new(alloc);
    for one in held {
        if one.is_served {
            opened.push(open_one(rt, alloc, &one.volume, rules)?)?;
        }
    }
    Ok(opened)
}
