//! Recovery over files.

use crate::recovery::logs::{LogFile, LogReader, is_bare, is_sealed};
use crate::recovery::options::Asked;
use crate::serve::fault::ServeFault;
use crate::serve::files::{Part, fault, look_at, look_for, look_for_both, second_name};
use crate::serve::holding::{hold, lock};
use crate::terminal;
use std::alloc::Global;
use std::fs::File;
use std::io::{self, BufWriter, ErrorKind, Stderr};
use xt_dev::{FileFault, FileHome};
use xt_offline::progress::Watched;
use xt_recover::command::{Asked as Terms, run, run_files};
use xt_recover::files::Files;

/// How many bytes of output are written at once: a few lines.
const OUTPUT_BYTES: usize = 256;

/// The files of a volume, by their names.
#[derive(Clone, Copy, Debug)]
pub struct Names<'a> {
    pub home: &'a str,
    pub log: &'a str,
    /// The second file of the log, which may be missing.
    pub second: &'a str,
}

/// The files of a log that a crash left; one of a sealed log may be missing.
#[derive(Drop)]
pub struct LeftLog {
    first: Option<File>,
    second: Option<File>,
}

/// The same, to be read and to be emptied.
#[derive(Drop)]
pub struct Opened {
    pub readers: Files<Watched<LogReader, Stderr>>,
    pub logs: Files<LogFile>,
}

/// Opens a file of a log, for writing too where it is to be emptied.
fn open_file(rt: &HostRuntime, name: &str, is_cut: bool) -> io::Result<File> {
    File::options().read(true).write(is_cut).open(rt, name)
}

/// The same of one that may be missing.
fn open_if_there(
    rt: &HostRuntime,
    alloc: Global,
    name: &str,
    is_cut: bool,
) -> Result<Option<File>, ServeFault> {
    match open_file(rt, name, is_cut) {
        Ok(file) => Ok(Some(file)),
        Err(error) if error.kind() == ErrorKind::NotFound => Ok(None),
        Err(error) => Err(fault(alloc, name, FileFault::Io(error))),
    }
}

/// Locks a file that is there.
fn lock_if_there(alloc: Global, name: &str, file: &Option<File>) -> Result<(), ServeFault> {
    match file {
        Some(file) => lock(alloc, name, file),
        None => Ok(()),
    }
}

/// A copy of the handle of a file that is there.
fn copy_of(file: &Option<File>) -> io::Result<Option<File>> {
    match file {
        Some(file) => Ok(Some(file.try_clone()?)),
        None => Ok(None),
    }
}

impl LeftLog {
    /// Opens the files of a log. The first one must be there, unless the second one is of a sealed log.
    pub fn open(
        rt: &HostRuntime,
        alloc: Global,
        names: Names,
        is_cut: bool,
    ) -> Result<Self, ServeFault> {
        if !is_sealed(rt, names.second) {
            look_for(rt, alloc, names.log)?;
        }
        let first = open_if_there(rt, alloc, names.log, is_cut)?;
        let second = open_if_there(rt, alloc, names.second, is_cut)?;
        Ok(LeftLog { first, second })
    }

    /// Locks them.
    fn lock(&self, alloc: Global, names: Names) -> Result<(), ServeFault> {
        lock_if_there(alloc, names.log, &self.first)?;
        lock_if_there(alloc, names.second, &self.second)
    }

    /// Whether the first file alone is the log, one without seals.
    pub fn is_bare(&self) -> io::Result<bool> {
        match &self.first {
            Some(first) => is_bare(first, self.second.as_ref()),
            None => Ok(false),
        }
    }

    /// Its files, to be read and to be emptied.
    pub fn opened(self, rt: &HostRuntime) -> io::Result<Opened> {
        let LeftLog { first, second } = self;
        let logs = Files {
            one: LogFile::new(copy_of(&first)?),
            other: LogFile::new(copy_of(&second)?),
        };
        let readers = Files {
            one: Watched::new(LogReader::new(first), terminal(rt)),
            other: Watched::new(LogReader::new(second), terminal(rt)),
        };
        Ok(Opened { readers, logs })
    }
}

/// Opens the home device of a volume, which must be there: a log is laid over the one that it was written with.
pub fn open_home(rt: &HostRuntime, alloc: Global, name: &str) -> Result<FileHome, ServeFault> {
    look_for(rt, alloc, name)?;
    match FileHome::open(rt, alloc, name) {
        Ok(home) => Ok(home),
        Err(found) => Err(fault(alloc, name, found)),
    }
}

/// Looks at the files of a volume before any is opened.
fn look_at_names(
    rt: &HostRuntime,
    alloc: Global,
    names: Names,
    asked: Asked,
) -> Result<(), ServeFault> {
    let mut places = Vec::new(alloc);
    look_at(rt, alloc, names.home, Part::Home, &mut places)?;
    look_at(rt, alloc, names.log, Part::Log, &mut places)?;
    look_at(rt, alloc, names.second, Part::Log, &mut places)?;
    if asked.takes_any {
        return Ok(());
    }
    look_for_both(rt, alloc, names.log, names.second)
}

/// Recovers a home device in a file from the log in one or two others, and prints what was recovered: the exit status.
pub fn recover_files(rt: &HostRuntime, asked: Asked) -> Result<u8, ServeFault> {
    let alloc = rt.alloc();
    let second = second_name(alloc, asked.log)?;
    let names = Names {
        home: asked.home,
        log: asked.log,
        second: second.as_str(),
    };
    look_at_names(rt, alloc, names, asked)?;
    let home = open_home(rt, alloc, asked.home)?;
    let log = LeftLog::open(rt, alloc, names, asked.is_cut)?;
    let _held = hold(rt, alloc, asked.home, false)?;
    log.lock(alloc, names)?;
    recover_left(rt, home, log, asked)
}

/// Recovers what was opened.
fn recover_left(
    rt: &HostRuntime,
    home: FileHome,
    log: LeftLog,
    asked: Asked,
) -> Result<u8, ServeFault> {
    let alloc = rt.alloc();
    let mut home = home;
    let is_bare = log.is_bare()?;
    let Opened {
        mut readers,
        mut logs,
    } = log.opened(rt)?;
    let mut writer = BufWriter::with_capacity(alloc, OUTPUT_BYTES, rt.stdout())?;
    let mut err = rt.stderr();
    if is_bare {
        return Ok(run(
            alloc,
            &mut readers.one,
            &mut home,
            &mut logs.one,
            asked.is_cut,
            &mut writer,
            &mut err,
        ));
    }
    let terms = Terms {
        wanted: asked.wanted(),
        is_cut: asked.is_cut,
    };
    Ok(run_files(
        alloc,
        &mut readers,
        &mut home,
        &mut logs,
        terms,
        &mut writer,
        &mut err,
    ))
}
