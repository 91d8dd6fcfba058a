//! `xth logdump` over files.

use crate::noting::Noting;
use crate::recovery::logs::is_bare;
use crate::serve::files::second_name;
use crate::{OUTPUT_BYTES, terminal};
use clap::{Arg, ArgAction, ArgMatches, Command};
use std::alloc::{AllocError, Global};
use std::fs::{self, File};
use std::io::{self, BufWriter, ErrorKind, Stderr, Write};
use xt_offline::progress::Watched;
use xt_offline::{
    DumpFault, LOG_BYTES, LogFault, ScriptFault, Source, Which, dump, dump_files, tell,
};

/// Which log is to be printed, and whether also a long one.
#[derive(Clone, Copy, Debug)]
pub struct DumpAsked<'a> {
    file: &'a str,
    is_long: bool,
}

/// The command line of a log that is printed.
pub fn logdump_command<'a>(alloc: Global) -> Result<Command<'a>, AllocError> {
    let file = Arg::new(alloc, "FILE")
        .help("The file of a log; of a sealed log FILE.1 is the second file, if it is there")
        .required(true);
    let long = Arg::new(alloc, "long")
        .long("long")
        .help("Prints a log of more than 67108864 bytes too")
        .action(ArgAction::SetTrue);
    Command::new(alloc, "logdump")
        .about("Prints the checkpoints of a log")
        .arg(file)?
        .arg(long)
}

impl<'a> DumpAsked<'a> {
    /// Which log is to be printed, if one is.
    pub fn of(matches: &ArgMatches<'a>) -> Option<Self> {
        let logdump = matches.subcommand_matches("logdump")?;
        Some(DumpAsked {
            file: logdump.get_str("FILE")?,
            is_long: logdump.get_flag("long"),
        })
    }

    /// The log, and how many bytes it may have.
    fn source(&self) -> Source<'a> {
        Source {
            name: self.file,
            limit: if self.is_long { u64::MAX } else { LOG_BYTES },
        }
    }
}

/// Opens a file of a log, if it has no more bytes than it may have.
fn open_file(rt: &HostRuntime, name: &str, limit: u64) -> Result<File, LogFault> {
    let file = File::open(rt, name)?;
    if file.metadata()?.len() > limit {
        return Err(LogFault::TooLong);
    }
    Ok(file)
}

/// The files of a log; the second one may be missing.
#[derive(Drop)]
struct OpenLog {
    first: File,
    second: Option<File>,
}

/// Whether a regular file is there under a name. What is there otherwise is no file of a log in two.
fn is_file(rt: &HostRuntime, name: &str) -> bool {
    match fs::metadata(rt, name) {
        Ok(found) => found.is_file(),
        Err(error) => error.kind() != ErrorKind::NotFound,
    }
}

/// The second file of a log, where it is there, and the first one alone is not the log.
fn open_second(rt: &HostRuntime, source: Source, first: &File) -> Result<Option<File>, DumpFault> {
    let name = second_name(rt.alloc(), source.name).map_err(DumpFault::Memory)?;
    if !is_file(rt, source.name) || !is_file(rt, name.as_str()) {
        return Ok(None);
    }
    let second = open_file(rt, name.as_str(), source.limit).map_err(DumpFault::Second)?;
    match is_bare(first, Some(&second)) {
        Ok(true) => Ok(None),
        Ok(false) => Ok(Some(second)),
        Err(error) => Err(DumpFault::Second(LogFault::Io(error))),
    }
}

/// Opens the files of a log.
fn open_log(rt: &HostRuntime, source: Source) -> Result<OpenLog, DumpFault> {
    let first = open_file(rt, source.name, source.limit).map_err(DumpFault::Log)?;
    let second = open_second(rt, source, &first)?;
    Ok(OpenLog { first, second })
}

/// How a dump ended: its status, in which file, and whether the log was too long.
#[derive(Clone, Copy, Debug)]
struct Ended {
    status: u8,
    which: Which,
    is_too_long: bool,
}

/// Prints the checkpoints of a log in one file.
fn dump_one<W: Write + Drop>(
    rt: &HostRuntime,
    source: Source,
    file: File,
    writer: &mut W,
) -> Ended {
    let mut reader = Watched::new(file, terminal(rt));
    let status = dump(rt.alloc(), source, &mut reader, writer, &mut rt.stderr());
    Ended {
        status,
        which: Which::One,
        is_too_long: reader.bytes() > source.limit,
    }
}

/// Prints the checkpoints of a log in two files.
fn dump_two<W: Write + Drop>(
    rt: &HostRuntime,
    source: Source,
    first: File,
    second: File,
    writer: &mut W,
) -> Ended {
    let mut first = Watched::new(first, terminal(rt));
    let mut second = Watched::new(second, terminal(rt));
    let mut err = rt.stderr();
    let dumped = dump_files(
        rt.alloc(),
        source,
        &mut first,
        &mut second,
        writer,
        &mut err,
    );
    Ended {
        status: dumped.status,
        which: dumped.which,
        is_too_long: first.bytes() > source.limit || second.bytes() > source.limit,
    }
}

/// Prints the checkpoints of a log.
fn dump_to<W: Write + Drop>(rt: &HostRuntime, source: Source, writer: &mut W) -> Ended {
    match open_log(rt, source) {
        Ok(
            OpenLog {
                first,
                second: None,
            },
        ) => dump_one(rt, source, first, writer),
        Ok(
            OpenLog {
                first,
                second: Some(second),
            },
        ) => dump_two(rt, source, first, second, writer),
        Err(fault) => Ended {
            status: tell(&mut rt.stderr(), source.name, &fault),
            which: Which::One,
            is_too_long: fault.is_too_long(),
        },
    }
}

/// Says of a log why it was not printed to its end: that it is too long, or where it is broken.
fn explain(err: &mut Stderr, source: Source, ended: &Ended, offset: u64) -> io::Result<()> {
    let Source { name, limit } = source;
    match (ended.status, ended.which) {
        (3, Which::One) => writeln!(err, "log '{name}': broken at byte {offset}"),
        (3, Which::Other) => writeln!(err, "log '{name}.1': broken at byte {offset}"),
        (1, _) if ended.is_too_long => writeln!(
            err,
            "log '{name}': it has more than {limit} bytes; with --long it is printed"
        ),
        _ => Ok(()),
    }
}

/// Prints the checkpoints of a log file, and where there are to be details why it is not printed to its end.
pub fn dump_file(
    rt: &HostRuntime,
    details: Option<Stderr>,
    asked: DumpAsked,
) -> Result<u8, ScriptFault> {
    let output = BufWriter::with_capacity(rt.alloc(), OUTPUT_BYTES, rt.stdout())?;
    let mut writer = Noting::new(output);
    let ended = dump_to(rt, asked.source(), &mut writer);
    if let Some(mut err) = details {
        let _ = explain(&mut err, asked.source(), &ended, writer.number);
    }
    Ok(ended.status)
}
