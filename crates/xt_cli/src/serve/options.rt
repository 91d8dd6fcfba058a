//! What the command line says of a service.

use crate::serve::fault::{ServeFault, WrongWord};
use crate::serve::files::LogRules;
use crate::serve::listening::Address;
use clap::builder::ValueParser;
use clap::{Arg, ArgAction, ArgMatches, Command};
use std::alloc::{AllocError, Global};
use xt_base::steps::Errno;
use xt_volumes::{Volume, VolumeFault, volumes, word_fault};

/// What a volume is, with two examples.
const VOLUME: &str = "A volume, SLOT:LOGBYTES:BLOCKS:HOMEFILE:LOGFILE[:SIZE]: \
a slot (0 to 15), the bytes of its log (65536 to 16777216), the blocks of its home device, the files of both, which are made where they \
are missing, and the bytes of a block (512, 1024, 2048 or 4096, which it is where it is left out); the log file must be empty, or \
--recover be said, and then LOGFILE.1 is of the log too. Examples: 0:65536:1024:vol.home:vol.log 1:65536:8192:small.home:small.log:512";

/// What a service is asked to do.
#[derive(Debug, Drop)]
pub struct Options {
    /// Where to listen.
    pub address: Address,
    /// How many workers, 1 to 8.
    pub workers: usize,
    /// How many sessions: 1 to 1,000,000, or as many as can be counted.
    pub sessions: u64,
    /// For how many seconds a client may be silent; None where for ever.
    pub patience: Option<u32>,
    /// Whether the service ends where standard input does.
    pub until_stdin_ends: bool,
    /// How the logs are kept, and whether volumes are recovered from those that are not empty.
    pub logs: LogRules,
    /// That options do nothing here, if some do.
    pub note: Option<&'static str>,
    /// The volumes, ascending by slot.
    pub volumes: Vec<Volume>,
}

/// An option whose value is a number within bounds.
fn number<'a>(
    alloc: Global,
    id: &'a str,
    value: &'a str,
    help: &'a str,
    bounds: (u64, u64),
) -> Arg<'a> {
    Arg::new(alloc, id)
        .long(id)
        .value_name(value)
        .help(help)
        .value_parser(ValueParser::unsigned(bounds.0, bounds.1))
}

/// An option with no value.
fn flag<'a>(alloc: Global, id: &'a str, help: &'a str) -> Arg<'a> {
    Arg::new(alloc, id)
        .long(id)
        .help(help)
        .action(ArgAction::SetTrue)
}

/// Puts the numbers of a service into its command line.
fn with_numbers<'a>(alloc: Global, command: Command<'a>) -> Result<Command<'a>, AllocError> {
    let port = number(
        alloc,
        "port",
        "P",
        "The port of 127.0.0.1 to listen at, 0 to 65535; with 0 the system chooses",
        (0, 65_535),
    );
    let workers = number(
        alloc,
        "workers",
        "W",
        "How many workers write logs and blocks, 1 to 8",
        (1, 8),
    );
    let sessions = number(
        alloc,
        "sessions",
        "N",
        "How many sessions are served, 1 to 1000000; then the service ends",
        (1, 1_000_000),
    );
    command
        .arg(port.required_unless_present("listen")?)?
        .arg(workers.required_unless_present("listen")?)?
        .arg(sessions.required_unless_present("listen")?)
}

/// Puts the options of a service that stays into its command line.
fn with_stay<'a>(alloc: Global, command: Command<'a>) -> Result<Command<'a>, AllocError> {
    let listen = Arg::new(alloc, "listen")
        .long("listen")
        .value_name("ADDRESS")
        .help(
            "Where to listen, 127.0.0.1:PORT or unix:PATH, in place of --port: a service that stays, with no end of sessions, 2 workers where \
no other number is said, and --recover",
        )
        .conflicts_with("port")?
        .conflicts_with("sessions")?;
    let idle = number(
        alloc,
        "idle",
        "SECONDS",
        "Ends a session whose client says nothing for so many seconds",
        (1, 31_536_000),
    );
    command.arg(listen)?.arg(idle)
}

/// Puts the options of the logs into the command line of a service.
fn with_log_options<'a>(alloc: Global, command: Command<'a>) -> Result<Command<'a>, AllocError> {
    let recover = flag(
        alloc,
        "recover",
        "Recovers each volume whose log is not empty, and empties that log, before the start; from then on its log is sealed, in LOGFILE \
and LOGFILE.1, which have at most LOGBYTES each, and what their seals take",
    );
    let any_log = flag(
        alloc,
        "any-log",
        "Recovers a volume also from a log that tells the name or the sizes of another one",
    );
    let cut_logs = flag(
        alloc,
        "cut-logs",
        "Empties the log of a volume where all that it logs is home: while it is mounted once it has four times LOGBYTES, and at the end \
if it was unmounted live; nothing more beside --recover",
    );
    let barrier = flag(
        alloc,
        "barrier",
        "Writes the last 16 bytes of a checkpoint only once those before them are synced, for file systems that may leave other bytes \
in what was not synced; nothing more beside --recover",
    );
    command
        .arg(recover)?
        .arg(any_log.requires_arg("recover")?)?
        .arg(cut_logs)?
        .arg(barrier)
}

/// The command line of a service.
pub fn serve_command<'a>(alloc: Global) -> Result<Command<'a>, AllocError> {
    let until_stdin_ends = flag(
        alloc,
        "until-stdin-ends",
        "Ends the service where its standard input ends, also before the last session: then no more are served, and those whose clients \
are silent end",
    );
    let volume = Arg::new(alloc, "VOL")
        .help(VOLUME)
        .required(true)
        .num_args(1usize..);
    let serve = Command::new(alloc, "serve").about(
        "Mounts volumes in files, and serves sessions of lines over TCP",
    );
    let serve = with_stay(alloc, with_numbers(alloc, serve)?)?.arg(until_stdin_ends)?;
    with_log_options(alloc, serve)?.arg(volume)
}

/// The first of some words that names no volume that can be mounted, whatever the others name, and what is wrong with it.
fn wrong_word(alloc: Global, words: &[&str]) -> Result<Option<WrongWord>, AllocError> {
    for word in words {
        if let Some(fault) = word_fault(alloc, word)? {
            let word = String::from_str(alloc, word)?;
            return Ok(Some(WrongWord { word, fault }));
        }
    }
    Ok(None)
}

/// A fault of the words that name volumes, with the word that it is of. Sizes are judged once each word spells a volume, so the first word that is
/// wrong is at fault there.
fn fault(alloc: Global, words: &[&str], fault: VolumeFault) -> Result<ServeFault, AllocError> {
    let wrong = match fault {
        VolumeFault::Word(before) => wrong_word(alloc, words.get(before..).unwrap_or(&[]))?,
        VolumeFault::Slot(_, Errno::Invalid) => wrong_word(alloc, words)?,
        VolumeFault::Slot(..) | VolumeFault::Memory(_) => None,
    };
    Ok(ServeFault::Volume(fault, wrong))
}

/// The volumes that words name.
fn volumes_of(alloc: Global, words: &[&str]) -> Result<Vec<Volume>, ServeFault> {
    match volumes(alloc, words) {
        Ok(volumes) => Ok(volumes),
        Err(found) => Err(fault(alloc, words, found)?),
    }
}

/// Whether logs are recovered, and sealed: a service that stays always does so.
fn recovers(serve: &ArgMatches) -> bool {
    serve.get_flag("recover") || serve.get_str("listen").is_some()
}

/// Where to listen.
fn address_of(alloc: Global, serve: &ArgMatches) -> Result<Address, ServeFault> {
    let Some(word) = serve.get_str("listen") else {
        return Ok(Address::Port(serve.get_one("port").unwrap_or(0)));
    };
    match Address::spelled(alloc, word)? {
        Some(address) => Ok(address),
        None => Err(ServeFault::Address(String::from_str(alloc, word)?)),
    }
}

/// How many sessions are served: with no end where none is said.
fn sessions_of(serve: &ArgMatches) -> u64 {
    match serve.get_one::<u32>("sessions") {
        Some(count) => u64::from(count),
        None => u64::MAX,
    }
}

/// How the logs are to be kept.
fn logs_of(serve: &ArgMatches) -> LogRules {
    if recovers(serve) {
        LogRules::Sealed {
            take_any: serve.get_flag("any-log"),
        }
    } else {
        LogRules::Bare {
            are_cut: serve.get_flag("cut-logs"),
            have_barrier: serve.get_flag("barrier"),
        }
    }
}

/// What is told of options that do nothing more than what is done without them.
fn note_of(serve: &ArgMatches) -> Option<&'static str> {
    if !recovers(serve) {
        return None;
    }
    match (serve.get_flag("cut-logs"), serve.get_flag("barrier")) {
        (true, true) => Some("note: --cut-logs and --barrier do nothing more beside --recover"),
        (true, false) => Some("note: --cut-logs does nothing more beside --recover"),
        (false, true) => Some("note: --barrier does nothing more beside --recover"),
        (false, false) => None,
    }
}

impl Options {
    /// The options of a service, if that is asked.
    pub fn of(alloc: Global, matches: &ArgMatches) -> Result<Option<Self>, ServeFault> {
        let Some(serve) = matches.subcommand_matches("serve") else {
            return Ok(None);
        };
        let words = serve.get_strs("VOL").unwrap_or(&[]);
        Ok(Some(Options {
            address: address_of(alloc, serve)?,
            workers: usize::from(serve.get_one::<u8>("workers").unwrap_or(2)),
            sessions: sessions_of(serve),
            patience: serve.get_one("idle"),
            until_stdin_ends: serve.get_flag("until-stdin-ends"),
            logs: logs_of(serve),
            note: note_of(serve),
            volumes: volumes_of(alloc, words)?,
        }))
    }
}
