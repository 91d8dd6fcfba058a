//! The program `xth`: transactions of mounted volumes, step by step.
#![tactic(auto)]

mod dumping;
mod noting;
mod recovery;
mod script;
mod serve;
mod streams;

use clap::error::ErrorKind;
use clap::{Arg, ArgAction, ArgMatches, Command};
use dumping::{DumpAsked, dump_file, logdump_command};
use recovery::files::recover_files;
use recovery::options::{Asked, recover_command};
use recovery::volumes::{empty_logs, recover_volumes};
use script::script_on_streams;
use serve::ending::Ended;
use serve::fault::ServeFault;
use serve::files::{LogRules, Opened, look, open};
use serve::held::Held;
use serve::listening::{Address, listen, take_away};
use serve::options::{Options, serve_command};
use serve::running::{Orders, serve};
use std::alloc::{AllocError, Global};
use std::io::{IsTerminal, Stderr, Stdin};
use std::process::ExitCode;
use streams::fill;
use xt_base::names::Slot;
use xt_cell::reserve::Blanks;
use xt_offline::ScriptFault;
use xt_volumes::Volume;

/// How many bytes of output are written at once.
const OUTPUT_BYTES: usize = 65_536;

/// The slots, spelled as in the lines of a script.
const SLOTS: &[&str] = &[
    "0", "1", "2", "3", "4", "5", "6", "7", "8", "9", "10", "11", "12", "13", "14", "15",
];

/// The command line of a script.
fn script_command<'a>(alloc: Global) -> Command<'a> {
    Command::new(alloc, "script")
        .about(
            "Runs the steps on standard input, one on a line, and prints each reply with its offers",
        )
        .override_usage("xth script [OPTIONS] < FILE")
}

/// The command line of a script that is struck to one slot.
fn strike_command<'a>(alloc: Global) -> Result<Command<'a>, AllocError> {
    let slot = Arg::new(alloc, "SLOT")
        .help("A slot, 0 to 15")
        .required(true)
        .value_parser(SLOTS);
    Command::new(alloc, "strike")
        .about("The same with the steps of one slot alone")
        .override_usage("xth strike [OPTIONS] <SLOT> < FILE")
        .arg(slot)
}

/// The option that asks for what is said on a terminal of a fault.
fn verbose<'a>(alloc: Global) -> Arg<'a> {
    Arg::new(alloc, "verbose")
        .short('v')
        .long("verbose")
        .help("Says of a fault what is said on a terminal: a second line with the reason")
        .action(ArgAction::SetTrue)
        .global(true)
}

/// The command line.
fn command<'a>(alloc: Global) -> Result<Command<'a>, AllocError> {
    Command::new(alloc, "xth")
        .version("0.1.0")
        .about("Transactions over the blocks of a volume, step by step")
        .bin_name("xth")?
        .override_usage("xth <COMMAND>")
        .subcommand_required(true)
        .arg(verbose(alloc))?
        .subcommand(script_command(alloc))?
        .subcommand(strike_command(alloc)?)?
        .subcommand(logdump_command(alloc)?)?
        .subcommand(recover_command(alloc)?)?
        .subcommand(serve_command(alloc)?)
}

/// The slot to which a script is struck, if it is.
fn only_slot(matches: &ArgMatches) -> Option<Slot> {
    let strike = matches.subcommand_matches("strike")?;
    Slot::new(strike.get_one("SLOT")?)
}

/// Standard error, if it is a terminal: a long input is told of there, and never in a pipe or a file.
fn terminal(rt: &HostRuntime) -> Option<Stderr> {
    let err = rt.stderr();
    if err.is_terminal() { Some(err) } else { None }
}

/// Standard error, if reasons are told there: it is a terminal, or `--verbose` asks for them.
fn details(rt: &HostRuntime, matches: &ArgMatches) -> Option<Stderr> {
    if matches.get_flag("verbose") {
        Some(rt.stderr())
    } else {
        terminal(rt)
    }
}

/// A service that is made ready.
struct Ready {
    orders: Orders,
    /// Where it listens.
    address: Address,
    opened: Vec<Opened>,
    /// The volumes, also those that are not served, with their files locked for as long as the service runs.
    held: Vec<Held>,
    /// Whether their logs are emptied at the end.
    cuts_logs: bool,
}

/// What is left to do.
enum Next {
    /// Nothing: this is the status.
    End(u8),
    /// Volumes are to be served.
    Serve(Ready),
}

/// The files of volumes that are served: as they are locked, and as devices.
type Files = (Vec<Held>, Vec<Opened>);

/// Makes those files of volumes that are missing, locks all, makes what was made safe, recovers what is to be recovered, and opens all. What is
/// locked is noted, up to a fault too.
fn make_and_open(
    rt: &HostRuntime,
    alloc: Global,
    volumes: Vec<Volume>,
    logs: LogRules,
    held: &mut Vec<Held>,
) -> Result<Vec<Opened>, ServeFault> {
    held.reserve(volumes.len())?;
    for volume in volumes {
        held.push(Held::take(rt, alloc, volume, logs)?)?;
    }
    for one in held.iter() {
        one.sync_made(rt, alloc)?;
    }
    if let LogRules::Sealed { take_any } = logs {
        recover_volumes(rt, alloc, held.as_mut_slice(), take_any)?;
    }
    open(rt, alloc, held.as_slice(), logs)
}

/// Opens the files of volumes. Where one can't be opened, no file that was made for that is left.
fn open_files(
    rt: &HostRuntime,
    alloc: Global,
    volumes: Vec<Volume>,
    logs: LogRules,
) -> Result<Files, ServeFault> {
    let mut held = Vec::new(alloc);
    match make_and_open(rt, alloc, volumes, logs, &mut held) {
        Ok(opened) => Ok((held, opened)),
        Err(fault) => {
            for one in &held {
                one.remove_made(rt);
            }
            Err(fault)
        }
    }
}

/// Standard input, where its end is to end the service.
fn ending_input(rt: &HostRuntime, options: &Options) -> Option<Stdin> {
    if options.until_stdin_ends {
        Some(rt.stdin())
    } else {
        None
    }
}

/// Makes ready what a service needs: the port first, and files only where all can be devices.
fn make_ready(rt: &HostRuntime, options: Options) -> Result<Next, ServeFault> {
    let alloc = rt.alloc();
    if let Some(note) = options.note {
        let _ = eprintln!(rt; "{note}");
    }
    look(rt, alloc, &options.volumes, options.logs)?;
    let (listening, place) = listen(rt, alloc, &options.address)?;
    listening.set_nonblocking(options.until_stdin_ends)?;
    let input = ending_input(rt, &options);
    let logs = options.logs;
    let (held, opened) = match open_files(rt, alloc, options.volumes, logs) {
        Ok(files) => files,
        Err(fault) => {
            take_away(rt, &options.address);
            return Err(fault);
        }
    };
    let orders = Orders {
        listening,
        place,
        workers: options.workers,
        sessions: options.sessions,
        patience: options.patience,
        input,
    };
    Ok(Next::Serve(Ready {
        orders,
        address: options.address,
        opened,
        held,
        cuts_logs: logs.are_emptied(),
    }))
}

/// Recovers a volume, or makes ready what a service needs, if that is asked.
fn with_volumes(rt: &HostRuntime, matches: &ArgMatches) -> Result<Option<Next>, ServeFault> {
    if let Some(asked) = Asked::of(matches) {
        return Ok(Some(Next::End(recover_files(rt, asked)?)));
    }
    match Options::of(rt.alloc(), matches)? {
        Some(options) => Ok(Some(make_ready(rt, options)?)),
        None => Ok(None),
    }
}

/// Tells of a fault: the status.
fn fail(rt: &HostRuntime, fault: &ServeFault) -> u8 {
    let _ = eprintln!(rt; "{fault}");
    1
}

/// The same, with the reason, where it is told.
fn fail_with_reason(rt: &HostRuntime, matches: &ArgMatches, fault: &ServeFault) -> u8 {
    let status = fail(rt, fault);
    if let Some(mut err) = details(rt, matches) {
        let _ = fault.explain(&mut err);
    }
    status
}

/// Does what the words of a right command line say, but for a service, which is made ready.
fn obey(rt: &HostRuntime, matches: &ArgMatches) -> Result<Next, ScriptFault> {
    match with_volumes(rt, matches) {
        Ok(Some(next)) => return Ok(next),
        Ok(None) => {}
        Err(fault) => return Ok(Next::End(fail_with_reason(rt, matches, &fault))),
    }
    let details = details(rt, matches);
    let status = match DumpAsked::of(matches) {
        Some(asked) => dump_file(rt, details, asked)?,
        None => script_on_streams(rt, details, only_slot(matches))?,
    };
    Ok(Next::End(status))
}

/// What a command line that is none prints, and its status.
fn refuse(rt: &HostRuntime, error: &clap::Error) -> Result<u8, ScriptFault> {
    if error.kind() == ErrorKind::OutOfMemory {
        return Err(ScriptFault::Memory(AllocError));
    }
    error.print(rt)?;
    Ok(error.exit_code() as u8)
}

/// Does what the words of the command line say, but for a service, which is made ready.
fn run(rt: &HostRuntime) -> Result<Next, ScriptFault> {
    let alloc = rt.alloc();
    let words: Vec<String> = std::env::args(rt)?.collect(alloc)?;
    match command(alloc)?.try_get_matches_from(words.as_slice()) {
        Ok(matches) => obey(rt, &matches),
        Err(error) => Ok(Next::End(refuse(rt, &error)?)),
    }
}

/// Does what is to be done at the end of a service: logs that are of no use any more are emptied, where that is asked. The status is 1 also where
/// a volume was not served.
fn close(rt: &HostRuntime, ended: &Ended, held: &[Held], cuts_logs: bool) -> u8 {
    let status = if cuts_logs {
        empty_logs(rt, ended, held)
    } else {
        ended.status
    };
    if held.iter().all(|one| one.is_served) {
        status
    } else {
        1
    }
}

fn main(rt: HostRuntime) -> ExitCode {
    let alloc = rt.alloc();
    let _fillers = match fill(&rt) {
        Ok(fillers) => fillers,
        Err(error) => {
            let _ = eprintln!(rt; "fault: /dev/null: {error}");
            return ExitCode::from(1);
        }
    };
    let ready = match run(&rt) {
        Ok(Next::Serve(ready)) => ready,
        Ok(Next::End(status)) => return ExitCode::from(status),
        Err(fault) => {
            let _ = eprintln!(rt; "{fault}");
            return ExitCode::from(fault.status());
        }
    };
    let Ready {
        orders,
        address,
        opened,
        held,
        cuts_logs,
    } = ready;
    let served = serve(rt, alloc, Blanks::new(), &orders, opened);
    take_away(&rt, &address);
    ExitCode::from(match served {
        Ok(ended) => close(&rt, &ended, &held, cuts_logs),
        Err(fault) => fail(&rt, &fault),
    })
}
