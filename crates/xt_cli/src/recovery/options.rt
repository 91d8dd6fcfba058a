//! What the command line says of a recovery.

use clap::{Arg, ArgAction, ArgMatches, Command};
use std::alloc::{AllocError, Global};
use xt_recover::files::Wanted;
use xt_volumes::header_name;

/// What is to be recovered: the files of a home device and of its log, and whether that is emptied afterwards.
#[derive(Clone, Copy, Debug)]
pub struct Asked<'a> {
    pub home: &'a str,
    pub log: &'a str,
    pub is_cut: bool,
    /// Whether it may be the log of another volume.
    pub takes_any: bool,
}

/// The command line of a recovery.
pub fn recover_command<'a>(alloc: Global) -> Result<Command<'a>, AllocError> {
    let home = Arg::new(alloc, "HOMEFILE")
        .help("The file of a home device; no service may run over it")
        .required(true);
    let log = Arg::new(alloc, "LOGFILE")
        .help("The file of its log; of a sealed log LOGFILE.1 is the second file, if it is there")
        .required(true);
    let cut = Arg::new(alloc, "cut")
        .long("cut")
        .help("Empties the log once all it says is safe on the home device")
        .action(ArgAction::SetTrue);
    let any_log = Arg::new(alloc, "any-log")
        .long("any-log")
        .help("Lays a log also where it tells the name of another volume")
        .action(ArgAction::SetTrue);
    Command::new(alloc, "recover")
        .about("Lays what a log says over a home device, after a crash")
        .arg(home)?
        .arg(log)?
        .arg(cut)?
        .arg(any_log)
}

impl<'a> Asked<'a> {
    /// What is asked of a recovery, if one is.
    pub fn of(matches: &ArgMatches<'a>) -> Option<Self> {
        let recover = matches.subcommand_matches("recover")?;
        Some(Asked {
            home: recover.get_str("HOMEFILE")?,
            log: recover.get_str("LOGFILE")?,
            is_cut: recover.get_flag("cut"),
            takes_any: recover.get_flag("any-log"),
        })
    }

    /// What the header of the log has to tell, so that it is laid.
    pub fn wanted(&self) -> Option<Wanted> {
        if self.takes_any {
            return None;
        }
        Some(Wanted {
            name: header_name(self.home),
            block_size: None,
            log_bytes: None,
        })
    }
}
