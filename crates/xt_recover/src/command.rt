//! Recovery as a command: the log may be emptied after it, what was recovered is printed, and a status answered.

ghost use Rattle.std.specs.Prelude.{◌≡◌, ◌⊎◌, ℕ, IfErr, IfOk, IfSome, MatchResult, OnOk, Bool, false, true};
ghost use Rattle.std.specs.Io.KnownBytes.{Appends};
ghost use Rattle.xt_recover.specs.Reading.{IsStoppedAt};
ghost use Rattle.xt_recover.specs.FilesCommand.{AreEmptied, IsOlderFirst, IsStoppedFilesAt};
ghost use Rattle.xt_recover.specs.FilesGathering.{IfBoth, IsOfWanted};
ghost use Rattle.xt_recover.specs.Recovering.{IsCounted, IsCountedFiles, IsWhy, IsWhyFiles, TellsRecovered, TellsRecoveredFiles, is_home_fault};
ghost use Rattle.xt_recover.specs.declared.recovering.FilesRecovered.{FilesRecovered as AFilesRecovered};
ghost use Rattle.xt_recover.specs.declared.recovering.Recovered.{Recovered as ARecovered};
ghost use Rattle.xt_recover.specs.Command.{IfNotEmptied, IfStopped, IsCommandStatus, IsOutcomePrinted, fault_line, recovered_lines, rest_lines};

use crate::files::{Files, Wanted};
use crate::gather::LogFault;
use crate::recovering::{FilesRecovered, RecoverFault, Recovered, recover, recover_files};
use std::alloc::Global;
use std::io::{self, Read, Write};
use thiserror::Error;
use xt_dev::home::HomeDevice;
use xt_window::way::Which;

/// A log that can be emptied, once what it says stands on the home device.
pub trait Emptied: Drop {
    /// Whether it was emptied, and made safe.
    ghost is_emptied: { Self → Bool };

    /// Takes all its bytes away, and makes that safe. After an error it has all of them or none.
    fn empty(&mut self) -> io::Result<()>
        ensures { OnOk result (is_emptied self.new ≡ true) };
}

/// Why a home device was not recovered, or its log not emptied. Recovery can be run again.
#[derive(Debug, Drop, Error)]
pub enum CommandFault {
    /// The log was not read, or the home device not written, to its end. The log is as it was.
    #[error("{0}")]
    Recover(RecoverFault),
    /// The home device was recovered, and the log was not emptied.
    #[error("the log was not emptied: {0}")]
    Empty(io::Error),
}

/// Lays what a log says over a home device, and makes it safe. Then the log is emptied, where that is asked, and never earlier. `log` is what
/// `reader` reads.
pub fn recover_log<L: Read, C: Emptied, H: HomeDevice>(
    alloc: Global,
    reader: &mut L,
    home: &mut H,
    log: &mut C,
    is_cut: bool,
) -> Result<Recovered, CommandFault>
    ensures recovered { OnOk result (IfSome (L.remaining reader.old) (λ bytes. TellsRecovered bytes (H.home_tells home.old) (H.home_taken home.old) (H.home_tells home.new) (H.home_taken home.new))) }
    ensures counts { IfOk result (λ found. IfSome (L.remaining reader.old) (λ bytes. IsCounted bytes found)) }
    ensures why { IfErr result (λ fault. IfStopped fault (λ found. IfSome (L.remaining reader.old) (λ bytes. IsWhy bytes found))) }
    ensures untouched { IfErr result (λ fault. IfStopped fault (λ found. is_home_fault found ≡ false → home.new ≡ home.old)) }
    ensures order { IfErr result (λ fault. IfStopped fault (λ _. log.new ≡ log.old)) }
    ensures before { IfErr result (λ fault. IfNotEmptied fault (IfSome (L.remaining reader.old) (λ bytes. TellsRecovered bytes (H.home_tells home.old) (H.home_taken home.old) (H.home_tells home.new) (H.home_taken home.new)))) }
    ensures safe { (log.new ≡ log.old) ⊎ IfSome (L.remaining reader.old) (λ bytes. TellsRecovered bytes (H.home_tells home.old) (H.home_taken home.old) (H.home_tells home.new) (H.home_taken home.new)) }
    ensures emptied { OnOk result (is_cut ≡ true → C.is_emptied log.new ≡ true) }
    ensures uncut { is_cut ≡ false → log.new ≡ log.old }
{
    match recover(alloc, reader, home) {
        Ok(recovered) => empty_log(log, is_cut, recovered),
        Err(fault) => Err(CommandFault::Recover(fault)),
    }
}

/// What is asked of a recovery from a log in two files.
#[derive(Clone, Copy, Debug, PartialEq, Eq)]
pub struct Asked {
    /// What a header has to say, so that its log is laid; None where any is.
    pub wanted: Option<Wanted>,
    /// Whether the log is emptied then.
    pub is_cut: bool,
}

/// Lays what a log in two files says over a home device, and makes it safe. Then both files are emptied, where that is asked, the older one first,
/// and the other only once that is done. `logs` are what `readers` read.
pub fn recover_log_files<L: Read, C: Emptied, H: HomeDevice>(
    alloc: Global,
    readers: &mut Files<L>,
    home: &mut H,
    logs: &mut Files<C>,
    asked: Asked,
) -> Result<FilesRecovered, CommandFault>
    ensures recovered { OnOk result (IfBoth (L.remaining readers.old.one) (L.remaining readers.old.other) (λ one other. TellsRecoveredFiles one other (H.home_tells home.old) (H.home_taken home.old) (H.home_tells home.new) (H.home_taken home.new))) }
    ensures counts { IfOk result (λ found. IfBoth (L.remaining readers.old.one) (L.remaining readers.old.other) (λ one other. IsCountedFiles one other found)) }
    ensures wanted { OnOk result (IfBoth (L.remaining readers.old.one) (L.remaining readers.old.other) (λ one other. IsOfWanted asked.wanted one other)) }
    ensures why { IfErr result (λ fault. IfStopped fault (λ found. IfBoth (L.remaining readers.old.one) (L.remaining readers.old.other) (λ one other. IsWhyFiles one other found))) }
    ensures untouched { IfErr result (λ fault. IfStopped fault (λ found. is_home_fault found ≡ false → home.new ≡ home.old)) }
    ensures order { IfErr result (λ fault. IfStopped fault (λ _. logs.new ≡ logs.old)) }
    ensures before { IfErr result (λ fault. IfNotEmptied fault (IfBoth (L.remaining readers.old.one) (L.remaining readers.old.other) (λ one other. TellsRecoveredFiles one other (H.home_tells home.old) (H.home_taken home.old) (H.home_tells home.new) (H.home_taken home.new)))) }
    ensures safe { (logs.new ≡ logs.old) ⊎ IfBoth (L.remaining readers.old.one) (L.remaining readers.old.other) (λ one other. TellsRecoveredFiles one other (H.home_tells home.old) (H.home_taken home.old) (H.home_tells home.new) (H.home_taken home.new)) }
    ensures emptied { OnOk result (asked.is_cut ≡ true → AreEmptied C.is_emptied logs.new) }
    // Of the files that were read, the newer one is as it was unless the older one was emptied.
    ensures older { IfErr result (λ fault. IfNotEmptied fault (IfBoth (L.remaining readers.old.one) (L.remaining readers.old.other) (λ one other. (found : AFilesRecovered) × IsCountedFiles one other found × IsOlderFirst C.is_emptied found.older logs.old logs.new))) }
    ensures uncut { asked.is_cut ≡ false → logs.new ≡ logs.old }
{
    match recover_files(alloc, readers, asked.wanted, home) {
        Ok(found) => empty_files(logs, asked.is_cut, found),
        Err(why) => Err(CommandFault::Recover(why)),
    }
}

/// Empties the files of what was recovered, where that is asked.
fn empty_files<C: Emptied>(
    logs: &mut Files<C>,
    is_cut: bool,
    found: FilesRecovered,
) -> Result<FilesRecovered, CommandFault>
    ensures same { IfOk result (λ told. told ≡ found) }
    ensures fault { IfErr result (λ fault. IfStopped fault (λ _. ⊥)) }
    ensures emptied { OnOk result (is_cut ≡ true → AreEmptied C.is_emptied logs.new) }
    ensures older { IsOlderFirst C.is_emptied found.older logs.old logs.new }
    ensures uncut { is_cut ≡ false → logs.new ≡ logs.old }
{
    if !is_cut {
        return Ok(found);
    }
    let emptied = match found.older {
        Which::One => empty_both(&mut logs.one, &mut logs.other),
        Which::Other => empty_both(&mut logs.other, &mut logs.one),
    };
    match emptied {
        Ok(()) => Ok(found),
        Err(error) => Err(CommandFault::Empty(error)),
    }
}

/// Empties the older file, and then the newer one. Were that one emptied first, and the power lost, older texts alone would be laid over what newer
/// ones gave.
fn empty_both<C: Emptied>(older: &mut C, newer: &mut C) -> io::Result<()>
    ensures emptied { OnOk result ((C.is_emptied older.new ≡ true) × (C.is_emptied newer.new ≡ true)) }
    ensures order { (newer.new ≡ newer.old) ⊎ (C.is_emptied older.new ≡ true) }
{
    older.empty()?;
    newer.empty()
}

/// Empties the log of what was recovered, where that is asked.
fn empty_log<C: Emptied>(
    log: &mut C,
    is_cut: bool,
    recovered: Recovered,
) -> Result<Recovered, CommandFault>
    ensures same { IfOk result (λ found. found ≡ recovered) }
    ensures fault { IfErr result (λ fault. IfStopped fault (λ _. ⊥)) }
    ensures emptied { OnOk result (is_cut ≡ true → C.is_emptied log.new ≡ true) }
    ensures uncut { is_cut ≡ false → log.new ≡ log.old }
{
    if !is_cut {
        return Ok(recovered);
    }
    match log.empty() {
        Ok(()) => Ok(recovered),
        Err(error) => Err(CommandFault::Empty(error)),
    }
}

/// Recovers a home device from a log, which is emptied after that where it is asked, and prints what was recovered. Answers the exit status: 0; 3
/// after `fault OFFSET` of a log with a field that breaks its rule, or with texts that say different sizes of a block, and then the home device and
/// the log are as they were; 1 after another fault, which is printed on `err`.
#[tactic(auto, using(crate::proofs::GatherLemmas::broken_stops, crate::proofs::GatherLemmas::mixed_stops))]
pub fn run<L: Read, C: Emptied, H: HomeDevice, W: Write, E: Write>(
    alloc: Global,
    reader: &mut L,
    home: &mut H,
    log: &mut C,
    is_cut: bool,
    writer: &mut W,
    err: &mut E,
) -> u8
    ensures status { IsCommandStatus result }
    ensures recovered { result ≡ 0 → IfSome (L.remaining reader.old) (λ bytes. TellsRecovered bytes (H.home_tells home.old) (H.home_taken home.old) (H.home_tells home.new) (H.home_taken home.new)) }
    ensures printed { result ≡ 0 → (found : ARecovered) × Appends (W.contents writer.old) (W.contents writer.new) (recovered_lines found) × IfSome (L.remaining reader.old) (λ bytes. IsCounted bytes found) }
    ensures emptied { result ≡ 0 → is_cut ≡ true → C.is_emptied log.new ≡ true }
    ensures broken { result ≡ 3 → (offset : ℕ) × Appends (W.contents writer.old) (W.contents writer.new) (fault_line offset) × IfSome (L.remaining reader.old) (IsStoppedAt offset) }
    ensures untouched { result ≡ 3 → (home.new ≡ home.old) × (log.new ≡ log.old) }
    ensures safe { (log.new ≡ log.old) ⊎ IfSome (L.remaining reader.old) (λ bytes. TellsRecovered bytes (H.home_tells home.old) (H.home_taken home.old) (H.home_tells home.new) (H.home_taken home.new)) }
    ensures uncut { is_cut ≡ false → log.new ≡ log.old }
{
    let end = recover_log(alloc, reader, home, log, is_cut);
    print_end(writer, err, &end)
}

/// Recovers a home device from a log in two files, and prints what was recovered, as `run` does. The exit status is 3 too after `fault OFFSET` of a
/// sealed log, counted in the file that has the fault, and after `fault 0` of two files that are no log; 1 where it is another volume's.
pub fn run_files<L: Read, C: Emptied, H: HomeDevice, W: Write, E: Write>(
    alloc: Global,
    readers: &mut Files<L>,
    home: &mut H,
    logs: &mut Files<C>,
    asked: Asked,
    writer: &mut W,
    err: &mut E,
) -> u8
    ensures status { IsCommandStatus result }
    ensures recovered { result ≡ 0 → IfBoth (L.remaining readers.old.one) (L.remaining readers.old.other) (λ one other. TellsRecoveredFiles one other (H.home_tells home.old) (H.home_taken home.old) (H.home_tells home.new) (H.home_taken home.new)) }
    ensures printed { result ≡ 0 → (found : AFilesRecovered) × Appends (W.contents writer.old) (W.contents writer.new) (recovered_lines found.recovered) × IfBoth (L.remaining readers.old.one) (L.remaining readers.old.other) (λ one other. IsCountedFiles one other found) }
    ensures emptied { result ≡ 0 → asked.is_cut ≡ true → AreEmptied C.is_emptied logs.new }
    ensures wanted { result ≡ 0 → IfBoth (L.remaining readers.old.one) (L.remaining readers.old.other) (λ one other. IsOfWanted asked.wanted one other) }
    ensures broken { result ≡ 3 → (offset : ℕ) × Appends (W.contents writer.old) (W.contents writer.new) (fault_line offset) × IfBoth (L.remaining readers.old.one) (L.remaining readers.old.other) (λ one other. IsStoppedFilesAt offset one other) }
    ensures untouched { result ≡ 3 → (home.new ≡ home.old) × (logs.new ≡ logs.old) }
    ensures safe { (logs.new ≡ logs.old) ⊎ IfBoth (L.remaining readers.old.one) (L.remaining readers.old.other) (λ one other. TellsRecoveredFiles one other (H.home_tells home.old) (H.home_taken home.old) (H.home_tells home.new) (H.home_taken home.new)) }
    ensures uncut { asked.is_cut ≡ false → logs.new ≡ logs.old }
{
    let end = match recover_log_files(alloc, readers, home, logs, asked) {
        Ok(found) => Ok(found.recovered),
        Err(fault) => Err(fault),
    };
    print_end(writer, err, &end)
}

/// Prints how recovery ended: the exit status.
fn print_end<W: Write, E: Write>(
    writer: &mut W,
    err: &mut E,
    end: &Result<Recovered, CommandFault>,
) -> u8
    ensures { IsOutcomePrinted end.now (W.contents writer.old) (W.contents writer.new) result }
{
    match end {
        Ok(recovered) => status_printed(err, print_recovered(writer, recovered), 0),
        Err(CommandFault::Recover(RecoverFault::Log(LogFault::Broken(offset)))) => {
            status_printed(err, print_stopped(writer, *offset), 3)
        }
        Err(CommandFault::Recover(RecoverFault::Log(LogFault::Mixed(start)))) => {
            status_printed(err, print_stopped(writer, *start), 3)
        }
        Err(CommandFault::Recover(RecoverFault::Log(LogFault::Rotten(_, place)))) => {
            status_printed(err, print_stopped(writer, *place), 3)
        }
        Err(CommandFault::Recover(RecoverFault::Log(LogFault::Strange))) => {
            status_printed(err, print_stopped(writer, 0), 3)
        }
        Err(fault) => {
            let _ = writeln!(err, "fault: {fault}");
            1
        }
    }
}

/// The status where all was printed; else 1, and what failed is told.
fn status_printed<E: Write>(err: &mut E, printed: io::Result<()>, status: u8) -> u8
    ensures { MatchResult printed (λ _. result ≡ status) (λ _. result ≡ 1) }
{
    match printed {
        Ok(()) => status,
        Err(error) => {
            let _ = writeln!(err, "fault: {error}");
            1
        }
    }
}

/// Prints what was recovered, and how many bytes stand behind the last whole text, if there are any.
fn print_recovered<W: Write>(writer: &mut W, recovered: &Recovered) -> io::Result<()>
    ensures { OnOk result (Appends (W.contents writer.old) (W.contents writer.new) (recovered_lines recovered.now)) }
{
    let Recovered {
        texts,
        blocks,
        rest,
    } = *recovered;
    writeln!(writer, "recovered {texts} texts {blocks} blocks")?;
    print_rest(writer, rest)?;
    writer.flush()
}

/// Prints how many bytes stand behind the last whole text, if there are any.
fn print_rest<W: Write>(writer: &mut W, rest: u64) -> io::Result<()>
    ensures { OnOk result (Appends (W.contents writer.old) (W.contents writer.new) (rest_lines rest)) }
{
    if rest == 0 {
        return Ok(());
    }
    writeln!(writer, "rest {rest}")
}

/// Prints where a field breaks its rule, or a text begins that says another size of a block than those before it, counted in the log from 0.
fn print_stopped<W: Write>(writer: &mut W, offset: u64) -> io::Result<()>
    ensures { OnOk result (Appends (W.contents writer.old) (W.contents writer.new) (fault_line offset)) }
{
    writeln!(writer, "fault {offset}")?;
    writer.flush()
}
