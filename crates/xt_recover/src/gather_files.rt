//! The texts of a log in two files, gathered.

ghost use Rattle.std.specs.Prelude.{◌≡◌, ◌<◌, ◌≤◌, All, IfErr, IfOk, IfSome, List, None, OnOk, Option, Some, [], drop, false, length, true, ℕ};
ghost use Rattle.xt_base.specs.Form.{is_size};
ghost use Rattle.xt_ckpt.specs.Grammar.{Entry, entries};
ghost use Rattle.xt_ckpt.specs.Items.{HasForm};
ghost use Rattle.xt_recover.specs.FilesGathering.{AreGathered, AreLookedAt, IfBoth, IsBegun, IsGatheredAs, IsMet, IsNewerRead, IsOfWanted, IsOlderRead, IsOpened, IsPast, IsReadSoFar, IsReadUp, IsUnmet, IsWhyLinked, IsWhyLogFiles, IsWhyNewer, IsWhyNotBehind, IsWhyNotTorn, IsWhyOlder, IsWhySealed};
ghost use Rattle.xt_recover.specs.FilesRead.{AreLinked, EndsTorn};
ghost use Rattle.xt_recover.specs.Gathering.{for_text, IsGathered, IsItemWithin, IsWhyLog, SaysAlike, is_of_log};
ghost use Rattle.xt_recover.specs.declared.gather.LogFault.TheVariants.{Rotten};
ghost use Rattle.xt_recover.specs.Overlaid.{nothing, overlaid, with_items};
ghost use Rattle.xt_seal.specs.Headers.{head_bytes};
ghost use Rattle.xt_window.specs.Rest.{IsRest};
ghost use Rattle.xt_window.specs.declared.rest.Rest.TheVariants.{Torn};
ghost use Rattle.xt_window.specs.Start.{IsStartOf};
ghost use Rattle.xt_window.specs.Ways.{HasBegun, IsNextHeader, IsWay, newest_of as newest, older_of as older};
ghost use Rattle.xt_window.specs.Window.{ahead, IsTied};

use crate::files::{Files, Wanted, Whose};
use crate::gather::{Gathered, LogCounts, LogFault, gather_by_pieces, lay_text, why_unread};
use crate::overlay::Overlay;
use std::alloc::{AllocError, Global};
use std::io::Read;
use xt_ckpt::{Checkpoint, Rooms};
use xt_seal::{HEAD_BYTES, Header, SEAL_BYTES, Sealer};
use xt_window::rest::Rest;
use xt_window::start::Start;
use xt_window::way::{Begun, Way, Which, newest_of, older_of, way_of};
use xt_window::window::{PIECE_BYTES, Window};

/// What the texts of a log in two files say, and which of these is the older one: it is to be emptied first.
#[derive(Drop)]
pub struct FilesGathered {
    pub gathered: Gathered,
    pub older: Which,
}

/// A file of a log, and how it begins: where with a header, that is taken, and nothing else is.
#[derive(Drop)]
struct Opened {
    window: Window,
    start: Start,
}

/// A file of a sealed log, which is read behind its header.
#[derive(Drop)]
struct Source {
    which: Which,
    window: Window,
    header: Header,
    sealer: Sealer,
    /// The seal behind which it is read.
    last: [u8; SEAL_BYTES],
}

impl Source {
    /// A file of which the header is taken.
    fn new(which: Which, window: Window, begun: Begun) -> Self
        ensures which { result.which ≡ which }
        ensures window { result.window ≡ window }
        ensures header { result.header ≡ begun.header }
        ensures begun { (bytes : List ℕ) (left : Option (List ℕ)) → HasBegun bytes begun → IsPast 64 bytes window left → IsBegun bytes result left }
    {
        let Begun { header, sealer } = begun;
        let (bytes, _) = header.begin();
        let mut last = [0; SEAL_BYTES];
        last.copy_from_slice(&bytes[HEAD_BYTES..]);
        Source {
            which,
            window,
            header,
            sealer,
            last,
        }
    }

    /// Why a text is not one of the log, or not the last one: what stands where the next one is due.
    fn rotten(&self) -> LogFault
        ensures { result ≡ Rotten self.now.which self.now.window.offset }
    {
        LogFault::Rotten(self.which, self.window.offset())
    }
}

/// Gathers the texts of a log in two files: of a bare one, which the first file has, as `gather` does; of a sealed one, which may have its older
/// texts in either file, the older file's first. A log that is not as a loss of power leaves it is a fault, and so is one whose header does not say
/// what is wanted.
pub fn gather_files<L: Read>(
    alloc: Global,
    files: &mut Files<L>,
    wanted: Option<Wanted>,
) -> Result<FilesGathered, LogFault>
    ensures gathered { IfOk result (λ found. IfBoth (L.remaining files.old.one) (L.remaining files.old.other) (λ one other. AreGathered one other found.older found.gathered.counts (overlaid found.gathered.overlay))) }
    ensures wanted { OnOk result (IfBoth (L.remaining files.old.one) (L.remaining files.old.other) (λ one other. IsOfWanted wanted one other)) }
    ensures why { IfErr result (λ fault. IfBoth (L.remaining files.old.one) (L.remaining files.old.other) (λ one other. IsWhyLogFiles one other fault)) }
{
    match vec![in alloc; 0u8; PIECE_BYTES] {
        Ok(mut piece) => gather_files_from(alloc, files, wanted, &mut piece),
        Err(AllocError) => Err(LogFault::Memory),
    }
}

/// The same, by way of room for a piece.
fn gather_files_from<L: Read>(
    alloc: Global,
    files: &mut Files<L>,
    wanted: Option<Wanted>,
    piece: &mut [u8],
) -> Result<FilesGathered, LogFault>
    requires room { 0 < length piece.old }
    ensures gathered { IfOk result (λ found. IfBoth (L.remaining files.old.one) (L.remaining files.old.other) (λ one other. AreGathered one other found.older found.gathered.counts (overlaid found.gathered.overlay))) }
    ensures wanted { OnOk result (IfBoth (L.remaining files.old.one) (L.remaining files.old.other) (λ one other. IsOfWanted wanted one other)) }
    ensures why { IfErr result (λ fault. IfBoth (L.remaining files.old.one) (L.remaining files.old.other) (λ one other. IsWhyLogFiles one other fault)) }
{
    let Opened {
        window: one,
        start: first,
    } = open(alloc, &mut files.one, piece)?;
    let Opened {
        window: other,
        start: second,
    } = open(alloc, &mut files.other, piece)?;
    let way = look(&first, &second, wanted)?;
    let older = older_of(&way);
    let mut overlay = Overlay::new(alloc, None);
    let counts = gather_way(alloc, files, one, other, way, piece, &mut overlay)?;
    Ok(FilesGathered {
        gathered: Gathered { overlay, counts },
        older,
    })
}

/// In which way two files are read that begin so, where the newer header says what is wanted.
fn look(one: &Start, other: &Start, wanted: Option<Wanted>) -> Result<Way, LogFault>
    ensures way { IfOk result (λ way. (a b : List ℕ) → IsStartOf a one.now → IsStartOf b other.now → IsWay a b (Some way)) }
    ensures wanted { OnOk result ((a b : List ℕ) → IsStartOf a one.now → IsStartOf b other.now → IsOfWanted wanted a b) }
    ensures why { IfErr result (λ fault. (a b : List ℕ) → IsStartOf a one.now → IsStartOf b other.now → IsWhyLogFiles a b fault) }
{
    match way_of(one, other) {
        Some(way) => wanted_way(way, wanted),
        None => Err(LogFault::Strange),
    }
}

/// A file of which nothing is read yet, and how it begins.
fn open<L: Read>(alloc: Global, log: &mut L, piece: &mut [u8]) -> Result<Opened, LogFault>
    requires room { 0 < length piece.old }
    ensures opened { IfOk result (λ opened. IfSome (L.remaining log.old) (λ bytes. IsOpened bytes opened.start opened.window (L.remaining log.new))) }
    ensures tied { IfOk result (λ opened. IsTied opened.window (L.remaining log.new)) }
    ensures other { IfErr result (λ fault. is_of_log fault ≡ false) }
{
    let mut window = Window::new(alloc, u64::MAX);
    match window.start(log, piece) {
        Ok(start) => Ok(Opened { window, start }),
        Err(fault) => Err(why_unread(&fault)),
    }
}

/// The way, where the newer header says what is wanted.
fn wanted_way(way: Way, wanted: Option<Wanted>) -> Result<Way, LogFault>
    ensures way { IfOk result (λ found. found ≡ way) }
    ensures wanted { OnOk result ((a b : List ℕ) → IsWay a b (Some way) → IsOfWanted wanted a b) }
    ensures why { IfErr result (λ fault. (a b : List ℕ) → IsWay a b (Some way) → IsWhyLogFiles a b fault) }
{
    let Some(wanted) = wanted else {
        return Ok(way);
    };
    match newest_of(&way) {
        Some(found) => met(way, &wanted, &found),
        None => Ok(way),
    }
}

/// The way, where a header says what is wanted.
fn met(way: Way, wanted: &Wanted, found: &Header) -> Result<Way, LogFault>
    ensures way { IfOk result (λ met. met ≡ way) }
    ensures wanted { OnOk result (IsMet wanted.now found.now) }
    ensures why { IfErr result (λ fault. IsUnmet wanted.now found.now fault) }
{
    if wanted.is_met(found) {
        return Ok(way);
    }
    Err(LogFault::Foreign(Whose {
        found: *found,
        wanted: *wanted,
    }))
}

/// Gathers what the files have, over an overlay that has nothing.
fn gather_way<L: Read>(
    alloc: Global,
    files: &mut Files<L>,
    one: Window,
    other: Window,
    way: Way,
    piece: &mut [u8],
    overlay: &mut Overlay,
) -> Result<LogCounts, LogFault>
    requires room { 0 < length piece.old }
    requires ended { IsTied one (L.remaining files.old.one) }
    requires ended_too { IsTied other (L.remaining files.old.other) }
    requires none { overlaid overlay.old ≡ nothing None }
    ensures gathered { IfOk result (λ counts. (a b : List ℕ) → AreLookedAt way a b one other (L.remaining files.old.one) (L.remaining files.old.other) → AreGathered a b (older way) counts (overlaid overlay.new)) }
    ensures why { IfErr result (λ fault. (a b : List ℕ) → AreLookedAt way a b one other (L.remaining files.old.one) (L.remaining files.old.other) → IsWhyLogFiles a b fault) }
{
    match way {
        Way::Bare => gather_bare(alloc, &mut files.one, one, piece, overlay),
        Way::Linked(Which::One, first, second) => {
            let older = Source::new(Which::One, one, first);
            let newer = Source::new(Which::Other, other, second);
            gather_linked(
                alloc,
                &mut files.one,
                older,
                &mut files.other,
                newer,
                piece,
                overlay,
            )
        }
        Way::Linked(Which::Other, first, second) => {
            let older = Source::new(Which::Other, other, first);
            let newer = Source::new(Which::One, one, second);
            gather_linked(
                alloc,
                &mut files.other,
                older,
                &mut files.one,
                newer,
                piece,
                overlay,
            )
        }
        Way::Alone(Which::One, begun) => {
            let source = Source::new(Which::Other, other, begun);
            gather_alone(alloc, &mut files.other, source, piece, overlay)
        }
        Way::Alone(Which::Other, begun) => {
            let source = Source::new(Which::One, one, begun);
            gather_alone(alloc, &mut files.one, source, piece, overlay)
        }
        Way::Nothing => Ok(LogCounts { texts: 0, rest: 0 }),
    }
}

/// Gathers a log without seals, over an overlay that has nothing. Nothing of it is taken yet.
fn gather_bare<L: Read>(
    alloc: Global,
    log: &mut L,
    window: Window,
    piece: &mut [u8],
    overlay: &mut Overlay,
) -> Result<LogCounts, LogFault>
    requires room { 0 < length piece.old }
    requires ended { IsTied window (L.remaining log.old) }
    requires none { overlaid overlay.old ≡ nothing None }
    ensures gathered { IfOk result (λ counts. (bytes : List ℕ) → IsPast 0 bytes window (L.remaining log.old) → IsGathered bytes counts (overlaid overlay.new)) }
    ensures why { IfErr result (λ fault. (bytes : List ℕ) → IsPast 0 bytes window (L.remaining log.old) → IsWhyLog bytes fault) }
{
    let mut window = window;
    // `way_of` says so only of a file without a header, of which nothing is taken: its offsets are counted from 0.
    if window.offset() != 0 {
        return Err(LogFault::Read);
    }
    gather_by_pieces(alloc, log, piece, &mut window, overlay)
}

/// Gathers what one file has of which the header is taken, over an overlay that has nothing.
fn gather_alone<L: Read>(
    alloc: Global,
    log: &mut L,
    source: Source,
    piece: &mut [u8],
    overlay: &mut Overlay,
) -> Result<LogCounts, LogFault>
    requires room { 0 < length piece.old }
    requires ended { IsTied source.window (L.remaining log.old) }
    requires none { overlaid overlay.old ≡ nothing None }
    ensures gathered { IfOk result (λ counts. (bytes : List ℕ) → IsBegun bytes source (L.remaining log.old) → IsGatheredAs (λ size texts rest. EndsTorn size bytes source.header texts rest) counts (overlaid overlay.new)) }
    ensures why { IfErr result (λ fault. (bytes : List ℕ) → IsBegun bytes source (L.remaining log.old) → IsWhyNewer bytes [] None source.which source.header fault) }
{
    let mut source = source;
    lay_newer(alloc, log, piece, &mut source, overlay, 0)
}

/// Gathers what two files have of which the second goes on where the first ends, over an overlay that has nothing.
fn gather_linked<L: Read>(
    alloc: Global,
    log: &mut L,
    older: Source,
    next: &mut L,
    newer: Source,
    piece: &mut [u8],
    overlay: &mut Overlay,
) -> Result<LogCounts, LogFault>
    requires room { 0 < length piece.old }
    requires ended { IsTied older.window (L.remaining log.old) }
    requires ended_too { IsTied newer.window (L.remaining next.old) }
    requires none { overlaid overlay.old ≡ nothing None }
    ensures gathered { IfOk result (λ counts. (a b : List ℕ) → IsBegun a older (L.remaining log.old) → IsBegun b newer (L.remaining next.old) → IsNextHeader older.header newer.header → IsGatheredAs (λ size texts rest. AreLinked size a b texts rest) counts (overlaid overlay.new)) }
    ensures why { IfErr result (λ fault. (a b : List ℕ) → IsBegun a older (L.remaining log.old) → IsBegun b newer (L.remaining next.old) → IsNextHeader older.header newer.header → IsWhyLinked a b older.which newer.which fault) }
{
    let mut older = older;
    let mut newer = newer;
    let link = newer.header.link;
    let texts = lay_older(alloc, log, piece, &mut older, link, overlay)?;
    lay_newer(alloc, next, piece, &mut newer, overlay, texts)
}

/// Lays the texts of the older file, which end with the seal that the newer one's header names: how many they are.
fn lay_older<L: Read>(
    alloc: Global,
    log: &mut L,
    piece: &mut [u8],
    source: &mut Source,
    link: [u8; SEAL_BYTES],
    overlay: &mut Overlay,
) -> Result<u64, LogFault>
    requires room { 0 < length piece.old }
    requires ended { IsTied source.old.window (L.remaining log.old) }
    ensures read { IfOk result (λ texts. (bytes : List ℕ) → IsReadSoFar bytes [] source.old (L.remaining log.old) 0 (overlaid overlay.old) → IsOlderRead bytes source.old.header link texts (overlaid overlay.new)) }
    ensures why { IfErr result (λ fault. (bytes : List ℕ) → IsReadSoFar bytes [] source.old (L.remaining log.old) 0 (overlaid overlay.old) → IsWhyOlder bytes source.old.which source.old.header link fault) }
{
    let texts = lay_sealed(alloc, log, piece, source, overlay, 0)?;
    if source.last != link {
        return Err(source.rotten());
    }
    Ok(texts)
}

/// Lays the texts of the newer file, behind so many of the older one, and judges what stands behind them.
fn lay_newer<L: Read>(
    alloc: Global,
    log: &mut L,
    piece: &mut [u8],
    source: &mut Source,
    overlay: &mut Overlay,
    before: u64,
) -> Result<LogCounts, LogFault>
    requires room { 0 < length piece.old }
    requires ended { IsTied source.old.window (L.remaining log.old) }
    ensures read { IfOk result (λ counts. (bytes : List ℕ) (front : List (List Entry)) → IsReadSoFar bytes front source.old (L.remaining log.old) before (overlaid overlay.old) → IsNewerRead bytes front source.old.header before (overlaid overlay.old) counts (overlaid overlay.new)) }
    ensures why { IfErr result (λ fault. (bytes : List ℕ) (front : List (List Entry)) → IsReadSoFar bytes front source.old (L.remaining log.old) before (overlaid overlay.old) → IsWhyNewer bytes front (overlaid overlay.old).size source.old.which source.old.header fault) }
{
    let texts = lay_sealed(alloc, log, piece, source, overlay, before)?;
    let rest = torn_rest(alloc, log, piece, source)?;
    Ok(LogCounts { texts, rest })
}

/// How many bytes stand behind the last text, where a loss of power may have left them.
fn torn_rest<L: Read>(
    alloc: Global,
    log: &mut L,
    piece: &mut [u8],
    source: &mut Source,
) -> Result<u64, LogFault>
    requires room { 0 < length piece.old }
    requires ended { IsTied source.old.window (L.remaining log.old) }
    ensures torn { IfOk result (λ count. IfSome (ahead source.old.window (L.remaining log.old)) (λ rest. IsRest (head_bytes source.old.header) rest (Torn count))) }
    ensures why { IfErr result (λ fault. IfSome (ahead source.old.window (L.remaining log.old)) (λ rest. IsWhyNotTorn (head_bytes source.old.header) rest (Rotten source.old.which source.old.window.offset) fault)) }
{
    let rotten = source.rotten();
    let mut rooms = Rooms::new(alloc);
    match source.window.rest(log, piece, &mut rooms, &source.header) {
        Ok(Rest::Torn(rest)) => Ok(rest),
        Ok(Rest::TooLong | Rest::Later) => Err(rotten),
        Err(fault) => Err(why_unread(&fault)),
    }
}

/// Lays the texts of a file behind so many others, up to the first place where no text with its seal stands: how many are laid then.
fn lay_sealed<L: Read>(
    alloc: Global,
    log: &mut L,
    piece: &mut [u8],
    source: &mut Source,
    overlay: &mut Overlay,
    before: u64,
) -> Result<u64, LogFault>
    requires room { 0 < length piece.old }
    requires ended { IsTied source.old.window (L.remaining log.old) }
    ensures read { IfOk result (λ texts. (bytes : List ℕ) (front : List (List Entry)) → IsReadSoFar bytes front source.old (L.remaining log.old) before (overlaid overlay.old) → IsReadUp bytes front source.old source.new (L.remaining log.new) before texts (overlaid overlay.old) (overlaid overlay.new)) }
    ensures tied { OnOk result (IsTied source.new.window (L.remaining log.new)) }
    ensures which { OnOk result (source.new.which ≡ source.old.which) }
    ensures header { OnOk result (source.new.header ≡ source.old.header) }
    ensures why { IfErr result (λ fault. (bytes : List ℕ) (front : List (List Entry)) → IsReadSoFar bytes front source.old (L.remaining log.old) before (overlaid overlay.old) → IsWhySealed bytes front (overlaid overlay.old).size source.old.which source.old.header fault) }
{
    let mut rooms = Rooms::new(alloc);
    for texts in before..u64::MAX {
        let rotten = source.rotten();
        match source
            .window
            .next_sealed(log, piece, &mut rooms, &mut source.sealer)
        {
            Ok(Some(text)) => {
                lay_behind(alloc, overlay, texts, &text.checkpoint, rotten)?;
                source.last.copy_from_slice(&text.seal);
                rooms.give_back(text.checkpoint);
            }
            Ok(None) => return Ok(texts),
            Err(fault) => return Err(why_unread(&fault)),
        }
    }
    Err(LogFault::Read)
}

/// Lays the items of a text behind so many texts. The fault that is told is where it says something else of the size of a block than they do.
fn lay_behind(
    alloc: Global,
    overlay: &mut Overlay,
    texts: u64,
    checkpoint: &Checkpoint,
    rotten: LogFault,
) -> Result<(), LogFault>
    requires one_of { is_size checkpoint.now.size ≡ true }
    requires form { All HasForm checkpoint.now.items.items }
    requires within { All (IsItemWithin checkpoint.now.size) checkpoint.now.items.items }
    ensures alike { OnOk result (SaysAlike texts checkpoint.now.size (overlaid overlay.old)) }
    ensures laid { OnOk result (overlaid overlay.new ≡ with_items (entries checkpoint.now.items.items) (for_text texts checkpoint.now.size (overlaid overlay.old))) }
    ensures why { IfErr result (IsWhyNotBehind texts checkpoint.now.size (overlaid overlay.old) rotten) }
{
    match lay_text(alloc, overlay, texts, 0, checkpoint) {
        Ok(()) => Ok(()),
        Err(LogFault::Mixed(_)) => Err(rotten),
        Err(fault) => Err(fault),
    }
}
