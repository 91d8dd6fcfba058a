//! The texts of a log, gathered.

ghost use Rattle.std.specs.Prelude.{◌≡◌, ◌<◌, All, IfErr, IfOk, IfSome, None, OnOk, false, length, true};
ghost use Rattle.xt_base.specs.Form.{is_size};
ghost use Rattle.xt_ckpt.specs.Grammar.{entries};
ghost use Rattle.xt_ckpt.specs.Items.{HasForm};
ghost use Rattle.xt_recover.specs.Gathering.{for_text, IsGathered, IsItemWithin, IsWhyLog, IsWhyNotLaid, SaysAlike, SaysOther, is_of_log};
ghost use Rattle.xt_recover.specs.Overlaid.{nothing, overlaid, with_items};
ghost use Rattle.xt_window.specs.Window.{ahead, IsTied};

use crate::files::Whose;
use crate::overlay::Overlay;
use std::alloc::{AllocError, Global};
use std::io::Read;
use thiserror::Error;
use xt_ckpt::{Checkpoint, Rooms};
use xt_window::fault::LogFault as WindowFault;
use xt_window::way::Which;
use xt_window::window::{Found, PIECE_BYTES, Window};

/// Why a log was not gathered.
#[derive(Clone, Copy, Debug, PartialEq, Eq, Error)]
pub enum LogFault {
    /// The field at this offset of the log breaks its rule. No crash leaves such a log.
    #[error("fault {0}")]
    Broken(u64),
    /// The text that begins at this offset of the log says something else of the size of a block than those before it. No volume writes such a log.
    #[error("fault {0}")]
    Mixed(u64),
    /// The sealed texts of this file end at this offset of it, and not as a loss of power ends them: behind the newest text, a later one with its
    /// seal stands, or more bytes than a text and a seal have; or the older file's texts do not end with the seal behind which the newer one goes on;
    /// or a text says something else of the size of a block than those before it.
    #[error("fault {1}")]
    Rotten(Which, u64),
    /// The two files are no log: what begins them is neither two headers, one next to the other in one life, nor a header beside a file that has no
    /// text.
    #[error("fault 0")]
    Strange,
    /// The log is another volume's, by its newer header.
    #[error("{0}")]
    Foreign(Whose),
    /// Memory was refused.
    #[error("out of memory")]
    Memory,
    /// The reader failed.
    #[error("the log could not be read")]
    Read,
}

/// How many texts a log has, and how many bytes behind them, which are no text yet.
#[derive(Clone, Copy, Debug, PartialEq, Eq)]
pub struct LogCounts {
    pub texts: u64,
    pub rest: u64,
}

/// What the texts of a log say, laid one over another, and how many they are.
#[derive(Drop)]
pub struct Gathered {
    pub overlay: Overlay,
    pub counts: LogCounts,
}

/// Gathers the texts of a log, from the first on, up to bytes that are no text yet, as a crash leaves them. What the first one says of the size of a
/// block, the others have to say.
pub fn gather<L: Read>(alloc: Global, log: &mut L) -> Result<Gathered, LogFault>
    ensures gathered { IfOk result (λ gathered. IfSome (L.remaining log.old) (λ bytes. IsGathered bytes gathered.counts (overlaid gathered.overlay))) }
    ensures why { IfErr result (λ fault. IfSome (L.remaining log.old) (λ bytes. IsWhyLog bytes fault)) }
{
    match vec![in alloc; 0u8; PIECE_BYTES] {
        Ok(mut piece) => gather_from(alloc, log, &mut piece),
        Err(AllocError) => Err(LogFault::Memory),
    }
}

/// The same, by way of room for a piece.
fn gather_from<L: Read>(alloc: Global, log: &mut L, piece: &mut [u8]) -> Result<Gathered, LogFault>
    requires room { 0 < length piece.old }
    ensures gathered { IfOk result (λ gathered. IfSome (L.remaining log.old) (λ bytes. IsGathered bytes gathered.counts (overlaid gathered.overlay))) }
    ensures why { IfErr result (λ fault. IfSome (L.remaining log.old) (λ bytes. IsWhyLog bytes fault)) }
{
    let mut window = Window::new(alloc, u64::MAX);
    let mut overlay = Overlay::new(alloc, None);
    match gather_by_pieces(alloc, log, piece, &mut window, &mut overlay) {
        Ok(counts) => Ok(Gathered { overlay, counts }),
        Err(fault) => Err(fault),
    }
}

/// The same, by way of a window of which nothing is taken, over an overlay that has nothing.
#[tactic(auto, using(crate::proofs::GatherLemmas::why_other))]
pub(crate) fn gather_by_pieces<L: Read>(
    alloc: Global,
    log: &mut L,
    piece: &mut [u8],
    window: &mut Window,
    overlay: &mut Overlay,
) -> Result<LogCounts, LogFault>
    requires room { 0 < length piece.old }
    requires first { window.old.offset ≡ 0 }
    requires ended { IsTied window.old (L.remaining log.old) }
    requires none { overlaid overlay.old ≡ nothing None }
    ensures gathered { IfOk result (λ counts. IfSome (ahead window.old (L.remaining log.old)) (λ bytes. IsGathered bytes counts (overlaid overlay.new))) }
    ensures why { IfErr result (λ fault. IfSome (ahead window.old (L.remaining log.old)) (λ bytes. IsWhyLog bytes fault)) }
{
    let mut rooms = Rooms::new(alloc);
    for texts in 0..u64::MAX {
        let offset = window.offset();
        match window.next(log, piece, &mut rooms) {
            Ok(Found::Text(checkpoint)) => {
                lay_text(alloc, overlay, texts, offset, &checkpoint)?;
                rooms.give_back(checkpoint);
            }
            Ok(Found::Rest(rest)) => return Ok(LogCounts { texts, rest }),
            Ok(Found::Fault(offset)) => return Err(LogFault::Broken(offset)),
            Err(fault) => return Err(why_unread(&fault)),
        }
    }
    Err(LogFault::Read)
}

/// Why a window read no further. A log of 2^64 bytes, which nothing has, counts as one that cannot be read.
pub(crate) fn why_unread(fault: &WindowFault) -> LogFault
    ensures { is_of_log result ≡ false }
{
    match fault {
        WindowFault::TooLong | WindowFault::Io(_) => LogFault::Read,
        WindowFault::Memory(_) => LogFault::Memory,
    }
}

/// Lays the items of a text that begins at an offset, behind so many texts.
#[tactic(auto, using(crate::proofs::GatherLemmas::within_text))]
pub(crate) fn lay_text(
    alloc: Global,
    overlay: &mut Overlay,
    texts: u64,
    offset: u64,
    checkpoint: &Checkpoint,
) -> Result<(), LogFault>
    requires one_of { is_size checkpoint.now.size ≡ true }
    requires form { All HasForm checkpoint.now.items.items }
    requires within { All (IsItemWithin checkpoint.now.size) checkpoint.now.items.items }
    ensures alike { OnOk result (SaysAlike texts checkpoint.now.size (overlaid overlay.old)) }
    ensures laid { OnOk result (overlaid overlay.new ≡ with_items (entries checkpoint.now.items.items) (for_text texts checkpoint.now.size (overlaid overlay.old))) }
    ensures why { IfErr result (IsWhyNotLaid texts checkpoint.now.size (overlaid overlay.old) offset) }
{
    if !agrees_on_size(alloc, overlay, texts, checkpoint.size) {
        return Err(LogFault::Mixed(offset));
    }
    match overlay.lay(&checkpoint.items) {
        Ok(()) => Ok(()),
        Err(AllocError) => Err(LogFault::Memory),
    }
}

/// Whether a text behind so many says of the size of a block what they say. The first one says it for all: the overlay is made for it.
fn agrees_on_size(alloc: Global, overlay: &mut Overlay, texts: u64, size: Option<u32>) -> bool
    requires one_of { is_size size ≡ true }
    ensures alike { result ≡ true → SaysAlike texts size (overlaid overlay.old) }
    ensures overlay { result ≡ true → overlaid overlay.new ≡ for_text texts size (overlaid overlay.old) }
    ensures other { result ≡ false → SaysOther texts size (overlaid overlay.old) }
{
    if texts == 0 {
        *overlay = Overlay::new(alloc, size);
        return true;
    }
    size == overlay.size()
}
