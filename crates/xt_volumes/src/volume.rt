//! Volumes as the command line names them.

ghost use Rattle.std.specs.Prelude.{◌≡◌, ◌≤◌, ◌<◌, ◌+◌, ◌↔◌, ◌≢◌, ◌^◌, ◌⊎◌, ℕ, List, All, IsErrOf, IsSomeAnd, None, Ok, Some, IfOk, IfSome, IsTrue, OnOk, false, length, true, vec_len};
ghost use Rattle.std.specs.Fmt.{decimal};
ghost use Rattle.std.specs.List.{insert};
ghost use Rattle.std.specs.String.{string_bytes};
ghost use Rattle.xt_volumes.specs.declared.fault.VolumeFault.TheVariants.{Slot as SlotRefused, Word as BadWord};
ghost use Rattle.xt_base.specs.declared.steps.Errno.{Errno as AnErrno};
ghost use Rattle.xt_base.specs.declared.steps.Errno.TheVariants.{Busy, Invalid};
ghost use Rattle.xt_base.specs.declared.sizes.TheConstants.{SLOTS};
ghost use Rattle.xt_volumes.specs.declared.volume.Volume.{Volume as AVolume};
ghost use Rattle.xt_volumes.specs.Volumes.{ArePartsOf, AreAscending, HasNoColon, HasSizes, IsCut, IsFileName, IsFirstBad, IsNamed, IsRefused, IsTaken, SaysSize, Spells, SpellsNone, WordParts, last_part, parted, place_of, spelled_as, text_of, texts_of};

use crate::fault::VolumeFault;
use std::alloc::{AllocError, Global};
use xt_base::form::is_block_size;
use xt_base::names::Slot;
use xt_base::sizes::{BLOCK_BYTES, LEAST_LOG, MOST_BLOCKS, MOST_LOG};
use xt_base::steps::Errno;

/// A volume: its slot, the sizes of its log in bytes and of its home device in blocks, the bytes of a block, and the names of the files
/// of both.
#[derive(Debug, Drop)]
pub struct Volume {
    pub slot: Slot,
    pub log_bytes: u32,
    pub blocks: u64,
    pub size: u32,
    pub home: String,
    pub log: String,
}

/// The parts of a word: a slot, bytes, blocks, the names of two files, and the size of a block where that is said.
pub(crate) type Parts<'a> = (&'a str, &'a str, &'a str, &'a str, &'a str, Option<&'a str>);

/// What stands in a text before its first colon, and what stands behind it.
fn cut<'a>(text: &'a str) -> Option<(&'a str, &'a str)>
    ensures cut { (xs ys : List ℕ) → HasNoColon xs → text.now ≡ parted xs ys → IsSomeAnd result (λ halves. (halves.0.now ≡ xs) × (halves.1.now ≡ ys)) }
    ensures whole { HasNoColon text.now → result ≡ None }
    ensures apart { IfSome result (λ halves. HasNoColon halves.0.now × (text.now ≡ parted halves.0.now halves.1.now)) }
    ensures uncut { result ≡ None → HasNoColon text.now }
{
    text.split_once(':')
}

/// The name of a log's file, and the size of a block where a colon stands between.
fn log_and_size<'a>(text: &'a str) -> (&'a str, Option<&'a str>)
    ensures said { (xs ys : List ℕ) → HasNoColon xs → text.now ≡ parted xs ys → (result.0.now ≡ xs) × IsSomeAnd result.1 (λ size. size.now ≡ ys) }
    ensures unsaid { HasNoColon text.now → (result.0.now ≡ text.now) × (result.1 ≡ None) }
    ensures apart { HasNoColon result.0.now × (text.now ≡ last_part result.0.now (text_of result.1)) }
{
    match cut(text) {
        Some((log, size)) => (log, Some(size)),
        None => (text, None),
    }
}

/// The parts of a word between its first five colons, of which the last may lack, if it has so many.
pub(crate) fn parts<'a>(word: &'a str) -> Option<Parts<'a>>
    ensures parts { (v : AVolume) → Spells word.now v → IsSomeAnd result (ArePartsOf word.now v) }
    ensures cut { IfSome result (λ found. IsCut word.now (texts_of found)) }
    ensures uncut { result ≡ None → (p : WordParts) → IsCut word.now p → ⊥ }
{
    let (slot, rest) = cut(word)?;
    let (log_bytes, rest) = cut(rest)?;
    let (blocks, rest) = cut(rest)?;
    let (home, rest) = cut(rest)?;
    let (log, size) = log_and_size(rest);
    Some((slot, log_bytes, blocks, home, log, size))
}

/// The slot that a word spells, loosely: a sign and leading zeros are let through.
pub(crate) fn slot_of(word: &str) -> Option<Slot>
    ensures { (n : ℕ) → n < SLOTS → word.now ≡ decimal n → result ≡ Some n }
{
    let index: u8 = word.parse().ok()?;
    Slot::new(index)
}

/// The bytes that a word spells, loosely.
pub(crate) fn bytes_of(word: &str) -> Option<u32>
    ensures { (n : ℕ) → n < 2 ^ 32 → word.now ≡ decimal n → result ≡ Some n }
{
    word.parse().ok()
}

/// The blocks that a word spells, loosely.
pub(crate) fn blocks_of(word: &str) -> Option<u64>
    ensures { (n : ℕ) → n < 2 ^ 64 → word.now ≡ decimal n → result ≡ Some n }
{
    word.parse().ok()
}

/// The size of a block that a word spells, loosely, where there is one; else 4,096.
pub(crate) fn size_of(word: Option<&str>) -> Option<u32>
    ensures { (n : ℕ) → n < 2 ^ 32 → SaysSize n word.entry → result ≡ Some n }
{
    match word {
        Some(word) => bytes_of(word),
        None => Some(BLOCK_BYTES as u32),
    }
}

/// The numbers that three words spell, loosely.
fn numbers(slot: &str, log_bytes: &str, blocks: &str) -> Option<(Slot, u32, u64)>
    ensures { (s l b : ℕ) → s < SLOTS → l < 2 ^ 32 → b < 2 ^ 64 → slot.now ≡ decimal s → log_bytes.now ≡ decimal l → blocks.now ≡ decimal b → result ≡ Some (s, l, b) }
{
    let slot = slot_of(slot)?;
    let log_bytes = bytes_of(log_bytes)?;
    let blocks = blocks_of(blocks)?;
    Some((slot, log_bytes, blocks))
}

/// Whether a word may be the name of a file here: no colon may stand in it.
fn is_file_name(name: &str) -> bool
    ensures { IsTrue result ↔ IsFileName name.now }
{
    !name.is_empty() && !name.contains(':')
}

impl Volume {
    /// The volume that a word spells, `SLOT:LOGBYTES:BLOCKS:HOMEFILE:LOGFILE`, which may end in `:SIZE`, with the numbers as in the line
    /// `mount`; None where it spells none. The one error is want of memory.
    pub(crate) fn read(alloc: Global, word: &str) -> Result<Option<Self>, AllocError>
        ensures spelled { IfOk result (λ found. IfSome found (Spells word.now)) }
        ensures none { result ≡ Ok None → SpellsNone word.now }
    {
        let Some((slot, log_bytes, blocks, home, log, said)) = parts(word) else {
            return Ok(None);
        };
        if !is_file_name(home) || !is_file_name(log) {
            return Ok(None);
        }
        let Some((slot, log_bytes, blocks)) = numbers(slot, log_bytes, blocks) else {
            return Ok(None);
        };
        let Some(size) = size_of(said) else {
            return Ok(None);
        };
        let volume = Volume {
            slot,
            log_bytes,
            blocks,
            size,
            home: String::from_str(alloc, home)?,
            log: String::from_str(alloc, log)?,
        };
        if !volume.is_spelled(alloc, said.is_some(), word)? {
            return Ok(None);
        }
        Ok(Some(volume))
    }

    /// The volume that a word spells, or the fault that it spells none, which says how many words stand before it.
    fn parse(alloc: Global, before: usize, word: &str) -> Result<Self, VolumeFault>
        ensures spelled { IfOk result (Spells word.now) }
        ensures bad { (number : ℕ) → IsErrOf result (BadWord number) → (number ≡ before) × SpellsNone word.now }
        ensures read { (slot : ℕ) (errno : AnErrno) → IsErrOf result (SlotRefused slot errno) → ⊥ }
    {
        match Volume::read(alloc, word) {
            Ok(Some(volume)) => Ok(volume),
            Ok(None) => Err(VolumeFault::Word(before)),
            Err(refused) => Err(VolumeFault::Memory(refused)),
        }
    }

    /// The word of it that leaves the size of a block out.
    fn short_word(&self, alloc: Global) -> Result<String, AllocError>
        ensures { IfOk result (λ word. string_bytes word ≡ spelled_as false self.now) }
    {
        let index = self.slot.index();
        let (log_bytes, blocks) = (self.log_bytes, self.blocks);
        let (home, log) = (self.home.as_str(), self.log.as_str());
        format!(in alloc; "{index}:{log_bytes}:{blocks}:{home}:{log}")
    }

    /// The word of it that says the size of a block.
    fn long_word(&self, alloc: Global) -> Result<String, AllocError>
        ensures { IfOk result (λ word. string_bytes word ≡ spelled_as true self.now) }
    {
        let index = self.slot.index();
        let (log_bytes, blocks, size) = (self.log_bytes, self.blocks, self.size);
        let (home, log) = (self.home.as_str(), self.log.as_str());
        format!(in alloc; "{index}:{log_bytes}:{blocks}:{home}:{log}:{size}")
    }

    /// The one word of it that says the size of a block, or the one that leaves it out.
    fn word(&self, alloc: Global, says_size: bool) -> Result<String, AllocError>
        ensures { IfOk result (λ word. string_bytes word ≡ spelled_as says_size self.now) }
    {
        if says_size {
            self.long_word(alloc)
        } else {
            self.short_word(alloc)
        }
    }

    /// Whether a word is the one of it that says the size of a block, or the one that leaves it out.
    fn is_spelled(&self, alloc: Global, says_size: bool, word: &str) -> Result<bool, AllocError>
        ensures { IfOk result (λ is. IsTrue is ↔ (word.now ≡ spelled_as says_size self.now)) }
    {
        let spelled = self.word(alloc, says_size)?;
        Ok(spelled.as_str() == word)
    }

    /// Whether a mount of its sizes is not refused.
    fn has_sizes(&self) -> bool
        ensures { IsTrue result ↔ HasSizes self.now }
    {
        self.log_bytes >= LEAST_LOG
            && self.log_bytes <= MOST_LOG
            && self.blocks >= 1
            && self.blocks <= MOST_BLOCKS
            && is_block_size(self.size as usize)
    }
}

/// How many of some volumes stand before the place of a slot.
fn place(volumes: &[Volume], slot: Slot) -> usize
    ensures value { result ≡ place_of slot volumes.now }
    ensures range { result ≤ length volumes.now }
{
    volumes
        .iter()
        .take_while(|volume| volume.slot.index() < slot.index())
        .count()
}

/// Why a volume can't be mounted beside the one that stands at its place, if it can't: a slot that is taken is told before sizes, as by a
/// mount.
fn refused(volume: &Volume, there: Option<&Volume>) -> Result<(), VolumeFault>
    ensures good { (number : ℕ) → IsErrOf result (BadWord number) → ⊥ }
    ensures sizes { OnOk result (HasSizes volume.now) }
    ensures apart { OnOk result (IfSome there.entry (λ other. other.now.slot ≢ volume.now.slot)) }
    ensures busy { (slot : ℕ) → IsErrOf result (SlotRefused slot Busy) → IsSomeAnd there.entry (λ other. other.now.slot ≡ volume.now.slot) }
    ensures invalid { (slot : ℕ) → IsErrOf result (SlotRefused slot Invalid) → (HasSizes volume.now → ⊥) × IfSome there.entry (λ other. other.now.slot ≢ volume.now.slot) }
    ensures errno { (slot : ℕ) (errno : AnErrno) → IsErrOf result (SlotRefused slot errno) → (slot ≡ volume.now.slot) × ((errno ≡ Busy) ⊎ (errno ≡ Invalid)) }
{
    if let Some(other) = there
        && other.slot == volume.slot
    {
        return Err(VolumeFault::Slot(volume.slot, Errno::Busy));
    }
    if !volume.has_sizes() {
        return Err(VolumeFault::Slot(volume.slot, Errno::Invalid));
    }
    Ok(())
}

/// Puts a volume at its place among others that ascend by slot, unless it can't be mounted beside them.
fn add(volumes: &mut Vec<Volume>, volume: Volume) -> Result<(), VolumeFault>
    requires ascending { AreAscending volumes.old.items }
    ensures good { (number : ℕ) → IsErrOf result (BadWord number) → ⊥ }
    ensures refused { (slot : ℕ) (errno : AnErrno) → IsErrOf result (SlotRefused slot errno) → (slot ≡ volume.slot) × IsRefused volumes.old.items volume errno }
    ensures sizes { OnOk result (HasSizes volume) }
    ensures ascending { OnOk result (AreAscending volumes.new.items) }
    ensures len { OnOk result (vec_len volumes.new ≡ vec_len volumes.old + 1) }
    ensures added { OnOk result (volumes.new.items ≡ insert volumes.old.items (place_of volume.slot volumes.old.items) volume) }
{
    let place = place(volumes, volume.slot);
    refused(&volume, volumes.get(place))?;
    let Ok(()) = volumes.insert(place, volume) else {
        return Err(VolumeFault::Memory(AllocError));
    };
    Ok(())
}

/// The volumes that words spell, in the order of the words.
fn parse_all(alloc: Global, words: &[&str]) -> Result<Vec<Volume>, VolumeFault>
    ensures named { IfOk result (λ spelled. All (IsNamed words.now) spelled.items) }
    ensures count { IfOk result (λ spelled. vec_len spelled ≡ length words.now) }
    ensures bad { (number : ℕ) → IsErrOf result (BadWord number) → IsFirstBad words.now number }
    ensures read { (slot : ℕ) (errno : AnErrno) → IsErrOf result (SlotRefused slot errno) → ⊥ }
{
    let mut spelled = Vec::new(alloc);
    for word in words {
        let volume = Volume::parse(alloc, spelled.len(), word)?;
        let Ok(()) = spelled.push(volume) else {
            return Err(VolumeFault::Memory(AllocError));
        };
    }
    Ok(spelled)
}

/// The volumes that words spell, ascending by slot: no slot is there twice, and each has sizes that a mount may have. A word that spells
/// none is told before all else, the first one, and then the first volume that can't be mounted beside those before it: one whose slot is
/// taken as `Busy`, whatever its sizes are, and another whose sizes are wrong as `Invalid`.
pub fn volumes(alloc: Global, words: &[&str]) -> Result<Vec<Volume>, VolumeFault>
    ensures named { IfOk result (λ volumes. All (IsNamed words.now) volumes.items) }
    ensures count { IfOk result (λ volumes. vec_len volumes ≡ length words.now) }
    ensures sizes { IfOk result (λ volumes. All HasSizes volumes.items) }
    ensures ascending { IfOk result (λ volumes. AreAscending volumes.items) }
    ensures bad { (number : ℕ) → IsErrOf result (BadWord number) → IsFirstBad words.now number }
    ensures refused { (slot : ℕ) (errno : AnErrno) → IsErrOf result (SlotRefused slot errno) → IsTaken words.now slot errno }
{
    let mut volumes = Vec::new(alloc);
    for volume in parse_all(alloc, words)? {
        add(&mut volumes, volume)?;
    }
    Ok(volumes)
}
