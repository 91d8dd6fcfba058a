//! What the texts of a log say.

ghost use Rattle.std.specs.BTreeMap.{keys};
ghost use Rattle.std.specs.Prelude.{◌≡◌, IfErr, IfOk, List, Some, slice_get, ℕ};
ghost use Rattle.xt_c_log.specs.Texts.{IsOf, IsOfFiles, IsWithBlocks};
ghost use Rattle.xt_c_log.specs.Told.{IsBlock, IsBlockOf, IsFaultTold, IsLaid, IsPlace, IsRefused, IsTold, number_of};
ghost use Rattle.xt_recover.specs.FilesGathering.{IsWhyLogFiles};
ghost use Rattle.xt_recover.specs.Gathering.{IsWhyLog};
ghost use Rattle.xt_recover.specs.declared.gather.LogFault.TheVariants.{Memory};

use crate::reading::size_of;
use crate::status::{INVALID, NO_MEMORY};
use crate::words::LogWords;
use std::alloc::{AllocError, Global};
use std::marker::Model;
use xt_recover::files::Files;
use xt_recover::gather::{Gathered as GatheredTexts, LogCounts, LogFault, gather};
use xt_recover::gather_files::{FilesGathered, gather_files};
use xt_recover::overlay::Overlay;
use xt_window::way::Which;

/// What a gathering returns where a field of a text breaks its rule.
const BROKEN: i32 = 1;

/// What it returns where a text says something else of the size of a block than those before it.
const MIXED: i32 = 2;

/// What it returns where a file of a sealed log has something else in its middle than what was written and made safe.
const ROTTEN: i32 = 3;

/// What it returns where two files are no log.
const STRANGE: i32 = 4;

/// What the texts of a log say of each block, and which blocks these are, ascending.
#[derive(Drop)]
pub struct Gathered {
    overlay: Overlay,
    blocks: Vec<u64>,
    counts: LogCounts,
}

impl Model for Gathered {
    ghost use Rattle.xt_c_log.specs.Texts.{Texts};
    ghost use Rattle.xt_recover.specs.Overlaid.{overlaid};

    ghost Value = { Texts };

    ghost view = { λ g. record { laid = overlaid g.overlay; blocks = g.blocks.items; counts = g.counts } };
}

/// The blocks of which something is said, ascending.
fn blocks_of(alloc: Global, overlay: &Overlay) -> Result<Vec<u64>, AllocError>
    ensures { IfOk result (λ blocks. blocks.items ≡ keys overlay.now.contents) }
{
    overlay.contents.keys().copied().collect(alloc)
}

/// What texts say, with the blocks of which they say something.
fn with_blocks(alloc: Global, texts: GatheredTexts) -> Result<Gathered, LogFault>
    ensures ok { IfOk result (λ gathered. IsWithBlocks texts gathered) }
    ensures memory { IfErr result (λ fault. fault ≡ Memory) }
{
    let GatheredTexts { overlay, counts } = texts;
    let Ok(blocks) = blocks_of(alloc, &overlay) else {
        return Err(LogFault::Memory);
    };
    Ok(Gathered {
        overlay,
        blocks,
        counts,
    })
}

/// Gathers the texts of a log in one file.
pub fn gather_texts(alloc: Global, log: &[u8]) -> Result<Gathered, LogFault>
    ensures ok { IfOk result (λ gathered. IsOf log.now gathered) }
    ensures why { IfErr result (λ fault. IsWhyLog log.now fault) }
{
    let mut rest = log;
    let texts = gather(alloc, &mut rest)?;
    with_blocks(alloc, texts)
}

/// Gathers the texts of a log in two files, and says which of them is the older one.
pub fn gather_both(alloc: Global, one: &[u8], other: &[u8]) -> Result<(Gathered, Which), LogFault>
    ensures ok { IfOk result (λ found. IsOfFiles one.now other.now found.1 found.0) }
    ensures why { IfErr result (λ fault. IsWhyLogFiles one.now other.now fault) }
{
    let mut files = Files { one, other };
    let FilesGathered { gathered, older } = gather_files(alloc, &mut files, None)?;
    Ok((with_blocks(alloc, gathered)?, older))
}

/// The number of a file.
fn number_of(file: Which) -> u64
    ensures { result ≡ number_of file }
{
    match file {
        Which::One => 0,
        Which::Other => 1,
    }
}

impl Gathered {
    /// What is told of a log that was gathered, beside what stands in these words; and which of its files is the older one.
    pub fn told(&self, older: Which, before: &LogWords) -> LogWords
        ensures { IsTold result before.now older self.now }
    {
        LogWords {
            texts: self.counts.texts,
            rest: self.counts.rest,
            blocks: self.blocks.len() as u64,
            size: size_of(self.overlay.size()),
            at: before.at,
            file: before.file,
            older: number_of(older),
        }
    }
}

/// Writes at which byte of which file a log is broken.
fn put_place(file: Which, at: u64, told: &mut LogWords)
    ensures { IsPlace file at told.new told.old }
{
    told.at = at;
    told.file = number_of(file);
}

/// Writes what is told of a log that could not be gathered, and what is to be returned: 1, and the field at the byte that is written breaks its rule; 2,
/// and the text that begins there says something else of the size of a block than those before it; ENOMEM.
pub fn put_fault(fault: LogFault, told: &mut LogWords) -> i32
    ensures { (log : List ℕ) → IsWhyLog log fault → IsRefused log result told.new told.old }
{
    match fault {
        LogFault::Broken(at) => {
            put_place(Which::One, at, told);
            BROKEN
        }
        LogFault::Mixed(at) => {
            put_place(Which::One, at, told);
            MIXED
        }
        _ => NO_MEMORY,
    }
}

/// The same of a log in two files. 3, and the texts of the file that is written end at that byte, though not as a loss of power leaves them; 4, and the
/// files are no log.
pub fn put_files_fault(fault: LogFault, told: &mut LogWords) -> i32
    ensures { IsFaultTold fault result told.new told.old }
{
    match fault {
        LogFault::Broken(at) => {
            put_place(Which::One, at, told);
            BROKEN
        }
        LogFault::Mixed(at) => {
            put_place(Which::One, at, told);
            MIXED
        }
        LogFault::Rotten(file, at) => {
            put_place(file, at, told);
            ROTTEN
        }
        LogFault::Strange => {
            put_place(Which::One, 0, told);
            STRANGE
        }
        _ => NO_MEMORY,
    }
}

/// The block at a place.
fn block_at(blocks: &[u64], index: usize) -> Option<u64>
    ensures { result ≡ slice_get blocks.now index }
{
    blocks.get(index).copied()
}

/// Writes the block at a place.
fn put_block(found: Option<u64>, block: &mut u64) -> i32
    ensures { IsBlock found result block.new block.old }
{
    match found {
        Some(number) => {
            *block = number;
            0
        }
        None => INVALID,
    }
}

impl Gathered {
    /// Writes the block at a place, from 0, of those of which something is said; else EINVAL.
    pub fn block(&self, index: u64, block: &mut u64) -> i32
        ensures { IsBlockOf index (Some self.now) result block.new block.old }
    {
        put_block(block_at(&self.blocks, index as usize), block)
    }

    /// Lays what the texts say of a block over its bytes, which are as many as a block has by the texts; else EINVAL.
    pub fn lay(&self, block: u64, content: &mut [u8]) -> i32
        ensures { IsLaid block (Some self.now) result content.new content.old }
    {
        if content.len() != self.overlay.block_bytes() {
            return INVALID;
        }
        self.overlay.lay_over(block, content);
        0
    }
}
