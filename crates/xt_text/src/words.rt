//! The words of a line, read: numbers with their letters, names of jobs, and words that stand for a choice.
//! Each gives a value in its one spelling alone.

ghost use Rattle.std.specs.List.{position_or_len};
ghost use Rattle.std.specs.Prelude.{◌≡◌, ◌==◌, ◌<◌, ◌^◌, ◌∷◌, [], IfErr, IfOk};
ghost use Rattle.std.specs.Str.{bytes_eq};
ghost use Rattle.xt_text.specs.LineReading.{before, behind, kind_of, lettered, name_of, perm_of, sync_of, u32_of};
ghost use Rattle.xt_text.specs.Lines.{IsName};
ghost use Rattle.xt_text.specs.Reading.{Gives, GivesAs, below, number_of};
ghost use Rattle.xt_text.specs.declared.bad_line.BadLine.TheVariants.{Spelling};

use crate::bad_line::BadLine;
use crate::numbers::{below, below_before, next_of, number_before, number_of};
use xt_base::names::{Block, CkptNo, JobKind, JobName, Life, Slot, TransNo, Worker};
use xt_base::sizes::{SLOTS, WORKERS};

/// What stands between the words of a line.
pub const BLANK: u8 = b' ';

/// Whether a word is spelled so. Words are short, so their bytes are compared one by one, which costs no call.
#[inline(always)]
pub(crate) fn is_word(word: &[u8], spelled: &[u8]) -> bool
    ensures { result ≡ bytes_eq word.now spelled.now }
{
    if word.len() != spelled.len() {
        return false;
    }
    for at in 0..spelled.len() {
        if word[at] != spelled[at] {
            return false;
        }
    }
    true
}

/// The place of the first separator; the length of a text that has none.
fn place_of(text: &[u8], separator: u8) -> usize
    ensures { result ≡ position_or_len (λ c. c == separator) text.now }
{
    text.iter().take_while(|c| **c != separator).count()
}

/// What stands before the first separator of a text, all of it where there is none, and what stands behind that.
#[tactic(auto, using(std::proofs::lemmas::List::take_rest, std::proofs::lemmas::List::take_all, std::proofs::lemmas::List::drop_all))]
pub(crate) fn cut(text: &[u8], separator: u8) -> (&[u8], &[u8])
    ensures before { result.0.now ≡ before separator text.now }
    ensures behind { result.1.now ≡ behind separator text.now }
{
    let at = place_of(text, separator);
    if at < text.len() {
        (&text[..at], &text[at + 1..])
    } else {
        (text, &text[text.len()..])
    }
}

/// A u32.
pub(crate) fn u32_of(word: &[u8]) -> Result<u32, BadLine>
    ensures value { Gives result (u32_of word.now) }
    ensures spelling { IfErr result (λ e. e ≡ Spelling) }
{
    let number = below(word, 1 << 32)?;
    Ok(number as u32)
}

/// A u32 before the first separator of a text, and what stands behind that.
pub(crate) fn u32_before(text: &[u8], separator: u8) -> Result<(u32, &[u8]), BadLine>
    ensures value { GivesAs (λ p. p.0) result (u32_of (before separator text.now)) }
    ensures rest { IfOk result (λ p. p.1.now ≡ behind separator text.now) }
    ensures spelling { IfErr result (λ e. e ≡ Spelling) }
{
    let (number, rest) = below_before(text, separator, 1 << 32)?;
    Ok((number as u32, rest))
}

/// A slot.
pub(crate) fn slot_of(word: &[u8]) -> Result<Slot, BadLine>
    ensures value { Gives result (below SLOTS word.now) }
    ensures range { IfOk result (λ slot. slot < SLOTS) }
    ensures spelling { IfErr result (λ e. e ≡ Spelling) }
{
    let index = below(word, SLOTS as u64)?;
    Ok(Slot::new(index as u8).unwrap())
}

/// A slot before the first separator of a text, and what stands behind that.
pub(crate) fn slot_before(text: &[u8], separator: u8) -> Result<(Slot, &[u8]), BadLine>
    ensures value { GivesAs (λ p. p.0) result (below SLOTS (before separator text.now)) }
    ensures range { IfOk result (λ p. p.0 < SLOTS) }
    ensures rest { IfOk result (λ p. p.1.now ≡ behind separator text.now) }
    ensures spelling { IfErr result (λ e. e ≡ Spelling) }
{
    let (index, rest) = below_before(text, separator, SLOTS as u64)?;
    Ok((Slot::new(index as u8).unwrap(), rest))
}

/// A worker before a space, and what stands behind that.
pub(crate) fn worker_before(text: &[u8]) -> Result<(Worker, &[u8]), BadLine>
    ensures value { GivesAs (λ p. p.0) result (below WORKERS (before BLANK text.now)) }
    ensures range { IfOk result (λ p. p.0 < WORKERS) }
    ensures rest { IfOk result (λ p. p.1.now ≡ behind BLANK text.now) }
    ensures spelling { IfErr result (λ e. e ≡ Spelling) }
{
    let (index, rest) = below_before(text, BLANK, WORKERS as u64)?;
    Ok((Worker::new(index as u8).unwrap(), rest))
}

/// A life.
pub(crate) fn life_of(word: &[u8]) -> Result<Life, BadLine>
    ensures value { Gives result (u32_of word.now) }
    ensures range { IfOk result (λ life. life < 2 ^ 32) }
    ensures spelling { IfErr result (λ e. e ≡ Spelling) }
{
    let life = u32_of(word)?;
    Ok(Life(life))
}

/// A block.
pub(crate) fn block_of(word: &[u8]) -> Result<Block, BadLine>
    ensures value { Gives result (number_of word.now) }
    ensures range { IfOk result (λ block. block < 2 ^ 64) }
    ensures spelling { IfErr result (λ e. e ≡ Spelling) }
{
    let block = number_of(word)?;
    Ok(Block(block))
}

/// A block before a space, and what stands behind that.
pub(crate) fn block_before(text: &[u8]) -> Result<(Block, &[u8]), BadLine>
    ensures value { GivesAs (λ p. p.0) result (number_of (before BLANK text.now)) }
    ensures range { IfOk result (λ p. p.0 < 2 ^ 64) }
    ensures rest { IfOk result (λ p. p.1.now ≡ behind BLANK text.now) }
    ensures spelling { IfErr result (λ e. e ≡ Spelling) }
{
    let (block, rest) = number_before(text, BLANK)?;
    Ok((Block(block), rest))
}

/// A number behind a letter.
fn lettered(letter: u8, word: &[u8]) -> Result<u64, BadLine>
    ensures value { Gives result (lettered letter word.now) }
    ensures spelling { IfErr result (λ e. e ≡ Spelling) }
{
    match word {
        [first, digits @ ..] if *first == letter => number_of(digits),
        _ => Err(BadLine::Spelling),
    }
}

/// The number of a transaction.
pub(crate) fn trans_of(word: &[u8]) -> Result<TransNo, BadLine>
    ensures value { Gives result (lettered 116 word.now) }
    ensures range { IfOk result (λ trans. trans < 2 ^ 64) }
    ensures spelling { IfErr result (λ e. e ≡ Spelling) }
{
    let number = lettered(b't', word)?;
    Ok(TransNo(number))
}

/// The number of a transaction before a space, and what stands behind that.
pub(crate) fn trans_before(text: &[u8]) -> Result<(TransNo, &[u8]), BadLine>
    ensures value { GivesAs (λ p. p.0) result (lettered 116 (before BLANK text.now)) }
    ensures range { IfOk result (λ p. p.0 < 2 ^ 64) }
    ensures rest { IfOk result (λ p. p.1.now ≡ behind BLANK text.now) }
    ensures spelling { IfErr result (λ e. e ≡ Spelling) }
{
    match next_of(text, BLANK) {
        Some((b't', digits)) => {
            let (number, rest) = number_before(digits, BLANK)?;
            Ok((TransNo(number), rest))
        }
        _ => Err(BadLine::Spelling),
    }
}

/// The number of a checkpoint.
pub(crate) fn ckpt_of(word: &[u8]) -> Result<CkptNo, BadLine>
    ensures value { Gives result (lettered 99 word.now) }
    ensures range { IfOk result (λ number. number < 2 ^ 64) }
    ensures spelling { IfErr result (λ e. e ≡ Spelling) }
{
    let number = lettered(b'c', word)?;
    Ok(CkptNo(number))
}

/// What a job does.
#[tactic(auto, unfolding(crate::specs::LineReading::kind_of))]
fn kind_of(word: &[u8]) -> Result<JobKind, BadLine>
    ensures value { Gives result (kind_of word.now) }
    ensures spelling { IfErr result (λ e. e ≡ Spelling) }
{
    if is_word(word, b"ckpt") {
        Ok(JobKind::Ckpt)
    } else if is_word(word, b"flush") {
        Ok(JobKind::Flush)
    } else {
        Err(BadLine::Spelling)
    }
}

/// What a job does, before a dot, and what stands behind that. Most jobs are those of checkpoints, which are told at once.
#[inline(always)]
#[tactic(auto, unfolding(crate::specs::LineReading::kind_of))]
fn kind_before(text: &[u8]) -> Result<(JobKind, &[u8]), BadLine>
    ensures value { GivesAs (λ p. p.0) result (kind_of (before 46 text.now)) }
    ensures rest { IfOk result (λ p. p.1.now ≡ behind 46 text.now) }
    ensures spelling { IfErr result (λ e. e ≡ Spelling) }
{
    if let [b'c', b'k', b'p', b't', b'.', rest @ ..] = text {
        return Ok((JobKind::Ckpt, rest));
    }
    let (kind, rest) = cut(text, b'.');
    let kind = kind_of(kind)?;
    Ok((kind, rest))
}

/// The name of a job.
#[tactic(auto, unfolding(crate::specs::LineReading::name_of))]
pub(crate) fn name_of(word: &[u8]) -> Result<JobName, BadLine>
    ensures value { Gives result (name_of word.now) }
    ensures range { IfOk result IsName }
    ensures spelling { IfErr result (λ e. e ≡ Spelling) }
{
    let Ok((slot, rest)) = slot_before(word, b'.') else {
        return Err(BadLine::Spelling);
    };
    let Ok((life, rest)) = u32_before(rest, b'.') else {
        return Err(BadLine::Spelling);
    };
    let Ok((kind, serial)) = kind_before(rest) else {
        return Err(BadLine::Spelling);
    };
    let serial = number_of(serial)?;
    Ok(JobName {
        slot,
        life: Life(life),
        kind,
        serial,
    })
}

/// Whether a transaction may roll.
#[tactic(auto, unfolding(crate::specs::LineReading::perm_of))]
pub(crate) fn perm_of(word: &[u8]) -> Result<bool, BadLine>
    ensures value { Gives result (perm_of word.now) }
    ensures spelling { IfErr result (λ e. e ≡ Spelling) }
{
    if is_word(word, b"plain") {
        Ok(false)
    } else if is_word(word, b"perm") {
        Ok(true)
    } else {
        Err(BadLine::Spelling)
    }
}

/// The answer to a sync, if there was one.
#[tactic(auto, unfolding(crate::specs::LineReading::sync_of))]
pub(crate) fn sync_of(word: &[u8]) -> Result<Option<bool>, BadLine>
    ensures value { Gives result (sync_of word.now) }
    ensures spelling { IfErr result (λ e. e ≡ Spelling) }
{
    if is_word(word, b"ok") {
        Ok(Some(true))
    } else if is_word(word, b"fail") {
        Ok(Some(false))
    } else if is_word(word, b"none") {
        Ok(None)
    } else {
        Err(BadLine::Spelling)
    }
}
