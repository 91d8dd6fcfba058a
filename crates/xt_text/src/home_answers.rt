//! The answers to a flush, both ways: to each write and then to the sync, or none.
//! They are read loosely, by the first letter of each word.

ghost use Rattle.std.specs.Prelude.{◌≡◌, ◌≤◌, ◌-◌, ◌++◌, IfOk, false, length, replicate};
ghost use Rattle.xt_text.specs.Buffer.{put};
ghost use Rattle.xt_text.specs.HomeReading.{flush_answers, home_of, named};
ghost use Rattle.xt_text.specs.Lines.{IsHomeAnswers, home_text, oks_text};
ghost use Rattle.xt_text.specs.Reading.{Gives};

use crate::bad_line::BadLine;
use crate::buffer::Text;
use crate::fields::then_ok;
use std::alloc::{AllocError, Global};
use xt_base::sizes::FLUSH_BLOCKS;
use xt_base::steps::HomeAnswers;

/// The answers that a text names, by their first letters.
fn named(alloc: Global, words: &[u8]) -> Result<Vec<bool>, AllocError>
    ensures { IfOk result (λ oks. oks.items ≡ named words.now) }
{
    let mut oks = Vec::new(alloc);
    for letter in words {
        match *letter {
            b'o' => oks.push(true)?,
            b'f' => oks.push(false)?,
            _ => (),
        }
    }
    Ok(oks)
}

/// Answers to writes, with false behind them.
fn padded(writes: &[bool]) -> [bool; FLUSH_BLOCKS]
    requires { length writes.now ≤ FLUSH_BLOCKS }
    ensures { result ≡ writes.now ++ replicate (FLUSH_BLOCKS - length writes.now) false }
{
    let mut all = [false; FLUSH_BLOCKS];
    all[..writes.len()].copy_from_slice(writes);
    all
}

/// The answers to a flush, of what was answered to its writes and then to its sync.
#[tactic(auto, using(crate::proofs::HomeAgain::flush_given, crate::proofs::HomeAgain::flush_other, crate::proofs::HomeAgain::given_is))]
fn flush_answers(oks: &[bool]) -> Result<HomeAnswers, BadLine>
    ensures value { Gives result (flush_answers oks.now) }
    ensures valid { IfOk result IsHomeAnswers }
{
    match oks.split_last() {
        None => Ok(HomeAnswers {
            count: 0,
            writes: [false; FLUSH_BLOCKS],
            sync: false,
        }),
        Some((sync, writes)) => {
            if writes.is_empty() || writes.len() > FLUSH_BLOCKS {
                return Err(BadLine::Spelling);
            }
            Ok(HomeAnswers {
                count: writes.len() as u8,
                writes: padded(writes),
                sync: *sync,
            })
        }
    }
}

/// What stands behind the name of a flush: nothing, or an answer to each of 1 to 8 writes and one to the sync.
#[tactic(auto, unfolding(crate::specs::HomeReading::home_of))]
pub(crate) fn home_of(alloc: Global, words: &[u8]) -> Result<HomeAnswers, BadLine>
    ensures value { Gives result (home_of words.now) }
    ensures valid { IfOk result IsHomeAnswers }
{
    let oks = named(alloc, words)?;
    flush_answers(&oks)
}

/// Answers of a device.
#[tactic(auto, using(crate::proofs::BufferLemmas::put_put, crate::proofs::BufferLemmas::put_none))]
fn then_oks(out: &mut Text, oks: &[bool])
    ensures { out.new ≡ put out.old (oks_text oks.now) }
{
    for ok in oks {
        then_ok(out, *ok);
    }
}

/// What the home device answered to a flush; nothing where it was not asked.
#[tactic(auto, using(crate::proofs::BufferLemmas::put_put, crate::proofs::BufferLemmas::put_none, std::proofs::lemmas::List::take_all))]
pub(crate) fn then_home(out: &mut Text, answers: &HomeAnswers)
    ensures { out.new ≡ put out.old (home_text answers.now) }
{
    if answers.count > 0 {
        let count = FLUSH_BLOCKS.min(answers.count as usize);
        then_oks(out, &answers.writes[..count]);
        then_ok(out, answers.sync);
    }
}
