//! What the answers to a flush make of the active list.

ghost use Rattle.std.specs.Prelude.{ℕ, ◌≡◌, ◌≤◌, filter, length, not, true};
ghost use Rattle.xt_base.specs.Jobs.{written};
ghost use Rattle.xt_base.specs.Maps.{has};
ghost use Rattle.xt_items.specs.Sieves.{passes};

use crate::sieved::{SievedMap, passes, with_key};
use xt_base::names::Block;
use xt_base::sizes::FLUSH_BLOCKS;

/// The blocks whose write was answered Ok leave the active list, in one pass; how many they are.
pub(crate) fn remove_written(ail: &mut SievedMap<u64>, blocks: &[Block], answers: &[bool]) -> u32
    requires each { length answers.now ≡ length blocks.now }
    requires few { length blocks.now ≤ FLUSH_BLOCKS }
    ensures count { result ≡ length (written blocks.now answers.now) }
    ensures list { ail.new ≡ filter (λ e. not (has (written blocks.now answers.now) e.0)) ail.old }
{
    let (gone, bits) = written_bits(blocks, answers);
    ail.retain(|block| stays(bits, blocks, answers, block));
    gone
}

/// How many writes were answered Ok, and a word with bit `block % 64` for each of their blocks.
fn written_bits(blocks: &[Block], answers: &[bool]) -> (u32, u64)
    requires each { length answers.now ≡ length blocks.now }
    requires few { length blocks.now ≤ FLUSH_BLOCKS }
    ensures count { result.0 ≡ length (written blocks.now answers.now) }
    ensures bits { (b : ℕ) → has (written blocks.now answers.now) b ≡ true → passes result.1 b ≡ true }
{
    let mut gone = 0;
    let mut bits = 0;
    for (i, block) in blocks.iter().enumerate() {
        if answers[i] {
            bits = with_key(bits, block.0);
            gone += 1;
        }
    }
    (gone, bits)
}

/// Whether a block is none of those whose write was answered Ok, which have their bits in a word.
fn stays(bits: u64, blocks: &[Block], answers: &[bool], block: u64) -> bool
    requires each { length answers.now ≡ length blocks.now }
    requires bits { (b : ℕ) → has (written blocks.now answers.now) b ≡ true → passes bits b ≡ true }
    ensures { result ≡ not (has (written blocks.now answers.now) block) }
{
    !passes(bits, block) || !is_written(blocks, answers, block)
}

/// Whether a block is among those whose write was answered Ok.
fn is_written(blocks: &[Block], answers: &[bool], block: u64) -> bool
    requires { length answers.now ≡ length blocks.now }
    ensures { result ≡ has (written blocks.now answers.now) block }
{
    for (i, other) in blocks.iter().enumerate() {
        if answers[i] && other.0 == block {
            return true;
        }
    }
    false
}
