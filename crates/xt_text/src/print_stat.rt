//! What a mount tells of itself, printed: four parts, each of a subject.

ghost use Rattle.std.specs.Prelude.{◌≡◌, ◌≤◌, ◌∷◌, length};
ghost use Rattle.xt_text.specs.Buffer.{put};
ghost use Rattle.xt_text.specs.Replies.{blocks_text, frozen_text, jobs_text, lists_text, space_text, stat_text};

use crate::buffer::Text;
use crate::fields::{then_ckpt, then_number};
use crate::words::BLANK;
use xt_base::names::CkptNo;
use xt_base::stat::Stat;

/// Open transactions, and blocks that are busy and idle.
#[tactic(auto, using(crate::proofs::BufferLemmas::put_put))]
fn then_blocks(out: &mut Text, stat: Stat)
    ensures text { out.new ≡ put out.old (BLANK ∷ blocks_text stat) }
    ensures short { length (blocks_text stat) ≤ 62 }
{
    then_number(out, stat.transactions as u64);
    then_number(out, stat.busy as u64);
    then_number(out, stat.idle as u64);
}

/// The commit list, its blocks and its cost, the checkpoint in flight, and the active list, its blocks and its least number.
#[tactic(auto, using(crate::proofs::BufferLemmas::put_put))]
fn then_lists(out: &mut Text, stat: Stat)
    ensures text { out.new ≡ put out.old (BLANK ∷ lists_text stat) }
    ensures short { length (lists_text stat) ≤ 106 }
{
    then_number(out, stat.committed as u64);
    then_number(out, stat.cost as u64);
    then_ckpt(out, CkptNo(stat.flight));
    then_number(out, stat.active as u64);
    then_ckpt(out, CkptNo(stat.least));
}

/// Log bytes: granted, in use and free.
#[tactic(auto, using(crate::proofs::BufferLemmas::put_put))]
fn then_space(out: &mut Text, stat: Stat)
    ensures text { out.new ≡ put out.old (BLANK ∷ space_text stat) }
    ensures short { length (space_text stat) ≤ 62 }
{
    then_number(out, stat.granted as u64);
    then_number(out, stat.used as u64);
    then_number(out, stat.free as u64);
}

/// Whether it is frozen.
fn then_frozen(out: &mut Text, frozen: bool)
    ensures text { out.new ≡ put out.old (BLANK ∷ frozen_text frozen) }
    ensures short { length (frozen_text frozen) ≤ 6 }
{
    out.put(if frozen {
        b" frozen".as_slice()
    } else {
        b" thawed".as_slice()
    });
}

/// Whether it is frozen, and its jobs: owed and outstanding.
#[tactic(auto, using(crate::proofs::BufferLemmas::put_put))]
fn then_jobs(out: &mut Text, stat: Stat)
    ensures text { out.new ≡ put out.old (BLANK ∷ jobs_text stat) }
    ensures short { length (jobs_text stat) ≤ 48 }
{
    then_frozen(out, stat.frozen);
    then_number(out, stat.owed as u64);
    then_number(out, stat.outstanding as u64);
}

/// Puts what a mount tells of itself.
#[tactic(auto, using(crate::proofs::BufferLemmas::put_put))]
pub(crate) fn put_stat(out: &mut Text, stat: Stat)
    ensures text { out.new ≡ put out.old (stat_text stat) }
    ensures short { length (stat_text stat) ≤ 286 }
{
    out.put(b"stat");
    then_blocks(out, stat);
    then_lists(out, stat);
    then_space(out, stat);
    then_jobs(out, stat);
}
