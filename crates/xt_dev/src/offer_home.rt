//! What is offered to a home device, and what it answered.

ghost use Rattle.std.specs.Prelude.{◌≡◌, ◌≤◌, ◌+◌, ◌-◌, ◌++◌, All, Some, ℕ, List, count_by, length, map, not, take, drop, replicate, false, true};
ghost use Rattle.xt_base.specs.Form.{is_size};
ghost use Rattle.xt_base.specs.Jobs.{write_answers, writes as planned_writes, sync_offer};
ghost use Rattle.xt_base.specs.Text.{content_at};
ghost use Rattle.xt_dev.specs.Devices.{Tells};
ghost use Rattle.xt_dev.specs.Flushes.{answered, contents, failed_answers, home_offers_of};
ghost use Rattle.xt_dev.specs.declared.call.HomeCall.{HomeCall};

use crate::home::HomeDevice;
use xt_base::names::Block;
use xt_base::sizes::FLUSH_BLOCKS;
use xt_base::steps::HomeAnswers;

/// Offers each write once in order, whatever is answered, then one sync; says what was
/// answered. There are at most 8 writes, each of all bytes of a block; for none nothing
/// is offered, and the count of answers is 0. It takes no memory.
#[tactic(auto, using(crate::proofs::Answered::answered_plan))]
pub fn offer_home(home: &mut dyn HomeDevice, writes: &[(Block, &[u8])]) -> HomeAnswers
    requires count { length writes.now ≤ FLUSH_BLOCKS }
    requires whole { All (λ w. is_size (Some (length w.1.now)) ≡ true) writes.now }
    // Each write has its answer.
    ensures count { result.count ≡ length writes.now }
    // What stands for no answer is false.
    ensures unused { drop result.count result.writes ≡ replicate (FLUSH_BLOCKS - result.count) false }
    ensures unasked { result.count ≡ 0 → result.sync ≡ false }
    // The home device was offered each write with its answer, and the sync after them.
    ensures offers { Tells (home_tells home.old) (home_taken home.old) (map HomeCall.Offer (home_offers_of result (contents writes.now))) (home_tells home.new) (home_taken home.new) }
    // Of blocks with their committed contents, these are the offers of a flush.
    ensures flush { (size : ℕ) (committed : List (ℕ × List ℕ)) (plan : List ℕ) → contents writes.now ≡ map (λ b. (b, content_at size b committed)) plan
        → home_offers_of result (contents writes.now) ≡ planned_writes size committed plan (write_answers result) ++ sync_offer result }
    // Each answer that is a failure is a call that failed.
    ensures failures { home_failures home.new ≡ home_failures home.old + failed_answers result }
{
    let count = writes.len() as u8;
    let answers = write_all(home, writes);
    let sync = count > 0 && home.sync().is_ok();
    HomeAnswers {
        count,
        writes: answers,
        sync,
    }
}

/// Offers each write once in order, and says which were answered Ok.
fn write_all(home: &mut dyn HomeDevice, writes: &[(Block, &[u8])]) -> [bool; FLUSH_BLOCKS]
    requires count { length writes.now ≤ FLUSH_BLOCKS }
    requires whole { All (λ w. is_size (Some (length w.1.now)) ≡ true) writes.now }
    ensures unused { drop (length writes.now) result ≡ replicate (FLUSH_BLOCKS - length writes.now) false }
    ensures offers { Tells (home_tells home.old) (home_taken home.old) (map HomeCall.Offer (answered (contents writes.now) (take (length writes.now) result))) (home_tells home.new) (home_taken home.new) }
    ensures failures { home_failures home.new ≡ home_failures home.old + count_by not (take (length writes.now) result) }
{
    let mut answers = [false; FLUSH_BLOCKS];
    for (i, (block, content)) in writes.iter().enumerate() {
        answers[i] = home.write(*block, content).is_ok();
    }
    answers
}
