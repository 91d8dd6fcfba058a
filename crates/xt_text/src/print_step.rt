//! Steps printed as their lines.

ghost use Rattle.std.specs.Fmt.{decimal};
ghost use Rattle.std.specs.Prelude.{◌≡◌, ◌∷◌, ◌++◌, Some, codes};
ghost use Rattle.xt_text.specs.Buffer.{put};
ghost use Rattle.xt_text.specs.DataText.{spelling};
ghost use Rattle.xt_text.specs.LineReading.{parsed};
ghost use Rattle.xt_text.specs.Lines.{IsStep, answer_text, line_of, name_text, perm_text, request_text, size_text, sync_text, trans_text, ◌·◌, ◌␣◌};

use crate::buffer::Text;
use crate::fields::{
    then_bytes, then_ckpt, then_data, then_name, then_number, then_ok, then_trans, then_word,
};
use crate::home_answers::then_home;
use crate::numbers::put_number;
use crate::words::BLANK;
use xt_base::content::Data;
use xt_base::names::{Block, JobName, Life, Slot, TransNo, Worker};
use xt_base::steps::{Answer, Request, Step};

/// Whether a transaction may roll.
fn then_perm(out: &mut Text, perm: bool)
    ensures { out.new ≡ put out.old (BLANK ∷ perm_text perm) }
{
    out.put(if perm {
        b" perm".as_slice()
    } else {
        b" plain".as_slice()
    });
}

/// The answer to a sync, if there was one.
fn then_sync(out: &mut Text, sync: Option<bool>)
    ensures { out.new ≡ put out.old (BLANK ∷ sync_text sync) }
{
    match sync {
        Some(ok) => then_ok(out, ok),
        None => then_word(out, b"none"),
    }
}

/// A verb, log bytes for a leg, a count of legs, and whether they may roll.
#[tactic(auto, using(crate::proofs::BufferLemmas::put_put))]
fn put_alloc(out: &mut Text, unit: u32, count: u32, perm: bool)
    ensures { out.new ≡ put out.old (codes "alloc" ␣ decimal unit ␣ decimal count ␣ perm_text perm) }
{
    out.put(b"alloc");
    then_number(out, unit as u64);
    then_number(out, count as u64);
    then_perm(out, perm);
}

/// A verb, a transaction, a block, and the bytes that are written from a first one on.
#[tactic(auto, using(crate::proofs::BufferLemmas::put_put))]
fn put_log(out: &mut Text, trans: TransNo, block: Block, first: u32, bytes: &Data)
    ensures { out.new ≡ put out.old (codes "log" ␣ trans_text trans ␣ decimal block ␣ decimal first ␣ spelling bytes.now) }
{
    put_own(out, b"log", trans, block);
    then_number(out, first as u64);
    then_data(out, bytes);
}

/// A verb and a transaction.
#[tactic(auto, using(crate::proofs::BufferLemmas::put_put))]
fn put_trans(out: &mut Text, verb: &[u8], trans: TransNo)
    ensures { out.new ≡ put out.old (verb.now ␣ trans_text trans) }
{
    out.put(verb);
    then_trans(out, trans);
}

/// A verb, a transaction and a block.
#[tactic(auto, using(crate::proofs::BufferLemmas::put_put))]
fn put_own(out: &mut Text, verb: &[u8], trans: TransNo, block: Block)
    ensures { out.new ≡ put out.old (verb.now ␣ trans_text trans ␣ decimal block) }
{
    put_trans(out, verb, trans);
    then_number(out, block.0);
}

/// Puts a request's text.
#[tactic(auto, using(crate::proofs::BufferLemmas::put_put, crate::proofs::BufferLemmas::put_none))]
fn put_request(out: &mut Text, request: &Request)
    ensures { out.new ≡ put out.old (request_text request.now) }
{
    match request {
        Request::Alloc { unit, count, perm } => put_alloc(out, *unit, *count, *perm),
        Request::Get { trans, block } => put_own(out, b"get", *trans, *block),
        Request::Read { trans, block } => put_own(out, b"read", *trans, *block),
        Request::View { trans, block } => put_own(out, b"view", *trans, *block),
        Request::Log {
            first,
            trans,
            block,
            bytes,
        } => put_log(out, *trans, *block, *first, bytes),
        Request::Hold { trans, block } => put_own(out, b"hold", *trans, *block),
        Request::Unhold { trans, block } => put_own(out, b"unhold", *trans, *block),
        Request::Relse { trans, block } => put_own(out, b"relse", *trans, *block),
        Request::Join { trans, block } => put_own(out, b"join", *trans, *block),
        Request::Release { block } => {
            out.put(b"drop");
            then_number(out, block.0);
        }
        Request::Inval { trans, block } => put_own(out, b"inval", *trans, *block),
        Request::Commit { trans } => put_trans(out, b"commit", *trans),
        Request::Roll { trans } => put_trans(out, b"roll", *trans),
        Request::Cancel { trans } => put_trans(out, b"cancel", *trans),
        Request::Force => out.put(b"force"),
        Request::ForceTo { number } => {
            out.put(b"forceto");
            then_ckpt(out, *number);
        }
        Request::Push => out.put(b"push"),
        Request::Shutdown => out.put(b"shutdown"),
        Request::Freeze => out.put(b"freeze"),
        Request::Thaw => out.put(b"thaw"),
        Request::Stat => out.put(b"stat"),
        Request::Unmount => out.put(b"unmount"),
    }
}

/// Puts what the home device answered to a read; nothing where it was not asked.
#[tactic(auto, using(crate::proofs::BufferLemmas::put_put, crate::proofs::BufferLemmas::put_none))]
fn put_answer(out: &mut Text, answer: &Answer)
    ensures { out.new ≡ put out.old (answer_text answer.now) }
{
    match answer {
        Answer::None => (),
        Answer::Content(content) => {
            out.put(b" =");
            then_bytes(out, content.bytes());
        }
        Answer::Failed => out.put(b" = fail"),
    }
}

/// Puts a mount, its request and the answer.
#[tactic(auto, using(crate::proofs::BufferLemmas::put_put))]
fn put_call(out: &mut Text, slot: Slot, life: Life, request: &Request, answer: &Answer)
    ensures { out.new ≡ put out.old ((decimal slot · decimal life) ␣ (request_text request.now ++ answer_text answer.now)) }
{
    put_number(out, slot.index() as u64);
    out.push(b'.');
    put_number(out, life.0 as u64);
    out.push(BLANK);
    put_request(out, request);
    put_answer(out, answer);
}

/// Puts a word, a worker and the name of a job.
#[tactic(auto, using(crate::proofs::BufferLemmas::put_put))]
fn put_job_step(out: &mut Text, word: &[u8], worker: Worker, name: JobName)
    ensures { out.new ≡ put out.old (word.now ␣ decimal worker ␣ name_text name) }
{
    out.put(word);
    then_number(out, worker.index() as u64);
    then_name(out, name);
}

/// Puts a mount's slot, the size of its log, how many blocks its home device has, and the size of a block where one is said.
#[tactic(auto, using(crate::proofs::BufferLemmas::put_put))]
fn put_mount(out: &mut Text, slot: Slot, log_bytes: u32, blocks: u64, size: Option<u32>)
    ensures { out.new ≡ put out.old (codes "mount" ␣ decimal slot ␣ decimal log_bytes ␣ (decimal blocks ++ size_text size)) }
{
    put_with_slot(out, b"mount", slot);
    then_number(out, log_bytes as u64);
    then_number(out, blocks);
    put_size(out, size);
}

/// Puts the size of a block, where one is said.
fn put_size(out: &mut Text, size: Option<u32>)
    ensures { out.new ≡ put out.old (size_text size) }
{
    if let Some(bytes) = size {
        then_number(out, bytes as u64);
    }
}

/// Puts a word and a slot.
#[tactic(auto, using(crate::proofs::BufferLemmas::put_put))]
fn put_with_slot(out: &mut Text, word: &[u8], slot: Slot)
    ensures { out.new ≡ put out.old (word.now ␣ decimal slot) }
{
    out.put(word);
    then_number(out, slot.index() as u64);
}

/// Puts the line of a step.
#[tactic(auto, using(crate::proofs::BufferLemmas::put_put, crate::proofs::BufferLemmas::put_none))]
fn put_step(step: &Step, out: &mut Text)
    ensures { out.new ≡ put out.old (line_of step.now) }
{
    match step {
        Step::Mount {
            slot,
            log_bytes,
            blocks,
            size,
        } => put_mount(out, *slot, *log_bytes, *blocks, *size),
        Step::Call {
            slot,
            life,
            request,
            answer,
        } => put_call(out, *slot, *life, request, answer),
        Step::Post(name) => {
            out.put(b"post");
            then_name(out, *name);
        }
        Step::Take { worker, name } => put_job_step(out, b"take", *worker, *name),
        Step::Begin { worker, name } => put_job_step(out, b"begin", *worker, *name),
        Step::End {
            worker,
            name,
            answers,
        } => {
            put_job_step(out, b"end", *worker, *name);
            then_number(out, answers.taken as u64);
            then_sync(out, answers.sync);
        }
        Step::Flush {
            worker,
            name,
            answers,
        } => {
            put_job_step(out, b"flush", *worker, *name);
            then_home(out, answers);
        }
        Step::Show(slot) => put_with_slot(out, b"show", *slot),
        Step::Peek(slot) => put_with_slot(out, b"peek", *slot),
    }
}

/// Puts the line of a step, without a newline, behind what the buffer holds. A step that has a line of its own, as every
/// parsed step has, is parsed from it again.
#[tactic(auto, using(crate::proofs::ParseLemmas::parsed_again))]
pub fn print_step(step: &Step, out: &mut Text)
    ensures text { out.new ≡ put out.old (line_of step.now) }
    ensures again { IsStep step.now → parsed (line_of step.now) ≡ Some step.now }
{
    put_step(step, out);
}
