//! Lines read: the line of each step gives that step; a line with answers, or a verb that stands alone, is read loosely, and other lines
//! may give its step too.

ghost use Rattle.std.specs.Prelude.{◌≡◌, ◌<◌, ◌^◌, IfErr, IfOk, IsErrOf, IsTrue, OnOk};
ghost use Rattle.xt_text.specs.LineReading.{alloc_of, answer_of, asked_of, asks, before, begin_of, behind, call_of, drop_of, end_of, flush_of, log_of, mount_of, mount_request, own_of, own_request, peek_of, post_of, read_of, request_of, show_of, size_of, step_of, take_of, trans_request, words_step};
ghost use Rattle.xt_base.specs.declared.steps.Answer.TheVariants.{None};
ghost use Rattle.xt_base.specs.declared.steps.Step.TheVariants.{Call};
ghost use Rattle.xt_text.specs.Lines.{IsAnswer, IsStep};
ghost use Rattle.xt_text.specs.Reading.{Gives, GivesAs};
ghost use Rattle.xt_text.specs.SessionLines.{takes_data, takes_words};
ghost use Rattle.xt_text.specs.declared.bad_line.BadLine.TheVariants.{Memory, Spelling};

use crate::bad_line::BadLine;
use crate::buffer::Text;
use crate::data_text::{read_content, spelled_data};
use crate::home_answers::home_of;
use crate::numbers::number_before;
use crate::words::{
    BLANK, block_before, block_of, ckpt_of, cut, is_word, life_of, name_of, perm_of, slot_before,
    slot_of, sync_of, trans_before, trans_of, u32_before, u32_of, worker_before,
};
use std::alloc::Global;
use xt_base::names::{Block, Life, Slot, TransNo};
use xt_base::steps::{Answer, LogAnswers, Request, Step};

/// Puts a call by a request that no device answers. It is put where the step is to stand, since a step is large.
#[inline(always)]
fn put_call(step: &mut Step, slot: Slot, life: Life, request: Request)
    ensures { step.new ≡ Call slot life request None }
{
    *step = Step::Call {
        slot,
        life,
        request,
        answer: Answer::None,
    };
}

/// UNIT COUNT plain, or perm.
#[tactic(auto, unfolding(crate::specs::LineReading::alloc_of))]
fn alloc_of(words: &[u8], slot: Slot, life: Life, step: &mut Step) -> Result<(), BadLine>
    ensures value { GivesAs (λ _. step.new) result (asks slot life (alloc_of words.now)) }
    ensures valid { OnOk result (IsStep step.new) }
    ensures spelling { IfErr result (λ e. e ≡ Spelling) }
{
    let Ok((unit, words)) = u32_before(words, BLANK) else {
        return Err(BadLine::Spelling);
    };
    let Ok((count, perm)) = u32_before(words, BLANK) else {
        return Err(BadLine::Spelling);
    };
    let perm = perm_of(perm)?;
    put_call(step, slot, life, Request::Alloc { unit, count, perm });
    Ok(())
}

/// TRANS BLOCK.
#[inline(always)]
#[tactic(auto, unfolding(crate::specs::LineReading::own_of))]
fn own_of(words: &[u8]) -> Result<(TransNo, Block), BadLine>
    ensures value { Gives result (own_of words.now) }
    ensures range { IfOk result (λ p. (p.0 < 2 ^ 64) × (p.1 < 2 ^ 64)) }
    ensures spelling { IfErr result (λ e. e ≡ Spelling) }
{
    let Ok((trans, block)) = trans_before(words) else {
        return Err(BadLine::Spelling);
    };
    let block = block_of(block)?;
    Ok((trans, block))
}

/// TRANS BLOCK FIRST DATA.
#[tactic(auto, unfolding(crate::specs::LineReading::log_of))]
fn log_of(
    alloc: Global,
    words: &[u8],
    text: &mut Text,
    slot: Slot,
    life: Life,
    step: &mut Step,
) -> Result<(), BadLine>
    ensures value { GivesAs (λ _. step.new) result (asks slot life (log_of words.now)) }
    ensures valid { OnOk result (IsStep step.new) }
{
    let Ok((trans, words)) = trans_before(words) else {
        return Err(BadLine::Spelling);
    };
    let Ok((block, words)) = block_before(words) else {
        return Err(BadLine::Spelling);
    };
    let Ok((first, bytes)) = u32_before(words, BLANK) else {
        return Err(BadLine::Spelling);
    };
    let bytes = spelled_data(alloc, bytes, text)?;
    put_call(
        step,
        slot,
        life,
        Request::Log {
            first,
            trans,
            block,
            bytes,
        },
    );
    Ok(())
}

/// BLOCK.
#[tactic(auto, unfolding(crate::specs::LineReading::drop_of))]
fn drop_of(words: &[u8], slot: Slot, life: Life, step: &mut Step) -> Result<(), BadLine>
    ensures value { GivesAs (λ _. step.new) result (asks slot life (drop_of words.now)) }
    ensures valid { OnOk result (IsStep step.new) }
    ensures spelling { IfErr result (λ e. e ≡ Spelling) }
{
    let block = block_of(words)?;
    put_call(step, slot, life, Request::Release { block });
    Ok(())
}

/// A request of the mount as a whole: its verb, and what stands behind it.
#[tactic(auto, unfolding(crate::specs::LineReading::mount_request))]
fn mount_request(
    verb: &[u8],
    words: &[u8],
    slot: Slot,
    life: Life,
    step: &mut Step,
) -> Result<(), BadLine>
    ensures value { GivesAs (λ _. step.new) result (asks slot life (mount_request verb.now words.now)) }
    ensures valid { OnOk result (IsStep step.new) }
    ensures spelling { IfErr result (λ e. e ≡ Spelling) }
{
    if is_word(verb, b"force") {
        put_call(step, slot, life, Request::Force);
        Ok(())
    } else if is_word(verb, b"forceto") {
        let number = ckpt_of(words)?;
        put_call(step, slot, life, Request::ForceTo { number });
        Ok(())
    } else if is_word(verb, b"push") {
        put_call(step, slot, life, Request::Push);
        Ok(())
    } else if is_word(verb, b"shutdown") {
        put_call(step, slot, life, Request::Shutdown);
        Ok(())
    } else if is_word(verb, b"freeze") {
        put_call(step, slot, life, Request::Freeze);
        Ok(())
    } else if is_word(verb, b"thaw") {
        put_call(step, slot, life, Request::Thaw);
        Ok(())
    } else if is_word(verb, b"stat") {
        put_call(step, slot, life, Request::Stat);
        Ok(())
    } else if is_word(verb, b"unmount") {
        put_call(step, slot, life, Request::Unmount);
        Ok(())
    } else {
        Err(BadLine::Spelling)
    }
}

/// A request of a transaction, or of the mount as a whole: its verb, and what stands behind it.
#[tactic(auto, unfolding(crate::specs::LineReading::trans_request))]
fn trans_request(
    verb: &[u8],
    words: &[u8],
    slot: Slot,
    life: Life,
    step: &mut Step,
) -> Result<(), BadLine>
    ensures value { GivesAs (λ _. step.new) result (asks slot life (trans_request verb.now words.now)) }
    ensures valid { OnOk result (IsStep step.new) }
    ensures spelling { IfErr result (λ e. e ≡ Spelling) }
{
    if is_word(verb, b"commit") {
        let trans = trans_of(words)?;
        put_call(step, slot, life, Request::Commit { trans });
        Ok(())
    } else if is_word(verb, b"roll") {
        let trans = trans_of(words)?;
        put_call(step, slot, life, Request::Roll { trans });
        Ok(())
    } else if is_word(verb, b"cancel") {
        let trans = trans_of(words)?;
        put_call(step, slot, life, Request::Cancel { trans });
        Ok(())
    } else {
        mount_request(verb, words, slot, life, step)
    }
}

/// A request of a transaction's block: its verb, and what stands behind it.
#[tactic(auto, unfolding(crate::specs::LineReading::own_request))]
fn own_request(
    verb: &[u8],
    words: &[u8],
    slot: Slot,
    life: Life,
    step: &mut Step,
) -> Result<(), BadLine>
    ensures value { GivesAs (λ _. step.new) result (asks slot life (own_request verb.now words.now)) }
    ensures valid { OnOk result (IsStep step.new) }
    ensures spelling { IfErr result (λ e. e ≡ Spelling) }
{
    if is_word(verb, b"get") {
        let (trans, block) = own_of(words)?;
        put_call(step, slot, life, Request::Get { trans, block });
        Ok(())
    } else if is_word(verb, b"view") {
        let (trans, block) = own_of(words)?;
        put_call(step, slot, life, Request::View { trans, block });
        Ok(())
    } else if is_word(verb, b"hold") {
        let (trans, block) = own_of(words)?;
        put_call(step, slot, life, Request::Hold { trans, block });
        Ok(())
    } else if is_word(verb, b"unhold") {
        let (trans, block) = own_of(words)?;
        put_call(step, slot, life, Request::Unhold { trans, block });
        Ok(())
    } else if is_word(verb, b"relse") {
        let (trans, block) = own_of(words)?;
        put_call(step, slot, life, Request::Relse { trans, block });
        Ok(())
    } else if is_word(verb, b"join") {
        let (trans, block) = own_of(words)?;
        put_call(step, slot, life, Request::Join { trans, block });
        Ok(())
    } else if is_word(verb, b"inval") {
        let (trans, block) = own_of(words)?;
        put_call(step, slot, life, Request::Inval { trans, block });
        Ok(())
    } else {
        trans_request(verb, words, slot, life, step)
    }
}

/// A request other than a read: its verb, and what stands behind it.
#[tactic(auto, unfolding(crate::specs::LineReading::request_of))]
fn request_of(
    alloc: Global,
    verb: &[u8],
    words: &[u8],
    text: &mut Text,
    slot: Slot,
    life: Life,
    step: &mut Step,
) -> Result<(), BadLine>
    ensures value { GivesAs (λ _. step.new) result (asks slot life (request_of verb.now words.now)) }
    ensures valid { OnOk result (IsStep step.new) }
    ensures memory { IsErrOf result Memory → IsTrue (takes_data verb.now) }
{
    if is_word(verb, b"alloc") {
        alloc_of(words, slot, life, step)
    } else if is_word(verb, b"log") {
        log_of(alloc, words, text, slot, life, step)
    } else if is_word(verb, b"drop") {
        drop_of(words, slot, life, step)
    } else {
        own_request(verb, words, slot, life, step)
    }
}

/// What stands behind a read: nothing, = DATA, or = fail.
#[tactic(auto, unfolding(crate::specs::LineReading::answer_of))]
fn answer_of(alloc: Global, words: &[u8]) -> Result<Answer, BadLine>
    ensures value { Gives result (answer_of words.now) }
    ensures valid { IfOk result IsAnswer }
{
    if words.is_empty() {
        return Ok(Answer::None);
    }
    let (_equals, given) = cut(words, BLANK);
    if is_word(given, b"fail") {
        Ok(Answer::Failed)
    } else {
        let content = read_content(alloc, given)?;
        Ok(Answer::Content(content))
    }
}

/// SLOT.
#[tactic(auto, unfolding(crate::specs::LineReading::show_of))]
fn show_of(words: &[u8], step: &mut Step) -> Result<(), BadLine>
    ensures value { GivesAs (λ _. step.new) result (show_of words.now) }
    ensures valid { OnOk result (IsStep step.new) }
    ensures spelling { IfErr result (λ e. e ≡ Spelling) }
{
    let slot = slot_of(words)?;
    *step = Step::Show(slot);
    Ok(())
}

/// SLOT.
#[tactic(auto, unfolding(crate::specs::LineReading::peek_of))]
fn peek_of(words: &[u8], step: &mut Step) -> Result<(), BadLine>
    ensures value { GivesAs (λ _. step.new) result (peek_of words.now) }
    ensures valid { OnOk result (IsStep step.new) }
    ensures spelling { IfErr result (λ e. e ≡ Spelling) }
{
    let slot = slot_of(words)?;
    *step = Step::Peek(slot);
    Ok(())
}

/// What stands behind the blocks of a mount: nothing, or the size of a block.
#[tactic(auto, unfolding(crate::specs::LineReading::size_of))]
fn size_of(words: &[u8]) -> Result<Option<u32>, BadLine>
    ensures value { Gives result (size_of words.now) }
    ensures spelling { IfErr result (λ e. e ≡ Spelling) }
{
    if words.is_empty() {
        return Ok(None);
    }
    let size = u32_of(words)?;
    Ok(Some(size))
}

/// SLOT LOG BLOCKS, and the size of a block.
#[tactic(auto, unfolding(crate::specs::LineReading::mount_of))]
fn mount_of(words: &[u8], step: &mut Step) -> Result<(), BadLine>
    ensures value { GivesAs (λ _. step.new) result (mount_of words.now) }
    ensures valid { OnOk result (IsStep step.new) }
    ensures spelling { IfErr result (λ e. e ≡ Spelling) }
{
    let Ok((slot, words)) = slot_before(words, BLANK) else {
        return Err(BadLine::Spelling);
    };
    let Ok((log_bytes, words)) = u32_before(words, BLANK) else {
        return Err(BadLine::Spelling);
    };
    let Ok((blocks, size)) = number_before(words, BLANK) else {
        return Err(BadLine::Spelling);
    };
    let size = size_of(size)?;
    *step = Step::Mount {
        slot,
        log_bytes,
        blocks,
        size,
    };
    Ok(())
}

/// A read, by what stands behind its verb: TRANS BLOCK, and the answer.
#[tactic(auto, unfolding(crate::specs::LineReading::read_of))]
fn read_of(
    alloc: Global,
    slot: Slot,
    life: Life,
    words: &[u8],
    step: &mut Step,
) -> Result<(), BadLine>
    ensures value { GivesAs (λ _. step.new) result (read_of slot life words.now) }
    ensures valid { OnOk result (IsStep step.new) }
{
    let Ok((trans, words)) = trans_before(words) else {
        return Err(BadLine::Spelling);
    };
    let Ok((block, answer)) = block_before(words) else {
        return Err(BadLine::Spelling);
    };
    let answer = answer_of(alloc, answer)?;
    *step = Step::Call {
        slot,
        life,
        request: Request::Read { trans, block },
        answer,
    };
    Ok(())
}

/// A call, by its verb and what stands behind that.
#[tactic(auto, unfolding(crate::specs::LineReading::asked_of), using(crate::proofs::WordsAgain::none_fits))]
fn asked_of(
    alloc: Global,
    slot: Slot,
    life: Life,
    verb: &[u8],
    words: &[u8],
    text: &mut Text,
    step: &mut Step,
) -> Result<(), BadLine>
    ensures value { GivesAs (λ _. step.new) result (asked_of slot life verb.now words.now) }
    ensures valid { OnOk result (IsStep step.new) }
    ensures memory { IsErrOf result Memory → IsTrue (takes_data verb.now) }
{
    if is_word(verb, b"read") {
        return read_of(alloc, slot, life, words, step);
    }
    request_of(alloc, verb, words, text, slot, life, step)
}

/// A call: SLOT.LIFE, and the request. It is laid out with the line that it is read from, so that its step is not copied.
#[inline(always)]
#[tactic(auto, unfolding(crate::specs::LineReading::call_of))]
fn call_of(
    alloc: Global,
    mount: &[u8],
    words: &[u8],
    text: &mut Text,
    step: &mut Step,
) -> Result<(), BadLine>
    ensures value { GivesAs (λ _. step.new) result (call_of mount.now words.now) }
    ensures valid { OnOk result (IsStep step.new) }
    ensures memory { IsErrOf result Memory → IsTrue (takes_data (before BLANK words.now)) }
{
    let Ok((slot, life)) = slot_before(mount, b'.') else {
        return Err(BadLine::Spelling);
    };
    let life = life_of(life)?;
    let (verb, words) = cut(words, BLANK);
    asked_of(alloc, slot, life, verb, words, text, step)
}

/// NAME.
#[tactic(auto, unfolding(crate::specs::LineReading::post_of))]
fn post_of(words: &[u8], step: &mut Step) -> Result<(), BadLine>
    ensures value { GivesAs (λ _. step.new) result (post_of words.now) }
    ensures valid { OnOk result (IsStep step.new) }
    ensures spelling { IfErr result (λ e. e ≡ Spelling) }
{
    let name = name_of(words)?;
    *step = Step::Post(name);
    Ok(())
}

/// WORKER NAME.
#[tactic(auto, unfolding(crate::specs::LineReading::take_of))]
fn take_of(words: &[u8], step: &mut Step) -> Result<(), BadLine>
    ensures value { GivesAs (λ _. step.new) result (take_of words.now) }
    ensures valid { OnOk result (IsStep step.new) }
    ensures spelling { IfErr result (λ e. e ≡ Spelling) }
{
    let Ok((worker, name)) = worker_before(words) else {
        return Err(BadLine::Spelling);
    };
    let name = name_of(name)?;
    *step = Step::Take { worker, name };
    Ok(())
}

/// WORKER NAME.
#[tactic(auto, unfolding(crate::specs::LineReading::begin_of))]
fn begin_of(words: &[u8], step: &mut Step) -> Result<(), BadLine>
    ensures value { GivesAs (λ _. step.new) result (begin_of words.now) }
    ensures valid { OnOk result (IsStep step.new) }
    ensures spelling { IfErr result (λ e. e ≡ Spelling) }
{
    let Ok((worker, name)) = worker_before(words) else {
        return Err(BadLine::Spelling);
    };
    let name = name_of(name)?;
    *step = Step::Begin { worker, name };
    Ok(())
}

/// WORKER NAME TAKEN SYNC.
#[tactic(auto, unfolding(crate::specs::LineReading::end_of))]
fn end_of(words: &[u8], step: &mut Step) -> Result<(), BadLine>
    ensures value { GivesAs (λ _. step.new) result (end_of words.now) }
    ensures valid { OnOk result (IsStep step.new) }
    ensures spelling { IfErr result (λ e. e ≡ Spelling) }
{
    let Ok((worker, words)) = worker_before(words) else {
        return Err(BadLine::Spelling);
    };
    let (name, words) = cut(words, BLANK);
    let name = name_of(name)?;
    let Ok((taken, sync)) = u32_before(words, BLANK) else {
        return Err(BadLine::Spelling);
    };
    let sync = sync_of(sync)?;
    *step = Step::End {
        worker,
        name,
        answers: LogAnswers { taken, sync },
    };
    Ok(())
}

/// WORKER NAME, and the answers.
#[tactic(auto, unfolding(crate::specs::LineReading::flush_of))]
fn flush_of(alloc: Global, words: &[u8], step: &mut Step) -> Result<(), BadLine>
    ensures value { GivesAs (λ _. step.new) result (flush_of words.now) }
    ensures valid { OnOk result (IsStep step.new) }
{
    let Ok((worker, words)) = worker_before(words) else {
        return Err(BadLine::Spelling);
    };
    let (name, answers) = cut(words, BLANK);
    let name = name_of(name)?;
    let answers = home_of(alloc, answers)?;
    *step = Step::Flush {
        worker,
        name,
        answers,
    };
    Ok(())
}

/// A step: its first word, and what stands behind it.
#[tactic(auto, unfolding(crate::specs::LineReading::words_step))]
fn words_step(
    alloc: Global,
    word: &[u8],
    words: &[u8],
    text: &mut Text,
    step: &mut Step,
) -> Result<(), BadLine>
    ensures value { GivesAs (λ _. step.new) result (words_step word.now words.now) }
    ensures valid { OnOk result (IsStep step.new) }
    ensures memory { IsErrOf result Memory → IsTrue (takes_words word.now words.now) }
{
    if is_word(word, b"mount") {
        mount_of(words, step)
    } else if is_word(word, b"post") {
        post_of(words, step)
    } else if is_word(word, b"take") {
        take_of(words, step)
    } else if is_word(word, b"begin") {
        begin_of(words, step)
    } else if is_word(word, b"end") {
        end_of(words, step)
    } else if is_word(word, b"flush") {
        flush_of(alloc, words, step)
    } else if is_word(word, b"show") {
        show_of(words, step)
    } else if is_word(word, b"peek") {
        peek_of(words, step)
    } else {
        call_of(alloc, word, words, text, step)
    }
}

/// Reads a line, loosely where answers or a verb alone stand in it. The buffer may hold anything: what is printed to compare goes into it.
#[tactic(auto, unfolding(crate::specs::LineReading::step_of))]
pub(crate) fn step_of(
    alloc: Global,
    line: &[u8],
    text: &mut Text,
    step: &mut Step,
) -> Result<(), BadLine>
    ensures value { GivesAs (λ _. step.new) result (step_of line.now) }
    ensures valid { OnOk result (IsStep step.new) }
    ensures memory { IsErrOf result Memory → IsTrue (takes_words (before BLANK line.now) (behind BLANK line.now)) }
{
    let (word, words) = cut(line, BLANK);
    words_step(alloc, word, words, text, step)
}
