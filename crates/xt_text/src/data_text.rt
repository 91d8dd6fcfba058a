//! Data as text, both ways. A list of bytes is cut into maximal runs of equal bytes. A run of four or more is
//! `XX*N`, shorter ones are plain digits, and a dot stands between neighbours unless both are short; no bytes are `-`.

ghost use Rattle.std.specs.Prelude.{◌≡◌, ◌==◌, ◌<◌, ◌≤◌, ◌↔◌, ◌++◌, ◌∷◌, IsTrue, List, [], ℕ, length, drop, replicate, take, ◌+◌, ◌*◌, None, Some, IfErr, IsErrOf, IfSome, IfOk};
ghost use Rattle.std.specs.List.{All, flat_map, prefix_len};
ghost use Rattle.xt_text.specs.Buffer.{put};
ghost use Rattle.xt_text.specs.DataReading.{at_end, byte_value, front_at, hex_value, is_count, next, read_content, read_data, reads, spelled_data, with_run};
ghost use Rattle.xt_text.specs.Reading.{Gives, GivesAs};
ghost use Rattle.xt_text.specs.Lines.{IsContent};
ghost use Rattle.xt_text.specs.declared.bad_line.BadLine.TheVariants.{Memory, Spelling};
ghost use Rattle.xt_text.specs.declared.data_text.Place.TheVariants.{Front};
ghost use Rattle.xt_base.specs.Kept.{kept_bytes};
ghost use Rattle.xt_text.specs.DataText.{IsData, between, grown, hex, hex_digit, is_short, run_text, runs, runs_text, spelling};
ghost use Rattle.xt_text.specs.declared.data_text.Run.{Run as ARun};

use crate::bad_line::BadLine;
use crate::buffer::Text;
use crate::numbers::{number_of, number_on, put_number};
use std::alloc::Global;
use xt_base::content::{Content, Data, Kept};
use xt_base::sizes::DATA_BYTES;

/// The shortest run that is spelled with a count.
const COUNTED: usize = 4;

/// The values of a hexadecimal digit.
const DIGITS: u8 = 16;

/// How many bytes are compared at once where runs are counted.
const BLOCK: usize = 128;

/// The room in which few bytes are laid out: it is filled with zeros first, so a small one takes less time.
const SMALL_ROOM: usize = 256;

/// A run of equal bytes.
#[derive(Clone, Copy, Debug)]
struct Run {
    byte: u8,
    count: usize,
}

/// A place among some bytes, and how many bytes more the run has that holds it.
#[derive(Clone, Copy, Debug)]
struct Growth {
    place: usize,
    more: usize,
}

/// How far a part of the text has been read.
#[derive(Clone, Copy, Debug)]
enum Place {
    /// Nothing of it.
    Front,
    /// The first digit of a byte.
    Half(u8),
    /// A byte, which a count may follow.
    Whole(u8),
    /// A byte and the count so far.
    Count(u8, u64),
}

/// The value of a hexadecimal digit in lower case.
fn hex_value(digit: u8) -> Option<u8>
    ensures value { result ≡ hex_value digit }
    ensures range { IfSome result (λ value. value < DIGITS) }
{
    match digit {
        b'0'..=b'9' => Some(digit - b'0'),
        b'a'..=b'f' => Some(digit - b'a' + 10),
        _ => None,
    }
}

/// The byte of two hexadecimal digits.
fn byte_value(high: u8, low: u8) -> Result<u8, BadLine>
    ensures { Gives result (byte_value high low) }
{
    let high = hex_value(high).ok_or(BadLine::Spelling)?;
    let low = hex_value(low).ok_or(BadLine::Spelling)?;
    Ok(DIGITS * high + low)
}

/// Where the next part begins: a dot begins none.
fn front_at(c: u8) -> Place
    ensures { result ≡ front_at c }
{
    if c == b'.' {
        Place::Front
    } else {
        Place::Half(c)
    }
}

/// Puts a run behind some bytes.
fn push_run(bytes: &mut Vec<u8>, byte: u8, count: u64) -> Result<(), BadLine>
    requires { length bytes.old.items ≤ DATA_BYTES }
    ensures value { GivesAs (λ _. bytes.new.items) result (with_run bytes.old.items byte count) }
    ensures short { length bytes.new.items ≤ DATA_BYTES }
{
    let length = bytes.len();
    if count > (DATA_BYTES - length) as u64 {
        return Err(BadLine::Spelling);
    }
    bytes.resize(length + count as usize, byte)?;
    Ok(())
}

/// Takes one more character of the text.
fn read_character(bytes: &mut Vec<u8>, place: Place, c: u8) -> Result<Place, BadLine>
    requires { length bytes.old.items ≤ DATA_BYTES }
    ensures value { GivesAs (λ now. (bytes.new.items, now)) result (next bytes.old.items place c) }
    ensures short { length bytes.new.items ≤ DATA_BYTES }
{
    match place {
        Place::Front => Ok(front_at(c)),
        Place::Half(high) => Ok(Place::Whole(byte_value(high, c)?)),
        Place::Whole(byte) => {
            if c == b'*' {
                return Ok(Place::Count(byte, 0));
            }
            push_run(bytes, byte, 1)?;
            Ok(front_at(c))
        }
        Place::Count(byte, count) => {
            if c == b'.' {
                push_run(bytes, byte, count)?;
                return Ok(Place::Front);
            }
            Ok(Place::Count(byte, number_on(count, c)?))
        }
    }
}

/// Takes the end of the text.
fn read_end(bytes: &mut Vec<u8>, place: Place) -> Result<(), BadLine>
    requires { length bytes.old.items ≤ DATA_BYTES }
    ensures value { GivesAs (λ _. bytes.new.items) result (at_end bytes.old.items place) }
    ensures short { length bytes.new.items ≤ DATA_BYTES }
{
    match place {
        Place::Front => Ok(()),
        Place::Half(_) => Err(BadLine::Spelling),
        Place::Whole(byte) => push_run(bytes, byte, 1),
        Place::Count(byte, count) => push_run(bytes, byte, count),
    }
}

/// The elements of a slice of bytes are bytes.
fn are_bytes(bytes: &[u8])
    ensures { All (λ b. b < 256) bytes.now }
{
    let _count = bytes.len();
}

/// Whether a text begins with a count.
fn is_count(text: &[u8]) -> bool
    ensures { result ≡ is_count text.now }
{
    matches!(text, [b'*', ..])
}

/// The byte at the front of a text, if its two digits stand there and no count behind them, and what stands behind it.
#[tactic(auto, using(crate::proofs::ReadAgain::plain_more))]
fn plain_byte(text: &[u8]) -> Option<(u8, &[u8])>
    ensures more { IfSome result (λ p. (bytes : List ℕ) → length bytes < DATA_BYTES → reads bytes Front text.now ≡ reads (bytes ++ p.0 ∷ []) Front p.1.now) }
    ensures shorter { IfSome result (λ p. length p.1.now < length text.now) }
{
    let [high, low, after @ ..] = text else {
        return None;
    };
    if is_count(after) {
        return None;
    }
    match byte_value(*high, *low) {
        Ok(byte) => Some((byte, after)),
        Err(_) => None,
    }
}

/// Takes the bytes at the front of a text whose two digits stand there and no count, and gives what stands behind them.
fn read_plain<'a>(bytes: &mut Vec<u8>, text: &'a [u8]) -> Result<&'a [u8], BadLine>
    requires { length bytes.old.items ≤ DATA_BYTES }
    ensures rest { IfOk result (λ rest. reads bytes.new.items Front rest.now ≡ reads bytes.old.items Front text.now) }
    ensures short { IfOk result (λ rest. length bytes.new.items ≤ DATA_BYTES) }
    ensures memory { IfErr result (λ e. e ≡ Memory) }
{
    let mut rest = text;
    while let Some((byte, after)) = plain_byte(rest) {
        if bytes.len() >= DATA_BYTES {
            return Ok(rest);
        }
        if bytes.push(byte).is_err() {
            return Err(BadLine::Memory);
        }
        rest = after;
    }
    Ok(rest)
}

/// How many bytes a text may spell before a count: none where it begins with a counted run, as most texts do.
fn room_for(text: &[u8]) -> usize
    ensures { result ≤ length text.now }
{
    match text {
        [_, _, b'*', ..] => 0,
        _ => text.len() / 2,
    }
}

/// Reads all of a text of bytes but its end, loosely: the bytes so far, and how far its last part has been read. Each spelling gives
/// its bytes, and other texts may give some too.
fn read_parts(alloc: Global, text: &[u8]) -> Result<(Vec<u8>, Place), BadLine>
    ensures value { IfOk result (λ p. at_end p.0.items p.1 ≡ read_data text.now) }
    ensures short { IfOk result (λ p. length p.0.items ≤ DATA_BYTES) }
    ensures bad { IsErrOf result Spelling → read_data text.now ≡ None }
{
    let mut bytes = Vec::with_capacity(alloc, room_for(text))?;
    let mut place = Place::Front;
    if text == b"-".as_slice() {
        return Ok((bytes, place));
    }
    let rest = read_plain(&mut bytes, text)?;
    for c in rest {
        place = read_character(&mut bytes, place, *c)?;
    }
    Ok((bytes, place))
}

/// The bytes of a text, of which all but the end was read.
fn with_end(mut bytes: Vec<u8>, place: Place) -> Result<Vec<u8>, BadLine>
    requires { length bytes.items ≤ DATA_BYTES }
    ensures value { GivesAs (λ whole. whole.items) result (at_end bytes.items place) }
    ensures valid { IfOk result (λ whole. IsData whole.items) }
{
    read_end(&mut bytes, place)?;
    are_bytes(&bytes);
    Ok(bytes)
}

/// The run that a text spells with a count in its one spelling, where that is all that it spells.
#[tactic(auto, using(crate::proofs::DataStrict::counted_strict, crate::proofs::DataStrict::byte_small))]
fn counted_run(text: &[u8]) -> Option<Run>
    ensures value { IfSome result (λ run. text.now ≡ spelling (replicate run.count run.byte)) }
    ensures short { IfSome result (λ run. run.count ≤ DATA_BYTES) }
    ensures range { IfSome result (λ run. run.byte < 256) }
{
    let [high, low, star, digits @ ..] = text else {
        return None;
    };
    let byte = byte_value(*high, *low).ok()?;
    let count = number_of(digits).ok()? as usize;
    if *star != b'*' || count < COUNTED || count > DATA_BYTES {
        return None;
    }
    Some(Run { byte, count })
}

/// Reads what a request carries from its text, loosely.
fn read_data(alloc: Global, text: &[u8]) -> Result<Data, BadLine>
    ensures value { Gives result (read_data text.now) }
    ensures valid { IfOk result IsData }
{
    let (bytes, place) = read_parts(alloc, text)?;
    let bytes = with_end(bytes, place)?;
    Ok(Data::of_vec(alloc, bytes)?.unwrap())
}

/// Whether a text is the one spelling of some data.
#[tactic(auto, using(crate::proofs::DataStrict::printed_whole))]
fn is_spelling(text: &[u8], bytes: &Data, out: &mut Text) -> bool
    ensures { IsTrue result ↔ (text.now ≡ spelling bytes.now) }
{
    out.clear();
    put_data(out, bytes);
    out.holds(text)
}

/// Reads what a request carries from its one spelling: what is read of it is printed to tell, where it is more than one run.
#[tactic(auto, using(crate::proofs::DataStrict::counted_again))]
pub(crate) fn spelled_data(alloc: Global, text: &[u8], out: &mut Text) -> Result<Data, BadLine>
    ensures value { Gives result (spelled_data text.now) }
    ensures valid { IfOk result IsData }
{
    if let Some(run) = counted_run(text) {
        return Ok(Data::of_repeated(alloc, run.byte, run.count)?.unwrap());
    }
    let data = read_data(alloc, text)?;
    if is_spelling(text, &data, out) {
        Ok(data)
    } else {
        Err(BadLine::Spelling)
    }
}

/// Reads the content of a block from its text, loosely; a text of any length but the four that a block may have is a bad spelling.
pub(crate) fn read_content(alloc: Global, text: &[u8]) -> Result<Content, BadLine>
    ensures value { Gives result (read_content text.now) }
    ensures valid { IfOk result IsContent }
{
    let (bytes, place) = read_parts(alloc, text)?;
    let bytes = with_end(bytes, place)?;
    Content::of_vec(alloc, bytes)?.ok_or(BadLine::Spelling)
}

/// Two lists of bytes that are spelled alike are one list.
pub fn one_spelling()
    ensures { (a b : List ℕ) → IsData a → IsData b → spelling a ≡ spelling b → a ≡ b }
{}

/// Whether a run is spelled without a count.
fn is_short(run: Run) -> bool
    ensures { result ≡ is_short run }
{
    run.count < COUNTED
}

/// A hexadecimal digit in lower case.
fn hex_digit(value: u8) -> u8
    requires { value < DIGITS }
    ensures { result ≡ hex_digit value }
{
    let base = if value < 10 { b'0' } else { b'a' - 10 };
    base + value
}

/// Puts a byte as two digits.
#[inline(always)]
pub(crate) fn put_hex(out: &mut Text, byte: u8)
    ensures { out.new ≡ put out.old (hex byte) }
{
    out.push_both(hex_digit(byte / DIGITS), hex_digit(byte % DIGITS));
}

/// Puts a run's text: a byte that stands alone, as most do, at once.
#[inline(always)]
#[tactic(auto, using(crate::proofs::BufferLemmas::put_put, crate::proofs::BufferLemmas::put_none, crate::proofs::RunLemmas::hex_more))]
fn put_run(out: &mut Text, run: Run)
    ensures { out.new ≡ put out.old (run_text run) }
{
    if run.count == 1 {
        put_hex(out, run.byte);
    } else {
        put_longer(out, run);
    }
}

/// Puts a run whose count has one digit: all at once.
#[inline(always)]
#[tactic(auto, using(std::proofs::lemmas::Fmt::decimal_digit))]
fn put_counted(out: &mut Text, run: Run)
    requires least { COUNTED ≤ run.count }
    requires most { run.count < 10 }
    ensures { out.new ≡ put out.old (run_text run) }
{
    let (high, low) = (hex_digit(run.byte / DIGITS), hex_digit(run.byte % DIGITS));
    out.put(&[high, low, b'*', b'0' + run.count as u8]);
}

/// Puts a byte three times: all at once.
#[inline(always)]
fn put_thrice(out: &mut Text, byte: u8)
    ensures { out.new ≡ put out.old (flat_map hex (replicate 3 byte)) }
{
    let (high, low) = (hex_digit(byte / DIGITS), hex_digit(byte % DIGITS));
    out.put(&[high, low, high, low, high, low]);
}

/// The same of a longer run: of three bytes, or of a count of one digit, as most are, at once.
#[inline(never)]
fn put_longer(out: &mut Text, run: Run)
    ensures { out.new ≡ put out.old (run_text run) }
{
    if run.count >= COUNTED && run.count < 10 {
        put_counted(out, run);
    } else if run.count == 3 {
        put_thrice(out, run.byte);
    } else {
        put_any(out, run);
    }
}

/// The same of any run.
#[inline(never)]
#[tactic(auto, using(crate::proofs::BufferLemmas::put_put, crate::proofs::BufferLemmas::put_none, crate::proofs::RunLemmas::hex_more))]
fn put_any(out: &mut Text, run: Run)
    ensures { out.new ≡ put out.old (run_text run) }
{
    if is_short(run) {
        for _ in 0..run.count {
            put_hex(out, run.byte);
        }
    } else {
        put_hex(out, run.byte);
        out.push(b'*');
        put_number(out, run.count as u64);
    }
}

/// The bytes after a block, if it stands at the front.
fn after_block<'a>(bytes: &'a [u8], block: &[u8]) -> Option<&'a [u8]>
    ensures { IfSome result (λ after. bytes.now ≡ block.now ++ after.now) }
{
    match bytes.strip_prefix(block) {
        Some(after) => Some(after),
        None => None,
    }
}

/// How many bytes equal to one stand at the front, one by one.
fn count_front(bytes: &[u8], byte: u8) -> usize
    ensures value { result ≡ prefix_len (λ x. x == byte) bytes.now }
    ensures bound { result ≤ length bytes.now }
{
    bytes.iter().take_while(|x| **x == byte).count()
}

/// How many bytes equal to one stand at the front, which is one byte where the next is another: where the last byte of a block is
/// equal to it too, whole blocks first, since these are compared at once.
fn count_equal(bytes: &[u8], byte: u8) -> usize
    ensures value { result ≡ prefix_len (λ x. x == byte) bytes.now }
{
    match bytes {
        [first, second, ..] if *first == byte && *second != byte => 1,
        _ if bytes.len() >= BLOCK && bytes[BLOCK - 1] == byte => count_blocks(bytes, byte),
        [first, second, after @ ..] if *first == byte && *second == byte => {
            2 + count_front(after, byte)
        }
        _ => count_front(bytes, byte),
    }
}

/// The same by whole blocks first. It stands apart, since few runs are so long.
#[inline(never)]
#[tactic(auto, using(crate::proofs::RunLemmas::block_more))]
fn count_blocks(bytes: &[u8], byte: u8) -> usize
    ensures value { result ≡ prefix_len (λ x. x == byte) bytes.now }
{
    let block = [byte; BLOCK];
    let mut count = 0;
    let mut rest = bytes;
    while let Some(after) = after_block(rest, &block) {
        count += BLOCK;
        rest = after;
    }
    count + count_front(rest, byte)
}

/// The first run of some bytes.
#[tactic(auto, using(crate::proofs::RunLemmas::runs_first, crate::proofs::RunLemmas::first_count))]
fn first_run(bytes: &[u8]) -> Run
    requires { 0 < length bytes.now }
    ensures first { runs bytes.now ≡ result ∷ runs (drop result.count bytes.now) }
    ensures some { 0 < result.count }
    ensures within { result.count ≤ length bytes.now }
{
    let byte = bytes[0];
    Run {
        byte,
        count: count_equal(bytes, byte),
    }
}

/// Puts the one spelling of a byte that stands so many times.
#[tactic(auto, using(crate::proofs::RunLemmas::spelling_of_run))]
fn put_repeated(out: &mut Text, run: Run)
    ensures { out.new ≡ put out.old (spelling (replicate run.count run.byte)) }
{
    if run.count == 0 {
        out.put(b"-");
    } else {
        put_run(out, run);
    }
}

/// Puts the one spelling of what a request carries or a device was offered.
pub(crate) fn put_data(out: &mut Text, bytes: &Data)
    ensures text { out.new ≡ put out.old (spelling bytes.now) }
    ensures few { length bytes.now ≤ DATA_BYTES }
{
    let kept = bytes.kept();
    if kept.bytes.is_empty() {
        let (byte, count) = (kept.byte, kept.count as usize);
        put_repeated(out, Run { byte, count });
    } else if kept.count == 0 {
        put_bytes(out, &kept.bytes);
    } else if kept.bytes.len() < SMALL_ROOM {
        put_laid_out::<SMALL_ROOM>(out, kept);
    } else {
        put_laid_out::<DATA_BYTES>(out, kept);
    }
}

/// Lays out what data are kept as, with its byte once.
fn lay_out(kept: &Kept, room: &mut [u8])
    requires room { length room.old ≡ length kept.now.bytes.items + 1 }
    requires first { kept.now.first ≤ length kept.now.bytes.items }
    ensures { room.new ≡ take kept.now.first kept.now.bytes.items ++ replicate 1 kept.now.byte ++ drop kept.now.first kept.now.bytes.items }
{
    let (head, tail) = kept.bytes.split_at(kept.first as usize);
    let (front, rest) = room.split_at_mut(head.len());
    let (middle, back) = rest.split_at_mut(1);
    front.copy_from_slice(head);
    middle.fill(kept.byte);
    back.copy_from_slice(tail);
}

/// The same, where one byte stands many times among the others: these are laid out with it once, in a room of so many bytes, and its
/// run grows.
#[tactic(auto, using(crate::proofs::RunLemmas::grown_spelling))]
fn put_laid_out<const ROOM: usize>(out: &mut Text, kept: &Kept)
    requires fits { length kept.now.bytes.items < ROOM }
    requires size { ROOM ≤ DATA_BYTES }
    requires few { length kept.now.bytes.items + kept.now.count ≤ DATA_BYTES }
    requires some { 0 < kept.now.count }
    requires first { kept.now.first ≤ length kept.now.bytes.items }
    ensures { out.new ≡ put out.old (spelling (kept_bytes kept.now)) }
{
    let mut room = [0; ROOM];
    let all = &mut room[..kept.bytes.len() + 1];
    lay_out(kept, all);
    let growth = Growth {
        place: kept.first as usize,
        more: kept.count as usize - 1,
    };
    put_grown(out, all, growth);
}

/// A run that may hold the place that grows, and how the runs behind it grow.
#[tactic(auto, using(crate::proofs::RunLemmas::grown_none))]
fn grow(run: Run, growth: Growth) -> (Run, Growth)
    requires { run.count + growth.more ≤ 2 * DATA_BYTES }
    ensures first { (rs : List ARun) → grown growth.place growth.more (run ∷ rs) ≡ result.0 ∷ grown result.1.place result.1.more rs }
    ensures more { result.1.more ≤ growth.more }
{
    if growth.place < run.count {
        let count = run.count + growth.more;
        let byte = run.byte;
        (Run { byte, count }, Growth { place: 0, more: 0 })
    } else {
        let place = growth.place - run.count;
        let more = growth.more;
        (run, Growth { place, more })
    }
}

/// Puts a dot between two runs, unless both are short.
#[inline(always)]
#[tactic(auto, using(crate::proofs::BufferLemmas::put_none))]
fn put_between(out: &mut Text, last: Run, run: Run)
    ensures { out.new ≡ put out.old (between last run) }
{
    if !(is_short(last) && is_short(run)) {
        out.push(b'.');
    }
}

/// Puts the runs of some bytes, of which one grows.
#[tactic(auto, using(crate::proofs::BufferLemmas::put_put, crate::proofs::BufferLemmas::put_none))]
fn put_grown(out: &mut Text, bytes: &[u8], growth: Growth)
    requires some { 0 < length bytes.now }
    requires few { length bytes.now + growth.more ≤ DATA_BYTES }
    ensures { out.new ≡ put out.old (runs_text (grown growth.place growth.more (runs bytes.now))) }
{
    let own = first_run(bytes);
    let (mut last, mut left) = grow(own, growth);
    put_run(out, last);
    let mut rest = &bytes[own.count..];
    while !rest.is_empty() {
        let own = first_run(rest);
        let (run, after) = grow(own, left);
        put_between(out, last, run);
        put_run(out, run);
        rest = &rest[own.count..];
        last = run;
        left = after;
    }
}

/// Puts the one spelling of some bytes.
#[tactic(auto, using(crate::proofs::BufferLemmas::put_put, crate::proofs::BufferLemmas::put_none))]
pub(crate) fn put_bytes(out: &mut Text, bytes: &[u8])
    ensures { out.new ≡ put out.old (spelling bytes.now) }
{
    if bytes.is_empty() {
        out.put(b"-");
        return;
    }
    let mut last = first_run(bytes);
    put_run(out, last);
    let mut rest = &bytes[last.count..];
    while !rest.is_empty() {
        let run = first_run(rest);
        put_between(out, last, run);
        put_run(out, run);
        rest = &rest[run.count..];
        last = run;
    }
}
