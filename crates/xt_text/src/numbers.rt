//! Numbers as text: decimal without leading zeros, both ways.

ghost use Rattle.std.specs.Fmt.{decimal};
ghost use Rattle.std.specs.Prelude.{◌≡◌, ◌<◌, ◌≤◌, ◌∷◌, ◌+◌, ◌/◌, ◌%◌, [], None, Some, drop, length, IfErr, IfOk, IfSome};
ghost use Rattle.xt_text.specs.Buffer.{put};
ghost use Rattle.xt_text.specs.LineReading.{before, behind};
ghost use Rattle.xt_text.specs.Reading.{Gives, GivesAs, below, is_plain, number_of, number_on};
ghost use Rattle.xt_text.specs.declared.bad_line.BadLine.TheVariants.{Spelling};

use crate::bad_line::BadLine;
use crate::buffer::Text;
use itoa::Buffer;

/// Numbers below it have room for one more digit, whichever it is.
const ROOM: u64 = 1_844_674_407_370_955_161;

/// A number with one more digit; a number over the greatest u64 is a bad spelling.
pub(crate) fn number_on(number: u64, digit: u8) -> Result<u64, BadLine>
    ensures value { Gives result (number_on number digit) }
    ensures spelling { IfErr result (λ e. e ≡ Spelling) }
{
    if !digit.is_ascii_digit() {
        return Err(BadLine::Spelling);
    }
    let units = (digit - b'0') as u64;
    if number < ROOM {
        return Ok(10 * number + units);
    }
    let tens = number.checked_mul(10).ok_or(BadLine::Spelling)?;
    tens.checked_add(units).ok_or(BadLine::Spelling)
}

/// Whether a word has a first character, and no other behind a zero.
#[inline(always)]
fn is_plain(word: &[u8]) -> bool
    ensures { result ≡ is_plain word.now }
{
    match word {
        [] => false,
        [_] => true,
        [first, ..] => *first != b'0',
    }
}

/// The number of some digits: at least one, and none behind a zero that leads. A digit that stands alone, as in many numbers of a line, is
/// read at once.
#[inline(always)]
pub(crate) fn number_of(word: &[u8]) -> Result<u64, BadLine>
    ensures value { Gives result (number_of word.now) }
    ensures spelling { IfErr result (λ e. e ≡ Spelling) }
{
    match word {
        [digit] if digit.is_ascii_digit() => Ok((*digit - b'0') as u64),
        _ => digits_of(word),
    }
}

/// The same digit by digit.
fn digits_of(word: &[u8]) -> Result<u64, BadLine>
    ensures value { Gives result (number_of word.now) }
    ensures spelling { IfErr result (λ e. e ≡ Spelling) }
{
    if !is_plain(word) {
        return Err(BadLine::Spelling);
    }
    let mut number = 0;
    for digit in word {
        number = number_on(number, *digit)?;
    }
    Ok(number)
}

/// Whether what stands before the first separator of a text has a first character, and no other behind a zero.
#[inline(always)]
fn is_plain_before(text: &[u8], separator: u8) -> bool
    ensures { result ≡ is_plain (before separator text.now) }
{
    match text {
        [] => false,
        [first] => *first != separator,
        [first, second, ..] => { *first != separator && (*first != b'0' || *second == separator) }
    }
}

/// The first character of a text, if it has one that is no separator, and what stands behind it.
#[inline(always)]
#[tactic(auto, using(crate::proofs::CutLemmas::before_step, crate::proofs::CutLemmas::behind_step))]
pub(crate) fn next_of(text: &[u8], separator: u8) -> Option<(u8, &[u8])>
    ensures before { IfSome result (λ p. before separator text.now ≡ p.0 ∷ before separator p.1.now) }
    ensures behind { IfSome result (λ p. behind separator text.now ≡ behind separator p.1.now) }
    ensures shorter { IfSome result (λ p. length p.1.now < length text.now) }
    ensures end { result ≡ None → before separator text.now ≡ [] }
    ensures rest { result ≡ None → behind separator text.now ≡ drop 1 text.now }
{
    match text {
        [first, after @ ..] if *first != separator => Some((*first, after)),
        _ => None,
    }
}

/// What stands behind the first character of a text.
#[inline(always)]
fn behind_first(text: &[u8]) -> &[u8]
    ensures { result.now ≡ drop 1 text.now }
{
    match text {
        [_, after @ ..] => after,
        [] => text,
    }
}

/// The digit that stands alone before the first separator of a text, if one does, and what stands behind that.
#[inline(always)]
fn digit_before(text: &[u8], separator: u8) -> Option<(u64, &[u8])>
    ensures value { IfSome result (λ p. number_of (before separator text.now) ≡ Some p.0) }
    ensures rest { IfSome result (λ p. p.1.now ≡ behind separator text.now) }
{
    match text {
        [digit, second, after @ ..]
            if *second == separator && *digit != separator && digit.is_ascii_digit() => {
            Some(((*digit - b'0') as u64, after))
        }
        _ => None,
    }
}

/// The number that stands before the first separator of a text, and what stands behind that: a text is read once, and a digit that
/// stands alone, as in many numbers of a line, at once.
#[inline(always)]
pub(crate) fn number_before(text: &[u8], separator: u8) -> Result<(u64, &[u8]), BadLine>
    ensures value { GivesAs (λ p. p.0) result (number_of (before separator text.now)) }
    ensures rest { IfOk result (λ p. p.1.now ≡ behind separator text.now) }
    ensures spelling { IfErr result (λ e. e ≡ Spelling) }
{
    match digit_before(text, separator) {
        Some(read) => Ok(read),
        None => digits_before(text, separator),
    }
}

/// The same digit by digit.
fn digits_before(text: &[u8], separator: u8) -> Result<(u64, &[u8]), BadLine>
    ensures value { GivesAs (λ p. p.0) result (number_of (before separator text.now)) }
    ensures rest { IfOk result (λ p. p.1.now ≡ behind separator text.now) }
    ensures spelling { IfErr result (λ e. e ≡ Spelling) }
{
    if !is_plain_before(text, separator) {
        return Err(BadLine::Spelling);
    }
    let mut number = 0;
    let mut rest = text;
    while let Some((digit, after)) = next_of(rest, separator) {
        number = number_on(number, digit)?;
        rest = after;
    }
    Ok((number, behind_first(rest)))
}

/// The same of a number below a limit.
pub(crate) fn below_before(text: &[u8], separator: u8, limit: u64) -> Result<(u64, &[u8]), BadLine>
    ensures value { GivesAs (λ p. p.0) result (below limit (before separator text.now)) }
    ensures range { IfOk result (λ p. p.0 < limit) }
    ensures rest { IfOk result (λ p. p.1.now ≡ behind separator text.now) }
    ensures spelling { IfErr result (λ e. e ≡ Spelling) }
{
    let (number, rest) = number_before(text, separator)?;
    if number < limit {
        Ok((number, rest))
    } else {
        Err(BadLine::Spelling)
    }
}

/// A number below a limit.
pub(crate) fn below(word: &[u8], limit: u64) -> Result<u64, BadLine>
    ensures value { Gives result (below limit word.now) }
    ensures range { IfOk result (λ number. number < limit) }
    ensures spelling { IfErr result (λ e. e ≡ Spelling) }
{
    let number = number_of(word)?;
    if number < limit {
        Ok(number)
    } else {
        Err(BadLine::Spelling)
    }
}

/// Puts the two last digits of a number.
#[inline(always)]
fn put_pair(out: &mut Text, pair: u64)
    requires { pair < 100 }
    ensures { out.new ≡ put out.old ((48 + pair / 10) ∷ (48 + pair % 10) ∷ []) }
{
    out.push_both(b'0' + (pair / 10) as u8, b'0' + (pair % 10) as u8);
}

/// Puts a number of one digit or two.
#[inline(always)]
#[tactic(auto, using(crate::proofs::Lengths::two_digits, std::proofs::lemmas::Fmt::decimal_digit))]
fn put_few(out: &mut Text, number: u64)
    requires { number < 100 }
    ensures { out.new ≡ put out.old (decimal number) }
{
    if number < 10 {
        out.push(b'0' + number as u8);
    } else {
        put_pair(out, number);
    }
}

/// Puts a number in decimal: a digit or two, as most numbers of a line have, at once.
#[inline(always)]
#[tactic(auto, using(crate::proofs::Lengths::decimal_fits))]
pub(crate) fn put_number(out: &mut Text, number: u64)
    ensures text { out.new ≡ put out.old (decimal number) }
    ensures short { length (decimal number) ≤ 20 }
{
    if number < 100 {
        put_few(out, number);
    } else {
        put_digits(out, number);
    }
}

/// Puts a number of more digits in decimal: up to four of them by twos.
#[inline(never)]
#[tactic(auto, using(crate::proofs::BufferLemmas::put_put, crate::proofs::Lengths::hundreds))]
fn put_digits(out: &mut Text, number: u64)
    requires { 100 ≤ number }
    ensures { out.new ≡ put out.old (decimal number) }
{
    if number < 10_000 {
        put_few(out, number / 100);
        put_pair(out, number % 100);
        return;
    }
    let mut buffer = Buffer::new();
    out.put(buffer.format(number).as_bytes());
}
