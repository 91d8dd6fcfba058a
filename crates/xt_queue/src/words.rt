//! The words of the board: a life, and 0 for live or the number of a reason.

ghost use Rattle.std.specs.Prelude.{◌≡◌, ◌≤◌};
ghost use Rattle.xt_queue.specs.Words.{IsWord, code_of, word_of};

use xt_base::names::Life;
use xt_base::steps::Reason;

/// 0 for live, 1 to 4 for the reasons in order.
fn code(state: Option<Reason>) -> u64
    ensures value { result ≡ code_of state }
    ensures range { result ≤ 4 }
{
    match state {
        None => 0,
        Some(Reason::MetaIoError) => 1,
        Some(Reason::LogIoError) => 2,
        Some(Reason::ForceUmount) => 3,
        Some(Reason::CorruptIncore) => 4,
    }
}

/// The state of a code.
fn state(code: u64) -> Option<Reason>
    requires range { code ≤ 4 }
    ensures value { code_of result ≡ code }
{
    match code {
        0 => None,
        1 => Some(Reason::MetaIoError),
        2 => Some(Reason::LogIoError),
        3 => Some(Reason::ForceUmount),
        _ => Some(Reason::CorruptIncore),
    }
}

/// The word of a life, live or shut for a reason.
pub fn word(life: Life, shut: Option<Reason>) -> u64
    ensures value { result ≡ word_of life shut }
    ensures formed { IsWord result }
{
    8 * u64::from(life.0) + code(shut)
}

/// The life and state of a word.
pub fn reading(word: u64) -> (Life, Option<Reason>)
    requires formed { IsWord word }
    ensures value { word_of result.0 result.1 ≡ word }
{
    (Life((word / 8) as u32), state(word % 8))
}
