//! Which sessions have ended, told by their threads to the one that accepts.

ghost use Rattle.std.specs.Prelude.{◌≡◌, ◌<◌, All, IfNone, IfSome, MatchOption, false, slice_index_or, slice_set, true};
ghost use Rattle.xt_service.specs.declared.ended.TheConstants.{PLACES};

use std::sync::{Condvar, Mutex, Wait};

/// How many sessions there are at a time, at most.
pub const PLACES: usize = 16;

/// Which numbers of sessions were told as ended. Threads share it.
#[derive(Drop)]
pub struct Ended {
    told: Mutex<[bool; PLACES]>,
    changed: Condvar,
}

/// Sets whether the session of a number, below 16, is told as ended.
fn set_told(told: &mut [bool; PLACES], number: usize, is_told: bool)
    ensures { told.new ≡ slice_set told.old number is_told }
{
    if number < PLACES {
        told[number] = is_told;
    }
}

/// The first number that was told, which is then told no more.
fn first_told(told: &mut [bool; PLACES]) -> Option<usize>
    ensures below { IfSome result (λ first. first < PLACES) }
    ensures was { IfSome result (λ first. slice_index_or told.old first false ≡ true) }
    ensures left { MatchOption result (told.new ≡ told.old) (λ first. told.new ≡ slice_set told.old first false) }
    ensures none { IfNone result (All (λ is_told. is_told ≡ false) told.old) }
{
    let first = told.iter().position(|is_told| *is_told)?;
    set_told(told, first, false);
    Some(first)
}

impl Ended {
    /// No session has ended.
    pub fn new() -> Self {
        Ended {
            told: Mutex::new([false; PLACES]),
            changed: Condvar::new(),
        }
    }

    /// Tells that the session of a number, below 16, has ended.
    pub fn tell<R: Wait>(&self, rt: &R, number: usize) {
        set_told(&mut self.told.lock(rt), number, true);
        self.changed.notify_all();
    }

    /// Forgets that the session of a number was told as ended.
    pub fn forget<R: Wait>(&self, rt: &R, number: usize) {
        set_told(&mut self.told.lock(rt), number, false);
    }

    /// Waits until a session was told as ended: its number, which is then told no more.
    pub fn next<R: Wait>(&self, rt: &R) -> usize
        ensures { result < PLACES }
    {
        let mut told = self.told.lock(rt);
        for _ in rt.forever() {
            if let Some(number) = first_told(&mut told) {
                return number;
            }
            told = self.changed.wait(rt, told);
        }
        unreachable!()
    }
}
