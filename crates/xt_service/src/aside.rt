//! The names of jobs for which a worker found no memory.

ghost use Rattle.std.specs.Prelude.{◌≡◌, ◌≤◌, ◌<◌, ◌↔◌, ℕ, IfSome, IsTrue, None, Some, replicate, slice_set};
ghost use Rattle.std.specs.List.{Contains};
ghost use Rattle.xt_service.specs.declared.aside.TheConstants.{MOST_ASIDE};

use xt_base::names::JobName;

/// How many names one worker puts aside at most: one of each kind for each slot.
const MOST_ASIDE: usize = 32;

/// Names that were taken and are to be done still, in the order in which they were put aside. What was taken out again leaves its place as it
/// is, until another name is put there.
#[derive(Drop)]
pub(crate) struct Aside {
    places: [Option<JobName>; MOST_ASIDE],
    first: usize,
    count: usize,
    /// Whether another name was taken since one of these was tried again.
    is_due: bool,
    ghost bounds: { first < MOST_ASIDE },
    ghost most: { count ≤ MOST_ASIDE },
}

impl Aside {
    /// None yet.
    pub(crate) fn new() -> Self
        ensures { result.places ≡ replicate MOST_ASIDE None }
    {
        Aside {
            places: [None; MOST_ASIDE],
            first: 0,
            count: 0,
            is_due: false,
        }
    }

    /// Whether one more may be put aside.
    pub(crate) fn has_room(&self) -> bool
        ensures { IsTrue result ↔ (self.now.count < MOST_ASIDE) }
    {
        self.count < MOST_ASIDE
    }

    /// Whether one of them is to be tried before another name is taken: they take turns, so that neither holds up the other.
    pub(crate) fn is_due(&self) -> bool {
        self.is_due && self.count > 0
    }

    /// Notes that another name was taken.
    pub(crate) fn pass_over(&mut self)
        ensures places { self.new.places ≡ self.old.places }
        ensures count { self.new.count ≡ self.old.count }
    {
        self.is_due = true;
    }

    /// Puts a name behind the others.
    pub(crate) fn put(&mut self, name: JobName)
        requires room { self.old.count < MOST_ASIDE }
        ensures { (place : ℕ) × (self.new.places ≡ slice_set self.old.places place (Some name)) }
    {
        let place = (self.first + self.count) % MOST_ASIDE;
        self.places[place] = Some(name);
        self.count += 1;
    }

    /// Takes out the one that was put aside first, if there is one.
    pub(crate) fn take(&mut self) -> Option<JobName>
        ensures name { IfSome result (λ name. Contains self.old.places (Some name)) }
        ensures room { IfSome result (λ _. self.new.count < MOST_ASIDE) }
        ensures places { self.new.places ≡ self.old.places }
    {
        if self.count == 0 {
            return None;
        }
        let name = self.places[self.first];
        self.first = (self.first + 1) % MOST_ASIDE;
        self.count -= 1;
        self.is_due = false;
        name
    }
}
