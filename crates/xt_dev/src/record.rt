//! A record of calls, kept as long as there is memory for it.

ghost use Rattle.std.specs.Prelude.{◌≡◌, ◌++◌, ◌∷◌, [], true, IfSome, IsSomeAnd, IsNone};

use std::alloc::Global;

/// The calls of a device in order, until one finds no memory; from then on it says nothing.
#[derive(Drop)]
pub struct Record<C> {
    pub calls: Vec<C>,
    pub tells: bool,
}

impl<C: Drop> Record<C> {
    /// No call yet.
    pub fn new(alloc: Global) -> Self
        ensures calls { result.calls.items ≡ [] }
        ensures tells { result.tells ≡ true }
    {
        Record {
            calls: Vec::new(alloc),
            tells: true,
        }
    }

    /// The calls, where it still tells them.
    pub fn told(&self) -> Option<&[C]>
        ensures told { self.now.tells ≡ true → IsSomeAnd result (λ calls. calls.now ≡ self.now.calls.items) }
        ensures silent { IfSome result (λ _. self.now.tells ≡ true) }
    {
        if self.tells { Some(&self.calls) } else { None }
    }

    /// Notes a call, which is None where there was no memory for it.
    pub(crate) fn note(&mut self, call: Option<C>)
        ensures told { self.new.tells ≡ true → self.old.tells ≡ true }
        ensures call { self.new.tells ≡ true → IfSome call (λ c. self.new.calls.items ≡ self.old.calls.items ++ c ∷ []) }
        ensures silent { self.new.tells ≡ true → IsNone call → ⊥ }
    {
        let noted = match call {
            Some(call) => self.tells && self.calls.push(call).is_ok(),
            None => false,
        };
        self.tells = noted;
    }
}
