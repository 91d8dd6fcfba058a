//! Laws of lists of steps and of hosts. Each function does nothing: its clause is the law.

ghost use Rattle.std.specs.Prelude.{◌≡◌, ℕ, List, false, take, true};
ghost use Rattle.xt_base.specs.Isolation.{is_refused, Tells, Told};
ghost use Rattle.xt_base.specs.Order.{orderly};
ghost use Rattle.xt_base.specs.Steps.{slot_of, strike};
ghost use Rattle.xt_base.specs.declared.steps.Reply.{Reply as AReply};
ghost use Rattle.xt_base.specs.declared.steps.Step.{Step as AStep};
ghost use Rattle.xt_core.specs.Host.{lone_of, may_come, Host, IsSharedAlike, IsTaken};
ghost use Rattle.xt_core.specs.Runs.{IsSameFor};

/// Two worlds: where two lists of steps agree on what names a slot, two runs of them, neither of which
/// refused the slot memory, tell the slot the same: its replies, its offers, and why it is shut.
pub fn two_worlds()
    ensures { (m : ℕ) (xs ys : List AStep) (o p : Told) → Tells xs o → Tells ys p → strike xs m ≡ strike ys m → is_refused m o ≡ false → is_refused m p ≡ false → IsSameFor m o p }
{}

/// Each beginning of an orderly list is orderly, and so are the steps of each slot by themselves.
pub fn orderly_parts()
    ensures begun { (xs : List AStep) (n : ℕ) → orderly xs ≡ true → orderly (take n xs) ≡ true }
    ensures struck { (xs : List AStep) (m : ℕ) → orderly xs ≡ true → orderly (strike xs m) ≡ true }
{}

/// Slots share nothing but the front of the queue and the hands of the workers: two hosts in which the
/// slot of a step is alike, and of the rest only what the step can see of it, let the step come alike, answer it alike, and
/// leave its slot alike.
pub fn front_and_hands_are_shared()
    ensures order { (a b : Host) (x : AStep) → IsSharedAlike x a b → lone_of a (slot_of x) ≡ lone_of b (slot_of x) → may_come a x ≡ may_come b x }
    ensures turn { (a b c d : Host) (x : AStep) (r q : AReply) → lone_of a (slot_of x) ≡ lone_of b (slot_of x) → IsTaken x r c a → IsTaken x q d b → (r ≡ q) × (lone_of c (slot_of x) ≡ lone_of d (slot_of x)) }
{}
