//! Laws of the definitions. Each function does nothing: its clause is the law.

ghost use Rattle.std.specs.Prelude.{◌≡◌, ◌≤◌, ◌==◌, ◌+◌, [], ℕ, Bool, List, Option, Some, true, false, is_none, length, sum_by};
ghost use Rattle.xt_base.specs.Calls.{alloc, alone_with, is_own};
ghost use Rattle.xt_base.specs.Form.{Form as AnyForm, IsForm, form_of, is_size};
ghost use Rattle.xt_base.specs.Jobs.{begin as begin_job, end as end_job, flush as flush_job, flush_plan, is_ckpt, is_waiting, posted};
ghost use Rattle.xt_base.specs.Laws.{LooksAlike, after_calls, is_look, landed_since, names, uses};
ghost use Rattle.xt_base.specs.Maps.{is_in};
ghost use Rattle.xt_base.specs.Order.{has_size};
ghost use Rattle.xt_base.specs.Owed.{is_owed};
ghost use Rattle.xt_base.specs.Settle.{Dropped};
ghost use Rattle.xt_base.specs.Sized.{IsSized};
ghost use Rattle.xt_base.specs.Sound.{Each, IsSound};
ghost use Rattle.xt_base.specs.Space.{cost, flight_items, granted, least_number, still_needed, used};
ghost use Rattle.xt_base.specs.State.{IsWithoutTrace, State, mount_of};
ghost use Rattle.xt_base.specs.declared.names.JobKind.{JobKind as AnyKind};
ghost use Rattle.xt_base.specs.declared.names.JobName.{JobName as AnyName};
ghost use Rattle.xt_base.specs.declared.sizes.TheConstants.{MOST_LOG};
ghost use Rattle.xt_base.specs.declared.steps.Answer.{Answer as AnyAnswer};
ghost use Rattle.xt_base.specs.declared.steps.HomeAnswers.{HomeAnswers as AnyWrites};
ghost use Rattle.xt_base.specs.declared.steps.LogAnswers.{LogAnswers as AnyPieces};
ghost use Rattle.xt_base.specs.declared.steps.Reply.{Reply as AnyReply};
ghost use Rattle.xt_base.specs.declared.steps.Request.{Request as AnyRequest};

/// A transaction sees only what it locked: two states that look alike to it at a block answer
/// it alike, whatever else they are; and what a block that it has looks like is changed by no
/// call that does not name the transaction, and by no job.
pub fn sees_only_locked()
    ensures locked { (t b : ℕ) (s u : State) (request : AnyRequest) (given other : AnyAnswer) (dropped left : Dropped)
        → LooksAlike t b s u → uses t b request ≡ true → (alone_with dropped request given s).reply ≡ (alone_with left request other u).reply }
    ensures calls { (t b : ℕ) (s : State) (request : AnyRequest) (answer : AnyAnswer) (dropped : Dropped)
        → IsSound s → is_in t s.transactions ≡ true → is_own s t b ≡ true → names t request ≡ false → LooksAlike t b s (alone_with dropped request answer s).state }
    ensures posts { (t b : ℕ) (s : State) (kind : AnyKind) → IsSound s → is_own s t b ≡ true → LooksAlike t b s (posted kind s) }
    ensures begins { (t b : ℕ) (s : State) → IsSound s → is_own s t b ≡ true → LooksAlike t b s (begin_job s).state }
    ensures ends { (t b : ℕ) (s : State) (answers : AnyPieces) (dropped : Dropped) → IsSound s → is_own s t b ≡ true → LooksAlike t b s (end_job dropped answers s).state }
    ensures flushes { (t b : ℕ) (s : State) (answers : AnyWrites) (dropped : Dropped) → IsSound s → is_own s t b ≡ true → LooksAlike t b s (flush_job dropped answers s).state }
{}

/// An alloc, calls by which the new transaction only looks (get, read, view, relse), failed
/// ones too, and its cancel leave no trace: but for the idle list and the number of the last
/// transaction the mount is as it was.
pub fn clean_cancel()
    ensures { (s : State) → IsSound s → (unit count : ℕ) (perm : Bool) (looks : List (AnyRequest × AnyAnswer)) (answer : AnyAnswer) (t : ℕ)
        → (alloc unit count perm s).reply ≡ AnyReply.Trans t → Each (λ x. is_look t x.0 ≡ true) looks
        → IsWithoutTrace s (alone_with [] (AnyRequest.Cancel t) answer (after_calls looks (alloc unit count perm s).state)).state }
{}

/// The form by a size that a block may have, or by none, is one. A new mount of a form is sound, and each step keeps a mount so:
/// every call, whatever the home device answers and whatever finds no memory as it settles, a post of a job that is owed, a begin
/// of a checkpoint that waits, and the end of a checkpoint and of a flush, whatever the devices answer.
pub fn stays_sound()
    ensures forms { (size : Option ℕ) → is_size size ≡ true → IsForm (form_of size) }
    ensures first { (slot life log_bytes blocks : ℕ) (form : AnyForm) → IsForm form → log_bytes ≤ MOST_LOG → IsSound (mount_of slot life log_bytes blocks form) }
    ensures calls { (s : State) (request : AnyRequest) (answer : AnyAnswer) (dropped : Dropped) → IsSound s → IsSound (alone_with dropped request answer s).state }
    ensures posts { (s : State) (kind : AnyKind) → IsSound s → is_owed kind s ≡ true → IsSound (posted kind s) }
    ensures begins { (s : State) (name : AnyName) → IsSound s → is_waiting name s ≡ true → is_ckpt name.kind ≡ true → IsSound (begin_job s).state }
    ensures ends { (s : State) (answers : AnyPieces) (dropped : Dropped) → IsSound s → IsSound (end_job dropped answers s).state }
    ensures flushes { (s : State) (answers : AnyWrites) (dropped : Dropped) → IsSound s → IsSound (flush_job dropped answers s).state }
{}

/// The contents of a new mount have its size, and no mark lies behind them, and each step keeps a mount so: every call whose
/// home device, where it answers a content, answers one of that size, and every job.
pub fn stays_sized()
    ensures first { (slot life log_bytes blocks : ℕ) (form : AnyForm) → IsSized (mount_of slot life log_bytes blocks form) }
    ensures calls { (s : State) (request : AnyRequest) (answer : AnyAnswer) (dropped : Dropped) → IsForm s.form → has_size answer (Some s) ≡ true → IsSized s → IsSized (alone_with dropped request answer s).state }
    ensures posts { (s : State) (kind : AnyKind) → IsSized s → IsSized (posted kind s) }
    ensures begins { (s : State) → IsSized s → IsSized (begin_job s).state }
    ensures ends { (s : State) (answers : AnyPieces) (dropped : Dropped) → IsSized s → IsSized (end_job dropped answers s).state }
    ensures flushes { (s : State) (answers : AnyWrites) (dropped : Dropped) → IsSized s → IsSized (flush_job dropped answers s).state }
{}

/// What a mount hands to its devices was committed: each block that a flush writes home has a
/// committed content, and on a live mount so has each item with a chunk of the commit list, of
/// which the next checkpoint's text is made.
pub fn writes_committed()
    ensures plan { (s : State) → IsSound s → Each (λ b. is_in b s.frames.committed ≡ true) (flush_plan s) }
    ensures text { (s : State) → IsSound s → is_none s.shut ≡ true → Each (λ e. (length e.1 == 0) ≡ false → is_in e.0 s.frames.committed ≡ true) s.items.cil }
{}

/// The log space in use is what open transactions were granted, the cost of the commit list and of
/// the flight, and the cost of each landed checkpoint whose number is at least the least one on
/// the active list (of none where that list is empty); and such are the landed ones that are kept.
pub fn counts_landed()
    ensures used { (s : State) → IsSound s → used s ≡ granted s.transactions + cost s.form.ends s.items.cil + cost s.form.ends (flight_items s.items.flight) + sum_by (λ e. e.1) (landed_since (least_number s.items.ail) s.items.landed) }
    ensures kept { (ail landed : List (ℕ × ℕ)) → still_needed ail landed ≡ landed_since (least_number ail) landed }
{}
