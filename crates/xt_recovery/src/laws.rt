//! Laws of recovery. Each function does nothing: its clause is the law.

ghost use Rattle.xt_recovery.specs.Crash.{HomeHasLanded, Lands, LogMayGo, Recovers};
ghost use Rattle.xt_recovery.specs.Numbers.{NumbersFall, NumbersFollow};
ghost use Rattle.xt_recovery.specs.Turns.{LogTurns, RecoversByTurns, TurnsAreCuts};

/// After any steps of a mount, whatever its form, at every crash, the texts of its log laid over its home image give what was committed at the
/// begin of the last landed checkpoint, or of the one in flight, or of one whose end failed: all of it or none.
pub fn recovers()
    ensures { Recovers }
{}

/// Where no block waits to be written home, the home device has all that landed, and the log is not needed.
pub fn home_has_landed()
    ensures { HomeHasLanded }
{}

/// Where no block waits to be written home, the log of a mount that is live, or has a checkpoint in flight, may be emptied between two steps: `recovers`
/// covers that.
pub fn log_may_go()
    ensures { LogMayGo }
{}

/// Once the newer texts of a log, the one in flight among them, have more bytes than the log of the mount, no block of the active list needs an older one. So
/// a log that drops those then is cut, which `recovers` covers. Two files that are written by turns do just that, whatever the load.
pub fn turns_are_cuts()
    ensures { TurnsAreCuts }
{}

/// The promise of `recovers`, of a log that is written by turns.
pub fn recovers_by_turns()
    ensures { RecoversByTurns }
{}

/// At every crash each text of the log has a greater number than those before it.
pub fn numbers_fall()
    ensures { NumbersFall }
{}

/// And each has the number next to that of the one before it: between two texts of a log none is missing.
pub fn numbers_follow()
    ensures { NumbersFollow }
{}

/// The premises can be met: there are steps after which a checkpoint has landed.
pub fn lands()
    ensures { Lands }
{}

/// And those of a turn: there are steps after which a log may drop a text that it has.
pub fn log_turns()
    ensures { LogTurns }
{}
