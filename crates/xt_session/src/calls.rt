//! The object that answers the lines of a session.

ghost use Rattle.std.specs.Prelude.{IsTrue};
ghost use Rattle.xt_base.specs.declared.steps.Reply.{Reply as AnyReply};
ghost use Rattle.xt_base.specs.declared.steps.Step.{Step as AnyStep};
ghost use Rattle.xt_text.specs.SessionLines.{in_session};

use xt_base::steps::Reply;
use xt_text::line::Line;

/// What answers the lines of a session. It means a relation: which replies it may give to a line in a state, and what
/// state that leaves.
pub trait Calls {
    // In this state this line's step may have this reply, which leaves this state.
    ghost answers: { Self → AnyStep → AnyReply → Self → Type 0 };

    // The end of a session may leave this state of that one.
    ghost ends: { Self → Self → Type 0 };

    /// Answers a line that sessions read.
    fn call(&mut self, line: Line) -> Reply
        requires { IsTrue (in_session line) }
        ensures { answers self.old line result self.new };

    /// Gives back what the session holds: a session calls it once, and then no more of the object.
    fn end(&mut self)
        ensures { ends self.old self.new };
}
