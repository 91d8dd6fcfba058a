//! Lines of sessions.

ghost use Rattle.std.specs.Prelude.{◌≡◌};
ghost use Rattle.xt_text.specs.SessionLines.{in_session, is_session_request, is_unasked};

use std::marker::Model;
use xt_base::steps::{Answer, Request, Step};

/// The line of a step.
#[derive(Debug, Drop)]
pub struct Line(pub Step);

impl Model for Line {
    ghost use Rattle.xt_base.specs.declared.steps.Step.{Step as AnyStep};

    ghost Value = { AnyStep };

    ghost view = { λ line. line.0 };
}

impl Line {
    /// Whether a session reads it: a request to one life of a slot, other than unmount and without an answer of a
    /// device, or `peek`.
    pub fn in_session(&self) -> bool
        ensures { result ≡ in_session self.now }
    {
        match &self.0 {
            Step::Call {
                request,
                answer,
                ..
            } => is_session_request(request) && is_unasked(answer),
            Step::Peek(_) => true,
            _ => false,
        }
    }
}

/// Whether a session makes a request.
fn is_session_request(request: &Request) -> bool
    ensures { result ≡ is_session_request request.now }
{
    match request {
        Request::Unmount => false,
        _ => true,
    }
}

/// Whether no device was asked.
fn is_unasked(answer: &Answer) -> bool
    ensures { result ≡ is_unasked answer.now }
{
    match answer {
        Answer::None => true,
        _ => false,
    }
}
