//! What no clause says: a refused allocation is an error of the call that asked for it, and changes nothing.

use std::test::*;
use xt_base::chunks::Chunks;
use xt_base::content::Content;
use xt_base::form::Form;
use xt_trans::trans::TransRec;
use xt_vectors::{Edit, VectorRoom};

/// Where memory is refused, the call that took it says so, and the leg answers as before. Run it with each allocation
/// failing in turn.
#[test]
fn memory_refused(rt: HostRuntime) {
    let alloc = rt.alloc();
    let Ok(mut leg) = TransRec::new(alloc) else {
        return;
    };
    let (Ok(content), Ok(room)) = (Content::zeros(alloc, Form::one()), VectorRoom::new(alloc))
    else {
        return;
    };
    leg.hold(7);
    leg.log(7, Edit::own(content, room), Chunks::mark(0, 1));
    let is_listed = leg.changes(alloc).is_ok();
    let is_told = leg.held(alloc).is_ok();
    assert!(rt; is_listed || is_told);
    assert!(rt; leg.is_held(7) && leg.is_changed(7) && !leg.is_in_place(7));
    assert_eq!(rt; leg.newly_logged(7, Chunks::mark(0, 200)).chunks, 1);
}
