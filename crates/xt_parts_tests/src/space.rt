//! The ledger's calls on numbers worked out by hand, and what a refused allocation leaves.

use xt_base::form::Form;
use xt_base::newly::Newly;
use xt_base::steps::Errno;
use xt_resv::space::LogSpace;

/// One block with two chunks.
const TWO: Newly = Newly {
    blocks: 1,
    chunks: 2,
};

/// A transaction of three legs rolls three times and is given back.
#[test]
fn legs_are_counted(rt: HostRuntime) {
    let mut space = LogSpace::new(rt.alloc(), 2000);
    let refused = space.refusal(512, 3, false);
    assert_eq!(rt; refused, Some(Errno::Invalid));
    assert_eq!(rt; refused.map(|errno| errno.number()), Some(22));
    let Ok(mut ticket) = space.grant(512, 3, true) else {
        return;
    };
    assert_eq!(rt; space.used(), 1536);
    let is_charged = LogSpace::charge(Form::one(), &mut ticket, TWO).is_ok();
    assert_eq!(rt; ticket.charged(Form::one()), 304);
    let fits_more = LogSpace::fits(Form::one(), &ticket, TWO);
    let used = space.used();
    space.give_back(ticket);
    assert!(rt; is_charged && !fits_more);
    assert_eq!(rt; used, 1536);
    assert_eq!(rt; space.used(), 0);
}

/// Checkpoints that landed count from the least number of the active list on. Run it with each allocation failing in turn.
#[test]
fn landed_checkpoints_count(rt: HostRuntime) {
    let mut space = LogSpace::new(rt.alloc(), 4096);
    space.cil_cost(304);
    let is_flying = space.fly().is_ok();
    assert_eq!(rt; space.used(), 304);
    if is_flying {
        space.land(1, Some(1));
        assert_eq!(rt; space.used(), 304);
        space.tail(Some(2));
        assert_eq!(rt; space.used(), 0);
    }
}

/// The last leg asks one new unit; a roll that finds no space changes nothing, and one that is given up frees its legs.
#[test]
fn a_last_leg_asks_a_unit(rt: HostRuntime) {
    let mut space = LogSpace::new(rt.alloc(), 903);
    let Ok(mut ticket) = space.grant(600, 1, true) else {
        return;
    };
    if LogSpace::charge(Form::one(), &mut ticket, TWO).is_err() {
        space.give_back(ticket);
        return;
    }
    let is_refused = space.next_leg(&mut ticket, 304).is_err();
    let before = (space.used(), ticket.charged(Form::one()));
    let is_rolled = space.next_leg(&mut ticket, 303).is_ok();
    let after = (space.used(), ticket.charged(Form::one()));
    space.give_up(&mut ticket);
    let left = space.used();
    space.give_back(ticket);
    space.fail();
    assert!(rt; is_refused && is_rolled);
    assert_eq!(rt; before, (600, 304));
    assert_eq!(rt; after, (903, 0));
    assert_eq!(rt; (left, space.used()), (303, 303));
}

/// A leg that is committed makes the commit list cost what it wrote, and frees its grant.
#[test]
fn a_commit_frees_the_grant(rt: HostRuntime) {
    let mut space = LogSpace::new(rt.alloc(), 1000);
    let Ok(mut ticket) = space.grant(400, 2, true) else {
        return;
    };
    if LogSpace::charge(Form::one(), &mut ticket, TWO).is_err() {
        space.give_back(ticket);
        return;
    }
    space.commit(ticket, 304);
    assert_eq!(rt; (space.size(), space.used()), (1000, 304));
}
