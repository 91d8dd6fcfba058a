//! Blocks that are no longer busy leave the frames.

ghost use Rattle.std.specs.Prelude.{ℕ, ◌≡◌, [], true};
ghost use Rattle.xt_base.specs.Settle.{settled};
ghost use Rattle.xt_base.specs.Sound.{IsRising};
ghost use Rattle.xt_base.specs.Space.{is_busy};
ghost use Rattle.xt_frames.specs.Settling.{AreOthersBusy};
ghost use Rattle.xt_mount.specs.Machines.{state_of};
ghost use Rattle.xt_mount.specs.Settling.{AreChangedBusy, OfRest, is_busy_in};

use crate::machine::Machine;
use xt_base::names::Block;

/// Which blocks may not be busy any more.
#[derive(Clone, Copy, Debug)]
pub enum MayRest {
    /// Each.
    Each,
    /// This one alone.
    One(Block),
    /// None: all stay busy.
    Nothing,
}

impl Machine {
    /// Contents of blocks that are no longer busy go, on a live mount to the front of the idle list,
    /// ascending by block; their fresh marks go. It takes no memory.
    pub fn settle(&mut self)
        requires { AreChangedBusy (is_busy (state_of self.old)) (state_of self.old).transactions }
        ensures { state_of self.new ≡ settled [] (state_of self.old) }
    {
        self.accounts.settle(&self.locks);
    }

    /// The same where only one block may not be busy any more: nothing is asked of the others.
    pub fn settle_block(&mut self, block: Block)
        requires rising { IsRising self.old.accounts.frames.committed }
        requires others { AreOthersBusy (is_busy_in self.old.locks self.old.accounts.items) block self.old.accounts.frames }
        requires changed { AreChangedBusy (is_busy_in self.old.locks self.old.accounts.items) self.old.accounts.transactions }
        ensures { state_of self.new ≡ settled [] (state_of self.old) }
    {
        self.accounts.settle_block(&self.locks, block.0);
    }

    /// Nothing settles where each block stays busy: for a proof, at run time nothing.
    fn nothing_settles(&self)
        requires { (block : ℕ) → AreOthersBusy (is_busy (state_of self.now)) block (state_of self.now).frames }
        ensures { state_of self.now ≡ settled [] (state_of self.now) }
    {
        self.accounts.idle_is_short();
    }

    /// The same where it may be known which blocks may not be busy any more.
    pub fn settle_but(&mut self, rest: MayRest)
        requires rising { IsRising (state_of self.old).frames.committed }
        requires others { OfRest rest (λ block. AreOthersBusy (is_busy (state_of self.old)) block (state_of self.old).frames) }
        requires changed { AreChangedBusy (is_busy (state_of self.old)) (state_of self.old).transactions }
        ensures { state_of self.new ≡ settled [] (state_of self.old) }
    {
        match rest {
            MayRest::Each => self.settle(),
            MayRest::One(block) => self.settle_block(block),
            MayRest::Nothing => self.nothing_settles(),
        }
    }

    /// The same where it may be known that each block stays busy: then nothing is asked of any.
    pub fn settle_unless(&mut self, stays: bool)
        requires rising { IsRising (state_of self.old).frames.committed }
        requires others { stays ≡ true → AreOthersBusy (is_busy (state_of self.old)) 0 (state_of self.old).frames }
        requires changed { AreChangedBusy (is_busy (state_of self.old)) (state_of self.old).transactions }
        ensures { state_of self.new ≡ settled [] (state_of self.old) }
    {
        if stays {
            self.settle_block(Block(0));
            return;
        }
        self.settle();
    }
}
