//! What a crash leaves, and what recovery makes of it.

use crate::crash_home::CrashHome;
use crate::image::Image;
use crate::plain::Committed;
use std::alloc::{AllocError, Global};
use xt_dev::fail_at::FailAt;
use xt_recover::recovering::recover;
use xt_trials::dice::Dice;

/// In which of its calls a recovery that is broken off fails at the latest.
const LATEST_CALL: u32 = 60;

/// What a crash leaves of both devices, and how many bytes of the log stand behind its last whole text.
#[derive(Drop)]
pub struct Wreck {
    pub home: Image,
    pub log: Vec<u8>,
    pub rest: u64,
}

impl Wreck {
    /// Recovers, where it is broken off first by a failure and another crash: what the home device has then, and whether that is what is
    /// wanted.
    pub fn recover(
        &self,
        alloc: Global,
        dice: &mut Dice,
        is_broken_off: bool,
        wanted: &Committed,
    ) -> Result<(Image, bool), AllocError> {
        let mut home = self.device(alloc, dice)?;
        if is_broken_off {
            home = self.broken_off(alloc, dice, home)?;
        }
        let mut log = self.log.as_slice();
        let is_told = match recover(alloc, &mut log, &mut home) {
            Ok(told) => told.rest == self.rest,
            Err(_) => false,
        };
        let recovered = home.into_safe();
        let is_right = is_told && wanted.is_recovered(&self.home, &recovered);
        Ok((recovered, is_right))
    }

    /// A home device that has what the crash left.
    fn device(&self, alloc: Global, dice: &mut Dice) -> Result<CrashHome, AllocError> {
        let seed = u64::from(dice.below(u32::MAX));
        Ok(CrashHome::over(alloc, self.home.copy(alloc)?, seed))
    }

    /// What is left of a home device by a recovery that fails in one of its calls, if it makes so many, and a crash behind it.
    fn broken_off(
        &self,
        alloc: Global,
        dice: &mut Dice,
        home: CrashHome,
    ) -> Result<CrashHome, AllocError> {
        let call = u64::from(dice.below(LATEST_CALL)) + 1;
        let mut failing = FailAt::over_home(alloc, home, call);
        let mut log = self.log.as_slice();
        let _ = recover(alloc, &mut log, &mut failing);
        let seed = u64::from(dice.below(u32::MAX));
        Ok(CrashHome::over(alloc, failing.device.crashed()?, seed))
    }
}
