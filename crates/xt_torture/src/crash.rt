//! Crashes of a mount: one life after another, each over what recovery made of the one before, until another volume comes, with blocks
//! of another size.

use crate::crash_life::{CrashCounts, CrashLife};
use crate::image::Image;
use crate::sizes::{any_size, form_of};
use std::alloc::{AllocError, Global};
use xt_trials::dice::Dice;

/// Lives until there were so many crashes: what was counted.
pub fn try_crashes(alloc: Global, seed: u64, crashes: u64) -> Result<CrashCounts, AllocError> {
    let mut dice = Dice::new(seed);
    let mut counts = CrashCounts::default();
    let mut size = None;
    let mut home = Image::zeros(alloc, form_of(size))?;
    for _ in 0..crashes {
        if counts.crashes >= crashes {
            break;
        }
        if dice.is_one_in(3) {
            size = any_size(&mut dice);
            home = Image::zeros(alloc, form_of(size))?;
        }
        let mut life = CrashLife::new(alloc, size, home, counts, &mut dice)?;
        for _ in 0..u64::MAX {
            if life.counts.crashes >= crashes || !life.turn(&mut dice)? {
                break;
            }
        }
        home = life.end_by_crash(&mut dice)?;
        counts = life.counts;
    }
    Ok(counts)
}
