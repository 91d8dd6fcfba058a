//! The sizes of a block that mounts are tried with.

use xt_base::form::Form;
use xt_trials::dice::Dice;

/// None is said, or one of the four.
const SIZES: [Option<u32>; 5] = [None, Some(512), Some(1_024), Some(2_048), Some(4_096)];

/// A size of a block to mount with.
pub fn any_size(dice: &mut Dice) -> Option<u32> {
    match SIZES.get(dice.below(SIZES.len() as u32) as usize) {
        Some(size) => *size,
        None => None,
    }
}

/// The form of a mount with a size, where one is said.
pub fn form_of(size: Option<u32>) -> Form {
    match Form::of(size) {
        Some(form) => form,
        None => Form::one(),
    }
}
