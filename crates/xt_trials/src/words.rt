//! The words of a command line.

use anyhow::{Context, Result};

/// A number among the words of a command line; a fault has its name.
pub fn number(words: &[String], place: usize, name: &'static str) -> Result<u64> {
    Ok(
        words
            .get(place)
            .context(name)?
            .parse::<u64>()
            .context(name)?,
    )
}
