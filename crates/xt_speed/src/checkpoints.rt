//! How fast a checkpoint text is read, beside a plain copy of the same bytes.

use anyhow::{Context, Result};
use std::alloc::{AllocError, Global};
use std::hint::black_box;
use std::time::{Clock, Duration, Instant};
use xt_ckpt::format::{END, START};
use xt_ckpt::reading::read_checkpoint;

const ITEMS: u32 = 64;

/// The text of 64 whole blocks: 263,200 bytes.
fn full_text(alloc: Global) -> Result<Vec<u8>, AllocError> {
    let mut text = Vec::new(alloc);
    text.extend_from_slice(&START.to_be_bytes())?;
    text.extend_from_slice(&1u64.to_be_bytes())?;
    text.extend_from_slice(&ITEMS.to_be_bytes())?;
    for block in 0..u64::from(ITEMS) {
        text.extend_from_slice(&block.to_be_bytes())?;
        text.extend_from_slice(&u32::MAX.to_be_bytes())?;
        text.extend_from_slice(&0u32.to_be_bytes())?;
        for at in 0..4096u32 {
            text.push((at % 251) as u8)?;
        }
    }
    text.extend_from_slice(&END.to_be_bytes())?;
    text.extend_from_slice(&ITEMS.to_be_bytes())?;
    text.extend_from_slice(&1u64.to_be_bytes())?;
    Ok(text)
}

/// Megabytes a second.
fn rate(bytes: usize, rounds: u32, took: Duration) -> u128 {
    let micros = took.as_micros();
    if micros == 0 {
        0
    } else {
        bytes as u128 * u128::from(rounds) / micros
    }
}

/// Reads a text once, and prints its length. Where ROUNDS is asked for, it reads and copies the text so often, and prints both rates in MB/s.
pub fn print_checkpoints<R: Print + Clock>(
    rt: &R,
    alloc: Global,
    asked: Option<u32>,
) -> Result<()> {
    let text = full_text(alloc)?;
    let (_, len) = read_checkpoint(alloc, &text)?.context("the text is whole")?;
    println!(rt; "{len} bytes")?;
    let Some(rounds) = asked else {
        return Ok(());
    };
    let start = Instant::now(rt)?;
    for _ in 0..rounds {
        black_box(read_checkpoint(alloc, black_box(&text))?);
    }
    let read = start.elapsed(rt)?;
    let start = Instant::now(rt)?;
    for _ in 0..rounds {
        black_box(text.to_vec(alloc)?);
    }
    let copied = start.elapsed(rt)?;
    println!(rt; "read {} MB/s", rate(text.len(), rounds, read))?;
    println!(rt; "copied {} MB/s", rate(text.len(), rounds, copied))?;
    Ok(())
}
