//! What no clause says: a refused allocation is an error of the call that asked for it.

use std::alloc::{AllocError, Global};
use std::test::*;
use xt_base::chunks::Chunks;
use xt_base::content::Content;
use xt_base::form::Form;
use xt_base::sizes::BLOCK_BYTES;
use xt_vectors::edit::Edit;
use xt_vectors::vector::{LogVector, VectorRoom};

/// The vector of chunks 1 and 3 of a block whose byte 130 is 7.
fn two_chunks(alloc: Global) -> Result<LogVector, AllocError> {
    let mut content = Content::zeros(alloc, Form::one())?;
    content.write(130, &[7]);
    let edit = Edit::own(content, VectorRoom::new(alloc)?);
    let chunks = Chunks::mark(130, 1).union(Chunks::mark(400, 1));
    let (content, room) = edit.into_parts();
    match content {
        // A block of 4,096 bytes has all chunks.
        Some(content) if content.bytes().len() == BLOCK_BYTES => Ok(room.filled(&content, chunks)),
        _ => Ok(LogVector::none()),
    }
}

/// A vector has the bytes of its chunks, or its room was refused: run it with each allocation failing in turn.
#[test]
fn chunks_are_copied(rt: HostRuntime) {
    let Ok(vector) = two_chunks(rt.alloc()) else {
        return;
    };
    assert_eq!(rt; vector.chunks().count(), 2);
    assert_eq!(rt; vector.bytes().len(), 256);
    assert_eq!(rt;
        (vector.bytes().get(2), vector.bytes().get(130)),
        (Some(&7), Some(&0))
    );
}

/// A cancelled block has no chunk.
#[test]
fn no_chunk_has_no_bytes(rt: HostRuntime) {
    let none = LogVector::none();
    assert!(rt; none.chunks().is_empty() && none.bytes().is_empty());
}
