//! Requests, read from a caller's words.

ghost use Rattle.std.specs.Prelude.{◌≡◌, ◌==◌, ◌≤◌, ◌↔◌, ◌⊎◌, None, Some, IfErr, IfOk, IfSome, IsSome, length, true};
ghost use Rattle.xt_base.specs.Form.{is_size};
ghost use Rattle.xt_base.specs.declared.sizes.TheConstants.{DATA_BYTES};
ghost use Rattle.xt_base.specs.declared.steps.Errno.TheVariants.{Invalid, NoMemory};
ghost use Rattle.xt_c.specs.Requests.{answer_of, of_block, of_mount, request_of, logged};

use crate::words::RequestWords;
use std::alloc::{AllocError, Global};
use xt_base::content::{Content, Data};
use xt_base::form::is_block_size;
use xt_base::names::{Block, CkptNo, TransNo};
use xt_base::sizes::DATA_BYTES;
use xt_base::steps::{Answer, Errno, Request};

/// A copy of bytes, made in one piece: byte by byte, as `to_vec` makes it, it takes several times as long. The one error is want of memory.
fn copy_of(alloc: Global, bytes: &[u8]) -> Result<Vec<u8>, AllocError>
    ensures { IfOk result (λ copy. copy.items ≡ bytes.now) }
{
    let mut copy = Vec::with_capacity(alloc, bytes.len())?;
    copy.extend_from_slice(bytes)?;
    Ok(copy)
}

/// These bytes, copied as they stand; None where they are more than 4,096. The one error is want of memory. They go with the call, so it does not pay
/// to look for a stretch of one byte among them, as `Data::of` does.
fn copied(alloc: Global, bytes: &[u8]) -> Result<Option<Data>, AllocError>
    ensures valid { IfOk result (λ found. IsSome found ↔ (length bytes.now ≤ DATA_BYTES)) }
    ensures value { IfOk result (λ found. IfSome found (λ carried. carried ≡ bytes.now)) }
{
    if bytes.len() > DATA_BYTES {
        return Ok(None);
    }
    Data::of_vec(alloc, copy_of(alloc, bytes)?)
}

/// A change of a block by these bytes. `Invalid` where they are too many.
fn logged(alloc: Global, from: RequestWords, bytes: &[u8]) -> Result<Request, Errno>
    ensures ok { IfOk result (λ request. logged from bytes.now ≡ Some request) }
    ensures err { IfErr result (λ errno. ((errno ≡ Invalid) × (logged from bytes.now ≡ None)) ⊎ (errno ≡ NoMemory)) }
{
    match copied(alloc, bytes) {
        Ok(Some(bytes)) => Ok(Request::Log {
            first: from.first,
            trans: TransNo(from.trans),
            block: Block(from.block),
            bytes,
        }),
        Ok(None) => Err(Errno::Invalid),
        Err(_) => Err(Errno::NoMemory),
    }
}

/// A request that names a transaction and a block, and carries no bytes.
fn of_block(from: RequestWords) -> Option<Request>
    ensures { result ≡ of_block from }
{
    let trans = TransNo(from.trans);
    let block = Block(from.block);
    match from.word {
        1 => Some(Request::Get { trans, block }),
        2 => Some(Request::Read { trans, block }),
        3 => Some(Request::View { trans, block }),
        5 => Some(Request::Hold { trans, block }),
        6 => Some(Request::Unhold { trans, block }),
        7 => Some(Request::Relse { trans, block }),
        8 => Some(Request::Join { trans, block }),
        9 => Some(Request::Release { block }),
        10 => Some(Request::Inval { trans, block }),
        _ => None,
    }
}

/// A request that names no block.
fn of_mount(from: RequestWords) -> Option<Request>
    ensures { result ≡ of_mount from }
{
    let trans = TransNo(from.trans);
    match from.word {
        0 => Some(Request::Alloc {
            unit: from.unit,
            count: from.count,
            perm: from.perm != 0,
        }),
        11 => Some(Request::Commit { trans }),
        12 => Some(Request::Roll { trans }),
        13 => Some(Request::Cancel { trans }),
        14 => Some(Request::Force),
        15 => Some(Request::ForceTo {
            number: CkptNo(from.number),
        }),
        16 => Some(Request::Push),
        17 => Some(Request::Shutdown),
        18 => Some(Request::Freeze),
        19 => Some(Request::Thaw),
        20 => Some(Request::Unmount),
        _ => None,
    }
}

/// The request that words spell, with the bytes of a change. `Invalid` where they spell none.
pub fn request_of(alloc: Global, from: RequestWords, bytes: &[u8]) -> Result<Request, Errno>
    ensures ok { IfOk result (λ request. request_of from bytes.now ≡ Some request) }
    ensures err { IfErr result (λ errno. ((errno ≡ Invalid) × (request_of from bytes.now ≡ None)) ⊎ ((errno ≡ NoMemory) × ((from.word == 4) ≡ true))) }
{
    if from.word == 4 {
        return logged(alloc, from, bytes);
    }
    let found = if 0 < from.word && from.word < 11 {
        of_block(from)
    } else {
        of_mount(from)
    };
    match found {
        Some(request) => Ok(request),
        None => Err(Errno::Invalid),
    }
}

/// The content of these bytes, which are copied; None where a block may not have so many. The one error is want of memory.
fn content_of(alloc: Global, bytes: &[u8]) -> Result<Option<Content>, AllocError>
    ensures whole { IfOk result (λ found. IsSome found ↔ (is_size (Some (length bytes.now)) ≡ true)) }
    ensures value { IfOk result (λ found. IfSome found (λ content. content ≡ bytes.now)) }
{
    if !is_block_size(bytes.len()) {
        return Ok(None);
    }
    Content::of_vec(alloc, copy_of(alloc, bytes)?)
}

/// What was answered for a block: nothing yet, this content, or a failure. `Invalid` where the word says none of these, or a block may
/// not have the content's length.
pub fn answer_of(alloc: Global, word: u32, content: &[u8]) -> Result<Answer, Errno>
    ensures ok { IfOk result (λ answer. answer_of word content.now ≡ Some answer) }
    ensures err { IfErr result (λ errno. ((errno ≡ Invalid) × (answer_of word content.now ≡ None)) ⊎ ((errno ≡ NoMemory) × ((word == 1) ≡ true))) }
{
    match word {
        0 => Ok(Answer::None),
        1 => match content_of(alloc, content) {
            Ok(Some(content)) => Ok(Answer::Content(content)),
            Ok(None) => Err(Errno::Invalid),
            Err(_) => Err(Errno::NoMemory),
        },
        2 => Ok(Answer::Failed),
        _ => Err(Errno::Invalid),
    }
}
