//! The headers of sealed logs.

ghost use Rattle.std.specs.Prelude.{◌≡◌};
ghost use Rattle.xt_c_log.specs.Heading.{IsBegun, IsHeaderRead, header_of};

use crate::status::{ILLEGAL_SEQUENCE, INVALID};
use crate::words::LogFields;
use xt_seal::{HEADER_BYTES, Header};

/// The header that has these fields.
fn header_of(fields: &LogFields) -> Header
    ensures { result ≡ header_of fields.now }
{
    Header {
        block_size: fields.block_size,
        log_bytes: fields.log_bytes,
        generation: fields.generation,
        salt: fields.salt,
        link: fields.link,
        name: fields.name,
    }
}

/// The first bytes of a file of a sealed log, by their fields. EINVAL where the room has not 64 bytes, and nothing is written.
#[unsafe(no_mangle)]
pub extern "C" fn refskold_abi_log_header(log: &mut [u8], fields: &LogFields) -> i32
    ensures { IsBegun fields.now result log.new log.old }
{
    if log.len() != HEADER_BYTES {
        return INVALID;
    }
    let (bytes, _sealer) = header_of(fields).begin();
    log.copy_from_slice(&bytes);
    0
}

/// Writes the fields of a header.
fn put_fields(fields: &mut LogFields, header: &Header)
    ensures { header_of fields.new ≡ header.now }
{
    fields.block_size = header.block_size;
    fields.log_bytes = header.log_bytes;
    fields.generation = header.generation;
    fields.salt = header.salt;
    fields.link = header.link;
    fields.name = header.name;
}

/// Reads the header that begins a file of a sealed log, and writes its fields. EILSEQ where no header with its seal does, and nothing is written.
#[unsafe(no_mangle)]
pub extern "C" fn refskold_abi_log_read(log: &[u8], fields: &mut LogFields) -> i32
    ensures { IsHeaderRead log.now result fields.new fields.old }
{
    match Header::read(log) {
        Some((header, _sealer)) => {
            put_fields(fields, &header);
            0
        }
        None => ILLEGAL_SEQUENCE,
    }
}
