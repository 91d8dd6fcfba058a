//! The name by which the log of a volume tells whose it is.

ghost use Rattle.std.specs.Prelude.{◌≡◌, ◌<◌, ◌≤◌, length};
ghost use Rattle.xt_seal.specs.Seal.{seal_of};
ghost use Rattle.xt_volumes.specs.Names.{header_name, last_name, padded, shortened};

use std::hash::{DefaultHasher, Hasher};
use std::path::Path;
use xt_seal::SEAL_BYTES;

/// How many bytes the header of a log has for the name of its volume.
pub const NAME_BYTES: usize = 16;

/// How many bytes of a longer name stand in front of its sum.
const FRONT_BYTES: usize = NAME_BYTES - SEAL_BYTES;

/// The name of the volume of a home file, as the header of its log has it: the last name of the path, and zeros behind it. Of one that is longer than the field,
/// its first 8 bytes stand there, and the sum of all.
pub fn header_name(home: &str) -> [u8; NAME_BYTES]
    ensures { result ≡ header_name (last_name home.now) }
{
    let name = last_name(home);
    if name.len() <= NAME_BYTES {
        padded(name)
    } else {
        shortened(name)
    }
}

/// The last name of a path; nothing where it has none.
fn last_name(path: &str) -> &[u8]
    ensures { result.now ≡ last_name path.now }
{
    match Path::new(path).file_name() {
        Some(name) => name.as_bytes(),
        None => &[],
    }
}

/// A name, and zeros behind it.
fn padded(name: &[u8]) -> [u8; NAME_BYTES]
    requires fits { length name.now ≤ 16 }
    ensures { result ≡ padded name.now }
{
    let mut field = [0; NAME_BYTES];
    field[..name.len()].copy_from_slice(name);
    field
}

/// The first bytes of a name, and the sum of all.
fn shortened(name: &[u8]) -> [u8; NAME_BYTES]
    requires long { 16 < length name.now }
    ensures { result ≡ shortened name.now }
{
    let mut field = [0; NAME_BYTES];
    field[..FRONT_BYTES].copy_from_slice(&name[..FRONT_BYTES]);
    field[FRONT_BYTES..].copy_from_slice(&seal_of(name));
    field
}

/// The sum of bytes, as a seal has it.
fn seal_of(bytes: &[u8]) -> [u8; SEAL_BYTES]
    ensures seal { result ≡ seal_of bytes.now }
    ensures length { length result ≡ 8 }
{
    let mut hasher = DefaultHasher::new();
    hasher.write(bytes);
    hasher.finish().to_be_bytes()
}
