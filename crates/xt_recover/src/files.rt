//! The two files of a log, and whose log it has to be.

ghost use Rattle.std.specs.Prelude.{◌≡◌, false, true};
ghost use Rattle.xt_recover.specs.FilesGathering.{IsMet};

use std::fmt::{self, Display, Formatter, Write};
use xt_seal::Header;

/// The two files of a log, or what stands for each. A bare log has the first one alone. Of a sealed log either one may be the older.
#[derive(Drop)]
pub struct Files<T> {
    pub one: T,
    pub other: T,
}

/// What the headers of a log have to say, so that it is the log of a volume.
#[derive(Clone, Copy, Debug, PartialEq, Eq)]
pub struct Wanted {
    /// The name of the volume.
    pub name: [u8; 16],
    /// The bytes of a block, where these are asked for.
    pub block_size: Option<u32>,
    /// The bytes of the mount's log, where these are asked for.
    pub log_bytes: Option<u32>,
}

impl Wanted {
    /// Whether a header says what is wanted.
    pub fn is_met(&self, header: &Header) -> bool
        ensures yes { result ≡ true → IsMet self.now header.now }
        ensures no { result ≡ false → IsMet self.now header.now → ⊥ }
    {
        self.name == header.name
            && self.block_size.is_none_or(|size| size == header.block_size)
            && self.log_bytes.is_none_or(|size| size == header.log_bytes)
    }
}

/// Whose log was found, and whose was wanted.
#[derive(Clone, Copy, Debug, PartialEq, Eq)]
pub struct Whose {
    pub found: Header,
    pub wanted: Wanted,
}

/// The bytes of a name, without the zeros that fill it.
fn shown(name: &[u8; 16]) -> &[u8] {
    let len = name
        .iter()
        .rposition(|byte| *byte != 0)
        .map_or(0, |last| last + 1);
    &name[..len]
}

impl Display for Whose {
    fn fmt<W: Write>(&self, f: &mut Formatter<W>) -> fmt::Result {
        let Whose { found, wanted } = self;
        if found.name != wanted.name {
            let (found, wanted) = (
                shown(&found.name).escape_ascii(),
                shown(&wanted.name).escape_ascii(),
            );
            return write!(f, "the log of '{found}', not of '{wanted}'");
        }
        write!(
            f,
            "the log of a volume with blocks of {} bytes and a log of {} bytes",
            found.block_size, found.log_bytes
        )
    }
}
