//! The header of a sealed log.

ghost use Rattle.std.specs.Int.{from_be_bytes, w32, w64};
ghost use Rattle.std.specs.Prelude.{◌≡◌, ◌+◌, ◌++◌, ◌≤◌, [], List, IfSome, None, drop, length, take, ℕ};
ghost use Rattle.xt_seal.specs.Headers.{IsHeader, head_bytes, header_bytes};
ghost use Rattle.xt_seal.specs.Seal.{Seals, seal_of};

use crate::sealer::{SEAL_BYTES, Sealer};

/// How many bytes a header has without its seal.
pub const HEAD_BYTES: usize = 56;

/// How many bytes a header has.
pub const HEADER_BYTES: usize = 64;

/// The first word of a sealed log. No text of a checkpoint begins so.
const MAGIC: &[u8; 4] = b"XCL1";

/// What a sealed log says of itself. Each seal of the log sums it up too.
#[derive(Clone, Copy, Debug, PartialEq, Eq)]
pub struct Header {
    /// How many bytes a block of its texts has.
    pub block_size: u32,
    /// How many bytes the log of the mount has.
    pub log_bytes: u32,
    /// Which header of its life this is.
    pub generation: u64,
    /// Bytes at random, new for each life.
    pub salt: u64,
    /// The seal behind which the log goes on; zeros where it begins a life.
    pub link: [u8; SEAL_BYTES],
    /// The name of the volume; zeros where it has none.
    pub name: [u8; 16],
}

impl Header {
    /// The bytes that begin the log, and what sums up the texts that are written behind them.
    pub fn begin(&self) -> ([u8; HEADER_BYTES], Sealer)
        ensures bytes { result.0 ≡ header_bytes self.now }
        ensures seals { Seals result.1 (head_bytes self.now) (seal_of (head_bytes self.now)) [] }
    {
        let head = self.head();
        let (sealer, seal) = Sealer::new(&head);
        let mut bytes = [0; HEADER_BYTES];
        bytes[..HEAD_BYTES].copy_from_slice(&head);
        bytes[HEAD_BYTES..].copy_from_slice(&seal);
        (bytes, sealer)
    }

    /// The header that begins the input, and what sums up the texts behind it. None where no header with its seal begins the input, which may be
    /// too short for one.
    pub fn read(input: &[u8]) -> Option<(Header, Sealer)>
        ensures found { IfSome result (λ found. input.now ≡ header_bytes found.0 ++ drop 64 input.now) }
        ensures seals { IfSome result (λ found. Seals found.1 (head_bytes found.0) (seal_of (head_bytes found.0)) []) }
        ensures none { result ≡ None → (h : Header) (rest : List ℕ) → IsHeader h → input.now ≡ header_bytes h ++ rest → ⊥ }
    {
        if input.len() < HEADER_BYTES {
            return None;
        }
        let header = Header::with_fields(input);
        let (bytes, sealer) = header.begin();
        if !input.starts_with(&bytes) {
            return None;
        }
        Some((header, sealer))
    }

    /// The header that has the fields of the input, whatever else stands there: so the whole of a header is compared at once.
    fn with_fields(input: &[u8]) -> Header
        requires room { 56 ≤ length input.now }
        ensures { (h : Header) (rest : List ℕ) → IsHeader h → input.now ≡ head_bytes h ++ rest → result ≡ h }
    {
        let mut link = [0; SEAL_BYTES];
        link.copy_from_slice(&input[32..40]);
        let mut name = [0; 16];
        name.copy_from_slice(&input[40..HEAD_BYTES]);
        Header {
            block_size: u32_at(input, 4),
            log_bytes: u32_at(input, 8),
            generation: u64_at(input, 16),
            salt: u64_at(input, 24),
            link,
            name,
        }
    }

    /// The bytes without the seal.
    fn head(&self) -> [u8; HEAD_BYTES]
        ensures { result ≡ head_bytes self.now }
    {
        let mut head = [0; HEAD_BYTES];
        head[0..4].copy_from_slice(MAGIC);
        head[4..8].copy_from_slice(&self.block_size.to_be_bytes());
        head[8..12].copy_from_slice(&self.log_bytes.to_be_bytes());
        head[16..24].copy_from_slice(&self.generation.to_be_bytes());
        head[24..32].copy_from_slice(&self.salt.to_be_bytes());
        head[32..40].copy_from_slice(&self.link);
        head[40..].copy_from_slice(&self.name);
        head
    }
}

/// The word of four bytes that stands at a place.
fn u32_at(input: &[u8], at: usize) -> u32
    requires { at + 4 ≤ length input.now }
    ensures { result ≡ from_be_bytes w32 (take 4 (drop at input.now)) }
{
    let mut word = [0; 4];
    word.copy_from_slice(&input[at..at + 4]);
    u32::from_be_bytes(word)
}

/// The word of eight bytes that stands at a place.
fn u64_at(input: &[u8], at: usize) -> u64
    requires { at + 8 ≤ length input.now }
    ensures { result ≡ from_be_bytes w64 (take 8 (drop at input.now)) }
{
    let mut word = [0; 8];
    word.copy_from_slice(&input[at..at + 8]);
    u64::from_be_bytes(word)
}
