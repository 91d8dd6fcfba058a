//! A plain reading of the text of a checkpoint, field by field, which knows nothing of the reader that it judges.

/// What a text is.
#[derive(Clone, Copy, PartialEq, Eq)]
pub enum Judged {
    /// It ends before its last field does, and no field that is all there breaks its rule.
    Cut,
    /// The first field that breaks its rule begins here.
    Fault(usize),
    /// A whole text of so many bytes stands in front.
    Whole(usize),
}

/// The first word of a text, `XCP1`, and the one behind its items, `XCE1`.
const START: u64 = 0x5843_5031;

const END: u64 = 0x5843_4531;

/// The same of a text that says the size of a block, `XCP2` and `XCE2`.
const SIZED_START: u64 = 0x5843_5032;

const SIZED_END: u64 = 0x5843_4532;

/// A field: where it begins, and its number.
#[derive(Clone, Copy)]
struct Field {
    at: usize,
    value: u64,
}

impl Field {
    /// The number of a field that obeys its rule.
    fn obeys(self, rule: bool) -> Result<u64, Judged> {
        if rule {
            Ok(self.value)
        } else {
            Err(Judged::Fault(self.at))
        }
    }

    /// A field that has just this number.
    fn is(self, value: u64) -> Result<u64, Judged> {
        self.obeys(self.value == value)
    }
}

/// How far a text was read.
#[derive(Clone, Copy)]
struct Walk<'a> {
    text: &'a [u8],
    at: usize,
}

impl<'a> Walk<'a> {
    /// The next field, of so many bytes.
    fn field(&mut self, width: usize) -> Result<Field, Judged> {
        let at = self.at;
        let end = at.saturating_add(width);
        let Some(bytes) = self.text.get(at..end) else {
            return Err(Judged::Cut);
        };
        let mut value = 0u64;
        for byte in bytes {
            value = value.wrapping_mul(256).wrapping_add(u64::from(*byte));
        }
        self.at = end;
        Ok(Field { at, value })
    }

    /// The size of a block: how many chunks it has.
    fn chunks(&mut self) -> Result<u32, Judged> {
        let size = self.field(4)?;
        let is_one = matches!(size.value, 512 | 1024 | 2048 | 4096);
        match size.obeys(is_one)? {
            512 => Ok(4),
            1024 => Ok(8),
            2048 => Ok(16),
            _ => Ok(32),
        }
    }

    /// An item behind one of this block, if there is one before it, where a block has so many chunks: its block.
    fn item(&mut self, last: Option<u64>, chunks: u32) -> Result<u64, Judged> {
        let field = self.field(8)?;
        let rises = match last {
            Some(last) => last < field.value,
            None => true,
        };
        let block = field.obeys(rises)?;
        let map = self.field(4)?;
        let map = map.obeys(map.value < 1 << chunks.min(32))?;
        self.field(4)?.is(if map == 0 { 1 } else { 0 })?;
        for chunk in 0..32u32 {
            if map >> chunk & 1 == 1 {
                self.field(128)?;
            }
        }
        Ok(block)
    }

    /// A whole text.
    fn text(&mut self) -> Result<(), Judged> {
        let start = self.field(4)?;
        let is_sized = start.value == SIZED_START;
        start.obeys(is_sized || start.value == START)?;
        let number = self.field(8)?;
        let number = number.obeys(number.value >= 1)?;
        let count = self.field(4)?;
        let count = count.obeys(count.value >= 1 && count.value <= 64)?;
        let chunks = if is_sized { self.chunks()? } else { 32 };
        let mut last = None;
        for _ in 0..count {
            last = Some(self.item(last, chunks)?);
        }
        self.field(4)?.is(if is_sized { SIZED_END } else { END })?;
        self.field(4)?.is(count)?;
        self.field(8)?.is(number)?;
        Ok(())
    }
}

/// What bytes are.
pub fn judge(text: &[u8]) -> Judged {
    let mut walk = Walk { text, at: 0 };
    match walk.text() {
        Ok(()) => Judged::Whole(walk.at),
        Err(judged) => judged,
    }
}
