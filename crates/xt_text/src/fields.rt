//! Fields of a line, each put with a space in front.

ghost use Rattle.std.specs.Fmt.{decimal};
ghost use Rattle.std.specs.Prelude.{◌*◌, ◌≡◌, ◌≤◌, ◌∷◌, length};
ghost use Rattle.xt_text.specs.Buffer.{put};
ghost use Rattle.xt_text.specs.DataText.{spelling};
ghost use Rattle.xt_text.specs.Lines.{ckpt_text, kind_text, name_text, ok_text, trans_text};

use crate::buffer::Text;
use crate::data_text::{put_bytes, put_data};
use crate::numbers::put_number;
use crate::words::BLANK;
use xt_base::content::Data;
use xt_base::names::{CkptNo, JobKind, JobName, TransNo};
use xt_base::sizes::DATA_BYTES;

/// A word.
#[tactic(auto, using(crate::proofs::BufferLemmas::put_put))]
pub(crate) fn then_word(out: &mut Text, word: &[u8])
    ensures { out.new ≡ put out.old (BLANK ∷ word.now) }
{
    out.push(BLANK);
    out.put(word);
}

/// A number.
#[tactic(auto, using(crate::proofs::BufferLemmas::put_put))]
pub(crate) fn then_number(out: &mut Text, number: u64)
    ensures text { out.new ≡ put out.old (BLANK ∷ decimal number) }
    ensures short { length (decimal number) ≤ 20 }
{
    out.push(BLANK);
    put_number(out, number);
}

/// The number of a transaction.
#[tactic(auto, using(crate::proofs::BufferLemmas::put_put))]
pub(crate) fn then_trans(out: &mut Text, trans: TransNo)
    ensures { out.new ≡ put out.old (BLANK ∷ trans_text trans) }
{
    out.push(BLANK);
    out.push(b't');
    put_number(out, trans.0);
}

/// The number of a checkpoint.
#[tactic(auto, using(crate::proofs::BufferLemmas::put_put))]
pub(crate) fn then_ckpt(out: &mut Text, number: CkptNo)
    ensures text { out.new ≡ put out.old (BLANK ∷ ckpt_text number) }
    ensures short { length (ckpt_text number) ≤ 21 }
{
    out.push(BLANK);
    out.push(b'c');
    put_number(out, number.0);
}

/// What a request carries or a device was offered.
#[tactic(auto, using(crate::proofs::BufferLemmas::put_put, crate::proofs::Lengths::spelling_fits))]
pub(crate) fn then_data(out: &mut Text, bytes: &Data)
    ensures text { out.new ≡ put out.old (BLANK ∷ spelling bytes.now) }
    ensures short { length (spelling bytes.now) ≤ 2 * DATA_BYTES }
{
    out.push(BLANK);
    put_data(out, bytes);
}

/// Bytes.
#[tactic(auto, using(crate::proofs::BufferLemmas::put_put, crate::proofs::Lengths::spelling_fits))]
pub(crate) fn then_bytes(out: &mut Text, bytes: &[u8])
    ensures text { out.new ≡ put out.old (BLANK ∷ spelling bytes.now) }
    ensures short { length bytes.now ≤ DATA_BYTES → length (spelling bytes.now) ≤ 2 * DATA_BYTES }
{
    out.push(BLANK);
    put_bytes(out, bytes);
}

/// The answer of a device.
pub(crate) fn then_ok(out: &mut Text, ok: bool)
    ensures text { out.new ≡ put out.old (BLANK ∷ ok_text ok) }
    ensures short { length (ok_text ok) ≤ 4 }
{
    out.put(if ok {
        b" ok".as_slice()
    } else {
        b" fail".as_slice()
    });
}

/// What a job does, with no space in front.
fn put_kind(out: &mut Text, kind: JobKind)
    ensures { out.new ≡ put out.old (kind_text kind) }
{
    match kind {
        JobKind::Ckpt => out.put(b"ckpt"),
        JobKind::Flush => out.put(b"flush"),
    }
}

/// The name of a job.
#[tactic(auto, using(crate::proofs::BufferLemmas::put_put))]
pub(crate) fn then_name(out: &mut Text, name: JobName)
    ensures { out.new ≡ put out.old (BLANK ∷ name_text name) }
{
    then_number(out, name.slot.index() as u64);
    out.push(b'.');
    put_number(out, name.life.0 as u64);
    out.push(b'.');
    put_kind(out, name.kind);
    out.push(b'.');
    put_number(out, name.serial);
}
