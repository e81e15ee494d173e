// The proof under reading: its bytes with a place in them. The reader is thin: it is taken apart, and the cursor of `field` reads.
// `expect` has plain parameters, so whoever calls it sees no reader. It stands beside `field::expect` by a rule of the project: the
// proof is read through the reader (docs/DECISIONS.md).
#![tactic(auto)]

ghost use Rattle.std.specs.Prelude.{◌≡◌, get_or};
ghost use Rattle.paper.specs.declared.Reason.TheVariants.{ProofField};
ghost use Rattle.paper.specs.Files.{field};
ghost use Rattle.field.specs.Field.{field_at, allowed_by, found_of};

use field::{Cursor, Fault, FieldRead, Found, Length};
use paper::Reason;

#[derive(Clone, Copy)]
pub struct ProofReader<'a> {
    pub bytes: &'a [u8],
    pub place: Cursor,
}

pub fn open<'a>(bytes: &'a [u8], place: Cursor) -> ProofReader<'a>
    ensures { (result.bytes ≡ bytes.entry) × (result.place ≡ place) }
{
    ProofReader { bytes, place }
}

// The field at the reader's place.
pub fn next_field<'a>(r: ProofReader<'a>) -> FieldRead
    ensures { result ≡ field_at r.entry.bytes.now r.entry.place.at }
{
    let c = r.place;
    c.field(r.bytes)
}

// The field at a place of a proof, read by a reader that is opened there.
pub fn field_at(s: &[u8], c: Cursor) -> FieldRead
    ensures { result ≡ field_at s.now c.at }
{
    next_field(open(s, c))
}

// The tag at a place of a proof, 0 at its end: no tag is 0, and the definitions read a byte past the end as that.
#[tactic(auto, using(field::proofs::Laws::tag_read))]
pub fn tag_at(s: &[u8], c: Cursor) -> u8
    ensures { result ≡ get_or s.now c.at 0 }
{
    match field_at(s, c) {
        FieldRead::Whole { tag, .. } | FieldRead::Cut { tag, .. } | FieldRead::Short { tag } => tag,
        FieldRead::End => 0,
    }
}

// The field that must stand at a place of a proof; or the fault, at that place: what `field::expect` says of any file.
pub fn expect(s: &[u8], c: Cursor, tag: u8, l: Length) -> Result<Found, Fault>
    ensures { result ≡ found_of (field ProofField tag (allowed_by l) s.now c.at) }
{
    field::judge(field_at(s, c), tag, l).ok_or(Fault {
        reason: Reason::ProofField,
        place: c.at,
    })
}
