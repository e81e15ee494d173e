// What is read and refused of one step of a proof: its fields (reason 8), the ranges of its witness (reason 9) and the clause
// numbers that it names (reason 11); and the clause table cleared of those numbers.
#![tactic(auto)]

ghost use Rattle.std.specs.Prelude.{◌≡◌, ◌≤◌, length, eqb, MatchResult};
ghost use Rattle.std.specs.Option.{ok_or};
ghost use Rattle.paper.specs.Files.{File, bad, codes, mappings};
ghost use Rattle.paper.specs.Refusals.{between, field_if, read_fields, check_mappings, check_numbers};
ghost use Rattle.field.specs.Field.{allowed_by, found_of, result_of};
ghost use Rattle.lookup.specs.Live.{live};
ghost use Rattle.steps.specs.Steps.{tag_of, kind_of, missing, IsRead, removed, Below};

use field::{Cursor, Fault, Found, Length, Part};
use paper::{Extent, Fields, Reason};

// The kinds of steps.
#[derive(Clone, Copy)]
pub enum Kind {
    Rup,
    Sr,
    Wsr,
    Delete,
}

// No step has that tag.
#[derive(Clone, Copy)]
pub struct UnknownTag;

impl TryFrom<u8> for Kind {
    type Error = UnknownTag;

    ghost try_from_gives = { λ tag r. r ≡ kind_of tag };

    fn try_from(tag: u8) -> Result<Kind, UnknownTag> {
        match tag {
            0x11 => Ok(Kind::Rup),
            0x12 => Ok(Kind::Sr),
            0x13 => Ok(Kind::Wsr),
            0x14 => Ok(Kind::Delete),
            _ => Err(UnknownTag),
        }
    }
}

impl Kind {
    #[tactic(auto, unfolding(paper::specs::Refusals::between))]
    fn has_witness(self) -> bool
        ensures { result ≡ between 0x12 0x13 (tag_of self) }
    {
        matches!(self, Kind::Sr | Kind::Wsr)
    }

    fn has_modulo(self) -> bool
        ensures { result ≡ eqb (tag_of self) 0x13 }
    {
        matches!(self, Kind::Wsr)
    }
}

// A step as it was read, and the cursor past it.
#[derive(Clone, Copy)]
pub struct StepRead {
    pub kind: Kind,
    pub fields: Fields,
    pub next: Cursor,
}

// A field that stands at a place only if the step's tag asks for it; else nothing stands there. No Result: its fault shares the bytes of
// the extent, which each step then takes apart and puts together again.
fn expect_if(s: &[u8], asked: bool, c: Cursor, tag: u8, l: Length) -> Option<Found>
    ensures { ok_or result (missing c.at) ≡ found_of (field_if asked tag (allowed_by l) s.now c.at) }
{
    if asked {
        return reader::expect(s, c, tag, l).ok();
    }
    Some(Found {
        extent: Extent {
            start: c.at,
            size: 0,
        },
        next: c,
    })
}

// What is wrong where a field does not stand that must.
fn missing(c: Cursor) -> Fault
    ensures { result ≡ missing c.at }
{
    Fault {
        reason: Reason::ProofField,
        place: c.at,
    }
}

// Each field is read by the cursor that the one before it handed back.
pub fn read_fields(proof: &[u8], first: Cursor) -> Result<StepRead, Fault>
    ensures { MatchResult result (λ s. IsRead proof.now first.at s) (λ e. read_fields proof.now first.at ≡ bad e.reason e.place) }
{
    let tag = reader::tag_at(proof, first);
    let kind = Kind::try_from(tag).or(Err(missing(first)))?;
    let one = reader::expect(proof, first, tag, Length::Even)?;
    let Some(witness) = expect_if(proof, kind.has_witness(), one.next, 0x21, Length::Fours) else {
        return Err(missing(one.next));
    };
    let Some(modulo) = expect_if(proof, kind.has_modulo(), witness.next, 0x22, Length::Even) else {
        return Err(missing(witness.next));
    };
    match kind {
        Kind::Delete => Ok(StepRead {
            kind,
            fields: Fields {
                clause: modulo.extent,
                witness: modulo.extent,
                numbers: one.extent,
                next: one.next.at,
            },
            next: one.next,
        }),
        _ => Ok(StepRead {
            kind,
            fields: Fields {
                clause: one.extent,
                witness: witness.extent,
                numbers: modulo.extent,
                next: modulo.next.at,
            },
            next: modulo.next,
        }),
    }
}

// Reason 9 over the payload of a WITNESS: a variable outside 1 to V, an atom outside 0 to 2V+1.
pub fn check_mappings(part: Part, vars: usize) -> Result<(), Fault>
    requires { vars ≤ 4095 }
    ensures { result ≡ result_of (check_mappings vars part.entry.start (mappings (codes part.entry.bytes.now))) }
{
    for (k, (v, atom)) in codes::mapped(part.bytes).enumerate() {
        let place = part.start + 4 * k;
        if !(1..=vars).contains(&v) {
            return Err(Fault {
                reason: Reason::ProofCode,
                place,
            });
        }
        if 2 * vars + 1 < atom {
            return Err(Fault {
                reason: Reason::ProofCode,
                place: place + 2,
            });
        }
    }
    Ok(())
}

// Reason 11 over a list of clause numbers: one that is not live, or not above the one before it. Which are live the words alone tell.
pub fn check_numbers(part: Part, words: &[u32]) -> Result<(), Fault>
    ensures { (f p : File) → result ≡ result_of (check_numbers (live f p words.now) 0 part.entry.start (codes part.entry.bytes.now)) }
{
    let mut last = 0;
    for (k, n) in codes::of(part.bytes).enumerate() {
        if n <= last || words.len() <= n || words[n] < lookup::LIVE {
            return Err(Fault {
                reason: Reason::NumberNotLive,
                place: part.start + 2 * k,
            });
        }
        last = n;
    }
    Ok(())
}

// Clears the listed numbers: their clauses are no longer live. The last goes first, so that a run of them is written once.
pub fn remove_numbers(numbers: &[u8], words: &mut [u32])
    requires { (length words.old ≤ 65536) × Below (length words.old) (codes numbers.now) }
    ensures { words.new ≡ removed words.old (codes numbers.now) }
{
    for n in codes::of(numbers).rev() {
        lookup::remove(words, n);
    }
}
