// A file is a run of fields: one byte tag, two bytes length (high byte first), then that many bytes.
// The reading place is a cursor by value; its method reads one field and hands back the next cursor.
#![tactic(auto)]

ghost use Rattle.std.specs.Prelude.{◌≡◌, ◌+◌, ◌^◌, ◌<◌, ◌≤◌, length};
ghost use Rattle.paper.specs.Files.{two, payload, field};
ghost use Rattle.field.specs.Field.{field_at, allowed_by, judged, found_of};

use paper::{Extent, Reason};

// The two bytes at a place, high byte first: the sum that the paper gives, and no `from_be_bytes`.
pub fn pair_at(s: &[u8], at: usize) -> usize
    requires { at + 1 < length s.now }
    ensures { (result ≡ two s.now at) × (result < 65536) }
{
    usize::from(s[at]) * 256 + usize::from(s[at + 1])
}

// The payload of a field. That it lies in the file is asked here alone: what it gives makes a `Part`.
pub fn payload(s: &[u8], e: Extent) -> &[u8]
    requires { e.start + e.size ≤ length s.now }
    ensures bytes { result.now ≡ payload s.now e }
    ensures within { e.start + length result.now ≤ length s.now }
{
    &s[e.start..e.start + e.size]
}

// A part of a file, and the offset at which it starts there.
#[derive(Clone, Copy)]
pub struct Part<'a> {
    pub bytes: &'a [u8],
    pub start: usize,
    pub ghost fits: { start + length bytes.now < 2 ^ 64 },
}

#[derive(Clone, Copy)]
pub struct Cursor {
    pub at: usize,
}

// What reading at a cursor finds.
#[derive(Clone, Copy)]
pub enum FieldRead {
    // A whole field, and the cursor past it.
    Whole {
        tag: u8,
        extent: Extent,
        next: Cursor,
    },
    // The file ends inside the payload, which was to have that size.
    Cut {
        tag: u8,
        size: usize,
    },
    // The file ends inside the length bytes.
    Short {
        tag: u8,
    },
    // Nothing is left.
    End,
}

impl Cursor {
    pub fn field(self, s: &[u8]) -> FieldRead
        ensures { result ≡ field_at s.now self.at }
    {
        let at = self.at;
        if s.len() <= at {
            return FieldRead::End;
        }
        if s.len() - at < 3 {
            return FieldRead::Short { tag: s[at] };
        }
        let size = pair_at(s, at + 1);
        let start = at + 3;
        if size <= s.len() - start {
            FieldRead::Whole {
                tag: s[at],
                extent: Extent { start, size },
                next: Cursor { at: start + size },
            }
        } else {
            FieldRead::Cut { tag: s[at], size }
        }
    }
}

// The lengths that a field may have: 4 (HEAD), an even one (codes, numbers), a multiple of 4 (WITNESS). No closure: these three are
// all, and a contract names each.
#[derive(Clone, Copy)]
pub enum Length {
    Four,
    Even,
    Fours,
}

pub fn allowed(l: Length, n: usize) -> bool
    ensures { result ≡ allowed_by l n }
{
    match l {
        Length::Four => n == 4,
        Length::Even => n % 2 == 0,
        Length::Fours => n % 4 == 0,
    }
}

// A field that stands where it must, and the cursor past it.
#[derive(Clone, Copy)]
pub struct Found {
    pub extent: Extent,
    pub next: Cursor,
}

// What a reading says of the field that must stand there.
pub fn judge(read: FieldRead, tag: u8, l: Length) -> Option<Found>
    ensures { result ≡ judged tag (allowed_by l) read }
{
    let FieldRead::Whole {
        tag: t,
        extent,
        next,
    } = read
    else {
        return None;
    };
    if t != tag {
        return None;
    }
    if !allowed(l, extent.size) {
        return None;
    }
    Some(Found { extent, next })
}

// What is wrong with a file, and where.
#[derive(Clone, Copy)]
pub struct Fault {
    pub reason: Reason,
    pub place: usize,
}

// The field that must stand at a place; or the fault, at that place. Its tag is the byte that the paper gives, as in the definitions.
pub fn expect(s: &[u8], c: Cursor, why: Reason, tag: u8, l: Length) -> Result<Found, Fault>
    ensures { result ≡ found_of (field why tag (allowed_by l) s.now c.at) }
{
    judge(c.field(s), tag, l).ok_or(Fault {
        reason: why,
        place: c.at,
    })
}
