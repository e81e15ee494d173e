// The payload of a field, code by code or mapping by mapping.
#![tactic(auto)]

ghost use Rattle.std.specs.Prelude.{◌≡◌};
ghost use Rattle.std.specs.Iterator.{YieldsFirst, YieldsLast, item_count};
ghost use Rattle.paper.specs.Files.{codes, mappings};

// What is left of a payload: codes, or clause numbers.
#[derive(Clone, Copy)]
pub struct Codes<'a> {
    pub bytes: &'a [u8],
}

impl<'a> Iterator for Codes<'a> {
    type Item = usize;

    ghost next_gives = { YieldsFirst (λ s. codes s.bytes.now) };

    ghost remaining = { item_count (λ s. codes s.bytes.now) };

    fn next(&mut self) -> Option<usize> {
        let bytes = self.bytes;
        if bytes.len() < 2 {
            return None;
        }
        self.bytes = &bytes[2..];
        Some(field::pair_at(bytes, 0))
    }
}

// From the back the byte behind the last code, if there is one, is passed over.
impl<'a> DoubleEndedIterator for Codes<'a> {
    ghost next_back_gives = { YieldsLast (λ s. codes s.bytes.now) };

    fn next_back(&mut self) -> Option<usize> {
        let bytes = self.bytes;
        let count = bytes.len() / 2;
        if count == 0 {
            return None;
        }
        let last = 2 * (count - 1);
        self.bytes = &bytes[..last];
        Some(field::pair_at(bytes, last))
    }
}

// The codes, or the clause numbers, of a payload, in turn.
pub fn of<'a>(payload: &'a [u8]) -> Codes<'a>
    ensures { result.bytes ≡ payload.entry }
{
    Codes { bytes: payload }
}

// What is left of a WITNESS field's payload: pairs of a variable and the code of its atom.
#[derive(Clone, Copy)]
pub struct Mappings<'a> {
    pub bytes: &'a [u8],
}

impl<'a> Iterator for Mappings<'a> {
    type Item = (usize, usize);

    ghost next_gives = { YieldsFirst (λ s. mappings (codes s.bytes.now)) };

    ghost remaining = { item_count (λ s. mappings (codes s.bytes.now)) };

    fn next(&mut self) -> Option<(usize, usize)> {
        let bytes = self.bytes;
        if bytes.len() < 4 {
            return None;
        }
        self.bytes = &bytes[4..];
        Some((field::pair_at(bytes, 0), field::pair_at(bytes, 2)))
    }
}

// The mappings of a WITNESS field's payload, in turn.
pub fn mapped<'a>(payload: &'a [u8]) -> Mappings<'a>
    ensures { result.bytes ≡ payload.entry }
{
    Mappings { bytes: payload }
}
