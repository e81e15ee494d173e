// The line that the check program prints, as bytes.
#![tactic(auto)]

ghost use Rattle.std.specs.Prelude.{◌≡◌, ◌+◌, ◌≤◌, ◌<◌, ◌∷◌, ◌++◌, length, drop};
ghost use Rattle.paper.specs.Line.{digits, word, line};
ghost use Rattle.line.specs.Put.{Put, Holds};

use paper::{Numbers, Verdict};

// A text, from a place on; the place past it.
fn put(out: &mut [u8; 80], at: usize, text: &[u8]) -> usize
    requires { at + length text.now ≤ 80 }
    ensures { Put out.old at text.now out.new result }
{
    let end = at + text.len();
    out[at..end].copy_from_slice(text);
    end
}

// A space and a number.
fn put_field(out: &mut [u8; 80], at: usize, n: usize) -> usize
    requires { at + 21 ≤ 80 }
    ensures put { Put out.old at (32 ∷ digits 20 n) out.new result }
    ensures upper_bound { result ≤ at + 21 }
{
    let first = put(out, at, b" ");
    put(out, first, itoa::Buffer::new().format(n).as_bytes())
}

// The verdict in small letters.
#[tactic(auto, unfolding(paper::specs::Line::word))]
fn word(v: Verdict) -> &'static str
    ensures said { result.now ≡ word v }
    ensures short { length result.now ≤ 7 }
{
    match v {
        Verdict::Refuted(_) => "refuted",
        Verdict::Held(_) => "held",
        Verdict::Refused(_) => "refused",
    }
}

// A line: its bytes stand at the start, and zeros behind them. An array with a size and no text: `Holds` promises the zeros too.
#[derive(Clone, Copy)]
pub struct Line {
    pub bytes: [u8; 80],
    pub size: usize,
}

// The line of a verdict.
pub fn line_of(v: Verdict) -> Line
    ensures { Holds result (line v) }
{
    let mut out = [0u8; 80];
    let n = Numbers::from(v);
    let at = put(&mut out, 0, word(v).as_bytes());
    let reason = put_field(&mut out, at, usize::from(n.reason));
    let step = put_field(&mut out, reason, n.step);
    let place = put_field(&mut out, step, n.place);
    out[place] = b'\n';
    Line {
        bytes: out,
        size: place + 1,
    }
}
