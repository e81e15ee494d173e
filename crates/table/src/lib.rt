// Two bytes for each variable 0 to 4,095, in 8,192 bytes that the caller lends. The first byte is the variable's value
// (0 unset, 1 true, 2 false), plus 4 if the witness maps it, plus 8 times the high part of its image's code; the second is the low part.
// A slice and no struct: a struct over lent bytes would know their length, and each writer would have to say that it holds the same ones.
// And no array: it asks more than `passes`, `lowest_failing` and `trivialises` do.
#![tactic(auto)]

ghost use Rattle.std.specs.Prelude.{◌≡◌, suc, ◌/◌, ◌%◌, ◌<◌, ◌≤◌, eqb, length};
ghost use Rattle.paper.specs.Atoms.{complement};
ghost use Rattle.table.specs.Table.{value_at, mapped_at, image_at, image_of, set_value, set_image, clear_image, clear_values};

// The value of variable v.
// A number: as Option<bool> the best of five bodies took 4 to 5 % longer on chain, random and deleted-run of bench/run, a match up to 53 %.
#[tactic(auto, unfolding(crate::specs::Table::value_at))]
pub fn value(t: &[u8], v: usize) -> u8
    requires { (v < 4096) × (8192 ≤ length t.now) }
    ensures { result ≡ value_at t.now v }
{
    t[v * 2] % 4
}

#[tactic(auto, unfolding(crate::specs::Table::set_value))]
pub fn set_value(t: &mut [u8], v: usize, x: u8)
    requires { (v < 4096) × ((8192 ≤ length t.old) × (x < 3)) }
    ensures { t.new ≡ set_value t.old v x }
{
    t[v * 2] = t[v * 2] / 4 * 4 + x;
}

// The witness maps variable v.
#[tactic(auto, unfolding(crate::specs::Table::mapped_at))]
pub fn is_mapped(t: &[u8], v: usize) -> bool
    requires { (v < 4096) × (8192 ≤ length t.now) }
    ensures { result ≡ mapped_at t.now v }
{
    t[v * 2] / 4 % 2 == 1
}

// The code of the image of variable v.
#[tactic(auto, using(crate::proofs::Laws::image_mapped, crate::proofs::Laws::image_unmapped))]
pub fn image(t: &[u8], v: usize) -> usize
    requires { (v < 4096) × (8192 ≤ length t.now) }
    ensures { (result ≡ image_at t.now v) × (result < 8192) }
{
    if is_mapped(t, v) {
        return usize::from(u16::from_be_bytes([t[v * 2] / 8, t[v * 2 + 1]]));
    }
    2 * v
}

// Maps variable v to a code.
#[tactic(auto, unfolding(crate::specs::Table::set_image))]
pub fn set_image(t: &mut [u8], v: usize, code: usize)
    requires { (v < 4096) × ((8192 ≤ length t.old) × (code < 8192)) }
    ensures { t.new ≡ set_image t.old v code }
{
    let [high, low] = (code as u16).to_be_bytes();
    t[v * 2] = t[v * 2] % 4 + 4 + high * 8;
    t[v * 2 + 1] = low;
}

// Variable v is its own image again.
#[tactic(auto, unfolding(crate::specs::Table::clear_image))]
pub fn clear_image(t: &mut [u8], v: usize)
    requires { (v < 4096) × (8192 ≤ length t.old) }
    ensures { t.new ≡ clear_image t.old v }
{
    t[v * 2] = t[v * 2] % 4;
    t[v * 2 + 1] = 0;
}

#[tactic(auto, unfolding(paper::specs::Atoms::complement))]
pub fn complement(code: usize) -> usize
    requires { code < 8192 }
    ensures { (result ≡ complement code) × (result < 8192) }
{
    code / 2 * 2 + 1 - code % 2
}

// The image of a literal: the complement of its variable's image where the literal is a complement.
#[tactic(auto, using(crate::proofs::Laws::image_even, crate::proofs::Laws::image_odd))]
pub fn image_of(t: &[u8], code: usize) -> usize
    requires { (code < 8192) × (8192 ≤ length t.now) }
    ensures { (result ≡ image_of t.now code) × (result < 8192) }
{
    let x = image(t, code / 2);
    if code % 2 == 0 {
        return x;
    }
    complement(x)
}

// The literal is true.
pub fn is_true(t: &[u8], code: usize) -> bool
    requires { (code < 8192) × (8192 ≤ length t.now) }
    ensures { result ≡ eqb (value_at t.now (code / 2)) (suc (code % 2)) }
{
    usize::from(value(t, code / 2)) == code % 2 + 1
}

pub fn make_true(t: &mut [u8], code: usize)
    requires { (code < 8192) × (8192 ≤ length t.old) }
    ensures { t.new ≡ set_value t.old (code / 2) (suc (code % 2)) }
{
    set_value(t, code / 2, (code % 2 + 1) as u8);
}

// Unsets the variables 0 to vars.
#[tactic(auto, unfolding(crate::specs::Table::clear_to, crate::specs::Table::clear_values))]
pub fn clear_values(t: &mut [u8], vars: usize)
    requires { (vars < 4096) × (8192 ≤ length t.old) }
    ensures { t.new ≡ clear_values vars t.old }
{
    for v in 0..=vars {
        set_value(t, v, 0);
    }
}
