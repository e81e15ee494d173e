// The clause table by number: one word for each clause number. The word of a live clause is 1,048,576 (it stands in the formula)
// or 2,097,152 (in the proof) plus the offset of the clause's tag in that file. Any word below tells at which number to go on.
// Words and no map: the memory is fixed, and the caller lends it.
#![tactic(auto)]

ghost use Rattle.std.specs.Prelude.{◌≡◌, ◌+◌, ◌≤◌, ◌<◌, length, get_or, set};
ghost use Rattle.paper.specs.Files.{two, payload};
ghost use Rattle.field.specs.Field.{extent_at};
ghost use Rattle.lookup.specs.Clause.{formula_word, proof_word, Entered, clause_bytes, Stands, onward, lowered, cleared, ClauseTable};
ghost use Rattle.lookup.specs.Live.{EmptyLive};

use paper::Extent;

// From here on a word is that of a live clause.
pub const LIVE: u32 = 1048576;

// The two files and the words of the clause numbers in use: the live clauses.
#[derive(Clone, Copy)]
pub struct Clauses<'a, 'w> {
    pub formula: &'a [u8],
    pub proof: &'a [u8],
    pub words: &'w [u32],
    pub ghost stands: { ClauseTable formula.now proof.now (length words.now) words.now },
}

// The payload of the field whose tag is at a place. That it lies in the file was tested when its clause was entered.
#[tactic(auto, unfolding(paper::specs::Files::payload, field::specs::Field::extent_at))]
fn payload_at(s: &[u8], at: usize) -> &[u8]
    requires { at + 3 + two s.now (at + 1) ≤ length s.now }
    ensures { result.now ≡ payload s.now (extent_at s.now at) }
{
    let size = field::pair_at(s, at + 1);
    field::payload(
        s,
        Extent {
            start: at + 3,
            size,
        },
    )
}

// The clause of number n, as it stands in the formula or in the proof. Not of `Clauses`: it asks `Stands` of one word, no `ClauseTable`.
#[tactic(auto, using(crate::proofs::Clause::clause_formula, crate::proofs::Clause::clause_proof))]
pub fn clause_at<'a>(formula: &'a [u8], proof: &'a [u8], words: &[u32], n: usize) -> &'a [u8]
    requires { (n < length words.now) × (Entered (get_or words.now n 0) × Stands formula.now proof.now (get_or words.now n 0)) }
    ensures { result.now ≡ clause_bytes formula.now proof.now (get_or words.now n 0) }
{
    let w = words[n] as usize;
    let at = w % 1048576;
    if w < 2097152 {
        return payload_at(formula, at);
    }
    payload_at(proof, at)
}

// The word of the clause whose tag is at a place of the formula. Not one function with the file's number as a parameter: each is a line,
// and the definitions have both names.
pub fn formula_word(at: usize) -> u32
    requires { at < 1048576 }
    ensures { result ≡ formula_word at }
{
    (1048576 + at) as u32
}

// The word of the clause whose tag is at a place of the proof.
pub fn proof_word(at: usize) -> u32
    requires { at < 1048576 }
    ensures { result ≡ proof_word at }
{
    (2097152 + at) as u32
}

// Enters a clause under the number n.
pub fn enter(words: &mut [u32], n: usize, word: u32)
    requires { n < length words.old }
    ensures { words.new ≡ set words.old n word }
{
    words[n] = word;
}

// The first number from n on that may be live.
pub fn onward(words: &[u32], n: usize) -> usize
    ensures { result ≡ onward words.now n }
{
    match words.get(n) {
        Some(w) if *w < LIVE => n.max(*w as usize),
        _ => n,
    }
}

// The words of the numbers right below n that are not live tell to go on at another number.
fn lower(words: &mut [u32], n: usize, word: u32)
    requires { n ≤ length words.old }
    ensures { words.new ≡ lowered words.old n word }
{
    for k in (0..n).rev() {
        if LIVE <= words[k] {
            return;
        }
        words[k] = word;
    }
}

// Clears the number n: its clause is no longer live. So that a sweep passes over what is not, the word tells where to go on.
pub fn remove(words: &mut [u32], n: usize)
    requires { (n < length words.old) × (n < 65536) }
    ensures { words.new ≡ cleared words.old n }
{
    let later = onward(words, n + 1) as u32;
    words[n] = later;
    lower(words, n, later);
}

// Whether an empty clause is live. A payload of fewer than two bytes holds no code.
pub fn has_empty(live: Clauses) -> bool
    ensures { EmptyLive live.entry.formula.now live.entry.proof.now live.entry.words.now result }
{
    // No `any` over the numbers: the proof did not close for the answer that none is empty.
    for n in 0..live.words.len() {
        if LIVE <= live.words[n] && clause_at(live.formula, live.proof, live.words, n).len() < 2 {
            return true;
        }
    }
    false
}
