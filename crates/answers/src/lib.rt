// The whole of a call whose work memory is long enough: both files' lengths, the formula, then the steps.
#![tactic(auto)]

ghost use Rattle.std.specs.Prelude.{◌≡◌, ℕ, ◌≤◌, length, replicate};
ghost use Rattle.paper.specs.Answers.{Answer, Steps};
ghost use Rattle.lookup.specs.Live.{live};
ghost use Rattle.answers.specs.Run.{Start, Clear};

use field::Cursor;
use lookup::Clauses;
use paper::{Reason, Verdict};

// The steps from the first on, to the first that is refused or to the proof's end.
fn run_steps<'a>(
    formula: &'a [u8],
    proof: &'a [u8],
    vars: usize,
    first: usize,
    words: &mut [u32],
    t: &mut [u8],
) -> Verdict
    requires { Start formula.now proof.now vars first words.old t.old }
    ensures { Steps proof.now vars (live formula.now proof.now words.old) first 0 0 result }
{
    let mut c = Cursor { at: 0 };
    let mut next = first;
    let mut done: usize = 0;
    // No `for`: each step tells where the next one begins.
    while c.at < proof.len() {
        match judging::take_step(formula, proof, c, vars, next, words, t) {
            Ok(taken) => {
                next = taken.next;
                c = taken.later;
                done += 1;
            }
            Err(fault) => return Verdict::refused(fault.reason, done + 1, fault.place),
        }
    }
    let words = &words[..next];
    let live = Clauses {
        formula,
        proof,
        words,
    };
    if lookup::has_empty(live) {
        return Verdict::Refuted(done);
    }
    Verdict::Held(done)
}

// Both files' lengths (2), the formula, then the steps, in work memory that is all zero.
fn judge_files<'a>(formula: &'a [u8], proof: &'a [u8], words: &mut [u32], t: &mut [u8]) -> Verdict
    requires { Clear words.old t.old }
    ensures { (w b : ℕ) → 16384 ≤ w → 8192 ≤ b → Answer w b formula.now proof.now result }
{
    if 1048576 < formula.len() || 1048576 < proof.len() {
        return Verdict::refused(Reason::FileLong, 0, 0);
    }
    match reading::read_formula(formula, words, t) {
        Ok(read) => run_steps(formula, proof, read.vars, read.next, words, t),
        Err(fault) => Verdict::refused(fault.reason, 0, fault.place),
    }
}

// Zeroes both slices.
fn clear(words: &mut [u32], t: &mut [u8])
    ensures words { words.new ≡ replicate (length words.old) 0 }
    ensures bytes { t.new ≡ replicate (length t.old) 0 }
{
    words.fill(0);
    t.fill(0);
}

// The answer of a call whose work memory is long enough. Whatever the memory holds, it is zeroed before the work, and again after it.
pub fn answer<'a>(formula: &'a [u8], proof: &'a [u8], words: &mut [u32], t: &mut [u8]) -> Verdict
    requires { (length words.old ≡ 16384) × (length t.old ≡ 8192) }
    ensures answer { (w b : ℕ) → 16384 ≤ w → 8192 ≤ b → Answer w b formula.now proof.now result }
    ensures words { words.new ≡ replicate 16384 0 }
    ensures bytes { t.new ≡ replicate 8192 0 }
{
    clear(words, t);
    let verdict = judge_files(formula, proof, words, t);
    clear(words, t);
    verdict
}
