// One step of a proof: its fields read, checked in the paper's order, judged, and taken into the clause table.
#![tactic(auto)]

ghost use Rattle.std.specs.Prelude.{◌≡◌};
ghost use Rattle.paper.specs.Files.{File, codes};
ghost use Rattle.field.specs.Field.{result_of};
ghost use Rattle.lookup.specs.Live.{live};
ghost use Rattle.steps.specs.declared.Kind.TheVariants.{Rup, Sr, Wsr};
ghost use Rattle.conditions.specs.Asked.{live_in};
ghost use Rattle.judging.specs.Step.{rest, New, NewJudged, Checkable, Loadable, JudgementIs, Ready, Done};

use field::{Cursor, Fault, Part};
use lookup::Clauses;
use paper::Reason;
use steps::{Kind, StepRead};

// "RUP step: not RUP" is 13.
fn judge_rup(
    live: Clauses,
    clause: &[u8],
    numbers: &[u8],
    vars: usize,
    next: usize,
    t: &mut [u8],
) -> Result<(), Fault>
    requires { New live Rup clause.now numbers.now vars next t.old }
    ensures answer { NewJudged (live_in live.entry) Rup clause.now numbers.now vars next t.old result }
    ensures table { t.new ≡ t.old }
{
    if conditions::is_rup(live, clause, vars, t) {
        return Ok(());
    }
    Err(Fault {
        reason: Reason::NotRup,
        place: 0,
    })
}

// "SR step: C not trivialised" is 14, then "a clause doesn't pass" is 15.
fn judge_sr(
    live: Clauses,
    clause: &[u8],
    numbers: &[u8],
    vars: usize,
    next: usize,
    t: &mut [u8],
) -> Result<(), Fault>
    requires { New live Sr clause.now numbers.now vars next t.old }
    ensures answer { NewJudged (live_in live.entry) Sr clause.now numbers.now vars next t.old result }
    ensures table { t.new ≡ t.old }
{
    if !loading::trivialises(clause, t) {
        return Err(Fault {
            reason: Reason::NotTrivialised,
            place: 0,
        });
    }
    match conditions::lowest_failing(live, clause, numbers, vars, t) {
        Some(n) => Err(Fault {
            reason: Reason::NotPassing,
            place: n,
        }),
        None => Ok(()),
    }
}

// "a clause doesn't pass" is 15, "C counted with the number it would get".
fn judge_wsr(
    live: Clauses,
    clause: &[u8],
    numbers: &[u8],
    vars: usize,
    next: usize,
    t: &mut [u8],
) -> Result<(), Fault>
    requires { New live Wsr clause.now numbers.now vars next t.old }
    ensures answer { NewJudged (live_in live.entry) Wsr clause.now numbers.now vars next t.old result }
    ensures table { t.new ≡ t.old }
{
    if let Some(n) = conditions::lowest_failing(live, clause, numbers, vars, t) {
        return Err(Fault {
            reason: Reason::NotPassing,
            place: n,
        });
    }
    if conditions::passes(live, clause, clause, vars, t) {
        return Ok(());
    }
    Err(Fault {
        reason: Reason::NotPassing,
        place: next,
    })
}

// The numbers that a step names (11), then the one that its new clause gets (12).
fn check_rest(
    numbers: Part,
    first: Cursor,
    kind: Kind,
    next: usize,
    words: &[u32],
) -> Result<(), Fault>
    ensures { (f p : File) → result ≡ result_of (rest (live f p words.now) first.at kind numbers.entry.start (codes numbers.entry.bytes.now) next) }
{
    steps::check_numbers(numbers, words)?;
    match kind {
        Kind::Delete => Ok(()),
        _ if next < 16384 => Ok(()),
        _ => Err(Fault {
            reason: Reason::NumbersUsedUp,
            place: first.at,
        }),
    }
}

// The numbers (11, 12), then the conditions; the witness's images stand in the table. No `Clauses` up to here: it holds the words of the
// numbers in use alone, and cutting them where a step begins is no shorter.
fn judge_loaded<'a>(
    formula: &'a [u8],
    proof: &'a [u8],
    first: Cursor,
    s: StepRead,
    vars: usize,
    next: usize,
    words: &[u32],
    t: &mut [u8],
) -> Result<(), Fault>
    requires { Loadable formula.now proof.now first.at s vars next words.now t.old }
    ensures answer { JudgementIs proof.now vars (live formula.now proof.now words.now) next first.at s.fields result }
    ensures table { t.new ≡ t.old }
{
    let numbers = Part {
        bytes: field::payload(proof, s.fields.numbers),
        start: s.fields.numbers.start,
    };
    check_rest(numbers, first, s.kind, next, words)?;
    let live = Clauses {
        formula,
        proof,
        words: &words[..next],
    };
    let clause = field::payload(proof, s.fields.clause);
    // No closure for each kind: there are four, and each is judged by a condition of its own.
    match s.kind {
        Kind::Rup => judge_rup(live, clause, numbers.bytes, vars, next, t),
        Kind::Sr => judge_sr(live, clause, numbers.bytes, vars, next, t),
        Kind::Wsr => judge_wsr(live, clause, numbers.bytes, vars, next, t),
        Kind::Delete => Ok(()),
    }
}

// The clause (9, 10), the witness (9, 10), then the rest with the witness's images in the table, which are cleared again. Files and words
// as `judge_loaded` has them.
fn judge_fields<'a>(
    formula: &'a [u8],
    proof: &'a [u8],
    first: Cursor,
    s: StepRead,
    vars: usize,
    next: usize,
    words: &[u32],
    t: &mut [u8],
) -> Result<(), Fault>
    requires { Checkable formula.now proof.now first.at s vars next words.now t.old }
    ensures answer { JudgementIs proof.now vars (live formula.now proof.now words.now) next first.at s.fields result }
    ensures table { t.new ≡ t.old }
{
    let clause = Part {
        bytes: field::payload(proof, s.fields.clause),
        start: s.fields.clause.start,
    };
    clauses::check_clause(clause, vars, Reason::ProofCode, Reason::ProofTwice, t)?;
    let witness = Part {
        bytes: field::payload(proof, s.fields.witness),
        start: s.fields.witness.start,
    };
    steps::check_mappings(witness, vars)?;
    if let Err(i) = mapping::load_witness(witness.bytes, t) {
        return Err(Fault {
            reason: Reason::ProofTwice,
            place: witness.start + i,
        });
    }
    let judgement = judge_loaded(formula, proof, first, s, vars, next, words, t);
    mapping::unload_witness(witness.bytes, t);
    judgement
}

// A DELETE has no clause and no witness, and goes straight to its numbers: a proof may be almost all DELETE steps.
fn judge_step<'a>(
    formula: &'a [u8],
    proof: &'a [u8],
    first: Cursor,
    s: StepRead,
    vars: usize,
    next: usize,
    words: &[u32],
    t: &mut [u8],
) -> Result<(), Fault>
    requires { Checkable formula.now proof.now first.at s vars next words.now t.old }
    ensures answer { JudgementIs proof.now vars (live formula.now proof.now words.now) next first.at s.fields result }
    ensures table { t.new ≡ t.old }
{
    match s.kind {
        Kind::Delete => {
            let numbers = Part {
                bytes: field::payload(proof, s.fields.numbers),
                start: s.fields.numbers.start,
            };
            check_rest(numbers, first, s.kind, next, words)
        }
        _ => judge_fields(formula, proof, first, s, vars, next, words, t),
    }
}

// A step that is taken leaves the next number and the cursor past it.
#[derive(Clone, Copy)]
pub struct Taken {
    pub next: usize,
    pub later: Cursor,
}

pub fn take_step<'a>(
    formula: &'a [u8],
    proof: &'a [u8],
    first: Cursor,
    vars: usize,
    next: usize,
    words: &mut [u32],
    t: &mut [u8],
) -> Result<Taken, Fault>
    requires { Ready formula.now proof.now first.at vars next words.old t.old }
    ensures { Done formula.now proof.now first.at vars next words.old t.old result words.new t.new }
{
    let s = steps::read_fields(proof, first)?;
    judge_step(formula, proof, first, s, vars, next, words, t)?;
    steps::remove_numbers(field::payload(proof, s.fields.numbers), words);
    let later = s.next;
    match s.kind {
        Kind::Delete => Ok(Taken { next, later }),
        _ => {
            lookup::enter(words, next, lookup::proof_word(first.at));
            Ok(Taken {
                next: next + 1,
                later,
            })
        }
    }
}
