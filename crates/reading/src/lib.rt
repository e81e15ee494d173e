// A formula is HEAD, then m CLAUSE fields, and nothing more. Each clause is entered into the clause table under its number.
#![tactic(auto)]

ghost use Rattle.std.specs.Prelude.{◌≡◌, ◌≤◌, ◌<◌, leb, length};
ghost use Rattle.paper.specs.declared.Reason.{Reason};
ghost use Rattle.paper.specs.Files.{need};
ghost use Rattle.field.specs.Field.{result_of};
ghost use Rattle.table.specs.Table.{Zero};
ghost use Rattle.reading.specs.Reading.{HeadSaid, ClauseSaid, ClausesSaid, FormulaSaid};

use field::{Cursor, Fault, Length, Part};
use paper::Reason;

// V, m and the cursor past HEAD.
#[derive(Clone, Copy)]
struct Head {
    vars: usize,
    clauses: usize,
    first: Cursor,
}

#[tactic(auto, using(crate::proofs::HeadRead::head_long))]
fn read_head(formula: &[u8]) -> Result<Head, Fault>
    ensures { HeadSaid formula.now result }
{
    let head = field::expect(
        formula,
        Cursor { at: 0 },
        Reason::FormulaField,
        1,
        Length::Four,
    )?;
    let vars = field::pair_at(formula, 3);
    let clauses = field::pair_at(formula, 5);
    if 4095 < vars || 16383 < clauses {
        return Err(Fault {
            reason: Reason::OverLimit,
            place: 0,
        });
    }
    Ok(Head {
        vars,
        clauses,
        first: head.next,
    })
}

// The clause whose tag is at the cursor; what is handed back is the cursor past it.
#[tactic(auto, using(crate::proofs::Clause::clause_ends, crate::proofs::Clause::clause_within, crate::proofs::Clause::clause_taken))]
fn read_clause(formula: &[u8], c: Cursor, vars: usize, t: &mut [u8]) -> Result<Cursor, Fault>
    requires { (vars ≤ 4095) × ((8192 ≤ length t.old) × Zero t.old) }
    ensures said { ClauseSaid formula.now vars c.at result }
    ensures table { t.new ≡ t.old }
{
    if formula.len() <= c.at {
        return Err(Fault {
            reason: Reason::FormulaEnd,
            place: c.at,
        });
    }
    let clause = field::expect(formula, c, Reason::FormulaField, 2, Length::Even)?;
    let part = Part {
        bytes: field::payload(formula, clause.extent),
        start: clause.extent.start,
    };
    clauses::check_clause(part, vars, Reason::FormulaCode, Reason::FormulaTwice, t)?;
    Ok(clause.next)
}

// After clause m the formula ends.
#[tactic(auto, using(paper::proofs::Lists::leb_within, paper::proofs::Lists::leb_beyond), unfolding(paper::specs::Files::need, field::specs::Field::result_of))]
fn nothing_follows(formula: &[u8], c: Cursor) -> Result<(), Fault>
    ensures { result ≡ result_of (need (leb (length formula.now) c.at) Reason.FormulaEnd c.at) }
{
    if c.at < formula.len() {
        return Err(Fault {
            reason: Reason::FormulaEnd,
            place: c.at,
        });
    }
    Ok(())
}

// The clauses from the cursor past HEAD to the formula's end, each entered under its number.
fn enter_clauses(
    formula: &[u8],
    vars: usize,
    m: usize,
    first: Cursor,
    words: &mut [u32],
    t: &mut [u8],
) -> Result<(), Fault>
    requires { (length formula.now ≤ 1048576) × ((vars ≤ 4095) × ((m < length words.old) × (Zero words.old × ((8192 ≤ length t.old) × Zero t.old)))) }
    ensures said { ClausesSaid formula.now vars m first.at words.old words.new result }
    ensures table { t.new ≡ t.old }
{
    let mut c = first;
    for k in 1..=m {
        let next = read_clause(formula, c, vars, t)?;
        lookup::enter(words, k, lookup::formula_word(c.at));
        c = next;
    }
    nothing_follows(formula, c)
}

// The number of variables, and the number that the next clause would get.
#[derive(Clone, Copy)]
pub struct FormulaRead {
    pub vars: usize,
    pub next: usize,
}

pub fn read_formula(formula: &[u8], words: &mut [u32], t: &mut [u8]) -> Result<FormulaRead, Fault>
    requires { (length formula.now ≤ 1048576) × ((16384 ≤ length words.old) × (Zero words.old × ((8192 ≤ length t.old) × Zero t.old))) }
    ensures said { FormulaSaid formula.now words.old words.new result }
    ensures table { t.new ≡ t.old }
{
    let head = read_head(formula)?;
    if let Err(fault) = enter_clauses(formula, head.vars, head.clauses, head.first, words, t) {
        words.fill(0);
        return Err(fault);
    }
    Ok(FormulaRead {
        vars: head.vars,
        next: head.clauses + 1,
    })
}
