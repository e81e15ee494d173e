// One sweep of a propagation over the live clauses, by rising number. A clause with one literal unset and all others false has that
// literal set; "A sweep stops at the first clause whose literals are all false."
#![tactic(auto)]

ghost use Rattle.std.specs.Prelude.{◌≡◌, ◌≢◌, true, false, ◌<◌, ◌≤◌, length};
ghost use Rattle.paper.specs.Files.{codes};
ghost use Rattle.paper.specs.Valid.{Codes};
ghost use Rattle.sweep.specs.Swept.{all_false, Sweepable, Swept};

use lookup::Clauses;

// Whether a variable's value (0 to 3) is neither true (1) nor false (2), by one test.
#[tactic(auto, using(crate::proofs::Laws::one_test))]
fn is_unset(value: usize) -> bool
    requires { value < 4 }
    ensures { (result ≡ true → (value ≢ 1) × (value ≢ 2)) × (result ≡ false → (1 ≤ value) × (value ≤ 2)) }
{
    (value + 1) / 2 % 2 == 0
}

// Whether the literals that are left of a clause are all false.
fn all_false(literals: codes::Codes, t: &[u8]) -> bool
    requires { Codes 4095 (codes literals.bytes.now) × (8192 ≤ length t.now) }
    ensures { result ≡ all_false 4095 t.now (codes literals.entry.bytes.now) }
{
    for code in literals {
        let value = usize::from(table::value(t, code / 2));
        if is_unset(value) {
            return false;
        }
        if value == code % 2 + 1 {
            return false;
        }
    }
    true
}

// The state of a propagation: number of literals set, sweeps made, clash or none.
#[derive(Clone, Copy)]
pub struct Propagation {
    pub literals: usize,
    pub sweeps: usize,
    pub clash: bool,
}

pub fn sweep(live: Clauses, t: &mut [u8], p: Propagation) -> Propagation
    requires { Sweepable live.formula.now live.proof.now live.words.now t.old p }
    ensures { Swept live.entry.formula.now live.entry.proof.now live.entry.words.now t.old p t.new result }
{
    let mut count = p.literals;
    let mut clash = false;
    let mut k: usize = 0;
    // No `for`: the word of a number that is not live tells at which number to go on.
    'clauses: while k < live.words.len() {
        if lookup::LIVE <= live.words[k] {
            let mut literals = codes::of(lookup::clause_at(
                live.formula,
                live.proof,
                live.words,
                k,
            ));
            // No `for`: that no literal is left is the clash, which leaves both loops.
            'literals: loop {
                let Some(code) = literals.next() else {
                    clash = true;
                    break 'clauses;
                };
                let value = usize::from(table::value(t, code / 2));
                if is_unset(value) {
                    if all_false(literals, t) {
                        table::make_true(t, code);
                        count += 1;
                    }
                    break 'literals;
                }
                if value == code % 2 + 1 {
                    break 'literals;
                }
            }
            k += 1;
        } else {
            k = lookup::onward(live.words, k + 1);
        }
    }
    let sweeps = p.sweeps + 1;
    Propagation {
        literals: count,
        sweeps,
        clash,
    }
}
