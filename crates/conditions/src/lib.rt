// The questions behind a step: whether a clause is RUP, whether one passes, and which is the lowest that does not. The table is
// lent with the witness's images in it and no value, and comes back as it was.
#![tactic(auto)]

ghost use Rattle.std.specs.Prelude.{◌≡◌};
ghost use Rattle.paper.specs.Atoms.{Witness};
ghost use Rattle.paper.specs.Files.{codes};
ghost use Rattle.paper.specs.Conditions.{RUP, Passes};
ghost use Rattle.paper.specs.Valid.{Codes, Listed};
ghost use Rattle.loading.specs.Loading.{Inward, Images, Decides};
ghost use Rattle.conditions.specs.Asked.{live_in, Asked, Finds};

use loading::Assumed;
use lookup::Clauses;

// Whether the clause is RUP over the live clauses.
#[tactic(auto, using(crate::proofs::Answers::asked_gives))]
pub fn is_rup(live: Clauses, clause: &[u8], vars: usize, t: &mut [u8]) -> bool
    requires { Asked live.formula.now live.proof.now live.words.now (codes clause.now) vars t.old }
    ensures answer { Decides result (RUP (live_in live.entry) (codes clause.now)) }
    ensures table { t.new ≡ t.old }
{
    loading::assume_clause(clause, t);
    let state = propagation::propagate(live, t);
    table::clear_values(t, vars);
    state.clash
}

// Whether the clause d passes, for the new clause and the witness whose images the table holds.
#[tactic(auto, using(crate::proofs::Answers::asked_gives))]
pub fn passes(live: Clauses, clause: &[u8], d: &[u8], vars: usize, t: &mut [u8]) -> bool
    requires { Asked live.formula.now live.proof.now live.words.now (codes clause.now) vars t.old × (Inward vars t.old × Codes vars (codes d.now)) }
    ensures answer { (s : Witness) → Images t.old s → Decides result (Passes (live_in live.entry) (codes clause.now) s (codes d.now)) }
    ensures table { t.new ≡ t.old }
{
    loading::assume_clause(clause, t);
    match loading::assume_images(d, t) {
        Assumed::Passes => {
            loading::unset_clause(clause, t);
            loading::unset_images(d, t);
            true
        }
        Assumed::Open => {
            let union = propagation::propagate(live, t);
            table::clear_values(t, vars); // before the next clause is tested
            union.clash
        }
    }
}

// The lowest number of a clause that does not pass, if there is one. The numbers are tested as they rise, and MODULO is read along
// with them.
pub fn lowest_failing(
    live: Clauses,
    clause: &[u8],
    modulo: &[u8],
    vars: usize,
    t: &mut [u8],
) -> Option<usize>
    requires { Asked live.formula.now live.proof.now live.words.now (codes clause.now) vars t.old × (Inward vars t.old × Listed (live_in live) 0 (codes modulo.now)) }
    ensures answer { (s : Witness) → Images t.old s → Finds (live_in live.entry) (codes clause.now) s (codes modulo.now) result }
    ensures table { t.new ≡ t.old }
{
    let mut named = codes::of(modulo).peekable();
    for n in 0..live.words.len() {
        if named.next_if_eq(&n).is_some() {
            continue;
        }
        if live.words[n] < lookup::LIVE {
            continue;
        }
        let d = lookup::clause_at(live.formula, live.proof, live.words, n);
        if !passes(live, clause, d, vars, t) {
            return Some(n);
        }
    }
    None
}
