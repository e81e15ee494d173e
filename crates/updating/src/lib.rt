// "The state of a propagation (number of literals set, sweeps made, clash or none) is a small record that each sweep updates": the
// record is lent to the sweep. `sweep_once` has it by value, so whoever calls that lends nothing.
#![tactic(auto)]

ghost use Rattle.sweep.specs.Swept.{Sweepable, Swept};

use lookup::Clauses;
use sweep::Propagation;

pub fn sweep_into(live: Clauses, t: &mut [u8], p: &mut Propagation)
    requires { Sweepable live.formula.now live.proof.now live.words.now t.old p.old }
    ensures { Swept live.entry.formula.now live.entry.proof.now live.entry.words.now t.old p.old t.new p.new }
{
    *p = sweep::sweep(live, t, *p);
}

// The record is a local, lent for one sweep and handed back: what `sweep::sweep` says.
pub fn sweep_once(live: Clauses, t: &mut [u8], p: Propagation) -> Propagation
    requires { Sweepable live.formula.now live.proof.now live.words.now t.old p }
    ensures { Swept live.entry.formula.now live.entry.proof.now live.entry.words.now t.old p t.new result }
{
    let mut state = p;
    sweep_into(live, t, &mut state);
    state
}
