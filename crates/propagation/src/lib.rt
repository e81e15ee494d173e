// Propagation over the live clauses from the values that the table holds: sweeps until one clashes or sets nothing.
#![tactic(auto)]

ghost use Rattle.propagation.specs.Propagated.{Propagable, Propagated};

use lookup::Clauses;
use sweep::Propagation;

// The limit of 4,096 sweeps is never what ends it: 4,095 variables can be set, one at least in each sweep but the last.
pub fn propagate(live: Clauses, t: &mut [u8]) -> Propagation
    requires { Propagable live.formula.now live.proof.now live.words.now t.old }
    ensures { Propagated live.entry.formula.now live.entry.proof.now live.entry.words.now t.old t.new result }
{
    let mut p = Propagation {
        literals: 0,
        sweeps: 0,
        clash: false,
    };
    for _ in 0..4096usize {
        let before = p.literals;
        p = updating::sweep_once(live, t, p);
        if p.clash {
            return p;
        }
        if p.literals == before {
            return p;
        }
    }
    p
}
