// The checks of one clause's codes: each stands for a variable 1 to V or its complement, and no variable stands twice. One that does
// is found by marks in the table of the variables, which are cleared again.
#![tactic(auto)]

ghost use Rattle.std.specs.Prelude.{◌≡◌, [], ◌+◌, ◌*◌, ◌≤◌, ◌<◌, ℕ, IfSome, not, length, position};
ghost use Rattle.paper.specs.declared.Reason.{Reason};
ghost use Rattle.paper.specs.Files.{codes};
ghost use Rattle.paper.specs.Refusals.{no_two, between, check_clause};
ghost use Rattle.field.specs.Field.{result_of};
ghost use Rattle.table.specs.Table.{Zero};
ghost use Rattle.loading.specs.Loading.{Storable};
ghost use Rattle.clauses.specs.Check.{variables, place_said, Looked};

use field::{Fault, Part};
use paper::Reason;

// Which of the codes is the first outside 2 to 2 vars + 1.
fn first_out_of_range(part: &[u8], vars: usize) -> Option<usize>
    requires { vars ≤ 4095 }
    ensures first { result ≡ position (λ l. not (between 2 (2 * vars + 1) l)) (codes part.now) }
    ensures within { IfSome result (λ k. k < length (codes part.now)) }
{
    codes::of(part).position(|code| !(2..=2 * vars + 1).contains(&code))
}

// Which code is the first whose variable stands in the clause already. The variables before it are marked in the table, all of them
// where there is none.
fn first_twice(part: &[u8], t: &mut [u8]) -> Option<usize>
    requires { Storable (codes part.now) × ((8192 ≤ length t.old) × Zero t.old) }
    ensures { Looked part.now t.old t.new result }
{
    for (k, code) in codes::of(part).enumerate() {
        if table::value(t, code / 2) != 0 {
            return Some(k);
        }
        table::set_value(t, code / 2, 1);
    }
    None
}

// Which code is the first whose variable stands in the clause already, with the table left as it was.
#[tactic(auto, using(codes::proofs::Room::codes_room))]
fn variable_twice(part: &[u8], t: &mut [u8]) -> Option<usize>
    requires { Storable (codes part.now) × ((8192 ≤ length t.old) × Zero t.old) }
    ensures said { (twice : Reason) (p : ℕ) → no_two twice [] 2 p (variables (codes part.now)) ≡ place_said twice p result }
    ensures within { IfSome result (λ k. k < length (codes part.now)) }
    ensures table { t.new ≡ t.old }
{
    let found = first_twice(part, t);
    // From the code found on none has set a mark.
    let marked = match found {
        Some(k) => &part[..2 * k],
        None => part,
    };
    loading::unset_clause(marked, t);
    found
}

// A code out of range comes before a variable that stands twice. The fault is the first such code, or the second of a variable.
#[tactic(auto, using(codes::proofs::Room::codes_room))]
pub fn check_clause(
    part: Part,
    vars: usize,
    range: Reason,
    twice: Reason,
    t: &mut [u8],
) -> Result<(), Fault>
    requires { (vars ≤ 4095) × ((8192 ≤ length t.old) × Zero t.old) }
    ensures said { result ≡ result_of (check_clause range twice vars part.entry.start (codes part.entry.bytes.now)) }
    ensures table { t.new ≡ t.old }
{
    if let Some(k) = first_out_of_range(part.bytes, vars) {
        return Err(Fault {
            reason: range,
            place: part.start + 2 * k,
        });
    }
    if let Some(k) = variable_twice(part.bytes, t) {
        return Err(Fault {
            reason: twice,
            place: part.start + 2 * k,
        });
    }
    Ok(())
}
