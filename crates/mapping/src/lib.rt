// A WITNESS field's payload is pairs: variable, code of its atom. Its mappings are written into the table of the variables,
// which finds a variable that is mapped twice on the way, and cleared from it after the step.
#![tactic(auto)]

ghost use Rattle.std.specs.Prelude.{◌≡◌, [], ℕ, Err, ◌%◌, ◌<◌, ◌≤◌, length};
ghost use Rattle.paper.specs.declared.Reason.{Reason};
ghost use Rattle.paper.specs.Files.{codes, mappings};
ghost use Rattle.paper.specs.Refusals.{no_two};
ghost use Rattle.mapping.specs.Mapping.{variables, Fitting, Bare, unloaded, said_by, table_after};

// Clears the image of each variable that the witness lists.
pub fn unload_witness(w: &[u8], t: &mut [u8])
    requires { (8192 ≤ length t.old) × ((length w.now % 4 ≡ 0) × Fitting (mappings (codes w.now))) }
    ensures { t.new ≡ unloaded t.old (mappings (codes w.now)) }
{
    for (v, _) in codes::mapped(w) {
        table::clear_image(t, v);
    }
}

// Maps each variable that the witness lists, into a table where none is mapped. Where one is listed twice, the error is the
// offset of the first pair whose variable is mapped already, and the table is as it was.
pub fn load_witness(w: &[u8], t: &mut [u8]) -> Result<(), usize>
    requires { (8192 ≤ length t.old) × ((length w.now % 4 ≡ 0) × (Fitting (mappings (codes w.now)) × Bare t.old)) }
    ensures said { (why : Reason) (p : ℕ) → no_two why [] 4 p (variables (mappings (codes w.now))) ≡ said_by why p result }
    ensures place { (i : ℕ) → result ≡ Err i → i < length w.now }
    ensures table { t.new ≡ table_after result t.old (mappings (codes w.now)) }
{
    for (k, (v, atom)) in codes::mapped(w).enumerate() {
        if table::is_mapped(t, v) {
            unload_witness(w, t);
            return Err(4 * k);
        }
        table::set_image(t, v, atom);
    }
    Ok(())
}
