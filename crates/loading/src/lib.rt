// Literals assumed in the table of the variables: the complements of a new clause's literals, and those of the images of
// another clause's literals, which finds on the way whether the witness trivialises that clause; and their variables unset again.
#![tactic(auto)]

ghost use Rattle.std.specs.Prelude.{◌≡◌, ℕ, ◌≤◌, length};
ghost use Rattle.paper.specs.Atoms.{Witness};
ghost use Rattle.paper.specs.Files.{codes};
ghost use Rattle.paper.specs.Conditions.{Trivialises};
ghost use Rattle.paper.specs.Valid.{Codes};
ghost use Rattle.loading.specs.Loading.{Storable, assumed, imaged, unset_clause, unset_images, Ready, Inward, Images, Decides};

// Makes the complement of each literal of the clause true.
pub fn assume_clause(clause: &[u8], t: &mut [u8])
    requires { (8192 ≤ length t.old) × Storable (codes clause.now) }
    ensures { t.new ≡ assumed t.old (codes clause.now) }
{
    for code in codes::of(clause) {
        table::make_true(t, table::complement(code));
    }
}

// Whether a clause passes by the images of its literals alone, or is open.
#[derive(Clone, Copy, PartialEq, Eq)]
pub enum Assumed {
    Passes,
    Open,
}

// Makes the complement of the image of each literal true, up to an image that is true already. An image of 0 is true, one of 1 is false:
// the codes that a file has.
pub fn assume_images(clause: &[u8], t: &mut [u8]) -> Assumed
    requires { (8192 ≤ length t.old) × Storable (codes clause.now) }
    ensures answer { result ≡ (imaged t.old (codes clause.now)).answer }
    ensures table { t.new ≡ (imaged t.old (codes clause.now)).table }
{
    for code in codes::of(clause) {
        let a = table::image_of(t, code);
        if a == 0 {
            return Assumed::Passes;
        }
        if a != 1 {
            if table::is_true(t, a) {
                return Assumed::Passes;
            }
            table::make_true(t, table::complement(a));
        }
    }
    Assumed::Open
}

// Unsets the variable of each literal of the clause.
pub fn unset_clause(clause: &[u8], t: &mut [u8])
    requires { (8192 ≤ length t.old) × Storable (codes clause.now) }
    ensures { t.new ≡ unset_clause t.old (codes clause.now) }
{
    for code in codes::of(clause) {
        table::set_value(t, code / 2, 0);
    }
}

// Unsets the variable of the image of each literal.
pub fn unset_images(clause: &[u8], t: &mut [u8])
    requires { (8192 ≤ length t.old) × Storable (codes clause.now) }
    ensures { t.new ≡ unset_images t.old (codes clause.now) }
{
    for code in codes::of(clause) {
        let a = table::image_of(t, code);
        table::set_value(t, a / 2, 0);
    }
}

// Whether the witness whose images the table holds trivialises the clause.
pub fn trivialises(clause: &[u8], t: &mut [u8]) -> bool
    requires { (vars : ℕ) × (Ready vars t.old × (Inward vars t.old × Codes vars (codes clause.now))) }
    ensures answer { (s : Witness) → Images t.old s → Decides result (Trivialises s (codes clause.now)) }
    ensures table { t.new ≡ t.old }
{
    let r = assume_images(clause, t);
    unset_images(clause, t);
    r == Assumed::Passes
}
