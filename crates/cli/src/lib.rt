// What the check program prints of two files.
#![tactic(auto)]

ghost use Rattle.cli.specs.Printed.{Printed};

use line::Line;

// The line of the answer, with the work memory that the paper asks for.
pub fn answer<'a>(formula: &'a [u8], proof: &'a [u8]) -> Line
    ensures { Printed formula.now proof.now result }
{
    let mut words = [0u32; 16384];
    let mut bytes = [0u8; 8192];
    line::line_of(checker::check(formula, proof, &mut words, &mut bytes))
}
