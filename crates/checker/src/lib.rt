// The checker: formula bytes, proof bytes and lent work memory in, one answer out. Nothing is asked of any of them.
#![tactic(auto)]

ghost use Rattle.std.specs.Prelude.{◌≡◌, length};
ghost use Rattle.paper.specs.Answers.{Answer, memory_after};

use paper::{Reason, Verdict};

pub fn check<'a>(formula: &'a [u8], proof: &'a [u8], words: &mut [u32], bytes: &mut [u8]) -> Verdict
    ensures answer { Answer (length words.old) (length bytes.old) formula.now proof.now result }
    ensures words { words.new ≡ memory_after 16384 result words.old }
    ensures bytes { bytes.new ≡ memory_after 8192 result bytes.old }
{
    if words.len() < 16384 || bytes.len() < 8192 {
        return Verdict::refused(Reason::WorkShort, 0, 0);
    }
    answers::answer(formula, proof, &mut words[..16384], &mut bytes[..8192])
}
