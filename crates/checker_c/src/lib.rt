// The checker for C and Rust: the answer goes into four numbers that the caller lends.
#![tactic(auto)]

ghost use Rattle.checker_c.specs.Told.{Told};

use paper::Numbers;

// The verdict (0 refuted, 1 held, 2 refused), the reason (0 unless refused), the step, and the place (0 unless refused).
#[unsafe(no_mangle)]
pub extern "C" fn boxcarousel_check<'a>(
    formula: &'a [u8],
    proof: &'a [u8],
    words: &mut [u32],
    bytes: &mut [u8],
    out: &mut [u64; 4],
)
    ensures { Told formula.now proof.now words.old words.new bytes.old bytes.new out.new }
{
    let n = Numbers::from(checker::check(formula, proof, words, bytes));
    *out = [
        u64::from(n.verdict),
        u64::from(n.reason),
        n.step as u64,
        n.place as u64,
    ];
}
