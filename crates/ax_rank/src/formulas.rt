//! The three formulas of suspicion.
ghost use Rattle.std.specs.Prelude.{◌≡◌, ◌+◌, ◌^◌, nat_lt};
ghost use Rattle.ax_rank.specs.Formulas.{fraction as fraction_of, failing, passing, jaccard as jaccard_of, ochiai as ochiai_of, tarantula as tarantula_of};
ghost use Rattle.ax_rank.specs.Tallies.{counts};

use crate::Score;
use crate::kept::Tally;

const NOTHING: Score = Score { num: 0, den: 1 };

// Below this number of runs no product of two counts, and no sum of two such products, wraps.
const MANY: u64 = 2_147_483_648;

fn are_few(t: Tally) -> bool
    ensures { result ≡ nat_lt (failing (counts t) + passing (counts t)) (2 ^ 31) }
{
    t.ef < MANY && t.ep < MANY && t.nf < MANY && t.np < MANY && (t.ef + t.nf) + (t.ep + t.np) < MANY
}

fn fraction(num: u64, den: u64) -> Score
    ensures { (result.num, result.den) ≡ fraction_of num den }
{
    if den == 0 {
        NOTHING
    } else {
        Score { num, den }
    }
}

/// `ef / (ef + ep + nf)`.
pub fn jaccard(t: Tally) -> Score
    ensures { (result.num, result.den) ≡ jaccard_of (counts t) }
{
    if !are_few(t) {
        return NOTHING;
    }
    fraction(t.ef, t.ef + t.ep + t.nf)
}

/// `ef * ef / ((ef + nf) * (ef + ep))`.
pub fn ochiai(t: Tally) -> Score
    ensures { (result.num, result.den) ≡ ochiai_of (counts t) }
{
    if !are_few(t) {
        return NOTHING;
    }
    fraction(t.ef * t.ef, (t.ef + t.nf) * (t.ef + t.ep))
}

/// `ef * p / (ef * p + ep * f)`, with `f` failing and `p` passing runs; 0 where `ef` is 0, and else 1 where no run passed.
pub fn tarantula(t: Tally) -> Score
    ensures { (result.num, result.den) ≡ tarantula_of (counts t) }
{
    if !are_few(t) || t.ef == 0 {
        return NOTHING;
    }
    let failing = t.ef + t.nf;
    let passing = t.ep + t.np;
    if passing == 0 {
        return Score { num: 1, den: 1 };
    }
    fraction(t.ef * passing, t.ef * passing + t.ep * failing)
}
