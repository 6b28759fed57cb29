//! Ratios of holding time to tokens (chapters 2 and 3).
ghost use Rattle.std.specs.Prelude.{◌≡◌, ◌≤◌, refl};
ghost use Rattle.std.specs.Cmp.{partial_order_from_agreeing_total};
ghost use Rattle.std.specs.Int.{IsGcd};
ghost use Rattle.std.specs.Ordering.{as_partial_cmp};
ghost use Rattle.teg_net.specs.RatioOrders.{ratio_cmp, ratio_ties, ratio_total};
ghost use Rattle.teg_net.specs.Ratios.{IsLowestTerms, IsOrderOf, IsRatioOf};

use std::cmp::Ordering;
use std::fmt;
use std::marker::Model;

/// A ratio of holding time to tokens in lowest terms; the tokens are at least 1.
/// Contracts see its time and its tokens. Ratios come in the order of their values, as
/// [`Ratio::compare`] says: `cmp`, `<` and its like go by it.
#[derive(Clone, Copy, Debug, PartialEq, Eq)]
pub struct Ratio {
    time: u64,
    tokens: u64,
}

impl Model for Ratio {
    ghost use Rattle.teg_net.specs.Ratios.{Fraction, IsLowestTerms};

    ghost Value = { Fraction };

    ghost view = { λ r. record { time = r.time; tokens = r.tokens } };

    ghost inverse = { λ f. record { time = f.time; tokens = f.tokens } };

    ghost invariant = { λ r. IsLowestTerms (record { time = r.time; tokens = r.tokens }) };
}

// The greatest common divisor, by Euclid's rule.
fn common_divisor(first: u64, second: u64) -> u64
    ensures { IsGcd first second result }
{
    let mut divisor = first;
    let mut rest = second;
    while rest != 0 {
        let next = divisor % rest;
        divisor = rest;
        rest = next;
    }
    divisor
}

impl Ratio {
    /// The ratio of the time, in the user's unit, to the tokens. It takes no memory, and as many
    /// steps as the logarithm of the lesser.
    pub fn of(time: u64, tokens: u64) -> Ratio
        requires { 1 ≤ tokens }
        ensures ratio { IsRatioOf time tokens result }
        ensures time { result.time ≤ time }
        ensures tokens { result.tokens ≤ tokens }
    {
        let divisor = common_divisor(time, tokens);
        Ratio {
            time: time / divisor,
            tokens: tokens / divisor,
        }
    }

    /// The time over the tokens, in the user's unit and in lowest terms. It takes no memory.
    pub fn time(&self) -> u64
        ensures value { result ≡ self.now.time }
        ensures terms { IsLowestTerms self.now }
    {
        self.time
    }

    /// The tokens under the time, at least 1. It takes no memory.
    pub fn tokens(&self) -> u64
        ensures value { result ≡ self.now.tokens }
        ensures terms { IsLowestTerms self.now }
    {
        self.tokens
    }

    /// Which ratio is the greater, by the exact products of whole numbers. It takes no memory.
    pub fn compare(&self, other: &Ratio) -> Ordering
        ensures { IsOrderOf result self.now other.now }
    {
        let left = u128::from(self.time) * u128::from(other.tokens);
        let right = u128::from(other.time) * u128::from(self.tokens);
        left.cmp(&right)
    }
}

impl PartialOrd for Ratio {
    ghost partial_cmp = { as_partial_cmp ratio_cmp };

    ghost laws = { partial_order_from_agreeing_total ratio_cmp ratio_total (λ r s. refl) ratio_ties };

    fn partial_cmp(&self, other: &Ratio) -> Option<Ordering> {
        Some(self.cmp(other))
    }
}

impl Ord for Ratio {
    ghost cmp = { ratio_cmp };

    ghost total = { ratio_total };

    ghost matches_partial_cmp = { λ r s. refl };

    ghost matches_eq = { ratio_ties };

    #[tactic(auto, using(crate::proofs::RatioOrdering::ordering_is))]
    fn cmp(&self, other: &Ratio) -> Ordering
        ensures value { result ≡ ratio_cmp self.now other.now }
        ensures order { IsOrderOf result self.now other.now }
    {
        // Both are read for their terms: of two ratios of one value both numbers are equal.
        let _terms = (self.time(), other.time());
        self.compare(other)
    }
}

impl fmt::Display for Ratio {
    fn fmt<W: fmt::Write>(&self, f: &mut fmt::Formatter<W>) -> fmt::Result {
        write!(f, "{}/{}", self.time, self.tokens)
    }
}
