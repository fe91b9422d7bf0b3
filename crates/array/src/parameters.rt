// The parameters of a code, and which of them there may be.
ghost use Rattle.std.specs.Prelude.{◌≡◌, ◌+◌, ◌<◌, ◌≤◌, Bool, MatchResult, nat_le};
ghost use Rattle.array.specs.Checks.{declined, declined_over};

use crate::fault::ParameterFault;
use field::NumberedField;

// Parameters as they are asked for, not checked.
// Kept: four fields beside those of `Parameters`, since what is asked for has no facts.
#[derive(Clone, Copy, Debug, PartialEq, Eq)]
pub struct Proposed {
    pub k: usize,
    pub a: usize,
    pub tau: usize,
    pub b: usize,
}

// The parameters of a code: k data nodes, a nodes of Class A of which the last tau carry piggybacks, b nodes of Class B.
#[derive(Clone, Copy)]
pub struct Parameters {
    pub k: usize,
    pub a: usize,
    pub tau: usize,
    pub b: usize,
    ghost wide: { (3 ≤ k) × (k ≤ 32) },
    ghost spare: { (2 ≤ a) × (a < k) },
    ghost carried: { (1 ≤ tau) × (tau < a) },
    ghost stepped: { tau + b < k },
}

impl Parameters {
    // The parameters, if there may be such.
    #[tactic(auto, unfolding(crate::specs::Checks::declined))]
    pub fn check(proposed: Proposed) -> Result<Parameters, ParameterFault>
        ensures { MatchResult result (λ p. (declined proposed.k proposed.a proposed.tau proposed.b ≡ None) × (p.k ≡ proposed.k) × (p.a ≡ proposed.a) × (p.tau ≡ proposed.tau) × (p.b ≡ proposed.b)) (λ f. declined proposed.k proposed.a proposed.tau proposed.b ≡ Some f) }
    {
        let Proposed { k, a, tau, b } = proposed;
        if k < 3 || 32 < k {
            return Err(ParameterFault::DataNodes);
        }
        if a < 2 || k <= a {
            return Err(ParameterFault::ClassA);
        }
        if tau < 1 || a <= tau {
            return Err(ParameterFault::Piggybacks);
        }
        if k - tau <= b {
            return Err(ParameterFault::ClassB);
        }
        Ok(Parameters { k, a, tau, b })
    }

    // Whether the field F has a number for each data node and each Class A node.
    pub fn fits_field<F: NumberedField>(self) -> bool
        ensures { result ≡ nat_le (self.k + self.a) F.size }
    {
        self.k + self.a <= F::size()
    }

    // The parameters, if there may be such over the field F.
    #[tactic(auto, unfolding(crate::specs::Checks::declined_over))]
    pub fn check_over<F: NumberedField>(proposed: Proposed) -> Result<Parameters, ParameterFault>
        ensures { MatchResult result (λ p. (declined_over F.size proposed.k proposed.a proposed.tau proposed.b ≡ None) × (p.k ≡ proposed.k) × (p.a ≡ proposed.a) × (p.tau ≡ proposed.tau) × (p.b ≡ proposed.b)) (λ f. declined_over F.size proposed.k proposed.a proposed.tau proposed.b ≡ Some f) }
    {
        let parameters = Parameters::check(proposed)?;
        if !parameters.fits_field::<F>() {
            return Err(ParameterFault::SmallField);
        }
        Ok(parameters)
    }
}
