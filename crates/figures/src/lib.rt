// The worked figures.
#![tactic(auto)]

ghost use Rattle.figures.specs.Figures.{Figures};

// One array of decimal digits, its read sheets, and what is known of them.
#[tactic(auto, using(crate::proofs::Worked::figures))]
pub fn figures_stand() -> u8
    ensures { Figures }
{
    0
}
