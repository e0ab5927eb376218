// What is promised as a whole: the theorems, and what they make of the calls, down to the bytes in the trays.
#![tactic(auto)]

ghost use Rattle.demands.specs.Demands.{Demands};

// Its contract is the promise; without its proof this crate fails.
#[tactic(auto, using(crate::proofs::Kept::demands))]
pub fn promised()
    ensures { Demands }
{}
