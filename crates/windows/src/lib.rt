// A window looked for in a laying plan: where it is laid, or its refusal. A plan's refusals come first, then the window's own, then that it is not laid.
#![tactic(auto)]

ghost use Rattle.windows.specs.Looks.{Looks};

use calls::Refusal;
use plans::AcceptedPlan;

// Where a window is laid: the plan, the window's place on its strip, and the number of its section.
#[derive(Clone, Copy)]
pub struct Spot<'a> {
    pub plan: AcceptedPlan<'a>,
    pub place: u64,
    pub section: u64,
}

// In any plan, for any window.
#[tactic(auto, using(locator::proofs::Locates::place_small))]
pub fn look<'a>(plan: &'a [u8], window: &[u8]) -> Result<Spot<'a>, Refusal>
    ensures { Looks plan.now window.now result }
{
    let accepted = plans::open(plan)?;
    let word = calls::check_word(accepted.strip.k, accepted.strip.n, window)?;
    let place = locator::place_of(word);
    let section = accepted.laying(place).ok_or(Refusal::NotLaid)?;
    Ok(Spot {
        plan: accepted,
        place,
        section,
    })
}
