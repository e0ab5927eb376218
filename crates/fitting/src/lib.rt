// The search for the lowest laid window that agrees with one that has erasures: all its fillings are tried, each at its place.
#![tactic(auto)]

ghost use Rattle.std.specs.Prelude.{◌≡◌};
ghost use Rattle.theory.specs.Strips.{place_of};
ghost use Rattle.theory.specs.Erasures.{filling};
ghost use Rattle.fitting.specs.Fits.{Sought, better_of, Finds};

use plans::AcceptedPlan;
use shape::{Strip, Word};

// The place of filling c, if it is below `best` and the window there is laid, else `best`. Once a laid one is known most are not below it, so the sections
// are asked last.
fn better(plan: &AcceptedPlan, w: &[u8], c: u64, best: u64) -> u64
    requires { Sought plan.now.sections.bytes.now plan.now.strip w.now }
    ensures { result ≡ better_of plan.now.sections.bytes.now best (place_of plan.now.strip.k plan.now.strip.n (filling plan.now.strip.k c w.now)) }
{
    let mut room = [0u8; Strip::LONGEST];
    let v = &mut room[..w.len()];
    erasures::fill(plan.strip.k, c, w, v);
    let place = locator::place_of(Word {
        strip: plan.strip,
        letters: v,
    });
    if place < best && plan.laying(place).is_some() {
        return place;
    }
    best
}

// The lowest place of a laid window that agrees, if any. Places do not ascend with the fillings, so all are tried; the strip's size is above any place.
pub fn find(plan: &AcceptedPlan, w: &[u8]) -> Option<u64>
    requires { Sought plan.now.sections.bytes.now plan.now.strip w.now }
    ensures { Finds plan.now.sections.bytes.now w.now result }
{
    let total = erasures::fillings(plan.strip.k, w);
    let mut best = plan.strip.size;
    for c in 0..total {
        best = better(plan, w, c, best);
    }
    if best == plan.strip.size {
        return None;
    }
    Some(best)
}
