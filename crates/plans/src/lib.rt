// Laying plans: is one accepted, and which of its sections is the window at a place laid in?
#![tactic(auto)]

ghost use Rattle.std.specs.Prelude.{◌≡◌};
ghost use Rattle.theory.specs.Plans.{straight_from, sections};
ghost use Rattle.plans.specs.Opened.{Opens};

use calls::Refusal;
use sections::Plan;

pub mod accepted;

pub use accepted::AcceptedPlan;

// Does each section start where the one ahead ends or later, have n letters or more, and end by the top?
fn is_straight(n: u64, top: u64, plan: &Plan) -> bool
    ensures { result ≡ straight_from n top 0 (sections plan.now.bytes.now) }
{
    let mut end = 0;
    for section in plan.sections() {
        let offset = section.offset;
        let long = section.long;
        if offset < end {
            return false;
        }
        if long < n {
            return false;
        }
        if top < offset {
            return false;
        }
        if top - offset < long {
            return false;
        }
        end = offset + long;
    }
    true
}

// The accepted plan of these bytes.
pub fn open(plan: &[u8]) -> Result<AcceptedPlan<'_>, Refusal>
    ensures { Opens plan.now result }
{
    let sections = Plan::new(plan).ok_or(Refusal::TornPlan)?;
    let n = u64::from(plan[1]);
    let strip = calls::check_strip(u64::from(plan[0]), n)?;
    if is_straight(n, strip.size, &sections) {
        return Ok(AcceptedPlan { strip, sections });
    }
    Err(Refusal::CrookedPlan)
}
