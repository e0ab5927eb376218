// Calls on a laying plan: is it accepted, and in which section of it is a window read, also one with marks that could not be read? A faulty argument
// gets its refusal, and every tray is then as it was.
#![tactic(auto)]

ghost use Rattle.calls.specs.Codes.{number_of};
ghost use Rattle.calls.specs.Answers.{Into};
ghost use Rattle.lookups.specs.Says.{answer_at, LaidIn, PlanSays, LookupSays, SmudgedSays};

use calls::Refusal;
use windows::Spot;

// The answer's bytes: the section's number in 2, the distance in 8, the rail in 2; where the last two begin, and how many there are.
const DISTANCE: usize = 2;

const RAIL: usize = 10;

const ANSWER: usize = 12;

// The answer for a window that is laid, into the tray.
fn give(spot: &Spot, tray: &mut [u8]) -> Result<(), Refusal>
    requires { LaidIn spot.now.plan.sections.bytes.now spot.now.place spot.now.section }
    ensures { Into 0 (answer_at spot.now.plan.sections.bytes.now spot.now.place) tray.old tray.new (number_of result) }
{
    if tray.len() < ANSWER {
        return Err(Refusal::TrayTooSmall);
    }
    let sections = spot.plan.sections;
    let distance = spot.place - sections.section_at(spot.section).offset;
    numbers::put::<2>(spot.section, tray);
    numbers::put::<8>(distance, &mut tray[DISTANCE..]);
    numbers::put::<2>(sections.rail_of(spot.section), &mut tray[RAIL..]);
    Ok(())
}

// Is the plan accepted?
pub fn check_plan(plan: &[u8]) -> Result<(), Refusal>
    ensures { PlanSays plan.now (number_of result) }
{
    plans::open(plan)?;
    Ok(())
}

// The section that a window is read in, its distance from the section's start, and the section's rail.
pub fn look_up(plan: &[u8], window: &[u8], tray: &mut [u8]) -> Result<(), Refusal>
    ensures { LookupSays plan.now window.now tray.old tray.new (number_of result) }
{
    give(&windows::look(plan, window)?, tray)
}

// Section, distance and rail of the laid window of the lowest place that agrees at every mark that was read; byte 255 is one that was not, and there may be two.
pub fn look_up_smudged(plan: &[u8], window: &[u8], tray: &mut [u8]) -> Result<(), Refusal>
    ensures { SmudgedSays plan.now window.now tray.old tray.new (number_of result) }
{
    let accepted = plans::open(plan)?;
    erasures::check_window(accepted.strip.k, accepted.strip.n, window)?;
    let place = fitting::find(&accepted, window).ok_or(Refusal::NotLaid)?;
    let section = accepted.laying(place).unwrap();
    let spot = Spot {
        plan: accepted,
        place,
        section,
    };
    give(&spot, tray)
}
