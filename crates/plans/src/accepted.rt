// A laying plan that is accepted: which of its sections is the window at a place laid in?

ghost use Rattle.std.specs.Prelude.{◌≡◌, ◌^◌, ◌<◌};
ghost use Rattle.theory.specs.Plans.{end_of, sections, welded};
ghost use Rattle.sections.specs.Read.{section_of};
ghost use Rattle.plans.specs.Accepted.{Accepted, Lays};
ghost use Rattle.plans.specs.Begun.{Begun};

use sections::{Plan, Section};
use shape::Strip;

// A laying plan that is accepted, and the strip that it is laid on: there is no other value of this type.
#[derive(Clone, Copy)]
pub struct AcceptedPlan<'a> {
    pub strip: Strip,
    pub sections: Plan<'a>,
    pub ghost accepted: { Accepted sections.bytes.now strip },
}

// Does a section end where the next begins, on the same rail?
fn is_welded(section: Section, next: Section) -> bool
    requires { end_of (section_of section) < 2 ^ 64 }
    ensures { result ≡ welded (section_of section) (section_of next) }
{
    section.offset + section.long == next.offset && section.rail == next.rail
}

impl AcceptedPlan<'_> {
    // How many sections begin at a place or before it, by bisection: they are sorted.
    #[tactic(auto, using(theory::proofs::Records::sections_count))]
    fn begun(&self, place: u64) -> u64
        ensures { Begun place (sections self.now.sections.bytes.now) result }
    {
        let mut low = 0;
        let mut high = self.sections.count();
        while low < high {
            let middle = low + (high - low) / 2;
            if self.sections.section_at(middle).offset <= place {
                low = middle + 1;
            } else {
                high = middle;
            }
        }
        low
    }

    // The section that the window at a place is laid in, if any. No section is shorter than a window, so one that crosses a welded joint ends in the next
    // section.
    #[tactic(auto, using(theory::proofs::Records::sections_count))]
    pub fn laying(&self, place: u64) -> Option<u64>
        requires { place < 2 ^ 60 }
        ensures { Lays self.now.sections.bytes.now place result }
    {
        let looked = self.begun(place);
        if looked == 0 {
            return None;
        }
        let section = self.sections.section_at(looked - 1);
        let end = section.offset + section.long;
        if end <= place {
            return None;
        }
        if place + self.strip.n <= end {
            return Some(looked - 1);
        }
        if looked == self.sections.count() {
            return None;
        }
        if is_welded(section, self.sections.section_at(looked)) {
            return Some(looked - 1);
        }
        None
    }
}
