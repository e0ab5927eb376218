// The listing of a plan: the line of its strip and a line for each section, or the one line of a refusal.
#![tactic(auto)]

ghost use Rattle.std.specs.Prelude.{◌+◌, ◌≤◌, ◌<◌, length};
ghost use Rattle.theory.specs.Plans.{sections};
ghost use Rattle.texts.specs.Texts.{Adds};
ghost use Rattle.texts.specs.Writers.{HasRoom, Writes};
ghost use Rattle.sections.specs.Read.{section_of};
ghost use Rattle.lines.specs.Lines.{line};
ghost use Rattle.listing.specs.Listings.{most, strip_line, section_line, section_lines, listing};

use plans::AcceptedPlan;
use sections::Section;
use shape::{Lengths, Place, Ring, Strip};
use texts::Text;

// Bytes that hold any listing: a plan has at most 500 sections.
// kept: `HasRoom` and `most` as clauses, here, in lines and in sheets: room is of a text and of a line each time; an array of so many bytes would not take a longer buffer, as text does.
pub const MOST: usize = lines::LINE * 501;

// The strip that a plan is laid on.
fn put_strip(s: Strip, text: &mut Text)
    requires { HasRoom text.old line }
    ensures { Writes text.old (strip_line s.k s.n) text.new × (text.new.end ≤ text.old.end + line) }
{
    text.bytes(b"strip ");
    text.number(s.k, b' ');
    text.number(s.n, b' ');
    text.number(s.size, b'\n');
}

// The number, offset and length of a section, and its first window.
fn put_section(s: Strip, i: u64, section: Section, text: &mut Text)
    requires { (section.offset < s.size) × HasRoom text.old line }
    ensures { Writes text.old (section_line s.k s.n i (section_of section)) text.new × (text.new.end ≤ text.old.end + line) }
{
    text.number(i, b' ');
    text.number(section.offset, b' ');
    text.number(section.long, b' ');
    let mut room = [0u8; Strip::LONGEST];
    let window = &mut room[..s.n as usize];
    let ring = Ring {
        lengths: Lengths::Divisors,
        strip: s,
    };
    let place = Place {
        ring,
        at: section.offset,
    };
    access::letters(place, window);
    text.letters(window);
    text.bytes(b"\n");
}

// The sections of a plan, one behind the other.
fn put_sections(plan: &AcceptedPlan, text: &mut Text)
    requires { (text.old.end ≤ line) × (most ≤ length text.old.out.now) }
    ensures { Writes text.old (section_lines plan.now.strip.k plan.now.strip.n 0 (sections plan.now.sections.bytes.now)) text.new }
{
    for i in 0..plan.sections.count() {
        put_section(plan.strip, i, plan.sections.section_at(i), text);
    }
}

// The listing of a plan, and how long it is.
pub fn text(plan: &[u8], out: &mut [u8]) -> usize
    requires { most ≤ length out.old }
    ensures { Adds out.old 0 (listing plan.now) out.new result }
{
    let mut listing = Text::from(out);
    match plans::open(plan) {
        Ok(accepted) => {
            put_strip(accepted.strip, &mut listing);
            put_sections(&accepted, &mut listing);
        }
        Err(refusal) => lines::put_refused(u8::from(refusal), &mut listing),
    }
    listing.end
}
