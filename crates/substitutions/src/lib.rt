// The single substitutions of a window that give a laid window, the paper's changes of one mark, as a list of entries over the start of a buffer. Each
// function writes those of some changes, in their order, and answers how many it wrote.
#![tactic(auto)]

ghost use Rattle.std.specs.Prelude.{[], ◌∷◌, ◌*◌, ◌<◌, ◌≤◌, length, get_or};
ghost use Rattle.theory.specs.Substitutions.{change, changes_down, changes_up, changes_at, changes_for, changes};
ghost use Rattle.shape.specs.Shapes.{WordOn};
ghost use Rattle.substitutions.specs.Entries.{Writes, Wrote};

use plans::AcceptedPlan;
use shape::{Strip, Word};

// Bytes of an entry: which mark in one, the new shade in one, the new window's place in 8; where this begins.
pub const ENTRY: usize = 10;

const PLACE: usize = 2;

// A window whose changes are tried, on the strip of a plan.
#[derive(Drop)]
struct Tried<'a> {
    plan: AcceptedPlan<'a>,
    window: &'a [u8],
    ghost word: { WordOn plan.strip window.now },
}

impl Tried<'_> {
    // Mark j changed to a.
    // kept: the bounds of j and d as clauses: a type for either would be made and taken apart at each step; and entries by their number: `Wrote` counts them, and an entry has a fixed size.
    fn put_change(&self, j: usize, a: u8, out: &mut [u8]) -> usize
        requires { (10 ≤ length out.old) × (j < length self.now.window.now) × (a < self.now.plan.strip.k) }
        ensures { Wrote self.now.plan.sections.bytes.now self.now.window.now (change j a ∷ []) out.old out.new result }
    {
        let mut room = [0u8; Strip::LONGEST];
        let v = &mut room[..self.window.len()];
        buffers::copy(self.window, v);
        v[j] = a;
        let place = locator::place_of(Word {
            strip: self.plan.strip,
            letters: v,
        });
        if self.plan.laying(place).is_none() {
            return 0;
        }
        out[0] = j as u8;
        out[1] = a;
        numbers::put::<8>(place, &mut out[PLACE..]);
        1
    }

    // Mark j lowered by d, if it is not below d.
    fn put_down(&self, d: u64, j: usize, out: &mut [u8]) -> usize
        requires { (10 * length (changes_down d j (get_or self.now.window.now j 0)) ≤ length out.old) × (j < length self.now.window.now) }
        ensures { Wrote self.now.plan.sections.bytes.now self.now.window.now (changes_down d j (get_or self.now.window.now j 0)) out.old out.new result }
    {
        let a = u64::from(self.window[j]);
        if a < d {
            return 0;
        }
        self.put_change(j, (a - d) as u8, out)
    }

    // Mark j raised by d, if that is a shade.
    fn put_up(&self, d: u64, j: usize, out: &mut [u8]) -> usize
        requires { (10 * length (changes_up self.now.plan.strip.k d j (get_or self.now.window.now j 0)) ≤ length out.old) × (j < length self.now.window.now) × (d < self.now.plan.strip.k) }
        ensures { Wrote self.now.plan.sections.bytes.now self.now.window.now (changes_up self.now.plan.strip.k d j (get_or self.now.window.now j 0)) out.old out.new result }
    {
        let a = u64::from(self.window[j]) + d;
        if self.plan.strip.k <= a {
            return 0;
        }
        self.put_change(j, a as u8, out)
    }

    // Mark j changed by d, the lower new shade first.
    fn put_mark(&self, d: u64, j: usize, out: &mut [u8]) -> usize
        requires { (10 * length (changes_at self.now.plan.strip.k self.now.window.now d j) ≤ length out.old) × (j < length self.now.window.now) × (d < self.now.plan.strip.k) }
        ensures { Wrote self.now.plan.sections.bytes.now self.now.window.now (changes_at self.now.plan.strip.k self.now.window.now d j) out.old out.new result }
    {
        let found = self.put_down(d, j, out);
        let end = ENTRY * found;
        found + self.put_up(d, j, &mut out[end..])
    }

    // Each mark changed by d, the earlier first.
    fn put_marks(&self, d: u64, out: &mut [u8]) -> usize
        requires { (10 * length (changes_for self.now.plan.strip.k self.now.window.now d) ≤ length out.old) × (d < self.now.plan.strip.k) }
        ensures { Wrote self.now.plan.sections.bytes.now self.now.window.now (changes_for self.now.plan.strip.k self.now.window.now d) out.old out.new result }
    {
        let mut found = 0;
        for j in 0..self.window.len() {
            let end = ENTRY * found;
            found += self.put_mark(d, j, &mut out[end..]);
        }
        found
    }
}

// Each change of one mark, the smallest first.
pub fn put_list(plan: &AcceptedPlan, w: &[u8], out: &mut [u8]) -> usize
    requires { Writes plan.now.sections.bytes.now plan.now.strip w.now (changes plan.now.strip.k w.now) out.old }
    ensures list { Wrote plan.now.sections.bytes.now w.now (changes plan.now.strip.k w.now) out.old out.new result }
    ensures room { 10 * result ≤ length out.new }
{
    let tried = Tried {
        plan: *plan,
        window: w,
    };
    let mut found = 0;
    for d in 1..plan.strip.k {
        let end = ENTRY * found;
        found += tried.put_marks(d, &mut out[end..]);
    }
    found
}
