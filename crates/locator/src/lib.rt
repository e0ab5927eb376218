// The place of a window: a word of the strip whose letters, with those that follow, hold it, and where it stands in them.
#![tactic(auto)]

ghost use Rattle.std.specs.Prelude.{◌≡◌, ◌-◌, ◌^◌, ◌≤◌, eqb, length};
ghost use Rattle.theory.specs.Words.{pick};
ghost use Rattle.theory.specs.Sums.{cs};
ghost use Rattle.theory.specs.Prenecklaces.{Prenecklace};
ghost use Rattle.theory.specs.Strips.{place_of};
ghost use Rattle.automaton.specs.Tables.{Counted};
ghost use Rattle.locator.specs.Fits.{leading, first_fit, Based, base_of};

use shape::{Lengths, Ring, Strip, Word};

// The longest text that a window is matched against: a word and a window more.
const TEXT: usize = 2 * Strip::LONGEST;

// How many letters b stand at the start.
pub fn count_leading(b: u8, w: &[u8]) -> usize
    ensures { result ≡ leading b w.now }
{
    w.iter().position(|x| *x != b).unwrap_or(w.len())
}

// The first offset at which the window stands in the text; the inner loop leaves a trial at its first differing letter, and the label the search at its
// first fit.
// kept: two loops and a label, no `windows` or `starts_with`: a rule of the paper asks for them, so that a trial ends at that letter.
fn first_fit(text: &[u8], window: &[u8]) -> usize
    requires { (length window.now ≤ length text.now) × (length text.now ≤ 120) }
    ensures { result ≡ first_fit text.now window.now }
{
    let offsets = text.len() - window.len() + 1;
    let mut found = offsets;
    'search: for p in 0..offsets {
        for j in 0..window.len() {
            if text[p + j] != window[j] {
                continue 'search;
            }
        }
        found = p;
        break 'search;
    }
    found
}

// The necklace from whose root word on the window is looked for: it begins in that word or right behind it. The window is α γ with γ α its
// smallest rotation, which v holds, and α its first `turn` letters. The necklace is γ α, if α is not all k−1 (`lead` first letters are); else the
// largest one below γ 0 .. 0.
fn base(k: u64, turn: usize, lead: usize, v: &mut [u8])
    requires { Based k turn lead v.old }
    ensures { v.new ≡ base_of k turn lead v.old }
{
    if lead < turn {
        return;
    }
    let rest = v.len() - turn;
    buffers::fill(v, rest, 0);
    floors::lower(k, v);
}

// The place of a window of `lead` letters k−1 and zeros after them.
fn wrapped(s: Strip, lead: usize) -> u64
    requires { lead ≤ s.size }
    ensures { result ≡ pick (eqb lead 0) 0 (s.size - lead) }
{
    if lead == 0 {
        return 0;
    }
    s.size - lead as u64
}

// The size of CS of a necklace, by one table: where its word ends. Taken into place_of it would have the table cleared twice.
#[inline(never)]
fn end_of(k: u64, v: &[u8], top: u64) -> u64
    requires { Counted k v.now × Prenecklace v.now × (top ≡ k ^ length v.now) }
    ensures { result ≡ cs k v.now }
{
    let mut t = [0u64; automaton::CELLS];
    automaton::whole(k, v, top, &mut t)
}

// The place of a window.
pub fn place_of(window: Word) -> u64
    ensures { result ≡ place_of window.entry.strip.k window.entry.strip.n window.entry.letters.now }
{
    let s = window.strip;
    let k = s.k;
    let w = window.letters;
    let n = w.len();
    let lead = count_leading((k - 1) as u8, w);
    if lead + count_leading(0, &w[lead..]) == n {
        return wrapped(s, lead);
    }
    let mut room = [0u8; Strip::LONGEST];
    let v = &mut room[..n];
    let turn = rotations::smallest(w, v);
    base(k, turn, lead, v);
    let end = end_of(k, v, s.size);
    let long = rotations::shortest_root(v);
    let mut letters = [0u8; TEXT];
    let text = &mut letters[..long + n];
    let ring = Ring {
        lengths: Lengths::Divisors,
        strip: s,
    };
    rings::write_from(ring, v, long, 0, text);
    end - long as u64 + first_fit(text, w) as u64
}
