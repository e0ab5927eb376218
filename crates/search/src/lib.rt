// The search for a word, letter by letter: the Lyndon word of an index, or the necklace that holds a position of the strip.
#![tactic(auto)]

ghost use Rattle.std.specs.Prelude.{◌≡◌, ◌≤◌, ◌<◌, length};
ghost use Rattle.theory.specs.Words.{up_to};
ghost use Rattle.theory.specs.Prenecklaces.{Prenecklace};
ghost use Rattle.search.specs.Goals.{Within, goal_word, Searching, Found, letter_back, period_with};

use automaton::Table;
use shape::{Strip, Word};

// What is searched for: the Lyndon word of an index, or the necklace that holds a position.
#[derive(Clone, Copy)]
pub enum Goal {
    Index(u64),
    Position(u64),
}

// Is a word at or past the one searched for? By one table, as scratch.
fn reaches(word: Word, goal: Goal, t: &mut Table) -> bool
    requires { Prenecklace word.letters.now × Within word.strip goal }
    ensures { result ≡ up_to (goal_word word.entry.strip.k word.entry.strip.n goal) word.entry.letters.now }
{
    let s = word.strip;
    match goal {
        Goal::Index(i) => i <= ranks::of_prenecklace(word, t),
        Goal::Position(p) => p < automaton::whole(s.k, word.letters, s.size, t),
    }
}

// The letter of the word searched for at j, by bisection from the smallest that keeps a prenecklace; it is put in its place.
fn letter(s: Strip, goal: Goal, w: &mut [u8], j: usize, from: u8, t: &mut Table) -> u8
    requires { Searching s goal w.old j from }
    ensures { Found s goal w.old w.new j result }
{
    let mut low = from;
    let mut high = (s.k - 1) as u8;
    while low < high {
        let mid = low + (high - low) / 2;
        w[j] = mid;
        let tried = Word {
            strip: s,
            letters: w,
        };
        if reaches(tried, goal, t) {
            high = mid;
        } else {
            low = mid + 1;
        }
    }
    w[j] = low;
    low
}

// The letter a period back, which the next letter of a prenecklace is not below; 0 at the start.
fn back(w: &[u8], j: usize, period: usize) -> u8
    requires { (0 < j → (1 ≤ period) × (period ≤ j)) × (j < length w.now) }
    ensures { result ≡ letter_back w.now j period }
{
    if j == 0 {
        return 0;
    }
    w[j - period]
}

// The period with the letter c at j after the letter `from` a period back.
fn period_with(period: usize, j: usize, from: u8, c: u8) -> usize
    requires { j < 60 }
    ensures { result ≡ period_with period j from c }
{
    if j == 0 {
        return 1;
    }
    if from < c {
        return j + 1;
    }
    period
}

// The word searched for, letter by letter, over a buffer of n bytes; one table for all letters tried.
pub fn find(s: Strip, goal: Goal, out: &mut [u8])
    requires { Within s goal × (length out.old ≡ s.n) }
    ensures { out.new ≡ goal_word s.k s.n goal }
{
    buffers::fill(out, 0, (s.k - 1) as u8);
    let mut t = [0u64; automaton::CELLS];
    let mut period = 0;
    for j in 0..out.len() {
        let from = back(out, j, period);
        let c = letter(s, goal, out, j, from, &mut t);
        period = period_with(period, j, from, c);
    }
}
