// Ranks of words, the sizes of CS behind them, and the number of Lyndon words.
#![tactic(auto)]

ghost use Rattle.std.specs.Prelude.{◌≡◌, ◌*◌, pos};
ghost use Rattle.theory.specs.Words.{rank, how_many};
ghost use Rattle.theory.specs.Floors.{necklace_up_to};
ghost use Rattle.theory.specs.Lists.{Scratch};
ghost use Rattle.theory.specs.Prenecklaces.{Prenecklace};
ghost use Rattle.automaton.specs.Tables.{Sized};
ghost use Rattle.moebius.specs.Summands.{Summable, Whole, total};

use automaton::Table;
use moebius::Sizes;
use shape::{Strip, Word};

// The sum over all divisors of n, divided by n. It is n times a number, so nothing is left. Taken into of_word it would have the sizes cleared and copied
// once more.
#[inline(never)]
fn quotient(s: Strip, sizes: &Sizes) -> u64
    requires { Summable s.k s.n sizes.now × Whole s.n sizes.now }
    ensures { pos (s.n * result) ≡ total s.n sizes.now }
{
    let n = s.n;
    let sum = moebius::divisor_sum(s.k, n, n, sizes);
    (sum as u64) / n
}

// The rank of a prenecklace: document 004's sum, by one table, which is lent as scratch.
// kept: `Prenecklace` as a clause, here and in search and access: a type for it would be made at each call, only to be taken apart for automaton.
pub fn of_prenecklace(word: Word, t: &mut Table) -> u64
    requires { Prenecklace word.letters.now }
    ensures { (result ≡ rank word.entry.strip.k word.entry.letters.now) × Scratch t.old t.new }
{
    let s = word.strip;
    let sizes = automaton::sizes(s.k, word.letters, t);
    quotient(s, &sizes)
}

// The sizes of CS that document 004's sum for any word asks for: those of the largest necklace not above it.
pub fn sizes_of(word: Word) -> Sizes
    ensures { Sized word.entry.strip.k (necklace_up_to word.entry.strip.k word.entry.letters.now) result }
{
    let k = word.strip.k;
    let n = word.letters.len();
    let mut room = [0u8; Strip::LONGEST];
    let v = &mut room[..n];
    buffers::copy(word.letters, v);
    floors::floor(k, v);
    let mut t = [0u64; automaton::CELLS];
    automaton::sizes(k, v, &mut t)
}

// The rank of any word: that of the largest necklace not above it.
pub fn of_word(word: Word) -> u64
    ensures { result ≡ rank word.entry.strip.k word.entry.letters.now }
{
    let sizes = sizes_of(word);
    quotient(word.strip, &sizes)
}

// The number of Lyndon words of length n.
pub fn count(s: Strip) -> u64
    ensures { result ≡ how_many s.k s.n }
{
    let sizes = moebius::powers(s.k, s.n);
    quotient(s, &sizes)
}
