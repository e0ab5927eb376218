// Along a ring, the strip or the short ring: is it a word of the ring, the next word, the word before, and the letters from a place on.
#![tactic(auto)]

ghost use Rattle.std.specs.Prelude.{◌≡◌, ◌≤◌, ◌<◌, [], length, take};
ghost use Rattle.theory.specs.Lists.{Scratch};
ghost use Rattle.theory.specs.Rings.{cursor, good_in, position_in};
ghost use Rattle.shape.specs.Rings.{ok_of, letters_of};
ghost use Rattle.steps.specs.Steps.{padded};
ghost use Rattle.rings.specs.Moves.{HeldOn, MovedIs, BackIs, first_word, last_word, clipped};

use shape::{Lengths, Ring};

// Does the ring join words of this length?
fn allows(lengths: Lengths, n: u64, long: u64) -> bool
    requires { 1 ≤ long }
    ensures { result ≡ ok_of lengths n long }
{
    match lengths {
        Lengths::Divisors => n % long == 0,
        Lengths::Whole => long == n,
    }
}

// Is it a word of the ring, and the place in it?
pub fn is_on(lengths: Lengths, k: u64, n: u64, word: &[u8], place: u64) -> bool
    ensures { result ≡ good_in (ok_of lengths) (cursor k n word.now place) }
{
    let long = word.len() as u64;
    place < long
        && allows(lengths, n, long)
        && lyndon::letters_below(k, word)
        && lyndon::is_lyndon(word)
}

// The length of the word that a move leads to, and how many Lyndon words of at most n letters it passes.
#[derive(Clone, Copy)]
pub struct Moved {
    pub long: usize,
    pub passed: u64,
}

// A move over the end passes no word.
const AROUND: u64 = 0;

// The ring's first word, over zeros, and its length.
fn put_first(lengths: Lengths, w: &mut [u8]) -> usize
    requires { (1 ≤ length w.old) × (w.old ≡ padded (length w.old) []) }
    ensures { (w.new ≡ padded (length w.old) (first_word lengths (length w.old))) × (result ≡ length (first_word lengths (length w.old))) }
{
    let n = w.len();
    match lengths {
        Lengths::Divisors => 1,
        Lengths::Whole => {
            if 1 < n {
                w[n - 1] = 1;
            }
            n
        }
    }
}

// The ring's last word, over zeros, and its length.
fn put_last(ring: Ring, w: &mut [u8]) -> usize
    requires { (1 ≤ length w.old) × (w.old ≡ padded (length w.old) []) }
    ensures { (w.new ≡ padded (length w.old) (last_word ring.lengths ring.strip.k (length w.old))) × (result ≡ length (last_word ring.lengths ring.strip.k (length w.old))) }
{
    let k = ring.strip.k;
    let n = w.len();
    match ring.lengths {
        Lengths::Divisors => {
            w[0] = (k - 1) as u8;
            1
        }
        Lengths::Whole => {
            buffers::fill(w, 0, (k - 1) as u8);
            if 1 < n {
                w[0] = (k - 2) as u8;
            }
            n
        }
    }
}

// The ring's word after the one in the first `long` letters; the first after the last.
// kept: on and back by two functions: one would take step, turn and promise from a trait, and be longer than both.
// kept: a buffer and the length of its word, with `HeldOn` as a clause, here and in steps and access: `Cursor` has its word so, and a struct would lend the buffer on at each step.
pub fn next_word(ring: Ring, w: &mut [u8], long: usize) -> Moved
    requires { HeldOn ring.lengths ring.strip w.old long }
    ensures { MovedIs ring.lengths ring.strip w.old long w.new result }
{
    let k = ring.strip.k;
    let n = ring.strip.n;
    let mut l = long;
    let mut passed = 0;
    loop {
        l = steps::next(k, w, l);
        if l == 0 {
            return Moved {
                long: put_first(ring.lengths, w),
                passed: AROUND,
            };
        }
        passed += 1;
        if allows(ring.lengths, n, l as u64) {
            return Moved { long: l, passed };
        }
    }
}

// The ring's word before the one in the first `long` letters; the last before the first.
pub fn previous_word(ring: Ring, w: &mut [u8], long: usize) -> Moved
    requires { HeldOn ring.lengths ring.strip w.old long }
    ensures { BackIs ring.lengths ring.strip w.old long w.new result }
{
    let k = ring.strip.k;
    let n = ring.strip.n;
    let mut m = long;
    let mut count = 0;
    loop {
        m = steps::previous(k, w, m);
        if m == 0 {
            return Moved {
                long: put_last(ring, w),
                passed: AROUND,
            };
        }
        count += 1;
        if allows(ring.lengths, n, m as u64) {
            return Moved {
                long: m,
                passed: count,
            };
        }
    }
}

// As many letters of the word as the buffer takes, at its start; how many.
fn put_word(word: &[u8], out: &mut [u8]) -> usize
    ensures { (out.new ≡ clipped word.now out.old) × (result ≡ length (take (length out.old) word.now)) }
{
    let c = word.len().min(out.len());
    buffers::copy(&word[..c], out);
    c
}

// The ring's letters from letter `at` of the word in the first `long` letters on, over the whole buffer. The word's buffer is used up, as scratch.
// Taken into its callers: as a call of its own it made printing a tenth slower.
#[inline(always)]
pub fn write_from(ring: Ring, w: &mut [u8], long: usize, at: usize, out: &mut [u8])
    requires { HeldOn ring.lengths ring.strip w.old long × (at < long) }
    ensures { (out.new ≡ letters_of ring.lengths ring.strip.k ring.strip.n (position_in (ok_of ring.lengths) (cursor ring.strip.k ring.strip.n (take long w.old) at)) (length out.old)) × Scratch w.old w.new }
{
    let mut l = long;
    let mut from = at;
    let mut filled = 0;
    while filled < out.len() {
        filled += put_word(&w[from..l], &mut out[filled..]);
        l = next_word(ring, w, l).long;
        from = 0;
    }
}
