// Windows on the short ring: which are refused, and the place of one, by ranks.
#![tactic(auto)]

ghost use Rattle.std.specs.Prelude.{◌≡◌, IfOk, ◌*◌, ◌≤◌, eqb, ltb, length};
ghost use Rattle.theory.specs.Words.{pick, root, how_many};
ghost use Rattle.theory.specs.Shorts.{short_size, short_place_of};
ghost use Rattle.calls.specs.Refusals.{short_window_fault};
ghost use Rattle.calls.specs.Checks.{ChecksWord};
ghost use Rattle.locator.specs.Fits.{cleared};

use calls::Refusal;
use shape::{Lengths, Ring, Strip, Word};

// Is there such a strip, is it a word of n marks on it, and no shorter word repeated?
#[tactic(auto, using(crate::proofs::Refusing::own_root))]
pub fn check_window(k: u64, n: u64, window: &[u8]) -> Result<Word<'_>, Refusal>
    ensures word { ChecksWord (short_window_fault k n window.now) k n window.now result }
    ensures primitive { IfOk result (λ x. root x.letters.now ≡ x.strip.n) }
{
    let word = calls::check_word(k, n, window)?;
    if (rotations::shortest_root(word.letters) as u64) < n {
        return Err(Refusal::RepeatingWindow);
    }
    Ok(word)
}

// The word whose rank tells the place. The window is α γ with γ α its smallest rotation, which v holds, and α its first `turn` letters. It is γ α, if
// α is not all k−1 (`lead` first letters are); else γ 0 .. 0.
fn base(turn: usize, lead: usize, v: &mut [u8])
    requires { turn ≤ length v.old }
    ensures { v.new ≡ pick (ltb lead turn) v.old (cleared turn v.old) }
{
    if lead < turn {
        return;
    }
    let rest = v.len() - turn;
    buffers::fill(v, rest, 0);
}

// Where so many of the ring's first words end. Where none is, its last word does, since it is a ring.
fn end_of(s: Strip, words: u64) -> u64
    requires { (words ≤ how_many s.k s.n) }
    ensures { result ≡ pick (eqb words 0) (short_size s.k s.n) (s.n * words) }
{
    if words == 0 {
        let ring = Ring {
            lengths: Lengths::Whole,
            strip: s,
        };
        return bounds::size(ring);
    }
    s.n * words
}

// The place of a window that is no shorter word repeated: α ends where the words end that are not above γ α, or γ 0 .. 0; a window without α
// begins where its own word does.
pub fn place_of(window: Word) -> u64
    requires { root window.letters.now ≡ window.strip.n }
    ensures { result ≡ short_place_of window.entry.strip.k window.entry.strip.n window.entry.letters.now }
{
    let s = window.strip;
    let w = window.letters;
    let n = w.len();
    let mut room = [0u8; Strip::LONGEST];
    let v = &mut room[..n];
    let turn = rotations::smallest(w, v);
    base(turn, locator::count_leading((s.k - 1) as u8, w), v);
    let end = end_of(
        s,
        ranks::of_word(Word {
            strip: s,
            letters: v,
        }),
    );
    if turn == 0 {
        return end - s.n;
    }
    end - turn as u64
}
