// Tests of a word: are its letters below k, is it a Lyndon word, is it a necklace? And the length of the Lyndon word that it extends.
#![tactic(auto)]

ghost use Rattle.std.specs.Prelude.{◌≡◌};
ghost use Rattle.theory.specs.Words.{marks_ok, is_lyndon};
ghost use Rattle.theory.specs.Steps.{pre_period};
ghost use Rattle.theory.specs.Floors.{is_necklace};

// Is every letter below k?
pub fn letters_below(k: u64, w: &[u8]) -> bool
    ensures { result ≡ marks_ok k w.now }
{
    w.iter().all(|&x| u64::from(x) < k)
}

// The length of the Lyndon word that w extends, by comparing each letter with the one a period back; 0 if a letter is smaller.
// kept: 0 and no Option: steps::previous uses the length as it is, and the definition `pre_period`, which it equals, is that number.
pub fn pre_period(w: &[u8]) -> usize
    ensures { result ≡ pre_period w.now }
{
    if w.is_empty() {
        return 0;
    }
    let mut p = 1;
    for i in 1..w.len() {
        let a = w[i];
        let b = w[i - p];
        if a < b {
            return 0;
        }
        if b < a {
            p = i + 1;
        }
    }
    p
}

// Is w smaller than each of its proper rotations? Just if it extends no shorter Lyndon word.
#[tactic(auto, using(crate::proofs::PrePeriods::lyndon_by_period))]
pub fn is_lyndon(w: &[u8]) -> bool
    ensures { result ≡ is_lyndon w.now }
{
    !w.is_empty() && pre_period(w) == w.len()
}

// Is w its own smallest rotation? Just if it is a Lyndon word repeated.
#[tactic(auto, using(crate::proofs::PrePeriods::necklace_none, crate::proofs::PrePeriods::necklace_by_period))]
pub fn is_necklace(w: &[u8]) -> bool
    ensures { result ≡ is_necklace w.now }
{
    if w.is_empty() {
        return true;
    }
    let p = pre_period(w);
    if p == 0 {
        return false;
    }
    w.len() % p == 0
}
