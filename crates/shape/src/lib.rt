// The shape of a strip: its letters k, its window length n, its k^n positions.
#![tactic(auto)]

ghost use Rattle.std.specs.Prelude.{◌≡◌, ◌^◌, ◌≤◌, ◌<◌, true, MatchOption};
ghost use Rattle.theory.specs.Strips.{admitted};

pub mod ring;
pub mod word;

pub use ring::{Place, Ring};
pub use word::Word;

// A strip that is admitted: there is no other value of this type.
#[derive(Clone, Copy)]
pub struct Strip {
    pub k: u64,
    pub n: u64,
    pub size: u64,
    pub ghost admit: { admitted k n ≡ true },
    pub ghost whole: { size ≡ k ^ n },
}

// The lengths of the words that a ring joins: all that divide n, which makes the strip, or n alone, which makes the short ring.
#[derive(Clone, Copy)]
pub enum Lengths {
    Divisors,
    Whole,
}

// No square of a number above this stays within Strip::PLACES.
const ROOT: u64 = 1 << 30;

// k^n, by the power with half the exponent; refuses before a product passes Strip::PLACES.
fn pow(k: u64, n: u64) -> Option<u64>
    ensures { MatchOption result (2 ^ 60 < k ^ n) (λ p. (p ≡ k ^ n) × (p ≤ 2 ^ 60)) }
{
    if n == 0 {
        return Some(1);
    }
    let half = pow(k, n / 2)?;
    if ROOT < half {
        return None;
    }
    let square = half * half;
    if n % 2 == 0 {
        return Some(square);
    }
    if square == 0 {
        return Some(0);
    }
    if Strip::PLACES / square < k {
        return None;
    }
    Some(square * k)
}

impl Strip {
    ghost use Rattle.shape.specs.Shapes.{Makes};

    // Letters, window length, positions: at most these.
    pub const SHADES: u64 = 36;

    pub const MARKS: u64 = 60;

    pub const PLACES: u64 = 1 << 60;

    // Bytes that hold a word of any strip.
    pub const LONGEST: usize = 60;

    // The strip of k and n, if it is admitted.
    pub fn new(k: u64, n: u64) -> Option<Strip>
        ensures { Makes k n result }
    {
        if k < 2 {
            return None;
        }
        if Self::SHADES < k {
            return None;
        }
        if n < 1 {
            return None;
        }
        if Self::MARKS < n {
            return None;
        }
        let size = pow(k, n)?;
        Some(Strip { k, n, size })
    }
}
