// How many places a ring has, and whether a place is one of them.
#![tactic(auto)]

ghost use Rattle.std.specs.Prelude.{◌≡◌};
ghost use Rattle.shape.specs.Rings.{size_in};
ghost use Rattle.bounds.specs.Places.{ChecksPlace};

use calls::Refusal;
use shape::{Lengths, Place, Ring};

// The places of a ring: k^n on the strip, n for each of its words on the short ring.
pub fn size(ring: Ring) -> u64
    ensures { result ≡ size_in ring.lengths ring.strip }
{
    let s = ring.strip;
    match ring.lengths {
        Lengths::Divisors => s.size,
        Lengths::Whole => s.n * ranks::count(s),
    }
}

// Is there such a strip, and is it a place on its ring?
#[tactic(auto, using(crate::proofs::Places::place_large, crate::proofs::Places::place_fine))]
pub fn check_place(lengths: Lengths, k: u64, n: u64, place: u64) -> Result<Place, Refusal>
    ensures { ChecksPlace lengths k n place result }
{
    let strip = calls::check_strip(k, n)?;
    let ring = Ring { lengths, strip };
    if size(ring) <= place {
        return Err(Refusal::OffTheStrip);
    }
    Ok(Place { ring, at: place })
}
