// The word of a ring that holds a position, the letters from there on, and back from a word to its position.
#![tactic(auto)]

ghost use Rattle.std.specs.Prelude.{◌≡◌, ◌≤◌, ◌<◌, length, take};
ghost use Rattle.theory.specs.Lists.{Scratch};
ghost use Rattle.theory.specs.Steps.{extension};
ghost use Rattle.theory.specs.Rings.{cursor, position_in};
ghost use Rattle.theory.specs.Shorts.{short_size};
ghost use Rattle.theory.specs.Prenecklaces.{Prenecklace};
ghost use Rattle.rings.specs.Moves.{HeldOn};
ghost use Rattle.shape.specs.declared.Lengths.TheVariants.{Divisors, Whole};
ghost use Rattle.shape.specs.Rings.{ok_of, letter_of, letters_of};
ghost use Rattle.access.specs.Holders.{HoldsAt, PutAt, end_in};

use search::Goal;
use shape::{Lengths, Place, Ring, Strip, Word};

// The held word's length, and the position in it.
#[derive(Clone, Copy)]
pub struct Spot {
    pub long: usize,
    pub at: usize,
}

// On the strip: the necklace found by the position, up to whose end CS has so many words. By itself, so that the short ring needs no room for its table.
#[inline(never)]
fn strip_holder(s: Strip, p: u64, v: &mut [u8]) -> Spot
    requires { (p < s.size) × (length v.old ≡ s.n) }
    ensures { HoldsAt Divisors s p v.new result }
{
    search::find(s, Goal::Position(p), v);
    let mut t = [0u64; automaton::CELLS];
    let end = automaton::whole(s.k, v, s.size, &mut t);
    let long = rotations::shortest_root(v);
    let at = p + long as u64 - end;
    Spot {
        long,
        at: at as usize,
    }
}

// On the short ring: the Lyndon word of the index, since each has n letters.
fn short_holder(s: Strip, p: u64, v: &mut [u8]) -> Spot
    requires { (p < short_size s.k s.n) × (length v.old ≡ s.n) }
    ensures { HoldsAt Whole s p v.new result }
{
    let n = s.n;
    search::find(s, Goal::Index(p / n + 1), v);
    Spot {
        long: n as usize,
        at: (p % n) as usize,
    }
}

// The word is put over the start of a buffer of n bytes; what stands behind it there is not promised.
// kept: n bytes by a clause, as in search::find: n is known only when it runs, and a struct for buffers of n bytes would be no plainer.
fn holder(place: Place, v: &mut [u8]) -> Spot
    requires { length v.old ≡ place.ring.strip.n }
    ensures { HoldsAt place.ring.lengths place.ring.strip place.at v.new result }
{
    let s = place.ring.strip;
    match place.ring.lengths {
        Lengths::Divisors => strip_holder(s, place.at, v),
        Lengths::Whole => short_holder(s, place.at, v),
    }
}

// The word that holds a place of the ring, over the start of a buffer; `room` is scratch.
pub fn hold(place: Place, room: &mut [u8], out: &mut [u8]) -> Spot
    requires { (length room.old ≡ place.ring.strip.n) × (60 ≤ length out.old) }
    ensures { PutAt place.ring.lengths place.ring.strip place.at out.old out.new result × Scratch room.old room.new }
{
    let spot = holder(place, room);
    let long = spot.long;
    buffers::copy(&room[..long], out);
    spot
}

// The letter at a position.
#[tactic(auto, using(crate::proofs::Reading::held_letter))]
pub fn letter(place: Place) -> u8
    ensures { result ≡ letter_of place.ring.lengths place.ring.strip.k place.ring.strip.n place.at }
{
    let mut room = [0u8; Strip::LONGEST];
    let v = &mut room[..place.ring.strip.n as usize];
    let spot = holder(place, v);
    let at = spot.at;
    v[at]
}

// The letters from a position on, over the whole buffer.
pub fn letters(place: Place, out: &mut [u8])
    ensures { out.new ≡ letters_of place.ring.lengths place.ring.strip.k place.ring.strip.n place.at (length out.old) }
{
    let mut room = [0u8; Strip::LONGEST];
    let v = &mut room[..place.ring.strip.n as usize];
    let spot = holder(place, v);
    rings::write_from(place.ring, v, spot.long, spot.at, out);
}

// Where the word ends of which this is the power, by one table.
fn end_of(lengths: Lengths, power: Word) -> u64
    requires { Prenecklace power.letters.now }
    ensures { result ≡ end_in lengths power.entry.strip power.entry.letters.now }
{
    let s = power.strip;
    let mut t = [0u64; automaton::CELLS];
    match lengths {
        Lengths::Divisors => automaton::whole(s.k, power.letters, s.size, &mut t),
        Lengths::Whole => s.n * ranks::of_prenecklace(power, &mut t),
    }
}

// The position of letter `at` of the word in the first `long` letters. The word is repeated to the buffer's end.
pub fn position(ring: Ring, v: &mut [u8], long: usize, at: usize) -> u64
    requires { HeldOn ring.lengths ring.strip v.old long × (at < long) }
    ensures { (result ≡ position_in (ok_of ring.lengths) (cursor ring.strip.k ring.strip.n (take long v.old) at)) × (v.new ≡ extension (length v.old) (take long v.old)) }
{
    steps::extend(v, long);
    let power = Word {
        strip: ring.strip,
        letters: v,
    };
    let end = end_of(ring.lengths, power);
    end - long as u64 + at as u64
}
