// Cursors: a strip, a word of it that is held, and a place in that word. A cursor starts at any place of a ring, the strip or the short ring, and
// steps along it from mark to mark, on or back. It does not say which ring: each call does.
#![tactic(auto)]

ghost use Rattle.std.specs.Prelude.{◌≡◌, ◌&&◌};
ghost use Rattle.theory.specs.Rings.{cursor_on, good_in};
ghost use Rattle.shape.specs.Rings.{ok_of};
ghost use Rattle.cursors.specs.Cursors.{cursor_in, tidy, Is, StartOn, WhereOn, StepOn, BackOn, StartSays, WhereSays, StepSays, BackSays, ShortStartSays, ShortWhereSays, ShortStepSays, ShortBackSays};
ghost use Rattle.cursors.specs.Standing.{ChecksCursor};

use calls::Refusal;
use shape::{Lengths, Place, Ring, Strip};
use standing::Standing;

mod standing;

// The held word in the first `long` of 60 bytes with zeros after it; `place` is the place in it.
#[derive(Clone, Copy, PartialEq, Eq)]
pub struct Cursor {
    pub k: u8,
    pub n: u8,
    pub word: [u8; Strip::LONGEST],
    pub long: u8,
    pub place: u8,
}

// The mark that a cursor stood on, the words passed, and where it stands then.
#[derive(Clone, Copy)]
pub struct Stepped {
    pub mark: u8,
    pub passed: u64,
    pub cursor: Cursor,
}

// Does it hold a word of the ring, a place in it, and zeros after it?
fn is_good(lengths: Lengths, c: Cursor) -> bool
    ensures { result ≡ (tidy c && good_in (ok_of lengths) (cursor_in c)) }
{
    let word = c.word;
    let long = usize::from(c.long);
    if Strip::LONGEST < long {
        return false;
    }
    // zeros are the letters below 1
    if lyndon::letters_below(1, &word[long..]) {
        return rings::is_on(
            lengths,
            u64::from(c.k),
            u64::from(c.n),
            &word[..long],
            u64::from(c.place),
        );
    }
    false
}

// The cursor on its ring, or its fault there.
fn check(lengths: Lengths, c: Cursor) -> Result<Standing, Refusal>
    ensures { ChecksCursor lengths c result }
{
    let strip = calls::check_strip(u64::from(c.k), u64::from(c.n))?;
    if is_good(lengths, c) {
        return Ok(Standing {
            ring: Ring { lengths, strip },
            cursor: c,
        });
    }
    Err(Refusal::LostCursor)
}

// The cursor at a place of a ring.
fn start_at(place: Place) -> Cursor
    ensures { Is (cursor_on (ok_of place.ring.lengths place.ring.strip.n) place.ring.strip.k place.ring.strip.n place.at) result }
{
    let s = place.ring.strip;
    let mut room = [0u8; Strip::LONGEST];
    let mut word = [0u8; Strip::LONGEST];
    let marks = s.n as usize;
    let spot = access::hold(place, &mut room[..marks], &mut word);
    Cursor {
        k: s.k as u8,
        n: s.n as u8,
        word,
        long: spot.long as u8,
        place: spot.at as u8,
    }
}

// The cursor at any place, if it is on the ring.
fn start_on(lengths: Lengths, k: u64, n: u64, place: u64) -> Result<Cursor, Refusal>
    ensures { StartOn lengths k n place result }
{
    Ok(start_at(bounds::check_place(lengths, k, n, place)?))
}

// The cursor at a place of the strip.
pub fn start_cursor(k: u64, n: u64, place: u64) -> Result<Cursor, Refusal>
    ensures { StartSays k n place result }
{
    start_on(Lengths::Divisors, k, n, place)
}

// The cursor at a place of the short ring.
pub fn short_start_cursor(k: u64, n: u64, place: u64) -> Result<Cursor, Refusal>
    ensures { ShortStartSays k n place result }
{
    start_on(Lengths::Whole, k, n, place)
}

// The place of the ring that any cursor stands on.
fn where_on(lengths: Lengths, c: Cursor) -> Result<u64, Refusal>
    ensures { WhereOn lengths c result }
{
    Ok(check(lengths, c)?.place())
}

// The place of the strip that the cursor stands on.
pub fn cursor_place(c: Cursor) -> Result<u64, Refusal>
    ensures { WhereSays c result }
{
    where_on(Lengths::Divisors, c)
}

// The place of the short ring that the cursor stands on.
pub fn short_cursor_place(c: Cursor) -> Result<u64, Refusal>
    ensures { ShortWhereSays c result }
{
    where_on(Lengths::Whole, c)
}

// A step along the ring.
// kept: on and back, and each ring, by a function of its own: README's table names each call.
fn step_on(lengths: Lengths, c: Cursor) -> Result<Stepped, Refusal>
    ensures { StepOn lengths c result }
{
    Ok(check(lengths, c)?.onward())
}

// A step back along the ring.
fn back_on(lengths: Lengths, c: Cursor) -> Result<Stepped, Refusal>
    ensures { BackOn lengths c result }
{
    Ok(check(lengths, c)?.backward())
}

impl Cursor {
    // What stands for the cursor of a refused start: zero in every field.
    pub const NOWHERE: Cursor = Cursor {
        k: 0,
        n: 0,
        word: [0; Strip::LONGEST],
        long: 0,
        place: 0,
    };

    // The mark that the cursor stands on, the words passed, and the cursor on the strip's next mark.
    pub fn step(self) -> Result<Stepped, Refusal>
        ensures { StepSays self result }
    {
        step_on(Lengths::Divisors, self)
    }

    // The mark that the cursor stands on, the words passed backwards, and the cursor on the strip's mark before.
    pub fn step_back(self) -> Result<Stepped, Refusal>
        ensures { BackSays self result }
    {
        back_on(Lengths::Divisors, self)
    }

    // The same two on the short ring. All Lyndon words that are passed count, also those that this ring leaves out.
    pub fn short_step(self) -> Result<Stepped, Refusal>
        ensures { ShortStepSays self result }
    {
        step_on(Lengths::Whole, self)
    }

    pub fn short_step_back(self) -> Result<Stepped, Refusal>
        ensures { ShortBackSays self result }
    {
        back_on(Lengths::Whole, self)
    }
}

// The step on the strip, as a function.
pub fn step_cursor(c: Cursor) -> Result<Stepped, Refusal>
    ensures { StepSays c result }
{
    c.step()
}
