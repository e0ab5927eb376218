// Calls on the marks of a strip, and of its short ring: the mark at a place, the place of a window of marks, the marks from a place on. A faulty
// argument gets its refusal, and every tray is then as it was.
#![tactic(auto)]

ghost use Rattle.calls.specs.Codes.{number_of};
ghost use Rattle.marks.specs.Says.{MarkOn, PrintOn, MarkSays, PlaceSays, PrintSays, ShortMarkSays, ShortPlaceSays, ShortPrintSays};

use calls::Refusal;
use shape::Lengths;

// The mark at a place of a ring, as 8 bytes.
fn mark_on(lengths: Lengths, k: u64, n: u64, place: u64, tray: &mut [u8]) -> Result<(), Refusal>
    ensures { MarkOn lengths k n place tray.old tray.new (number_of result) }
{
    let place = bounds::check_place(lengths, k, n, place)?;
    calls::give(u64::from(access::letter(place)), tray)
}

// The marks of a ring from a place on, as many as are asked for, in the tray's first bytes.
fn print_on(
    lengths: Lengths,
    k: u64,
    n: u64,
    place: u64,
    marks: u64,
    tray: &mut [u8],
) -> Result<(), Refusal>
    ensures { PrintOn lengths k n place marks tray.old tray.new (number_of result) }
{
    let place = bounds::check_place(lengths, k, n, place)?;
    if (tray.len() as u64) < marks {
        return Err(Refusal::TrayTooSmall);
    }
    let count = marks as usize;
    access::letters(place, &mut tray[..count]);
    Ok(())
}

// The mark at a place, as 8 bytes.
// kept: a call for each ring: README's table names each, and each has its own `Says`.
pub fn mark_at(k: u64, n: u64, place: u64, tray: &mut [u8]) -> Result<(), Refusal>
    ensures { MarkSays k n place tray.old tray.new (number_of result) }
{
    mark_on(Lengths::Divisors, k, n, place, tray)
}

// The place of a window, as 8 bytes.
pub fn place_of(k: u64, n: u64, window: &[u8], tray: &mut [u8]) -> Result<(), Refusal>
    ensures { PlaceSays k n window.now tray.old tray.new (number_of result) }
{
    let window = calls::check_word(k, n, window)?;
    calls::give(locator::place_of(window), tray)
}

// The marks from a place on, as many as are asked for, in the tray's first bytes.
pub fn print_marks(k: u64, n: u64, place: u64, marks: u64, tray: &mut [u8]) -> Result<(), Refusal>
    ensures { PrintSays k n place marks tray.old tray.new (number_of result) }
{
    print_on(Lengths::Divisors, k, n, place, marks, tray)
}

// The same three on the short ring.
pub fn short_mark_at(k: u64, n: u64, place: u64, tray: &mut [u8]) -> Result<(), Refusal>
    ensures { ShortMarkSays k n place tray.old tray.new (number_of result) }
{
    mark_on(Lengths::Whole, k, n, place, tray)
}

pub fn short_place_of(k: u64, n: u64, window: &[u8], tray: &mut [u8]) -> Result<(), Refusal>
    ensures { ShortPlaceSays k n window.now tray.old tray.new (number_of result) }
{
    let window = short::check_window(k, n, window)?;
    calls::give(short::place_of(window), tray)
}

pub fn short_print_marks(
    k: u64,
    n: u64,
    place: u64,
    marks: u64,
    tray: &mut [u8],
) -> Result<(), Refusal>
    ensures { ShortPrintSays k n place marks tray.old tray.new (number_of result) }
{
    print_on(Lengths::Whole, k, n, place, marks, tray)
}
