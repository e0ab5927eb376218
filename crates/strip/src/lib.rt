// The boundary for C: each call is one line that calls its family, with the family's promise. include/strip.h declares them.
// kept: each answers a number and no Result, since C reads it.
#![tactic(auto)]

ghost use Rattle.words.specs.Says.{TurnSays};
ghost use Rattle.ranking.specs.Says.{RankSays, WordSays};
ghost use Rattle.marks.specs.Says.{MarkSays, PlaceSays, PrintSays, ShortMarkSays, ShortPlaceSays, ShortPrintSays};
ghost use Rattle.lookups.specs.Says.{LookupSays, SmudgedSays};
ghost use Rattle.misreadings.specs.Says.{MisreadingListSays};
ghost use Rattle.bills.specs.Says.{BillOfSays};
ghost use Rattle.pictures.specs.Says.{BothSay};

// The turn from a word to its smallest rotation, as 8 bytes.
#[unsafe(no_mangle)]
pub extern "C" fn turn_of(k: u64, n: u64, word: &[u8], tray: &mut [u8]) -> u8
    ensures { TurnSays k n word.now tray.old tray.new result }
{
    calls::number(words::turn_of(k, n, word, tray))
}

// The rank of a word, as 8 bytes.
#[unsafe(no_mangle)]
pub extern "C" fn rank_of(k: u64, n: u64, word: &[u8], tray: &mut [u8]) -> u8
    ensures { RankSays k n word.now tray.old tray.new result }
{
    calls::number(ranking::rank_of(k, n, word, tray))
}

// The Lyndon word of an index, in the tray's first n bytes.
#[unsafe(no_mangle)]
pub extern "C" fn word_of(k: u64, n: u64, index: u64, tray: &mut [u8]) -> u8
    ensures { WordSays k n index tray.old tray.new result }
{
    calls::number(ranking::word_of(k, n, index, tray))
}

// The mark at a place, as 8 bytes.
#[unsafe(no_mangle)]
pub extern "C" fn mark_at(k: u64, n: u64, place: u64, tray: &mut [u8]) -> u8
    ensures { MarkSays k n place tray.old tray.new result }
{
    calls::number(marks::mark_at(k, n, place, tray))
}

// The place of a window, as 8 bytes.
#[unsafe(no_mangle)]
pub extern "C" fn place_of(k: u64, n: u64, window: &[u8], tray: &mut [u8]) -> u8
    ensures { PlaceSays k n window.now tray.old tray.new result }
{
    calls::number(marks::place_of(k, n, window, tray))
}

// The marks from a place on, as many as are asked for, in the tray's first bytes.
#[unsafe(no_mangle)]
pub extern "C" fn print_marks(k: u64, n: u64, place: u64, marks: u64, tray: &mut [u8]) -> u8
    ensures { PrintSays k n place marks tray.old tray.new result }
{
    calls::number(marks::print_marks(k, n, place, marks, tray))
}

// The mark at a place of the short ring, as 8 bytes.
#[unsafe(no_mangle)]
pub extern "C" fn short_mark_at(k: u64, n: u64, place: u64, tray: &mut [u8]) -> u8
    ensures { ShortMarkSays k n place tray.old tray.new result }
{
    calls::number(marks::short_mark_at(k, n, place, tray))
}

// The place of a window on the short ring, as 8 bytes.
#[unsafe(no_mangle)]
pub extern "C" fn short_place_of(k: u64, n: u64, window: &[u8], tray: &mut [u8]) -> u8
    ensures { ShortPlaceSays k n window.now tray.old tray.new result }
{
    calls::number(marks::short_place_of(k, n, window, tray))
}

// The marks of the short ring from a place on, as many as are asked for, in the tray's first bytes.
#[unsafe(no_mangle)]
pub extern "C" fn short_print_marks(k: u64, n: u64, place: u64, marks: u64, tray: &mut [u8]) -> u8
    ensures { ShortPrintSays k n place marks tray.old tray.new result }
{
    calls::number(marks::short_print_marks(k, n, place, marks, tray))
}

// The section that a window is read in, in 2 bytes, its distance from the section's start, in 8, and the section's rail, in 2.
#[unsafe(no_mangle)]
pub extern "C" fn look_up(plan: &[u8], window: &[u8], tray: &mut [u8]) -> u8
    ensures { LookupSays plan.now window.now tray.old tray.new result }
{
    calls::number(lookups::look_up(plan, window, tray))
}

// The same of a window in which up to two marks were not read, byte 255: of the laid window of the lowest place that agrees at all the others.
#[unsafe(no_mangle)]
pub extern "C" fn look_up_smudged(plan: &[u8], window: &[u8], tray: &mut [u8]) -> u8
    ensures { SmudgedSays plan.now window.now tray.old tray.new result }
{
    calls::number(lookups::look_up_smudged(plan, window, tray))
}

// The changes of one mark of a laid window that give a laid window, as entries of 10 bytes in the tray's first bytes; how many there are, as 8 bytes in a
// tray of its own.
#[unsafe(no_mangle)]
pub extern "C" fn misreadings_of(
    plan: &[u8],
    window: &[u8],
    count: &mut [u8],
    tray: &mut [u8],
) -> u8
    ensures { MisreadingListSays plan.now window.now count.old count.new tray.old tray.new result }
{
    calls::number(misreadings::misreadings_of(plan, window, count, tray))
}

// What a plan costs in cents at a price for a mark, in thousandths of a cent, and a charge for a section, in cents; as 8 bytes.
#[unsafe(no_mangle)]
pub extern "C" fn bill_of(plan: &[u8], price: u64, charge: u64, tray: &mut [u8]) -> u8
    ensures { BillOfSays plan.now price charge tray.old tray.new result }
{
    calls::number(bills::bill_of(plan, price, charge, tray))
}

// A picture of the marks from a place on, as a plain PBM file in the tray's first bytes; its size, as 8 bytes in a tray of its own.
#[unsafe(no_mangle)]
pub extern "C" fn picture_of(
    k: u64,
    n: u64,
    place: u64,
    width: u64,
    height: u64,
    size: &mut [u8],
    tray: &mut [u8],
) -> u8
    ensures { BothSay k n place width height size.old size.new tray.old tray.new result }
{
    calls::number(pictures::picture_of(k, n, place, width, height, size, tray))
}
