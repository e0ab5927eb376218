// Windows with erasures, the paper's smudged windows: byte 255 stands for a mark that the head could not read. What is refused of one, and the words
// that it may stand for, which are its fillings.
#![tactic(auto)]

ghost use Rattle.std.specs.Prelude.{◌≡◌, ◌^◌, ◌≤◌, length};
ghost use Rattle.theory.specs.Words.{keep, marks_ok};
ghost use Rattle.theory.specs.Erasures.{unread, read, filling, smudge_fault};
ghost use Rattle.calls.specs.Codes.{number_of};

use calls::Refusal;

// An erasure; no mark has this byte, since there are at most 36 shades. And how many a window may have.
// kept: a byte for an unread mark: README's table has it so.
const UNREAD: u8 = 255;

const MOST: usize = 2;

// How many erasures.
fn count_unread(w: &[u8]) -> usize
    ensures { result ≡ length (keep unread w.now) }
{
    w.iter().filter(|a| **a == UNREAD).count()
}

// Is every mark that was read below k?
fn read_below(k: u64, w: &[u8]) -> bool
    ensures { result ≡ marks_ok k (keep read w.now) }
{
    w.iter().all(|a| *a == UNREAD || u64::from(*a) < k)
}

// Has it n marks, not too many erasures, and only marks below k?
pub fn check_window(k: u64, n: u64, w: &[u8]) -> Result<(), Refusal>
    ensures { number_of result ≡ smudge_fault k n w.now }
{
    if w.len() as u64 != n {
        return Err(Refusal::WrongWindow);
    }
    if MOST < count_unread(w) {
        return Err(Refusal::TooSmudged);
    }
    if read_below(k, w) {
        return Ok(());
    }
    Err(Refusal::BadMark)
}

// How many fillings: a letter below k for each erasure.
pub fn fillings(k: u64, w: &[u8]) -> u64
    requires { (k ≤ 36) × (length (keep unread w.now) ≤ 2) }
    ensures { result ≡ k ^ length (keep unread w.now) }
{
    match count_unread(w) {
        0 => 1,
        1 => k,
        _ => k * k,
    }
}

// Filling c: for the erasures the digits of c to the base k, the lowest first.
pub fn fill(k: u64, c: u64, w: &[u8], out: &mut [u8])
    requires { (1 ≤ k) × (k ≤ 36) × (length out.old ≡ length w.now) }
    ensures { out.new ≡ filling k c w.now }
{
    out.copy_from_slice(w);
    let mut rest = c;
    for letter in out.iter_mut() {
        if *letter == UNREAD {
            *letter = (rest % k) as u8;
            rest /= k;
        }
    }
}
