// The worksheet of a word: a line for each divisor of its length, from the largest down, with the divisor's term in document 004's sum for the rank and the
// running sum; or the one line of a refusal.
#![tactic(auto)]

ghost use Rattle.std.specs.Prelude.{IfOk, ◌+◌, ◌≤◌, ◌<◌, length};
ghost use Rattle.moebius.specs.Summands.{Summable, summand};
ghost use Rattle.texts.specs.Texts.{Adds};
ghost use Rattle.texts.specs.Writers.{HasRoom, Writes};
ghost use Rattle.lines.specs.Lines.{line};
ghost use Rattle.calls.specs.Checks.{ChecksWord};
ghost use Rattle.sheets.specs.Worksheets.{letters, long, word_in, most, line_at, sheet, sheet_fault, worksheet};

use calls::Refusal;
use moebius::Sizes;
use shape::{Strip, Word};
use texts::Text;

// Bytes that hold any worksheet: a word has at most 60 letters.
pub const MOST: usize = lines::LINE * Strip::LONGEST;

// In the input the word begins behind k and n.
const WORD: usize = 2;

// Is there such a strip, and is the word one of n letters on it? Without n there is none.
fn check(input: &[u8]) -> Result<Word<'_>, Refusal>
    ensures { ChecksWord (sheet_fault input.now) (letters input.now) (long input.now) (word_in input.now) result }
{
    if input.len() < WORD {
        return Err(Refusal::NoSuchStrip);
    }
    calls::check_word(u64::from(input[0]), u64::from(input[1]), &input[WORD..])
}

// The line of the number n - i, if that divides n.
fn put_line(k: u64, n: u64, i: u64, sizes: &Sizes, text: &mut Text)
    requires { Summable k n sizes.now × (i < n) × HasRoom text.old line }
    ensures { Writes text.old (line_at (summand n sizes.now) n i) text.new × (text.new.end ≤ text.old.end + line) }
{
    let d = n - i;
    if n % d != 0 {
        return;
    }
    let term = moebius::term(n, d, sizes);
    let sum = moebius::divisor_sum(k, n, i + 1, sizes);
    text.number(d, b' ');
    text.signed(term, b' ');
    text.signed(sum, b'\n');
}

// The lines of all divisors.
fn put_sheet(word: Word, text: &mut Text)
    requires { HasRoom text.old most }
    ensures { Writes text.old (sheet word.entry.strip.k word.entry.letters.now) text.new }
{
    let s = word.strip;
    let sizes = ranks::sizes_of(word);
    for i in 0..s.n {
        put_line(s.k, s.n, i, &sizes, text);
    }
}

// The worksheet that an input asks for, and how long it is.
pub fn text(input: &[u8], out: &mut [u8]) -> usize
    requires { most ≤ length out.old }
    ensures { Adds out.old 0 (worksheet input.now) out.new result }
{
    let mut sheet = Text::from(out);
    match check(input) {
        Ok(word) => put_sheet(word, &mut sheet),
        Err(refusal) => lines::put_refused(u8::from(refusal), &mut sheet),
    }
    sheet.end
}
