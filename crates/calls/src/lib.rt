// What all calls share: the refusals, arguments that are checked before a call goes on, and numbers as answers.
#![tactic(auto)]

ghost use Rattle.std.specs.Prelude.{◌≡◌};
ghost use Rattle.theory.specs.Strips.{strip_fault};
ghost use Rattle.calls.specs.Codes.{number_of};
ghost use Rattle.calls.specs.Refusals.{the_word_fault};
ghost use Rattle.calls.specs.Checks.{Checks, ChecksWord};
ghost use Rattle.calls.specs.Answers.{Number};

use shape::{Strip, Word};

pub mod refusal;

pub use refusal::Refusal;

// A number in a tray has so many bytes.
pub const NUMBER: usize = 8;

// Is there such a strip?
pub fn check_strip(k: u64, n: u64) -> Result<Strip, Refusal>
    ensures { Checks (strip_fault k n) k n result }
{
    Strip::new(k, n).ok_or(Refusal::NoSuchStrip)
}

// And is it a word of n marks on it?
pub fn check_word(k: u64, n: u64, letters: &[u8]) -> Result<Word<'_>, Refusal>
    ensures { ChecksWord (the_word_fault k n letters.now) k n letters.now result }
{
    let strip = check_strip(k, n)?;
    if letters.len() as u64 != n {
        return Err(Refusal::WrongWindow);
    }
    if lyndon::letters_below(k, letters) {
        return Ok(Word { strip, letters });
    }
    Err(Refusal::BadMark)
}

// A number into a tray, the highest byte first.
pub fn give(value: u64, tray: &mut [u8]) -> Result<(), Refusal>
    ensures { Number 0 value tray.old tray.new (number_of result) }
{
    if tray.len() < NUMBER {
        return Err(Refusal::TrayTooSmall);
    }
    numbers::put::<8>(value, tray);
    Ok(())
}

// The number of an answer for C: 0, or the refusal's.
pub fn number(answer: Result<(), Refusal>) -> u8
    ensures { result ≡ number_of answer }
{
    match answer {
        Ok(()) => 0,
        Err(refusal) => u8::from(refusal),
    }
}
