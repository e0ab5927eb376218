// Calls on one word: is it a Lyndon word, its smallest rotation and the turn to it, its shortest root. A faulty argument gets its refusal, and every
// tray is then as it was.
#![tactic(auto)]

ghost use Rattle.calls.specs.Codes.{number_of};
ghost use Rattle.words.specs.Says.{LyndonSays, RotationSays, TurnSays, RootSays};

use calls::Refusal;

// 1 for a Lyndon word, else 0.
// kept: a number and no bool: README's table has it so, and `Demands.lyndon` speaks of the values 0 and 1.
pub fn is_lyndon(k: u64, n: u64, word: &[u8]) -> Result<u64, Refusal>
    ensures { LyndonSays k n word.now result }
{
    calls::check_word(k, n, word)?;
    Ok(u64::from(lyndon::is_lyndon(word)))
}

// The smallest rotation, in the tray's first n bytes; the value is the least turn that gives it.
pub fn smallest_rotation(k: u64, n: u64, word: &[u8], tray: &mut [u8]) -> Result<u64, Refusal>
    ensures { RotationSays k n word.now tray.old tray.new result }
{
    calls::check_word(k, n, word)?;
    if tray.len() < word.len() {
        return Err(Refusal::TrayTooSmall);
    }
    Ok(rotations::smallest(word, tray) as u64)
}

// The turn to the smallest rotation alone, as 8 bytes.
pub fn turn_of(k: u64, n: u64, word: &[u8], tray: &mut [u8]) -> Result<(), Refusal>
    ensures { TurnSays k n word.now tray.old tray.new (number_of result) }
{
    calls::check_word(k, n, word)?;
    calls::give(rotations::least_turn(word) as u64, tray)
}

// The length of the shortest word that, repeated, gives the word.
pub fn shortest_root(k: u64, n: u64, word: &[u8]) -> Result<u64, Refusal>
    ensures { RootSays k n word.now result }
{
    calls::check_word(k, n, word)?;
    Ok(rotations::shortest_root(word) as u64)
}
