// Calls on the Lyndon words of a length, in dictionary order: how many there are, the rank of a word, the word of an index. A faulty argument gets
// its refusal, and every tray is then as it was.
#![tactic(auto)]

ghost use Rattle.std.specs.Prelude.{◌≤◌, IfOk};
ghost use Rattle.theory.specs.Words.{how_many};
ghost use Rattle.calls.specs.Codes.{number_of};
ghost use Rattle.calls.specs.Refusals.{index_fault};
ghost use Rattle.calls.specs.Checks.{Checks};
ghost use Rattle.ranking.specs.Says.{ManySays, RankSays, WordSays};

use calls::Refusal;
use search::Goal;
use shape::Strip;

// The number of Lyndon words of length n.
pub fn lyndon_count(k: u64, n: u64) -> Result<u64, Refusal>
    ensures { ManySays k n result }
{
    let strip = calls::check_strip(k, n)?;
    Ok(ranks::count(strip))
}

// The rank of a word, as 8 bytes.
pub fn rank_of(k: u64, n: u64, word: &[u8], tray: &mut [u8]) -> Result<(), Refusal>
    ensures { RankSays k n word.now tray.old tray.new (number_of result) }
{
    let word = calls::check_word(k, n, word)?;
    calls::give(ranks::of_word(word), tray)
}

// Has a Lyndon word that index?
fn check_index(k: u64, n: u64, index: u64) -> Result<Strip, Refusal>
    ensures strip { Checks (index_fault k n index) k n result }
    ensures within { IfOk result (λ s. (1 ≤ index) × (index ≤ how_many s.k s.n)) }
{
    let strip = calls::check_strip(k, n)?;
    if index == 0 {
        return Err(Refusal::NoSuchWord);
    }
    if ranks::count(strip) < index {
        return Err(Refusal::NoSuchWord);
    }
    Ok(strip)
}

// The Lyndon word of an index, in the tray's first n bytes.
pub fn word_of(k: u64, n: u64, index: u64, tray: &mut [u8]) -> Result<(), Refusal>
    ensures { WordSays k n index tray.old tray.new (number_of result) }
{
    let strip = check_index(k, n, index)?;
    let long = n as usize;
    if tray.len() < long {
        return Err(Refusal::TrayTooSmall);
    }
    search::find(strip, Goal::Index(index), &mut tray[..long]);
    Ok(())
}
