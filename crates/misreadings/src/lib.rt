// Calls that tell how near a laid window is to others: which changes of one mark, as by misreading it, give a laid window too. A faulty argument gets its
// refusal, and every tray is then as it was.
#![tactic(auto)]

ghost use Rattle.calls.specs.Codes.{number_of};
ghost use Rattle.misreadings.specs.Says.{MisreadingsSays, MisreadingListSays};

use calls::Refusal;

// Bytes of the longest list: 385 entries, of 36 shades and windows of 11 marks.
const MOST: usize = 3850;

// The list in the tray's first bytes; the value is how many entries it has. What is found is kept apart until the tray is known to hold it.
#[tactic(auto, using(crate::proofs::Listing::room))]
pub fn misreadings(plan: &[u8], window: &[u8], tray: &mut [u8]) -> Result<u64, Refusal>
    ensures { MisreadingsSays plan.now window.now tray.old tray.new result }
{
    let spot = windows::look(plan, window)?;
    let mut room = [0u8; MOST];
    let found = substitutions::put_list(&spot.plan, window, &mut room);
    let size = substitutions::ENTRY * found;
    if tray.len() < size {
        return Err(Refusal::TrayTooSmall);
    }
    buffers::copy(&room[..size], tray);
    Ok(found as u64)
}

// The same with the number of entries as 8 bytes in a tray of its own.
pub fn misreadings_of(
    plan: &[u8],
    window: &[u8],
    count: &mut [u8],
    tray: &mut [u8],
) -> Result<(), Refusal>
    ensures { MisreadingListSays plan.now window.now count.old count.new tray.old tray.new (number_of result) }
{
    if count.len() < calls::NUMBER {
        windows::look(plan, window)?;
        return Err(Refusal::TrayTooSmall);
    }
    let found = misreadings(plan, window, tray)?;
    numbers::put::<8>(found, count);
    Ok(())
}
