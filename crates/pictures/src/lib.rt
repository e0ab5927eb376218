// Calls on pictures of a strip of two shades: the file whole, in a tray, and in parts, for a program that prints it. A faulty argument gets its
// refusal, and every tray is then as it was.
#![tactic(auto)]

ghost use Rattle.std.specs.Prelude.{◌≡◌};
ghost use Rattle.calls.specs.Codes.{number_of};
ghost use Rattle.calls.specs.Refusals.{framed};
ghost use Rattle.pictures.specs.Says.{ChecksPicture, PictureSays, BothSay};
ghost use Rattle.pictures.specs.Requests.{PartsSay};

use calls::Refusal;
use pbm::{Parts, Picture};

// A picture has two shades, and is at most so wide and so high.
const SHADES: u64 = 2;

const WIDEST: u64 = 60000;

const HIGHEST: u64 = 64;

// Bytes of a request, and where the place, the width and the height begin in it.
const REQUEST: usize = 26;

const PLACE: usize = 2;

const WIDTH: usize = 10;

const HEIGHT: usize = 18;

// Are width and height those of a picture?
fn is_framed(width: u64, height: u64) -> bool
    ensures { result ≡ framed width height }
{
    (1..=WIDEST).contains(&width) && (1..=HIGHEST).contains(&height)
}

// Is there such a strip, has it two shades, is the place on it, and can it be drawn so?
#[tactic(auto, using(crate::proofs::Framing::frame_in))]
fn check(k: u64, n: u64, place: u64, width: u64, height: u64) -> Result<Picture, Refusal>
    ensures { ChecksPicture k n place width height result }
{
    let strip = calls::check_strip(k, n)?;
    if k != SHADES {
        return Err(Refusal::TwoShadesOnly);
    }
    if strip.size <= place {
        return Err(Refusal::OffTheStrip);
    }
    if is_framed(width, height) {
        return Ok(Picture {
            strip,
            place,
            width,
            height,
        });
    }
    Err(Refusal::BadPicture)
}

// The file in the tray's first bytes; the value is its size.
pub fn print_picture(
    k: u64,
    n: u64,
    place: u64,
    width: u64,
    height: u64,
    tray: &mut [u8],
) -> Result<u64, Refusal>
    ensures { PictureSays k n place width height tray.old tray.new result }
{
    let picture = check(k, n, place, width, height)?;
    let size = pbm::size(picture.width, picture.height);
    if (tray.len() as u64) < size {
        return Err(Refusal::TrayTooSmall);
    }
    picture.write(tray);
    Ok(size)
}

// The same with the size as 8 bytes in a tray of its own.
pub fn picture_of(
    k: u64,
    n: u64,
    place: u64,
    width: u64,
    height: u64,
    size: &mut [u8],
    tray: &mut [u8],
) -> Result<(), Refusal>
    ensures { BothSay k n place width height size.old size.new tray.old tray.new (number_of result) }
{
    if size.len() < calls::NUMBER {
        check(k, n, place, width, height)?;
        return Err(Refusal::TrayTooSmall);
    }
    let total = print_picture(k, n, place, width, height, tray)?;
    numbers::put::<8>(total, size);
    Ok(())
}

// What is printed for a request, which is k and n in a byte each, then the place, the width and the height in 8: the head and one row over the buffer's
// start. No parts, if it has another length or is refused, or the buffer has fewer than pbm::MOST bytes.
// kept: parts of no length for none: `PartsSay`, of which `Demands.picture_by_rows` makes use, says so of any bytes.
#[tactic(auto, using(pbm::proofs::Rows::head_most))]
pub fn parts(request: &[u8], out: &mut [u8]) -> Parts
    ensures { PartsSay request.now out.old out.new result }
{
    let none = Parts {
        head: 0,
        end: 0,
        rows: 0,
    };
    if out.len() < pbm::MOST {
        return none;
    }
    if request.len() != REQUEST {
        return none;
    }
    let k = u64::from(request[0]);
    let n = u64::from(request[1]);
    let place = numbers::get::<8>(request, PLACE);
    let width = numbers::get::<8>(request, WIDTH);
    let height = numbers::get::<8>(request, HEIGHT);
    let Ok(picture) = check(k, n, place, width, height) else {
        return none;
    };
    picture.begin(out)
}
