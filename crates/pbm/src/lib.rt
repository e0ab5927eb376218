// A picture of marks as a plain PBM file: its head, its row, which is the same each time, and the whole file.
#![tactic(auto)]

ghost use Rattle.std.specs.Prelude.{◌≡◌, true, ◌+◌, ◌≤◌, length, drop};
ghost use Rattle.theory.specs.Words.{marks_ok};
ghost use Rattle.theory.specs.Strips.{marks_from};
ghost use Rattle.buffers.specs.Buffers.{over};
ghost use Rattle.texts.specs.Texts.{Adds};
ghost use Rattle.pbm.specs.Pictures.{row_size, file_size, row_text, head_text, picture};
ghost use Rattle.pbm.specs.Parts.{Frame, Drawable, Parted};

use shape::{Lengths, Place, Ring, Strip};
use texts::Text;

// A line has so many digits.
const LINE: usize = 70;

// Bytes that hold any head, and a head with its row.
const HEAD: usize = 12;

pub const MOST: usize = HEAD + 60858;

// So many marks from a place of the strip on, in so many rows, which are all the same. There is no other value of this type than a picture that can be
// drawn.
#[derive(Clone, Copy)]
pub struct Picture {
    pub strip: Strip,
    pub place: u64,
    pub width: u64,
    pub height: u64,
    pub ghost drawable: { Drawable strip place width height },
}

// A file's parts: where the head ends, where the row behind it does, and how often the row is written.
// kept: three numbers beside the buffer: `Parted` and `PartsSay` speak of them.
#[derive(Clone, Copy)]
pub struct Parts {
    pub head: usize,
    pub end: usize,
    pub rows: u64,
}

// The line P1, and the line with width and height.
fn put_head(width: u64, height: u64, out: &mut [u8]) -> usize
    requires { length (head_text width height) ≤ length out.old }
    ensures { Adds out.old 0 (head_text width height) out.new result }
{
    let mut text = Text::from(out);
    text.bytes(b"P1\n");
    text.number(width, b' ');
    text.number(height, b'\n');
    text.end
}

// The marks behind the first `lead` bytes, as a row over the whole buffer. Each mark is read before a byte is written over it.
fn spread(out: &mut [u8], lead: usize)
    requires { (length out.old ≡ length (row_text (drop lead out.old))) × (marks_ok 10 (drop lead out.old) ≡ true) }
    ensures { out.new ≡ row_text (drop lead out.old) }
{
    let mut at = 0;
    for i in lead..out.len() {
        if at % (LINE + 1) == LINE {
            out[at] = b'\n';
            at += 1;
        }
        out[at] = b'0' + out[i];
        at += 1;
    }
    out[at] = b'\n';
}

// How many bytes a row has: its digits, and one for each line.
fn row_size(width: u64) -> u64
    requires { width ≤ 60000 }
    ensures { result ≡ row_size width }
{
    width + width.div_ceil(LINE as u64)
}

// How many bytes the file has.
#[tactic(auto, using(crate::proofs::Rows::head_most))]
pub fn size(width: u64, height: u64) -> u64
    requires { Frame width height }
    ensures { result ≡ file_size width height }
{
    let mut room = [0u8; HEAD];
    let head = put_head(width, height, &mut room);
    head as u64 + height * row_size(width)
}

impl Picture {
    // The row of its marks, over the whole buffer.
    fn put_row(self, out: &mut [u8])
        requires { length out.old ≡ row_size self.width }
        ensures { out.new ≡ row_text (marks_from self.strip.k self.strip.n self.place self.width) }
    {
        let ring = Ring {
            lengths: Lengths::Divisors,
            strip: self.strip,
        };
        let place = Place {
            ring,
            at: self.place,
        };
        let lead = out.len() - self.width as usize;
        access::letters(place, &mut out[lead..]);
        spread(out, lead);
    }

    // The head and the row behind it, over the buffer's start.
    pub fn begin(self, out: &mut [u8]) -> Parts
        requires { length (head_text self.width self.height) + row_size self.width ≤ length out.old }
        ensures { Parted (head_text self.width self.height) (row_text (marks_from self.strip.k self.strip.n self.place self.width)) self.height out.old out.new result }
    {
        let head = put_head(self.width, self.height, out);
        let end = head + row_size(self.width) as usize;
        self.put_row(&mut out[head..end]);
        Parts {
            head,
            end,
            rows: self.height,
        }
    }

    // The whole file over the buffer's start: the row is repeated up to the file's end.
    pub fn write(self, out: &mut [u8])
        requires { file_size self.width self.height ≤ length out.old }
        ensures { out.new ≡ over (picture self.strip.k self.strip.n self.place self.width self.height) out.old }
    {
        let parts = self.begin(out);
        let head = parts.head;
        let row = parts.end - head;
        let total = head + row * self.height as usize;
        steps::extend(&mut out[head..total], row);
    }
}
