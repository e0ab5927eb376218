// Text added to a buffer: numbers in decimal, letters as digits, bytes as they are. Each call adds behind the text that is there.
#![tactic(auto)]

ghost use Rattle.std.specs.Prelude.{◌≡◌, ◌+◌, ◌^◌, ◌≤◌, ◌<◌, nat_abs, length, true, [], ◌∷◌, ◌++◌};
ghost use Rattle.theory.specs.Words.{marks_ok};
ghost use Rattle.texts.specs.Texts.{decimal, signed, glyph, glyphs};
ghost use Rattle.texts.specs.Writers.{HasRoom, Writes};

// What the digit of a letter from 10 on is more than the letter: the digit of 10 is a.
const TENS: u8 = b'a' - 10;

// The digit of a letter: 0 to 9, then a to z.
fn digit(letter: u8) -> u8
    requires { letter < 36 }
    ensures { result ≡ glyph letter }
{
    if letter < 10 {
        return b'0' + letter;
    }
    TENS + letter
}

// A buffer that is filled with text from its start on, and where the text ends.
#[derive(Drop)]
pub struct Text<'a> {
    out: &'a mut [u8],
    pub end: usize,
}

// Over a buffer, with no text yet.
impl<'a> From<&'a mut [u8]> for Text<'a> {
    fn from(out: &'a mut [u8]) -> Text<'a>
        ensures same_buffer { result.out.ghost_name ≡ out.entry.ghost_name }
        ensures empty { (result.out.now ≡ out.old) × (result.end ≡ 0) }
    {
        Text { out, end: 0 }
    }
}

impl<'a> Text<'a> {
    // One byte.
    fn byte(&mut self, byte: u8)
        requires { HasRoom self.old 1 }
        ensures { Writes self.old (byte ∷ []) self.new }
    {
        self.out[self.end] = byte;
        self.end += 1;
    }

    // Bytes as they are.
    pub fn bytes(&mut self, bytes: &[u8])
        requires { HasRoom self.old (length bytes.now) }
        ensures { Writes self.old bytes.now self.new }
    {
        let end = self.end + bytes.len();
        self.out[self.end..end].copy_from_slice(bytes);
        self.end = end;
    }

    // A word, a digit for each letter.
    pub fn letters(&mut self, word: &[u8])
        requires { HasRoom self.old (length word.now) × (marks_ok 36 word.now ≡ true) }
        ensures { Writes self.old (glyphs word.now) self.new }
    {
        for letter in word {
            self.byte(digit(*letter));
        }
    }

    // A number in decimal and one byte behind it.
    pub fn number(&mut self, v: u64, behind: u8)
        requires { HasRoom self.old (length (decimal v) + 1) }
        ensures { Writes self.old (decimal v ++ (behind ∷ [])) self.new }
    {
        put_decimal(v, self);
        self.byte(behind);
    }

    // A signed number in decimal, with - before a negative one, and one byte behind it.
    pub fn signed(&mut self, v: i64, behind: u8)
        requires { (nat_abs v < 2 ^ 63) × HasRoom self.old (length (signed v) + 1) }
        ensures { Writes self.old (signed v ++ (behind ∷ [])) self.new }
    {
        if v < 0 {
            self.byte(b'-');
        }
        self.number(v.unsigned_abs(), behind);
    }
}

// A number in decimal: its higher digits, then the last.
// kept: digits by hand, and no Display: the promise is of each byte, by `decimal`.
fn put_decimal(v: u64, text: &mut Text)
    requires { HasRoom text.old (length (decimal v)) }
    ensures { Writes text.old (decimal v) text.new }
{
    if v < 10 {
        text.byte(b'0' + v as u8);
        return;
    }
    put_decimal(v / 10, text);
    text.byte(b'0' + (v % 10) as u8);
}
