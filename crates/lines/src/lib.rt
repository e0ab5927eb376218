// Lines that programs print: the one line of a refusal, and the bytes that hold any line.
#![tactic(auto)]

ghost use Rattle.texts.specs.Writers.{HasRoom, Writes};
ghost use Rattle.lines.specs.Lines.{line, refused_line};

use texts::Text;

// Bytes that hold any line.
pub const LINE: usize = 128;

// The line of a refusal.
// kept: a number and no Refusal: it prints any byte, and `refused_line` is of that number.
pub fn put_refused(number: u8, text: &mut Text)
    requires { HasRoom text.old line }
    ensures { Writes text.old (refused_line number) text.new }
{
    text.bytes(b"refused ");
    text.number(u64::from(number), b'\n');
}
