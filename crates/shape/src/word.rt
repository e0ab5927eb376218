// A word on a strip.

ghost use Rattle.shape.specs.Shapes.{WordOn};

use crate::Strip;

// A word of n letters on a strip: there is no other value of this type.
#[derive(Clone, Copy)]
pub struct Word<'a> {
    pub strip: Strip,
    pub letters: &'a [u8],
    pub ghost on: { WordOn strip letters.now },
}
