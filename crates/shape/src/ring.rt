// A strip as a ring, and a place on it.

ghost use Rattle.std.specs.Prelude.{◌<◌};
ghost use Rattle.shape.specs.Rings.{size_in};

use crate::{Lengths, Strip};

// One of a strip's two rings.
#[derive(Clone, Copy)]
pub struct Ring {
    pub lengths: Lengths,
    pub strip: Strip,
}

// A place on a ring: there is no other value of this type.
#[derive(Clone, Copy)]
pub struct Place {
    pub ring: Ring,
    pub at: u64,
    pub ghost on: { at < size_in ring.lengths ring.strip },
}
