// A cursor without fault on a ring: where it stands, and its steps.
#![tactic(auto)]

ghost use Rattle.std.specs.Prelude.{◌≡◌};
ghost use Rattle.theory.specs.Rings.{position_in, step_in, back_in};
ghost use Rattle.shape.specs.Rings.{ok_of};
ghost use Rattle.cursors.specs.Cursors.{cursor_in, GoodOn, Goes};

use crate::{Cursor, Stepped};
use shape::Ring;

// A cursor without fault on a ring: there is no other value of this type.
#[derive(Clone, Copy)]
pub(crate) struct Standing {
    pub(crate) ring: Ring,
    pub(crate) cursor: Cursor,
    pub(crate) ghost good: { GoodOn ring.lengths ring.strip cursor },
}

impl Standing {
    // The place of the ring that it stands on.
    pub(crate) fn place(self) -> u64
        ensures { result ≡ position_in (ok_of self.ring.lengths) (cursor_in self.cursor) }
    {
        let c = self.cursor;
        let mut word = c.word;
        let marks = usize::from(c.n);
        access::position(
            self.ring,
            &mut word[..marks],
            usize::from(c.long),
            usize::from(c.place),
        )
    }

    // To the next mark of the held word, or to the first of the ring's next word.
    // kept: on and back by two functions, as in rings.
    pub(crate) fn onward(self) -> Stepped
        ensures { Goes (step_in (ok_of self.ring.lengths) (cursor_in self.cursor)) result }
    {
        let c = self.cursor;
        let mut word = c.word;
        let mark = word[usize::from(c.place)];
        let next = c.place + 1;
        if next < c.long {
            return Stepped {
                mark,
                passed: 0,
                cursor: Cursor { place: next, ..c },
            };
        }
        let marks = usize::from(c.n);
        let moved = rings::next_word(self.ring, &mut word[..marks], usize::from(c.long));
        Stepped {
            mark,
            passed: moved.passed,
            cursor: Cursor {
                word,
                long: moved.long as u8,
                place: 0,
                ..c
            },
        }
    }

    // To the mark before in the held word, or to the last of the ring's word before.
    pub(crate) fn backward(self) -> Stepped
        ensures { Goes (back_in (ok_of self.ring.lengths) (cursor_in self.cursor)) result }
    {
        let c = self.cursor;
        let mut word = c.word;
        let mark = word[usize::from(c.place)];
        if 0 < c.place {
            return Stepped {
                mark,
                passed: 0,
                cursor: Cursor {
                    place: c.place - 1,
                    ..c
                },
            };
        }
        let marks = usize::from(c.n);
        let led = rings::previous_word(self.ring, &mut word[..marks], usize::from(c.long));
        let long = led.long as u8;
        Stepped {
            mark,
            passed: led.passed,
            cursor: Cursor {
                word,
                long,
                place: long - 1,
                ..c
            },
        }
    }
}
