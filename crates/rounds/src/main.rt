// Walks cursors along strips, over the end too, and prints for each step its place, its number, its mark, the words passed and what mark_at tells; then the same
// marks as print_marks gives them. Then the same on short rings.
#![tactic(auto)]

use calls::Refusal;
use cursors::{Cursor, Stepped};

const STDOUT: i32 = 1;

// Steps of a walk, and marks that are printed after it.
const STEPS: usize = 80;

// kept: the same walks stand in `returns`: a crate for a list of test data would be no plainer.
// The walks of tests/rounds.py, in their order: k, n and the place that each starts at.
const WALKS: [(u64, u64, u64); 14] = [
    (2, 5, 0),
    (2, 6, 0),
    (2, 6, 63),
    (3, 4, 40),
    (4, 1, 3),
    (36, 2, 1290),
    (2, 60, 0),
    (2, 60, 1152921504606846970),
    (2, 60, 123456789012345678),
    (2, 60, 1000000000000000003),
    (10, 18, 314159265358979323),
    (36, 11, 98765432109876543),
    (2, 6, 64),
    (2, 61, 0),
];

const SHORT_WALKS: [(u64, u64, u64); 16] = [
    (2, 5, 0),
    (2, 6, 0),
    (2, 6, 53),
    (3, 4, 40),
    (4, 1, 3),
    (2, 2, 1),
    (2, 12, 3010),
    (36, 2, 1254),
    (2, 60, 0),
    (2, 60, 1152921503532053547),
    (2, 60, 123456789012345678),
    (2, 60, 1000000000000000003),
    (10, 18, 314159265358979323),
    (36, 11, 98765432109876543),
    (2, 6, 54),
    (2, 61, 0),
];

// The calls on a ring.
trait Ring {
    fn start(k: u64, n: u64, place: u64) -> Result<Cursor, Refusal>;

    fn place(c: Cursor) -> Result<u64, Refusal>;

    // The step of a turn.
    fn step(c: Cursor, turn: usize) -> Result<Stepped, Refusal>;

    fn mark_at(k: u64, n: u64, place: u64, tray: &mut [u8]) -> Result<(), Refusal>;

    fn print_marks(k: u64, n: u64, place: u64, marks: u64, tray: &mut [u8]) -> Result<(), Refusal>;
}

// The strip, on which the step is taken by the method and by the function, in turn.
struct Strip;

impl Ring for Strip {
    fn start(k: u64, n: u64, place: u64) -> Result<Cursor, Refusal> {
        cursors::start_cursor(k, n, place)
    }

    fn place(c: Cursor) -> Result<u64, Refusal> {
        cursors::cursor_place(c)
    }

    fn step(c: Cursor, turn: usize) -> Result<Stepped, Refusal> {
        if turn % 2 == 0 {
            return c.step();
        }
        cursors::step_cursor(c)
    }

    fn mark_at(k: u64, n: u64, place: u64, tray: &mut [u8]) -> Result<(), Refusal> {
        marks::mark_at(k, n, place, tray)
    }

    fn print_marks(k: u64, n: u64, place: u64, marks: u64, tray: &mut [u8]) -> Result<(), Refusal> {
        marks::print_marks(k, n, place, marks, tray)
    }
}

struct ShortRing;

impl Ring for ShortRing {
    fn start(k: u64, n: u64, place: u64) -> Result<Cursor, Refusal> {
        cursors::short_start_cursor(k, n, place)
    }

    fn place(c: Cursor) -> Result<u64, Refusal> {
        cursors::short_cursor_place(c)
    }

    fn step(c: Cursor, _turn: usize) -> Result<Stepped, Refusal> {
        c.short_step()
    }

    fn mark_at(k: u64, n: u64, place: u64, tray: &mut [u8]) -> Result<(), Refusal> {
        marks::short_mark_at(k, n, place, tray)
    }

    fn print_marks(k: u64, n: u64, place: u64, marks: u64, tray: &mut [u8]) -> Result<(), Refusal> {
        marks::short_print_marks(k, n, place, marks, tray)
    }
}

// A number and what parts it from the next.
fn field(v: u64) {
    io::print_decimal(STDOUT, v);
    io::write_all(STDOUT, b" ");
}

// A byte in decimal, and the same.
fn byte(x: u8) {
    field(u64::from(x));
}

// The end of a line.
fn end() {
    io::write_all(STDOUT, b"\n");
}

// The mark that mark_at tells for a place, or 255, which was there.
fn mark_at<R: Ring>(k: u64, n: u64, place: u64) -> u8 {
    let mut tray = [255u8; 8];
    let _ = R::mark_at(k, n, place, &mut tray);
    tray[7]
}

// The number of an answer, and what it holds, or what stands for that if it is refused.
fn parts<T: Drop>(answer: Result<T, Refusal>, refused: T) -> (u8, T) {
    match answer {
        Ok(held) => (0, held),
        Err(refusal) => (u8::from(refusal), refused),
    }
}

// One step, printed. A refused one leaves the cursor as it is.
fn step<R: Ring>(k: u64, n: u64, c: Cursor, turn: usize) -> Cursor {
    let at = R::place(c).unwrap_or(0);
    let unmoved = Stepped {
        mark: 0,
        passed: 0,
        cursor: c,
    };
    let (number, stepped) = parts(R::step(c, turn), unmoved);
    field(at);
    byte(number);
    byte(stepped.mark);
    field(stepped.passed);
    io::print_decimal(STDOUT, u64::from(mark_at::<R>(k, n, at)));
    end();
    stepped.cursor
}

// A line for the start, then one for each step.
fn walk<R: Ring>(k: u64, n: u64, place: u64) {
    let (number, mut at) = parts(R::start(k, n, place), Cursor::NOWHERE);
    field(k);
    field(n);
    field(place);
    io::print_decimal(STDOUT, u64::from(number));
    end();
    for turn in 0..STEPS {
        at = step::<R>(k, n, at, turn);
    }
}

// As many marks as a walk has steps, in one row.
fn row<R: Ring>(k: u64, n: u64, place: u64) {
    let mut tray = [255u8; STEPS];
    let _ = R::print_marks(k, n, place, STEPS as u64, &mut tray);
    for mark in tray {
        byte(mark);
    }
    end();
}

// Each walk, and the same marks in a row.
fn walks<R: Ring>(starts: &[(u64, u64, u64)]) {
    for &(k, n, place) in starts {
        walk::<R>(k, n, place);
        row::<R>(k, n, place);
    }
}

fn main() {
    walks::<Strip>(&WALKS);
    walks::<ShortRing>(&SHORT_WALKS);
}
