// Walks cursors back along strips, over the start too, and on again, and prints for each step its place, its number, its mark and the words passed; after each
// walk, whether the cursor is as at first. Then the same on short rings.
#![tactic(auto)]

use calls::Refusal;
use cursors::{Cursor, Stepped};

const STDOUT: i32 = 1;

// Steps of a walk.
const STEPS: usize = 80;

// The walks of tests/rounds.py, in their order: k, n and the place that each starts at.
const WALKS: [(u64, u64, u64); 14] = [
    (2, 5, 0),
    (2, 6, 0),
    (2, 6, 63),
    (3, 4, 40),
    (4, 1, 3),
    (36, 2, 1290),
    (2, 60, 0),
    (2, 60, 1152921504606846970),
    (2, 60, 123456789012345678),
    (2, 60, 1000000000000000003),
    (10, 18, 314159265358979323),
    (36, 11, 98765432109876543),
    (2, 6, 64),
    (2, 61, 0),
];

const SHORT_WALKS: [(u64, u64, u64); 16] = [
    (2, 5, 0),
    (2, 6, 0),
    (2, 6, 53),
    (3, 4, 40),
    (4, 1, 3),
    (2, 2, 1),
    (2, 12, 3010),
    (36, 2, 1254),
    (2, 60, 0),
    (2, 60, 1152921503532053547),
    (2, 60, 123456789012345678),
    (2, 60, 1000000000000000003),
    (10, 18, 314159265358979323),
    (36, 11, 98765432109876543),
    (2, 6, 54),
    (2, 61, 0),
];

// The calls on a ring.
trait Ring {
    fn start(k: u64, n: u64, place: u64) -> Result<Cursor, Refusal>;

    fn place(c: Cursor) -> Result<u64, Refusal>;

    fn step(c: Cursor) -> Result<Stepped, Refusal>;

    fn step_back(c: Cursor) -> Result<Stepped, Refusal>;
}

struct Strip;

impl Ring for Strip {
    fn start(k: u64, n: u64, place: u64) -> Result<Cursor, Refusal> {
        cursors::start_cursor(k, n, place)
    }

    fn place(c: Cursor) -> Result<u64, Refusal> {
        cursors::cursor_place(c)
    }

    fn step(c: Cursor) -> Result<Stepped, Refusal> {
        c.step()
    }

    fn step_back(c: Cursor) -> Result<Stepped, Refusal> {
        c.step_back()
    }
}

struct ShortRing;

impl Ring for ShortRing {
    fn start(k: u64, n: u64, place: u64) -> Result<Cursor, Refusal> {
        cursors::short_start_cursor(k, n, place)
    }

    fn place(c: Cursor) -> Result<u64, Refusal> {
        cursors::short_cursor_place(c)
    }

    fn step(c: Cursor) -> Result<Stepped, Refusal> {
        c.short_step()
    }

    fn step_back(c: Cursor) -> Result<Stepped, Refusal> {
        c.short_step_back()
    }
}

// A number and what parts it from the next.
fn field(v: u64) {
    io::print_decimal(STDOUT, v);
    io::write_all(STDOUT, b" ");
}

// A line of four numbers.
fn line(a: u64, b: u64, c: u64, d: u64) {
    field(a);
    field(b);
    field(c);
    io::print_decimal(STDOUT, d);
    io::write_all(STDOUT, b"\n");
}

// The number of an answer, and what it holds, or what stands for that if it is refused.
fn parts<T: Drop>(answer: Result<T, Refusal>, refused: T) -> (u8, T) {
    match answer {
        Ok(held) => (0, held),
        Err(refusal) => (u8::from(refusal), refused),
    }
}

// One step, printed. A refused one leaves the cursor as it is.
fn step<R: Ring, F: Fn(Cursor) -> Result<Stepped, Refusal>>(moved: &F, c: Cursor) -> Cursor
    requires { F.IsAlwaysCallable moved.now }
{
    let at = R::place(c).unwrap_or(0);
    let unmoved = Stepped {
        mark: 0,
        passed: 0,
        cursor: c,
    };
    let (number, stepped) = parts(moved(c), unmoved);
    line(
        at,
        u64::from(number),
        u64::from(stepped.mark),
        stepped.passed,
    );
    stepped.cursor
}

// Steps all one way.
fn walk<R: Ring, F: Fn(Cursor) -> Result<Stepped, Refusal>>(c: Cursor, moved: F) -> Cursor
    requires { F.IsAlwaysCallable moved }
{
    let mut at = c;
    for _ in 0..STEPS {
        at = step::<R, F>(&moved, at);
    }
    at
}

// A line that says whether all their bytes are the same.
fn compare(c: Cursor, d: Cursor) {
    if c == d {
        io::write_all(STDOUT, b"same\n");
    } else {
        io::write_all(STDOUT, b"other\n");
    }
}

// From a place back, and on to it again.
fn return_to<R: Ring>(k: u64, n: u64, place: u64) {
    let (number, first) = parts(R::start(k, n, place), Cursor::NOWHERE);
    line(k, n, place, u64::from(number));
    let turned = walk::<R, _>(first, |c| R::step_back(c));
    compare(first, turned);
    let last = walk::<R, _>(turned, |c| R::step(c));
    compare(first, last);
}

fn returns<R: Ring>(starts: &[(u64, u64, u64)]) {
    for &(k, n, place) in starts {
        return_to::<R>(k, n, place);
    }
}

fn main() {
    returns::<Strip>(&WALKS);
    returns::<ShortRing>(&SHORT_WALKS);
}
