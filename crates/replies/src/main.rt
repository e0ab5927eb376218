// Answers asks from standard input, for a test: a line for each call, with its number and all of its answer in decimal. An ask is a letter, the
// length of what follows in 2 bytes, and that many bytes. Numbers have the highest byte first.
//     w  k and n in 8 bytes each, the length of the lent tray in one, a word     is_lyndon, shortest_root, smallest_rotation, lyndon_count
//     p  a plan                                                                  check_plan
//     s  k, n and a place in 8 bytes each                                        start_cursor, short_start_cursor
//     i  k, n, a place, a width and a height in 8 bytes each, the length of      print_picture
//        the lent tray in 2
//     m  the length of the lent tray in 2 bytes, the window's in one, a window,  misreadings
//        a plan
//     b  a price and a charge in 8 bytes each, a plan                            bill
//     c  a cursor: k, n, the 60 bytes of its word, long, place                   cursor_place, step, step_cursor, step_back,
//                                                                                short_cursor_place, short_step, short_step_back
// tests/replies.py makes asks, and the lines that must come.
#![tactic(auto)]

ghost use Rattle.std.specs.Prelude.{◌≤◌, ◌<◌, length, IfSome};

use calls::Refusal;
use cursors::{Cursor, Stepped};

const STDIN: i32 = 0;

const STDOUT: i32 = 1;

// Bytes of the tray for a word, of which the first are lent: more than a word of a strip has.
const TRAY_BYTES: usize = 64;

// Bytes of the tray for a picture, or a list: some of them fit.
const PAPER_BYTES: usize = 512;

// A number, one more in its line.
fn field(v: u64) {
    io::write_all(STDOUT, b" ");
    io::print_decimal(STDOUT, v);
}

// A byte, one more in its line.
fn byte(x: u8) {
    field(u64::from(x));
}

// The end of a line.
fn end() {
    io::write_all(STDOUT, b"\n");
}

// Bytes, one after the other.
fn bytes(given: &[u8]) {
    for &x in given {
        byte(x);
    }
}

// The number of an answer, and what it holds, or what stands for that if it is refused.
fn parts<T: Drop>(answer: Result<T, Refusal>, refused: T) -> (u8, T) {
    match answer {
        Ok(held) => (0, held),
        Err(refusal) => (u8::from(refusal), refused),
    }
}

// The line of a call that answers a value: the whole tray, of which the first bytes were lent, stands behind. A call without a tray has an empty one.
fn valued(call: &[u8], answer: Result<u64, Refusal>, tray: &[u8]) {
    let (number, value) = parts(answer, 0);
    io::write_all(STDOUT, call);
    byte(number);
    field(value);
    bytes(tray);
    end();
}

// A cursor, field by field, which ends a line.
fn placed(c: Cursor) {
    byte(c.k);
    byte(c.n);
    bytes(&c.word);
    byte(c.long);
    byte(c.place);
    end();
}

// The line of a start.
fn started(call: &[u8], answer: Result<Cursor, Refusal>) {
    let (number, cursor) = parts(answer, Cursor::NOWHERE);
    io::write_all(STDOUT, call);
    byte(number);
    placed(cursor);
}

// The line of a step of a cursor. A refused one leaves it as it is.
fn stepped(call: &[u8], c: Cursor, answer: Result<Stepped, Refusal>) {
    let unmoved = Stepped {
        mark: 0,
        passed: 0,
        cursor: c,
    };
    let (number, step) = parts(answer, unmoved);
    io::write_all(STDOUT, call);
    byte(number);
    byte(step.mark);
    field(step.passed);
    placed(step.cursor);
}

// The number in the first 2 bytes, and what stands behind them.
fn size(given: &[u8]) -> Option<(usize, &[u8])>
    ensures { IfSome result (λ p. length p.1.now ≤ length given.now) }
{
    let (first, behind) = given.split_first_chunk()?;
    Some((usize::from(u16::from_be_bytes(*first)), behind))
}

// The number in the first 8 bytes, and what stands behind them.
fn number(given: &[u8]) -> Option<(u64, &[u8])> {
    let (first, behind) = given.split_first_chunk()?;
    Some((u64::from_be_bytes(*first), behind))
}

// An ask for a word, in a tray of 170s. This one and the others answer None if the ask is cut, or more is to be lent than there is.
fn word_asked(ask: &[u8]) -> Option<()> {
    let (k, ask) = number(ask)?;
    let (n, ask) = number(ask)?;
    let (&lent, word) = ask.split_first()?;
    let mut tray = [170u8; TRAY_BYTES];
    let lent = tray.get_mut(..usize::from(lent))?;
    let rotation = words::smallest_rotation(k, n, word, lent);
    valued(b"is_lyndon", words::is_lyndon(k, n, word), &[]);
    valued(b"shortest_root", words::shortest_root(k, n, word), &[]);
    valued(b"smallest_rotation", rotation, &tray);
    valued(b"lyndon_count", ranking::lyndon_count(k, n), &[]);
    Some(())
}

// An ask for a picture, in a tray of 170s.
fn picture_asked(ask: &[u8]) -> Option<()> {
    let (k, ask) = number(ask)?;
    let (n, ask) = number(ask)?;
    let (place, ask) = number(ask)?;
    let (width, ask) = number(ask)?;
    let (height, ask) = number(ask)?;
    let (lent, _) = size(ask)?;
    let mut tray = [170u8; PAPER_BYTES];
    let lent = tray.get_mut(..lent)?;
    let answer = pictures::print_picture(k, n, place, width, height, lent);
    valued(b"print_picture", answer, &tray);
    Some(())
}

// An ask for a plan.
fn plan_asked(ask: &[u8]) -> Option<()> {
    io::write_all(STDOUT, b"check_plan");
    byte(calls::number(lookups::check_plan(ask)));
    end();
    Some(())
}

// An ask for what may be misread, in a tray of 170s.
fn misread_asked(ask: &[u8]) -> Option<()> {
    let (lent, ask) = size(ask)?;
    let (&long, ask) = ask.split_first()?;
    let (window, plan) = ask.split_at_checked(usize::from(long))?;
    let mut tray = [170u8; PAPER_BYTES];
    let lent = tray.get_mut(..lent)?;
    let answer = misreadings::misreadings(plan, window, lent);
    valued(b"misreadings", answer, &tray);
    Some(())
}

// An ask for a bill.
fn bill_asked(ask: &[u8]) -> Option<()> {
    let (price, ask) = number(ask)?;
    let (charge, plan) = number(ask)?;
    valued(b"bill", bills::bill(plan, price, charge), &[]);
    Some(())
}

// An ask for a start.
fn start_asked(ask: &[u8]) -> Option<()> {
    let (k, ask) = number(ask)?;
    let (n, ask) = number(ask)?;
    let (place, _) = number(ask)?;
    started(b"start_cursor", cursors::start_cursor(k, n, place));
    started(
        b"short_start_cursor",
        cursors::short_start_cursor(k, n, place),
    );
    Some(())
}

// An ask for a cursor, whatever its fields hold.
fn cursor_asked(ask: &[u8]) -> Option<()> {
    let (&[k, n], ask) = ask.split_first_chunk::<2>()?;
    let (&word, ask) = ask.split_first_chunk()?;
    let (&[long, place], _) = ask.split_first_chunk::<2>()?;
    let cursor = Cursor {
        k,
        n,
        word,
        long,
        place,
    };
    valued(b"cursor_place", cursors::cursor_place(cursor), &[]);
    stepped(b"step", cursor, cursor.step());
    stepped(b"step_cursor", cursor, cursors::step_cursor(cursor));
    stepped(b"step_back", cursor, cursor.step_back());
    valued(
        b"short_cursor_place",
        cursors::short_cursor_place(cursor),
        &[],
    );
    stepped(b"short_step", cursor, cursor.short_step());
    stepped(b"short_step_back", cursor, cursor.short_step_back());
    Some(())
}

// One ask.
fn answer(letter: u8, ask: &[u8]) -> Option<()> {
    match letter {
        b'w' => word_asked(ask),
        b'p' => plan_asked(ask),
        b'm' => misread_asked(ask),
        b'b' => bill_asked(ask),
        b's' => start_asked(ask),
        b'i' => picture_asked(ask),
        b'c' => cursor_asked(ask),
        _ => None,
    }
}

// The letter of the first ask, what follows it, and the asks behind.
fn first_ask(given: &[u8]) -> Option<(u8, &[u8], &[u8])>
    ensures { IfSome result (λ a. length a.2.now < length given.now) }
{
    let (&letter, rest) = given.split_first()?;
    let (long, rest) = size(rest)?;
    let (ask, behind) = rest.split_at_checked(long)?;
    Some((letter, ask, behind))
}

// Each ask, up to one that is cut.
fn answer_all(given: &[u8]) {
    let mut rest = given;
    while let Some((letter, ask, behind)) = first_ask(rest) {
        answer(letter, ask);
        rest = behind;
    }
}

// As many asks as 65,536 bytes hold.
fn main() {
    let mut room = io::large_buffer();
    let long = io::read_full(STDIN, &mut room);
    answer_all(&room[..long]);
}
