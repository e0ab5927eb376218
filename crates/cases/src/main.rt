// Runs the cases of the documents that the calls on words and on bills answer: a line for each call, with what it was asked, its number, its answer.
#![tactic(auto)]

use calls::Refusal;

const STDOUT: i32 = 1;

// Between two fields.
fn space() {
    io::write_all(STDOUT, b" ");
}

// A letter in decimal.
fn letter(x: u8) {
    io::print_decimal(STDOUT, u64::from(x));
}

// A word or what a tray holds, letter by letter.
fn letters(word: &[u8]) {
    for &x in word {
        letter(x);
    }
}

// A byte in two hexadecimal digits.
fn byte(x: u8) {
    io::print_hex(STDOUT, u64::from(x), 2);
}

// What a tray holds, byte by byte.
fn bytes(tray: &[u8]) {
    for &x in tray {
        byte(x);
    }
}

// The start of a line: the call and its strip.
fn asked(call: &[u8], k: u64, n: u64) {
    io::write_all(STDOUT, call);
    space();
    io::print_decimal(STDOUT, k);
    space();
    io::print_decimal(STDOUT, n);
    space();
}

// The number of an answer, and its value, for which 0 stands if it is refused.
fn number_and_value(answer: Result<u64, Refusal>) -> (u8, u64) {
    match answer {
        Ok(value) => (0, value),
        Err(refusal) => (u8::from(refusal), 0),
    }
}

// The end of a line: number and value.
fn answered(answer: Result<u64, Refusal>) {
    let (number, value) = number_and_value(answer);
    io::print_decimal(STDOUT, u64::from(number));
    space();
    io::print_decimal(STDOUT, value);
    io::write_all(STDOUT, b"\n");
}

// rank_of, in a tray that is two bytes too long.
fn rank(k: u64, n: u64, word: &[u8]) {
    let mut tray = [170u8; 10];
    let answer = ranking::rank_of(k, n, word, &mut tray);
    asked(b"rank", k, n);
    letters(word);
    space();
    io::print_decimal(STDOUT, u64::from(calls::number(answer)));
    space();
    bytes(&tray);
    io::write_all(STDOUT, b"\n");
}

// word_of, in a tray of 8 bytes.
fn word(k: u64, n: u64, index: u64) {
    let mut tray = [7u8; 8];
    let answer = ranking::word_of(k, n, index, &mut tray);
    asked(b"word", k, n);
    io::print_decimal(STDOUT, index);
    space();
    io::print_decimal(STDOUT, u64::from(calls::number(answer)));
    space();
    letters(&tray);
    io::write_all(STDOUT, b"\n");
}

// The words of the indices up to `last`, from index 0, which has none.
fn words(k: u64, n: u64, last: u64) {
    for index in 0..=last {
        word(k, n, index);
    }
}

// lyndon_count.
fn count(k: u64, n: u64) {
    asked(b"count", k, n);
    answered(ranking::lyndon_count(k, n));
}

// The three calls that look at a word alone.
fn tests(k: u64, n: u64, word: &[u8]) {
    asked(b"lyndon", k, n);
    letters(word);
    space();
    answered(words::is_lyndon(k, n, word));
    asked(b"root", k, n);
    letters(word);
    space();
    answered(words::shortest_root(k, n, word));
    let mut tray = [7u8; 8];
    let (number, turn) = number_and_value(words::smallest_rotation(k, n, word, &mut tray));
    asked(b"rotation", k, n);
    letters(word);
    space();
    io::print_decimal(STDOUT, u64::from(number));
    space();
    letters(&tray);
    space();
    io::print_decimal(STDOUT, turn);
    io::write_all(STDOUT, b"\n");
}

// Ranks and words of document 01.
fn small_strips() {
    rank(3, 2, &[0, 0]);
    rank(3, 2, &[2, 2]);
    rank(3, 2, &[3, 0]);
    rank(3, 2, &[0]);
    rank(4, 1, &[2]);
    rank(1, 6, &[0]);
    words(2, 6, 10);
    count(2, 6);
    count(37, 1);
    count(2, 61);
    count(2, 60);
    count(36, 11);
    count(36, 12);
}

// The Lyndon words of length 5 (document 003), and of the lengths that divide 6 (document 004, Examples 1, 2 and 10).
fn lists() {
    words(2, 5, 7);
    words(2, 1, 3);
    words(2, 2, 2);
    words(2, 3, 3);
    rank(2, 6, &[0, 1, 1, 0, 1, 0]);
    rank(2, 6, &[0, 1, 0, 1, 1, 1]);
}

// Turns: 1 of 101010, none of a letter repeated; a word of one letter; no such strip; a tray one byte too small.
fn turns() {
    tests(2, 6, &[1, 0, 1, 0, 1, 0]);
    tests(2, 4, &[0, 0, 0, 0]);
    tests(2, 4, &[1, 1, 1, 1]);
    tests(2, 4, &[0, 1, 1, 0]);
    tests(3, 1, &[2]);
    tests(37, 1, &[0]);
    tests(2, 9, &[0, 0, 0, 0, 0, 0, 0, 0, 1]);
}

// bill.
fn bill(plan: &[u8], price: u64, charge: u64) {
    io::write_all(STDOUT, b"bill ");
    bytes(plan);
    space();
    io::print_decimal(STDOUT, price);
    space();
    io::print_decimal(STDOUT, charge);
    space();
    answered(bills::bill(plan, price, charge));
}

// On (2, 12): one section of 1,001 marks, and two of them, at price 1; with charges; at a cent a mark; a price too high; a torn plan.
fn plan_bills() {
    let one = b"\x02\x0c\x00\x01\0\0\0\0\0\0\0\0\0\0\0\0\0\0\x03\xe9";
    let two =
        b"\x02\x0c\x00\x02\0\0\0\0\0\0\0\0\0\0\0\0\0\0\x03\xe9\0\0\0\0\0\0\x07\xd0\0\0\0\0\0\0\x03\xe9";
    bill(one, 1, 0);
    bill(two, 1, 0);
    bill(two, 1, 5);
    bill(one, 1000, 0);
    bill(one, 10000001, 0);
    bill(b"\x02\x0c\x00", 1, 0);
}

// The cases, in the order of tests/cases.py.
fn main() {
    small_strips();
    lists();
    tests(2, 6, &[0, 1, 1, 0, 1, 0]);
    tests(2, 6, &[0, 1, 0, 1, 1, 1]);
    tests(2, 6, &[1, 0, 0, 1, 0, 0]);
    tests(2, 6, &[1, 1, 1, 1, 1, 1]);
    tests(3, 2, &[2, 3]);
    tests(3, 2, &[2, 1, 0]);
    turns();
    plan_bills();
}
