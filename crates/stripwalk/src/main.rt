// The program `stripwalk`: a plan from standard input, its listing to standard output.
#![tactic(auto)]

const STDIN: i32 = 0;

const STDOUT: i32 = 1;

// kept: alike to `worksheet`, but a call of another crate with a buffer of another size; the rest is calls of the kit.
// The buffer that is read into holds more than the longest plan, so that a longer record is seen to be torn.
fn main() {
    let mut room = io::large_buffer();
    let long = io::read_full(STDIN, &mut room);
    let plan = &room[..long];
    let mut out = [0u8; listing::MOST];
    let end = listing::text(plan, &mut out);
    io::write_all(STDOUT, &out[..end]);
}
