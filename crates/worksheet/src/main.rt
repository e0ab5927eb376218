// The program `worksheet`: k, n and a word from standard input, the worksheet of the word to standard output.
#![tactic(auto)]

const STDIN: i32 = 0;

const STDOUT: i32 = 1;

// The buffer that is read into holds more than the longest word, so that a longer one is seen to be too long.
fn main() {
    let mut room = io::large_buffer();
    let long = io::read_full(STDIN, &mut room);
    let input = &room[..long];
    let mut out = [0u8; sheets::MOST];
    let end = sheets::text(input, &mut out);
    io::write_all(STDOUT, &out[..end]);
}
