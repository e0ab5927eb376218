// The program `stripprint`: a request from standard input, its picture to standard output, row by row. Nothing, if there is no such picture.
#![tactic(auto)]

const STDIN: i32 = 0;

const STDOUT: i32 = 1;

// The buffer that is read into holds more than a request, so that a longer input is seen.
fn main() {
    let mut room = io::large_buffer();
    let long = io::read_full(STDIN, &mut room);
    let mut out = [0u8; pbm::MOST];
    let parts = pictures::parts(&room[..long], &mut out);
    let (head, row) = out[..parts.end].split_at(parts.head);
    io::write_all(STDOUT, head);
    for _ in 0..parts.rows {
        io::write_all(STDOUT, row);
    }
}
