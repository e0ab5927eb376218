// Steps a cursor a million times from the start of each of three strips and prints the sum of the marks and what the words passed make when each is xored to the last.
// The gate compares this with the model; bench/run times it.
#![tactic(auto)]

use calls::Refusal;

const STDOUT: i32 = 1;

const STEPS: u64 = 1000000;

// The strips of tests/strides.py, in their order: k and n.
const STRIPS: [(u64, u64); 3] = [(2, 60), (4, 30), (36, 11)];

// The sum and the xor of a strip walked from its start.
fn stride(k: u64, n: u64) -> Result<(u64, u64), Refusal> {
    let mut at = cursors::start_cursor(k, n, 0)?;
    let mut sum = 0;
    let mut mix = 0;
    for _ in 0..STEPS {
        let stepped = at.step()?;
        at = stepped.cursor;
        sum += u64::from(stepped.mark);
        mix ^= stepped.passed;
    }
    Ok((sum, mix))
}

fn main() {
    for (k, n) in STRIPS {
        let (sum, mix) = stride(k, n).unwrap_or((0, 0));
        io::print_decimal(STDOUT, sum);
        io::write_all(STDOUT, b" ");
        io::print_decimal(STDOUT, mix);
        io::write_all(STDOUT, b"\n");
    }
}
