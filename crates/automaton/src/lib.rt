// Path counts of document 004's automaton in one table, and the sizes of CS that they give. The table is lent by the caller as scratch: what it
// held before does not count, and what it holds then is not promised, so the same one may be lent again.
#![tactic(auto)]

ghost use Rattle.std.specs.Prelude.{◌≡◌, ◌^◌, ◌≤◌, ◌<◌, length};
ghost use Rattle.theory.specs.Sums.{cs};
ghost use Rattle.theory.specs.Lists.{Scratch};
ghost use Rattle.theory.specs.Prenecklaces.{Prenecklace};
ghost use Rattle.automaton.specs.Tables.{Counted, Started, Filled, diagonal_of, Sized};

// States 0 to 60 and lengths 0 to 60: entry `l * SIDE + s` is for length l and state s.
const SIDE: usize = 61;

// The cells of a table.
pub const CELLS: usize = SIDE * SIDE;

// A table of path counts.
pub type Table = [u64; CELLS];

// Length 0: of the states up to n only state 0 is home.
fn start(t: &mut Table, n: usize)
    requires { n ≤ 60 }
    ensures { Started n t.new }
{
    t[..=n].fill(0);
    t[0] = 1;
}

// One table for all prefixes of w: by the letter read, a path goes on to the next state or goes home.
// kept: `Counted` as a clause, here, in whole and sizes and in locator, and `Prenecklace` beside it: a Word of shape would ask for k up to 36, which no caller had to show, and a struct of their own would be made for each call.
fn fill(k: u64, w: &[u8], t: &mut Table)
    requires { Counted k w.now }
    ensures { Filled k w.now t.new }
{
    let n = w.len();
    start(t, n);
    for l in 1..=n {
        let home = t[(l - 1) * SIDE];
        for s in 0..=n - l {
            let larger = k - 1 - u64::from(w[s]);
            t[l * SIDE + s] = t[(l - 1) * SIDE + s + 1] + larger * home;
        }
    }
}

// The sum of an antidiagonal.
fn diagonal(t: &Table, d: usize) -> u64
    requires { (d ≤ 60) × (diagonal_of t.now d d < 2 ^ 64) }
    ensures { result ≡ diagonal_of t.now d d }
{
    let mut sum = 0;
    for q in 0..d {
        sum += t[(d - q) * SIDE + q];
    }
    sum
}

// The size of CS(w). `top` is k^n.
pub fn whole(k: u64, w: &[u8], top: u64, t: &mut Table) -> u64
    requires { Counted k w.now × Prenecklace w.now × (top ≡ k ^ length w.now) }
    ensures { (result ≡ cs k w.now) × Scratch t.old t.new }
{
    fill(k, w, t);
    top - diagonal(t, w.len())
}

// The sizes of CS of the first d letters, for every divisor d of the length, from one table.
pub fn sizes(k: u64, w: &[u8], t: &mut Table) -> [u64; 61]
    requires { Counted k w.now × Prenecklace w.now }
    ensures { Sized k w.now result × Scratch t.old t.new }
{
    fill(k, w, t);
    let n = w.len();
    let mut out = [0u64; 61];
    let mut top = 1;
    for d in 1..=n {
        top *= k;
        if n % d == 0 {
            out[d] = top - diagonal(t, d);
        }
    }
    out
}
