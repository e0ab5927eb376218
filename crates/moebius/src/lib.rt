// Möbius values and the signed sum over the divisors of a number (document 004, section 3).
#![tactic(auto)]

ghost use Rattle.std.specs.Prelude.{◌≡◌, ◌^◌, ◌≤◌, pos, get_or};
ghost use Rattle.theory.specs.Sums.{mobius, divisors_in, running};
ghost use Rattle.moebius.specs.Summands.{summand, Summable, Powers};

// The numbers that are summed: one for each d from 0 to 60.
const SIZES: usize = 61;

pub type Sizes = [u64; SIZES];

// The Möbius values of 1 to 60.
const MOBIUS: [i8; 60] = [
    1, -1, -1, 0, -1, 1, -1, 0, 0, 1, -1, 0, -1, 1, 1, 0, -1, 0, -1, 0, 1, 1, -1, 0, 0, 1, 0, 0,
    -1, -1, -1, 0, 1, 1, 1, 0, -1, 1, 1, 0, -1, -1, -1, 0, 0, 1, -1, 0, 0, 0, 1, 0, -1, 0, 1, 0, 1,
    1, -1, 0,
];

// The Möbius value of n.
// kept: n up to 60 by a clause, here, in term and powers, as `Summable` in divisor_sum, ranks and sheets: a Strip in its place would ask for more (k up to 36, and that n is one of it).
fn moebius(n: u64) -> i8
    requires { (1 ≤ n) × (n ≤ 60) }
    ensures { result ≡ mobius n }
{
    MOBIUS[(n - 1) as usize]
}

// The term of a divisor d of n in a signed sum: the Möbius value of n/d times the number at d.
pub fn term(n: u64, d: u64, sizes: &Sizes) -> i64
    requires { (1 ≤ d) × (d ≤ n) × (n ≤ 60) × (get_or sizes.now d 0 ≤ 2 ^ 60) }
    ensures { result ≡ summand n sizes.now d }
{
    let size = sizes[d as usize];
    i64::from(moebius(n / d)) * (size as i64)
}

// The sum of the terms of n's divisors, from n downwards; of the divisors among the first `count` numbers n, n - 1, .. alone.
pub fn divisor_sum(k: u64, n: u64, count: u64, sizes: &Sizes) -> i64
    requires { Summable k n sizes.now × (count ≤ n) }
    ensures { result ≡ running (summand n sizes.now) (pos 0) (divisors_in n count) }
{
    let mut sum: i64 = 0;
    for i in 0..count {
        let d = n - i;
        if n % d == 0 {
            sum += term(n, d, sizes);
        }
    }
    sum
}

// The powers of k up to k^n.
pub fn powers(k: u64, n: u64) -> Sizes
    requires { (1 ≤ k) × (n ≤ 60) × (k ^ n ≤ 2 ^ 60) }
    ensures { Powers k n result }
{
    let mut t = [0u64; SIZES];
    t[0] = 1;
    for d in 1..=n as usize {
        t[d] = t[d - 1] * k;
    }
    t
}
