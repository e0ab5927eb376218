// Rotations and roots of a word: its smallest rotation and the turn to it, the length of its shortest root.
#![tactic(auto)]

ghost use Rattle.std.specs.Prelude.{◌≡◌, ◌-◌, ◌≤◌, ◌<◌, length, take, drop};
ghost use Rattle.theory.specs.Words.{same, below, turned, root, smallest, least_turn};
ghost use Rattle.buffers.specs.Buffers.{over};

// Is the rotation by i below the rotation by b? It leaves at the first differing letter.
#[tactic(auto, using(crate::proofs::Turns::turning_less, crate::proofs::Turns::turning_more))]
fn turn_below(w: &[u8], i: usize, b: usize) -> bool
    requires { (i < length w.now) × (b < length w.now) }
    ensures { result ≡ below (turned i w.now) (turned b w.now) }
{
    let n = w.len();
    // kept: the two rotations as chained iterators, compared by `lt`, took twice as long
    let mut x = i;
    let mut y = b;
    for _ in 0..n {
        if w[x] < w[y] {
            return true;
        }
        if w[y] < w[x] {
            return false;
        }
        x += 1;
        if x == n {
            x = 0;
        }
        y += 1;
        if y == n {
            y = 0;
        }
    }
    false
}

// The least turn that gives the smallest rotation.
#[tactic(auto, using(crate::proofs::Turns::turn_step))]
pub fn least_turn(w: &[u8]) -> usize
    ensures { result ≡ least_turn w.now }
{
    let mut b = 0;
    for i in 1..w.len() {
        if turn_below(w, i, b) {
            b = i;
        }
    }
    b
}

// The smallest rotation, over the start of a buffer, and the least turn that gives it.
#[tactic(auto, using(crate::proofs::Turns::smallest_laws))]
pub fn smallest(w: &[u8], out: &mut [u8]) -> usize
    requires { length w.now ≤ length out.old }
    ensures { (result ≡ least_turn w.now) × (out.new ≡ over (smallest w.now) out.old) }
{
    let turn = least_turn(w);
    buffers::copy_turned(w, turn, out);
    turn
}

// Does w go on as it began, d letters later?
#[tactic(auto, using(std::proofs::lemmas::Grind::common_steps, lyndon::proofs::Scans::same_pointwise))]
fn is_period(w: &[u8], d: usize) -> bool
    requires { d ≤ length w.now }
    ensures { result ≡ same (drop d w.now) (take (length w.now - d) w.now) }
{
    w[d..] == w[..w.len() - d]
}

// The length of the shortest word that, repeated, gives w; 1 if w is empty.
pub fn shortest_root(w: &[u8]) -> usize
    ensures { result ≡ root w.now }
{
    let n = w.len();
    (1..n)
        .find(|&d| n % d == 0 && is_period(w, d))
        .unwrap_or(n.max(1))
}
