// The step from one Lyndon word to the next, and to the one before, in a buffer of n letters.
#![tactic(auto)]

ghost use Rattle.std.specs.Prelude.{◌≡◌, ◌≤◌, length, take, true};
ghost use Rattle.theory.specs.Words.{is_lyndon};
ghost use Rattle.theory.specs.Steps.{extension, raised};
ghost use Rattle.lyndon.specs.Letters.{Lettered};
ghost use Rattle.steps.specs.Steps.{padded, Held, NextIs, PreviousIs};

// The first `long` letters, repeated up to the end of the buffer.
pub fn extend(w: &mut [u8], long: usize)
    requires { (1 ≤ long) × (long ≤ length w.old) }
    ensures { w.new ≡ extension (length w.old) (take long w.old) }
{
    for j in long..w.len() {
        w[j] = w[j - long];
    }
}

// The last letters k−1 cut off and the letter before them raised; zeros after it. The length that is left.
#[tactic(auto, using(crate::proofs::Stepping::raising_done, crate::proofs::Stepping::raising_all))]
fn raise_last(k: u64, w: &mut [u8]) -> usize
    requires { Lettered k w.old }
    ensures buffer { w.new ≡ padded (length w.old) (raised k w.old) }
    ensures size { result ≡ length (raised k w.old) }
{
    let z = (k - 1) as u8;
    for i in (0..w.len()).rev() {
        if w[i] < z {
            w[i] += 1;
            return i + 1;
        }
        w[i] = 0;
    }
    0
}

// The next Lyndon word of at most w.len() letters after the one in the first `long` letters; 0 after the last.
// kept: 0 and no Option, here, in raise_last and previous: `NextIs` and `PreviousIs` have the length of the word that is left, and 0 is that of the empty one; an Option would need a clause more, that its length is not 0.
#[tactic(auto, using(crate::proofs::Stepping::extension_lettered))]
pub fn next(k: u64, w: &mut [u8], long: usize) -> usize
    requires { Held k w.old long }
    ensures { NextIs k w.old long w.new result }
{
    extend(w, long);
    raise_last(k, w)
}

// The Lyndon word of at most w.len() letters before the one in the first `long` letters; 0 before the first. With its last letter lowered and letters k−1 up
// to the buffer's end, the word extends the one before it.
#[tactic(auto, using(lyndon::proofs::PrePeriods::pre_period_fits))]
pub fn previous(k: u64, w: &mut [u8], long: usize) -> usize
    requires { Held k w.old long × (is_lyndon (take long w.old) ≡ true) }
    ensures { PreviousIs k w.old long w.new result }
{
    let a = w[long - 1];
    if a == 0 {
        buffers::fill(w, 0, 0);
        return 0;
    }
    w[long - 1] = a - 1;
    buffers::fill(w, long, (k - 1) as u8);
    let l = lyndon::pre_period(w);
    buffers::fill(w, l, 0);
    l
}
