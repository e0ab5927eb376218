// The largest necklace below a word, and the largest not above it, in place of the word.
#![tactic(auto)]

ghost use Rattle.std.specs.Prelude.{◌≡◌};
ghost use Rattle.theory.specs.Floors.{necklace_up_to, necklace_below};
ghost use Rattle.lyndon.specs.Letters.{Lettered};
ghost use Rattle.floors.specs.Lowering.{Lowerable};

// Tries the letters from the last to the first: lowered by one, with the largest letter after it.
#[tactic(auto, using(crate::proofs::Lowering::lowering_done, crate::proofs::Lowering::lowering_all))]
pub fn lower(k: u64, w: &mut [u8])
    requires { Lowerable k w.old }
    ensures { w.new ≡ necklace_below k w.old }
{
    let z = (k - 1) as u8;
    for i in (0..w.len()).rev() {
        let a = w[i];
        if 0 < a {
            w[i] = a - 1;
            if lyndon::is_necklace(w) {
                return;
            }
        }
        w[i] = z;
    }
}

// The word itself, if it is a necklace.
#[tactic(auto, using(crate::proofs::Lowering::not_necklace_lowerable, crate::proofs::Lowering::floor_picked))]
pub fn floor(k: u64, w: &mut [u8])
    requires { Lettered k w.old }
    ensures { w.new ≡ necklace_up_to k w.old }
{
    if !lyndon::is_necklace(w) {
        lower(k, w);
    }
}
