// The theory of Lyndon words, of rings of Lyndon words and of laying plans: definitions in specs/, theorems in proofs/.
// `proved` does nothing; it is proved only where every theorem of specs/Theorems.antt is.
#![tactic(auto)]

ghost use Rattle.theory.specs.Theorems.{Theorems};

// Its contract is every theorem.
pub fn proved()
    ensures { Theorems }
{}
