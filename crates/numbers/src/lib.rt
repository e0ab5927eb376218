// Numbers in bytes, the highest first: written over the start of a buffer, and read where they begin. N is how many bytes a number has.
#![tactic(auto)]

ghost use Rattle.std.specs.Prelude.{◌≡◌, ◌+◌, ◌≤◌, length};
ghost use Rattle.theory.specs.Plans.{be};
ghost use Rattle.buffers.specs.Buffers.{over};
ghost use Rattle.numbers.specs.Numbers.{put_be};

// The last N of a number's 8 bytes.
#[tactic(auto, using(crate::proofs::Bytes::written))]
pub fn put<const N: usize>(v: u64, out: &mut [u8])
    requires { (N ≤ 8) × (N ≤ length out.old) }
    ensures { out.new ≡ over (put_be N v) out.old }
{
    out[..N].copy_from_slice(&v.to_be_bytes()[8 - N..]);
}

// The number in the N bytes from a place on.
#[tactic(auto, using(crate::proofs::Bytes::read))]
pub fn get<const N: usize>(src: &[u8], at: usize) -> u64
    requires { (N ≤ 8) × (at + N ≤ length src.now) }
    ensures { result ≡ be at N src.now }
{
    let mut bytes = [0; 8];
    bytes[8 - N..].copy_from_slice(&src[at..at + N]);
    u64::from_be_bytes(bytes)
}
