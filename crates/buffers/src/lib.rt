// Bytes copied to the start of a buffer that the caller lends, and one byte up to its end.
#![tactic(auto)]

ghost use Rattle.std.specs.Prelude.{◌≡◌, ◌≤◌, length};
ghost use Rattle.theory.specs.Words.{turned};
ghost use Rattle.buffers.specs.Buffers.{over, filled};

// The source, byte by byte: no `copy_from_slice`, of which a call of memmove may be made, and strip.h asks a host for memcpy and memset alone.
pub fn copy(src: &[u8], out: &mut [u8])
    requires { length src.now ≤ length out.old }
    ensures { out.new ≡ over src.now out.old }
{
    for i in 0..src.len() {
        out[i] = src[i];
    }
}

// The rotation of the source by `turn`.
pub fn copy_turned(src: &[u8], turn: usize, out: &mut [u8])
    requires { (turn ≤ length src.now) × (length src.now ≤ length out.old) }
    ensures { out.new ≡ over (turned turn src.now) out.old }
{
    copy(&src[turn..], out);
    let done = src.len() - turn;
    copy(&src[..turn], &mut out[done..]);
}

// One byte from a place on to the buffer's end.
pub fn fill(out: &mut [u8], from: usize, b: u8)
    requires { from ≤ length out.old }
    ensures { out.new ≡ filled b from out.old }
{
    out[from..].fill(b);
}
