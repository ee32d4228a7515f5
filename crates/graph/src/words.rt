// Lists of words: copied, filled.
ghost use Rattle.std.specs.Prelude.{◌≡◌, ◌+◌, ◌≤◌, length, replicate};
ghost use Rattle.std.proofs.Math.Seq.{paste};

// The first `n` words of `src` over those of `dst` from `at` on.
pub fn copy(n: usize, src: &[u32], dst: &mut [u32], at: usize)
    requires { (n ≤ length src.now) × (at + n ≤ length dst.old) }
    ensures { dst.new ≡ paste dst.old at src.now n }
{
    dst[at..at + n].copy_from_slice(&src[..n]);
}

// Every word becomes `v`.
pub fn fill(dst: &mut [u32], v: u32)
    ensures { dst.new ≡ replicate (length dst.old) v }
{
    dst.fill(v);
}
