// Bytes packed eight to a word: tables hold keys and user data so. Each turn needs its place in both slices.
ghost use Rattle.std.specs.Prelude.{◌≡◌, ◌+◌, ◌*◌, ◌≤◌, length, drop};
ghost use Rattle.serialize.specs.Runs.{part, splice};
ghost use Rattle.serialize.specs.Le.{words, bytes_of};

use crate::number;

// 8 n bytes of src from index from, as n words of dst from index at.
pub fn pack_words(dst: &mut [u64], at: usize, src: &[u8], from: usize, n: usize)
    requires { (at + n ≤ length dst.old) × (from + n * 8 ≤ length src.now) }
    ensures { dst.new ≡ splice dst.old at (words n (drop from src.now)) }
{
    for i in 0..n {
        dst[at + i] = number::read_u64(src, from + i * 8);
    }
}

// n words of src from index from, as 8 n bytes of dst from index at.
pub fn unpack_words(dst: &mut [u8], at: usize, src: &[u64], from: usize, n: usize)
    requires { (at + n * 8 ≤ length dst.old) × (from + n ≤ length src.now) }
    ensures { dst.new ≡ splice dst.old at (bytes_of (part src.now from n)) }
{
    for i in 0..n {
        number::write_u64(dst, at + i * 8, src[from + i]);
    }
}
