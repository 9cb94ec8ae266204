// Runs of any elements at a place of a slice.
ghost use Rattle.std.specs.Prelude.{◌≡◌, ◌+◌, ◌≤◌, length, replicate};
ghost use Rattle.serialize.specs.Runs.{part, splice};

// n elements of src from index from, into dst from index at. By places: the library's `copy_from_slice` is a call of `memmove`, which
// `libcalls.a` did not need from outside, and moves a short run of known length byte by byte.
pub fn copy<T: Copy>(dst: &mut [T], at: usize, src: &[T], from: usize, n: usize)
    requires { (at + n ≤ length dst.old) × (from + n ≤ length src.now) }
    ensures { dst.new ≡ splice dst.old at (part src.now from n) }
{
    for i in 0..n {
        dst[at + i] = src[from + i];
    }
}

// n times the value, into dst from index at.
pub fn fill<T: Copy>(dst: &mut [T], at: usize, n: usize, value: T)
    requires { at + n ≤ length dst.old }
    ensures { dst.new ≡ splice dst.old at (replicate n value) }
{
    for x in &mut dst[at..at + n] {
        *x = value;
    }
}
