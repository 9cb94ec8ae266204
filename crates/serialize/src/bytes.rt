// Runs of bytes compared.
ghost use Rattle.std.specs.Prelude.{◌≡◌, ◌+◌, ◌≤◌, length};
ghost use Rattle.serialize.specs.Runs.{part, alike};

// Whether n bytes of a from index at are those of b from index from.
pub fn same_bytes(a: &[u8], at: usize, b: &[u8], from: usize, n: usize) -> bool
    requires { (at + n ≤ length a.now) × (from + n ≤ length b.now) }
    ensures { result ≡ alike (part a.now at n) (part b.now from n) }
{
    a[at..at + n] == b[from..from + n]
}
