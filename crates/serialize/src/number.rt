// Little-endian numbers at a place of a byte slice. The six names are the Rust's (serialize.rs), each one line of the library's. What is read
// from is cut to the number's length, so that no length is tested.
ghost use Rattle.std.specs.Prelude.{◌≡◌, ◌+◌, ◌≤◌, length};
ghost use Rattle.serialize.specs.Runs.{part, splice};
ghost use Rattle.serialize.specs.Le.{of_le, to_le};

pub fn read_u16(src: &[u8], at: usize) -> u16
    requires { at + 2 ≤ length src.now }
    ensures { result ≡ of_le (part src.now at 2) }
{
    u16::from_le_bytes(*src[at..at + 2].first_chunk::<2>().unwrap())
}

pub fn read_u32(src: &[u8], at: usize) -> u32
    requires { at + 4 ≤ length src.now }
    ensures { result ≡ of_le (part src.now at 4) }
{
    u32::from_le_bytes(*src[at..at + 4].first_chunk::<4>().unwrap())
}

pub fn read_u64(src: &[u8], at: usize) -> u64
    requires { at + 8 ≤ length src.now }
    ensures { result ≡ of_le (part src.now at 8) }
{
    u64::from_le_bytes(*src[at..at + 8].first_chunk::<8>().unwrap())
}

pub fn write_u16(dst: &mut [u8], at: usize, v: u16)
    requires { at + 2 ≤ length dst.old }
    ensures { dst.new ≡ splice dst.old at (to_le 2 v) }
{
    dst[at..at + 2].copy_from_slice(&v.to_le_bytes());
}

pub fn write_u32(dst: &mut [u8], at: usize, v: u32)
    requires { at + 4 ≤ length dst.old }
    ensures { dst.new ≡ splice dst.old at (to_le 4 v) }
{
    dst[at..at + 4].copy_from_slice(&v.to_le_bytes());
}

pub fn write_u64(dst: &mut [u8], at: usize, v: u64)
    requires { at + 8 ≤ length dst.old }
    ensures { dst.new ≡ splice dst.old at (to_le 8 v) }
{
    dst[at..at + 8].copy_from_slice(&v.to_le_bytes());
}
