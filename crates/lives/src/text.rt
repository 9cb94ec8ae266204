// What a line's tokens say: a number in decimal, bytes in hexadecimal. A token that is not there is empty.
ghost use Rattle.std.specs.Prelude.{◌≡◌, ◌-◌, ◌/◌, min, length};
ghost use Rattle.serialize.specs.Runs.{splice};
ghost use Rattle.tokens.specs.Text.{IsPrefixLen, token_of, value_from, bytes_of};

// A token's first letter, or a space.
pub(crate) fn first(word: &[u8]) -> u8 {
    word.first().copied().unwrap_or(b' ')
}

pub(crate) fn number(line: &[u8], which: usize) -> u64
    ensures { result ≡ value_from 10 0 (token_of line.now which) }
{
    tokens::value::<10>(tokens::token(line, which))
}

// A token's bytes, at the start of out, as many as fit; how many they are.
pub(crate) fn bytes(line: &[u8], which: usize, out: &mut [u8]) -> usize
    ensures { (result ≡ min (length (token_of line.now which) / 2) (length out.old - 0)) × (out.new ≡ splice out.old 0 (bytes_of (length out.old - 0) (token_of line.now which))) × IsPrefixLen result out.new }
{
    tokens::bytes(line, which, out, 0)
}
