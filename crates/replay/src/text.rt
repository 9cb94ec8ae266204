// What a line's tokens say, numbers in hexadecimal. Every function takes any line: a token that is not there is empty.
ghost use Rattle.std.specs.Prelude.{◌≡◌, ◌/◌, ◌%◌, ◌≤◌, not, length, ◌==◌};
ghost use Rattle.serialize.specs.Runs.{part, alike};
ghost use Rattle.tokens.specs.Text.{token_of, bytes_of};
ghost use Rattle.replay.specs.Text.{is_none, number_of};

// More bytes than a line of 16,000 characters can hold.
pub(crate) const ROOM: usize = 8192;

pub(crate) fn is_none(word: &[u8]) -> bool
    ensures { result ≡ is_none word.now }
{
    word == b"-".as_slice()
}

// 1 where a line is as the Rust, 0 where not.
pub(crate) fn bit(holds: bool) -> u64
    ensures { result ≤ 1 }
{
    u64::from(holds)
}

// ---- what tokens say

pub(crate) fn is_missing(line: &[u8], which: usize) -> bool
    ensures { result ≡ is_none (token_of line.now which) }
{
    is_none(tokens::token(line, which))
}

pub(crate) fn is_there(line: &[u8], which: usize) -> bool
    ensures { result ≡ not (is_none (token_of line.now which)) }
{
    !is_missing(line, which)
}

// The number of a word; 0 where it is missing.
fn word_number(word: &[u8]) -> u64
    ensures { result ≡ number_of word.now }
{
    if is_none(word) {
        return 0;
    }
    tokens::value::<16>(word)
}

pub(crate) fn number(line: &[u8], which: usize) -> u64
    ensures { result ≡ number_of (token_of line.now which) }
{
    word_number(tokens::token(line, which))
}

pub(crate) fn octet(line: &[u8], which: usize) -> u8
    ensures { result ≡ number_of (token_of line.now which) % 256 }
{
    (number(line, which) % 256) as u8
}

pub(crate) fn flag(line: &[u8], which: usize) -> bool
    ensures { result ≡ (number_of (token_of line.now which) == 1) }
{
    number(line, which) == 1
}

// How many bytes a token has.
pub(crate) fn size(line: &[u8], which: usize) -> usize
    ensures { result ≡ length (token_of line.now which) / 2 }
{
    tokens::token(line, which).len() / 2
}

// Whether the token's bytes are these.
pub(crate) fn is(line: &[u8], which: usize, got: &[u8]) -> bool
    ensures { result ≡ alike got.now (bytes_of 8192 (token_of line.now which)) }
{
    let mut want = [0u8; ROOM];
    let n = tokens::bytes(line, which, &mut want, 0);
    got == bodies::field(&want, 0, 0, n)
}

// Whether these are among the token's bytes, from index from on.
pub(crate) fn has(line: &[u8], which: usize, from: usize, got: &[u8]) -> bool
    ensures { result ≡ alike got.now (part (bytes_of 8192 (token_of line.now which)) from (length got.now)) }
{
    let mut want = [0u8; ROOM];
    let n = tokens::bytes(line, which, &mut want, 0);
    let whole = bodies::field(&want, 0, 0, n);
    got == bodies::field(whole, from, 0, got.len())
}
