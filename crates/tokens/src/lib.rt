// The tokens of a line of text, and what they say: numbers of a base, and bytes in hexadecimal. Every function takes any line: a token that
// is not there is empty.
#![tactic(auto)]

ghost use Rattle.std.specs.Prelude.{◌≡◌, ◌+◌, ◌-◌, ◌*◌, ◌/◌, ◌<◌, ◌≤◌, min, length, drop, nat_lt};
ghost use Rattle.serialize.specs.Runs.{splice, zeros};
ghost use Rattle.tokens.specs.Text.{IsPrefixLen, word, after_word, past, token_of, spaces_of, after_sign_of, digit_of, all_below, with_digit, value_from, pair_of, unhex, bytes_of};

// ---- tokens

// Where the word ends that starts at index from: at a space, or with the line. (By `position` the equation did not close.)
fn word_end(line: &[u8], from: usize) -> usize
    requires { from ≤ length line.now }
    ensures { (result ≡ from + length (word (drop from line.now))) × (result ≤ length line.now) }
{
    for i in from..line.len() {
        if line[i] == b' ' {
            return i;
        }
    }
    line.len()
}

// Where the next word starts.
fn next_word(line: &[u8], at: usize) -> usize
    requires { at ≤ length line.now }
    ensures { (drop result line.now ≡ after_word (drop at line.now)) × (result ≤ length line.now) }
{
    let end = word_end(line, at);
    if end < line.len() {
        return end + 1;
    }
    end
}

// Where a token starts; the line's end if it has too few.
pub fn word_start(line: &[u8], which: usize) -> usize
    ensures { (drop result line.now ≡ past which line.now) × (result ≤ length line.now) }
{
    let mut at: usize = 0;
    for _ in 0..which {
        at = next_word(line, at);
    }
    at
}

pub fn token(line: &[u8], which: usize) -> &[u8]
    ensures { result.now ≡ token_of line.now which }
{
    let start = word_start(line, which);
    let end = word_end(line, start);
    &line[start..end]
}

// How many spaces the line has: one less than tokens.
pub fn spaces(line: &[u8]) -> usize
    ensures { result ≡ spaces_of line.now }
{
    line.iter().filter(|c| **c == b' ').count()
}

// The index after the sign, or the line's length. (Likewise.)
pub fn after_sign(line: &[u8]) -> usize
    ensures { (result ≡ after_sign_of line.now) × (result ≤ length line.now) }
{
    for i in 0..line.len() {
        if line[i] == b'=' {
            return i + 1;
        }
    }
    line.len()
}

// ---- digits

// A digit's value; 16 for what is no digit of lower case.
fn digit(c: u8) -> u64
    ensures { (result ≡ digit_of c) × (result ≤ 16) }
{
    match c {
        b'0'..=b'9' => u64::from(c - b'0'),
        b'a'..=b'f' => u64::from(c - b'a') + 10,
        _ => 16,
    }
}

// Whether it is a digit of this base.
pub fn is_digit<const BASE: u64>(c: u8) -> bool
    ensures { result ≡ nat_lt (digit_of c) BASE }
{
    digit(c) < BASE
}

// Whether all are digits of this base.
pub fn are_digits<const BASE: u64>(word: &[u8]) -> bool
    ensures { result ≡ all_below BASE word.now }
{
    for c in word {
        if !is_digit::<BASE>(*c) {
            return false;
        }
    }
    true
}

// The number with a digit more; what passes 64 bits is dropped.
fn with_digit<const BASE: u64>(v: u64, c: u8) -> u64
    requires { 1 < BASE }
    ensures { result ≡ with_digit BASE v c }
{
    (v % (u64::MAX / BASE + 1) * BASE).wrapping_add(digit(c) % BASE)
}

// The number that a word says in this base.
pub fn value<const BASE: u64>(word: &[u8]) -> u64
    requires { 1 < BASE }
    ensures { result ≡ value_from BASE 0 word.now }
{
    let mut v: u64 = 0;
    for c in word {
        v = with_digit::<BASE>(v, *c);
    }
    v
}

// ---- bytes

// The byte of two digits.
fn pair(high: u8, low: u8) -> u8
    ensures { result ≡ pair_of high low }
{
    ((digit(high) % 16) * 16 + digit(low) % 16) as u8
}

// The bytes of 2 n digits, into out from index at: each turn needs its place in both.
fn fill(out: &mut [u8], at: usize, word: &[u8], n: usize)
    requires { (at + n ≤ length out.old) × (2 * n ≤ length word.now) }
    ensures { out.new ≡ splice out.old at (unhex n word.now) }
{
    for k in 0..n {
        out[at + k] = pair(word[2 * k], word[2 * k + 1]);
    }
}

// A word's bytes, into out from index at, as many as fit; how many they are.
fn put_bytes(word: &[u8], out: &mut [u8], at: usize) -> usize
    requires { at ≤ length out.old }
    ensures { (result ≡ min (length word.now / 2) (length out.old - at)) × (out.new ≡ splice out.old at (bytes_of (length out.old - at) word.now)) }
{
    let n = (word.len() / 2).min(out.len() - at);
    fill(out, at, word, n);
    n
}

// A token's bytes, into out from index at, as many as fit; how many they are.
pub fn bytes(line: &[u8], which: usize, out: &mut [u8], at: usize) -> usize
    ensures { (result ≡ min (length (token_of line.now which) / 2) (length out.old - at)) × (out.new ≡ splice out.old at (bytes_of (length out.old - at) (token_of line.now which))) × IsPrefixLen result out.new }
{
    if out.len() < at {
        return 0;
    }
    put_bytes(token(line, which), out, at)
}

// The token's first N bytes, zeros where there are fewer.
pub fn array<const N: usize>(line: &[u8], which: usize) -> [u8; N]
    ensures { result ≡ splice (zeros N) 0 (bytes_of N (token_of line.now which)) }
{
    let mut out = [0u8; N];
    bytes(line, which, &mut out, 0);
    out
}
