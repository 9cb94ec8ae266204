// A window as a token says it, and as 257 words: the highest, then the places.
ghost use Rattle.std.specs.Prelude.{◌<◌, ◌≤◌};

// How many entries the token has, of 18 digits each, after the highest's 16.
fn entries(word: &[u8]) -> usize
    ensures { result ≤ 256 }
{
    (word.len() / 18).min(256)
}

// The place of an entry, and the value that it holds.
fn place(word: &[u8], entry: usize) -> usize
    requires { entry < 256 }
    ensures { result < 256 }
{
    (tokens::value::<16>(bodies::field(word, 16, 18 * entry, 2)) % 256) as usize
}

fn held(word: &[u8], entry: usize) -> u64
    requires { entry < 256 }
{
    tokens::value::<16>(bodies::field(word, 18, 18 * entry, 16))
}

// Whether the entry is of a later place than the one before it, and does not hold the mark of an empty place.
fn is_next(word: &[u8], entry: usize) -> bool
    requires { entry < 256 }
{
    held(word, entry) != u64::MAX && (entry == 0 || place(word, entry - 1) < place(word, entry))
}

fn are_rising(word: &[u8], n: usize) -> bool
    requires { n ≤ 256 }
{
    for entry in 0..n {
        if !is_next(word, entry) {
            return false;
        }
    }
    true
}

pub(crate) fn is_window(word: &[u8]) -> bool {
    let n = entries(word);
    if word.len() != 16 + 18 * n {
        return false;
    }
    tokens::are_digits::<16>(word) && are_rising(word, n)
}

fn set_place(words: &mut [u64; 257], word: &[u8], entry: usize)
    requires { entry < 256 }
{
    let index = 1 + place(word, entry);
    words[index] = held(word, entry);
}

fn set_places(words: &mut [u64; 257], word: &[u8], n: usize)
    requires { n ≤ 256 }
{
    for entry in 0..n {
        set_place(words, word, entry);
    }
}

// The words that a token says: a place without an entry holds the mark.
pub(crate) fn window(line: &[u8], which: usize) -> [u64; 257] {
    let word = tokens::token(line, which);
    let mut words = [u64::MAX; 257];
    words[0] = tokens::value::<16>(bodies::field(word, 0, 0, 16));
    set_places(&mut words, word, entries(word));
    words
}

// Whether the words are those of the token.
pub(crate) fn are(line: &[u8], which: usize, words: &[u64; 257]) -> bool {
    let want = window(line, which);
    *words == want
}
