// The shape of a line: as many tokens as its call has, each of its kind.
use crate::{text, words};

fn is_number(word: &[u8]) -> bool {
    !word.is_empty() && word.len() <= 16 && tokens::are_digits::<16>(word)
}

fn is_number_below(word: &[u8], bound: u64) -> bool {
    is_number(word) && tokens::value::<16>(word) < bound
}

fn is_bytes(word: &[u8]) -> bool {
    !word.is_empty() && word.len() % 2 == 0 && tokens::are_digits::<16>(word)
}

fn is_bytes_of(word: &[u8], n: usize) -> bool {
    word.len() / 2 == n && is_bytes(word)
}

// Kinds by a letter: a number, one of a byte, a yes or no, bytes, 32, 256 or 300 of them, a window.
fn is_given(word: &[u8], kind: u8) -> bool {
    match kind {
        b'n' => is_number(word),
        b'o' => is_number_below(word, 256),
        b'y' => is_number_below(word, 2),
        b'b' => is_bytes(word),
        b'k' => is_bytes_of(word, 32),
        b'u' => is_bytes_of(word, 256),
        b't' => is_bytes_of(word, 300),
        b'w' => words::is_window(word),
        _ => false,
    }
}

// A capital is for what may be missing; the sign stands for itself.
fn is_of(word: &[u8], kind: u8) -> bool {
    if kind == b'=' {
        return word == b"=".as_slice();
    }
    if kind < b'a' {
        if text::is_none(word) {
            return true;
        }
        return is_given(word, kind + 32);
    }
    is_given(word, kind)
}

// Whether the line's tokens after its name are of these kinds, no more and no fewer.
pub(crate) fn is_shaped(line: &[u8], kinds: &[u8]) -> bool {
    if tokens::spaces(line) != kinds.len() {
        return false;
    }
    for (i, kind) in kinds.iter().enumerate() {
        if !is_of(tokens::token(line, i + 1), *kind) {
            return false;
        }
    }
    true
}
