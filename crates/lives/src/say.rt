// What came out of a call, as the sample says it: tokens, each after a space. A text that does not fit is cut short, and is then none
// that the sample has.
ghost use Rattle.std.specs.Prelude.{◌≤◌};

use crate::world;
use std::fmt;
use std::fmt::Write;

// More than any line expects.
pub(crate) const ROOM: usize = 4096;

const DIGITS: [u8; 16] = *b"0123456789abcdef";

// The first `len` bytes are said.
#[derive(Drop)]
pub(crate) struct Said {
    text: [u8; ROOM],
    len: usize,
}

impl fmt::Write for Said {
    // Nothing fails: what does not fit is left out.
    fn write_str(&mut self, s: &str) -> fmt::Result {
        for c in s.as_bytes() {
            self.put(*c);
        }
        Ok(())
    }
}

impl Said {
    pub(crate) fn new() -> Said {
        Said {
            text: [0; ROOM],
            len: 0,
        }
    }

    pub(crate) fn text(&self) -> &[u8] {
        bodies::field(&self.text, 0, 0, self.len)
    }

    pub(crate) fn clear(&mut self) {
        self.len = 0;
    }

    // A byte more; where the text is full, it stays so.
    fn put(&mut self, c: u8) {
        let at = self.len;
        if at < ROOM {
            self.text[at] = c;
            self.len = at + 1;
        }
    }

    // One character, ever another one, is a digit that it was not.
    pub(crate) fn spoil(&mut self, number: u64) {
        if self.len == 0 {
            return;
        }
        let at = ((number % 1_000_000) * 7919 % (self.len as u64)) as usize;
        if at < ROOM {
            self.text[at] = if self.text[at] == b'0' { b'1' } else { b'0' };
        }
    }

    pub(crate) fn number(&mut self, n: u64) {
        let _ = write!(self, " {n}");
    }

    pub(crate) fn numbers(&mut self, words: &[u64]) {
        for n in words {
            self.number(*n);
        }
    }

    // The sign of none.
    pub(crate) fn none(&mut self) {
        let _ = write!(self, " -");
    }

    // A query that was refused: no token of the sample begins like this.
    pub(crate) fn refused(&mut self, number: u64) {
        let _ = write!(self, " !{number}");
    }

    pub(crate) fn bytes(&mut self, s: &[u8]) {
        if s.is_empty() {
            self.none();
            return;
        }
        let _ = write!(self, " ");
        for b in s {
            self.put(DIGITS[(*b / 16) as usize]);
            self.put(DIGITS[(*b % 16) as usize]);
        }
    }

    // The first n of the words, with commas between them.
    pub(crate) fn list(&mut self, words: &[u64], n: usize) {
        match world::first(words, n) {
            [] => self.none(),
            [head, rest @ ..] => {
                self.number(*head);
                for word in rest {
                    let _ = write!(self, ",{word}");
                }
            }
        }
    }
}
