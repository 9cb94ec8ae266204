// Standard input, a line at a time.
use std::io;
use std::io::{Read, Stdin};

// What was read and not yet taken is from start up to end of the space; the line is the first `len` bytes of its place.
#[derive(Drop)]
pub(crate) struct Lines {
    input: Stdin,
    space: [u8; 65536],
    start: usize,
    end: usize,
    line: [u8; 16384],
    len: usize,
}

impl Lines {
    pub(crate) fn new(input: Stdin) -> Lines {
        Lines {
            input,
            space: [0; 65536],
            start: 0,
            end: 0,
            line: [0; 16384],
            len: 0,
        }
    }

    // The next byte, once more was read where there was none; None where the input is over.
    fn next(&mut self) -> io::Result<Option<u8>> {
        if self.start >= self.end {
            self.end = self.input.read(&mut self.space)?;
            self.start = 0;
        }
        let at = self.start;
        if at < self.end && at < 65536 {
            self.start = at + 1;
            return Ok(Some(self.space[at]));
        }
        Ok(None)
    }

    // Reads the next line, its end with it; false where the input is over. A line that does not fit comes in parts, and only the last of
    // them has an end.
    pub(crate) fn read(&mut self) -> io::Result<bool> {
        self.len = 0;
        for at in 0..16384usize {
            match self.next()? {
                None => return Ok(at > 0),
                Some(c) => {
                    self.line[at] = c;
                    self.len = at + 1;
                    if c == b'\n' {
                        return Ok(true);
                    }
                }
            }
        }
        Ok(true)
    }

    // The line without its end; what has none is no call.
    pub(crate) fn line(&self) -> &[u8] {
        match bodies::field(&self.line, 0, 0, self.len) {
            [line @ .., b'\n'] => line,
            _ => bodies::field(&self.line, 0, 0, 0),
        }
    }
}
