// One digit of a line changed, right of its sign, so that a comparison is seen to fail.
ghost use Rattle.std.specs.Prelude.{◌≤◌, length};

// The index that a number picks in what stands right of the sign: one token after the other, and in each ever another place.
fn picked(right: &[u8], number: u64) -> usize {
    let count = tokens::spaces(right) as u64;
    if count == 0 {
        return 0;
    }
    let which = ((number % count) as usize).wrapping_add(1);
    let len = tokens::token(right, which).len() as u64;
    if len == 0 {
        return 0;
    }
    let offset = (number / count % 1_000_000) * 7919 % len;
    tokens::word_start(right, which).wrapping_add(offset as usize)
}

// The index of the first digit from index from on, or the length.
fn next_digit(right: &[u8], from: usize) -> usize
    ensures { result ≤ length right.now }
{
    for i in from..right.len() {
        if tokens::is_digit::<16>(right[i]) {
            return i;
        }
    }
    right.len()
}

// The index of the digit to change: from the picked one on, and round.
fn chosen(right: &[u8], number: u64) -> usize {
    let at = next_digit(right, picked(right, number));
    if at < right.len() {
        return at;
    }
    next_digit(right, 0)
}

fn other(digit: u8) -> u8 {
    if digit == b'0' { b'1' } else { b'0' }
}

// Changes the digit that the number picks.
pub(crate) fn change(line: &mut [u8], number: u64) {
    let start = tokens::after_sign(line);
    let len = line.len();
    let at = start.wrapping_add(chosen(bodies::field(line, start, 0, len), number));
    if at < line.len() {
        line[at] = other(line[at]);
    }
}
