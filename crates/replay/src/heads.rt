// Prefix byte, sequence bytes and additional data.
ghost use Rattle.std.specs.Prelude.{◌≤◌};

use crate::{kinds, text};

// Whether the sequence's bytes stand at the start of eight, and the rest is as it was.
fn is_written(line: &[u8], n: usize, out: &[u8; 8], before: &[u8; 8]) -> bool {
    if n as u64 != text::number(line, 5) {
        return false;
    }
    if text::is(line, 6, bodies::field(out, 0, 0, n)) {
        return bodies::field(out, n, 0, 8) == bodies::field(before, n, 0, 8);
    }
    false
}

fn writes(line: &[u8], sequence: u64) -> bool {
    let before = [0xaau8; 8];
    let mut out = before;
    let n = calls::pump_write_sequence(&mut out, sequence);
    is_written(line, n, &out, &before)
}

// prefix VALUE SEQUENCE = BYTE COUNT BYTES
pub(crate) fn prefix(line: &[u8]) -> u64
    ensures { result ≤ 1 }
{
    if kinds::is_shaped(line, b"on=onB") {
        let sequence = text::number(line, 2);
        let byte = calls::pump_encode_prefix(text::octet(line, 1), sequence);
        if byte != text::octet(line, 4) {
            return 0;
        }
        if calls::pump_sequence_bytes_required(sequence) as u64 != text::number(line, 5) {
            return 0;
        }
        return text::bit(writes(line, sequence));
    }
    0
}

// Whether two words are the numbers of a token and the next.
fn are(words: [u64; 2], line: &[u8], which: usize, next: usize) -> bool {
    if words[0] != text::number(line, which) {
        return false;
    }
    words[1] == text::number(line, next)
}

// unprefix BYTE = TYPE COUNT
pub(crate) fn unprefix(line: &[u8]) -> u64
    ensures { result ≤ 1 }
{
    if kinds::is_shaped(line, b"o=nn") {
        let mut words = [0u64; 2];
        calls::pump_decode_prefix(text::octet(line, 1), &mut words);
        return text::bit(are(words, line, 3, 4));
    }
    0
}

// sequence BYTES LEN = NUMBER VALUE
pub(crate) fn sequence(line: &[u8]) -> u64
    ensures { result ≤ 1 }
{
    if kinds::is_shaped(line, b"Bn=nN") {
        let mut source = [0u8; text::ROOM];
        let n = tokens::bytes(line, 1, &mut source, 0);
        let mut words = [0u64; 2];
        let len = text::number(line, 2) as usize;
        calls::pump_read_sequence(bodies::field(&source, 0, 0, n), 0, len, &mut words);
        return text::bit(are(words, line, 4, 5));
    }
    0
}

// Whether the bytes are what the line says; each takes an array of its length, which a slice would have to be shown to have.
fn is_additional(line: &[u8], out: &[u8; 22]) -> bool {
    text::is(line, 4, out)
}

fn is_private(line: &[u8], out: &[u8; 29]) -> bool {
    text::is(line, 4, out)
}

// additional PREFIX PROTOCOL = BYTES
pub(crate) fn additional(line: &[u8]) -> u64
    ensures { result ≤ 1 }
{
    if kinds::is_shaped(line, b"on=b") {
        let mut out = [0u8; 22];
        calls::pump_get_additional_data(&mut out, text::octet(line, 1), text::number(line, 2));
        return text::bit(is_additional(line, &out));
    }
    0
}

// private PROTOCOL EXPIRY = BYTES
pub(crate) fn private(line: &[u8]) -> u64
    ensures { result ≤ 1 }
{
    if kinds::is_shaped(line, b"nn=b") {
        let mut out = [0u8; 29];
        calls::pump_get_token_additional_data(
            &mut out,
            text::number(line, 1),
            text::number(line, 2),
        );
        return text::bit(is_private(line, &out));
    }
    0
}
