// Packets, encoded and decoded, with the host's work between a call and its answer: it copies what the line says the cipher gave.
ghost use Rattle.std.specs.Prelude.{◌≤◌};

use crate::{kinds, text, words};

// ---- the desk

// Whether the desk answers by this code and this number.
pub(crate) fn is_answer(desk: &[u64; 16], code: u64, number: u64) -> bool {
    if desk[0] != code {
        return false;
    }
    desk[1] == number
}

// Whether the desk asks for this work, over additional data of this size.
pub(crate) fn is_ask(desk: &[u64; 16], work: u64, size: u64) -> bool {
    if desk[0] != 1 {
        return false;
    }
    if desk[8] != work {
        return false;
    }
    desk[9] == size
}

// Whether the ask's part is from start to end.
pub(crate) fn is_part(desk: &[u64; 16], start: u64, end: u64) -> bool {
    if desk[10] != start {
        return false;
    }
    desk[11] == end
}

// Whether the bytes for the cipher start with the key and the nonce of two tokens.
pub(crate) fn is_keyed(line: &[u8], told: &[u8; 66], key: usize, nonce: usize) -> bool {
    if text::is(line, key, bodies::field(told, 0, 0, 32)) {
        return text::is(line, nonce, bodies::field(told, 32, 0, 12));
    }
    false
}

// ---- encode

fn calls_encode(line: &[u8], out: &mut [u8], desk: &mut [u64; 16], told: &mut [u8; 66]) {
    let mut space = [0u8; text::ROOM];
    let n = tokens::bytes(line, 4, &mut space, 0);
    let key = tokens::array::<32>(line, 6);
    let keyed = text::is_there(line, 6);
    calls::pump_encode(
        out,
        text::octet(line, 1),
        text::number(line, 2),
        text::number(line, 3),
        bodies::field(&space, 0, 0, n),
        text::number(line, 5),
        keyed,
        &key,
        text::number(line, 7),
        desk,
        told,
    );
}

// What stands in the buffer at the end: a line that does not say it has it as it was.
fn is_left(line: &[u8], out: &[u8]) -> bool {
    if text::is_there(line, 17) {
        return text::is(line, 17, out);
    }
    text::is(line, 8, out)
}

// The last answer: a length, or the number that refuses, and nothing kept open.
fn is_encoded(line: &[u8], desk: &[u64; 16]) -> bool {
    let number = text::number(line, 12);
    let length = text::number(line, 13);
    if desk[12] != 0 {
        return false;
    }
    if number == 0 {
        return is_answer(desk, 2, length);
    }
    if length != 0 {
        return false;
    }
    is_answer(desk, 0, number)
}

// Whether the ask is to seal the line's text, with the tag's places after it.
fn is_ask_to_seal(line: &[u8], out: &[u8], desk: &[u64; 16]) -> bool {
    let start = desk[10] as usize;
    let end = desk[11] as usize;
    if end < 16 {
        return false;
    }
    if is_ask(desk, 1, 22) {
        return text::is(line, 16, bodies::payload(out, start, end - 16));
    }
    false
}

// The host seals the part from start to end, if the line says so and what it says is as long.
fn seals(line: &[u8], out: &mut [u8], start: usize, end: usize) -> bool {
    if text::flag(line, 10) {
        if end < start {
            return false;
        }
        if text::size(line, 9) != end - start {
            return false;
        }
        tokens::bytes(line, 9, out, start);
    }
    true
}

// The host's answer, and what comes of it.
fn answers_seal(line: &[u8], out: &mut [u8], desk: &mut [u64; 16]) -> bool {
    let start = desk[10] as usize;
    let end = desk[11] as usize;
    if seals(line, out, start, end) {
        calls::pump_answer_seal(out, text::flag(line, 10), desk);
        if is_encoded(line, desk) {
            return is_left(line, out);
        }
    }
    false
}

// A call that asked.
fn is_sealed(line: &[u8], out: &mut [u8], desk: &mut [u64; 16], told: &[u8; 66]) -> bool {
    if is_ask_to_seal(line, out, desk) {
        if is_keyed(line, told, 6, 14) {
            if text::is(line, 15, bodies::field(told, 44, 0, 22)) {
                return answers_seal(line, out, desk);
            }
        }
    }
    false
}

// A call that did not ask: the line says nothing of the cipher.
fn is_unsealed(line: &[u8], out: &[u8], desk: &[u64; 16]) -> bool {
    if text::is_there(line, 14) {
        return false;
    }
    if text::is_there(line, 15) {
        return false;
    }
    if text::is_there(line, 16) {
        return false;
    }
    if is_encoded(line, desk) {
        return is_left(line, out);
    }
    false
}

fn encodes(line: &[u8], out: &mut [u8]) -> bool {
    let mut desk = [0u64; 16];
    let mut told = [0u8; 66];
    calls_encode(line, out, &mut desk, &mut told);
    if text::is_there(line, 9) {
        return is_sealed(line, out, &mut desk, &told);
    }
    is_unsealed(line, out, &desk)
}

// encode TYPE A B BYTES PROTOCOL KEY SEQUENCE OUT SEALED GRANTED = NUMBER LENGTH NONCE ADDITIONAL TEXT OUT'
pub(crate) fn encode(line: &[u8]) -> u64
    ensures { result ≤ 1 }
{
    if kinds::is_shaped(line, b"oNNBnKnBBY=nNBBBB") {
        let mut space = [0u8; text::ROOM];
        let n = tokens::bytes(line, 8, &mut space, 0);
        return text::bit(encodes(line, &mut space[..n]));
    }
    0
}

// ---- decode

// The request's version, nonce and private data, one after the other.
fn is_request(line: &[u8], datagram: &[u8], start: usize, end: usize) -> bool {
    let mut version = [0u8; 13];
    calls::pump_field(0, datagram, start, end, &mut version);
    let mut nonce = [0u8; 24];
    calls::pump_field(1, datagram, start, end, &mut nonce);
    let mut data = [0u8; 1024];
    calls::pump_field(2, datagram, start, end, &mut data);
    if text::size(line, 16) != 1061 {
        return false;
    }
    if text::has(line, 16, 0, &version) {
        if text::has(line, 16, 13, &nonce) {
            return text::has(line, 16, 37, &data);
        }
    }
    false
}

// One field, all of what the line says.
fn is_field(line: &[u8], which: u8, datagram: &[u8], start: usize, end: usize) -> bool {
    let mut space = [0u8; text::ROOM];
    let n = calls::pump_field(which, datagram, start, end, &mut space);
    text::is(line, 16, bodies::field(&space, 0, 0, n))
}

// The packet's bytes, by its type.
fn are_bytes(line: &[u8], kind: u64, datagram: &[u8], start: usize, end: usize) -> bool {
    match kind {
        0 => is_request(line, datagram, start, end),
        2 => is_field(line, 3, datagram, start, end),
        3 => is_field(line, 3, datagram, start, end),
        5 => is_field(line, 4, datagram, start, end),
        _ => text::is_missing(line, 16),
    }
}

// The numbers of a packet that was read; zeros where none was.
fn are_numbers(line: &[u8], desk: &[u64; 16]) -> bool {
    if desk[2] != text::number(line, 12) {
        return false;
    }
    if desk[3] != text::number(line, 13) {
        return false;
    }
    if desk[4] != text::number(line, 14) {
        return false;
    }
    desk[5] == text::number(line, 15)
}

// The last answer: a packet, or the number that refuses.
fn is_decoded(line: &[u8], datagram: &[u8], desk: &[u64; 16]) -> bool {
    if are_numbers(line, desk) {
        let number = text::number(line, 8);
        if number == 0 {
            if is_answer(desk, 2, 0) {
                return are_bytes(line, desk[3], datagram, desk[6] as usize, desk[7] as usize);
            }
            return false;
        }
        if is_answer(desk, 0, number) {
            return text::is_missing(line, 16);
        }
    }
    false
}

// The window at the end, if there is one.
fn is_window_left(line: &[u8], window: &[u64; 257]) -> bool {
    if text::is_there(line, 4) {
        if text::is_there(line, 17) {
            return words::are(line, 17, window);
        }
        return false;
    }
    text::is_missing(line, 17)
}

// Whether the ask is to open the datagram from the line's start on, under its key, nonce and additional data.
fn is_ask_to_open(line: &[u8], len: usize, desk: &[u64; 16], told: &[u8; 66]) -> bool {
    if is_ask(desk, 0, 22) {
        if is_part(desk, text::number(line, 11), len as u64) {
            if is_keyed(line, told, 3, 9) {
                return text::is(line, 10, bodies::field(told, 44, 0, 22));
            }
        }
    }
    false
}

// The host opens the datagram from start on, if the line says so and what it says is as long but for the tag.
fn opens(line: &[u8], datagram: &mut [u8], start: usize) -> bool {
    if text::flag(line, 5) {
        let len = datagram.len();
        if len < start {
            return false;
        }
        if len - start < 16 {
            return false;
        }
        if text::size(line, 6) != len - start - 16 {
            return false;
        }
        tokens::bytes(line, 6, datagram, start);
    }
    true
}

// The host's answer, and what comes of it.
fn answers_open(
    line: &[u8],
    datagram: &mut [u8],
    window: &mut [u64; 257],
    desk: &mut [u64; 16],
) -> bool {
    let start = desk[10] as usize;
    if opens(line, datagram, start) {
        calls::pump_answer_open(
            datagram,
            text::is_there(line, 4),
            window,
            text::flag(line, 5),
            desk,
        );
        if is_decoded(line, datagram, desk) {
            return is_window_left(line, window);
        }
    }
    false
}

// A call that asked: the window has not moved yet.
fn is_opened(
    line: &[u8],
    datagram: &mut [u8],
    window: &mut [u64; 257],
    desk: &mut [u64; 16],
    told: &[u8; 66],
) -> bool {
    if is_ask_to_open(line, datagram.len(), desk, told) {
        if words::are(line, 4, window) {
            return answers_open(line, datagram, window, desk);
        }
    }
    false
}

// A call that did not ask: the line says nothing of the cipher.
fn is_unopened(line: &[u8], datagram: &[u8], window: &[u64; 257], desk: &[u64; 16]) -> bool {
    if text::is_there(line, 10) {
        return false;
    }
    if text::number(line, 11) != 0 {
        return false;
    }
    if is_decoded(line, datagram, desk) {
        return is_window_left(line, window);
    }
    false
}

fn decodes(line: &[u8], datagram: &mut [u8]) -> bool {
    let mut window = words::window(line, 4);
    let mut desk = [0u64; 16];
    let mut told = [0u8; 66];
    let key = tokens::array::<32>(line, 3);
    calls::pump_decode(
        datagram,
        text::number(line, 2),
        text::is_there(line, 3),
        &key,
        text::is_there(line, 4),
        &mut window,
        &mut desk,
        &mut told,
    );
    if text::is_there(line, 9) {
        return is_opened(line, datagram, &mut window, &mut desk, &told);
    }
    is_unopened(line, datagram, &window, &desk)
}

// decode DATAGRAM PROTOCOL KEY WINDOW GRANTED OPENED = NUMBER NONCE ADDITIONAL START SEQUENCE TYPE A B BYTES WINDOW'
pub(crate) fn decode(line: &[u8]) -> u64
    ensures { result ≤ 1 }
{
    if kinds::is_shaped(line, b"BnKWYB=nBBNNNNNBW") {
        let mut space = [0u8; text::ROOM];
        let n = tokens::bytes(line, 1, &mut space, 0);
        return text::bit(decodes(line, &mut space[..n]));
    }
    0
}
