// Challenge tokens, written and read, with the host's work between a call and its answer.
ghost use Rattle.std.specs.Prelude.{◌≤◌};

use crate::{kinds, packets, text};

// Where the token starts in a buffer that has two bytes more on either side.
const AT: usize = 2;

// Whether the bytes for the cipher are the key and the nonce of two tokens, and no additional data.
fn is_told(line: &[u8], told: &[u8; 66], key: usize, nonce: usize) -> bool {
    if packets::is_keyed(line, told, key, nonce) {
        return bodies::field(told, 44, 0, 22) == [0u8; 22].as_slice();
    }
    false
}

// Whether the text stands in the token's place, and the rest of the buffer is as it was.
fn is_written(line: &[u8], out: &[u8; 304]) -> bool {
    if text::is(line, 8, bodies::field(out, AT, 0, 284)) {
        if bodies::field(out, 0, 0, 2) == [0xaau8; 2].as_slice() {
            return bodies::field(out, 286, 0, 18) == [0xaau8; 18].as_slice();
        }
    }
    false
}

fn is_ask_to_seal(line: &[u8], desk: &[u64; 16], told: &[u8; 66]) -> bool {
    if packets::is_ask(desk, 1, 0) {
        if packets::is_part(desk, 2, 302) {
            return is_told(line, told, 4, 7);
        }
    }
    false
}

// The host seals and says yes.
fn is_sealed(line: &[u8], out: &mut [u8; 304], desk: &mut [u64; 16]) -> bool {
    tokens::bytes(line, 5, out, AT);
    calls::pump_answer_seal(out, true, desk);
    desk[0] == 2
}

fn generates(line: &[u8]) -> bool {
    let mut user = [0u8; 256];
    tokens::bytes(line, 2, &mut user, 0);
    let key = tokens::array::<32>(line, 4);
    let mut out = [0xaau8; 304];
    let mut desk = [0u64; 16];
    let mut told = [0u8; 66];
    calls::pump_generate_challenge(
        &mut out,
        AT,
        text::number(line, 1),
        &user,
        text::number(line, 3),
        &key,
        &mut desk,
        &mut told,
    );
    if is_ask_to_seal(line, &desk, &told) {
        if is_written(line, &out) {
            return is_sealed(line, &mut out, &mut desk);
        }
    }
    false
}

// challenge CLIENT USER SEQUENCE KEY SEALED = NONCE TEXT
pub(crate) fn challenge(line: &[u8]) -> u64
    ensures { result ≤ 1 }
{
    if kinds::is_shaped(line, b"nunkt=bb") {
        return text::bit(generates(line));
    }
    0
}

fn is_ask_to_open(line: &[u8], desk: &[u64; 16], told: &[u8; 66]) -> bool {
    if packets::is_ask(desk, 0, 0) {
        if packets::is_part(desk, 0, 300) {
            return is_told(line, told, 3, 8);
        }
    }
    false
}

// The host opens, if the line says so and what it says is as long but for the tag.
fn opens(line: &[u8], token: &mut [u8; 300]) -> bool {
    if text::flag(line, 4) {
        if text::size(line, 5) != 284 {
            return false;
        }
        tokens::bytes(line, 5, token, 0);
    }
    true
}

// The last answer: a client and its user data, or the number that refuses.
fn is_proved(line: &[u8], desk: &[u64; 16], user: &[u8; 256]) -> bool {
    let number = text::number(line, 7);
    if desk[4] != text::number(line, 9) {
        return false;
    }
    if number == 0 {
        if packets::is_answer(desk, 2, 0) {
            return text::is(line, 10, user);
        }
        return false;
    }
    if packets::is_answer(desk, 0, number) {
        return text::is_missing(line, 10);
    }
    false
}

fn answers_open(line: &[u8], token: &mut [u8; 300], desk: &mut [u64; 16]) -> bool {
    if opens(line, token) {
        let mut user = [0u8; 256];
        calls::pump_answer_challenge(token, text::flag(line, 4), desk, &mut user);
        return is_proved(line, desk, &user);
    }
    false
}

fn proves(line: &[u8]) -> bool {
    let mut token = [0u8; 300];
    tokens::bytes(line, 1, &mut token, 0);
    let key = tokens::array::<32>(line, 3);
    let mut desk = [0u64; 16];
    let mut told = [0u8; 66];
    calls::pump_decode_challenge(&token, 0, text::number(line, 2), &key, &mut desk, &mut told);
    if is_ask_to_open(line, &desk, &told) {
        return answers_open(line, &mut token, &mut desk);
    }
    false
}

// proof TOKEN SEQUENCE KEY GRANTED OPENED = NUMBER NONCE CLIENT USER
pub(crate) fn proof(line: &[u8]) -> u64
    ensures { result ≤ 1 }
{
    if kinds::is_shaped(line, b"tnkyB=nbNU") {
        return text::bit(proves(line));
    }
    0
}
