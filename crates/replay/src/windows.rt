// A window that a sequence arrives at.
ghost use Rattle.std.specs.Prelude.{◌≤◌};

use crate::{kinds, text, words};

// The answers to whether the sequence was received, by value and in place.
fn answers(line: &[u8], window: &[u64; 257], sequence: u64) -> bool {
    let received = text::number(line, 4);
    let refusal = if received == 1 { 6 } else { 0 };
    if text::bit(calls::pump_already_received(window, sequence)) != received {
        return false;
    }
    if calls::pump_refusal(window, sequence) != refusal {
        return false;
    }
    calls::pump_refusal_at(window, sequence) == refusal
}

// The window once the sequence arrived, by value and in place.
fn advances(line: &[u8], sequence: u64) -> bool {
    let mut by_value = words::window(line, 1);
    calls::pump_advance_sequence(&mut by_value, sequence);
    let mut in_place = words::window(line, 1);
    calls::pump_advance_at(&mut in_place, sequence);
    if words::are(line, 5, &by_value) {
        return words::are(line, 5, &in_place);
    }
    false
}

// window WINDOW SEQUENCE = RECEIVED WINDOW'
pub(crate) fn moved(line: &[u8]) -> u64
    ensures { result ≤ 1 }
{
    if kinds::is_shaped(line, b"wn=yw") {
        let window = words::window(line, 1);
        let sequence = text::number(line, 2);
        if answers(line, &window, sequence) {
            return text::bit(advances(line, sequence));
        }
    }
    0
}
