// Lines that alter the record or a table between calls, as the Rust's server was altered.
use crate::kinds::Line;
use crate::text;
use crate::world::World;

// ---- words

// So many words from an index on are this one, those that there are.
fn fill(table: &mut [u64], from: usize, times: usize, value: u64) {
    for i in 0..times {
        let at = from.wrapping_add(i);
        if at < table.len() {
            table[at] = value;
        }
    }
}

fn fill_as(left: &[u8], table: &mut [u64]) {
    let times = (text::number(left, 3) as usize).min(table.len());
    fill(
        table,
        text::number(left, 2) as usize,
        times,
        text::number(left, 4),
    );
}

fn words(left: &[u8], world: &mut World) {
    match text::first(tokens::token(left, 1)) {
        b'r' => fill_as(left, &mut world.server),
        b's' => fill_as(left, &mut world.slots),
        _ => fill_as(left, &mut world.pending),
    }
}

// ---- token entries

// An entry's bytes, and its mark.
fn put_entry(entries: &mut [u8; 98304], place: usize, body: &[u8; 47]) {
    let i = place % 2048;
    entries[i] = 1;
    serialize::copy(entries, 2048 + 47 * i, body, 0, 47);
}

fn entry(left: &[u8], entries: &mut [u8; 98304]) {
    let body = tokens::array::<47>(left, 2);
    put_entry(entries, text::number(left, 1) as usize, &body);
}

// The seconds of an entry when all are used: two have the lowest.
fn seconds(place: u64, lowest: u64, again: u64) -> u8 {
    if place == lowest || place == again {
        return 0;
    }
    (1 + place % 3) as u8
}

// Such an entry: its time, an address of its own and a token of its own.
fn made(place: u64, lowest: u64, again: u64) -> [u8; 47] {
    let low = (place % 256) as u8;
    let high = (place / 256 % 256) as u8;
    let mut body = [0u8; 47];
    body[0] = seconds(place, lowest, again);
    body[8] = 7;
    body[12] = 4;
    body[13] = 10;
    body[14] = 99;
    body[15] = high;
    body[16] = low;
    body[29] = 9;
    body[31] = low;
    body[32] = high;
    body[39..47].fill(0xee);
    body
}

fn all_entries(left: &[u8], entries: &mut [u8; 98304]) {
    let lowest = text::number(left, 1);
    let again = text::number(left, 2);
    for place in 0..2048usize {
        put_entry(entries, place, &made(place as u64, lowest, again));
    }
}

pub(crate) fn alter(line: Line, left: &[u8], world: &mut World) {
    match line {
        Line::Words => words(left, world),
        Line::Entry => entry(left, &mut world.entries),
        Line::AllEntries => all_entries(left, &mut world.entries),
        _ => {}
    }
}
