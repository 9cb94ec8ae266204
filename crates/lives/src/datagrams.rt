// A datagram, and the host's answers, given what a line says. The host's own work is stored: what it left in the datagram or the output.
use crate::kinds::Line;
use crate::world::World;
use crate::{standing, text, world};

// The token's bytes take the datagram's place, and its length.
fn put(left: &[u8], which: usize, world: &mut World) {
    world.lent.heard = text::bytes(left, which, &mut world.heard);
}

// What came, or what the host left, unless it left all as it stands.
pub(crate) fn keep(line: Line, left: &[u8], world: &mut World) {
    match line {
        Line::Packet => put(left, 4, world),
        Line::AnswerOpen => {
            if tokens::token(left, 2) != b"-".as_slice() {
                put(left, 2, world);
            }
        }
        _ => {}
    }
}

fn yes(left: &[u8]) -> u8 {
    (text::number(left, 1) % 2) as u8
}

pub(crate) fn process_packet(left: &[u8], world: &mut World) {
    let ip = tokens::array::<16>(left, 3);
    netcode::netcode_process_packet(
        &mut world.server,
        (text::number(left, 1) % 256) as u8,
        (text::number(left, 2) % 65536) as u16,
        &ip,
        world::first_mut(&mut world.slots, world.lent.slots),
        world::first_mut(&mut world.pending, world.lent.pending),
        world::first(&world.out, world.lent.out),
        world::first(&world.heard, world.lent.heard),
        &mut world.answer,
        &mut world.ask,
    );
}

pub(crate) fn answer_open(left: &[u8], world: &mut World) {
    netcode::netcode_answer_open(
        &mut world.server,
        yes(left),
        world::first_mut(&mut world.slots, world.lent.slots),
        world::first_mut(&mut world.pending, world.lent.pending),
        &mut world.held,
        world::first_mut(&mut world.out, world.lent.out),
        world::first(&world.heard, world.lent.heard),
        &mut world.answer,
        &mut world.ask,
    );
}

// The token's addresses, three words each; how many words they are.
fn addresses(left: &[u8], words: &mut [u64]) -> usize {
    let mut bytes = [0u8; 1536];
    let n = text::bytes(left, 7, &mut bytes) / 8;
    standing::pack(words, &bytes, n);
    n
}

pub(crate) fn answer_token(left: &[u8], world: &mut World) {
    let send = tokens::array::<32>(left, 4);
    let receive = tokens::array::<32>(left, 5);
    let user = tokens::array::<256>(left, 6);
    let mut list = [0u64; 192];
    let n = addresses(left, &mut list);
    netcode::netcode_answer_token(
        &mut world.server,
        yes(left),
        text::number(left, 2),
        (text::number(left, 3) % 4294967296) as u32,
        &send,
        &receive,
        &user,
        world::first(&list, n),
        world::first(&world.slots, world.lent.slots),
        world::first_mut(&mut world.pending, world.lent.pending),
        world::first_mut(&mut world.entries, world.lent.entries),
        world::first(&world.public, world.lent.public),
        &mut world.held,
        world::first_mut(&mut world.out, world.lent.out),
        world::first(&world.heard, world.lent.heard),
        &mut world.answer,
        &mut world.ask,
    );
}

pub(crate) fn answer_seal(left: &[u8], world: &mut World) {
    let out = world::first_mut(&mut world.out, world.lent.out);
    text::bytes(left, 2, out);
    netcode::netcode_answer_seal(
        &mut world.server,
        yes(left),
        world::first_mut(&mut world.slots, world.lent.slots),
        world::first_mut(&mut world.pending, world.lent.pending),
        &world.held,
        out,
        &mut world.answer,
        &mut world.ask,
    );
}
