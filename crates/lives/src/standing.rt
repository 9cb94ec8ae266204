// Set-up, the clock and the limit, given what a line says.
use crate::kinds::Line;
use crate::world::{Sizes, World};
use crate::{text, world};

// Before set-up: the tables' sizes, all of which is lent, and the public addresses.
fn begin(left: &[u8], world: &mut World) {
    let mut bytes = [0u8; 96];
    let n = text::bytes(left, 11, &mut bytes) / 8;
    world.whole = Sizes {
        slots: (text::number(left, 8) % 9) as usize * 310,
        pending: (text::number(left, 9) % 5) as usize * 310,
        entries: (text::number(left, 10) % 2049) as usize * 48,
        public: n,
        out: 1400,
        heard: 0,
        list: 8,
    };
    world.lent = world.whole;
    pack(&mut world.public, &bytes, n);
}

fn resize_one(what: u8, lent: &mut Sizes, n: usize) {
    match what {
        b's' => lent.slots = n,
        b'p' => lent.pending = n,
        b'e' => lent.entries = n,
        b'a' => lent.public = n,
        b'o' => lent.out = n,
        b'd' => lent.heard = n,
        _ => lent.list = n,
    }
}

// What is lent from this line on.
pub(crate) fn resize(line: Line, left: &[u8], world: &mut World) {
    match line {
        Line::SetUp => begin(left, world),
        Line::Lend => resize_one(
            text::first(tokens::token(left, 1)),
            &mut world.lent,
            text::number(left, 2) as usize,
        ),
        _ => {}
    }
}

// As many words as there are, and as there is room for.
pub(crate) fn pack(words: &mut [u64], bytes: &[u8], n: usize) {
    let fits = n.min((bytes.len() / 8).min(words.len()));
    serialize::pack_words(words, 0, bytes, 0, fits);
}

// Set-up, whose number takes an answer's place. Where it is refused there is no server, and the tables that it left as they were are given
// up: the next finds them empty.
pub(crate) fn set_up(left: &[u8], world: &mut World) {
    let connect_key = tokens::array::<32>(left, 6);
    let challenge_key = tokens::array::<32>(left, 7);
    let slots = world::first_mut(&mut world.slots, world.lent.slots);
    let pending = world::first_mut(&mut world.pending, world.lent.pending);
    let entries = world::first_mut(&mut world.entries, world.lent.entries);
    let number = netcode::netcode_set_up(
        &mut world.server,
        text::number(left, 1),
        text::number(left, 2),
        text::number(left, 3) as usize,
        text::number(left, 4),
        (text::number(left, 5) % 2) as u8,
        &connect_key,
        &challenge_key,
        slots,
        pending,
        entries,
        world::first(&world.public, world.lent.public),
    );
    if number != 0 {
        slots.fill(0);
        pending.fill(0);
        entries.fill(0);
    }
    world.answer[1] = u64::from(number);
}

pub(crate) fn update(left: &[u8], world: &mut World) {
    world.ask = [0; 85];
    netcode::netcode_update(
        &mut world.server,
        world::first_mut(&mut world.pending, world.lent.pending),
        text::number(left, 1),
        text::number(left, 2),
        &mut world.answer,
    );
}

pub(crate) fn set_max_clients(left: &[u8], world: &mut World) {
    world.ask = [0; 85];
    netcode::netcode_set_max_clients(
        &mut world.server,
        text::number(left, 1) as usize,
        &mut world.answer,
    );
}
