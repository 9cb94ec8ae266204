// What the host wants of a client, given what a line says.
use crate::world::World;
use crate::{text, world};

pub(crate) fn generate_payload_packet(left: &[u8], world: &mut World) {
    let mut payload = [0u8; 2048];
    let n = text::bytes(left, 2, &mut payload);
    netcode::netcode_generate_payload_packet(
        &mut world.server,
        text::number(left, 1),
        world::first(&payload, n),
        world::first(&world.slots, world.lent.slots),
        world::first_mut(&mut world.out, world.lent.out),
        &mut world.answer,
        &mut world.ask,
    );
}

pub(crate) fn update_client(left: &[u8], world: &mut World) {
    netcode::netcode_update_client(
        &mut world.server,
        text::number(left, 1),
        world::first_mut(&mut world.slots, world.lent.slots),
        world::first_mut(&mut world.out, world.lent.out),
        &mut world.answer,
        &mut world.ask,
    );
}

pub(crate) fn disconnect(left: &[u8], world: &mut World) {
    netcode::netcode_disconnect(
        &mut world.server,
        text::number(left, 1),
        world::first_mut(&mut world.slots, world.lent.slots),
        world::first_mut(&mut world.out, world.lent.out),
        &mut world.answer,
        &mut world.ask,
    );
}
