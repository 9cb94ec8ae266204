// A connected pump kept alive, given up, or sent away.
ghost use Rattle.std.specs.Prelude.{◌≡◌, ◌<◌, []};
ghost use Rattle.places.specs.Layout.{Shaped};
ghost use Rattle.turns.specs.Packets.{keep_alive, spoken};
ghost use Rattle.sending.specs.Packets.{sending, served};
ghost use Rattle.sending.specs.Clients.{overdue, silent, slot_updated, client_updated, disconnected, Askable, Attends};

use crate::packets;
use server::{Answer, NetcodeServer};
use turns::Turn;

// The 32 bits of an i32 from here on are of a number below 0.
const BELOW_ZERO: u32 = 2147483648;

// Timeout over 0, and received + timeout < now.
fn is_overdue(server: NetcodeServer, slots: &[u64], i: usize) -> bool
    requires { Shaped slots.now server.set.slots × (i < server.set.slots) }
    ensures { result ≡ overdue server slots.now i }
{
    let set = server.set;
    let timeout = records::timeout_seconds(slots, set.slots, i);
    if timeout == 0 {
        return false;
    }
    if timeout >= BELOW_ZERO {
        return false;
    }
    let received = records::received_time(slots, set.slots, i);
    let current_time = server.current_time;
    received.is_past(timeout, current_time)
}

// Sent + 250 ms <= now.
fn is_silent(server: NetcodeServer, slots: &[u64], i: usize) -> bool
    requires { Shaped slots.now server.set.slots × (i < server.set.slots) }
    ensures { result ≡ silent server slots.now i }
{
    let set = server.set;
    let sent = records::sent_time(slots, set.slots, i);
    let current_time = server.current_time;
    sent.is_due(current_time)
}

// The keep-alive of slot i.
fn send_keep_alive(server: NetcodeServer, slots: &[u64], i: usize, out: &mut [u8]) -> Turn
    requires { Shaped slots.now server.set.slots × (i < server.set.slots) }
    ensures { spoken result out.new ≡ sending server slots.now i (keep_alive server.max_clients i) [] out.old }
{
    let packet = turns::keep_alive(server.max_clients, i);
    let nothing: [u8; 0] = [];
    packets::send(server, slots, i, packet, &nothing, out)
}

// Slot i is ended if it is overdue, kept alive if it was silent, and else left alone.
fn update_slot(
    server: NetcodeServer,
    client_id: u64,
    slots: &mut [u64],
    i: usize,
    out: &mut [u8],
) -> Turn
    requires { Shaped slots.old server.set.slots × (i < server.set.slots) }
    ensures { served result slots.new out.new ≡ slot_updated server client_id slots.old i out.old }
{
    if is_overdue(server, slots, i) {
        return packets::end(server, client_id, slots, i, out);
    }
    if is_silent(server, slots, i) {
        return send_keep_alive(server, slots, i, out);
    }
    turns::answered(server, Answer::Nothing)
}

// The step is taken of the lowest slot with the id: 16, 23; an unknown id is nothing.
fn attend<F: FnOnce(NetcodeServer, u64, &mut [u64], usize, &mut [u8]) -> Turn>(
    server: NetcodeServer,
    client_id: u64,
    slots: &mut [u64],
    out: &mut [u8],
    step: F,
) -> Turn
    requires { Askable (F.pre step) server client_id slots.old out.old }
    ensures { Attends (F.post step) server client_id slots.old out.old result slots.new out.new }
{
    if let Err(refusal) = crate::ready_refusal(server, slots.len()) {
        return turns::refused(server, refusal);
    }
    let set = server.set;
    match places::find_by_id(slots, set.slots, client_id) {
        Some(i) => step(server, client_id, slots, i, out),
        None => turns::answered(server, Answer::Nothing),
    }
}

// A client's turn, once a step of the clock: 16, 23; an unknown id is nothing; 15, 14, or an ask to seal.
pub fn update_client(
    server: NetcodeServer,
    client_id: u64,
    slots: &mut [u64],
    out: &mut [u8],
) -> Turn
    ensures { served result slots.new out.new ≡ client_updated server slots.old client_id out.old }
{
    attend(server, client_id, slots, out, update_slot)
}

// A client sent away: 16, 23; an unknown id is nothing; 15, 14, or an ask to seal.
pub fn disconnect(server: NetcodeServer, client_id: u64, slots: &mut [u64], out: &mut [u8]) -> Turn
    ensures { served result slots.new out.new ≡ disconnected server slots.old client_id out.old }
{
    attend(server, client_id, slots, out, packets::end)
}
