// A response whose challenge the host opened: the pending place is emptied; the sender is connected, or denied, or ignored.
ghost use Rattle.std.specs.Prelude.{◌≡◌, ◌+◌, ◌≤◌, ◌<◌, length};
ghost use Rattle.places.specs.Layout.{Shaped};
ghost use Rattle.places.specs.Finds.{find_free};
ghost use Rattle.turns.specs.Outcomes.{state, came, written};
ghost use Rattle.turns.specs.Packets.{prepared};
ghost use Rattle.opens.specs.Responses.{send_key_of, counter_of, connecting, by_free, responded};
ghost use Rattle.opens.specs.Opens.{from_response};

use bodies::ChallengeToken;
use refusal::{Refusal, Why};
use server::{Answer, Goal, HELD_BYTES, NetcodeServer, Stage};
use turns::{MOST, Turn};

// Slot i is to take the record of pending place j: a keep-alive is to be sealed, under its send key and its own counter.
fn ask_connecting(
    server: NetcodeServer,
    datagram: usize,
    pending: &[u64],
    held: &mut [u8; HELD_BYTES],
    out: &mut [u8],
    j: usize,
    i: usize,
    token: ChallengeToken,
) -> Turn
    requires { Shaped pending.now server.set.pending × (j < server.set.pending) × (i < 4096) × (1400 ≤ length out.old) }
    ensures { prepared result held.new out.new ≡ connecting server datagram held.old out.old j i (send_key_of server pending.now j) (counter_of server pending.now j) token }
{
    let set = server.set;
    let m = set.pending;
    let sequence = records::sequence(pending, m, j);
    if sequence == MOST {
        return turns::closed(server, Answer::Refused(Refusal(Why::CounterSpent)));
    }
    let len = out.len();
    let key = records::send_key(pending, m, j);
    let packet = turns::keep_alive(server.max_clients, i);
    let ask = turns::write_packet(out, packet, set.protocol_id, key, sequence);
    let user_data = token.user_data;
    server::hold_challenge(held, token.client_id, &user_data);
    let goal = Goal::Connecting { place: j, slot: i };
    let stage = Stage::Seal {
        goal,
        sequence,
        end: ask.end,
    };
    turns::asking(server, stage, datagram, len, ask)
}

// By the lowest free slot; where there is none, denied under the pending send key.
fn connect(
    server: NetcodeServer,
    datagram: usize,
    slots: &[u64],
    pending: &[u64],
    held: &mut [u8; HELD_BYTES],
    out: &mut [u8],
    j: usize,
    token: ChallengeToken,
) -> Turn
    requires { Shaped slots.now server.set.slots × Shaped pending.now server.set.pending × (j < server.set.pending) × (1400 ≤ length out.old) }
    ensures { prepared result held.new out.new ≡ by_free server datagram pending.now held.old out.old j token (find_free slots.now server.set.slots) }
{
    let set = server.set;
    let m = set.pending;
    match places::find_free(slots, set.slots) {
        Some(i) => ask_connecting(server, datagram, pending, held, out, j, i, token),
        None => {
            let key = records::send_key(pending, m, j);
            let addr = places::address(pending, m, j);
            turns::deny(server, datagram, out, key, addr)
        }
    }
}

// The pending place is emptied before anything else is looked at; nothing follows where the challenge's id is connected.
pub fn respond(
    server: NetcodeServer,
    j: usize,
    at: usize,
    slots: &[u64],
    pending: &mut [u64],
    held: &mut [u8; HELD_BYTES],
    out: &mut [u8],
    datagram: &[u8],
) -> Turn
    requires { Shaped slots.now server.set.slots × Shaped pending.old server.set.pending × (j < server.set.pending) × (at + 300 ≤ length datagram.now) × (1400 ≤ length out.old) }
    ensures { written (came result slots.now pending.new) held.new out.new ≡ from_response (state server slots.now pending.old) j (responded server slots.now pending.old held.old out.old j at datagram.now) }
{
    let set = server.set;
    let token = ChallengeToken::read(datagram, at);
    records::empty(pending, set.pending, j);
    match places::find_by_id(slots, set.slots, token.client_id) {
        Some(_) => turns::closed(server, Answer::Nothing),
        None => {
            let len = datagram.len();
            connect(server, len, slots, pending, held, out, j, token)
        }
    }
}
