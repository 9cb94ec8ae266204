// What a sealed packet does, by what it is for.
ghost use Rattle.std.specs.Prelude.{◌≡◌, false, ◌+◌, ◌<◌};
ghost use Rattle.places.specs.Layout.{Shaped};
ghost use Rattle.server.specs.Ready.{goal_misfits};
ghost use Rattle.turns.specs.Outcomes.{spent, state, came, half};
ghost use Rattle.seals.specs.Seals.{unsealed, packet_asked, connects, sends, sealed};

use crate::waits;
use addresses::Address;
use asks::Work;
use bodies::PacketType;
use refusal::{Refusal, Why};
use server::{Answer, Counters, Goal, HELD_BYTES, NetcodeServer, Stage};
use turns::Turn;

// 24; a slot that was being ended is empty, and no packet comes.
pub fn unsealed(server: NetcodeServer, goal: Goal) -> Turn
    ensures { result ≡ unsealed server goal }
{
    let refusal = Refusal(Why::NotSealed);
    match goal {
        Goal::Denied { .. } => turns::closed(server, Answer::Refused(refusal)),
        Goal::ChallengeToken { .. } => turns::closed(server, Answer::Refused(refusal)),
        Goal::ChallengePacket { .. } => turns::closed(server, Answer::Refused(refusal)),
        Goal::Connecting { .. } => turns::closed(server, Answer::Refused(refusal)),
        Goal::Sending { .. } => turns::closed(server, Answer::Refused(refusal)),
        Goal::Ending { client_id, addr } => turns::closed(
            server,
            Answer::ClientDisconnected {
                client_id,
                addr,
                end: 0,
                refusal: Some(refusal),
            },
        ),
    }
}

// The global counter past the sequence that was used.
fn spend(server: NetcodeServer, sequence: u64) -> NetcodeServer
    requires { sequence + 1 < 18446744073709551616 }
    ensures { result ≡ spent server sequence }
{
    let counters = server.counters;
    let past = Counters {
        global_sequence: sequence + 1,
        challenge_sequence: counters.challenge_sequence,
    };
    server::with_counters(server, past)
}

// The token is sealed: the ask to seal the packet around it, under the token's key.
fn ask_packet(
    server: NetcodeServer,
    held: &[u8; HELD_BYTES],
    out: usize,
    addr: Address,
    sequence: u64,
    end: usize,
) -> Turn
    ensures { result ≡ packet_asked server held.now out addr sequence end }
{
    let set = server.set;
    let open_ask = server.ask;
    let prefix_byte = prefix::encode_prefix(PacketType::Challenge.to_u8(), sequence);
    let start = 1 + prefix::sequence_bytes_required(sequence);
    let ask = asks::packet_ask(
        Work::Seal,
        server::held_send_key(held),
        sequence,
        prefix_byte,
        set.protocol_id,
        start,
        end,
    );
    let goal = Goal::ChallengePacket { addr };
    let stage = Stage::Seal {
        goal,
        sequence,
        end,
    };
    turns::asking(
        server,
        stage,
        open_ask.datagram,
        out,
        server::packet_ask(ask),
    )
}

// The first keep-alive is sealed: the slot takes the record.
fn connect(
    server: NetcodeServer,
    slots: &mut [u64],
    pending: &mut [u64],
    held: &[u8; HELD_BYTES],
    j: usize,
    i: usize,
    sequence: u64,
    end: usize,
) -> Turn
    requires { Shaped slots.old server.set.slots × Shaped pending.old server.set.pending × (j < server.set.pending) × (i < server.set.slots) × (sequence + 1 < 18446744073709551616) }
    ensures { came result slots.new pending.new ≡ connects (state server slots.old pending.old) held.now j i sequence end }
{
    let set = server.set;
    let m = set.pending;
    let now = server.current_time;
    let answer = Answer::ClientConnected {
        client_id: places::client_id(pending, m, j),
        slot: i,
        addr: places::address(pending, m, j),
        end,
    };
    waits::connect(slots, set.slots, i, pending, m, j, held, sequence, now);
    turns::closed(server, answer)
}

// A payload or a keep-alive of a slot went out.
fn send(server: NetcodeServer, slots: &mut [u64], i: usize, sequence: u64, end: usize) -> Turn
    requires { Shaped slots.old server.set.slots × (i < server.set.slots) × (sequence + 1 < 18446744073709551616) }
    ensures { half result slots.new ≡ sends server slots.old i sequence end }
{
    let set = server.set;
    let n = set.slots;
    let now = server.current_time;
    let addr = places::address(slots, n, i);
    waits::sent_under(slots, n, i, sequence, now);
    turns::closed(server, Answer::PacketToSend { addr, end })
}

pub fn sealed(
    server: NetcodeServer,
    slots: &mut [u64],
    pending: &mut [u64],
    held: &[u8; HELD_BYTES],
    out: usize,
    sequence: u64,
    end: usize,
    goal: Goal,
) -> Turn
    requires { Shaped slots.old server.set.slots × Shaped pending.old server.set.pending × (goal_misfits goal server.set.slots server.set.pending ≡ false) × (sequence + 1 < 18446744073709551616) }
    ensures { came result slots.new pending.new ≡ sealed (state server slots.old pending.old) held.now out sequence end goal }
{
    match goal {
        Goal::Denied { addr } => {
            turns::closed(spend(server, sequence), Answer::PacketToSend { addr, end })
        }
        Goal::ChallengeToken { addr } => ask_packet(server, held, out, addr, sequence, end),
        Goal::ChallengePacket { addr } => {
            let set = server.set;
            let now = server.current_time;
            waits::wait(pending, set.pending, held, addr, now);
            turns::closed(spend(server, sequence), Answer::PacketToSend { addr, end })
        }
        Goal::Connecting { place, slot } => {
            connect(server, slots, pending, held, place, slot, sequence, end)
        }
        Goal::Sending { slot } => send(server, slots, slot, sequence, end),
        Goal::Ending { client_id, addr } => turns::closed(
            server,
            Answer::ClientDisconnected {
                client_id,
                addr,
                end,
                refusal: None,
            },
        ),
    }
}
