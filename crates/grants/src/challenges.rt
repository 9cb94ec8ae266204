// The challenge: its counter raised, its packet written, and the ask to seal the token in it.
ghost use Rattle.std.specs.Prelude.{◌≡◌, ◌≤◌, length};
ghost use Rattle.turns.specs.Packets.{sealing, prepared};
ghost use Rattle.grants.specs.Tokens.{held_of, challenge_out, challenge_ask, challenge_sent, challenged};

use crate::PrivateConnectToken;
use addresses::Address;
use bodies::PacketType;
use refusal::{Refusal, Why};
use server::{Answer, Ask, Counters, Goal, HELD_BYTES, NetcodeServer, Stage};
use turns::{MOST, Turn};

// Head, token sequence and token in clear, from the output's start; the ask to seal the token there. The places of both tags stay.
fn write_challenge(
    out: &mut [u8],
    global_sequence: u64,
    challenge_sequence: u64,
    challenge_key: [u8; 32],
    client_id: u64,
    user_data: [u8; 256],
) -> Ask
    requires { 1400 ≤ length out.old }
    ensures { sealing result out.new ≡ sealing (challenge_ask global_sequence challenge_sequence challenge_key) (challenge_out out.old global_sequence challenge_sequence client_id user_data) }
{
    out[0] = prefix::encode_prefix(PacketType::Challenge.to_u8(), global_sequence);
    let count = prefix::write_sequence(out, 1, global_sequence);
    let start = 1 + count;
    serialize::write_u64(out, start, challenge_sequence);
    let encoded = encode::generate_challenge(
        out,
        start + 8,
        client_id,
        user_data,
        challenge_sequence,
        challenge_key,
    );
    let ask = encoded.ask;
    server::packet_ask(ask)
}

// The challenge counter has been raised; 15 for the global one.
fn send_challenge(
    server: NetcodeServer,
    datagram: usize,
    addr: Address,
    expire_timestamp: u64,
    token: PrivateConnectToken,
    held: &mut [u8; HELD_BYTES],
    out: &mut [u8],
) -> Turn
    requires { 1400 ≤ length out.old }
    ensures { prepared result held.new out.new ≡ challenge_sent server datagram addr expire_timestamp token held.old out.old }
{
    let set = server.set;
    let counters = server.counters;
    let sequence = counters.global_sequence;
    if sequence == MOST {
        return turns::closed(server, Answer::Refused(Refusal(Why::CounterSpent)));
    }
    let len = out.len();
    let challenge_key = set.challenge_key;
    let user_data = token.user_data;
    let ask = write_challenge(
        out,
        sequence,
        counters.challenge_sequence,
        challenge_key,
        token.client_id,
        user_data,
    );
    hold(held, expire_timestamp, token);
    let goal = Goal::ChallengeToken { addr };
    let stage = Stage::Seal {
        goal,
        sequence,
        end: ask.end + 16,
    };
    turns::asking(server, stage, datagram, len, ask)
}

// What the later steps need of the token.
fn hold(held: &mut [u8; HELD_BYTES], expire_timestamp: u64, token: PrivateConnectToken)
    ensures { held.new ≡ held_of expire_timestamp token }
{
    let send_key = token.server_to_client_key;
    let receive_key = token.client_to_server_key;
    let user_data = token.user_data;
    server::hold_token(
        held,
        token.client_id,
        expire_timestamp,
        token.timeout_seconds,
        &send_key,
        &receive_key,
        &user_data,
    );
}

// 15 for the challenge counter before it is raised; it stays raised whatever follows.
pub fn challenge(
    server: NetcodeServer,
    datagram: usize,
    addr: Address,
    expire_timestamp: u64,
    token: PrivateConnectToken,
    held: &mut [u8; HELD_BYTES],
    out: &mut [u8],
) -> Turn
    requires { 1400 ≤ length out.old }
    ensures { prepared result held.new out.new ≡ challenged server datagram addr expire_timestamp token held.old out.old }
{
    let counters = server.counters;
    if counters.challenge_sequence == MOST {
        return turns::closed(server, Answer::Refused(Refusal(Why::CounterSpent)));
    }
    let raised = Counters {
        global_sequence: counters.global_sequence,
        challenge_sequence: counters.challenge_sequence + 1,
    };
    send_challenge(
        server::with_counters(server, raised),
        datagram,
        addr,
        expire_timestamp,
        token,
        held,
        out,
    )
}
