// A pump's whole life, as a person would follow it: request, challenge, response, connected, payloads in and out of order, forged,
// repeated and old ones, disconnect. The host's answers are stored. Every line says what came out of our functions, and
// whether it is what it should be.
#![tactic(auto)]

use addresses::Address;
use grants::PrivateConnectToken;
use refusal::Refusal;
use server::NetcodeServer;
use std::io;
use std::io::{Print, Stdout};
use times::Time;
use turns::Turn;
use upkeep::ServerConfig;

// 127.0.0.1:5000 is ours, and the token's.
const PUBLIC: [u64; 3] = [267_144, 16_777_343, 0];

// A request's prefix, version, protocol 7 and expiry 100; a response's prefix, the challenge's sequence and the client's id.
const REQUEST: [u8; 30] =
    *b"\x00NETCODE 1.02\x00\x07\x00\x00\x00\x00\x00\x00\x00\x64\x00\x00\x00\x00\x00\x00\x00";

const RESPONSE: [u8; 17] = *b"\x03\x01\x00\x00\x00\x00\x00\x00\x00\x2a\x00\x00\x00\x00\x00\x00\x00";

// Payloads and disconnects with a sequence of two bytes.
const PAYLOAD: u8 = 0x25;

const DISCONNECT: u8 = 0x26;

// All that the host keeps between two calls, by value: a scene may go on from any of them.
#[derive(Clone, Copy)]
struct World {
    server: NetcodeServer,
    slots: [u64; 620],
    pending: [u64; 620],
    held: [u8; 340],
}

// What a call left, its answer in nine words, and the part that the host is asked to open or to seal.
#[derive(Clone, Copy)]
struct Said {
    world: World,
    words: [u64; 9],
    start: u64,
    end: u64,
}

// ---- a line for each answer

// The lines that hold so far; no count here is near the end of its range.
fn plus(a: u32, b: u32) -> u32 {
    a.wrapping_add(b)
}

// An answer of its case, and one of its words: of a refusal (case 0) its number (word 1), of a packet to send (3) its length (8), of a
// client that is connected (5) or gone (6) its id (2).
fn told(to: Stdout, name: &[u8], said: Said, case: u64, i: usize, want: u64) -> io::Result<u32> {
    let words = said.words;
    if words[0] != case {
        return print::number(to, name, words[0], case);
    }
    let value = if i < 9 { words[i] } else { 0 };
    print::number(to, name, value, want)
}

// An ask, case 2: the part that is to be opened or sealed.
fn asks(to: Stdout, name: &[u8], said: Said, start: u64, end: u64) -> io::Result<u32> {
    let words = said.words;
    if words[0] != 2 {
        return print::number(to, name, words[0], 2);
    }
    Ok(plus(
        print::number(to, name, said.start, start)?,
        print::number(to, b"                            up to byte", said.end, end)?,
    ))
}

// A payload, case 4: whose, and its bytes. Its text is the low byte of its sequence.
fn hands_out(to: Stdout, name: &[u8], said: Said, low: u8, high: u8) -> io::Result<u32> {
    let words = said.words;
    if words[0] != 4 {
        return print::number(to, name, words[0], 4);
    }
    let datagram = packet(PAYLOAD, low, high);
    let want = [low, low, low, low];
    Ok(plus(
        print::number(to, name, words[2], 42)?,
        print::bytes(
            to,
            b"                            its bytes:",
            bodies::payload(&datagram, words[7] as usize, words[8] as usize),
            &want,
        )?,
    ))
}

// How many wait, and how many are connected.
fn counts(to: Stdout, world: World, waiting: u64, connected: u64) -> io::Result<u32> {
    let pending = world.pending;
    let slots = world.slots;
    Ok(plus(
        print::number(
            to,
            b"   pending:",
            places::count_used(&pending, 2) as u64,
            waiting,
        )?,
        print::number(
            to,
            b"   connected:",
            places::count_used(&slots, 2) as u64,
            connected,
        )?,
    ))
}

// ---- the pump's datagrams. What is sealed stands here as the host leaves it once it has opened it in place: text, and a tag that
// nobody reads any more.

// A packet of a type, with a sequence of two bytes, low and high, and the low one four times for text.
fn packet(kind: u8, low: u8, high: u8) -> [u8; 23] {
    let mut datagram = [0u8; 23];
    datagram[0] = kind;
    datagram[1] = low;
    datagram[2] = high;
    datagram[3] = low;
    datagram[4] = low;
    datagram[5] = low;
    datagram[6] = low;
    datagram
}

// ---- the calls

fn left_by(turn: Turn, slots: [u64; 620], pending: [u64; 620], held: [u8; 340]) -> Said {
    let answer = turn.answer;
    let words = answer.words();
    let ask = turn.ask;
    let server = turn.server;
    let world = World {
        server,
        slots,
        pending,
        held,
    };
    Said {
        world,
        words,
        start: ask.start as u64,
        end: ask.end as u64,
    }
}

// Set up at 10 s, over tables full of AA.
fn started() -> Result<World, Refusal> {
    let mut slots = [0xaaaa_aaaa_aaaa_aaaa; 620];
    let mut pending = [0xaaaa_aaaa_aaaa_aaaa; 620];
    let mut entries = [0xaau8; 96];
    let config = ServerConfig {
        current_time: Time { secs: 10, nanos: 0 },
        max_clients: 2,
        protocol_id: 7,
        secure: true,
        connect_key: [3; 32],
        challenge_key: [4; 32],
    };
    let server = upkeep::set_up(config, &mut slots, &mut pending, &mut entries, &PUBLIC)?;
    Ok(World {
        server,
        slots,
        pending,
        held: [0xaa; 340],
    })
}

// A datagram from 127.0.0.1 and a port.
fn hear(world: World, port: u16, datagram: &[u8]) -> Said {
    let addr = Address {
        kind: 4,
        port,
        low: 16_777_343,
        high: 0,
    };
    let server = world.server;
    let mut slots = world.slots;
    let mut pending = world.pending;
    let out = [0u8; 1400];
    let turn = arrivals::process_packet(server, addr, &mut slots, &mut pending, &out, datagram);
    let held = world.held;
    left_by(turn, slots, pending, held)
}

fn open(world: World, granted: bool, datagram: &[u8]) -> Said {
    let server = world.server;
    let mut slots = world.slots;
    let mut pending = world.pending;
    let mut held = world.held;
    let mut out = [0u8; 1400];
    let turn = opens::answer_open(
        server,
        granted,
        &mut slots,
        &mut pending,
        &mut held,
        &mut out,
        datagram,
    );
    left_by(turn, slots, pending, held)
}

// What the host read in the private token: client 42, a timeout of 15 s, two keys, user data of sevens, and its addresses.
fn grant(world: World) -> Said {
    let token = PrivateConnectToken {
        client_id: 42,
        timeout_seconds: 15,
        server_to_client_key: [1; 32],
        client_to_server_key: [2; 32],
        user_data: [7; 256],
    };
    let server = world.server;
    let slots = world.slots;
    let mut pending = world.pending;
    let mut entries = [0u8; 96];
    let mut held = world.held;
    let datagram = [0u8; 1078];
    let mut out = [0u8; 1400];
    let turn = grants::answer_token(
        server,
        true,
        token,
        &PUBLIC,
        &slots,
        &mut pending,
        &mut entries,
        &PUBLIC,
        &mut held,
        &mut out,
        &datagram,
    );
    left_by(turn, slots, pending, held)
}

fn seal(world: World, granted: bool) -> Said {
    let server = world.server;
    let mut slots = world.slots;
    let mut pending = world.pending;
    let held = world.held;
    let out = [0u8; 1400];
    let turn = seals::answer_seal(server, granted, &mut slots, &mut pending, &held, &out);
    left_by(turn, slots, pending, held)
}

// ---- the life: each scene goes on where the one before it ended

fn sends(world: World, port: u16, kind: u8, low: u8, high: u8) -> Said {
    let datagram = packet(kind, low, high);
    hear(world, port, &datagram)
}

// Sent from port 5001, and the host's answer to the ask to open it.
fn opened(world: World, granted: bool, kind: u8, low: u8, high: u8) -> Said {
    let asked = sends(world, 5001, kind, low, high);
    let datagram = packet(kind, low, high);
    open(asked.world, granted, &datagram)
}

// The pump goes, and what it sends then comes from nobody.
fn goes(to: Stdout, world: World) -> io::Result<u32> {
    to.write_all(b"4. Disconnect.\n")?;
    let gone = opened(world, true, DISCONNECT, 46, 1);
    let a = told(to, b"   302, a disconnect: gone is client", gone, 6, 2, 42)?;
    let left = gone.world;
    let b = counts(to, left, 0, 0)?;
    let c = told(
        to,
        b"   303, refused as",
        sends(left, 5001, PAYLOAD, 47, 1),
        0,
        1,
        3,
    )?;
    Ok(plus(plus(a, b), c))
}

// Far ahead, too far behind, and just within the window.
fn ages(to: Stdout, world: World) -> io::Result<u32> {
    let ahead = opened(world, true, PAYLOAD, 44, 1);
    let a = hands_out(to, b"   300, from client", ahead, 44, 1)?;
    let old = sends(ahead.world, 5001, PAYLOAD, 44, 0);
    let b = told(to, b"   44, refused as", old, 0, 1, 6)?;
    let within = opened(ahead.world, true, PAYLOAD, 45, 0);
    let c = hands_out(to, b"   45, from client", within, 45, 0)?;
    Ok(plus(plus(a, b), plus(c, goes(to, within.world)?)))
}

// A forgery does not shut out the packet whose sequence it took.
fn forged(to: Stdout, world: World) -> io::Result<u32> {
    let no = opened(world, false, PAYLOAD, 3, 0);
    let a = told(to, b"   3, forged: the host says no, as", no, 0, 1, 8)?;
    let real = opened(no.world, true, PAYLOAD, 3, 0);
    let b = hands_out(to, b"   3 itself, from client", real, 3, 0)?;
    Ok(plus(plus(a, b), ages(to, real.world)?))
}

// In and out of order, repeated, from elsewhere.
fn reads(to: Stdout, world: World) -> io::Result<u32> {
    to.write_all(b"3. Payloads.\n")?;
    let second = opened(world, true, PAYLOAD, 2, 0);
    let a = hands_out(to, b"   sequence 2, from client", second, 2, 0)?;
    let first = opened(second.world, true, PAYLOAD, 1, 0);
    let b = hands_out(to, b"   then 1, from client", first, 1, 0)?;
    let left = first.world;
    let c = told(
        to,
        b"   2 again, refused as",
        sends(left, 5001, PAYLOAD, 2, 0),
        0,
        1,
        6,
    )?;
    let d = told(
        to,
        b"   3 from port 5002, refused as",
        sends(left, 5002, PAYLOAD, 3, 0),
        0,
        1,
        3,
    )?;
    Ok(plus(plus(plus(a, b), plus(c, d)), forged(to, left)?))
}

// The keep-alive is sealed: the pump is connected.
fn connects(to: Stdout, world: World) -> io::Result<u32> {
    let done = seal(world, true);
    let a = told(to, b"   yes: connected is client", done, 5, 2, 42)?;
    let b = told(to, b"                            in slot", done, 5, 3, 0)?;
    let left = done.world;
    let c = counts(to, left, 0, 1)?;
    Ok(plus(plus(a, b), plus(c, reads(to, left)?)))
}

// The response, under sequence 0: the challenge's sequence, 1, and its token: client 42, user data of nines. Two opens, then a keep-alive is to be
// sealed; until then the pump neither waits nor is connected.
fn responds(to: Stdout, world: World) -> io::Result<u32> {
    to.write_all(b"2. The response.\n")?;
    let mut datagram = [9u8; 325];
    serialize::copy(&mut datagram, 0, &RESPONSE, 0, 17);
    let asked = hear(world, 5001, &datagram);
    let a = asks(to, b"   the host is to open from byte", asked, 1, 325)?;
    let proof = open(asked.world, true, &datagram);
    let b = asks(to, b"   yes: and its challenge, from byte", proof, 9, 309)?;
    let sealing = open(proof.world, true, &datagram);
    let c = asks(
        to,
        b"   yes: a keep-alive is to be sealed from byte",
        sealing,
        1,
        25,
    )?;
    let left = sealing.world;
    let d = counts(to, left, 0, 0)?;
    Ok(plus(plus(a, b), plus(plus(c, d), connects(to, left)?)))
}

// The challenge: its token is to be sealed, then the packet around it; then the pump waits.
fn challenges(to: Stdout, token: Said) -> io::Result<u32> {
    let a = asks(
        to,
        b"   yes, for us: a token is to be sealed from byte",
        token,
        9,
        309,
    )?;
    let world = token.world;
    let b = told(
        to,
        b"   the host can't seal it, as",
        seal(world, false),
        0,
        1,
        24,
    )?;
    let whole = seal(world, true);
    let c = asks(
        to,
        b"   yes: the packet around it, from byte",
        whole,
        1,
        325,
    )?;
    let sent = seal(whole.world, true);
    let d = told(to, b"   yes: a challenge goes out, bytes:", sent, 3, 8, 325)?;
    let left = sent.world;
    let e = counts(to, left, 1, 0)?;
    Ok(plus(plus(plus(a, b), plus(c, d)), plus(e, responds(to, left)?)))
}

// A request for protocol 7, with version 1.02, whose token expires at 100 s, nonce and private data of sixes; and what its open ask holds up.
fn requests(to: Stdout, world: World) -> io::Result<u32> {
    to.write_all(b"1. Set up at 10 s: two slots, two pending places. A request from port 5001.\n")?;
    let mut datagram = [6u8; 1078];
    serialize::copy(&mut datagram, 0, &REQUEST, 0, 30);
    let asked = hear(world, 5001, &datagram);
    let a = asks(to, b"   the host is to open from byte", asked, 54, 1078)?;
    let left = asked.world;
    let again = hear(left, 5002, &datagram);
    let b = told(to, b"   another datagram meanwhile, as", again, 0, 1, 16)?;
    let c = told(
        to,
        b"   an answer about a seal, as",
        seal(left, true),
        0,
        1,
        18,
    )?;
    Ok(plus(plus(a, b), plus(c, challenges(to, grant(left))?)))
}

fn main(rt: HostRuntime) -> io::Result<()> {
    let to = rt.stdout();
    // Where set-up refuses, no line holds.
    let right = match started() {
        Ok(world) => requests(to, world)?,
        Err(_) => 0,
    };
    println!(to; "{right} of 42 lines hold")
}
