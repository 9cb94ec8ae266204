// Connected pumps, kept alive, written to, given up and sent away, as a person would follow it. The host's answers are stored. Every
// line says what came out of our functions, and whether it is what it should be.
#![tactic(auto)]

use addresses::Address;
use records::Connection;
use refusal::Refusal;
use replay_protection::ReplayProtection;
use server::NetcodeServer;
use std::io;
use std::io::{Print, Stdout};
use times::Time;
use turns::Turn;
use upkeep::ServerConfig;

const MOST: u64 = 0xffff_ffff_ffff_ffff;

// The 32 bits of a timeout of -1.
const MINUS_ONE: u32 = 4294967295;

// All that the host keeps between two calls, by value: a scene may go on from any of them.
#[derive(Clone, Copy)]
struct World {
    server: NetcodeServer,
    slots: [u64; 930],
    pending: [u64; 310],
}

// What a call left, its answer in nine words, the part that the host is asked to seal, and the output's first nine bytes.
#[derive(Clone, Copy)]
struct Said {
    world: World,
    words: [u64; 9],
    start: u64,
    end: u64,
    head: [u8; 9],
}

// ---- a line for each answer

fn say(to: Stdout, text: &[u8]) -> io::Result<()> {
    to.write_all(text)
}

// The lines that hold so far; no count here is near the end of its range.
fn plus(a: u32, b: u32) -> u32 {
    a.wrapping_add(b)
}

// An answer of its case, and one of its words: of a refusal (case 0) its number (word 1), of nothing (1) a 0, of a packet to send (3) its
// length (8), of a client that is gone (6) its id (2), the packet's length (8) or why there is none (1).
fn told(to: Stdout, name: &[u8], said: Said, case: u64, i: usize, want: u64) -> io::Result<u32> {
    let words = said.words;
    if words[0] != case {
        return print::number(to, name, words[0], case);
    }
    let value = if i < 9 { words[i] } else { 0 };
    print::number(to, name, value, want)
}

fn nothing(to: Stdout, name: &[u8], said: Said) -> io::Result<u32> {
    told(to, name, said, 1, 1, 0)
}

fn refused(to: Stdout, name: &[u8], said: Said, number: u64) -> io::Result<u32> {
    told(to, name, said, 0, 1, number)
}

// An ask, case 2: the part that is to be sealed.
fn asks(to: Stdout, name: &[u8], said: Said, start: u64, end: u64) -> io::Result<u32> {
    let words = said.words;
    if words[0] != 2 {
        return print::number(to, name, words[0], 2);
    }
    Ok(plus(
        print::number(to, name, said.start, start)?,
        print::number(to, b"                            up to byte", said.end, end)?,
    ))
}

fn connected(to: Stdout, world: World, want: u64) -> io::Result<u32> {
    let slots = world.slots;
    print::number(
        to,
        b"   connected:",
        places::count_used(&slots, 3) as u64,
        want,
    )
}

// The counter and the sent time of slot 0; its seconds are 10.
fn stands(to: Stdout, world: World, sequence: u64, nanos: u64) -> io::Result<u32> {
    let slots = world.slots;
    let sent = records::sent_time(&slots, 3, 0);
    Ok(plus(
        print::number(
            to,
            b"   the slot's next sequence:",
            records::sequence(&slots, 3, 0),
            sequence,
        )?,
        print::number(to, b"   last sent to at 10 s and ns:", sent.nanos, nanos)?,
    ))
}

// ---- the pumps

// A pump at a port, from which a packet came at 10 s and to which one went at 10 s.
fn pump(client_id: u64, port: u16, timeout_seconds: u32) -> Connection {
    Connection {
        confirmed: true,
        client_id,
        send_key: [1; 32],
        receive_key: [2; 32],
        user_data: [3; 256],
        addr: Address {
            kind: 4,
            port,
            low: 16_777_343,
            high: 0,
        },
        last_packet_received_time: Time { secs: 10, nanos: 0 },
        last_packet_send_time: Time { secs: 10, nanos: 0 },
        timeout_seconds,
        sequence: 0,
        expire_timestamp: 100,
        replay_protection: ReplayProtection::new(),
    }
}

// Set up at 10 s with three slots: clients 42, 43 and 44, with timeouts of 15, -1 and 0 seconds.
fn started() -> Result<World, Refusal> {
    let mut slots = [0xaaaa_aaaa_aaaa_aaaa; 930];
    let mut pending = [0u64; 310];
    let mut entries = [0u8; 48];
    let public: [u64; 3] = [267_144, 16_777_343, 0];
    let config = ServerConfig {
        current_time: Time { secs: 10, nanos: 0 },
        max_clients: 3,
        protocol_id: 7,
        secure: false,
        connect_key: [3; 32],
        challenge_key: [4; 32],
    };
    let server = upkeep::set_up(config, &mut slots, &mut pending, &mut entries, &public)?;
    records::fill(&mut slots, 3, 0, pump(42, 5001, 15));
    records::fill(&mut slots, 3, 1, pump(43, 5002, MINUS_ONE));
    records::fill(&mut slots, 3, 2, pump(44, 5003, 0));
    Ok(World {
        server,
        slots,
        pending,
    })
}

// The counter of slot 0 at its end.
fn spent(world: World) -> World {
    let server = world.server;
    let mut slots = world.slots;
    records::set_sequence(&mut slots, 3, 0, MOST);
    let pending = world.pending;
    World {
        server,
        slots,
        pending,
    }
}

// ---- the calls

fn left_by(turn: Turn, slots: [u64; 930], pending: [u64; 310], head: [u8; 9]) -> Said {
    let answer = turn.answer;
    let words = answer.words();
    let ask = turn.ask;
    let server = turn.server;
    let world = World {
        server,
        slots,
        pending,
    };
    Said {
        world,
        words,
        start: ask.start as u64,
        end: ask.end as u64,
        head,
    }
}

fn head_of(out: [u8; 1400]) -> [u8; 9] {
    [
        out[0], out[1], out[2], out[3], out[4], out[5], out[6], out[7], out[8],
    ]
}

// The clock moved on.
fn later(world: World, secs: u64, nanos: u64) -> World {
    let server = world.server;
    let mut pending = world.pending;
    let step = upkeep::update(server, &mut pending, Time { secs, nanos });
    let moved = step.server;
    let slots = world.slots;
    World {
        server: moved,
        slots,
        pending,
    }
}

fn update(world: World, client_id: u64) -> Said {
    let server = world.server;
    let mut slots = world.slots;
    let mut out = [0u8; 1400];
    let turn = sending::update_client(server, client_id, &mut slots, &mut out);
    let pending = world.pending;
    left_by(turn, slots, pending, head_of(out))
}

// The same with an output of 17 bytes.
fn update_in_17(world: World, client_id: u64) -> Said {
    let server = world.server;
    let mut slots = world.slots;
    let mut out = [0u8; 17];
    let turn = sending::update_client(server, client_id, &mut slots, &mut out);
    let pending = world.pending;
    left_by(turn, slots, pending, [0; 9])
}

fn disconnect(world: World, client_id: u64) -> Said {
    let server = world.server;
    let mut slots = world.slots;
    let mut out = [0u8; 1400];
    let turn = sending::disconnect(server, client_id, &mut slots, &mut out);
    let pending = world.pending;
    left_by(turn, slots, pending, head_of(out))
}

fn write_to(world: World, client_id: u64, payload: &[u8]) -> Said {
    let server = world.server;
    let slots = world.slots;
    let mut out = [0u8; 1400];
    let turn = sending::generate_payload_packet(server, client_id, payload, &slots, &mut out);
    let pending = world.pending;
    left_by(turn, slots, pending, head_of(out))
}

// The same with an output of 17 bytes.
fn write_in_17(world: World, client_id: u64, payload: &[u8]) -> Said {
    let server = world.server;
    let slots = world.slots;
    let mut out = [0u8; 17];
    let turn = sending::generate_payload_packet(server, client_id, payload, &slots, &mut out);
    let pending = world.pending;
    left_by(turn, slots, pending, [0; 9])
}

fn seal(world: World, granted: bool) -> Said {
    let server = world.server;
    let mut slots = world.slots;
    let mut pending = world.pending;
    let held = [0u8; 340];
    let out = [0u8; 1400];
    let turn = seals::answer_seal(server, granted, &mut slots, &mut pending, &held, &out);
    left_by(turn, slots, pending, [0; 9])
}

// ---- the scenes

// Sent away by name.
fn sent_away(to: Stdout, world: World) -> io::Result<u32> {
    say(to, b"4. Client 44 is sent away.\n")?;
    let asked = disconnect(world, 44);
    let a = asks(
        to,
        b"   a disconnect is to be sealed from byte",
        asked,
        1,
        17,
    )?;
    let b = connected(to, asked.world, 1)?;
    let gone = seal(asked.world, true);
    let c = told(to, b"   yes: gone is client", gone, 6, 2, 44)?;
    let d = nothing(to, b"   once more, nothing:", disconnect(gone.world, 44))?;
    Ok(plus(plus(a, b), plus(c, d)))
}

// A timeout of 0 or below is none.
fn never(to: Stdout, world: World) -> io::Result<u32> {
    let year = later(world, 31_536_000, 0);
    let a = asks(
        to,
        b"   a year on, timeout -1: a keep-alive from byte",
        update(year, 43),
        1,
        25,
    )?;
    let b = asks(
        to,
        b"   a year on, timeout 0: a keep-alive from byte",
        update(year, 44),
        1,
        25,
    )?;
    Ok(plus(plus(a, b), sent_away(to, year)?))
}

// Overdue: the slot is empty before the packet is sealed, and stays so.
fn overdue(to: Stdout, world: World) -> io::Result<u32> {
    let short = update_in_17(world, 42);
    let a = refused(
        to,
        b"   one nanosecond later, output of 17 bytes, as",
        short,
        14,
    )?;
    let b = connected(to, short.world, 3)?;
    let asked = update(world, 42);
    let c = asks(to, b"   with room: a disconnect from byte", asked, 2, 18)?;
    let d = connected(to, asked.world, 2)?;
    let no = seal(asked.world, false);
    let e = told(to, b"   no: gone without a packet, as", no, 6, 1, 24)?;
    let gone = seal(asked.world, true);
    let f = told(to, b"   yes: gone, bytes to send", gone, 6, 8, 18)?;
    let g = nothing(to, b"   client 42 again, nothing:", update(gone.world, 42))?;
    let all = plus(plus(plus(a, b), plus(c, d)), plus(plus(e, f), g));
    Ok(plus(all, never(to, gone.world)?))
}

// With a spent counter a payload and a keep-alive are refused, and an end has no packet.
fn at_the_end(to: Stdout, world: World) -> io::Result<u32> {
    let text = [7u8; 4];
    let late = spent(world);
    let a = refused(
        to,
        b"   counter 2^64-1: a payload, as",
        write_to(late, 42, &text),
        15,
    )?;
    let kept = update(late, 42);
    let b = refused(to, b"   a keep-alive, as", kept, 15)?;
    let c = connected(to, kept.world, 3)?;
    let gone = update_in_17(later(late, 0, 1), 42);
    let d = told(
        to,
        b"   overdue, output of 17 bytes: gone without a packet, as",
        gone,
        6,
        1,
        15,
    )?;
    let e = connected(to, gone.world, 2)?;
    Ok(plus(plus(plus(a, b), plus(c, d)), e))
}

// At 25 s a pump heard of at 10 s, with a timeout of 15 s, is still there.
fn stays(to: Stdout, world: World) -> io::Result<u32> {
    say(to, b"3. Nothing came since 10 s. Timeout 15 s; now 25 s.\n")?;
    let limit = later(world, 14, 750_000_000);
    let asked = update(limit, 42);
    let a = asks(to, b"   a keep-alive from byte", asked, 2, 26)?;
    let b = connected(to, asked.world, 3)?;
    let sent = seal(asked.world, true);
    let c = told(to, b"   yes: bytes to send", sent, 3, 8, 26)?;
    let d = at_the_end(to, limit)?;
    Ok(plus(
        plus(plus(a, b), plus(c, d)),
        overdue(to, later(sent.world, 0, 1))?,
    ))
}

// A payload, and what is refused.
fn writes(to: Stdout, world: World) -> io::Result<u32> {
    say(to, b"2. A payload for client 42.\n")?;
    let text = [7u8; 4];
    let long = [7u8; 1301];
    let a = refused(to, b"   1,301 bytes, as", write_to(world, 42, &long), 21)?;
    let b = refused(to, b"   for client 7, as", write_to(world, 7, &text), 22)?;
    let c = refused(
        to,
        b"   into 17 bytes, as",
        write_in_17(world, 42, &text),
        14,
    )?;
    let asked = write_to(world, 42, &text);
    let d = asks(to, b"   four bytes: to be sealed from byte", asked, 2, 22)?;
    let e = print::bytes(
        to,
        b"   prefix, sequence, text:",
        &asked.head,
        &[0x15, 1, 7, 7, 7, 7, 0, 0, 0],
    )?;
    let sent = seal(asked.world, true);
    let f = told(to, b"   yes: bytes to send", sent, 3, 8, 22)?;
    let g = stands(to, sent.world, 2, 250_000_000)?;
    let all = plus(plus(plus(a, b), plus(c, d)), plus(plus(e, f), g));
    Ok(plus(all, stays(to, sent.world)?))
}

// A keep-alive changes its slot once the host has sealed it, and not before.
fn sealed(to: Stdout, world: World) -> io::Result<u32> {
    let a = refused(to, b"   meanwhile, as", update(world, 43), 16)?;
    let no = seal(world, false);
    let b = refused(to, b"   the host can't seal it, as", no, 24)?;
    let c = stands(to, no.world, 0, 0)?;
    let sent = seal(world, true);
    let d = told(to, b"   yes: bytes to send", sent, 3, 8, 25)?;
    let e = stands(to, sent.world, 1, 250_000_000)?;
    Ok(plus(
        plus(plus(a, b), plus(c, d)),
        plus(e, writes(to, sent.world)?),
    ))
}

// Due 250 ms after the last packet.
fn alive(to: Stdout, world: World) -> io::Result<u32> {
    say(
        to,
        b"1. Set up at 10 s: three pumps, heard of and sent to at 10 s.\n",
    )?;
    let early = later(world, 0, 249_999_999);
    let a = nothing(
        to,
        b"   a nanosecond before 250 ms, nothing:",
        update(early, 42),
    )?;
    let due = update(later(early, 0, 1), 42);
    let b = asks(
        to,
        b"   at 250 ms a keep-alive is to be sealed from byte",
        due,
        1,
        25,
    )?;
    let c = print::bytes(
        to,
        b"   slot 0 of three:",
        &due.head,
        &[4, 0, 0, 0, 0, 3, 0, 0, 0],
    )?;
    Ok(plus(plus(a, plus(b, c)), sealed(to, due.world)?))
}

fn main(rt: HostRuntime) -> io::Result<()> {
    let to = rt.stdout();
    let right = match started() {
        Ok(world) => alive(to, world)?,
        Err(refusal) => print::number(to, b"0. Set up, as", u64::from(refusal.number()), 0)?,
    };
    println!(to; "{right} of 46 lines hold")
}
