// The server from set-up through its clock, as a person would follow it: what set-up refuses, how long a pending pump waits, what the
// queries say, what an open ask holds up. Every line says what came out of our functions, and whether it is what it should be.
#![tactic(auto)]

use addresses::Address;
use queries::Reply;
use records::Connection;
use refusal::Refusal;
use replay_protection::ReplayProtection;
use server::{NetcodeServer, OpenAsk, Stage, Step};
use std::io;
use std::io::{Print, Stdout};
use times::Time;
use upkeep::ServerConfig;

const SECOND: u64 = 1_000_000_000;

const MOST: u64 = 0xffff_ffff_ffff_ffff;

// 127.0.0.1:5000, and an address of kind 5.
const PUBLIC: [u64; 3] = [267_144, 16_777_343, 0];

const MALFORMED: [u64; 3] = [327_680, 0, 0];

fn say(to: Stdout, text: &[u8]) -> io::Result<()> {
    to.write_all(text)
}

// The lines that hold so far; no count here is near the end of its range.
fn plus(a: u32, b: u32) -> u32 {
    a.wrapping_add(b)
}

fn config(max_clients: usize, secs: u64, nanos: u64) -> ServerConfig {
    ServerConfig {
        current_time: Time { secs, nanos },
        max_clients,
        protocol_id: 7,
        secure: false,
        connect_key: [0; 32],
        challenge_key: [9; 32],
    }
}

// A pump's record: its last packet came at `received`, its token expires at 100 s.
fn pump(client_id: u64, received: Time) -> Connection {
    Connection {
        confirmed: false,
        client_id,
        send_key: [1; 32],
        receive_key: [2; 32],
        user_data: [3; 256],
        addr: Address {
            kind: 4,
            port: 5001,
            low: 16_777_343,
            high: 0,
        },
        last_packet_received_time: received,
        last_packet_send_time: received,
        timeout_seconds: 15,
        sequence: 0,
        expire_timestamp: 100,
        replay_protection: ReplayProtection::new(),
    }
}

// What set-up says to these slots, entries and public addresses, with two pending places.
fn set_up_with(
    limit: usize,
    secs: u64,
    nanos: u64,
    slots: &mut [u64],
    entries: &mut [u8],
    public: &[u64],
) -> u64 {
    let mut pending = [0u64; 620];
    let started = upkeep::set_up(
        config(limit, secs, nanos),
        slots,
        &mut pending,
        entries,
        public,
    );
    match started {
        Ok(_) => 0,
        Err(refusal) => u64::from(refusal.number()),
    }
}

// The same with two slots and two entries, with no slots, with a word too many, with no entries.
fn two_of_each(limit: usize, secs: u64, nanos: u64, public: &[u64; 3]) -> u64 {
    let mut slots = [0u64; 620];
    let mut entries = [0u8; 96];
    set_up_with(limit, secs, nanos, &mut slots, &mut entries, public)
}

fn no_slots() -> u64 {
    let mut slots = [0u64; 620];
    let mut entries = [0u8; 96];
    set_up_with(0, 0, 0, &mut slots[..0], &mut entries, &PUBLIC)
}

fn a_word_too_many() -> u64 {
    let mut slots = [0u64; 621];
    let mut entries = [0u8; 96];
    set_up_with(2, 0, 0, &mut slots, &mut entries, &PUBLIC)
}

fn no_entries() -> u64 {
    let mut slots = [0u64; 620];
    let mut entries = [0u8; 96];
    set_up_with(2, 0, 0, &mut slots, &mut entries[..0], &PUBLIC)
}

fn sets_up(to: Stdout) -> io::Result<u32> {
    say(
        to,
        b"1. Set-up: two slots, two pending places, two token entries, one public address.\n",
    )?;
    let a = print::number(
        to,
        b"   refused as, 0 for not:",
        two_of_each(2, 0, 0, &PUBLIC),
        0,
    )?;
    let b = print::number(to, b"   no slots, refused as:", no_slots(), 23)?;
    let c = print::number(
        to,
        b"   621 words for slots, refused as:",
        a_word_too_many(),
        23,
    )?;
    let d = print::number(to, b"   no token entries, refused as:", no_entries(), 23)?;
    let e = print::number(
        to,
        b"   a limit of three, refused as:",
        two_of_each(3, 0, 0, &PUBLIC),
        23,
    )?;
    let wrong = two_of_each(2, 0, 0, &MALFORMED);
    let f = print::number(to, b"   a public address of kind 5, refused as:", wrong, 19)?;
    let late = two_of_each(2, MOST, SECOND, &PUBLIC);
    let g = print::number(
        to,
        b"   a start at 2^64-1 s and 10^9 ns, refused as:",
        late,
        20,
    )?;
    Ok(plus(plus(plus(a, b), plus(c, d)), plus(plus(e, f), g)))
}

// A server with two slots and two pending places; what stood in the tables does not matter. Where set-up refuses, no line of its part
// holds.
fn started(
    slots: &mut [u64; 620],
    pending: &mut [u64; 620],
    secs: u64,
    nanos: u64,
) -> Result<NetcodeServer, Refusal> {
    let mut entries = [0xaau8; 96];
    upkeep::set_up(
        config(2, secs, nanos),
        slots,
        pending,
        &mut entries,
        &PUBLIC,
    )
}

// Pump 7 in place 1.
fn put_pump(table: &mut [u64; 620], received: Time) {
    records::fill(table, 2, 1, pump(7, received));
}

fn used(to: Stdout, name: &[u8], table: &[u64; 620], want: u64) -> io::Result<u32> {
    print::number(to, name, places::count_used(table, 2) as u64, want)
}

fn seconds(to: Stdout, server: NetcodeServer, want: u64) -> io::Result<u32> {
    let clock = queries::current_time(server);
    print::number(to, b"   the clock's seconds:", clock.secs, want)
}

fn nanoseconds(to: Stdout, server: NetcodeServer, want: u64) -> io::Result<u32> {
    let clock = queries::current_time(server);
    print::number(to, b"   and nanoseconds:", clock.nanos, want)
}

fn moved_on(server: NetcodeServer, pending: &mut [u64; 620], nanos: u64) -> NetcodeServer {
    let step = upkeep::update(server, pending, Time { secs: 0, nanos });
    step.server
}

fn waits(to: Stdout) -> io::Result<u32> {
    say(
        to,
        b"2. A pump waits; its token expires at 100 s. Set up at 99 s and 10^9 ns, over tables full of AA.\n",
    )?;
    let mut slots = [0xaaaa_aaaa_aaaa_aaaa; 620];
    let mut pending = [0xaaaa_aaaa_aaaa_aaaa; 620];
    let Ok(server) = started(&mut slots, &mut pending, 99, SECOND) else {
        return Ok(0);
    };
    let a = plus(seconds(to, server, 100)?, nanoseconds(to, server, 0)?);
    let b = used(to, b"   connected:", &slots, 0)?;
    let c = used(to, b"   pending:", &pending, 0)?;
    put_pump(
        &mut pending,
        Time {
            secs: 100,
            nanos: 0,
        },
    );
    let at_100 = moved_on(server, &mut pending, 0);
    let d = used(to, b"   at 100 s, pending:", &pending, 1)?;
    let later = moved_on(at_100, &mut pending, 999_999_999);
    let e = used(to, b"   at 100 s and 999,999,999 ns, pending:", &pending, 1)?;
    let at_101 = moved_on(later, &mut pending, 1);
    let f = used(to, b"   a nanosecond later, pending:", &pending, 0)?;
    let g = plus(seconds(to, at_101, 101)?, nanoseconds(to, at_101, 0)?);
    Ok(plus(plus(plus(a, b), plus(c, d)), plus(plus(e, f), g)))
}

// The first value of a reply: a count, seconds, or the first word of an address.
fn value(reply: Reply) -> u64 {
    let words = reply.words();
    words[2]
}

fn number(reply: Reply) -> u64 {
    u64::from(reply.number())
}

fn connected(server: NetcodeServer, slots: &[u64], client_id: u64) -> u64 {
    let reply = queries::is_client_connected(server, slots, client_id);
    u64::from(matches!(reply, Reply::Connected))
}

fn count(server: NetcodeServer, slots: &[u64; 620]) -> Reply {
    queries::connected_clients(server, slots)
}

fn seconds_ago(server: NetcodeServer, slots: &[u64; 620]) -> u64 {
    value(queries::time_since_last_received_packet(server, slots, 7))
}

fn lists(to: Stdout, server: NetcodeServer, slots: &[u64; 620]) -> io::Result<u32> {
    let mut list = [0u64; 2];
    let ids = queries::clients_id(server, slots, &mut list);
    let a = print::number(to, b"   ids listed:", value(ids), 1)?;
    let b = print::number(to, b"   the first:", list[0], 7)?;
    let places = queries::clients_slot(server, slots, &mut list);
    let c = print::number(to, b"   slots listed:", value(places), 1)?;
    let d = print::number(to, b"   the first:", list[0], 1)?;
    let short = queries::clients_id(server, slots, &mut list[..0]);
    let e = print::number(
        to,
        b"   into a list of none, refused as:",
        number(short),
        14,
    )?;
    Ok(plus(plus(plus(a, b), plus(c, d)), e))
}

fn asks_of_7(to: Stdout, server: NetcodeServer, slots: &[u64; 620]) -> io::Result<u32> {
    let mut data = [0u8; 256];
    let a = print::number(
        to,
        b"   7 is connected, 1 for yes:",
        connected(server, slots, 7),
        1,
    )?;
    let b = print::number(
        to,
        b"   8 is connected, 1 for yes:",
        connected(server, slots, 8),
        0,
    )?;
    let addr = value(queries::client_addr(server, slots, 7));
    let c = print::number(to, b"   7's port:", addr % 65536, 5001)?;
    let d = print::number(
        to,
        b"   its last packet came, seconds ago:",
        seconds_ago(server, slots),
        10,
    )?;
    let reply = queries::user_data(server, slots, 7, &mut data);
    let e = print::number(
        to,
        b"   its user data, refused as, 0 for not:",
        number(reply),
        0,
    )?;
    let f = print::number(to, b"   its last byte:", u64::from(data[255]), 3)?;
    Ok(plus(plus(plus(a, b), plus(c, d)), plus(e, f)))
}

fn answers(to: Stdout) -> io::Result<u32> {
    say(
        to,
        b"3. Pump 7 is connected in slot 1, its last packet came at 90 s; now it is 100 s.\n",
    )?;
    let mut slots = [0xaaaa_aaaa_aaaa_aaaa; 620];
    let mut pending = [0xaaaa_aaaa_aaaa_aaaa; 620];
    let Ok(server) = started(&mut slots, &mut pending, 100, 0) else {
        return Ok(0);
    };
    put_pump(&mut slots, Time { secs: 90, nanos: 0 });
    let a = print::number(to, b"   connected:", value(count(server, &slots)), 1)?;
    let b = plus(lists(to, server, &slots)?, asks_of_7(to, server, &slots)?);
    let short = [0u64; 310];
    let other = queries::connected_clients(server, &short);
    let c = print::number(
        to,
        b"   with a table of 310 words, refused as:",
        number(other),
        23,
    )?;
    put_pump(
        &mut slots,
        Time {
            secs: 200,
            nanos: 0,
        },
    );
    let d = print::number(
        to,
        b"   had it come at 200 s, seconds ago:",
        seconds_ago(server, &slots),
        0,
    )?;
    Ok(plus(plus(a, b), plus(c, d)))
}

// The number that refused a call, 0 for none.
fn told(step: Step) -> u64 {
    let answer = step.answer;
    u64::from(answer.number())
}

// What a second on the clock comes to.
fn a_second(server: NetcodeServer, pending: &mut [u64; 620]) -> u64 {
    told(upkeep::update(server, pending, Time { secs: 1, nanos: 0 }))
}

// An ask is open: the host is to open a challenge.
fn asking(server: NetcodeServer) -> NetcodeServer {
    server::with_ask(
        server,
        OpenAsk {
            stage: Stage::Challenge { place: 0, start: 9 },
            datagram: 333,
            out: 1400,
        },
    )
}

fn holds_up(to: Stdout) -> io::Result<u32> {
    say(to, b"4. While an ask is open, and the limit.\n")?;
    let mut slots = [0xaaaa_aaaa_aaaa_aaaa; 620];
    let mut pending = [0xaaaa_aaaa_aaaa_aaaa; 620];
    let Ok(server) = started(&mut slots, &mut pending, 100, 0) else {
        return Ok(0);
    };
    let busy = asking(server);
    let a = print::number(
        to,
        b"   update, refused as:",
        a_second(busy, &mut pending),
        16,
    )?;
    let limit = upkeep::set_max_clients(busy, 1);
    let b = print::number(to, b"   the limit, refused as:", told(limit), 16)?;
    let c = print::number(
        to,
        b"   a query, refused as, 0 for not:",
        number(count(busy, &slots)),
        0,
    )?;
    let high = upkeep::set_max_clients(server, 5000);
    let d = print::number(
        to,
        b"   none open, a limit of 5,000 is:",
        queries::max_clients(high.server) as u64,
        1024,
    )?;
    let low = upkeep::set_max_clients(server, 0);
    let e = print::number(
        to,
        b"   a limit of 0 is:",
        queries::max_clients(low.server) as u64,
        0,
    )?;
    Ok(plus(plus(plus(a, b), plus(c, d)), e))
}

fn main(rt: HostRuntime) -> io::Result<()> {
    let to = rt.stdout();
    let right = plus(
        plus(sets_up(to)?, waits(to)?),
        plus(answers(to)?, holds_up(to)?),
    );
    println!(to; "{right} of 35 lines hold")
}
