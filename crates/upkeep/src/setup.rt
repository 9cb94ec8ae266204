// Set-up: the tables' lengths, the public addresses and the start time are tested, and every place is emptied.
ghost use Rattle.std.specs.Prelude.{◌≡◌};
ghost use Rattle.refusal.specs.Verdicts.{verdict};
ghost use Rattle.upkeep.specs.SetUps.{connect_key, fixed_as, begun, lengths_refusal, set_up_refusal, done, set_up};

use crate::ServerConfig;
use places::{NETCODE_MAX_CLIENTS, NETCODE_MAX_PENDING_CLIENTS};
use refusal::{Refusal, Why};
use server::{Counters, NetcodeServer, OpenAsk, SetUp, Stage};
use times::Time;

// The connect key of a server that is not secure is zeros, as in the Rust.
fn connect_key(config: ServerConfig) -> [u8; 32]
    ensures { result ≡ connect_key config }
{
    if config.secure {
        return config.connect_key;
    }
    [0; 32]
}

// The record of a server that begins.
fn begun(set: SetUp, max_clients: usize, current_time: Time) -> NetcodeServer
    ensures { result ≡ begun set max_clients current_time }
{
    NetcodeServer {
        set,
        max_clients,
        current_time,
        counters: Counters {
            global_sequence: 0,
            challenge_sequence: 0,
        },
        ask: OpenAsk {
            stage: Stage::Idle,
            datagram: 0,
            out: 0,
        },
    }
}

// What set-up fixes.
fn fixed(
    config: ServerConfig,
    slots: usize,
    pending: usize,
    entries: usize,
    addresses: usize,
) -> SetUp
    ensures { result ≡ fixed_as config slots pending entries addresses }
{
    let challenge_key = config.challenge_key;
    SetUp {
        protocol_id: config.protocol_id,
        connect_key: connect_key(config),
        challenge_key,
        secure: config.secure,
        slots,
        pending,
        entries,
        addresses,
    }
}

// 23 for a table of no places, of too many, or of no whole number of them, and for a limit over the slots.
fn lengths_refusal(
    max_clients: usize,
    slots: &[u64],
    pending: &[u64],
    entries: &[u8],
    public_addresses: &[u64],
) -> Result<(), Refusal>
    ensures { result ≡ verdict (lengths_refusal max_clients slots.now pending.now entries.now public_addresses.now) }
{
    places::places_refusal(slots, NETCODE_MAX_CLIENTS)?;
    places::places_refusal(pending, NETCODE_MAX_PENDING_CLIENTS)?;
    entries::entries_refusal(entries)?;
    if public_addresses.len() % 3 != 0 {
        return Err(Refusal(Why::TableUnfit));
    }
    if max_clients > places::count_places(slots) {
        return Err(Refusal(Why::TableUnfit));
    }
    Ok(())
}

// 23, then 19 for a malformed public address.
fn set_up_refusal(
    max_clients: usize,
    slots: &[u64],
    pending: &[u64],
    entries: &[u8],
    public_addresses: &[u64],
) -> Result<(), Refusal>
    ensures { result ≡ verdict (set_up_refusal max_clients slots.now pending.now entries.now public_addresses.now) }
{
    lengths_refusal(max_clients, slots, pending, entries, public_addresses)?;
    addresses::list_refusal(public_addresses)
}

// 23, 19, 20, and nothing is written then; else every place is marked empty, the counters are 0 and no ask is open.
pub fn set_up(
    config: ServerConfig,
    slots: &mut [u64],
    pending: &mut [u64],
    entries: &mut [u8],
    public_addresses: &[u64],
) -> Result<NetcodeServer, Refusal>
    ensures { done result slots.new pending.new entries.new ≡ set_up config slots.old pending.old entries.old public_addresses.now }
{
    set_up_refusal(
        config.max_clients,
        slots,
        pending,
        entries,
        public_addresses,
    )?;
    let clock = Time::zero().add(config.current_time)?;
    let n = places::count_places(slots);
    let m = places::count_places(pending);
    let k = entries::count_entries(entries);
    records::empty_all(slots, n);
    records::empty_all(pending, m);
    entries::empty_entries(entries, k);
    let set = fixed(config, n, m, k, public_addresses.len() / 3);
    Ok(begun(set, config.max_clients, clock))
}
