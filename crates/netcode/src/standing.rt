// Set-up, the clock and the limit.
ghost use Rattle.std.specs.Prelude.{◌≡◌, []};
ghost use Rattle.times.specs.Times.{time};
ghost use Rattle.upkeep.specs.SetUps.{blank, set_up};
ghost use Rattle.upkeep.specs.Clocks.{updated};
ghost use Rattle.upkeep.specs.Limits.{limited};
ghost use Rattle.netcode.specs.Laid.{record_in};
ghost use Rattle.netcode.specs.Calls.{yes?, config_of, started, started_as, stepped, stepped_as, updated_as};

use crate::{record, told};
use server::{Counters, NetcodeServer, OpenAsk, Stage};
use times::Time;
use upkeep::ServerConfig;

// A record of no places, with which every call that is lent a table of connections is 23.
fn placeless() -> NetcodeServer
    ensures { result ≡ blank }
{
    NetcodeServer {
        set: record::places_only(0, 0),
        max_clients: 0,
        current_time: Time::zero(),
        counters: Counters {
            global_sequence: 0,
            challenge_sequence: 0,
        },
        ask: OpenAsk {
            stage: Stage::Idle,
            datagram: 0,
            out: 0,
        },
    }
}

// 0 and the record, or a refusal and a record of no places.
pub fn netcode_set_up(
    words: &mut [u64; 34],
    secs: u64,
    nanos: u64,
    max_clients: usize,
    protocol_id: u64,
    secure: u8,
    connect_key: &[u8; 32],
    challenge_key: &[u8; 32],
    slots: &mut [u64],
    pending: &mut [u64],
    entries: &mut [u8],
    public_addresses: &[u64],
) -> u8
    ensures { started result words.new slots.new pending.new entries.new ≡ started_as words.old (set_up (config_of (time secs nanos) max_clients protocol_id (yes? secure) connect_key.now challenge_key.now) slots.old pending.old entries.old public_addresses.now) }
{
    let config = ServerConfig {
        current_time: Time { secs, nanos },
        max_clients,
        protocol_id,
        secure: secure != 0,
        connect_key: *connect_key,
        challenge_key: *challenge_key,
    };
    match upkeep::set_up(config, slots, pending, entries, public_addresses) {
        Ok(server) => {
            record::lay_whole(words, server);
            0
        }
        Err(refusal) => {
            record::lay_whole(words, placeless());
            refusal.number()
        }
    }
}

pub fn netcode_update(
    words: &mut [u64; 34],
    pending: &mut [u64],
    secs: u64,
    nanos: u64,
    answer: &mut [u64; 14],
)
    ensures { stepped words.new answer.new pending.new ≡ updated_as words.old answer.old (updated (record_in words.old) pending.old (time secs nanos)) }
{
    let step = upkeep::update(record::read(words), pending, Time { secs, nanos });
    told::lay_step(step, words, answer);
}

pub fn netcode_set_max_clients(words: &mut [u64; 34], max_clients: usize, answer: &mut [u64; 14])
    ensures { stepped words.new answer.new [] ≡ stepped_as words.old answer.old (limited (record_in words.old) max_clients) [] }
{
    let step = upkeep::set_max_clients(record::read(words), max_clients);
    told::lay_step(step, words, answer);
}
