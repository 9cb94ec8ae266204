// The server's record in 34 words. 0 to 3: places in slots, pending and entries, public addresses. 4: secure. 5: protocol. 6: client
// limit. 7, 8: clock. 9, 10: global and challenge sequence. 11: which step the open ask goes on with, 0 for none. 12, 13: lengths of
// its datagram and output. 14 to 17 and 18 to 21: connect and challenge key, eight bytes to a word. 22 to 33: the rest of that step.
ghost use Rattle.std.specs.Prelude.{◌≡◌, ◌+◌, ◌≤◌};
ghost use Rattle.refusal.specs.Verdicts.{verdict};
ghost use Rattle.serialize.specs.Runs.{splice};
ghost use Rattle.serialize.specs.Le.{words as packed};
ghost use Rattle.records.specs.Records.{bytes_at};
ghost use Rattle.server.specs.Ready.{both_refusal};
ghost use Rattle.netcode.specs.Laid.{set_up_in, places_only, record_in, record_words, whole_words};

use crate::stages;
use refusal::Refusal;
use server::{Counters, NetcodeServer, OpenAsk, SetUp};
use times::Time;

fn key_at(words: &[u64; 34], at: usize) -> [u8; 32]
    requires { at + 4 ≤ 34 }
    ensures { result ≡ bytes_at words.now at 4 }
{
    let mut key = [0u8; 32];
    serialize::unpack_words(&mut key, 0, words, at, 4);
    key
}

fn set_up_in(words: &[u64; 34]) -> SetUp
    ensures { result ≡ set_up_in words.now }
{
    SetUp {
        protocol_id: words[5],
        connect_key: key_at(words, 14),
        challenge_key: key_at(words, 18),
        secure: words[4] != 0,
        slots: words[0] as usize,
        pending: words[1] as usize,
        entries: words[2] as usize,
        addresses: words[3] as usize,
    }
}

pub fn read(words: &[u64; 34]) -> NetcodeServer
    ensures { result ≡ record_in words.now }
{
    NetcodeServer {
        set: set_up_in(words),
        max_clients: words[6] as usize,
        current_time: Time {
            secs: words[7],
            nanos: words[8],
        },
        counters: Counters {
            global_sequence: words[9],
            challenge_sequence: words[10],
        },
        ask: OpenAsk {
            stage: stages::stage_in(words),
            datagram: words[12] as usize,
            out: words[13] as usize,
        },
    }
}

// So many slots and pending places, and nothing else that set-up fixed.
pub fn places_only(slots: usize, pending: usize) -> SetUp
    ensures { result ≡ places_only slots pending }
{
    SetUp {
        protocol_id: 0,
        connect_key: [0; 32],
        challenge_key: [0; 32],
        secure: false,
        slots,
        pending,
        entries: 0,
        addresses: 0,
    }
}

// 23 by the lengths of the two tables: of what set-up fixed, only the numbers of places count.
pub fn tables_refusal(words: &[u64; 34], slots: usize, pending: usize) -> Result<(), Refusal>
    ensures { result ≡ verdict (both_refusal (set_up_in words.now) slots pending) }
{
    let set = places_only(words[0] as usize, words[1] as usize);
    server::both_tables_refusal(set, slots, pending)
}

// What calls change of the record; what set-up fixed stays as it stands.
pub fn lay(words: &mut [u64; 34], server: NetcodeServer)
    ensures { words.new ≡ record_words words.old server }
{
    let time = server.current_time;
    let counters = server.counters;
    let ask = server.ask;
    let step = ask.stage;
    let stage = stages::stage_words(step);
    let moving = [
        server.max_clients as u64,
        time.secs,
        time.nanos,
        counters.global_sequence,
        counters.challenge_sequence,
        stage[0],
        ask.datagram as u64,
        ask.out as u64,
    ];
    serialize::copy(words, 6, &moving, 0, 8);
    serialize::copy(words, 22, &stage, 1, 12);
}

// Four words of a key.
fn lay_key(words: &mut [u64; 34], at: usize, key: &[u8; 32])
    requires { at + 4 ≤ 34 }
    ensures { words.new ≡ splice words.old at (packed 4 key.now) }
{
    serialize::pack_words(words, at, key, 0, 4);
}

// The whole record.
pub fn lay_whole(words: &mut [u64; 34], server: NetcodeServer)
    ensures { words.new ≡ whole_words words.old server }
{
    let set = server.set;
    let connect_key = set.connect_key;
    let challenge_key = set.challenge_key;
    let standing = [
        set.slots as u64,
        set.pending as u64,
        set.entries as u64,
        set.addresses as u64,
        u64::from(set.secure),
        set.protocol_id,
    ];
    serialize::copy(words, 0, &standing, 0, 6);
    lay_key(words, 14, &connect_key);
    lay_key(words, 18, &challenge_key);
    lay(words, server);
}
