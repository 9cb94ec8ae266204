// The fields of a record, read and written where they lie. Any word is read: of a timeout its low 32 bits, and a confirmed that is
// not 0 is true.
ghost use Rattle.std.specs.Prelude.{◌≡◌, not, ◌+◌, ◌%◌, ◌<◌, ◌≤◌, eqb, length, set};
ghost use Rattle.refusal.specs.Verdicts.{verdict};
ghost use Rattle.serialize.specs.Runs.{splice};
ghost use Rattle.serialize.specs.Le.{words};
ghost use Rattle.replay_protection.specs.Replay.{refusal, arrive};
ghost use Rattle.replay_protection.specs.Stored.{window_at, put_window};
ghost use Rattle.replay_protection.specs.Ours.{width, window_of, protection};
ghost use Rattle.places.specs.Layout.{Shaped, confirmed_at, send_key_at, receive_key_at, received_at, sent_at, timeout_at, sequence_at, expiry_at, user_data_at, window_place, word_of};
ghost use Rattle.records.specs.Records.{bytes_at, time_at, put_time};

use places::BODY_WORDS;
use refusal::Refusal;
use replay_protection::ReplayProtection;
use times::Time;

// Offsets in a body.
const CONFIRMED: usize = 0;

const SEND_KEY: usize = 1;

const RECEIVE_KEY: usize = 5;

const RECEIVED: usize = 9;

const SENT: usize = 11;

const TIMEOUT: usize = 13;

const SEQUENCE: usize = 14;

const EXPIRY: usize = 15;

const USER_DATA: usize = 16;

const WINDOW: usize = 48;

// ---- numbers

pub fn is_confirmed(t: &[u64], n: usize, i: usize) -> bool
    requires { Shaped t.now n × (i < n) }
    ensures { result ≡ not (eqb (word_of t.now (confirmed_at n i)) 0) }
{
    t[5 * n + BODY_WORDS * i + CONFIRMED] != 0
}

pub fn confirm(t: &mut [u64], n: usize, i: usize)
    requires { Shaped t.old n × (i < n) }
    ensures { t.new ≡ set t.old (confirmed_at n i) 1 }
{
    t[5 * n + BODY_WORDS * i + CONFIRMED] = 1;
}

pub fn timeout_seconds(t: &[u64], n: usize, i: usize) -> u32
    requires { Shaped t.now n × (i < n) }
    ensures { result ≡ word_of t.now (timeout_at n i) % 4294967296 }
{
    (t[5 * n + BODY_WORDS * i + TIMEOUT] % 4294967296) as u32
}

pub fn sequence(t: &[u64], n: usize, i: usize) -> u64
    requires { Shaped t.now n × (i < n) }
    ensures { result ≡ word_of t.now (sequence_at n i) }
{
    t[5 * n + BODY_WORDS * i + SEQUENCE]
}

pub fn set_sequence(t: &mut [u64], n: usize, i: usize, sequence: u64)
    requires { Shaped t.old n × (i < n) }
    ensures { t.new ≡ set t.old (sequence_at n i) sequence }
{
    t[5 * n + BODY_WORDS * i + SEQUENCE] = sequence;
}

pub fn expire_timestamp(t: &[u64], n: usize, i: usize) -> u64
    requires { Shaped t.now n × (i < n) }
    ensures { result ≡ word_of t.now (expiry_at n i) }
{
    t[5 * n + BODY_WORDS * i + EXPIRY]
}

// ---- times

fn time_at(t: &[u64], at: usize) -> Time
    requires { at + 2 ≤ length t.now }
    ensures { result ≡ time_at t.now at }
{
    Time {
        secs: t[at],
        nanos: t[at + 1],
    }
}

pub(crate) fn put_time(t: &mut [u64], at: usize, time: Time)
    requires { at + 2 ≤ length t.old }
    ensures { t.new ≡ put_time t.old at time }
{
    t[at] = time.secs;
    t[at + 1] = time.nanos;
}

pub fn received_time(t: &[u64], n: usize, i: usize) -> Time
    requires { Shaped t.now n × (i < n) }
    ensures { result ≡ time_at t.now (received_at n i) }
{
    time_at(t, 5 * n + BODY_WORDS * i + RECEIVED)
}

pub fn set_received_time(t: &mut [u64], n: usize, i: usize, time: Time)
    requires { Shaped t.old n × (i < n) }
    ensures { t.new ≡ put_time t.old (received_at n i) time }
{
    put_time(t, 5 * n + BODY_WORDS * i + RECEIVED, time);
}

pub fn sent_time(t: &[u64], n: usize, i: usize) -> Time
    requires { Shaped t.now n × (i < n) }
    ensures { result ≡ time_at t.now (sent_at n i) }
{
    time_at(t, 5 * n + BODY_WORDS * i + SENT)
}

pub fn set_sent_time(t: &mut [u64], n: usize, i: usize, time: Time)
    requires { Shaped t.old n × (i < n) }
    ensures { t.new ≡ put_time t.old (sent_at n i) time }
{
    put_time(t, 5 * n + BODY_WORDS * i + SENT, time);
}

// ---- bytes, eight to a word

fn key_at(t: &[u64], at: usize) -> [u8; 32]
    requires { at + 4 ≤ length t.now }
    ensures { result ≡ bytes_at t.now at 4 }
{
    let mut key = [0u8; 32];
    serialize::unpack_words(&mut key, 0, t, at, 4);
    key
}

pub fn send_key(t: &[u64], n: usize, i: usize) -> [u8; 32]
    requires { Shaped t.now n × (i < n) }
    ensures { result ≡ bytes_at t.now (send_key_at n i) 4 }
{
    key_at(t, 5 * n + BODY_WORDS * i + SEND_KEY)
}

pub fn receive_key(t: &[u64], n: usize, i: usize) -> [u8; 32]
    requires { Shaped t.now n × (i < n) }
    ensures { result ≡ bytes_at t.now (receive_key_at n i) 4 }
{
    key_at(t, 5 * n + BODY_WORDS * i + RECEIVE_KEY)
}

pub fn user_data(t: &[u64], n: usize, i: usize) -> [u8; 256]
    requires { Shaped t.now n × (i < n) }
    ensures { result ≡ bytes_at t.now (user_data_at n i) 32 }
{
    let mut user_data = [0u8; 256];
    serialize::unpack_words(&mut user_data, 0, t, 5 * n + BODY_WORDS * i + USER_DATA, 32);
    user_data
}

pub fn set_user_data(t: &mut [u64], n: usize, i: usize, user_data: &[u8; 256])
    requires { Shaped t.old n × (i < n) }
    ensures { t.new ≡ splice t.old (user_data_at n i) (words 32 user_data.now) }
{
    serialize::pack_words(t, 5 * n + BODY_WORDS * i + USER_DATA, user_data, 0, 32);
}

// ---- the window, by value and in place

pub fn load_window(t: &[u64], n: usize, i: usize) -> ReplayProtection
    requires { Shaped t.now n × (i < n) }
    ensures { result ≡ protection (window_at width t.now (window_place n i)) }
{
    replay_protection::load_window(t, 5 * n + BODY_WORDS * i + WINDOW)
}

pub fn store_window(t: &mut [u64], n: usize, i: usize, window: ReplayProtection)
    requires { Shaped t.old n × (i < n) }
    ensures { t.new ≡ put_window t.old (window_place n i) (window_of window) }
{
    replay_protection::store_window(t, 5 * n + BODY_WORDS * i + WINDOW, window);
}

pub fn window_refusal(t: &[u64], n: usize, i: usize, sequence: u64) -> Result<(), Refusal>
    requires { Shaped t.now n × (i < n) }
    ensures { result ≡ verdict (refusal width (window_at width t.now (window_place n i)) sequence) }
{
    replay_protection::refusal_at(t, 5 * n + BODY_WORDS * i + WINDOW, sequence)
}

pub fn advance_window(t: &mut [u64], n: usize, i: usize, sequence: u64)
    requires { Shaped t.old n × (i < n) }
    ensures { t.new ≡ put_window t.old (window_place n i) (arrive width (window_at width t.old (window_place n i)) sequence) }
{
    replay_protection::advance_at(t, 5 * n + BODY_WORDS * i + WINDOW, sequence);
}
