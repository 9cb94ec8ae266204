// What the host is asked for, in one form for packets and tokens.
ghost use Rattle.std.specs.Prelude.{◌≡◌};
ghost use Rattle.server.specs.Asking.{no_ask, asked, private_token_ask, buffer_of};

use crate::{Ask, Buffer};
use asks::Work;

// Where a private token stands in a request's datagram.
const PRIVATE_START: usize = 54;

const PRIVATE_END: usize = 1078;

// Beside an answer that asks for nothing.
pub fn no_ask() -> Ask
    ensures { result ≡ no_ask }
{
    Ask {
        work: Work::Open,
        buffer: Buffer::Datagram,
        key: [0; 32],
        nonce: [0; 24],
        nonce_size: 0,
        additional: [0; 29],
        size: 0,
        start: 0,
        end: 0,
    }
}

// What is opened stands in the datagram, what is sealed in the output.
#[tactic(auto, unfolding(crate::specs::Asking::buffer_of))]
fn buffer_of(work: Work) -> Buffer
    ensures { result ≡ buffer_of work }
{
    match work {
        Work::Open => Buffer::Datagram,
        Work::Seal => Buffer::Output,
    }
}

// The ask for a packet or a challenge token, as `asks` puts it.
pub fn packet_ask(ask: asks::Ask) -> Ask
    ensures { result ≡ asked ask }
{
    let work = ask.work;
    let key = ask.key;
    let short_nonce = ask.nonce;
    let short_additional = ask.additional;
    let mut nonce = [0u8; 24];
    serialize::copy(&mut nonce, 0, &short_nonce, 0, 12);
    let mut additional = [0u8; 29];
    serialize::copy(&mut additional, 0, &short_additional, 0, 22);
    Ask {
        work,
        buffer: buffer_of(work),
        key,
        nonce,
        nonce_size: 12,
        additional,
        size: ask.size,
        start: ask.start,
        end: ask.end,
    }
}

// The ask to open a request's private token: the request's own nonce, and its expiry in the additional data.
pub fn private_token_ask(
    connect_key: [u8; 32],
    protocol_id: u64,
    expire_timestamp: u64,
    xnonce: &[u8; 24],
) -> Ask
    ensures { result ≡ private_token_ask connect_key protocol_id expire_timestamp xnonce.now }
{
    Ask {
        work: Work::Open,
        buffer: Buffer::Datagram,
        key: connect_key,
        nonce: *xnonce,
        nonce_size: 24,
        additional: prefix::get_token_additional_data(protocol_id, expire_timestamp),
        size: 29,
        start: PRIVATE_START,
        end: PRIVATE_END,
    }
}
