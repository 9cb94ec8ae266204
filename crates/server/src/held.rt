// What a step after the ask's needs of a token, kept in bytes that the host lends: a granted token whole, or a challenge's id and user
// data. It stands apart from the record, so that a payload does not copy it.
ghost use Rattle.std.specs.Prelude.{◌≡◌, ◌+◌, ◌≤◌};
ghost use Rattle.serialize.specs.Runs.{part};
ghost use Rattle.server.specs.Held.{held_token, held_challenge, held_id, held_expiry, held_timeout, held_send_key, held_receive_key, held_user_data};

use crate::HELD_BYTES;

const EXPIRY: usize = 8;

const TIMEOUT: usize = 16;

const SEND_KEY: usize = 20;

const RECEIVE_KEY: usize = 52;

const USER_DATA: usize = 84;

// A private token that the host opened: its fields, and the request's expiry.
pub fn hold_token(
    held: &mut [u8; HELD_BYTES],
    client_id: u64,
    expire_timestamp: u64,
    timeout_seconds: u32,
    send_key: &[u8; 32],
    receive_key: &[u8; 32],
    user_data: &[u8; 256],
)
    ensures { held.new ≡ held_token client_id expire_timestamp timeout_seconds send_key.now receive_key.now user_data.now }
{
    serialize::write_u64(held, 0, client_id);
    serialize::write_u64(held, EXPIRY, expire_timestamp);
    serialize::write_u32(held, TIMEOUT, timeout_seconds);
    serialize::copy(held, SEND_KEY, send_key, 0, 32);
    serialize::copy(held, RECEIVE_KEY, receive_key, 0, 32);
    serialize::copy(held, USER_DATA, user_data, 0, 256);
}

// A challenge that the host opened: the rest stays as it is.
pub fn hold_challenge(held: &mut [u8; HELD_BYTES], client_id: u64, user_data: &[u8; 256])
    ensures { held.new ≡ held_challenge held.old client_id user_data.now }
{
    serialize::write_u64(held, 0, client_id);
    serialize::copy(held, USER_DATA, user_data, 0, 256);
}

pub fn held_client_id(held: &[u8; HELD_BYTES]) -> u64
    ensures { result ≡ held_id held.now }
{
    serialize::read_u64(held, 0)
}

pub fn held_expiry(held: &[u8; HELD_BYTES]) -> u64
    ensures { result ≡ held_expiry held.now }
{
    serialize::read_u64(held, EXPIRY)
}

pub fn held_timeout(held: &[u8; HELD_BYTES]) -> u32
    ensures { result ≡ held_timeout held.now }
{
    serialize::read_u32(held, TIMEOUT)
}

// A key that stands in the bytes from index at.
fn key_at(held: &[u8; HELD_BYTES], at: usize) -> [u8; 32]
    requires { at + 32 ≤ 340 }
    ensures { result ≡ part held.now at 32 }
{
    let mut key = [0u8; 32];
    serialize::copy(&mut key, 0, held, at, 32);
    key
}

pub fn held_send_key(held: &[u8; HELD_BYTES]) -> [u8; 32]
    ensures { result ≡ held_send_key held.now }
{
    key_at(held, SEND_KEY)
}

pub fn held_receive_key(held: &[u8; HELD_BYTES]) -> [u8; 32]
    ensures { result ≡ held_receive_key held.now }
{
    key_at(held, RECEIVE_KEY)
}

pub fn held_user_data(held: &[u8; HELD_BYTES]) -> [u8; 256]
    ensures { result ≡ held_user_data held.now }
{
    let mut user_data = [0u8; 256];
    serialize::copy(&mut user_data, 0, held, USER_DATA, 256);
    user_data
}
