// The challenge token before it is sealed and after it was opened.
ghost use Rattle.std.specs.Prelude.{◌≡◌, ◌+◌, ◌≤◌, length};
ghost use Rattle.serialize.specs.Runs.{splice};
ghost use Rattle.bodies.specs.Tokens.{token, token_clear, token_at};

use crate::NETCODE_USER_DATA_BYTES;

#[derive(Clone, Copy)]
pub struct ChallengeToken {
    pub client_id: u64,
    pub user_data: [u8; NETCODE_USER_DATA_BYTES],
}

impl ChallengeToken {
    pub fn new(client_id: u64, user_data: [u8; NETCODE_USER_DATA_BYTES]) -> ChallengeToken
        ensures { result ≡ token client_id user_data }
    {
        ChallengeToken {
            client_id,
            user_data,
        }
    }

    // Id, user data and zeros, 284 bytes from index at; the 16 places of the tag come after them.
    pub fn write(self, out: &mut [u8], at: usize)
        requires { at + 284 ≤ length out.old }
        ensures { out.new ≡ splice out.old at (token_clear self) }
    {
        serialize::write_u64(out, at, self.client_id);
        serialize::copy(out, at + 8, &self.user_data, 0, NETCODE_USER_DATA_BYTES);
        serialize::fill(out, at + 264, 20, 0);
    }

    // The token at index at.
    pub fn read(src: &[u8], at: usize) -> ChallengeToken
        requires { at + 264 ≤ length src.now }
        ensures { result ≡ token_at src.now at }
    {
        let client_id = serialize::read_u64(src, at);
        let mut user_data = [0u8; NETCODE_USER_DATA_BYTES];
        serialize::copy(&mut user_data, 0, src, at + 8, NETCODE_USER_DATA_BYTES);
        ChallengeToken {
            client_id,
            user_data,
        }
    }
}
