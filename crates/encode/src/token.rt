// A challenge token, written and to be sealed.
ghost use Rattle.std.specs.Prelude.{◌≡◌};
ghost use Rattle.bodies.specs.Tokens.{token};
ghost use Rattle.encode.specs.Encodes.{done};
ghost use Rattle.encode.specs.Generates.{generate_challenge};

use crate::{Encoded, Encoding, Sealing, writing};
use asks::{NETCODE_KEY_BYTES, Work};
use bodies::{ChallengeToken, NETCODE_CHALLENGE_TOKEN_BYTES, NETCODE_USER_DATA_BYTES};
use refusal::{Refusal, Why};

// A challenge token into out from index at, and the ask to seal it there with its tag; refused where it does not fit.
#[tactic(auto, unfolding(crate::specs::Generates::generate_challenge, serialize::specs::Choice::pick))]
pub fn generate_challenge(
    out: &mut [u8],
    at: usize,
    client_id: u64,
    user_data: [u8; NETCODE_USER_DATA_BYTES],
    challenge_sequence: u64,
    challenge_key: [u8; NETCODE_KEY_BYTES],
) -> Encoded
    ensures { done result out.new ≡ generate_challenge out.old at (token client_id user_data) challenge_sequence challenge_key }
{
    let room = out.len();
    if asks::past(room, at, NETCODE_CHALLENGE_TOKEN_BYTES) {
        return writing::refused(Refusal(Why::OutputShort));
    }
    let end = at + NETCODE_CHALLENGE_TOKEN_BYTES;
    ChallengeToken::new(client_id, user_data).write(out, at);
    Encoded {
        answer: Encoding::Asked,
        ask: asks::token_ask(Work::Seal, challenge_key, challenge_sequence, at, end),
        sealing: Some(Sealing { end, len: room }),
    }
}
