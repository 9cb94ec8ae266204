// A challenge token, to be opened and read.
ghost use Rattle.std.specs.Prelude.{◌≡◌, length};
ghost use Rattle.decode.specs.Challenges.{no_token, unproved, decode_challenge, answer_proof, answer_challenge};

use crate::{Challenged, ProofOpening, Proving};
use asks::{NETCODE_KEY_BYTES, Work};
use bodies::{ChallengeToken, NETCODE_CHALLENGE_TOKEN_BYTES, NETCODE_USER_DATA_BYTES};
use refusal::{Refusal, Why};

fn no_token() -> ChallengeToken
    ensures { result ≡ no_token }
{
    ChallengeToken::new(0, [0; NETCODE_USER_DATA_BYTES])
}

// An answer without a token.
fn unproved(refusal: Refusal, opening: Option<ProofOpening>) -> Challenged
    ensures { result ≡ unproved refusal opening }
{
    Challenged {
        answer: Proving::Refused(refusal),
        ask: asks::no_ask(),
        opening,
        token: no_token(),
    }
}

// The ask to open the challenge token at index at: 9 where there are fewer than 300 bytes.
pub fn decode_challenge(
    token_data: &[u8],
    at: usize,
    token_sequence: u64,
    challenge_key: [u8; NETCODE_KEY_BYTES],
) -> Challenged
    ensures { result ≡ decode_challenge (length token_data.now) at token_sequence challenge_key }
{
    let room = token_data.len();
    if asks::past(room, at, NETCODE_CHALLENGE_TOKEN_BYTES) {
        return unproved(Refusal(Why::BodyShort), None);
    }
    Challenged {
        answer: Proving::Asked,
        ask: asks::token_ask(
            Work::Open,
            challenge_key,
            token_sequence,
            at,
            at + NETCODE_CHALLENGE_TOKEN_BYTES,
        ),
        opening: Some(ProofOpening { at, len: room }),
        token: no_token(),
    }
}

fn answer_proof(opening: ProofOpening, token_data: &[u8], granted: bool) -> Challenged
    ensures { result ≡ answer_proof opening.at opening.len token_data.now granted }
{
    let at = opening.at;
    if asks::unlike(
        at,
        NETCODE_CHALLENGE_TOKEN_BYTES,
        opening.len,
        token_data.len(),
    ) {
        return unproved(Refusal(Why::AnswerUnfit), Some(opening));
    }
    if granted {
        return Challenged {
            answer: Proving::Proved,
            ask: asks::no_ask(),
            opening: None,
            token: ChallengeToken::read(token_data, at),
        };
    }
    unproved(Refusal(Why::NotOpened), None)
}

// The host's answer to the ask to open a challenge token that is open: 17 where none is.
pub fn answer_challenge(
    opening: Option<ProofOpening>,
    token_data: &[u8],
    granted: bool,
) -> Challenged
    ensures { result ≡ answer_challenge opening token_data.now granted }
{
    match opening {
        Some(ask) => answer_proof(ask, token_data, granted),
        None => unproved(Refusal(Why::NoAsk), None),
    }
}
