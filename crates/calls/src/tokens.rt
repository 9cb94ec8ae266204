// Challenge tokens, written and read, and the host's answers. The answer to an ask to seal one is `pump_answer_seal`.
ghost use Rattle.std.specs.Prelude.{◌≡◌};
ghost use Rattle.calls.specs.Packets.{handed, placed};
ghost use Rattle.calls.specs.Tokens.{generate_call, decode_challenge_call, answer_challenge_call};

use crate::desk;

// A token into out from index at, and the ask to seal it.
pub fn pump_generate_challenge(
    out: &mut [u8],
    at: usize,
    client_id: u64,
    user_data: &[u8; 256],
    challenge_sequence: u64,
    challenge_key: &[u8; 32],
    words: &mut [u64; 16],
    told: &mut [u8; 66],
)
    ensures { handed words.new told.new out.new ≡ generate_call out.old at client_id user_data.now challenge_sequence challenge_key.now }
{
    let encoded = encode::generate_challenge(
        out,
        at,
        client_id,
        *user_data,
        challenge_sequence,
        *challenge_key,
    );
    let ask = encoded.ask;
    *words = desk::encoded_desk(encoded);
    *told = desk::told_of(ask);
}

// The ask to open the token at index at.
pub fn pump_decode_challenge(
    token_data: &[u8],
    at: usize,
    token_sequence: u64,
    challenge_key: &[u8; 32],
    words: &mut [u64; 16],
    told: &mut [u8; 66],
)
    ensures { placed words.new told.new ≡ decode_challenge_call token_data.now at token_sequence challenge_key.now }
{
    let challenged = decode::decode_challenge(token_data, at, token_sequence, *challenge_key);
    let ask = challenged.ask;
    *words = desk::challenged_desk(challenged);
    *told = desk::told_of(ask);
}

// The host's answer to an ask to open a token: its client stands on the desk, its user data in what is lent for it.
pub fn pump_answer_challenge(
    token_data: &[u8],
    granted: bool,
    words: &mut [u64; 16],
    user_data: &mut [u8; 256],
)
    ensures { placed words.new user_data.new ≡ answer_challenge_call words.old token_data.now granted }
{
    let opening = desk::proof_opening_of(desk::kept_on(words));
    let challenged = decode::answer_challenge(opening, token_data, granted);
    let token = challenged.token;
    let user = token.user_data;
    *words = desk::challenged_desk(challenged);
    *user_data = user;
}
