// An answer in document 01's numbers.
ghost use Rattle.std.specs.Prelude.{◌≡◌};
ghost use Rattle.server.specs.Answers.{number_of, told, words_of, laid, nobody};

use crate::Answer;
use addresses::Address;
use refusal::Refusal;

// An address that none is.
fn nobody() -> Address
    ensures { result ≡ nobody }
{
    Address {
        kind: 0,
        port: 0,
        low: 0,
        high: 0,
    }
}

// Which case, its number, then id, slot, the three words of an address, start and end.
fn lay(
    case: u64,
    number: u8,
    client_id: u64,
    slot: usize,
    addr: Address,
    start: usize,
    end: usize,
) -> [u64; 9]
    ensures { result ≡ laid case number client_id slot addr start end }
{
    [
        case,
        number as u64,
        client_id,
        slot as u64,
        addr.first_word(),
        addr.low,
        addr.high,
        start as u64,
        end as u64,
    ]
}

// The number of a refusal that there may be; 0 for none.
fn told(refusal: Option<Refusal>) -> u8
    ensures { result ≡ told refusal }
{
    match refusal {
        Some(refusal) => refusal.number(),
        None => 0,
    }
}

impl Answer {
    // The refusal's number; 15 or 24 where a record ended without its packet; else 0.
    #[tactic(auto, unfolding(crate::specs::Answers::number_of))]
    pub fn number(self) -> u8
        ensures { result ≡ number_of self }
    {
        match self {
            Answer::Refused(refusal) => refusal.number(),
            Answer::Nothing
            | Answer::Ask
            | Answer::PacketToSend { .. }
            | Answer::Payload { .. }
            | Answer::ClientConnected { .. } => 0,
            Answer::ClientDisconnected { refusal, .. } => told(refusal),
        }
    }

    // The answer in nine words; those that its case does not have are 0.
    pub fn words(self) -> [u64; 9]
        ensures { result ≡ words_of self }
    {
        match self {
            Answer::Refused(refusal) => lay(0, refusal.number(), 0, 0, nobody(), 0, 0),
            Answer::Nothing => lay(1, 0, 0, 0, nobody(), 0, 0),
            Answer::Ask => lay(2, 0, 0, 0, nobody(), 0, 0),
            Answer::PacketToSend { addr, end } => lay(3, 0, 0, 0, addr, 0, end),
            Answer::Payload {
                client_id,
                start,
                end,
            } => lay(4, 0, client_id, 0, nobody(), start, end),
            Answer::ClientConnected {
                client_id,
                slot,
                addr,
                end,
            } => lay(5, 0, client_id, slot, addr, 0, end),
            Answer::ClientDisconnected {
                client_id,
                addr,
                end,
                refusal,
            } => lay(6, told(refusal), client_id, 0, addr, 0, end),
        }
    }
}
