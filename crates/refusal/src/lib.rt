// Why the server says no: document 01's table, "When the server says no", a variant for each of its numbers.
#![tactic(auto)]

ghost use Rattle.std.specs.Prelude.{◌≡◌};
ghost use Rattle.refusal.specs.Verdicts.{number};

use std::marker::Model;

// The table's lines, in its order.
#[derive(Clone, Copy, PartialEq, Eq)]
pub enum Why {
    // 1: datagram under 18 bytes.
    DatagramShort,
    // 2: type over 6.
    NoSuchType,
    // 3: type 1 to 6, and the address is neither connected nor pending, or there is no key.
    Stranger,
    // 4: type 1 to 6, and over 8 sequence bytes.
    SequenceLong,
    // 5: windowed sequence 2^64 - 256 or more.
    SequenceLate,
    // 6: the window refuses.
    Repeated,
    // 7: under 16 bytes after the sequence.
    TagMissing,
    // 8: the host says no to open.
    NotOpened,
    // 9: body short.
    BodyShort,
    // 10: version wrong.
    VersionWrong,
    // 11: protocol wrong.
    ProtocolWrong,
    // 12: expiry passed.
    Expired,
    // 13: secure, and no token address is ours.
    NotForUs,
    // 14: output buffer shorter than needed.
    OutputShort,
    // 15: a counter about to be used is 2^64 - 1.
    CounterSpent,
    // 16: an ask is open.
    AskOpen,
    // 17: an answer, and no ask is open.
    NoAsk,
    // 18: an answer of the wrong kind, length or field range.
    AnswerUnfit,
    // 19: malformed address, outside a host's answer.
    AddressMalformed,
    // 20: the clock would pass its range.
    ClockOver,
    // 21: payload over the limit.
    PayloadLong,
    // 22: no such client.
    NoSuchClient,
    // 23: set-up's tables or limit out of range; later, a length unlike set-up's.
    TableUnfit,
    // 24: the host says no to seal.
    NotSealed,
}

// A refusal. Contracts see document 01's number in its place.
#[derive(Clone, Copy, PartialEq, Eq)]
pub struct Refusal(pub Why);

impl Model for Refusal {
    ghost use Rattle.std.specs.Prelude.{ℕ};

    ghost Value = { ℕ };

    ghost use Rattle.refusal.specs.Numbers.{number_of, inside_of, why_of};
    ghost use Rattle.refusal.specs.Back.{inside_back};

    ghost view = { λ r. number_of r.0 };

    ghost inverse = { λ n. inside_of (why_of n) };

    ghost inverse_ok = { λ a h. inside_back a };
}

impl Refusal {
    pub fn number(self) -> u8
        ensures { result ≡ self }
    {
        match self.0 {
            Why::DatagramShort => 1,
            Why::NoSuchType => 2,
            Why::Stranger => 3,
            Why::SequenceLong => 4,
            Why::SequenceLate => 5,
            Why::Repeated => 6,
            Why::TagMissing => 7,
            Why::NotOpened => 8,
            Why::BodyShort => 9,
            Why::VersionWrong => 10,
            Why::ProtocolWrong => 11,
            Why::Expired => 12,
            Why::NotForUs => 13,
            Why::OutputShort => 14,
            Why::CounterSpent => 15,
            Why::AskOpen => 16,
            Why::NoAsk => 17,
            Why::AnswerUnfit => 18,
            Why::AddressMalformed => 19,
            Why::ClockOver => 20,
            Why::PayloadLong => 21,
            Why::NoSuchClient => 22,
            Why::TableUnfit => 23,
            Why::NotSealed => 24,
        }
    }
}

// The number of what a test came to; 0 where it refuses nothing.
pub fn number(verdict: Result<(), Refusal>) -> u8
    ensures { result ≡ number verdict }
{
    match verdict {
        Ok(()) => 0,
        Err(refusal) => refusal.number(),
    }
}
