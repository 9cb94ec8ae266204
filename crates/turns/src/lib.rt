// What the calls about a datagram have in common: how they end, and the packets that they write.
#![tactic(auto)]

ghost use Rattle.std.specs.Prelude.{◌≡◌};
ghost use Rattle.server.specs.Ready.{code_of};
ghost use Rattle.turns.specs.Outcomes.{answered, refused, closed, asking, open_verdict};

use refusal::{Refusal, Why};
use server::{Answer, Ask, NetcodeServer, OpenAsk, Stage, Wanted};

mod packets;

pub use packets::{deny, keep_alive, write_packet, write_packet_with};

// The output that a datagram's call is lent has this many bytes at least.
pub const NETCODE_MAX_PACKET_BYTES: usize = 1400;

// A counter that can't be raised.
pub const MOST: u64 = u64::MAX;

// The record as a call leaves it, what the call comes to, and, where that is an ask, what the host is asked for.
#[derive(Clone, Copy)]
pub struct Turn {
    pub server: NetcodeServer,
    pub answer: Answer,
    pub ask: Ask,
}

// The record as it was, and nothing asked for.
pub fn answered(server: NetcodeServer, answer: Answer) -> Turn
    ensures { result ≡ answered server answer }
{
    Turn {
        server,
        answer,
        ask: server::no_ask(),
    }
}

pub fn refused(server: NetcodeServer, refusal: Refusal) -> Turn
    ensures { result ≡ refused server refusal }
{
    answered(server, Answer::Refused(refusal))
}

// The call is over: no ask is open.
pub fn closed(server: NetcodeServer, answer: Answer) -> Turn
    ensures { result ≡ closed server answer }
{
    let none = OpenAsk {
        stage: Stage::Idle,
        datagram: 0,
        out: 0,
    };
    answered(server::with_ask(server, none), answer)
}

// The call goes on at this stage once the host has answered.
pub fn asking(server: NetcodeServer, stage: Stage, datagram: usize, out: usize, ask: Ask) -> Turn
    ensures { result ≡ asking server stage datagram out ask }
{
    let open_ask = OpenAsk {
        stage,
        datagram,
        out,
    };
    Turn {
        server: server::with_ask(server, open_ask),
        answer: Answer::Ask,
        ask,
    }
}

// 17, 23, 18 for an answer to an ask to open, `tables` being what the tables' test came to.
pub fn open_refusal(
    server: NetcodeServer,
    tables: Result<(), Refusal>,
    kind: Wanted,
    datagram: usize,
    out: usize,
) -> Result<(), Refusal>
    ensures { result ≡ open_verdict server tables (code_of kind) datagram out }
{
    server::answer_refusal(server.ask, tables, kind, server.set, datagram, out)?;
    if out < NETCODE_MAX_PACKET_BYTES {
        return Err(Refusal(Why::AnswerUnfit));
    }
    Ok(())
}
