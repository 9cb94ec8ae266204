// The open ask's stage in 13 words: its number, 0 for none; place; slot; type; sequence; start or end; whether connected; three words
// of an address; expiry or id; two words of the private data's end. Those that a stage does not have are 0.
ghost use Rattle.std.specs.Prelude.{◌≡◌};
ghost use Rattle.netcode.specs.Laid.{kind_in, addr_in, goal_in, stage_in, addressed, placed, goal_words, packet_words, token_words, stage_words};

use addresses::Address;
use bodies::PacketType;
use server::{Goal, Stage};

// ---- from words

// A packet's type; any other word is the last one's.
fn kind_in(word: u64) -> PacketType
    ensures { result ≡ kind_in word }
{
    match word {
        0 => PacketType::ConnectionRequest,
        1 => PacketType::ConnectionDenied,
        2 => PacketType::Challenge,
        3 => PacketType::Response,
        4 => PacketType::KeepAlive,
        5 => PacketType::Payload,
        _ => PacketType::Disconnect,
    }
}

fn addr_in(words: &[u64; 34]) -> Address
    ensures { result ≡ addr_in words.now }
{
    Address::from_words(words[28], words[29], words[30])
}

fn goal_in(words: &[u64; 34]) -> Goal
    ensures { result ≡ goal_in words.now }
{
    match words[11] {
        4 => Goal::Denied {
            addr: addr_in(words),
        },
        5 => Goal::ChallengeToken {
            addr: addr_in(words),
        },
        6 => Goal::ChallengePacket {
            addr: addr_in(words),
        },
        7 => Goal::Connecting {
            place: words[22] as usize,
            slot: words[23] as usize,
        },
        8 => Goal::Sending {
            slot: words[23] as usize,
        },
        _ => Goal::Ending {
            client_id: words[31],
            addr: addr_in(words),
        },
    }
}

pub fn stage_in(words: &[u64; 34]) -> Stage
    ensures { result ≡ stage_in words.now }
{
    match words[11] {
        0 => Stage::Idle,
        1 => Stage::Packet {
            connected: words[27] != 0,
            place: words[22] as usize,
            kind: kind_in(words[24]),
            sequence: words[25],
            start: words[26] as usize,
        },
        2 => Stage::Token {
            addr: addr_in(words),
            expire_timestamp: words[31],
            mac_low: words[32],
            mac_high: words[33],
        },
        3 => Stage::Challenge {
            place: words[22] as usize,
            start: words[26] as usize,
        },
        _ => Stage::Seal {
            goal: goal_in(words),
            sequence: words[25],
            end: words[26] as usize,
        },
    }
}

// ---- in words

// A seal that is for an address.
fn addressed(number: u64, sequence: u64, end: usize, addr: Address, client_id: u64) -> [u64; 13]
    ensures { result ≡ addressed number sequence end addr client_id }
{
    [
        number,
        0,
        0,
        0,
        sequence,
        end as u64,
        0,
        addr.first_word(),
        addr.low,
        addr.high,
        client_id,
        0,
        0,
    ]
}

// A seal that is for a slot.
fn placed(number: u64, place: usize, slot: usize, sequence: u64, end: usize) -> [u64; 13]
    ensures { result ≡ placed number place slot sequence end }
{
    [
        number,
        place as u64,
        slot as u64,
        0,
        sequence,
        end as u64,
        0,
        0,
        0,
        0,
        0,
        0,
        0,
    ]
}

fn goal_words(goal: Goal, sequence: u64, end: usize) -> [u64; 13]
    ensures { result ≡ goal_words goal sequence end }
{
    match goal {
        Goal::Denied { addr } => addressed(4, sequence, end, addr, 0),
        Goal::ChallengeToken { addr } => addressed(5, sequence, end, addr, 0),
        Goal::ChallengePacket { addr } => addressed(6, sequence, end, addr, 0),
        Goal::Connecting { place, slot } => placed(7, place, slot, sequence, end),
        Goal::Sending { slot } => placed(8, 0, slot, sequence, end),
        Goal::Ending { client_id, addr } => addressed(9, sequence, end, addr, client_id),
    }
}

// A packet that is to be opened.
fn packet_words(
    connected: bool,
    place: usize,
    kind: PacketType,
    sequence: u64,
    start: usize,
) -> [u64; 13]
    ensures { result ≡ packet_words connected place kind sequence start }
{
    let number = kind.to_u8();
    [
        1,
        place as u64,
        0,
        number as u64,
        sequence,
        start as u64,
        u64::from(connected),
        0,
        0,
        0,
        0,
        0,
        0,
    ]
}

// A private token that is to be opened.
fn token_words(addr: Address, expire_timestamp: u64, mac_low: u64, mac_high: u64) -> [u64; 13]
    ensures { result ≡ token_words addr expire_timestamp mac_low mac_high }
{
    [
        2,
        0,
        0,
        0,
        0,
        0,
        0,
        addr.first_word(),
        addr.low,
        addr.high,
        expire_timestamp,
        mac_low,
        mac_high,
    ]
}

pub fn stage_words(stage: Stage) -> [u64; 13]
    ensures { result ≡ stage_words stage }
{
    match stage {
        Stage::Idle => placed(0, 0, 0, 0, 0),
        Stage::Packet {
            connected,
            place,
            kind,
            sequence,
            start,
        } => packet_words(connected, place, kind, sequence, start),
        Stage::Token {
            addr,
            expire_timestamp,
            mac_low,
            mac_high,
        } => token_words(addr, expire_timestamp, mac_low, mac_high),
        Stage::Challenge { place, start } => placed(3, place, 0, 0, start),
        Stage::Seal {
            goal,
            sequence,
            end,
        } => goal_words(goal, sequence, end),
    }
}
