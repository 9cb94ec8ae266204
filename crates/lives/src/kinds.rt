// The shape of what a line gives: its letter, as many tokens as it has, each of its kind, and the sign.
use crate::text;

// What a line does: a call of the server, a query, or a change of what the next call is lent.
#[derive(Clone, Copy, PartialEq, Eq)]
pub(crate) enum Line {
    SetUp,
    Update,
    SetMaxClients,
    Packet,
    AnswerOpen,
    AnswerToken,
    AnswerSeal,
    Payload,
    UpdateClient,
    Disconnect,
    Query,
    Words,
    Entry,
    AllEntries,
    Lend,
}

impl Line {
    // Whether it makes no call.
    pub(crate) fn is_setting(self) -> bool {
        matches!(
            self,
            Line::Words | Line::Entry | Line::AllEntries | Line::Lend
        )
    }

    // The line of a letter, which the stored sample has.
    fn of(letter: u8) -> Option<Line> {
        match letter {
            b'S' => Some(Line::SetUp),
            b'U' => Some(Line::Update),
            b'M' => Some(Line::SetMaxClients),
            b'P' => Some(Line::Packet),
            b'O' => Some(Line::AnswerOpen),
            b'T' => Some(Line::AnswerToken),
            b'E' => Some(Line::AnswerSeal),
            b'G' => Some(Line::Payload),
            b'C' => Some(Line::UpdateClient),
            b'D' => Some(Line::Disconnect),
            b'Q' => Some(Line::Query),
            b'K' => Some(Line::Words),
            b'Y' => Some(Line::Entry),
            b'F' => Some(Line::AllEntries),
            b'L' => Some(Line::Lend),
            _ => None,
        }
    }

    // The kinds of its tokens.
    fn shape(self) -> &'static [u8] {
        match self {
            Line::SetUp => b"nnnnyKKspeA=",
            Line::Update => b"nn=",
            Line::SetMaxClients => b"n=",
            Line::Packet => b"owID=",
            Line::AnswerOpen => b"yD=",
            Line::AnswerToken => b"ynlKKUT=",
            Line::AnswerSeal => b"yP=",
            Line::Payload => b"nD=",
            Line::UpdateClient => b"n=",
            Line::Disconnect => b"n=",
            Line::Query => b"n=",
            Line::Words => b"tnnn=",
            Line::Entry => b"iE=",
            Line::AllEntries => b"ii=",
            Line::Lend => b"xn=",
        }
    }
}

fn is_number(word: &[u8]) -> bool {
    !word.is_empty() && word.len() <= 20 && tokens::are_digits::<10>(word)
}

fn is_number_to(word: &[u8], most: u64) -> bool {
    is_number(word) && tokens::value::<10>(word) <= most
}

fn is_bytes_of(word: &[u8], n: usize) -> bool {
    word.len() % 2 == 0 && word.len() / 2 == n && tokens::are_digits::<16>(word)
}

// The sign of none.
fn is_none(word: &[u8]) -> bool {
    word == b"-".as_slice()
}

// Up to so many bytes; the sign of none is for none.
fn is_bytes_to(word: &[u8], most: usize) -> bool {
    is_none(word)
        || (!word.is_empty() && word.len() / 2 <= most && is_bytes_of(word, word.len() / 2))
}

// Up to so many addresses of 24 bytes.
fn is_addresses_to(word: &[u8], most: usize) -> bool {
    is_none(word) || (word.len() % 48 == 0 && word.len() / 48 <= most && is_bytes_to(word, 8192))
}

// Kinds by a letter. Of numbers: any, of 32, 16 and 8 bits, yes or no, the places of the tables that there are here, a token entry.
fn is_number_of(word: &[u8], kind: u8) -> bool {
    match kind {
        b'n' => is_number(word),
        b'l' => is_number_to(word, 4294967295),
        b'w' => is_number_to(word, 65535),
        b'o' => is_number_to(word, 255),
        b'y' => is_number_to(word, 1),
        b's' => is_number_to(word, 8),
        b'p' => is_number_to(word, 4),
        b'e' => is_number_to(word, 2048),
        b'i' => is_number_to(word, 2047),
        _ => false,
    }
}

// The record, the slots or pending: what has words.
fn is_table(word: &[u8]) -> bool {
    word.len() == 1 && matches!(text::first(word), b'r' | b's' | b'p')
}

// Slots, pending, token entries, public addresses, the output, the datagram, the lists.
fn is_lent(word: &[u8]) -> bool {
    word.len() == 1
        && matches!(
            text::first(word),
            b's' | b'p' | b'e' | b'a' | b'o' | b'd' | b'l'
        )
}

// Of bytes, by a capital: an address, a key, user data, a datagram or payload, a packet, a token entry, public addresses, a token's; and the
// sign. Of letters: which table of words, and what is lent.
fn is_of(word: &[u8], kind: u8) -> bool {
    match kind {
        b'I' => is_bytes_of(word, 16),
        b'K' => is_bytes_of(word, 32),
        b'U' => is_bytes_of(word, 256),
        b'D' => is_bytes_to(word, 2048),
        b'P' => is_bytes_to(word, 1400),
        b'E' => is_bytes_of(word, 47),
        b'A' => is_addresses_to(word, 4),
        b'T' => is_addresses_to(word, 64),
        b'=' => word == b"=".as_slice(),
        b't' => is_table(word),
        b'x' => is_lent(word),
        _ => is_number_of(word, kind),
    }
}

// Whether the tokens after the letter are of these kinds, no more and no fewer.
fn is_shaped(left: &[u8], kinds: &[u8]) -> bool {
    if tokens::spaces(left) != kinds.len() {
        return false;
    }
    for (i, kind) in kinds.iter().enumerate() {
        if !is_of(tokens::token(left, i + 1), *kind) {
            return false;
        }
    }
    true
}

// What a line up to its sign does; None where it is none of these.
pub(crate) fn line_of(left: &[u8]) -> Option<Line> {
    let word = tokens::token(left, 0);
    if word.len() != 1 {
        return None;
    }
    let line = Line::of(text::first(word))?;
    if is_shaped(left, line.shape()) {
        Some(line)
    } else {
        None
    }
}
