// Addresses: kind 4 or 6, 16 bytes and a port, kept as plain numbers, so that comparing is a few tests and a table holds one in
// three words.
#![tactic(auto)]

ghost use Rattle.std.specs.Prelude.{◌≡◌, ◌+◌, ◌≤◌, length};
ghost use Rattle.refusal.specs.Verdicts.{verdict};
ghost use Rattle.addresses.specs.Addresses.{first_word, of_words, of_bytes, to_bytes, well_formed, refusal, has_words};

use refusal::{Refusal, Why};

mod list;

pub use list::{address_at, any_ours, count_addresses, find_malformed, find_words, list_refusal};

// Words of an address in a table or a list: kind * 65,536 + port, then the 16 bytes as two little-endian words.
pub const ADDRESS_WORDS: usize = 3;

// Any kind is an input with an answer (19), so it is a number here.
#[derive(Clone, Copy, PartialEq, Eq)]
pub struct Address {
    pub kind: u8,
    pub port: u16,
    pub low: u64,
    pub high: u64,
}

// Whether the numbers are a well-formed address's: of kind 4 the first four bytes count and the rest is zero.
fn is_well_formed(kind: u64, low: u64, high: u64) -> bool
    ensures { result ≡ well_formed kind low high }
{
    if kind == 6 {
        return true;
    }
    if kind != 4 {
        return false;
    }
    if low >= 4294967296 {
        return false;
    }
    high == 0
}

impl Address {
    // Any kind is taken: `refusal` says whether the address is well-formed.
    pub fn new(kind: u8, bytes: &[u8; 16], port: u16) -> Address
        ensures { result ≡ of_bytes kind bytes.now port }
    {
        Address {
            kind,
            port,
            low: serialize::read_u64(bytes, 0),
            high: serialize::read_u64(bytes, 8),
        }
    }

    pub fn bytes(self) -> [u8; 16]
        ensures { result ≡ to_bytes self }
    {
        let mut bytes = [0u8; 16];
        serialize::write_u64(&mut bytes, 0, self.low);
        serialize::write_u64(&mut bytes, 8, self.high);
        bytes
    }

    // A malformed address is refused.
    pub fn refusal(self) -> Result<(), Refusal>
        ensures { result ≡ verdict (refusal self) }
    {
        if is_well_formed(self.kind as u64, self.low, self.high) {
            Ok(())
        } else {
            Err(Refusal(Why::AddressMalformed))
        }
    }

    // The first of an address's three words; the others are `low` and `high`.
    pub fn first_word(self) -> u64
        ensures { result ≡ first_word self }
    {
        self.kind as u64 * 65536 + self.port as u64
    }

    // Any three words are read: kind and port from the low 24 bits of the first.
    pub fn from_words(first: u64, low: u64, high: u64) -> Address
        ensures { result ≡ of_words first low high }
    {
        Address {
            kind: (first / 65536 % 256) as u8,
            port: (first % 65536) as u16,
            low,
            high,
        }
    }
}

// Whether the three words of t from index at are these: words of a table, so that no value is made for a derived comparison.
pub fn has_words(t: &[u64], at: usize, first: u64, low: u64, high: u64) -> bool
    requires { at + 3 ≤ length t.now }
    ensures { result ≡ has_words t.now at first low high }
{
    if t[at] != first {
        return false;
    }
    if t[at + 1] != low {
        return false;
    }
    t[at + 2] == high
}
