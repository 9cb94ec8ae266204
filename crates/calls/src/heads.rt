// Prefix byte, sequence bytes and additional data.
ghost use Rattle.std.specs.Prelude.{◌≡◌};
ghost use Rattle.serialize.specs.Runs.{splice};
ghost use Rattle.serialize.specs.Le.{to_le};
ghost use Rattle.prefix.specs.Head.{fewest, prefix_byte};
ghost use Rattle.prefix.specs.Sealed.{additional_data, token_additional_data};
ghost use Rattle.calls.specs.Heads.{prefix_words, sequence_words, written};

pub fn pump_sequence_bytes_required(sequence: u64) -> usize
    ensures { result ≡ fewest sequence }
{
    prefix::sequence_bytes_required(sequence)
}

pub fn pump_encode_prefix(value: u8, sequence: u64) -> u8
    ensures { result ≡ prefix_byte value (fewest sequence) }
{
    prefix::encode_prefix(value, sequence)
}

// The type and the count.
pub fn pump_decode_prefix(value: u8, words: &mut [u64; 2])
    ensures { words.new ≡ prefix_words value }
{
    let prefix = prefix::decode_prefix(value);
    *words = [prefix.kind as u64, prefix.count as u64];
}

// The sequence's bytes at the start of eight, and how many they are.
pub fn pump_write_sequence(out: &mut [u8; 8], sequence: u64) -> usize
    ensures { written result out.new ≡ written (fewest sequence) (splice out.old 0 (to_le (fewest sequence) sequence)) }
{
    prefix::write_sequence(out, 0, sequence)
}

// The number that refuses, 0 for none, and the sequence.
pub fn pump_read_sequence(source: &[u8], at: usize, len: usize, words: &mut [u64; 2])
    ensures { words.new ≡ sequence_words source.now at len }
{
    match prefix::read_sequence(source, at, len) {
        Ok(number) => {
            *words = [0, number];
        }
        Err(refusal) => {
            *words = [u64::from(refusal.number()), 0];
        }
    }
}

pub fn pump_get_additional_data(out: &mut [u8; 22], prefix_byte: u8, protocol_id: u64)
    ensures { out.new ≡ additional_data prefix_byte protocol_id }
{
    *out = prefix::get_additional_data(prefix_byte, protocol_id);
}

pub fn pump_get_token_additional_data(out: &mut [u8; 29], protocol_id: u64, expire_timestamp: u64)
    ensures { out.new ≡ token_additional_data protocol_id expire_timestamp }
{
    *out = prefix::get_token_additional_data(protocol_id, expire_timestamp);
}
