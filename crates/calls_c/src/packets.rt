// Packets: encode and decode, and the host's answers. What is kept open between a call and its answer lies on the desk.
ghost use Rattle.std.specs.Prelude.{◌≡◌};
ghost use Rattle.calls.specs.Heads.{written};
ghost use Rattle.calls.specs.Packets.{handed, placed, encode_call, answer_seal_call, decode_call, answer_open_call, field_of, field_call};

// The packet of a type and two numbers, with its bytes beside it, into out: 2 for a type over 6.
#[unsafe(no_mangle)]
pub extern "C" fn pump_encode(
    out: &mut [u8],
    kind: u8,
    a: u64,
    b: u64,
    bytes: &[u8],
    protocol_id: u64,
    keyed: bool,
    key: &[u8; 32],
    sequence: u64,
    words: &mut [u64; 16],
    told: &mut [u8; 66],
)
    ensures { handed words.new told.new out.new ≡ encode_call out.old kind a b bytes.now protocol_id keyed key.now sequence }
{
    calls::pump_encode(
        out,
        kind,
        a,
        b,
        bytes,
        protocol_id,
        keyed,
        key,
        sequence,
        words,
        told,
    )
}

// The host's answer to an ask to seal, of a packet or of a challenge token.
#[unsafe(no_mangle)]
pub extern "C" fn pump_answer_seal(out: &[u8], granted: bool, words: &mut [u64; 16])
    ensures { words.new ≡ answer_seal_call words.old out.now granted }
{
    calls::pump_answer_seal(out, granted, words)
}

// A datagram, with the key and the window of its sender, if they are there.
#[unsafe(no_mangle)]
pub extern "C" fn pump_decode(
    datagram: &[u8],
    protocol_id: u64,
    keyed: bool,
    key: &[u8; 32],
    guarded: bool,
    window: &mut [u64; 257],
    words: &mut [u64; 16],
    told: &mut [u8; 66],
)
    ensures { handed words.new told.new window.new ≡ decode_call datagram.now protocol_id keyed key.now guarded window.old }
{
    calls::pump_decode(
        datagram,
        protocol_id,
        keyed,
        key,
        guarded,
        window,
        words,
        told,
    )
}

// The host's answer to an ask to open.
#[unsafe(no_mangle)]
pub extern "C" fn pump_answer_open(
    datagram: &[u8],
    guarded: bool,
    window: &mut [u64; 257],
    granted: bool,
    words: &mut [u64; 16],
)
    ensures { placed words.new window.new ≡ answer_open_call words.old datagram.now guarded window.old granted }
{
    calls::pump_answer_open(datagram, guarded, window, granted, words)
}

// That part's length; it is copied to the start of out, if it fits there.
#[unsafe(no_mangle)]
pub extern "C" fn pump_field(which: u8, src: &[u8], at: usize, end: usize, out: &mut [u8]) -> usize
    ensures { written result out.new ≡ field_call (field_of which src.now at end) out.old }
{
    calls::pump_field(which, src, at, end, out)
}
