// One packet's way, as a person would follow it: encoded, sealed by the host, decoded, opened by the host, read; then what is refused.
// The host's answers are stored: its seal was made with ChaCha20-Poly1305 (RFC 8439) outside this program. Every line says what came
// out of our functions, and whether it is what it should be.
#![tactic(auto)]

ghost use Rattle.std.specs.Prelude.{◌≤◌, IfOk};

use asks::Ask;
use bodies::{Packet, PacketType};
use decode::{Decoded, Decoding};
use encode::Encoding;
use replay_protection::ReplayProtection;
use std::io;
use std::io::{Print, Stdout};

const KEY: [u8; 32] = [
    0, 1, 2, 3, 4, 5, 6, 7, 8, 9, 10, 11, 12, 13, 14, 15, 16, 17, 18, 19, 20, 21, 22, 23, 24, 25,
    26, 27, 28, 29, 30, 31,
];

// The keep-alive's body, sealed, with its tag.
const SEALED: [u8; 24] =
    *b"\x1b\xb8\x42\x31\xa5\xe6\xa6\xd1\x05\x5e\xd0\xaa\x87\x74\xbb\x70\xde\xeb\x80\xba\x64\x4d\x8b\x15";

// The keep-alive's body: index 3, maximum 8.
const TEXT: [u8; 8] = *b"\x03\x00\x00\x00\x08\x00\x00\x00";

// The key that both ends hold.
fn with_key() -> Option<[u8; 32]> {
    Some(KEY)
}

fn fresh() -> Option<ReplayProtection> {
    Some(ReplayProtection::new())
}

// The number that refused, 0 for none.
fn refused(answer: Decoding) -> u64 {
    match answer {
        Decoding::Refused(refusal) => u64::from(refusal.number()),
        Decoding::Asked | Decoding::Read(_) => 0,
    }
}

// The length of an encoded packet, 0 where there is none.
fn length(answer: Encoding) -> u64 {
    match answer {
        Encoding::Length(n) => n as u64,
        Encoding::Refused(_) | Encoding::Asked => 0,
    }
}

// The index of a keep-alive that was read, 0 for anything else.
fn index(answer: Decoding) -> u64 {
    let Decoding::Read(opened) = answer else {
        return 0;
    };
    match opened.packet {
        Packet::KeepAlive { client_index, .. } => u64::from(client_index),
        _ => 0,
    }
}

// A line for each part of an ask.
fn asked(to: Stdout, ask: Ask) -> io::Result<u32>
    ensures { IfOk result (λ r. r ≤ 5) }
{
    let a = print::bytes(to, b"   key:", &ask.key, &KEY)?;
    let b = print::bytes(to, b"   nonce:", &ask.nonce, &[0u8; 12])?;
    let c = print::bytes(
        to,
        b"   additional data:",
        &ask.additional,
        b"NETCODE 1.02\x00\x07\x00\x00\x00\x00\x00\x00\x00\x04",
    )?;
    let d = print::number(to, b"   from byte:", ask.start as u64, 1)?;
    let e = print::number(to, b"   to byte:", ask.end as u64, 25)?;
    Ok(a + b + c + d + e)
}

// A keep-alive, encoded into a buffer of 26 bytes AA and sealed.
fn encodes(to: Stdout) -> io::Result<u32>
    ensures { IfOk result (λ r. r ≤ 8) }
{
    to.write_all(
        b"1. A keep-alive, slot 3 of 8, is encoded for protocol 7 under sequence 0, into 26 bytes AA.\n",
    )?;
    let mut out = [0xaau8; 26];
    let packet = Packet::KeepAlive {
        client_index: 3,
        max_clients: 8,
    };
    let first = encode::encode(&mut out, packet, b"", 7, with_key(), 0);
    let a = print::bytes(
        to,
        b"   prefix and body are written, the tag's place and the rest are not:",
        &out,
        b"\x04\x03\x00\x00\x00\x08\x00\x00\x00\xaa\xaa\xaa\xaa\xaa\xaa\xaa\xaa\xaa\xaa\xaa\xaa\xaa\xaa\xaa\xaa\xaa",
    )?;
    to.write_all(b"   The library asks the host to seal:\n")?;
    let b = asked(to, first.ask)?;
    to.write_all(b"2. The host seals in place and says yes.\n")?;
    serialize::copy(&mut out, 1, &SEALED, 0, 24);
    let last = encode::answer_seal(first.sealing, &out, true);
    let c = print::number(to, b"   the packet's length:", length(last.answer), 25)?;
    let d = print::bytes(
        to,
        b"   the buffer:",
        &out,
        b"\x04\x1b\xb8\x42\x31\xa5\xe6\xa6\xd1\x05\x5e\xd0\xaa\x87\x74\xbb\x70\xde\xeb\x80\xba\x64\x4d\x8b\x15\xaa",
    )?;
    Ok(a + b + c + d)
}

// The packet as a datagram, and as the host leaves it once it has opened it in place.
fn datagram() -> [u8; 25] {
    let mut d = [0x04u8; 25];
    d[1..].copy_from_slice(&SEALED);
    d
}

fn opened() -> [u8; 25] {
    let mut d = datagram();
    d[1..9].copy_from_slice(&TEXT);
    d
}

// It arrives, at a window.
fn arrives(guard: Option<ReplayProtection>) -> Decoded {
    decode::decode(&datagram(), 7, with_key(), guard)
}

fn decodes(to: Stdout) -> io::Result<u32>
    ensures { IfOk result (λ r. r ≤ 5) }
{
    to.write_all(b"3. The 25 bytes arrive where the window is fresh, and are decoded.\n")?;
    let first = arrives(fresh());
    to.write_all(b"   The library asks the host to open:\n")?;
    asked(to, first.ask)
}

// What the host might have answered.
fn refuses(to: Stdout) -> io::Result<u32>
    ensures { IfOk result (λ r. r ≤ 3) }
{
    to.write_all(b"4. Had the host said no, or lent other bytes:\n")?;
    let first = arrives(fresh());
    let forged = decode::answer_open(first.opening, &datagram(), first.guard, false);
    let a = print::number(to, b"   no, refused as:", refused(forged.answer), 8)?;
    let unlike = decode::answer_open(first.opening, b"other", first.guard, true);
    let b = print::number(
        to,
        b"   other bytes, refused as:",
        refused(unlike.answer),
        18,
    )?;
    let again = refusal::number(decode::guard_refusal(PacketType::KeepAlive, forged.guard, 0));
    let c = print::number(
        to,
        b"   the window then refuses sequence 0 as, 0 for not:",
        u64::from(again),
        0,
    )?;
    Ok(a + b + c)
}

// What it does answer; and the same datagram once more.
fn reads(to: Stdout) -> io::Result<u32>
    ensures { IfOk result (λ r. r ≤ 3) }
{
    to.write_all(b"5. The host opens in place and says yes.\n")?;
    let first = arrives(fresh());
    let last = decode::answer_open(first.opening, &opened(), first.guard, true);
    let a = print::number(to, b"   refused as, 0 for not:", refused(last.answer), 0)?;
    let b = print::number(to, b"   a keep-alive, its index:", index(last.answer), 3)?;
    let repeated = arrives(last.guard);
    let c = print::number(
        to,
        b"   the same bytes once more, refused as:",
        refused(repeated.answer),
        6,
    )?;
    Ok(a + b + c)
}

// The need of a disconnect: 17 bytes under sequence 0, which no reader takes, and 18 under 1.
fn disconnects(to: Stdout) -> io::Result<u32>
    ensures { IfOk result (λ r. r ≤ 4) }
{
    to.write_all(b"6. A disconnect has no body.\n")?;
    let mut out = [0u8; 18];
    let zero = encode::encode(&mut out, Packet::Disconnect, b"", 7, with_key(), 0);
    let a = print::number(
        to,
        b" * under sequence 0 its length:",
        zero.ask.end as u64,
        17,
    )?;
    let short = decode::decode(&[6u8; 17], 7, with_key(), fresh());
    let b = print::number(to, b" * 17 bytes, refused as:", refused(short.answer), 1)?;
    let next = encode::encode(&mut out, Packet::Disconnect, b"", 7, with_key(), 1);
    let c = print::number(
        to,
        b" * under sequence 1 its length:",
        next.ask.end as u64,
        18,
    )?;
    let long = decode::decode(&out, 7, with_key(), fresh());
    let d = print::number(
        to,
        b" * those 18 bytes are to be opened, to byte:",
        long.ask.end as u64,
        18,
    )?;
    Ok(a + b + c + d)
}

// Requests by their length.
fn requests(to: Stdout) -> io::Result<u32>
    ensures { IfOk result (λ r. r ≤ 3) }
{
    to.write_all(b"7. A request needs no key, and 1,078 bytes.\n")?;
    let short = decode::decode(&[0u8; 1077], 7, None, fresh());
    let a = print::number(to, b"   1,077 bytes, refused as:", refused(short.answer), 9)?;
    let whole = decode::decode(&[0u8; 1078], 7, None, fresh());
    let b = print::number(
        to,
        b"   1,078 bytes, refused as, 0 for not:",
        refused(whole.answer),
        0,
    )?;
    let keyless = decode::decode(&[4u8; 25], 7, None, fresh());
    let c = print::number(
        to,
        b"   a keep-alive without a key, refused as:",
        refused(keyless.answer),
        3,
    )?;
    Ok(a + b + c)
}

fn main(rt: HostRuntime) -> io::Result<()> {
    let to = rt.stdout();
    let written = encodes(to)?;
    let read = decodes(to)? + refuses(to)? + reads(to)?;
    let right = written + read + disconnects(to)? + requests(to)?;
    println!(to; "{right} of 26 lines hold")
}
