// Document 01's figures, run: prints each, what came out of our functions, and whether it holds. Those marked * are proved as
// well, together, in crates/packet/proofs/Figures.antt.
#![tactic(auto)]

ghost use Rattle.std.specs.Prelude.{◌≤◌, IfOk};

use std::io;
use std::io::{Print, Stdout};

// The head that the writer makes of a type and a sequence.
fn head(to: Stdout, name: &[u8], kind: u8, sequence: u64, want: &[u8]) -> io::Result<u32>
    ensures { IfOk result (λ r. r ≤ 1) }
{
    let mut buffer = [0u8; 9];
    buffer[0] = prefix::encode_prefix(kind, sequence);
    let n = prefix::write_sequence(&mut buffer, 1, sequence);
    let end = n + 1;
    print::bytes(to, name, &buffer[..end], want)
}

// The sequence that some bytes are.
fn sequence(to: Stdout, name: &[u8], bytes: &[u8], want: u64) -> io::Result<u32>
    ensures { IfOk result (λ r. r ≤ 1) }
{
    match prefix::read_sequence(bytes, 0, bytes.len()) {
        Ok(v) => print::number(to, name, v, want),
        Err(_) => print::refused(to, name),
    }
}

fn heads(to: Stdout) -> io::Result<u32>
    ensures { IfOk result (λ r. r ≤ 8) }
{
    to.write_all(b"prefix and sequence bytes, as written\n")?;
    let a = head(to, b"* type 4, sequence 0:", 4, 0, b"\x04")?;
    let b = head(to, b"* type 5, sequence 255:", 5, 255, b"\x15\xff")?;
    let c = head(to, b"* type 5, sequence 256:", 5, 256, b"\x25\x00\x01")?;
    let d = head(
        to,
        b"* type 5, sequence 2^64-1:",
        5,
        0xffff_ffff_ffff_ffff,
        b"\x85\xff\xff\xff\xff\xff\xff\xff\xff",
    )?;
    let e = head(
        to,
        b"  the standard's example, 1000 under high bits 2:",
        5,
        1000,
        b"\x25\xe8\x03",
    )?;
    let f = head(to, b"  type 6, sequence 65535:", 6, 65535, b"\x26\xff\xff")?;
    let g = head(
        to,
        b"  type 6, sequence 65536:",
        6,
        65536,
        b"\x36\x00\x00\x01",
    )?;
    let h = head(
        to,
        b"  type 1, sequence 2^56:",
        1,
        0x0100_0000_0000_0000,
        b"\x81\x00\x00\x00\x00\x00\x00\x00\x01",
    )?;
    Ok(a + b + c + d + e + f + g + h)
}

fn reads(to: Stdout) -> io::Result<u32>
    ensures { IfOk result (λ r. r ≤ 6) }
{
    to.write_all(b"sequence bytes, as read\n")?;
    let a = sequence(to, b"  no bytes:", b"", 0)?;
    let b = sequence(to, b"  the standard's example, E8 03:", b"\xe8\x03", 1000)?;
    let c = sequence(to, b"  padded to three, E8 03 00:", b"\xe8\x03\x00", 1000)?;
    let d = sequence(
        to,
        b"  padded to eight:",
        b"\xe8\x03\x00\x00\x00\x00\x00\x00",
        1000,
    )?;
    let e = sequence(
        to,
        b"  eight bytes FF:",
        b"\xff\xff\xff\xff\xff\xff\xff\xff",
        0xffff_ffff_ffff_ffff,
    )?;
    let claimed = prefix::decode_prefix(0x91).count;
    let refused = match prefix::read_sequence(&[0u8; 17], 0, claimed) {
        Ok(_) => 0,
        Err(refusal) => refusal.number(),
    };
    let f = print::number(
        to,
        b"  prefix 91 and 17 zero bytes, refused as:",
        u64::from(refused),
        4,
    )?;
    Ok(a + b + c + d + e + f)
}

fn sealed(to: Stdout) -> io::Result<u32>
    ensures { IfOk result (λ r. r ≤ 3) }
{
    to.write_all(b"beside the text\n")?;
    let additional = prefix::get_additional_data(4, 7);
    let a = print::bytes(
        to,
        b"* additional data, protocol 7, prefix 04:",
        &additional,
        b"NETCODE 1.02\x00\x07\x00\x00\x00\x00\x00\x00\x00\x04",
    )?;
    let token = prefix::get_token_additional_data(7, 100);
    let b = print::bytes(
        to,
        b"  a private token's, protocol 7, expiry 100:",
        &token,
        b"NETCODE 1.02\x00\x07\x00\x00\x00\x00\x00\x00\x00\x64\x00\x00\x00\x00\x00\x00\x00",
    )?;
    let nonce = prefix::packet_nonce(1000);
    let c = print::bytes(
        to,
        b"  nonce of sequence 1000:",
        &nonce,
        b"\x00\x00\x00\x00\xe8\x03\x00\x00\x00\x00\x00\x00",
    )?;
    Ok(a + b + c)
}

// The number of what refuses a sequence, 0 for none.
fn refused(
    to: Stdout,
    name: &[u8],
    window: replay_protection::ReplayProtection,
    sequence: u64,
    want: u64,
) -> io::Result<u32>
    ensures { IfOk result (λ r. r ≤ 1) }
{
    let number = refusal::number(window.refusal(sequence));
    print::number(to, name, u64::from(number), want)
}

fn window(to: Stdout) -> io::Result<u32>
    ensures { IfOk result (λ r. r ≤ 6) }
{
    to.write_all(b"the window: what refuses a sequence, 0 for none\n")?;
    let fresh = replay_protection::ReplayProtection::new();
    let at_300 = fresh.advance_sequence(300);
    let a = refused(to, b"* after 300, sequence 44:", at_300, 44, 6)?;
    let b = refused(to, b"* after 300, sequence 45:", at_300, 45, 0)?;
    let at_0 = fresh.advance_sequence(0);
    let c = refused(to, b"* after 0, sequence 256:", at_0, 256, 0)?;
    let d = refused(
        to,
        b"* after 0 and 256, sequence 0:",
        at_0.advance_sequence(256),
        0,
        6,
    )?;
    let e = refused(
        to,
        b"* fresh, sequence 2^64-257:",
        fresh,
        0xffff_ffff_ffff_feff,
        0,
    )?;
    let f = refused(
        to,
        b"* fresh, sequence 2^64-256:",
        fresh,
        0xffff_ffff_ffff_ff00,
        5,
    )?;
    Ok(a + b + c + d + e + f)
}

// The same window where it lies in a table, between words that are not its own.
fn in_table(to: Stdout) -> io::Result<u32>
    ensures { IfOk result (λ r. r ≤ 6) }
{
    to.write_all(b"the window, in a table\n")?;
    let mut table = [7u64; 259];
    replay_protection::store_window(&mut table, 1, replay_protection::ReplayProtection::new());
    replay_protection::advance_at(&mut table, 1, 300);
    let behind = refusal::number(replay_protection::refusal_at(&table, 1, 44));
    let a = print::number(to, b"  after 300, sequence 44:", u64::from(behind), 6)?;
    let near = refusal::number(replay_protection::refusal_at(&table, 1, 45));
    let b = print::number(to, b"  after 300, sequence 45:", u64::from(near), 0)?;
    replay_protection::advance_at(&mut table, 1, 44);
    let loaded = replay_protection::load_window(&table, 1);
    let c = print::number(
        to,
        b"  after 300 and 44, the highest:",
        loaded.most_recent_sequence,
        300,
    )?;
    let d = print::number(
        to,
        b"  after 300 and 44, place 44:",
        loaded.received_packet[44],
        300,
    )?;
    let e = print::number(to, b"  the word before it:", table[0], 7)?;
    let f = print::number(to, b"  the word after it:", table[258], 7)?;
    Ok(a + b + c + d + e + f)
}

fn main(rt: HostRuntime) -> io::Result<()> {
    let to = rt.stdout();
    let held = heads(to)? + reads(to)? + sealed(to)? + window(to)? + in_table(to)?;
    println!(to; "{held} of 29 figures hold")
}
