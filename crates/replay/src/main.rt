// Replays a sample of the Rust's answers, which stands in standard input, a call to a line: our functions must give the same. Each line
// is then replayed with one digit changed right of its sign, which must be noticed: a comparison that can't fail would show nothing. What
// reads and compares tokens promises an equation (`tokens`, `text`); the rest is safe and ends, and what it is worth is run.
#![tactic(auto)]

ghost use Rattle.std.specs.Prelude.{◌<◌, ◌≤◌, IfSome};

use std::io;
use std::io::{Read, Stdin};

mod challenges;
mod change;
mod heads;
mod kinds;
mod packets;
mod text;
mod windows;
mod words;

// How many calls there are, and one more for lines that are of none.
const CALLS: usize = 11;

// The calls that the sample has.
#[derive(Clone, Copy, PartialEq, Eq)]
enum Call {
    Prefix,
    Unprefix,
    Sequence,
    Additional,
    Private,
    Window,
    Encode,
    Decode,
    Challenge,
    Proof,
}

// Each with its name, in the order of their counts.
const NAMES: [(&[u8], Call); 10] = [
    (b"prefix", Call::Prefix),
    (b"unprefix", Call::Unprefix),
    (b"sequence", Call::Sequence),
    (b"additional", Call::Additional),
    (b"private", Call::Private),
    (b"window", Call::Window),
    (b"encode", Call::Encode),
    (b"decode", Call::Decode),
    (b"challenge", Call::Challenge),
    (b"proof", Call::Proof),
];

// Of each call: its lines, those as the Rust, those whose change was noticed.
#[derive(Drop)]
struct Counts {
    lines: [u64; CALLS],
    same: [u64; CALLS],
    noticed: [u64; CALLS],
}

// ---- one line

// The place among the names of the call that the line is of.
fn place_of(line: &[u8]) -> Option<usize>
    ensures { IfSome result (λ at. at < 10) }
{
    let name = tokens::token(line, 0);
    NAMES.iter().position(|known| known.0 == name)
}

// 1 where the line is as the Rust, 0 where not.
fn replayed(call: Call, line: &[u8]) -> u64
    ensures { result ≤ 1 }
{
    match call {
        Call::Prefix => heads::prefix(line),
        Call::Unprefix => heads::unprefix(line),
        Call::Sequence => heads::sequence(line),
        Call::Additional => heads::additional(line),
        Call::Private => heads::private(line),
        Call::Window => windows::moved(line),
        Call::Encode => packets::encode(line),
        Call::Decode => packets::decode(line),
        Call::Challenge => challenges::challenge(line),
        Call::Proof => challenges::proof(line),
    }
}

fn add(count: &mut u64, n: u64) {
    *count = count.wrapping_add(n);
}

// A line of a call is replayed; one of none is counted last.
fn take_line(line: &mut [u8], counts: &mut Counts) {
    match place_of(line) {
        Some(at) => take_call(NAMES[at].1, line, at, counts),
        None => add(&mut counts.lines[10], 1),
    }
}

// A line that is as the Rust must not be so any more once a digit is changed.
fn take_call(call: Call, line: &mut [u8], at: usize, counts: &mut Counts)
    requires { at < 10 }
{
    let number = counts.lines[at];
    add(&mut counts.lines[at], 1);
    let before = replayed(call, line);
    add(&mut counts.same[at], before);
    if before == 1 {
        change::change(line, number);
        let after = replayed(call, line);
        add(&mut counts.noticed[at], 1 - after);
    }
}

// ---- the file

// The first at bytes are a line; one that is too long is of no call.
fn take(line: &mut [u8], at: usize, counts: &mut Counts) {
    if at > 16000 {
        add(&mut counts.lines[10], 1);
        return;
    }
    if at <= line.len() {
        take_line(&mut line[..at], counts);
    }
}

// The line with a byte more; where it is full, it stays so.
fn put(line: &mut [u8], at: usize, c: u8) -> usize {
    if at < line.len() {
        line[at] = c;
        return at + 1;
    }
    at
}

// The line after a byte: how many bytes of it are there.
fn step(c: u8, line: &mut [u8], at: usize, counts: &mut Counts) -> usize {
    if c == b'\n' {
        take(line, at, counts);
        return 0;
    }
    put(line, at, c)
}

// The bytes that were read, after those of an unfinished line; how many bytes of a line they leave unfinished.
fn feed(read: &[u8], line: &mut [u8], used: usize, counts: &mut Counts) -> usize {
    let mut at = used;
    for c in read {
        at = step(*c, line, at, counts);
    }
    at
}

// A proved loop has to end, and nothing says that the input does: no run uses its turns up.
fn read_all(
    input: &mut Stdin,
    space: &mut [u8],
    line: &mut [u8],
    counts: &mut Counts,
) -> io::Result<usize> {
    let mut used: usize = 0;
    for _ in 0..u64::MAX {
        let n = input.read(space)?;
        if n == 0 {
            return Ok(used);
        }
        used = feed(bodies::field(space, 0, 0, n), line, used, counts);
    }
    Ok(used)
}

// The file's lines; what no line's end follows is of no call.
fn replay_all(
    input: &mut Stdin,
    space: &mut [u8],
    line: &mut [u8],
    counts: &mut Counts,
) -> io::Result<()> {
    let left = read_all(input, space, line, counts)?;
    if left > 0 {
        add(&mut counts.lines[10], 1);
    }
    Ok(())
}

// ---- the table

fn total(counts: &[u64; CALLS]) -> u64 {
    let mut sum: u64 = 0;
    for count in counts {
        sum = sum.wrapping_add(*count);
    }
    sum
}

fn figures(rt: HostRuntime, lines: u64, same: u64, noticed: u64) -> io::Result<()> {
    println!(rt; ": {lines} lines, {same} as the Rust, {noticed} noticed with a digit changed")
}

fn rows(rt: HostRuntime, counts: &Counts) -> io::Result<()> {
    for (call, known) in NAMES.iter().enumerate() {
        rt.write_all(known.0)?;
        figures(
            rt,
            counts.lines[call],
            counts.same[call],
            counts.noticed[call],
        )?;
    }
    Ok(())
}

fn main(rt: HostRuntime) -> io::Result<()> {
    let mut counts = Counts {
        lines: [0; CALLS],
        same: [0; CALLS],
        noticed: [0; CALLS],
    };
    let mut space = [0u8; 65536];
    let mut line = [0u8; 16384];
    replay_all(&mut rt.stdin(), &mut space, &mut line, &mut counts)?;
    rows(rt, &counts)?;
    rt.write_all(b"all")?;
    figures(
        rt,
        total(&counts.lines),
        total(&counts.same),
        total(&counts.noticed),
    )
}
