// Replays whole lives of servers, which stand in standard input, a call to a line, with what the Rust's server came to: netcode's
// functions must come to the same, in every answer, ask, packet and table. What reads tokens and compares texts promises an equation
// (`tokens`, `text`); the rest is safe and ends, and what it is worth is run.
#![tactic(auto)]

use report::Counts;
use say::Said;
use std::io;
use world::World;

mod alter;
mod asking;
mod clients;
mod datagrams;
mod digest;
mod judge;
mod kinds;
mod lines;
mod report;
mod say;
mod standing;
mod text;
mod told;
mod turn;
mod world;

// What a call is given, its sign with it, and what stands right of the sign.
fn left(line: &[u8]) -> &[u8] {
    bodies::field(line, 0, 0, tokens::after_sign(line))
}

fn right(line: &[u8]) -> &[u8] {
    bodies::field(line, tokens::after_sign(line), 0, line.len())
}

// A line without its end: the call, and whether it came to what stands right of the sign.
fn take(
    rt: HostRuntime,
    line: &[u8],
    world: &mut World,
    said: &mut Said,
    counts: &mut Counts,
) -> io::Result<()> {
    let given = left(line);
    match kinds::line_of(given) {
        Some(kind) => {
            counts.count_line(kind);
            standing::resize(kind, given, world);
            alter::alter(kind, given, world);
            datagrams::keep(kind, given, world);
            world.answer = world::UNWRITTEN_ANSWER;
            world.ask = world::UNWRITTEN_ASK;
            turn::call(kind, given, world);
            said.clear();
            told::tell(kind, given, said, world);
            judge::compare(rt, kind, given, right(line), said, counts)
        }
        None => {
            counts.count_other();
            judge::pass(rt, counts)
        }
    }
}

// A proved loop has to end, and nothing says that the input does: no run uses its turns up.
fn replay_all(rt: HostRuntime) -> io::Result<Counts> {
    let mut input = lines::Lines::new(rt.stdin());
    let mut counts = Counts::new();
    let mut world = World::new();
    let mut said = Said::new();
    for _ in 0..u64::MAX {
        if !input.read()? {
            return Ok(counts);
        }
        take(rt, input.line(), &mut world, &mut said, &mut counts)?;
    }
    Ok(counts)
}

fn main(rt: HostRuntime) -> io::Result<()> {
    let counts = replay_all(rt)?;
    report::table(rt, &counts)
}
