// What a line came to. Of the tables all is told, however much of them was lent.
use crate::kinds::Line;
use crate::say::Said;
use crate::world::World;
use crate::{asking, digest, world};

// Where the packet ends. One that is to be sealed is told without the tag's 16 places.
fn packet_end(answer: &[u64; 14]) -> u64 {
    match answer[0] {
        2 => sealed_end(answer[9], answer[13]),
        3 | 5 | 6 => answer[8],
        _ => 0,
    }
}

fn sealed_end(work: u64, end: u64) -> u64 {
    if work != 1 {
        return 0;
    }
    end.saturating_sub(16)
}

fn tables(said: &mut Said, world: &World) {
    digest::tell(
        said,
        world::first(&world.slots, world.whole.slots),
        world::first(&world.pending, world.whole.pending),
        world::first(&world.entries, world.whole.entries),
    );
}

// The answer's 14 words, the ask's 85 bytes, the packet that stands in the output, and the tables' digests.
fn call(said: &mut Said, world: &World) {
    said.numbers(&world.answer);
    said.bytes(&world.ask);
    said.bytes(world::first(&world.out, packet_end(&world.answer) as usize));
    tables(said, world);
}

// What a line says that makes a call or a query; of one that makes none nothing is said. Set-up's number stands in the answer's place for
// it.
pub(crate) fn tell(line: Line, left: &[u8], said: &mut Said, world: &World) {
    match line {
        Line::Words | Line::Entry | Line::AllEntries | Line::Lend => {}
        Line::Query => asking::tell(left, said, world),
        Line::SetUp => {
            said.number(world.answer[1]);
            tables(said, world);
        }
        _ => call(said, world),
    }
}
