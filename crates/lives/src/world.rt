// One server, what it is lent, and what the last call came to. A call is lent as much of each table and buffer as was said.
ghost use Rattle.std.specs.Prelude.{◌≡◌, ◌≤◌, min, take, length};

// How much of what is lent: words of slots, pending and public addresses, bytes of token entries, output and datagram, places of a list.
#[derive(Clone, Copy)]
pub(crate) struct Sizes {
    pub(crate) slots: usize,
    pub(crate) pending: usize,
    pub(crate) entries: usize,
    pub(crate) public: usize,
    pub(crate) out: usize,
    pub(crate) heard: usize,
    pub(crate) list: usize,
}

#[derive(Drop)]
pub(crate) struct World {
    pub(crate) server: [u64; 34],
    pub(crate) slots: [u64; 2480],
    pub(crate) pending: [u64; 1240],
    pub(crate) entries: [u8; 98304],
    pub(crate) public: [u64; 12],
    pub(crate) held: [u8; 340],
    pub(crate) out: [u8; 1400],
    pub(crate) heard: [u8; 2048],
    // How long the tables are since set-up.
    pub(crate) whole: Sizes,
    // How much of each is lent.
    pub(crate) lent: Sizes,
    pub(crate) answer: [u64; 14],
    pub(crate) ask: [u8; 85],
}

// What an answer and an ask hold before a call, so that what it leaves unwritten shows.
pub(crate) const UNWRITTEN_ANSWER: [u64; 14] = [0xaa; 14];

pub(crate) const UNWRITTEN_ASK: [u8; 85] = [0xaa; 85];

const NOTHING: Sizes = Sizes {
    slots: 0,
    pending: 0,
    entries: 0,
    public: 0,
    out: 0,
    heard: 0,
    list: 0,
};

impl World {
    // Before any set-up: all is zero, and nothing is lent.
    pub(crate) fn new() -> World {
        World {
            server: [0; 34],
            slots: [0; 2480],
            pending: [0; 1240],
            entries: [0; 98304],
            public: [0; 12],
            held: [0; 340],
            out: [0; 1400],
            heard: [0; 2048],
            whole: NOTHING,
            lent: NOTHING,
            answer: UNWRITTEN_ANSWER,
            ask: UNWRITTEN_ASK,
        }
    }
}

// The first n of them, or all where there are fewer.
pub(crate) fn first<T>(items: &[T], n: usize) -> &[T]
    ensures { result.now ≡ take n items.now }
{
    let end = n.min(items.len());
    &items[..end]
}

pub(crate) fn first_mut<T>(items: &mut [T], n: usize) -> &mut [T] {
    let end = n.min(items.len());
    &mut items[..end]
}
