// A reply in document 01's numbers.
ghost use Rattle.std.specs.Prelude.{◌≡◌};
ghost use Rattle.queries.specs.Replies.{number_of, words_of};

use crate::Reply;

impl Reply {
    // The refusal's number, else 0.
    #[tactic(auto, unfolding(crate::specs::Replies::number_of))]
    pub fn number(self) -> u8
        ensures { result ≡ number_of self }
    {
        match self {
            Reply::Refused(refusal) => refusal.number(),
            Reply::Nothing => 0,
            Reply::Connected => 0,
            Reply::Count(_) => 0,
            Reply::Addr(_) => 0,
            Reply::Since(_) => 0,
            Reply::UserData => 0,
        }
    }

    // Which case, the number, and up to three values: a count, the words of an address, or seconds and nanoseconds.
    #[tactic(auto, unfolding(crate::specs::Replies::words_of))]
    pub fn words(self) -> [u64; 5]
        ensures { result ≡ words_of self }
    {
        match self {
            Reply::Refused(refusal) => [0, u64::from(refusal.number()), 0, 0, 0],
            Reply::Nothing => [1, 0, 0, 0, 0],
            Reply::Connected => [2, 0, 0, 0, 0],
            Reply::Count(count) => [3, 0, count as u64, 0, 0],
            Reply::Addr(addr) => [4, 0, addr.first_word(), addr.low, addr.high],
            Reply::Since(time) => [5, 0, time.secs, time.nanos, 0],
            Reply::UserData => [6, 0, 0, 0, 0],
        }
    }
}
