// The record's words with another step of the open ask, and the answer beside it, where nothing else of the record changes: the calls
// that a payload takes go through these, so that the record is not read and laid whole.
ghost use Rattle.std.specs.Prelude.{◌≡◌};
ghost use Rattle.server.specs.declared.Answer.TheVariants.{Ask as asks};
ghost use Rattle.server.specs.Asking.{no_ask};
ghost use Rattle.netcode.specs.Told.{desk, answer_words, ask_bytes};
ghost use Rattle.netcode.specs.Quick.{step_words, no_step};

use crate::told;
use server::{Answer, Ask};

// The number of the step, the lengths of its buffers, and words 22 to 33.
fn put_step(words: &mut [u64; 34], number: u64, datagram: usize, out: usize, rest: &[u64; 12])
    ensures { words.new ≡ step_words words.old number datagram out rest.now }
{
    let moving = [
        words[6],
        words[7],
        words[8],
        words[9],
        words[10],
        number,
        datagram as u64,
        out as u64,
    ];
    serialize::copy(words, 6, &moving, 0, 8);
    serialize::copy(words, 22, rest, 0, 12);
}

// The host is asked.
pub fn lay_asking(
    words: &mut [u64; 34],
    number: u64,
    datagram: usize,
    out: usize,
    rest: &[u64; 12],
    wanted: Ask,
    answer: &mut [u64; 14],
    ask: &mut [u8; 85],
)
    ensures { desk words.new answer.new ask.new ≡ desk (step_words words.old number datagram out rest.now) (answer_words answer.old asks wanted) (ask_bytes ask.old wanted) }
{
    put_step(words, number, datagram, out, rest);
    told::lay_answer(answer, Answer::Ask, wanted);
    told::lay_ask(ask, wanted);
}

// No ask is open, and nothing is asked.
pub fn lay_quiet(
    words: &mut [u64; 34],
    datagram: usize,
    out: usize,
    said: Answer,
    answer: &mut [u64; 14],
    ask: &mut [u8; 85],
)
    ensures { desk words.new answer.new ask.new ≡ desk (step_words words.old 0 datagram out no_step) (answer_words answer.old said no_ask) (ask_bytes ask.old no_ask) }
{
    let rest = [0, 0, 0, 0, 0, 0, 0, 0, 0, 0, 0, 0];
    put_step(words, 0, datagram, out, &rest);
    told::lay_answer(answer, said, server::no_ask());
    told::lay_ask(ask, server::no_ask());
}
