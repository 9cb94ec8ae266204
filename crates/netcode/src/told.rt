// What a call comes to, where the host reads it: the record back in its words; the answer in 14 words, nine of `Answer::words` and of an ask
// its work, sizes of nonce and additional data, start and end; and the ask's key 32, nonce 24 and additional data 29 in 85 bytes.
ghost use Rattle.std.specs.Prelude.{◌≡◌, []};
ghost use Rattle.netcode.specs.Told.{work_number, answer_words, ask_bytes, desk};
ghost use Rattle.netcode.specs.Calls.{turn_on, stepped, stepped_as};

use crate::record;
use asks::Work;
use server::{Answer, Ask, Step};
use turns::Turn;

fn work_number(work: Work) -> u64
    ensures { result ≡ work_number work }
{
    match work {
        Work::Open => 0,
        Work::Seal => 1,
    }
}

pub fn lay_answer(answer: &mut [u64; 14], said: Answer, ask: Ask)
    ensures { answer.new ≡ answer_words answer.old said ask }
{
    let work = ask.work;
    let first = said.words();
    let rest = [
        work_number(work),
        ask.nonce_size as u64,
        ask.size as u64,
        ask.start as u64,
        ask.end as u64,
    ];
    serialize::copy(answer, 0, &first, 0, 9);
    serialize::copy(answer, 9, &rest, 0, 5);
}

pub fn lay_ask(told: &mut [u8; 85], ask: Ask)
    ensures { told.new ≡ ask_bytes told.old ask }
{
    let key = ask.key;
    let nonce = ask.nonce;
    let additional = ask.additional;
    serialize::copy(told, 0, &key, 0, 32);
    serialize::copy(told, 32, &nonce, 0, 24);
    serialize::copy(told, 56, &additional, 0, 29);
}

pub fn lay_turn(turn: Turn, words: &mut [u64; 34], answer: &mut [u64; 14], told: &mut [u8; 85])
    ensures { desk words.new answer.new told.new ≡ turn_on (desk words.old answer.old told.old) turn }
{
    let server = turn.server;
    let said = turn.answer;
    let ask = turn.ask;
    record::lay(words, server);
    lay_answer(answer, said, ask);
    lay_ask(told, ask);
}

// A call that never asks.
pub fn lay_step(step: Step, words: &mut [u64; 34], answer: &mut [u64; 14])
    ensures { stepped words.new answer.new [] ≡ stepped_as words.old answer.old step [] }
{
    let server = step.server;
    let said = step.answer;
    record::lay(words, server);
    lay_answer(answer, said, server::no_ask());
}
