// One call: what the line gives is handed to netcode's function. Nothing here is lent what the line expects.
use crate::kinds::Line;
use crate::world::World;
use crate::{clients, datagrams, standing};

// A line that makes no call, and a query, which only looks, come to nothing here.
pub(crate) fn call(line: Line, left: &[u8], world: &mut World) {
    match line {
        Line::SetUp => standing::set_up(left, world),
        Line::Update => standing::update(left, world),
        Line::SetMaxClients => standing::set_max_clients(left, world),
        Line::Packet => datagrams::process_packet(left, world),
        Line::AnswerOpen => datagrams::answer_open(left, world),
        Line::AnswerToken => datagrams::answer_token(left, world),
        Line::AnswerSeal => datagrams::answer_seal(left, world),
        Line::Payload => clients::generate_payload_packet(left, world),
        Line::UpdateClient => clients::update_client(left, world),
        Line::Disconnect => clients::disconnect(left, world),
        Line::Query | Line::Words | Line::Entry | Line::AllEntries | Line::Lend => {}
    }
}
