// What the server sends of its own accord: payloads, keep-alives, and the packets that end a connection.
#![tactic(auto)]

ghost use Rattle.std.specs.Prelude.{◌≡◌};
ghost use Rattle.refusal.specs.Verdicts.{verdict};
ghost use Rattle.sending.specs.Packets.{ready_refusal};

use refusal::Refusal;
use server::NetcodeServer;

mod clients;
mod packets;
mod payloads;

pub use clients::{disconnect, update_client};
pub use payloads::generate_payload_packet;

// 16, 23.
fn ready_refusal(server: NetcodeServer, slots: usize) -> Result<(), Refusal>
    ensures { result ≡ verdict (ready_refusal server slots) }
{
    let set = server.set;
    let ask = server.ask;
    let tables = server::slots_refusal(set, slots);
    server::call_refusal(ask, tables)
}
