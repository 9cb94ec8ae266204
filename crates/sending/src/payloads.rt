// A payload of the host's, for a connected pump.
ghost use Rattle.std.specs.Prelude.{◌≡◌};
ghost use Rattle.refusal.specs.Verdicts.{verdict};
ghost use Rattle.turns.specs.Packets.{spoken};
ghost use Rattle.sending.specs.Packets.{payload_refusal, generated};

use crate::packets;
use bodies::Packet;
use refusal::{Refusal, Why};
use server::NetcodeServer;
use turns::Turn;

// More than this a payload does not carry.
const NETCODE_MAX_PAYLOAD_BYTES: usize = 1300;

// 16, 23, 21.
fn payload_refusal(server: NetcodeServer, slots: usize, payload: usize) -> Result<(), Refusal>
    ensures { result ≡ verdict (payload_refusal server slots payload) }
{
    crate::ready_refusal(server, slots)?;
    if payload > NETCODE_MAX_PAYLOAD_BYTES {
        return Err(Refusal(Why::PayloadLong));
    }
    Ok(())
}

// The payload as a packet to the lowest slot with the id: 16, 23, 21, 22, 15, 14, or an ask to seal it.
pub fn generate_payload_packet(
    server: NetcodeServer,
    client_id: u64,
    payload: &[u8],
    slots: &[u64],
    out: &mut [u8],
) -> Turn
    ensures { spoken result out.new ≡ generated server slots.now client_id payload.now out.old }
{
    if let Err(refusal) = payload_refusal(server, slots.len(), payload.len()) {
        return turns::refused(server, refusal);
    }
    let set = server.set;
    match places::find_by_id(slots, set.slots, client_id) {
        Some(i) => packets::send(server, slots, i, Packet::Payload, payload, out),
        None => turns::refused(server, Refusal(Why::NoSuchClient)),
    }
}
