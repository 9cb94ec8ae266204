// The seven packets without their heads: their types, and their bodies read from and written to a place of a slice.
#![tactic(auto)]

ghost use Rattle.std.specs.Prelude.{◌≡◌};
ghost use Rattle.bodies.specs.Kinds.{type_of, number_of, windowed, is_request};
ghost use Rattle.bodies.specs.Bodies.{kind_of, least, wants, body_length};

use refusal::{Refusal, Why};

mod challenge;
mod reader;
mod writer;

pub use challenge::ChallengeToken;
pub use reader::{field, payload, private_data, read, token_data, version_info, xnonce};
pub use writer::write;

// The figures of src/lib.rs that bodies are made of.
pub const NETCODE_CHALLENGE_TOKEN_BYTES: usize = 300;

pub const NETCODE_USER_DATA_BYTES: usize = 256;

pub const NETCODE_CONNECT_TOKEN_XNONCE_BYTES: usize = 24;

pub const NETCODE_CONNECT_TOKEN_PRIVATE_BYTES: usize = 1024;

#[derive(Clone, Copy)]
pub enum PacketType {
    ConnectionRequest,
    ConnectionDenied,
    Challenge,
    Response,
    KeepAlive,
    Payload,
    Disconnect,
}

// What a packet says in numbers. Its bytes stand beside it, in a slice: of a request its version, nonce and private data (13, 24
// and 1,024), of a challenge or response its token data (300), of a payload all of it.
#[derive(Clone, Copy)]
pub enum Packet {
    ConnectionRequest {
        protocol_id: u64,
        expire_timestamp: u64,
    },
    ConnectionDenied,
    Challenge {
        token_sequence: u64,
    },
    Response {
        token_sequence: u64,
    },
    KeepAlive {
        client_index: u32,
        max_clients: u32,
    },
    Payload,
    Disconnect,
}

impl PacketType {
    // The type that a number is, among the seven.
    #[tactic(auto, unfolding(crate::specs::Kinds::type_of, serialize::specs::Choice::pick))]
    pub fn from_u8(value: u8) -> Result<PacketType, Refusal>
        ensures { result ≡ type_of value }
    {
        match value {
            0 => Ok(PacketType::ConnectionRequest),
            1 => Ok(PacketType::ConnectionDenied),
            2 => Ok(PacketType::Challenge),
            3 => Ok(PacketType::Response),
            4 => Ok(PacketType::KeepAlive),
            5 => Ok(PacketType::Payload),
            6 => Ok(PacketType::Disconnect),
            _ => Err(Refusal(Why::NoSuchType)),
        }
    }

    pub fn to_u8(self) -> u8
        ensures { result ≡ number_of self }
    {
        match self {
            PacketType::ConnectionRequest => 0,
            PacketType::ConnectionDenied => 1,
            PacketType::Challenge => 2,
            PacketType::Response => 3,
            PacketType::KeepAlive => 4,
            PacketType::Payload => 5,
            PacketType::Disconnect => 6,
        }
    }

    // The least that a body of this type has; less is refused.
    pub fn least(self) -> usize
        ensures { result ≡ least self }
    {
        match self {
            PacketType::ConnectionRequest => 1077,
            PacketType::ConnectionDenied => 0,
            PacketType::Challenge => 308,
            PacketType::Response => 308,
            PacketType::KeepAlive => 8,
            PacketType::Payload => 0,
            PacketType::Disconnect => 0,
        }
    }

    // How many bytes must stand beside a packet of this type. More are not looked at, but for a payload, which takes all.
    pub fn wants(self) -> usize
        ensures { result ≡ wants self }
    {
        match self {
            PacketType::ConnectionRequest => 1061,
            PacketType::ConnectionDenied => 0,
            PacketType::Challenge => 300,
            PacketType::Response => 300,
            PacketType::KeepAlive => 0,
            PacketType::Payload => 0,
            PacketType::Disconnect => 0,
        }
    }

    // How many bytes the body has as it is written, where `given` stand beside the packet.
    pub fn body_len(self, given: usize) -> usize
        ensures { result ≡ body_length self given }
    {
        match self {
            PacketType::ConnectionRequest => 1077,
            PacketType::ConnectionDenied => 0,
            PacketType::Challenge => 308,
            PacketType::Response => 308,
            PacketType::KeepAlive => 8,
            PacketType::Payload => given,
            PacketType::Disconnect => 0,
        }
    }

    pub fn is_request(self) -> bool
        ensures { result ≡ is_request self }
    {
        matches!(self, PacketType::ConnectionRequest)
    }

    // Whether the window guards packets of this type.
    pub fn apply_replay_protection(self) -> bool
        ensures { result ≡ windowed self }
    {
        matches!(
            self,
            PacketType::KeepAlive | PacketType::Payload | PacketType::Disconnect
        )
    }
}

impl Packet {
    pub fn packet_type(self) -> PacketType
        ensures { result ≡ kind_of self }
    {
        match self {
            Packet::ConnectionRequest { .. } => PacketType::ConnectionRequest,
            Packet::ConnectionDenied => PacketType::ConnectionDenied,
            Packet::Challenge { .. } => PacketType::Challenge,
            Packet::Response { .. } => PacketType::Response,
            Packet::KeepAlive { .. } => PacketType::KeepAlive,
            Packet::Payload => PacketType::Payload,
            Packet::Disconnect => PacketType::Disconnect,
        }
    }

    pub fn id(self) -> u8
        ensures { result ≡ number_of (kind_of self) }
    {
        self.packet_type().to_u8()
    }
}
