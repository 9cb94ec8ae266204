// The host's answer to an ask to open a request's private token.
#![tactic(auto)]

ghost use Rattle.std.specs.Prelude.{◌≡◌, ◌≤◌, length};
ghost use Rattle.refusal.specs.Verdicts.{verdict};
ghost use Rattle.places.specs.Layout.{Shaped};
ghost use Rattle.entries.specs.Layout as entry;
ghost use Rattle.turns.specs.Outcomes.{state, came};
ghost use Rattle.grants.specs.Grants.{granted, list_unfit, fields_refusal, grant_refusal, foreign, granted_at, grants};

use refusal::{Refusal, Why};
use server::{Answer, HELD_BYTES, NetcodeServer, SetUp, Stage, Wanted};
use turns::Turn;

mod challenges;
mod tokens;

// What the host read in a private token, less its addresses, which are lent as words. A timeout is the 32 bits of the token's i32.
#[derive(Clone, Copy)]
pub struct PrivateConnectToken {
    pub client_id: u64,
    pub timeout_seconds: u32,
    pub server_to_client_key: [u8; 32],
    pub client_to_server_key: [u8; 32],
    pub user_data: [u8; 256],
}

// The most addresses that a token has.
const NETCODE_MAX_SERVER_ADDRESSES: usize = 32;

// Words that are no list of 0 to 32 well-formed addresses.
fn is_unfit(list: &[u64]) -> bool
    ensures { result ≡ list_unfit list.now }
{
    if list.len() % 3 != 0 {
        return true;
    }
    addresses::count_addresses(list) > NETCODE_MAX_SERVER_ADDRESSES
        || addresses::list_refusal(list).is_err()
}

// 18 for the fields of a yes; a no brings none. The host says yes or no beside them, as the C interface has it.
fn fields_refusal(given: bool, list: &[u64]) -> Result<(), Refusal>
    ensures { result ≡ verdict (fields_refusal given list.now) }
{
    if !given {
        return Ok(());
    }
    if is_unfit(list) {
        return Err(Refusal(Why::AnswerUnfit));
    }
    Ok(())
}

// 17, 23, 18.
fn grant_refusal(
    server: NetcodeServer,
    slots: &[u64],
    pending: &[u64],
    entries: usize,
    public: usize,
    datagram: usize,
    out: usize,
    given: bool,
    list: &[u64],
) -> Result<(), Refusal>
    ensures { result ≡ verdict (grant_refusal (state server slots.now pending.now) entries public datagram out given list.now) }
{
    let set = server.set;
    let tables = server::all_tables_refusal(set, slots.len(), pending.len(), entries, public);
    turns::open_refusal(server, tables, Wanted::Token, datagram, out)?;
    fields_refusal(given, list)
}

// 13: the server is secure and no address of the token is one of ours.
fn is_foreign(set: SetUp, list: &[u64], public: &[u64]) -> bool
    ensures { result ≡ foreign set list.now public.now }
{
    set.secure && !addresses::any_ours(list, public)
}

// After a yes, by the ask's stage. Only a private token's gets here; the others were refused.
fn grant(
    server: NetcodeServer,
    token: PrivateConnectToken,
    list: &[u64],
    slots: &[u64],
    pending: &mut [u64],
    entries: &mut [u8],
    public: &[u64],
    held: &mut [u8; HELD_BYTES],
    out: &mut [u8],
    datagram: usize,
) -> Turn
    requires { Shaped slots.now server.set.slots × Shaped pending.old server.set.pending × entry.Shaped entries.old server.set.entries × (1400 ≤ length out.old) }
    ensures { granted (came result slots.now pending.new) entries.new held.new out.new ≡ granted_at (state server slots.now pending.old) token list.now entries.old public.now held.old out.old datagram server.ask.stage }
{
    let set = server.set;
    let ask = server.ask;
    let stage = ask.stage;
    match stage {
        Stage::Idle => turns::refused(server, Refusal(Why::NoAsk)),
        Stage::Packet { .. } => turns::refused(server, Refusal(Why::AnswerUnfit)),
        Stage::Token {
            addr,
            expire_timestamp,
            mac_low,
            mac_high,
        } => {
            if is_foreign(set, list, public) {
                return turns::closed(server, Answer::Refused(Refusal(Why::NotForUs)));
            }
            tokens::consider(
                server,
                datagram,
                addr,
                expire_timestamp,
                mac_low,
                mac_high,
                token,
                slots,
                pending,
                entries,
                held,
                out,
            )
        }
        Stage::Challenge { .. } => turns::refused(server, Refusal(Why::AnswerUnfit)),
        Stage::Seal { .. } => turns::refused(server, Refusal(Why::AnswerUnfit)),
    }
}

// Yes, with what the token says, or no, to an ask to open a private token.
pub fn answer_token(
    server: NetcodeServer,
    given: bool,
    token: PrivateConnectToken,
    list: &[u64],
    slots: &[u64],
    pending: &mut [u64],
    entries: &mut [u8],
    public: &[u64],
    held: &mut [u8; HELD_BYTES],
    out: &mut [u8],
    datagram: &[u8],
) -> Turn
    ensures { granted (came result slots.now pending.new) entries.new held.new out.new ≡ grants (state server slots.now pending.old) given token list.now entries.old public.now held.old out.old (length datagram.now) }
{
    let tested = grant_refusal(
        server,
        slots,
        pending,
        entries.len(),
        public.len(),
        datagram.len(),
        out.len(),
        given,
        list,
    );
    if let Err(refusal) = tested {
        return turns::refused(server, refusal);
    }
    if given {
        let len = datagram.len();
        return grant(
            server, token, list, slots, pending, entries, public, held, out, len,
        );
    }
    turns::closed(server, Answer::Refused(Refusal(Why::NotOpened)))
}
