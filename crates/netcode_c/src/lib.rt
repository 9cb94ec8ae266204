// The C interface of include/netcode.h: each export is the library's function of its name, with the same promise.
#![tactic(auto)]

mod asking;
mod clients;
mod datagrams;
mod sizes;
mod standing;
