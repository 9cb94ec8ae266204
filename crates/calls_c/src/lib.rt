// The packets' parts for C: each export is the library's function of its name, with the same promise.
#![tactic(auto)]

mod heads;
mod packets;
mod tokens;
mod windows;
