// Times, searches and token entries for C: each export is the library's function of its name, with the same promise.
#![tactic(auto)]

mod entries_call;
mod finds;
mod moments;
