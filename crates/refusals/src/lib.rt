// Document 01's table for the calls about a datagram and for sending: which number is given exactly when, and what it leaves. Definitions and proofs, no code.
#![tactic(auto)]
