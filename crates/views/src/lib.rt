// What the theorems look at of a server: its records as they stand at places, and what a call may do to them. Definitions and proofs, no code.
#![tactic(auto)]
