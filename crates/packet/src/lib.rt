// Packets as a whole: no code, but the theorems over encode and decode together. What a packet says is in `bodies`, what is asked of
// the host in `asks`, writing in `encode`, reading in `decode`.
#![tactic(auto)]
