// The whole upload (document 01, "The sender and its rounds"): demand 3 over the definitions of unit, sender and links.
//
// Its rules are definitions of `specs/`: `Stored` (the frames that calls store), `SetUp` (whether the setup has arrived) and `Demand` (demand 3 as one
// statement, with its two beginnings). `proofs/` has its proof.
// Calls, rounds and the lists of them stand in `round_rules`, the sender in `sender_rules`.
#![tactic(auto)]
