// Numbers of several bytes, the lowest first: the rules are `specs/LittleEndian.antt`, and `proofs/Laws.antt` has that each number is its bytes'.
// The code is `little_endian`.
#![tactic(auto)]
