// The marked cases of document 01, P1 to P12, proved about the definitions. There is no code here: `specs/Cases.antt` has the list,
// and `proofs/Marked.antt` the proof of the one statement about it. `specs/Starts.antt` says that demand 3
// can begin, on every link and after a broadcast setup.
#![tactic(auto)]
