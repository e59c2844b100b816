// What the functions of the change requests themselves say, held to their promises, and the zeros of every call's
// refusal: definitions (specs/) and theorems (proofs/), and no code. The calls of document 01 have theirs in the crate
// grid.
#![tactic(auto)]
