// The calls of document 01 for a C host (document 02, 2026-01): what each refuses, answers and promises as bytes
// (specs/), with the laws of it (proofs/), and no code. The calls themselves are in the crates host_grid and
// host_filing.
#![tactic(auto)]
