// Mending another yard's list of cells (document 02, 2026-10): what the mended list is and what its changes are
// (specs/), with the laws of it (proofs/). The call is in the crate mender.
#![tactic(auto)]

// How many places of the result and of the change lists were written.
#[derive(Clone, Copy, Debug, PartialEq, Eq, Hash)]
pub struct Written {
    pub count: u64,
    pub changes: u64,
}
