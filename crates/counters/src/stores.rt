//! How many entries the stores of a resolver have.

/// The entries of each store, expired ones that were not replaced among them.
#[derive(Clone, Copy, Debug, PartialEq, Eq)]
pub struct StoreSizes {
    /// RRsets and negative answers.
    pub cache: usize,
    /// Delegations.
    pub delegations: usize,
    /// Servers with a penalty.
    pub penalties: usize,
    /// Questions that a server failed to answer.
    pub failures: usize,
}
