//! The losses of a run as its caller lists them, by the numbers of copies and bursts.

/// The numbers of the copies and bursts that a run loses. A number may stand twice, or never come.
#[derive(Debug, Drop)]
pub struct LossPlan {
    pub copies: Vec<u64>,
    pub bursts: Vec<u64>,
}
