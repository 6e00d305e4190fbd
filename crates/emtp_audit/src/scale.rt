//! What a configuration says of the data.

/// How an analog channel is scaled: a raw value x stands for a * x + b, in 1e-18 V, A or unit. Both are at most 1e28 in
/// magnitude.
#[derive(Clone, Copy, Debug, PartialEq, Eq)]
pub struct Scale {
    /// The step of a raw value.
    pub a: i128,
    /// What raw value 0 stands for.
    pub b: i128,
}

/// What a configuration says of the data: the scales of the analog channels in order, and the multiplier of time stamps,
/// in ps, from 1 to 1e18. IEEE C37.111-1999.
#[derive(Debug, Drop)]
pub struct Cfg {
    /// One an analog channel.
    pub scales: Vec<Scale>,
    /// How many ps a time stamp counts.
    pub multiplier: i64,
}
