// Why a certificate is refused.

/// What is wrong with a line of a certificate.
#[derive(Clone, Copy, Debug, PartialEq, Eq)]
pub enum NoKind {
    /// The line isn't the next of the season's certificate.
    Form,
    /// A number is out of its range.
    Range,
    /// Lines are missing.
    Short,
    /// There is a line too many.
    Extra,
    /// A front of the path can't be made an obeying path.
    Path,
    /// The multipliers of a week and rung don't sum to zero.
    Sum,
    /// A value of the path, rounded down, is too great.
    Low,
    /// A value of the path, rounded up, is too small.
    High,
    /// A store's value under the multipliers is too small.
    Value,
    /// The rung chosen for all stores isn't live.
    Rung,
    /// A value of all stores, rounded down, is too great.
    JointLow,
    /// A value of all stores, rounded up, is too small.
    JointTop,
    /// A number of the last lines isn't that of the lines before.
    Total,
}

/// Where and why a certificate is refused.
#[derive(Clone, Copy, Debug, PartialEq, Eq)]
pub struct No {
    /// The number of the line, counted from 1.
    pub row: u64,
    /// What is wrong.
    pub kind: NoKind,
    /// The left side of the condition that fails, as docs/formats.md, "Its conditions", has it; 0 where the kind has none.
    pub left: i128,
    /// Its right side; 0 where the kind has none.
    pub right: i128,
}
