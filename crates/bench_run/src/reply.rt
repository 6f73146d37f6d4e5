//! The transcript of a scenario.

/// The transcript of a scenario.
#[derive(Drop)]
pub struct Reply {
    /// A row for each line, and then the totals.
    pub text: String,
    /// How many of the lines are bad. They ask for nothing; all others are made as they stand.
    pub bad_lines: usize,
}
