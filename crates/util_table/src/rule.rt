//! A rule as a caller holds it.

/// A rule by which names are given.
#[derive(Clone, Copy, Debug, PartialEq, Eq)]
pub enum RenameRule {
    /// Every name is kept.
    Keep,
    /// The rule of the table's row with this number, from 0 on; a rule has the number of its first
    /// row. In a table that has no such row, every name is kept.
    Named(u32),
}
