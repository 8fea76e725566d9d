//! What a task is asked for.

use crate::views::Side;
use sketch_defs::Name;
use task_filters::Filter;

/// What one task is asked for.
#[derive(Clone, Copy, Debug, PartialEq, Eq)]
pub enum Ask {
    /// Its cells, in the partitions that it counts in or in those that a resize froze.
    Cells(Side),
    /// What it answers for a key value.
    Query(Filter),
    /// How many of its cells hold each value.
    Dist,
    /// Its estimate of the number of distinct keys.
    Card,
}
