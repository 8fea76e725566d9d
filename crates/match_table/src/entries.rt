//! The entries of an array.

use crate::operations::Micro;
use addr_translate::Region;
use group_keys::KeyUse;
use task_filters::Filter;

/// Row `row` of a task: for each packet that the filter matches, the operation of `micro` on the
/// register of the region that the row's hash of the key chooses.
#[derive(Clone, Copy, Debug, PartialEq, Eq)]
pub struct Entry {
    pub row: u32,
    pub filter: Filter,
    pub keys: KeyUse,
    pub region: Region,
    pub micro: Micro,
}
