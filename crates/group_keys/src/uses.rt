//! What a row's key is made of.

/// The units of a group that make a key: one, or two by the XOR of their hashes.
#[derive(Clone, Copy, Debug, PartialEq, Eq)]
pub enum KeyUse {
    Single { unit: u32 },
    Pair { one: u32, two: u32 },
}
