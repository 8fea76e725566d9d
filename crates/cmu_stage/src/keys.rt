//! The keys of a packet.
ghost use Rattle.std.specs.Prelude.{◌≡◌, ◌<◌};
ghost use Rattle.std.specs.List.{All};
ghost use Rattle.group_keys.specs.Units.{unit_at, units_in};
ghost use Rattle.cmu_stage.specs.Keys.{unit_key, keys_of, key_in};

use group_keys::{GroupKeys, KeyUse};
use hash_units::ByteTables;
use key_mask::{KEY_BYTES, KeyVec};

/// What the units of a group make of a packet, by their numbers: a hash, 0 of a free unit.
#[derive(Clone, Copy, Debug, PartialEq, Eq)]
pub struct Keys {
    pub of: [u32; 4],
}

/// The keys that the units of a group make of a vector.
pub fn compress(tables: &ByteTables<KEY_BYTES>, units: &GroupKeys, vec: &KeyVec) -> Keys
    ensures { result.of ≡ keys_of tables.now units.now vec.now }
{
    let one = unit_key(tables, units, 0, vec);
    let two = unit_key(tables, units, 1, vec);
    let three = unit_key(tables, units, 2, vec);
    let four = unit_key(tables, units, 3, vec);
    Keys {
        of: [one, two, three, four],
    }
}

/// The key that one unit makes of a vector.
// Inlined, so that a free unit costs one test.
#[inline(always)]
fn unit_key(tables: &ByteTables<KEY_BYTES>, units: &GroupKeys, unit: u32, vec: &KeyVec) -> u32
    requires { unit < 4 }
    ensures { result ≡ unit_key tables.now vec.now (unit_at units.now unit) }
{
    match units.mask(unit) {
        Some(mask) => tables.hash(vec, mask),
        None => 0,
    }
}

/// The key of a use: of a pair, the XOR of its two.
pub(crate) fn key_in(keys: &Keys, keys_used: KeyUse) -> u32
    requires { All (λ unit. unit < 4) (units_in keys_used) }
    ensures { result ≡ key_in keys.now.of keys_used }
{
    match keys_used {
        KeyUse::Single { unit } => keys.of[unit as usize],
        KeyUse::Pair { one, two } => keys.of[one as usize] ^ keys.of[two as usize],
    }
}
