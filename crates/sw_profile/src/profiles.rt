//! What a profile is.
ghost use Rattle.std.specs.Prelude.{◌≡◌};
ghost use Rattle.sw_profile.specs.Profiles.{standard_profile};

use addr_translate::{GroupShape, Shape};
use hash_units::{HashKey, standard};

/// The shape of a switch and the key of its hash.
#[derive(Clone, Copy, Debug, PartialEq, Eq)]
pub struct Profile {
    pub shape: Shape,
    pub key: HashKey,
}

/// The profile of a switch of which nothing is said.
pub fn default_profile() -> Profile
    ensures { result ≡ standard_profile }
{
    let group = GroupShape {
        cmus: 3,
        units: 3,
        bits: 10,
    };
    Profile {
        shape: Shape::equal(3, group, 5),
        key: standard(),
    }
}
