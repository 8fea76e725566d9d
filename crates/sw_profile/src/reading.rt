//! The reading of a profile: keys, the version with equal groups, texts.
ghost use Rattle.std.specs.Prelude.{◌≡◌, ◌≤◌, Some, IfOk};
ghost use Rattle.std.specs.Option.{option_map};
ghost use Rattle.std.specs.Result.{result_err};
ghost use Rattle.addr_translate.specs.Geometry.{IsGroup};
ghost use Rattle.toml.specs.Data.{as_integer};
ghost use Rattle.toml.specs.View.{view, table_view};
ghost use Rattle.sw_profile.specs.declared.faults.ProfileFail.TheVariants as fails;
ghost use Rattle.sw_profile.specs.Keys.{member_at, number_fault, number, digits_fault, hash_digits, group_keys, equal_keys, first_fault};
ghost use Rattle.sw_profile.specs.Profiles.{natural, number_at, bytes_by, hash_key_at, group_at, equal_profile, profile_of, profile_in, Gives, IsReadable};

use crate::faults::{ProfileFail, ProfileFault, ProfileKey};
use crate::groups::grouped_profile;
use crate::profiles::Profile;
use addr_translate::{GroupShape, Shape};
use hash_units::{HASH_KEY_BYTES, HashKey, standard};
use std::alloc::Global;
use toml::{Table, Value};

/// How many bytes a profile has at most.
const MOST_BYTES: usize = 65_536;

/// Reads a profile of version 1 or 2: one TOML document of at most 65,536 bytes.
#[tactic(auto, using(crate::proofs::Texts::utf8), unfolding(crate::specs::Profiles::profile_in, crate::specs::Profiles::table_in))]
pub fn read_profile(alloc: Global, text: &[u8]) -> Result<Profile, ProfileFail>
    ensures answer { Gives result (profile_in text.now) }
    // want of memory is answered only where a text is read for its table
    ensures memory { result ≡ Err fails.Memory → IsReadable text.now }
{
    if text.len() > MOST_BYTES {
        return Err(ProfileFail::Fault(ProfileFault::TooLong));
    }
    let Ok(text) = std::str::from_utf8(text) else {
        return Err(ProfileFail::Fault(ProfileFault::NotToml));
    };
    match toml::table_from_str(alloc, text) {
        Ok(table) => match profile_of(&table) {
            Ok(profile) => Ok(profile),
            Err(fault) => Err(ProfileFail::Fault(fault)),
        },
        Err(error) => {
            if error.is_memory() {
                Err(ProfileFail::Memory)
            } else {
                Err(ProfileFail::Fault(ProfileFault::NotToml))
            }
        }
    }
}

/// The profile of a document's table.
#[tactic(auto, unfolding(crate::specs::Profiles::profile_of))]
fn profile_of(table: &Table) -> Result<Profile, ProfileFault>
    ensures { result ≡ profile_of (table_view table.now) }
{
    let version = number_at(table, ProfileKey::Version, 1, 2)?;
    if version == 1 {
        equal_profile(table)
    } else {
        grouped_profile(table)
    }
}

/// The profile of a table of version 1.
fn equal_profile(table: &Table) -> Result<Profile, ProfileFault>
    ensures fault { result_err result ≡ first_fault equal_keys (table_view table.now) }
    ensures value { IfOk result (λ profile. profile ≡ equal_profile (table_view table.now)) }
{
    let count = number_at(table, ProfileKey::Groups, 1, 12)?;
    let group = group_at(table, 16)?;
    let key = hash_key_at(table)?;
    Ok(Profile {
        shape: Shape::equal(count, group, 5),
        key,
    })
}

/// The group of a table, whose arrays have at most 2 to `most_bits` registers.
pub(crate) fn group_at(table: &Table, most_bits: u32) -> Result<GroupShape, ProfileFault>
    requires { most_bits ≤ 20 }
    ensures fault { result_err result ≡ first_fault (group_keys most_bits) (table_view table.now) }
    ensures value { IfOk result (λ group. group ≡ group_at (table_view table.now)) }
    ensures limits { IfOk result IsGroup }
{
    let cmus = number_at(table, ProfileKey::Cmus, 1, 4)?;
    let units = number_at(table, ProfileKey::Units, 1, 4)?;
    let bits = number_at(table, ProfileKey::LogRegisters, 5, most_bits)?;
    Ok(GroupShape { cmus, units, bits })
}

/// The hash key of a table, or the default key.
#[tactic(auto, unfolding(crate::specs::Keys::hash_digits, crate::specs::Profiles::hash_key_at))]
pub(crate) fn hash_key_at(table: &Table) -> Result<HashKey, ProfileFault>
    ensures fault { result_err result ≡ hash_digits (table_view table.now) }
    ensures value { IfOk result (λ key. key ≡ hash_key_at (table_view table.now)) }
{
    let key = ProfileKey::HashKey;
    match member_at(table, key) {
        Some(value) => match value.as_str() {
            Some(digits) => key_by_digits(digits),
            None => Err(ProfileFault::WrongType { key }),
        },
        None => Ok(standard()),
    }
}

/// A hash key by its digits.
#[tactic(auto, using(crate::proofs::DigitLemmas::digits_of_key))]
fn key_by_digits(digits: &str) -> Result<HashKey, ProfileFault>
    ensures fault { result_err result ≡ digits_fault (Some digits.now) }
    ensures value { IfOk result (λ key. key ≡ bytes_by (Some digits.now)) }
{
    let mut bytes = [0; HASH_KEY_BYTES];
    match hex::decode_to_slice(digits, &mut bytes) {
        Ok(()) => Ok(HashKey(bytes)),
        Err(_) => Err(ProfileFault::BadHashKey),
    }
}

/// The number at a key, from `least` to `most`.
#[tactic(auto, unfolding(crate::specs::Keys::number, crate::specs::Profiles::number_at))]
pub(crate) fn number_at(
    table: &Table,
    key: ProfileKey,
    least: u32,
    most: u32,
) -> Result<u32, ProfileFault>
    ensures fault { result_err result ≡ number key least most (table_view table.now) }
    ensures value { IfOk result (λ n. n ≡ number_at key (table_view table.now)) }
    ensures least { IfOk result (λ n. least ≤ n) }
    ensures most { IfOk result (λ n. n ≤ most) }
{
    match member_at(table, key) {
        Some(value) => number_in(value, key, least, most),
        None => Err(ProfileFault::Missing { key }),
    }
}

/// A value as a number from `least` to `most`.
fn number_in(value: &Value, key: ProfileKey, least: u32, most: u32) -> Result<u32, ProfileFault>
    ensures fault { result_err result ≡ number_fault key least most (as_integer (view value.now)) }
    ensures value { IfOk result (λ n. n ≡ natural (as_integer (view value.now))) }
    ensures least { IfOk result (λ n. least ≤ n) }
    ensures most { IfOk result (λ n. n ≤ most) }
{
    let Some(number) = value.as_integer() else {
        return Err(ProfileFault::WrongType { key });
    };
    if number < i64::from(least) || number > i64::from(most) {
        return Err(ProfileFault::OutOfRange { key });
    }
    Ok(number as u32)
}

/// What stands at a key.
pub(crate) fn member_at<'a>(table: &'a Table, key: ProfileKey) -> Option<&'a Value>
    ensures { option_map (λ v. view v.now) result ≡ member_at key (table_view table.now) }
{
    table.get(key.name())
}
