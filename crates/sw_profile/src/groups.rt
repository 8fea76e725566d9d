//! Profiles of version 2, where each group has a table of its own.
ghost use Rattle.std.specs.Prelude.{◌≡◌, ◌≤◌, IfOk, is_some, vec_len};
ghost use Rattle.std.specs.List.{list_all};
ghost use Rattle.std.specs.Result.{result_err};
ghost use Rattle.addr_translate.specs.Geometry.{IsGroup};
ghost use Rattle.toml.specs.Data.{as_table, as_array};
ghost use Rattle.toml.specs.View.{view, table_view, array_view};
ghost use Rattle.sw_profile.specs.Keys.{first_fault, table_fault, each_fault, items_fault, array_fault, grouped_keys};
ghost use Rattle.sw_profile.specs.Profiles.{group_in, each_group, groups_in, grouped_profile};

use crate::faults::{ProfileFault, ProfileKey};
use crate::profiles::Profile;
use crate::reading::{group_at, hash_key_at, member_at, number_at};
use addr_translate::{GroupShape, MOST_GROUPS, Shape};
use toml::{Table, Value};

/// The profile of a table of version 2.
#[tactic(auto, unfolding(crate::specs::Keys::group_tables, crate::specs::Profiles::groups_at))]
pub(crate) fn grouped_profile(table: &Table) -> Result<Profile, ProfileFault>
    ensures fault { result_err result ≡ first_fault grouped_keys (table_view table.now) }
    ensures value { IfOk result (λ profile. profile ≡ grouped_profile (table_view table.now)) }
{
    let key = ProfileKey::Group;
    let split = number_at(table, ProfileKey::LogBlocks, 5, 10)?;
    let Some(value) = member_at(table, key) else {
        return Err(ProfileFault::Missing { key });
    };
    let shape = shape_in(value, split)?;
    let key = hash_key_at(table)?;
    Ok(Profile { shape, key })
}

/// The shape of the groups that a value says.
fn shape_in(value: &Value, split: u32) -> Result<Shape, ProfileFault>
    requires least { 5 ≤ split }
    requires most { split ≤ 10 }
    ensures fault { result_err result ≡ array_fault (as_array (view value.now)) }
    ensures value { IfOk result (λ shape.
        shape ≡ record { groups = groups_in (view value.now); split = split }) }
{
    match value.as_array() {
        Some(array) => shape_among(array, split),
        None => Err(ProfileFault::WrongType {
            key: ProfileKey::Group,
        }),
    }
}

/// The shape of the groups whose tables stand in an array.
#[tactic(auto, using(crate::proofs::GroupLemmas::of_items))]
fn shape_among(array: &Vec<Value>, split: u32) -> Result<Shape, ProfileFault>
    requires least { 5 ≤ split }
    requires most { split ≤ 10 }
    ensures fault { result_err result ≡ items_fault (array_view array.now) }
    ensures value { IfOk result (λ shape.
        shape ≡ record { groups = each_group (array_view array.now); split = split }) }
{
    let key = ProfileKey::Group;
    if !are_tables(array) {
        return Err(ProfileFault::WrongType { key });
    }
    if array.is_empty() {
        return Err(ProfileFault::OutOfRange { key });
    }
    if array.len() > MOST_GROUPS {
        return Err(ProfileFault::OutOfRange { key });
    }
    shape_of(array, split)
}

/// Whether all values are tables.
fn are_tables(array: &Vec<Value>) -> bool
    ensures { result ≡ list_all (λ v. is_some (as_table (view v))) array.now.items }
{
    array.iter().all(|value| value.is_table())
}

/// The shape of 1 to 12 groups, or the first fault of their tables.
fn shape_of(array: &Vec<Value>, split: u32) -> Result<Shape, ProfileFault>
    requires least { 5 ≤ split }
    requires most { split ≤ 10 }
    requires some { 1 ≤ vec_len array.now }
    requires few { vec_len array.now ≤ 12 }
    ensures fault { result_err result ≡ each_fault (array_view array.now) }
    ensures value { IfOk result (λ shape.
        shape ≡ record { groups = each_group (array_view array.now); split = split }) }
{
    let mut groups = [GroupShape::UNUSED; MOST_GROUPS];
    let mut count = 0;
    'values: for value in array {
        match group_of(value) {
            Ok(group) => groups[count] = group,
            Err(fault) => return Err(fault),
        }
        count += 1;
    }
    Ok(Shape::of(&groups[..count], split))
}

/// The group of a table.
fn group_of(value: &Value) -> Result<GroupShape, ProfileFault>
    ensures fault { result_err result ≡ table_fault (as_table (view value.now)) }
    ensures value { IfOk result (λ group. group ≡ group_in (view value.now)) }
    ensures limits { IfOk result IsGroup }
{
    match value.as_table() {
        Some(table) => group_at(table, 20),
        None => Err(ProfileFault::WrongType {
            key: ProfileKey::Group,
        }),
    }
}
