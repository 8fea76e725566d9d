//! The vector of header fields that keys and filters look at, and masks by prefix over it.
#![tactic(auto)]

mod eights;
mod fields;
mod ipv6;
mod items;
mod keys;
pub mod laws;
mod masks;
mod numbers;
mod printing;
mod reading;
mod spelling;
mod vectors;

pub use eights::{eight_at, eight_left};
pub use fields::{FIELD_COUNT, FIELDS, Field, KEY_BYTES, ValueKind};
pub use items::{FieldFault, FieldKind, FromItems, field_of, prefix_of, read_items};
pub use keys::{parse_key, put_key};
pub use masks::{Mask, mask_bytes, mask_of, xors_to};
pub use numbers::number_of;
pub use printing::{Line, put_items};
pub use reading::value_of;
pub use vectors::{KeyVec, xor_of};
