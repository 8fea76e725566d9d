//! Reading on in one of the two texts.
ghost use Rattle.std.specs.Prelude.{◌≡◌, ℕ, ◌+◌, ◌-◌, ◌<◌, ◌≤◌, [], length, take, drop, min, Some, Option, is_some};
ghost use Rattle.std.specs.List.{list_any};
ghost use Rattle.std.specs.Str.{bytes_eq};
ghost use Rattle.fm_io.specs.Slots.{slot_at, OthersStay, Begins, Yields, IsAtEnd};
ghost use Rattle.gen_capture.specs.Scripts.{script_text};
ghost use Rattle.gen_capture.specs.Places.{names, text_in, rest_of, offset_of, cursor_in, slot_in, slots_in, IsPlaced, ArePlaced};

use crate::packets::{packet_of, step};
use crate::places::{CapturePlace, Place};
use crate::records::{HEADER, RECORD_BYTES, record_of};
use crate::scripts::SCRIPT;

/// The first byte of the text of this name.
pub(crate) fn start_of(seed: u64, name: &str) -> Option<Place>
    ensures there { list_any (bytes_eq name.now) names ≡ is_some result }
    ensures told { (count : ℕ) → is_some (text_in seed count name.now) ≡ is_some result }
    ensures begins { (count : ℕ) → Begins (text_in seed count name.now) (slot_in seed count result).cursor }
    ensures placed { (count : ℕ) → IsPlaced seed count result }
{
    if name == "script" {
        Some(Place::Script { at: 0 })
    } else if name == "capture" {
        Some(Place::Capture(CapturePlace {
            begun: 0,
            state: seed,
            left: HEADER.len(),
        }))
    } else {
        None
    }
}

/// Goes on to the next record where nothing is left of what is being read.
fn go_on(place: CapturePlace, count: u32) -> CapturePlace
    ensures offset { offset_of result ≡ offset_of place }
    ensures rest { rest_of count result ≡ rest_of count place }
    ensures end { result.left ≡ 0 → rest_of count result ≡ [] }
{
    if place.left > 0 || place.begun >= count {
        return place;
    }
    CapturePlace {
        begun: place.begun + 1,
        state: step(place.state),
        left: RECORD_BYTES,
    }
}

/// Copies the bytes of `piece` of which so many are left, as far as `buf` has room.
fn copy_last(piece: &[u8], left: usize, buf: &mut [u8]) -> usize
    requires { left ≤ length piece.now }
    ensures count { result ≡ min left (length buf.old) }
    ensures next { take result buf.new ≡ take result (drop (length piece.now - left) piece.now) }
    ensures rest { drop result buf.new ≡ drop result buf.old }
{
    let last = &piece[piece.len() - left..];
    let count = left.min(buf.len());
    buf[..count].copy_from_slice(&last[..count]);
    count
}

/// Copies what is left of the header, or of the record that is being read.
fn copy_present(place: CapturePlace, buf: &mut [u8]) -> usize
    ensures count { result ≡ min place.left (length buf.old) }
    ensures next { (count : ℕ) → take result buf.new ≡ take result (rest_of count place) }
    ensures rest { drop result buf.new ≡ drop result buf.old }
{
    if place.begun == 0 {
        copy_last(&HEADER, place.left, buf)
    } else {
        copy_last(&record_of(packet_of(place.state)), place.left, buf)
    }
}

/// Reads on in the capture of so many packets.
fn read_capture(place: &mut CapturePlace, count: u32, buf: &mut [u8]) -> usize
    ensures next { take result buf.new ≡ take result (rest_of count place.old) }
    ensures left { rest_of count place.new ≡ drop result (rest_of count place.old) }
    ensures offset { offset_of place.new ≡ offset_of place.old + result }
    ensures within { result ≤ length buf.old }
    ensures end { 0 < length buf.old → result ≡ 0 → rest_of count place.old ≡ [] }
    ensures rest { drop result buf.new ≡ drop result buf.old }
{
    *place = go_on(*place, count);
    let read = copy_present(*place, buf);
    place.left -= read;
    read
}

/// Reads on in the script.
fn read_script(at: &mut usize, buf: &mut [u8]) -> usize
    ensures next { take result buf.new ≡ take result (drop at.old script_text) }
    ensures at { at.new ≡ at.old + result }
    ensures within { result ≤ length buf.old }
    ensures end { 0 < length buf.old → result ≡ 0 → drop at.old script_text ≡ [] }
    ensures rest { drop result buf.new ≡ drop result buf.old }
{
    let left = SCRIPT.len().saturating_sub(*at);
    let read = copy_last(SCRIPT, left, buf);
    *at += read;
    read
}

/// Reads on in a text, of which the place is one.
pub(crate) fn read_on(place: &mut Place, count: u32, buf: &mut [u8]) -> usize
    ensures placed { (seed : ℕ) → IsPlaced seed count (Some place.old)
        → IsPlaced seed count (Some place.new) }
    ensures yields { (seed : ℕ) → IsPlaced seed count (Some place.old)
        → Yields (take result buf.new) (cursor_in seed count place.old) (cursor_in seed count place.new) }
    ensures end { (seed : ℕ) → IsPlaced seed count (Some place.old) → 0 < length buf.old → result ≡ 0
        → IsAtEnd (cursor_in seed count place.new) }
    ensures within { result ≤ length buf.old }
    ensures rest { drop result buf.new ≡ drop result buf.old }
{
    match place {
        Place::Script { at } => read_script(at, buf),
        Place::Capture(place) => read_capture(place, count, buf),
    }
}

/// Puts this place into a slot.
pub(crate) fn put_place(places: &mut [Option<Place>], slot: usize, place: Option<Place>)
    requires slot { slot < 3 }
    requires three { length places.old ≡ 3 }
    ensures here { (seed count : ℕ) → slot_at (slots_in seed count places.new) slot
        ≡ slot_in seed count place }
    ensures others { (seed count : ℕ) → OthersStay slot
        (slots_in seed count places.old) (slots_in seed count places.new) }
    ensures placed { (seed count : ℕ) → ArePlaced seed count places.old → IsPlaced seed count place
        → ArePlaced seed count places.new }
{
    places[slot] = place;
}
