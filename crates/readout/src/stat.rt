//! What is in use of a switch, as lines.
ghost use Rattle.std.specs.Prelude.{◌≡◌, ◌+◌, ◌*◌, ◌==◌, ◌<◌, ◌≤◌, ◌++◌, codes, length};
ghost use Rattle.std.specs.Fmt.{decimal};
ghost use Rattle.std.specs.List.{flat_map, list_all, range_with_len};
ghost use Rattle.outside.specs.Faults.{HasCause};
ghost use Rattle.outside.specs.Sent.{Sends};
ghost use Rattle.addr_translate.specs.Geometry.{array_count, group_in};
ghost use Rattle.hex.specs.Hex.{encode_lower};
ghost use Rattle.key_mask.specs.Masks.{mask_bytes_of};
ghost use Rattle.readout.specs.Lines.{told_bytes, unit_text, group_line, array_line, stat_lines};
ghost use Rattle.readout.specs.Outcomes.{Gathers};

use crate::lines::put_number;
use crate::pieces::{Piece, end_block, make_room};
use crate::views::TaskView;
use addr_translate::Shape;
use fm_io::{Failed, Sink};
use hex::encode_to_slice;
use key_mask::{KEY_BYTES, Mask};

fn are_zero(bytes: &[u8]) -> bool
    ensures { result ≡ list_all (λ byte. byte == 0) bytes.now }
{
    bytes.iter().all(|byte| *byte == 0)
}

/// The bytes of a mask that are told: those of the fields that no IPv6 address has, where no other
/// stands in it.
fn told_bytes(bytes: &[u8; KEY_BYTES]) -> &[u8]
    ensures { result.now ≡ told_bytes bytes.now }
{
    if are_zero(&bytes[16..]) {
        &bytes[..16]
    } else {
        bytes
    }
}

/// Appends the bytes as hexadecimal digits.
fn put_bytes(piece: &mut Piece, bytes: &[u8])
    requires few { length bytes.now ≤ 48 }
    requires room { length piece.old.bytes + 96 ≤ 4096 }
    ensures text { piece.new.bytes ≡ piece.old.bytes ++ encode_lower bytes.now }
    ensures short { length piece.new.bytes ≤ length piece.old.bytes + 96 }
{
    let mut digits = [0; 96];
    let digits = &mut digits[..2 * bytes.len()];
    let Ok(()) = encode_to_slice(bytes, digits) else {
        unreachable!()
    };
    match str::from_utf8(digits) {
        Ok(text) => piece.push_str(text),
        Err(_) => unreachable!(),
    }
}

/// Appends the mask of a unit, or `-` where it is free.
fn put_unit(piece: &mut Piece, unit: Option<Mask>)
    requires { length piece.old.bytes + 97 ≤ 4096 }
    ensures text { piece.new.bytes ≡ piece.old.bytes ++ unit_text unit }
    ensures short { length piece.new.bytes ≤ length piece.old.bytes + 97 }
{
    match unit {
        Some(mask) => {
            piece.push_str(" ");
            put_bytes(piece, told_bytes(mask.bytes()));
        }
        None => piece.push_str(" -"),
    }
}

/// Appends the units of a group.
fn put_units<V: TaskView>(view: &V, group: u32, units: u32, piece: &mut Piece)
    requires group { group < length (V.seen view.now).geometry.groups }
    requires units { units ≡ (group_in (V.seen view.now).geometry group).units }
    requires few { units ≤ 4 }
    requires room { length piece.old.bytes + 388 ≤ 4096 }
    ensures text { piece.new.bytes ≡ piece.old.bytes
        ++ flat_map (λ unit. unit_text ((V.seen view.now).mask group unit)) (range_with_len 0 units) }
    ensures short { length piece.new.bytes ≤ length piece.old.bytes + 388 }
{
    'units: for unit in 0..units {
        put_unit(piece, view.unit(group, unit));
    }
}

/// The line of a group.
#[tactic(auto, unfolding(crate::specs::Lines::group_line))]
fn put_group<V: TaskView>(view: &V, shape: &Shape, group: u32, piece: &mut Piece)
    requires shape { shape.now ≡ (V.seen view.now).geometry }
    requires group { group < length (V.seen view.now).geometry.groups }
    requires room { length piece.old.bytes + 512 ≤ 4096 }
    ensures { piece.new.bytes ≡ piece.old.bytes ++ group_line (V.seen view.now) group }
{
    put_number(piece, "group ", group);
    piece.push_str(" units");
    put_units(view, group, shape.units_of(group), piece);
    piece.push_str("\n");
}

/// The line of an array.
#[tactic(auto, unfolding(crate::specs::Lines::array_line))]
fn put_array<V: TaskView>(view: &V, array: u32, piece: &mut Piece)
    requires array { array < array_count (V.seen view.now).geometry }
    requires room { length piece.old.bytes + 512 ≤ 4096 }
    ensures { piece.new.bytes ≡ piece.old.bytes ++ array_line (V.seen view.now) array }
{
    put_number(piece, "array ", array);
    put_number(piece, " free ", view.free_count(array));
    put_number(piece, " largest ", view.largest(array));
    put_number(piece, " live ", view.live_rows(array));
    piece.push_str("\n");
}

/// Gathers the lines of the groups.
fn gather_groups<V: TaskView, S: Sink>(
    view: &V,
    shape: &Shape,
    sink: &mut S,
    piece: &mut Piece,
) -> Result<(), Failed>
    requires { shape.now ≡ (V.seen view.now).geometry }
    ensures cause { HasCause (S.faults sink.old) (S.faults sink.new) result }
    ensures sent { Gathers (S.sent sink.old) piece.old.bytes
        (flat_map (group_line (V.seen view.now)) (range_with_len 0 (length (V.seen view.now).geometry.groups))) result piece.new.bytes (S.sent sink.new) }
{
    'groups: for group in 0..shape.group_count() {
        make_room(sink, piece)?;
        put_group(view, shape, group, piece);
    }
    Ok(())
}

/// Gathers the lines of the arrays.
fn gather_arrays<V: TaskView, S: Sink>(
    view: &V,
    shape: &Shape,
    sink: &mut S,
    piece: &mut Piece,
) -> Result<(), Failed>
    requires { shape.now ≡ (V.seen view.now).geometry }
    ensures cause { HasCause (S.faults sink.old) (S.faults sink.new) result }
    ensures sent { Gathers (S.sent sink.old) piece.old.bytes
        (flat_map (array_line (V.seen view.now)) (range_with_len 0 (array_count (V.seen view.now).geometry))) result piece.new.bytes (S.sent sink.new) }
{
    'arrays: for array in 0..shape.arrays() {
        make_room(sink, piece)?;
        put_array(view, array, piece);
    }
    Ok(())
}

/// The piece that begins with the numbers of groups and arrays.
fn begin_stat(shape: &Shape) -> Piece
    ensures { result.bytes ≡ codes "stat groups " ++ (decimal (length shape.now.groups) ++ (codes " arrays " ++ (decimal (array_count shape.now) ++ codes "\n"))) }
{
    let mut piece = Piece::new();
    put_number(&mut piece, "stat groups ", shape.group_count());
    put_number(&mut piece, " arrays ", shape.arrays());
    piece.push_str("\n");
    piece
}

/// Sends the units of each group, and the numbers of each array.
pub(crate) fn send_stat<V: TaskView, S: Sink>(view: &V, sink: &mut S) -> Result<(), Failed>
    ensures cause { HasCause (S.faults sink.old) (S.faults sink.new) result }
    ensures sent { Sends (S.sent sink.old) (stat_lines (V.seen view.now)) result (S.sent sink.new) }
{
    let shape = view.shape();
    let mut piece = begin_stat(&shape);
    gather_groups(view, &shape, sink, &mut piece)?;
    gather_arrays(view, &shape, sink, &mut piece)?;
    end_block(sink, &mut piece)
}
