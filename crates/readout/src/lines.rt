//! The lines of read-outs, each put behind those of a piece that has room for it.
ghost use Rattle.std.specs.Prelude.{◌≡◌, ◌≢◌, ℕ, ◌+◌, ◌≤◌, ◌<◌, ◌++◌, length, codes};
ghost use Rattle.addr_translate.specs.Geometry.{array_count};
ghost use Rattle.readout.specs.Lines.{head_line, cell_line, reply_text, query_line, size_line, card_line, block_text, keys_text, frozen_text, stand_text, place_line};

use crate::pieces::Piece;
use crate::places::cell_count;
use crate::refusals::side_word;
use crate::views::{Placed, Side};
use addr_translate::{Region, Shape};
use group_keys::KeyUse;
use itoa::{Buffer, Integer};
use sketch_defs::{Name, Reply};

/// Appends the number behind a word.
pub(crate) fn put_number<I: Integer>(piece: &mut Piece, word: &str, number: I)
    requires { length piece.old.bytes + (length word.now + 40) ≤ 4096 }
    ensures text { piece.new.bytes ≡ piece.old.bytes ++ (word.now ++ I.text number) }
    ensures short { length piece.new.bytes ≤ length piece.old.bytes + (length word.now + 40) }
{
    piece.push_str(word);
    piece.push_str(Buffer::new().format(number));
}

/// The line that begins a block of cells.
#[tactic(auto, unfolding(crate::specs::Lines::head_line))]
pub(crate) fn put_head(piece: &mut Piece, side: Side, name: &Name, rows: u32, size: u32, start: u32)
    requires { length piece.old.bytes + 512 ≤ 4096 }
    ensures { piece.new.bytes ≡ piece.old.bytes ++ head_line side name.now rows size start }
{
    piece.push_str(side_word(side));
    piece.push_str(" ");
    piece.push_str(name.as_str());
    put_number(piece, " rows ", rows);
    put_number(piece, " size ", size);
    put_number(piece, " start ", start);
    piece.push_str("\n");
}

/// The line of a cell that is not as it started.
#[tactic(auto, unfolding(crate::specs::Lines::cell_line))]
pub(crate) fn put_cell(piece: &mut Piece, row: u32, index: u32, value: u32)
    requires { length piece.old.bytes + 512 ≤ 4096 }
    ensures { (start : ℕ) → value ≢ start → piece.new.bytes ≡ piece.old.bytes ++ cell_line start row index value }
{
    put_number(piece, "cell ", row);
    put_number(piece, " ", index);
    put_number(piece, " ", value);
    piece.push_str("\n");
}

/// The line of an answer to a key value.
#[tactic(auto, unfolding(crate::specs::Lines::query_line))]
pub(crate) fn put_query(piece: &mut Piece, name: &Name, reply: Reply)
    requires { length piece.old.bytes + 512 ≤ 4096 }
    ensures { piece.new.bytes ≡ piece.old.bytes ++ query_line name.now reply }
{
    piece.push_str("query ");
    piece.push_str(name.as_str());
    piece.push_str(" ");
    put_reply(piece, reply);
    piece.push_str("\n");
}

/// Appends the answer.
fn put_reply(piece: &mut Piece, reply: Reply)
    requires { length piece.old.bytes + 41 ≤ 4096 }
    ensures text { piece.new.bytes ≡ piece.old.bytes ++ reply_text reply }
    ensures short { length piece.new.bytes ≤ length piece.old.bytes + 40 }
{
    match reply {
        Reply::Number(number) => piece.push_str(Buffer::new().format(number)),
        Reply::Yes => piece.push_str("yes"),
        Reply::No => piece.push_str("no"),
    }
}

/// The line of the cells of one size.
#[tactic(auto, unfolding(crate::specs::Lines::size_line))]
pub(crate) fn put_size(piece: &mut Piece, value: u32, cells: usize)
    requires { length piece.old.bytes + 512 ≤ 4096 }
    ensures { piece.new.bytes ≡ piece.old.bytes ++ size_line (record { value = value; cells = cells }) }
{
    put_number(piece, "size ", value);
    put_number(piece, " cells ", cells);
    piece.push_str("\n");
}

/// The line that begins the sizes.
pub(crate) fn put_dist(piece: &mut Piece, name: &Name)
    requires { length piece.old.bytes + 512 ≤ 4096 }
    ensures { piece.new.bytes ≡ piece.old.bytes ++ (codes "dist " ++ (name.now ++ codes "\n")) }
{
    piece.push_str("dist ");
    piece.push_str(name.as_str());
    piece.push_str("\n");
}

/// The line of an estimate.
#[tactic(auto, unfolding(crate::specs::Lines::card_line))]
pub(crate) fn put_card(piece: &mut Piece, name: &Name, zeros: u32, z: u128, raw: u128)
    requires { length piece.old.bytes + 512 ≤ 4096 }
    ensures { piece.new.bytes ≡ piece.old.bytes ++ card_line name.now zeros z raw }
{
    piece.push_str("card ");
    piece.push_str(name.as_str());
    put_number(piece, " zeros ", zeros);
    put_number(piece, " z ", z);
    put_number(piece, " raw ", raw);
    piece.push_str("\n");
}

/// The line of a row of a task.
#[tactic(auto, unfolding(crate::specs::Lines::place_line))]
pub(crate) fn put_place(piece: &mut Piece, shape: &Shape, row: u32, place: &Placed)
    requires room { length piece.old.bytes + 512 ≤ 4096 }
    requires array { place.now.array < array_count shape.now }
    ensures { piece.new.bytes ≡ piece.old.bytes ++ place_line shape.now row place.now }
{
    put_stand(piece, shape, row, place.array);
    put_block(piece, place.region);
    piece.push_str(" keys ");
    put_keys(piece, place.keys);
    put_frozen(piece, place.frozen);
    piece.push_str("\n");
}

/// Appends the number of a row, and the array that it stands on.
fn put_stand(piece: &mut Piece, shape: &Shape, row: u32, array: u32)
    requires room { length piece.old.bytes + 137 ≤ 4096 }
    requires array { array < array_count shape.now }
    ensures text { piece.new.bytes ≡ piece.old.bytes ++ stand_text shape.now row array }
    ensures short { length piece.new.bytes ≤ length piece.old.bytes + 137 }
{
    put_number(piece, "row ", row);
    put_number(piece, " group ", shape.group_of(array));
    put_number(piece, " cmu ", shape.cmu_of(array));
}

/// Appends where a partition begins, and how many registers it has.
fn put_block(piece: &mut Piece, part: Region)
    requires { length piece.old.bytes + 100 ≤ 4096 }
    ensures text { piece.new.bytes ≡ piece.old.bytes ++ block_text part }
    ensures short { length piece.new.bytes ≤ length piece.old.bytes + 92 }
{
    put_number(piece, " base ", part.base);
    put_number(piece, " size ", cell_count(part));
}

/// Appends the units that make a key: one, or two with `+` between.
fn put_keys(piece: &mut Piece, keys: KeyUse)
    requires { length piece.old.bytes + 100 ≤ 4096 }
    ensures text { piece.new.bytes ≡ piece.old.bytes ++ keys_text keys }
    ensures short { length piece.new.bytes ≤ length piece.old.bytes + 81 }
{
    match keys {
        KeyUse::Single { unit } => piece.push_str(Buffer::new().format(unit)),
        KeyUse::Pair { one, two } => {
            piece.push_str(Buffer::new().format(one));
            put_number(piece, "+", two);
        }
    }
}

/// Appends the frozen partition, where there is one.
fn put_frozen(piece: &mut Piece, frozen: Option<Region>)
    requires { length piece.old.bytes + 107 ≤ 4096 }
    ensures text { piece.new.bytes ≡ piece.old.bytes ++ frozen_text frozen }
    ensures short { length piece.new.bytes ≤ length piece.old.bytes + 99 }
{
    if let Some(part) = frozen {
        piece.push_str(" frozen");
        put_block(piece, part);
    }
}
