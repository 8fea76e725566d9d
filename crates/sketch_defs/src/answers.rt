//! What the cells of a task answer for a key.
ghost use Rattle.std.specs.Prelude.{◌≡◌, ◌≢◌, ◌<◌, ◌≤◌, Some, length, bit_and, bit_or};
ghost use Rattle.std.specs.List.{fold};
ghost use Rattle.sketch_defs.specs.declared.kinds.Kind.TheVariants.{Mrac, Hll};
ghost use Rattle.sketch_defs.specs.Answers.{answer_of, least_of, has_bit, have_bits};
ghost use Rattle.sketch_defs.specs.Cells.{cell_max};

use crate::kinds::Kind;
use hash_units::{bit, row_hash};

/// What a task answers for a key.
#[derive(Clone, Copy, Debug, PartialEq, Eq)]
pub enum Reply {
    Number(u32),
    Yes,
    No,
}

/// What HyperLogLog's estimate rests on: the number of cells that are 0, and the sum of
/// 2^(33 - cell) over all cells.
#[derive(Clone, Copy, Debug, PartialEq, Eq)]
pub struct Tally {
    pub zeros: u32,
    pub z: u128,
}

/// What the cells of a key, one a row, answer; `h` is the key's hash.
#[tactic(auto, unfolding(crate::specs::Answers::answer_of))]
pub fn answer(kind: Kind, cells: &[u32], h: u32) -> Reply
    requires some { 1 ≤ length cells.now }
    requires few { length cells.now ≤ 4 }
    requires no_counters { kind ≢ Mrac }
    requires no_ranks { kind ≢ Hll }
    ensures { answer_of kind cells.now h ≡ Some result }
{
    match kind {
        Kind::Cms | Kind::SumaxSum | Kind::SumaxMax => Reply::Number(least(cells)),
        Kind::Bloom => {
            if have_bits(cells, h) {
                Reply::Yes
            } else {
                Reply::No
            }
        }
        Kind::FlagOr => Reply::Number(set_in_all(cells)),
        Kind::FlagAnd => Reply::Number(set_in_any(cells)),
        Kind::Mrac | Kind::Hll => unreachable!(),
    }
}

fn least(cells: &[u32]) -> u32
    ensures { result ≡ least_of cells.now }
{
    cells.iter().fold(u32::MAX, |least, cell| least.min(*cell))
}

/// The bits that every cell has.
fn set_in_all(cells: &[u32]) -> u32
    ensures { result ≡ fold bit_and cell_max cells.now }
{
    cells.iter().fold(u32::MAX, |bits, cell| bits & *cell)
}

/// The bits that some cell has.
fn set_in_any(cells: &[u32]) -> u32
    ensures { result ≡ fold bit_or 0 cells.now }
{
    cells.iter().fold(0, |bits, cell| bits | *cell)
}

/// Whether the cell of each row has the bit of the row's hash.
fn have_bits(cells: &[u32], h: u32) -> bool
    requires { length cells.now ≤ 4 }
    ensures { result ≡ have_bits h 0 cells.now }
{
    'rows: for row in 0..cells.len() {
        if !has_bit(h, row as u32, cells[row]) {
            return false;
        }
    }
    true
}

fn has_bit(h: u32, row: u32, cell: u32) -> bool
    requires { row < 4 }
    ensures { result ≡ has_bit h row cell }
{
    (cell >> bit(row_hash(h, row))) & 1 == 1
}

#[cfg(test)]
mod tests {
    use super::{Reply, answer};
    use crate::kinds::Kind;

    // the hash of the source address 10.0.0.1
    const H: u32 = 0x919d_5c4a;

    #[test]
    fn cells_answer(rt: HostRuntime) {
        let rows: [(Kind, &[u32], Reply); 9] = [
            (Kind::Cms, &[u32::MAX], Reply::Number(u32::MAX)),
            (Kind::SumaxSum, &[1, 2, 1], Reply::Number(1)),
            (Kind::SumaxMax, &[60, 54], Reply::Number(54)),
            (Kind::Bloom, &[1024, 131_072], Reply::Yes),
            (Kind::Bloom, &[1024, 65_536], Reply::No),
            (Kind::FlagOr, &[18, 3], Reply::Number(2)),
            (Kind::FlagAnd, &[18, 3], Reply::Number(19)),
            (Kind::FlagAnd, &[u32::MAX], Reply::Number(u32::MAX)),
            (Kind::FlagAnd, &[2], Reply::Number(2)),
        ];
        for (kind, cells, reply) in rows {
            assert_eq!(rt; answer(kind, cells, H), reply);
        }
    }
}
