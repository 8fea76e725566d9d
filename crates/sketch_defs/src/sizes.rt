//! The cells of MRAC in order, from which its sizes are read.
ghost use Rattle.std.specs.Prelude.{◌≡◌};
ghost use Rattle.std.specs.List.Sorted.{IsPermutation, IsSorted};
ghost use Rattle.std.specs.Ordering.{nat_cmp};
ghost use Rattle.sketch_defs.specs.Answers.{sizes_of};

/// Puts the cells into rising order, where each value stands with all that hold it.
#[tactic(auto, using(crate::proofs::SizeLemmas::sizes_in_any_order))]
pub fn histogram(cells: &mut [u32])
    ensures permutation { IsPermutation cells.old cells.new }
    ensures rising { IsSorted nat_cmp cells.new }
    ensures sizes { sizes_of cells.new ≡ sizes_of cells.old }
{
    cells.sort_unstable();
}

#[cfg(test)]
mod tests {
    use super::histogram;

    #[test]
    fn cells_rise(rt: HostRuntime) {
        let mut cells = [2, 0, 1, 0];
        histogram(&mut cells);
        assert_eq!(rt; cells, [0, 0, 1, 2]);
    }
}
