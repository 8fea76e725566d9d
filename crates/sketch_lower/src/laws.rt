//! Laws of the cells and entries. Each is the contract of an empty function.
ghost use Rattle.sketch_lower.specs.Laws.{CellsStart, CellsStep, CarryIsBound, RowLeaves, RowsLeave, LoweredOperation, EntryLeaves};

/// Before any packet each cell is what a register starts at.
#[tactic(auto, using(crate::proofs::CellLemmas::cells_start))]
pub fn cells_start()
    ensures { CellsStart }
{}

/// One packet more is one operation in each row, at the packet's place, and nothing else.
#[tactic(auto, using(crate::proofs::CellLemmas::cells_step))]
pub fn cells_step()
    ensures { CellsStep }
{}

/// The carry of a row of SuMax-Sum is the bound that the next row finds.
#[tactic(auto, using(crate::proofs::CellLemmas::carry_is_bound))]
pub fn carry_is_bound()
    ensures { CarryIsBound }
{}

/// What the operations of a row leave of its registers are its cells, where each packet finds the
/// bound that the cells leave it.
#[tactic(auto, using(crate::proofs::RowLemmas::row_leaves))]
pub fn row_leaves()
    ensures { RowLeaves }
{}

/// What the operations of all rows leave are the cells of the task, where each row hands its carry
/// to the next.
#[tactic(auto, using(crate::proofs::RowLemmas::rows_leave))]
pub fn rows_leave()
    ensures { RowsLeave }
{}

/// The operation by a row's entry is the row's operation, for every kind.
#[tactic(auto, using(crate::proofs::EntryLemmas::lowered_operation))]
pub fn lowered_operation()
    ensures { LoweredOperation }
{}

/// What the operations of a lowered row leave of the registers of its region are its cells, where
/// each packet finds, as the carry from another row, the bound that the cells leave it.
#[tactic(auto, using(crate::proofs::LeftLemmas::entry_leaves))]
pub fn entry_leaves()
    ensures { EntryLeaves }
{}
