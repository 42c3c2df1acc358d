//! The worked table of furnace 2, as one theorem.
#![tactic(auto)]

ghost use Rattle.furnace_table.specs.Table.{FurnaceTable};

/// States the table: the log's ten entries, and what each of its thirteen queries finds in them, in how many calls.
///
/// It exists for what it promises.
pub fn furnace_2_table()
    ensures { FurnaceTable }
{}
