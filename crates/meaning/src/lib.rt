//! What a sheet means: the process of its nodes, the types of its names, and their scope, in the terms of the calculus.
#![tactic(auto)]

ghost use Rattle.std.specs.Prelude.{◌≡◌, ℕ, ◌≤◌, length};
ghost use Rattle.calculus.specs.Ceiling.{EntriesSmall};
ghost use Rattle.calculus.specs.Processes.{size};
ghost use Rattle.tables.specs.Elements.{elements};
ghost use Rattle.sheet.specs.Tree.{node_at};
ghost use Rattle.meaning.specs.Amounts.{BySteps};
ghost use Rattle.meaning.specs.Judged.{DecidesChecks};
ghost use Rattle.meaning.specs.Processes.{shape, process_at};
ghost use Rattle.meaning.specs.Scopes.{free, Scoped};
ghost use Rattle.meaning.specs.Types.{types_of};

use counting::Counting;
use sheet::OpenedSheet;

mod shares;

pub use shares::joined_for;

/// How many nodes an opened sheet has. The process at each is the node with the processes at its children; in the
/// whole process every name is in scope where it is used and fresh where it is bound; it has no more nodes than the
/// sheet, and the types of its names have few and small entries, so that no join passes the ceiling. So what is left to
/// judge of it decides the checks of the calculus; and the least amount at each node comes from those of its children.
pub fn node_count<C: Counting>(sheet: &OpenedSheet<C>) -> usize
    ensures value { result ≡ length (elements sheet.now.tables.nodes) }
    ensures unfolds { (n : ℕ) → process_at (elements sheet.now.tables.nodes) n ≡ shape (process_at (elements sheet.now.tables.nodes)) (node_at (elements sheet.now.tables.nodes) n) }
    ensures scoped { Scoped (free sheet.now.tables) (process_at (elements sheet.now.tables.nodes) 0) }
    ensures small { size (process_at (elements sheet.now.tables.nodes) 0) ≤ result }
    ensures entries { (x : ℕ) → EntriesSmall (C.Counting.operations sheet.now.counting) (types_of sheet.now.tables x) }
    ensures judging { DecidesChecks (C.Counting.operations sheet.now.counting) (types_of sheet.now.tables) (free sheet.now.tables) (process_at (elements sheet.now.tables.nodes) 0) }
    ensures amounts { BySteps (C.Counting.operations sheet.now.counting) sheet.now.tables }
{
    sheet.as_tables().nodes.len()
}
