//! The first fault of the amounts.
ghost use Rattle.std.specs.Prelude.{◌≡◌, ℕ, ◌≤◌, List, ◌∷◌, length, ◌==◌, slice_index};
ghost use Rattle.fault.specs.Items.{list};
ghost use Rattle.fault.specs.declared.label.Label.{Label as L};
ghost use Rattle.sheet.specs.Scope.{binds};
ghost use Rattle.sheet.specs.Tree.{node_at};
ghost use Rattle.effects.specs.Faults.{fault_at};
ghost use Rattle.effects.specs.Found.{meets, uncopyable, bad, asks, LastBad, Highest, FirstIn, FirstOf, with_row, brought};
ghost use Rattle.effects.specs.Steps.{Amounts, NonePast};

use crate::amounts::amount_in;
use crate::found::{Found, better};
use crate::labels::mentions_any;
use crate::row::Row;
use crate::work::Work;
use counting::Counting;
use fault::{Fault, Label};
use sheet::chart::names_bound;
use tables::tables::Node;

// Each of these speaks of amounts that the counting can hold, as its `join` does. A type for such amounts would be one for
// each counting, and its number would be taken out at every step. A label and its amounts stay two where both are handed on.

/// Whether an amount joined with itself is itself.
fn is_copyable<C: Counting>(counting: &C, amount: u32) -> bool
    ensures { amount ≤ (C.Counting.operations counting.now).ceiling → result ≡ ((C.Counting.operations counting.now).join amount amount == amount) }
{
    counting.join(amount, amount) == Some(amount)
}

/// Whether a node copies what cannot be copied.
fn copies_wrongly<C: Counting>(counting: &C, node: &Node, amount: u32) -> bool
    ensures { amount ≤ (C.Counting.operations counting.now).ceiling → result ≡ uncopyable (C.Counting.operations counting.now) amount node.now }
{
    matches!(node, Node::Copy { .. }) && !is_copyable(counting, amount)
}

/// Whether the amount of a label is at fault at a node.
fn is_bad<C: Counting>(counting: &C, node: &Node, label: &Label<u8>, amount: u32) -> bool
    ensures { amount ≤ (C.Counting.operations counting.now).ceiling → result ≡ bad (C.Counting.operations counting.now) node.now label.now amount }
{
    amount != 0
        && (mentions_any(label, &names_bound(node)) || copies_wrongly(counting, node, amount))
}

/// Whether a node brings labels in: only a send or an end adds to the amounts of its children.
fn is_asking(node: &Node) -> bool
    ensures { result ≡ asks node.now }
{
    matches!(node, Node::Send { .. } | Node::End { .. })
}

impl<'a, C: Counting> Work<'a, C> {
    /// The highest node at which a label is at fault, or none.
    fn highest_bad(&self, label: &Label<u8>, amounts: &[u32; 1024]) -> Option<usize>
        ensures { ((n : ℕ) → slice_index amounts.now n ≤ (C.Counting.operations self.now.counting.now).ceiling) → LastBad (λ n. bad (C.Counting.operations self.now.counting.now) (node_at self.now.nodes.now n) label.now (slice_index amounts.now n)) (length self.now.nodes.now) result }
    {
        (0..self.nodes.len()).rfind(|n| is_bad(self.counting, &self.nodes[*n], label, amounts[*n]))
    }

    /// The first fault at a label: the one at the highest node, and the root's where no node is at fault.
    fn first_at(&self, label: &Label<u8>, amounts: &[u32; 1024]) -> Option<Found>
        ensures { ((n : ℕ) → slice_index amounts.now n ≤ (C.Counting.operations self.now.counting.now).ceiling) → Highest (C.Counting.operations self.now.counting.now) self.now.nodes.now label.now (λ n. slice_index amounts.now n) result }
    {
        let place = self.highest_bad(label, amounts);
        let amount = amount_in(amounts, place.unwrap_or(0));
        if amount == 0 {
            return None;
        }
        Some(Found {
            place,
            label: *label,
            amount,
        })
    }

    // `A` names the amounts of all labels, which only the proof can hold: that they are the amounts is said anew in each of
    // these, as a field could hold it of no more than one label. The array of amounts is handed down, and written anew for
    // each label: to make one for each would take longer than the amounts of a small sheet.

    /// The first fault of the labels so far and this one.
    fn try_label(
        &self,
        label: &Label<u8>,
        best: Option<Found>,
        amounts: &mut [u32; 1024],
    ) -> Option<Found>
        requires { NonePast (length self.now.nodes.now) amounts.old }
        ensures past { NonePast (length self.now.nodes.now) amounts.new }
        ensures first { (A : L ℕ → ℕ → ℕ) → Amounts (C.Counting.operations self.now.counting.now) self.now.nodes.now self.now.rows.now label.now (A label.now) → (S : List (L ℕ)) → FirstIn (C.Counting.operations self.now.counting.now) self.now.nodes.now A S best → FirstIn (C.Counting.operations self.now.counting.now) self.now.nodes.now A (label.now ∷ S) result }
    {
        self.write_amounts(label, amounts);
        // Two cases, since each has a proof of its own: by `map_or` the goal that the result is the first stays open.
        match self.first_at(label, amounts) {
            Some(found) => better(best, found),
            None => best,
        }
    }

    /// The first fault of the labels so far and that of a row; a row with no amount brings none in.
    fn try_row(&self, row: &Row, best: Option<Found>, amounts: &mut [u32; 1024]) -> Option<Found>
        requires { NonePast (length self.now.nodes.now) amounts.old }
        ensures past { NonePast (length self.now.nodes.now) amounts.new }
        ensures first { (A : L ℕ → ℕ → ℕ) → ((l : L ℕ) → Amounts (C.Counting.operations self.now.counting.now) self.now.nodes.now self.now.rows.now l (A l)) → (S : List (L ℕ)) → FirstIn (C.Counting.operations self.now.counting.now) self.now.nodes.now A S best → FirstIn (C.Counting.operations self.now.counting.now) self.now.nodes.now A (with_row row.now S) result }
    {
        if row.amount == 0 {
            best
        } else {
            self.try_label(&row.label, best, amounts)
        }
    }

    /// The first fault of the labels so far and those that the rows bring in.
    fn try_rows(
        &self,
        rows: &[Row],
        mut best: Option<Found>,
        amounts: &mut [u32; 1024],
    ) -> Option<Found>
        requires { NonePast (length self.now.nodes.now) amounts.old }
        ensures past { NonePast (length self.now.nodes.now) amounts.new }
        ensures first { (A : L ℕ → ℕ → ℕ) → ((l : L ℕ) → Amounts (C.Counting.operations self.now.counting.now) self.now.nodes.now self.now.rows.now l (A l)) → (S : List (L ℕ)) → FirstIn (C.Counting.operations self.now.counting.now) self.now.nodes.now A S best → FirstIn (C.Counting.operations self.now.counting.now) self.now.nodes.now A (brought rows.now S) result }
    {
        for row in rows {
            best = self.try_row(row, best, amounts);
        }
        best
    }

    /// The first fault of all labels, or none: those that no row brings in have no amount anywhere.
    pub(crate) fn first_fault(&self) -> Option<Found>
        ensures { (A : L ℕ → ℕ → ℕ) → ((l : L ℕ) → Amounts (C.Counting.operations self.now.counting.now) self.now.nodes.now self.now.rows.now l (A l)) → FirstOf (C.Counting.operations self.now.counting.now) self.now.nodes.now A result }
    {
        // An array by number, since nothing here may allocate; one for all labels.
        let mut amounts = [0; 1024];
        let mut best = None;
        for (n, node) in self.nodes.iter().enumerate() {
            if is_asking(node) {
                best = self.try_rows(self.node_rows(n), best, &mut amounts);
            }
        }
        best
    }
}

/// The fault that is told of what was found.
pub(crate) fn told(nodes: &[Node], found: &Found) -> Fault
    ensures { result ≡ fault_at nodes.now found.now.place found.now.label found.now.amount }
{
    let label = found.label;
    let amount = found.amount;
    let Some(node) = found.place else {
        return Fault::RootOwes { label, amount };
    };
    match nodes.get(node) {
        Some(Node::Copy { .. }) => Fault::NotCopyable {
            node,
            label,
            amount,
        },
        _ => Fault::Escapes {
            node,
            label,
            amount,
        },
    }
}
