//! The amounts of all nodes at one label.
ghost use Rattle.std.specs.Prelude.{◌≡◌, ℕ, ◌*◌, ◌<◌, ◌≤◌, length, slice_index};
ghost use Rattle.sheet.specs.Tree.{node_at};
ghost use Rattle.effects.specs.Rows.{places};
ghost use Rattle.effects.specs.Steps.{own_at, step_by, Amounts, NonePast};

use crate::row::Row;
use crate::rows::node_rows;
use crate::work::Work;
use counting::Counting;
use fault::Label;
use meaning::joined_for;
use tables::tables::Node;

/// The amount of a node; 0 past the last, which is what a node that is not there needs, so no `Option`.
pub(crate) fn amount_in(amounts: &[u32; 1024], node: usize) -> u32
    ensures { result ≡ slice_index amounts.now node }
{
    amounts.get(node).copied().unwrap_or(0)
}

impl<'a, C: Counting> Work<'a, C> {
    // That there is a node `n` is asked by three here: `n` is a number from a loop over the nodes, and a type that held this
    // would have to lend the nodes too.

    /// The rows of a node.
    pub(crate) fn node_rows(&self, n: usize) -> &[Row]
        requires { n < length self.now.nodes.now }
        ensures { result.now ≡ places self.now.rows.now n }
    {
        node_rows(self.rows, n)
    }

    /// What the rows of a node give a label, joined.
    fn own_amount(&self, n: usize, label: &Label<u8>) -> u32
        requires { n < length self.now.nodes.now }
        ensures { own_at (C.Counting.operations self.now.counting.now) self.now.rows.now label.now n ≤ (C.Counting.operations self.now.counting.now).ceiling → result ≡ own_at (C.Counting.operations self.now.counting.now) self.now.rows.now label.now n }
    {
        joined_for(self.counting, self.node_rows(n), label)
    }

    /// The amount of node `n` at a label, from its rows and the amounts of its children.
    fn node_amount(&self, n: usize, label: &Label<u8>, amounts: &[u32; 1024]) -> u32
        requires { n < length self.now.nodes.now }
        ensures { own_at (C.Counting.operations self.now.counting.now) self.now.rows.now label.now n ≤ (C.Counting.operations self.now.counting.now).ceiling → step_by (C.Counting.operations self.now.counting.now) (own_at (C.Counting.operations self.now.counting.now) self.now.rows.now label.now n) (λ c. slice_index amounts.now c) (node_at self.now.nodes.now n) ≤ (C.Counting.operations self.now.counting.now).ceiling → result ≡ step_by (C.Counting.operations self.now.counting.now) (own_at (C.Counting.operations self.now.counting.now) self.now.rows.now label.now n) (λ c. slice_index amounts.now c) (node_at self.now.nodes.now n) }
    {
        match self.nodes[n] {
            Node::Stop => 0,
            Node::Send { .. } => self.own_amount(n, label),
            Node::Receive { next, .. } | Node::Begin { next, .. } => {
                let own = self.own_amount(n, label);
                self.counting
                    .lack(amount_in(amounts, usize::from(next)), own)
            }
            Node::End { next, .. } => {
                let own = self.own_amount(n, label);
                self.counting
                    .join_or_zero(amount_in(amounts, usize::from(next)), own)
            }
            Node::Both { first, second } => {
                self.counting.join_or_zero(
                    amount_in(amounts, usize::from(first)),
                    amount_in(amounts, usize::from(second)),
                )
            }
            Node::Copy { next } | Node::New { next, .. } => amount_in(amounts, usize::from(next)),
            Node::Test { same, other, .. } => {
                amount_in(amounts, usize::from(same)).max(amount_in(amounts, usize::from(other)))
            }
        }
    }

    /// Writes the amounts of all nodes at a label: from the last node down, since each amount comes from those of the nodes
    /// after it. Past the last node they have to be 0, and still are: so one array serves every label in turn.
    pub(crate) fn write_amounts(&self, label: &Label<u8>, amounts: &mut [u32; 1024])
        requires { NonePast (length self.now.nodes.now) amounts.old }
        ensures amounts { (A : ℕ → ℕ) → Amounts (C.Counting.operations self.now.counting.now) self.now.nodes.now self.now.rows.now label.now A → (n : ℕ) → slice_index amounts.new n ≡ A n }
        ensures past { NonePast (length self.now.nodes.now) amounts.new }
    {
        // By numbers: what is written at a node's number is made of what stands at its children's.
        for n in (0..self.nodes.len()).rev() {
            let amount = self.node_amount(n, label, amounts);
            amounts[n] = amount;
        }
    }

    /// The amount of a node at a label; past the last node it is 0.
    pub(crate) fn amount_at(&self, node: usize, label: &Label<u8>) -> u32
        ensures { (A : ℕ → ℕ) → Amounts (C.Counting.operations self.now.counting.now) self.now.nodes.now self.now.rows.now label.now A → result ≡ A node }
    {
        // An array by number, since nothing here may allocate.
        let mut amounts = [0; 1024];
        self.write_amounts(label, &mut amounts);
        amount_in(&amounts, node)
    }
}
