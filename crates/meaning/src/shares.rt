//! Shares of rights, joined.
ghost use Rattle.meaning.specs.Shares.{JoinedFor};

use counting::Counting;
use fault::{Exact, Label};
use tables::Share;

/// What the shares give a label: the amounts of those that have this label, joined, where that does not pass the
/// ceiling.
pub fn joined_for<C: Counting, T: Exact>(counting: &C, shares: &[Share<T>], label: &Label<T>) -> u32
    ensures { JoinedFor (C.Counting.operations counting.now) shares.now label.now result }
{
    let mut sum = 0;
    for share in shares {
        let given = share.given_to(label);
        // Most shares give a label nothing, and joining nothing changes nothing.
        if given != 0 {
            sum = counting.join_or_zero(sum, given);
        }
    }
    sum
}
