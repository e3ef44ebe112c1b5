//! A fault that was found, and which of two is told first.
ghost use Rattle.std.specs.Prelude.{◌≡◌};
ghost use Rattle.effects.specs.Found.{sooner, pick};

use crate::labels::is_before;
use fault::Label;

/// A label that is at fault at a node, or at none where the whole process needs something, with its amount there.
#[derive(Clone, Copy)]
pub struct Found {
    pub place: Option<usize>,
    pub label: Label<u8>,
    pub amount: u32,
}

/// Whether one fault is told before another: the higher node first, the root last, and at one place the lower label. No
/// derived order does that: it would put the lower node first, and compare the amounts too.
fn comes_sooner(one: &Found, other: &Found) -> bool
    ensures { result ≡ sooner one.now other.now }
{
    other.place < one.place || other.place == one.place && is_before(&one.label, &other.label)
}

/// The one that is told first, of the best so far and another.
pub fn better(best: Option<Found>, other: Found) -> Option<Found>
    ensures { result ≡ pick best other }
{
    let Some(old) = best else {
        return Some(other);
    };
    if comes_sooner(&other, &old) {
        Some(other)
    } else {
        Some(old)
    }
}
