//! Which counting a sheet is opened with.
ghost use Rattle.std.specs.Prelude.{◌≡◌, IfSome, IfNone};
ghost use Rattle.lines.specs.Choice.{parts, choice, kind};

use counting::{Once, Parts};

/// A counting that is built.
#[derive(Clone, Copy)]
pub enum Chosen {
    Parts(Parts),
    Once(Once),
}

/// The counting that the head in front of the bytes asks for. Where there is no head, or no counting can be made from
/// it, it is parts with a full right of 1.
pub fn choose(bytes: &[u8]) -> Chosen
    ensures { kind result ≡ choice bytes.now }
{
    asked_for(bytes).unwrap_or(Chosen::Parts(Parts::whole()))
}

/// The counting that the head in front of the bytes asks for; none where there is no head, or no counting can be made
/// from it.
fn asked_for(bytes: &[u8]) -> Option<Chosen>
    ensures some { IfSome result (λ c. kind c ≡ choice bytes.now) }
    ensures none { IfNone result (choice bytes.now ≡ parts 1) }
{
    let [1, _, code, a, b, c, d, ..] = bytes else {
        return None;
    };
    let full = u32::from_le_bytes([*a, *b, *c, *d]);
    match code {
        0 => Parts::new(full).ok().map(Chosen::Parts),
        1 if full == 1 => Some(Chosen::Once(Once)),
        _ => None,
    }
}
