//! The lines that the bench prints.
ghost use Rattle.std.specs.Prelude.{◌≡◌, Some, IfOk, string_bytes};
ghost use Rattle.fault.specs.Items.{list};
ghost use Rattle.lines.specs.Lines.{word, dotted, amiss, refused, opened, text};

use fault::{Fault, Items, Label, Layer};
use std::alloc::{AllocError, Global};
use std::fmt;

/// What an input gave, which is printed as one line.
#[derive(Clone, Copy, PartialEq, Eq, Debug)]
pub enum Line {
    /// The sheet opens, and has so many nodes.
    Opened(usize),
    /// The input is refused.
    Refused(Fault),
}

impl fmt::Display for Line {
    ghost output = { λ line. Some (text line) };

    fn fmt<W: fmt::Write>(&self, f: &mut fmt::Formatter<W>) -> fmt::Result {
        match self {
            Line::Opened(nodes) => writeln!(f, "OPEN {nodes}"),
            Line::Refused(fault) => {
                let layer = Word(fault.layer());
                let number = fault.number();
                let place = fault.place();
                let about = About(fault.amiss());
                writeln!(f, "FAIL {layer} {number} {place}{about}")
            }
        }
    }
}

/// The word for a layer.
#[derive(Clone, Copy)]
struct Word(Layer);

impl fmt::Display for Word {
    ghost output = { λ w. Some (word w.0) };

    fn fmt<W: fmt::Write>(&self, f: &mut fmt::Formatter<W>) -> fmt::Result {
        f.write_str(match self.0 {
            Layer::Sheet => "sheet",
            Layer::Judge => "judge",
            Layer::Run => "run",
        })
    }
}

/// What is amiss, with a space in front: the label's names and the amount; or nothing.
#[derive(Clone, Copy)]
struct About(Option<(Label<u8>, u32)>);

impl fmt::Display for About {
    ghost output = { λ a. Some (amiss a.0) };

    fn fmt<W: fmt::Write>(&self, f: &mut fmt::Formatter<W>) -> fmt::Result {
        let Some((label, amount)) = self.0 else {
            return Ok(());
        };
        let names = Dotted(label.items);
        write!(f, " {names} {amount}")
    }
}

/// Names in decimal, joined by full stops. Each count has its text, as it is printed: going over the items would be no
/// plainer, since a full stop stands between them and not after each.
#[derive(Clone, Copy)]
struct Dotted(Items<u8>);

impl fmt::Display for Dotted {
    ghost output = { λ d. Some (dotted (list d.0)) };

    fn fmt<W: fmt::Write>(&self, f: &mut fmt::Formatter<W>) -> fmt::Result {
        match self.0 {
            Items::One(a) => write!(f, "{a}"),
            Items::Two(a, b) => write!(f, "{a}.{b}"),
            Items::Three(a, b, c) => write!(f, "{a}.{b}.{c}"),
            Items::Four(a, b, c, d) => write!(f, "{a}.{b}.{c}.{d}"),
        }
    }
}

/// The line of a refusal: `FAIL`, the layer, the number, the place, and of those about an amount the label and the
/// amount.
pub fn refused_line(heap: Global, fault: &Fault) -> Result<String, AllocError>
    ensures { IfOk result (λ s. string_bytes s ≡ refused fault.now) }
{
    Line::Refused(*fault).to_string(heap)
}

/// The line of a sheet that opens: `OPEN` and the count of its nodes.
pub fn opened_line(heap: Global, nodes: usize) -> Result<String, AllocError>
    ensures { IfOk result (λ s. string_bytes s ≡ opened nodes) }
{
    Line::Opened(nodes).to_string(heap)
}
