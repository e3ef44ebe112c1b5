//! The tables of a sheet with the chart of its nodes.
ghost use Rattle.std.specs.Prelude.{◌≡◌, ℕ};
ghost use Rattle.sheet.specs.Opening.{Sound};
ghost use Rattle.tables.specs.Elements.{elements};
ghost use Rattle.names.specs.Charts.{Charts};

use sheet::Chart;
use tables::tables::Tables;

/// Tables with the chart of their nodes.
#[derive(Drop)]
pub(crate) struct Charted<'a> {
    pub(crate) tables: &'a Tables,
    pub(crate) chart: Chart,
    ghost charted: { Charts (elements tables.now.nodes) chart },
}

impl<'a> Charted<'a> {
    /// Sound tables with their chart.
    pub(crate) fn new(tables: &'a Tables) -> Charted<'a>
        requires { (largest : ℕ) × Sound largest tables.now }
        ensures { result.tables.now ≡ tables.now }
    {
        Charted {
            tables,
            chart: Chart::new(tables.nodes.as_slice()),
        }
    }
}
