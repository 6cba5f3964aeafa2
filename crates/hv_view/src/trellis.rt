//! The value of a trellis: that of its inner view for each group.

ghost use Rattle.std.specs.Prelude.{◌≡◌, ℕ, List, Option, IfOk};
ghost use Rattle.hv_value.specs.Rows.{Row};
ghost use Rattle.hv_sketch.specs.Groups.{StandForEach};
ghost use Rattle.hv_view.specs.View.{of_each_group};

use hv_grid::{HeatMap, HeatMapShown};
use hv_hist::{Histogram, HistogramShown};
use hv_sketch::{Counts, Vizketch};
use hv_value::{Listed, Mem};
use std::alloc::Global;

/// A view whose value is a function of the rows, as a trellis holds one for each group.
pub(crate) trait Inner: Vizketch {
    type Value: Drop;

    // the value of a list of rows
    ghost value_of: { Self → List Row → Self.Value };

    /// The value of the rows for which a summary stands.
    fn shown(&self, alloc: Global, s: &Self::Summary) -> Mem<Self::Value>
        ensures { IfOk result (λ value. (rows : List Row)
            → Self.stands self.now rows s.now → value ≡ value_of self.now rows) };
}

impl Inner for Histogram {
    ghost use Rattle.hv_hist.specs.Histogram.{histogram_of};

    type Value = HistogramShown;

    ghost value_of = { λ view rows. histogram_of view.axis rows };

    fn shown(&self, alloc: Global, s: &Counts) -> Mem<HistogramShown> {
        self.value(alloc, s)
    }
}

impl Inner for HeatMap {
    ghost use Rattle.hv_grid.specs.Grids.{heat_map_of};

    type Value = HeatMapShown;

    ghost value_of = { λ view rows. heat_map_of view.x view.y rows };

    fn shown(&self, alloc: Global, s: &Counts) -> Mem<HeatMapShown> {
        self.value(alloc, s)
    }
}

/// The values of the groups for whose rows the summaries stand, in turn.
pub(crate) fn values_of_groups<V: Inner>(
    alloc: Global,
    view: &V,
    summaries: &[V::Summary],
) -> Mem<Listed<V::Value>>
    ensures { IfOk result (λ values. (group : Row → Option ℕ) (count : ℕ) (rows : List Row)
        → StandForEach group count (V.stands view.now) rows summaries.now
        → values ≡ of_each_group group count (V.value_of view.now) rows) }
{
    let mut values = Listed::new(alloc);
    for summary in summaries {
        values.push(view.shown(alloc, summary)?)?;
    }
    Ok(values)
}
