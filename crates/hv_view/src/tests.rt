//! Copies of views, of plans, of summaries and of values. Values of every kind, on one partition and on several, are told by
//! the scripts of the folder tests/.

use crate::{AnyView, Plan, Shown, finish};
use hv_heavy::MisraGries;
use hv_range::Distinct;
use hv_sketch::Vizketch;
use hv_value::Mem;
use std::alloc::Global;
use std::test::Fail;

/// Whether a copy of a view is the same.
fn stays(alloc: Global, view: &AnyView) -> Mem<bool> {
    let copy = view.copied(alloc)?;
    let same = view.same(&copy);
    drop(copy);
    Ok(same)
}

#[test]
fn copies_are_the_same(rt: HostRuntime) -> Result<(), Fail> {
    let view = AnyView::Distinct(Distinct::new(0, 2));
    let same = stays(rt.alloc(), &view);
    drop(view);
    assert!(rt; same?);
    let plan = Plan::Frequent { col: 0, k: 2 };
    let copy = plan.copied(rt.alloc())?;
    let same = plan.same(&copy);
    drop(copy);
    assert!(rt; same);
    Ok(())
}

/// The value of a view over no rows, of a copy of its summary.
fn of_no_rows(alloc: Global, view: &AnyView) -> Mem<Shown> {
    let summary = view.zero(alloc)?;
    let copy = view.copy(alloc, &summary);
    drop(summary);
    let copy = copy?;
    let shown = finish(alloc, view, &copy);
    drop(copy);
    shown
}

/// Whether a copy of a value is that of heavy hitters of no cells.
fn is_of_none(alloc: Global, shown: &Shown) -> Mem<bool> {
    let copy = shown.copied(alloc)?;
    let is = match &copy {
        Shown::Heavy(found) => found.n == 0 && found.pairs.as_slice().is_empty(),
        _ => false,
    };
    drop(copy);
    Ok(is)
}

#[test]
fn no_rows_have_no_heavy_hitters(rt: HostRuntime) -> Result<(), Fail> {
    let view = AnyView::Heavy(MisraGries::new(0, 3));
    let shown = of_no_rows(rt.alloc(), &view);
    drop(view);
    let shown = shown?;
    let is = is_of_none(rt.alloc(), &shown);
    drop(shown);
    assert!(rt; is?);
    Ok(())
}
