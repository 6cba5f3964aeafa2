//! The last word of a request: one summary a partition, merged into one of the whole table. The code is generic over
//! the view and rests on a vizketch's laws alone.

ghost use Rattle.std.specs.Prelude.{◌≡◌, ◌<◌, ◌^◌, List, Some, length, IfOk};
ghost use Rattle.hv_value.specs.Rows.{Row};
ghost use Rattle.hv_member.specs.Sets.{numbers};
ghost use Rattle.hv_lineage.specs.Flat.{Told, part_bytes, whole_rows};
ghost use Rattle.hv_lineage.specs.Lineages.{lineage_columns, lineage_parts};
ghost use Rattle.hv_session.specs.Held.{IsFit};
ghost use Rattle.hv_session.specs.Talk.{Answers, IsFinal};
ghost use Rattle.hv_session.specs.Whole.{IsFirstOf, IsSecondOf, IsWhole};
ghost use Rattle.hv_view.specs.Plans.{FitsPlan, OfPlan};
ghost use Rattle.hv_view.specs.Stands.{FitsAny};
ghost use Rattle.hv_view.specs.View.{IsView};

use crate::OpenRequest;
use hv_lineage::{Base, Lineage};
use hv_made::table_of;
use hv_member::PartSet;
use hv_reply::Reply;
use hv_sketch::{Vizketch, add_part};
use hv_value::{Mem, Memory};
use hv_view::{AnyView, Plan, Second, Shown, conclude, finish, first_view, then};
use std::alloc::Global;

/// All partitions of a table that has so many.
fn all_parts(alloc: Global, size: u32) -> Mem<PartSet>
    ensures { IfOk result (λ made. made ≡ record { size = size; parts = numbers size }) }
{
    let mut parts = PartSet::new(alloc, size)?;
    for part in 0..size {
        parts.insert(part);
    }
    Ok(parts)
}

/// The bytes of a partition of a lineage's base. Those of a table of the catalog can't be had here: they are answered
/// as want of memory.
fn bytes_of(lineage: &Lineage, part: u32) -> Mem<&[u8]>
    requires { part < lineage_parts lineage.now }
    ensures told { IfOk result (λ bytes. (told : Told) → part_bytes told lineage.now.base part ≡ Some bytes.now) }
    ensures short { IfOk result (λ bytes. length bytes.now < 2 ^ 26) }
{
    // for its clause `whole` alone
    let _schema = lineage.schema();
    match lineage.origin() {
        Base::Inline { parts, .. } => Ok(parts.as_slice()[part as usize].as_str().as_bytes()),
        Base::Named { .. } => Err(Memory),
    }
}

/// A view's summary of all the rows of a lineage, partition by partition.
fn summary_of<V: Vizketch>(alloc: Global, view: &V, lineage: &Lineage) -> Mem<V::Summary>
    requires { V.fits_columns view.now (lineage_columns lineage.now) }
    ensures { IfOk result (λ summary. (told : Told) → IsWhole told lineage.now (λ rows. V.stands view.now rows summary)) }
{
    // for its clause `whole` alone
    let _schema = lineage.schema();
    let mut summary = view.zero(alloc)?;
    for part in 0..lineage.parts() {
        let rows = table_of(alloc, lineage, part, bytes_of(lineage, part)?)?;
        add_part(alloc, view, &mut summary, &rows)?;
    }
    Ok(summary)
}

/// A view's value over all the rows of a lineage.
fn shown_of(alloc: Global, view: &AnyView, lineage: &Lineage) -> Mem<Shown>
    requires { FitsAny view.now (lineage_columns lineage.now) }
    ensures { IfOk result (λ shown. (told : Told) → IsWhole told lineage.now (λ rows. IsView view.now rows shown)) }
{
    let summary = summary_of(alloc, view, lineage)?;
    let shown = finish(alloc, view, &summary)?;
    Ok(shown)
}

/// The value of a plan's first view over all the rows of a lineage.
fn first_of(alloc: Global, plan: &Plan, lineage: &Lineage) -> Mem<Shown>
    requires { FitsPlan plan.now (lineage_columns lineage.now) }
    ensures { IfOk result (λ first. (told : Told) → IsWhole told lineage.now (IsFirstOf plan.now lineage.now first)) }
{
    let view = first_view(alloc, plan, lineage.schema())?;
    let first = shown_of(alloc, &view, lineage)?;
    Ok(first)
}

/// A plan's value over all the rows of a lineage, of the value of its first view there and that of its second.
fn concluded(
    alloc: Global,
    plan: &Plan,
    lineage: &Lineage,
    first: &Shown,
    second: Shown,
) -> Mem<Shown>
    requires fit { FitsPlan plan.now (lineage_columns lineage.now) }
    requires first { (told : Told) → IsWhole told lineage.now (IsFirstOf plan.now lineage.now first.now) }
    requires second { (told : Told) → IsWhole told lineage.now (IsSecondOf plan.now lineage.now first.now second) }
    ensures { IfOk result (λ shown. (told : Told) → IsWhole told lineage.now (λ rows. OfPlan plan.now rows rows shown)) }
{
    let _ = lineage;
    let value = conclude(alloc, plan, first, second)?;
    Ok(value)
}

/// A plan's value over all the rows of a lineage, of the value of its first view there.
fn value_after(alloc: Global, plan: &Plan, lineage: &Lineage, first: &Shown) -> Mem<Shown>
    requires fit { FitsPlan plan.now (lineage_columns lineage.now) }
    requires whole { (told : Told) → IsWhole told lineage.now (IsFirstOf plan.now lineage.now first.now) }
    ensures { IfOk result (λ shown. (told : Told) → IsWhole told lineage.now (λ rows. OfPlan plan.now rows rows shown)) }
{
    let next = then(alloc, plan, lineage.schema(), first)?;
    match next {
        Second::Value(value) => Ok(value),
        Second::View(view) => {
            let second = shown_of(alloc, &view, lineage);
            drop(view);
            concluded(alloc, plan, lineage, first, second?)
        }
    }
}

/// A plan's value over all the rows of a lineage.
fn value_of(alloc: Global, plan: &Plan, lineage: &Lineage) -> Mem<Shown>
    requires { FitsPlan plan.now (lineage_columns lineage.now) }
    ensures { IfOk result (λ shown. (told : Told) → IsWhole told lineage.now (λ rows. OfPlan plan.now rows rows shown)) }
{
    let first = first_of(alloc, plan, lineage)?;
    let value = value_after(alloc, plan, lineage, &first);
    drop(first);
    value
}

/// The value of a request over all partitions.
fn final_of(alloc: Global, request: &OpenRequest) -> Mem<Reply>
    requires { IsFit request.now }
    ensures { IfOk result (λ reply. (told : Told) → IsFinal told request.now reply) }
{
    let lineage = request.of.get();
    Ok(Reply::Final {
        id: request.id,
        parts: all_parts(alloc, lineage.parts())?,
        value: value_of(alloc, &request.plan, lineage)?,
    })
}

/// A request's last word: its value over all partitions, or that memory was refused.
pub(crate) fn last_word(alloc: Global, request: &OpenRequest) -> Reply
    requires { IsFit request.now }
    ensures { (told : Told) → Answers told request.now result }
{
    match final_of(alloc, request) {
        Ok(reply) => reply,
        Err(_) => Reply::NoMem {
            id: Some(request.id),
        },
    }
}
