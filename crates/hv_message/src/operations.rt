//! Operations: what each asks for, whether that is within its limits, and what it means in a session. The definitions
//! are `asked` and `meaning` (specs/Messages.antt).

ghost use Rattle.std.specs.Prelude.{◌≡◌, ◌≤◌, ◌^◌, true, false, IfOk};
ghost use Rattle.std.specs.Arc.{arc_value};
ghost use Rattle.serde_json.specs.View.{view};
ghost use Rattle.hv_expr.specs.Checks.{is_fit_factor};
ghost use Rattle.hv_lineage.specs.Lineages.{lineage_columns, room_refusal};
ghost use Rattle.hv_view.specs.Plans.{FitsPlan};
ghost use Rattle.hv_message.specs.declared.asked.Asked.TheVariants as asked;
ghost use Rattle.hv_asked.specs.Flaws.{and_then};
ghost use Rattle.hv_asked.specs.Meant.{Tells};
ghost use Rattle.hv_message.specs.Meant.{HasFitFactors, HasFitNumbers, IsAnswer};
ghost use Rattle.hv_message.specs.Messages as means;
ghost use Rattle.hv_message.specs.Messages.{is_open, object_at};
ghost use Rattle.hv_message.specs.Samples.{is_seed_if_given, is_threshold};
ghost use Rattle.hv_message.specs.Terms.{fits_term, unless_refused};
ghost use Rattle.hv_message.specs.Views.{fits_view};

use crate::asked::{Asked, TermAsked, ViewAsked};
use crate::made::loaded;
use crate::samples::{seed_if_given, threshold_of};
use crate::terms::{applied, combined, derive_of, filter_of, project_of};
use crate::views::{planned, view_in};
use crate::words::how2_in;
use crate::{Message, TalkState};
use hv_asked::fields::{number, number_if_there};
use hv_asked::tables::table_in;
use hv_asked::{Refused, Why};
use hv_lineage::{How2, Lineage};
use hv_value::Mem;
use hv_view::Plan;
use serde_json::Value;
use std::alloc::Global;
use std::sync::Arc;

/// What an operation asks for, by its word.
fn shape(alloc: Global, value: &Value, op: &str) -> Result<Asked, Refused>
    ensures value { Tells result (means.shape (view value.now) op.now) }
    ensures fit { IfOk result HasFitNumbers }
{
    match op {
        "load" => Ok(Asked::Load(table_in(alloc, value, "table")?)),
        "filter" => Ok(Asked::Over(number(value, "of")?, filter_of(alloc, value)?)),
        "project" => Ok(Asked::Over(number(value, "of")?, project_of(alloc, value)?)),
        "derive" => Ok(Asked::Over(number(value, "of")?, derive_of(alloc, value)?)),
        "combine" => combine_asked(value),
        "sample" => sample_asked(value),
        "info" => Ok(Asked::Info(number(value, "of")?)),
        "view" => Ok(Asked::View(number(value, "of")?, view_in(alloc, value)?)),
        "cancel" => Ok(Asked::Cancel(number(value, "request")?)),
        "end" => Ok(Asked::End),
        _ => Err(Refused::Word(Why::Op)),
    }
}

/// Two objects, combined.
fn combine_asked(value: &Value) -> Result<Asked, Refused>
    ensures value { Tells result (means.combine_asked (view value.now)) }
    ensures fit { IfOk result HasFitNumbers }
{
    let how = how2_in(value)?;
    let left = number(value, "left")?;
    let right = number(value, "right")?;
    Ok(Asked::Combine(how, left, right))
}

/// A sample of an object.
fn sample_asked(value: &Value) -> Result<Asked, Refused>
    ensures value { Tells result (means.sample_asked (view value.now)) }
    ensures fit { IfOk result HasFitNumbers }
{
    let of = number(value, "of")?;
    let threshold = number(value, "threshold")?;
    let seed = number_if_there(value, "seed")?;
    Ok(Asked::Sample(of, threshold, seed))
}

/// What an operation asks for, within its limits.
fn asked(alloc: Global, value: &Value, op: &str) -> Result<Asked, Refused>
    ensures value { Tells result (means.asked (view value.now) op.now) }
    ensures limits { IfOk result (λ a. means.fits a ≡ true) }
    ensures fit { IfOk result HasFitNumbers }
{
    let asked = shape(alloc, value, op)?;
    if asked.fits() {
        Ok(asked)
    } else {
        Err(Refused::Word(Why::Limit))
    }
}

/// What an operation means in a session.
pub(crate) fn operation(
    alloc: Global,
    state: &TalkState,
    id: u64,
    value: &Value,
    op: &str,
) -> Result<Message, Refused>
    requires { is_open id state.now.requests ≡ false }
    ensures { IsAnswer state.now id result (means.operated state.now id (view value.now) op.now) }
{
    let asked = asked(alloc, value, op)?;
    meaning(alloc, state, id, asked)
}

/// What is asked for means in a session.
fn meaning(alloc: Global, state: &TalkState, id: u64, asked: Asked) -> Result<Message, Refused>
    requires free { is_open id state.now.requests ≡ false }
    requires limits { means.fits asked ≡ true }
    requires fit { HasFitNumbers asked }
    ensures { IsAnswer state.now id result (means.meaning state.now id asked) }
{
    match asked {
        Asked::Load(table) => made_in(state, id, loaded(alloc, state.catalog(), table)?),
        Asked::Over(of, term) => over(alloc, state, id, of, term),
        Asked::Combine(how, left, right) => combine(alloc, state, id, how, left, right),
        Asked::Sample(of, threshold, seed) => sample(state, id, of, threshold, seed),
        Asked::Info(of) => info(state, id, of),
        Asked::View(of, wanted) => look(alloc, state, id, of, wanted),
        Asked::Cancel(request) => cancel(state, id, request),
        Asked::End => Ok(Message::End { id }),
    }
}

/// Makes an object while there is room for one more.
fn made_in(state: &TalkState, id: u64, made: Arc<Lineage>) -> Result<Message, Refused>
    ensures { IsAnswer state.now id result (means.made_in state.now id (arc_value made)) }
{
    if state.has_room() {
        Ok(Message::Make { id, made })
    } else {
        Err(Refused::Word(Why::Full))
    }
}

fn over(
    alloc: Global,
    state: &TalkState,
    id: u64,
    of: i128,
    term: TermAsked,
) -> Result<Message, Refused>
    requires limits { fits_term term ≡ true }
    requires fit { HasFitFactors term }
    ensures { IsAnswer state.now id result (means.meaning state.now id (asked.Over of term)) }
{
    let Some(lineage) = state.object(of) else {
        return Err(Refused::Word(Why::Object));
    };
    let made = applied(alloc, lineage, term)?;
    made_in(state, id, made)
}

fn combine(
    alloc: Global,
    state: &TalkState,
    id: u64,
    how: How2,
    left: i128,
    right: i128,
) -> Result<Message, Refused>
    ensures { IsAnswer state.now id result
        (means.meaning state.now id (asked.Combine how left right)) }
{
    let Some(left) = state.object(left) else {
        return Err(Refused::Word(Why::Object));
    };
    let Some(right) = state.object(right) else {
        return Err(Refused::Word(Why::Object));
    };
    let made = combined(alloc, how, left, right)?;
    made_in(state, id, made)
}

/// A sample of an object, at a threshold and by a seed, where one is given.
fn sample(
    state: &TalkState,
    id: u64,
    of: i128,
    threshold: i128,
    seed: Option<i128>,
) -> Result<Message, Refused>
    requires threshold { is_threshold threshold ≡ true }
    requires seed { is_seed_if_given seed ≡ true }
    ensures { IsAnswer state.now id result
        (means.meaning state.now id (asked.Sample of threshold seed)) }
{
    sampled_of(state, id, of, threshold_of(threshold), seed_if_given(seed))
}

/// A sample of an object, while there is room for one node more over it and for one object more.
fn sampled_of(
    state: &TalkState,
    id: u64,
    of: i128,
    threshold: u64,
    seed: Option<u64>,
) -> Result<Message, Refused>
    requires { threshold ≤ 2 ^ 32 }
    ensures { IsAnswer state.now id result
        (means.of_known (object_at state.now.objects of) (λ lineage.
        and_then (means.sampled_in state.now id threshold seed)
        (unless_refused (room_refusal lineage) lineage))) }
{
    let Some(lineage) = state.object(of) else {
        return Err(Refused::Word(Why::Object));
    };
    if !lineage.has_room() {
        return Err(Refused::Word(Why::Depth));
    }
    if !state.has_room() {
        return Err(Refused::Word(Why::Full));
    }
    let of = shared(lineage)?;
    Ok(Message::Sample {
        id,
        of,
        threshold,
        seed,
    })
}

fn info(state: &TalkState, id: u64, of: i128) -> Result<Message, Refused>
    ensures { IsAnswer state.now id result (means.meaning state.now id (asked.Info of)) }
{
    let Some(lineage) = state.object(of) else {
        return Err(Refused::Word(Why::Object));
    };
    let of = shared(lineage)?;
    Ok(Message::Info { id, of })
}

/// A lineage, shared once more.
pub(crate) fn shared(lineage: &Arc<Lineage>) -> Mem<Arc<Lineage>>
    ensures { IfOk result (λ copy. arc_value copy ≡ arc_value lineage.now) }
{
    Ok(Arc::try_clone(lineage)?)
}

/// A view of an object, which opens a request.
fn look(
    alloc: Global,
    state: &TalkState,
    id: u64,
    of: i128,
    wanted: ViewAsked,
) -> Result<Message, Refused>
    requires free { is_open id state.now.requests ≡ false }
    requires limits { fits_view wanted ≡ true }
    ensures { IsAnswer state.now id result (means.meaning state.now id (asked.View of wanted)) }
{
    let Some(lineage) = state.object(of) else {
        return Err(Refused::Word(Why::Object));
    };
    let plan = planned(alloc, lineage.schema(), wanted)?;
    opened_in(state, id, shared(lineage)?, plan)
}

/// Opens a request while there is room for one more.
fn opened_in(state: &TalkState, id: u64, of: Arc<Lineage>, plan: Plan) -> Result<Message, Refused>
    requires free { is_open id state.now.requests ≡ false }
    requires fits { FitsPlan plan (lineage_columns (arc_value of)) }
    ensures { IsAnswer state.now id result (means.opened_in state.now id (arc_value of) plan) }
{
    if state.can_open() {
        Ok(Message::View { id, of, plan })
    } else {
        Err(Refused::Word(Why::Full))
    }
}

fn cancel(state: &TalkState, id: u64, request: i128) -> Result<Message, Refused>
    requires { is_fit_factor request ≡ true }
    ensures { IsAnswer state.now id result (means.cancelled state.now id request) }
{
    if 0 <= request && state.is_open(request as u64) {
        Ok(Message::Cancel {
            id,
            request: request as u64,
        })
    } else {
        Err(Refused::Word(Why::Request))
    }
}
