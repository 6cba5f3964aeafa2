//! A lineage's term applied to a base's partition, node by node.

ghost use Rattle.std.specs.Prelude.{◌≡◌, ◌<◌, ◌^◌, ◌∷◌, [], length, Some, IfOk};
ghost use Rattle.hv_value.specs.Rows.{base_rows};
ghost use Rattle.hv_part.specs.Part.{rows_of};
ghost use Rattle.hv_lineage.specs.declared.term.Term.{every-Term};
ghost use Rattle.hv_lineage.specs.Bases.{base_columns};
ghost use Rattle.hv_lineage.specs.Flat.{Told, flat_rows, part_bytes, rows_under};
ghost use Rattle.hv_lineage.specs.Lineages.{IsFitNode, lineage_columns};
ghost use Rattle.hv_made.specs.Steps.{IsMadeOf, IsTableOf};

use crate::base::{base_part, share_part};
use crate::combine::combined;
use crate::derive::derived;
use crate::filter::filtered;
use crate::project::projected;
use crate::sample::sampled;
use hv_lineage::{Lineage, Term};
use hv_part::PartTable;
use hv_value::Mem;
use std::alloc::Global;

/// What a term makes of a base's table.
fn applied(alloc: Global, term: &Term, base: PartTable) -> Mem<PartTable>
    requires fits { every-Term (IsFitNode base.columns) term.now }
    ensures { IfOk result (IsMadeOf term.now base) }
{
    match term {
        Term::Base => Ok(base),
        Term::Filter { of, pred } => filtered(alloc, applied(alloc, of.get(), base)?, pred.get()),
        Term::Project { of, cols } => {
            projected(
                alloc,
                applied(alloc, of.get(), base)?,
                cols.get().as_slice(),
            )
        }
        Term::Derive { of, name, expr } => {
            derived(
                alloc,
                applied(alloc, of.get(), base)?,
                name.get(),
                expr.get(),
            )
        }
        Term::Sample {
            of,
            seed,
            threshold,
        } => sampled(alloc, applied(alloc, of.get(), base)?, *seed, *threshold),
        Term::Combine { how, left, right } => {
            let shared = share_part(alloc, &base)?;
            let left = applied(alloc, left.get(), shared)?;
            combined(alloc, *how, left, applied(alloc, right.get(), base)?)
        }
    }
}

/// The table of a lineage's partition, made of that of its base's: exactly the rows of the lineage among these.
/// Columns that the term doesn't derive are those of the base, shared.
pub fn made_part(alloc: Global, lineage: &Lineage, base: PartTable) -> Mem<PartTable>
    requires { base.columns ≡ base_columns lineage.now.base }
    ensures { IfOk result (λ made. IsTableOf (lineage_columns lineage.now) base.part (rows_under lineage.now (rows_of base)) made) }
{
    let _ = lineage.schema();
    let _ = base.height();
    let made = applied(alloc, lineage.term(), base)?;
    let _ = made.height();
    Ok(made)
}

/// The table of a lineage's partition, from the bytes of its base's, fewer than 2^26 of them. Where these are what
/// the base has, or what is told of it, its rows are those of the lineage over the one partition.
pub fn table_of(alloc: Global, lineage: &Lineage, part: u32, bytes: &[u8]) -> Mem<PartTable>
    requires { length bytes.now < 2 ^ 26 }
    ensures table { IfOk result (λ made. IsTableOf (lineage_columns lineage.now) part
        (rows_under lineage.now (base_rows (base_columns lineage.now.base) part bytes.now)) made) }
    ensures flat { IfOk result (λ made. (told : Told) → part_bytes told lineage.now.base part ≡ Some bytes.now
        → flat_rows told lineage.now (part ∷ []) ≡ Some (rows_of made)) }
{
    let base = base_part(alloc, lineage.origin().schema(), part, bytes)?;
    made_part(alloc, lineage, base)
}
