//! That the text of a lineage reads back to an equal lineage.

ghost use Rattle.std.specs.Prelude.{◌≡◌, true, None, Some, IfOk, IfErr, string_bytes};
ghost use Rattle.std.specs.Arc.{arc_value};
ghost use Rattle.serde_json.specs.Read.{read};
ghost use Rattle.hv_value.specs.Schema.{is_schema};
ghost use Rattle.hv_lineage.specs.Bases.{base_columns};
ghost use Rattle.hv_lineage.specs.Lineages.{IsLineage};
ghost use Rattle.hv_message.specs.declared.message.Refusal.TheVariants as refusal;
ghost use Rattle.hv_reply.specs.Lineages.{lineage_data, lineage_text};
ghost use Rattle.hv_reply.specs.ReadBack.{IsGiven, ReadsBack};

use crate::lineages::lineage_value;
use hv_lineage::Lineage;
use hv_message::{Refusal, read_lineage};
use hv_value::{Catalog, Mem};
use std::alloc::Global;
use std::sync::Arc;

/// The text of a lineage, which is read as the lineage's JSON.
#[tactic(auto, using(crate::proofs::DepthLemmas::lineage_bound, crate::proofs::FloatLemmas::lineage_without_float))]
fn text_of(alloc: Global, lineage: &Lineage) -> Mem<String>
    requires { IsLineage lineage.now }
    ensures text { IfOk result (λ text. string_bytes text ≡ lineage_text lineage.now) }
    ensures read { IfOk result (λ text. read (string_bytes text) ≡ Some (lineage_data lineage.now)) }
{
    let value = lineage_value(alloc, lineage)?;
    Ok(value.to_string(alloc)?)
}

/// Reads what is written: the text of a lineage that a message can give, over the tables that it has, gives an equal
/// lineage. Only memory can be wanted.
#[tactic(auto, using(crate::proofs::LineageBack::text_back))]
pub fn read_back(
    alloc: Global,
    lineage: &Lineage,
    catalog: &Catalog,
) -> Result<Arc<Lineage>, Refusal>
    requires { IsGiven catalog.now lineage.now }
    ensures law { IfOk result (λ _. ReadsBack catalog.now lineage.now) }
    ensures same { IfOk result (λ made. arc_value made ≡ lineage.now) }
    ensures memory { IfErr result (λ e. e ≡ refusal.Memory None) }
{
    let _columns = lineage.origin().schema().len();
    let _kept = lineage.schema();
    match text_of(alloc, lineage) {
        Ok(text) => read_lineage(alloc, text.as_str(), catalog),
        Err(_) => Err(Refusal::Memory(None)),
    }
}
