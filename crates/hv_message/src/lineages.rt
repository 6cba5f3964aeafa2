//! Reads lineages: a base, and the terms over it from the inside out. What a text means is `lineage_of_text`
//! (specs/LineageTexts.antt).

ghost use Rattle.std.specs.Prelude.{◌≡◌};
ghost use Rattle.std.specs.Arc.{arc_value};
ghost use Rattle.serde_json.specs.Find.{get};
ghost use Rattle.serde_json.specs.View.{view};
ghost use Rattle.hv_asked.specs.Flaws.{of_field};
ghost use Rattle.hv_message.specs.LineageTexts as read;
ghost use Rattle.hv_message.specs.Meant.{IsMade, IsRead};

use crate::Refusal;
use crate::made::loaded;
use crate::operations::shared;
use crate::terms::{combined, derive_over, filter_over, project_over, sample_over};
use crate::words::how2_in;
use hv_asked::fields::{field, word};
use hv_asked::tables::table_in;
use hv_asked::{LEVELS, Refused, Why};
use hv_lineage::Lineage;
use hv_value::Catalog;
use serde_json::Value;
use std::alloc::Global;
use std::sync::Arc;

/// The lineage of the base.
fn base_in(alloc: Global, value: &Value, catalog: &Catalog) -> Result<Arc<Lineage>, Refused>
    ensures { IsMade result (read.base_in catalog.now (view value.now)) }
{
    let table = table_in(alloc, value, "base")?;
    if table.fits() {
        loaded(alloc, catalog, table)
    } else {
        Err(Refused::Word(Why::Limit))
    }
}

/// The lineage of a term over a base, of at most so many levels.
#[cycle(term_in)]
#[tactic(auto, using(crate::proofs::TreeLemmas::one_term))]
fn term_in(
    alloc: Global,
    levels: u32,
    base: &Arc<Lineage>,
    value: &Value,
) -> Result<Arc<Lineage>, Refused>
    ensures { IsMade result (read.term_in levels (arc_value base.now) (view value.now)) }
{
    if levels == 0 {
        return Err(Refused::Word(Why::Field));
    }
    let word = word(value, "t")?;
    term_with(alloc, levels - 1, base, value, word)
}

#[cycle(term_in)]
fn term_with(
    alloc: Global,
    levels: u32,
    base: &Arc<Lineage>,
    value: &Value,
    word: &str,
) -> Result<Arc<Lineage>, Refused>
    ensures { IsMade result
        (read.term_with (read.term_in levels (arc_value base.now)) (arc_value base.now)
        (view value.now) word.now) }
{
    match word {
        "base" => Ok(shared(base)?),
        "filter" => {
            let of = inner_in(alloc, levels, base, value, "of")?;
            filter_over(alloc, &of, value)
        }
        "project" => {
            let of = inner_in(alloc, levels, base, value, "of")?;
            project_over(alloc, &of, value)
        }
        "derive" => {
            let of = inner_in(alloc, levels, base, value, "of")?;
            derive_over(alloc, &of, value)
        }
        "sample" => {
            let of = inner_in(alloc, levels, base, value, "of")?;
            sample_over(alloc, &of, value)
        }
        "combine" => {
            let left = inner_in(alloc, levels, base, value, "left")?;
            let right = inner_in(alloc, levels, base, value, "right")?;
            combined(alloc, how2_in(value)?, &left, &right)
        }
        _ => Err(Refused::Word(Why::Field)),
    }
}

/// The lineage of the inner term under a key.
#[cycle(term_in)]
fn inner_in(
    alloc: Global,
    levels: u32,
    base: &Arc<Lineage>,
    value: &Value,
    key: &str,
) -> Result<Arc<Lineage>, Refused>
    ensures { IsMade result
        (of_field (get key.now (view value.now)) (read.term_in levels (arc_value base.now))) }
{
    term_in(alloc, levels, base, field(value, key)?)
}

#[tactic(auto, unfolding(crate::specs::LineageTexts::lineage_of_data))]
fn lineage_in(alloc: Global, value: &Value, catalog: &Catalog) -> Result<Arc<Lineage>, Refused>
    ensures { IsMade result (read.lineage_of_data catalog.now (view value.now)) }
{
    let base = base_in(alloc, value, catalog)?;
    term_in(alloc, LEVELS, &base, field(value, "term")?)
}

/// Reads a lineage that is given as the value of its text. Malformed, with no id: the first check that fails, from
/// the base up.
pub fn read_lineage_value(
    alloc: Global,
    value: &Value,
    catalog: &Catalog,
) -> Result<Arc<Lineage>, Refusal>
    ensures { IsRead result (read.lineage_of_data catalog.now (view value.now)) }
{
    match lineage_in(alloc, value, catalog) {
        Ok(made) => Ok(made),
        Err(Refused::Word(why)) => Err(Refusal::Malformed(why, None)),
        Err(Refused::Memory) => Err(Refusal::Memory(None)),
    }
}

/// Reads a lineage. Malformed, with no id: that the text isn't a JSON object, or else the first check that fails, from
/// the base up.
#[tactic(auto, unfolding(crate::specs::LineageTexts::lineage_of_text))]
pub fn read_lineage(alloc: Global, text: &str, catalog: &Catalog) -> Result<Arc<Lineage>, Refusal>
    ensures { IsRead result (read.lineage_of_text catalog.now text.now) }
{
    match Value::from_str(alloc, text) {
        Ok(value) if value.is_object() => read_lineage_value(alloc, &value, catalog),
        Ok(_) => Err(Refusal::Malformed(Why::Json, None)),
        Err(error) if error.is_memory() => Err(Refusal::Memory(None)),
        Err(_) => Err(Refusal::Malformed(Why::Json, None)),
    }
}

#[cfg(test)]
mod tests {
    use super::*;
    use hv_value::Text;
    use std::test::Fail;

    /// A catalog with the table `t` of two partitions.
    fn catalog(alloc: Global) -> Result<Catalog, Fail> {
        Ok(Catalog::new(vec![in alloc; (Text::of(alloc, "t")?, 2)]?))
    }

    /// A table of the columns x int, d date and t text.
    const TABLE: &str =
        r#"{"inline":{"parts":[],"schema":[["x","int"],["d","date"],["t","text"]]}}"#;

    /// A text with a base and a term, why it means no lineage, none where it means one.
    fn word(alloc: Global, base: &str, term: &str) -> Result<Option<Why>, Fail> {
        let text = format!(in alloc; "{{\"base\":{base},\"term\":{term}}}")?;
        word_of(alloc, text.as_str())
    }

    fn word_of(alloc: Global, text: &str) -> Result<Option<Why>, Fail> {
        match read_lineage(alloc, text, &catalog(alloc)?) {
            Ok(_) => Ok(None),
            Err(Refusal::Malformed(why, None)) => Ok(Some(why)),
            Err(_) => Err(Fail::new("memory was refused, or there is an id")),
        }
    }

    #[test]
    fn texts_of_lineages_are_read(rt: HostRuntime) -> Result<(), Fail> {
        let alloc = rt.alloc();
        let catalog = catalog(alloc)?;
        let text =
            r#"{"base":{"named":{"schema":[["x","int"],["d","date"]],"table":"t"}},"more":1,"term":{"expr":{"e":"year","of":{"col":"d","e":"col"}},"name":"y","of":{"cols":["d"],"of":{"of":{"t":"base"},"pred":{"col":"d","how":"ge","p":"cmp","to":"2020-01-01"},"t":"filter"},"t":"project"},"t":"derive"}}"#;
        let Ok(made) = read_lineage(alloc, text, &catalog) else {
            return Err(Fail::new("it is refused"));
        };
        assert_eq!(rt; (made.depth(), made.size(), made.parts()), (4, 4, 2));
        assert_eq!(rt; made.schema().len(), 2);
        let Ok(value) = Value::from_str(alloc, text) else {
            return Err(Fail::new("it is no JSON"));
        };
        let Ok(again) = read_lineage_value(alloc, &value, &catalog) else {
            return Err(Fail::new("its value is refused"));
        };
        assert_eq!(rt; again.depth(), 4);
        Ok(())
    }

    // Of two faults the one nearer to the base is told, and of one term's faults the one that its message would tell.
    #[test]
    fn refusals_are_told_from_the_base_up(rt: HostRuntime) -> Result<(), Fail> {
        let alloc = rt.alloc();
        for (text, want) in [
            ("{", Why::Json),
            ("[]", Why::Json),
            ("{}", Why::Field),
            (r#"{"base":5,"term":{"t":"base"}}"#, Why::Field),
            (
                r#"{"base":{"named":{"schema":[],"table":"t"}}}"#,
                Why::Schema,
            ),
            (
                r#"{"base":{"named":{"schema":[],"table":"u"}}}"#,
                Why::Table,
            ),
            (
                r#"{"base":{"named":{"schema":[["x","int"]],"table":"t"}}}"#,
                Why::Field,
            ),
        ]
        .as_slice()
        {
            assert_eq!(rt; word_of(alloc, text)?, Some(*want), "of {text}");
        }
        for (term, want) in [
            (r#"5"#, Why::Field),
            (r#"{}"#, Why::Field),
            (r#"{"of":{"t":"base"},"t":"sort"}"#, Why::Field),
            (r#"{"cols":["x"],"t":"project"}"#, Why::Field),
            (
                r#"{"cols":["u"],"of":{"t":"base"},"t":"project"}"#,
                Why::Column,
            ),
            (
                r#"{"cols":[],"of":{"t":"base"},"t":"project"}"#,
                Why::Schema,
            ),
            (
                r#"{"cols":5,"of":{"cols":["u"],"of":{"t":"base"},"t":"project"},"t":"project"}"#,
                Why::Column,
            ),
            (
                r#"{"cols":["u"],"of":{"cols":5,"of":{"t":"base"},"t":"project"},"t":"project"}"#,
                Why::Field,
            ),
            (
                r#"{"of":{"t":"base"},"pred":{"col":"u","how":"eq","p":"cmp","to":9223372036854775808},"t":"filter"}"#,
                Why::Limit,
            ),
            (
                r#"{"of":{"t":"base"},"pred":{"col":"d","how":"eq","p":"cmp","to":"2019-02-29"},"t":"filter"}"#,
                Why::Kind,
            ),
            (
                r#"{"expr":{"col":"x","e":"col"},"name":"x","of":{"t":"base"},"t":"derive"}"#,
                Why::Clash,
            ),
            (
                r#"{"expr":{"col":"x","e":"col"},"name":"","of":{"t":"base"},"t":"derive"}"#,
                Why::Schema,
            ),
        ]
        .as_slice()
        {
            assert_eq!(rt; word(alloc, TABLE, term)?, Some(*want), "of {term}");
        }
        assert_eq!(rt; word(alloc, TABLE, r#"{"t":"base"}"#)?, None);
        Ok(())
    }

    /// The base under so many choices of its first column.
    fn chosen(alloc: Global, times: u32) -> Result<String, Fail> {
        let mut term = String::new(alloc);
        for _ in 0..times {
            term.push_str(r#"{"cols":["x"],"t":"project","of":"#)?;
        }
        term.push_str(r#"{"t":"base"}"#)?;
        for _ in 0..times {
            term.push('}')?;
        }
        Ok(term)
    }

    #[test]
    fn a_lineage_has_at_most_64_levels(rt: HostRuntime) -> Result<(), Fail> {
        let alloc = rt.alloc();
        assert_eq!(rt; word(alloc, TABLE, chosen(alloc, 63)?.as_str())?, None);
        assert_eq!(rt;
            word(alloc, TABLE, chosen(alloc, 64)?.as_str())?,
            Some(Why::Depth)
        );
        assert_eq!(rt;
            word(alloc, TABLE, chosen(alloc, 127)?.as_str())?,
            Some(Why::Json)
        );
        Ok(())
    }
}
