//! Bases: where the rows of a lineage come from.

ghost use Rattle.std.specs.Prelude.{◌≡◌, ◌↔◌, ◌<◌, ◌^◌, IsTrue, IfSome, [], get_or, length, option_map};
ghost use Rattle.std.specs.List.{AllByRecursion};
ghost use Rattle.std.specs.Cmp.{partial_equiv_from_equiv};
ghost use Rattle.std.proofs.Common.{ap};
ghost use Rattle.hv_value.specs.Same.{same_by};
ghost use Rattle.hv_value.specs.SameLaws.{same_by-decides, same_by-equiv};
ghost use Rattle.hv_lineage.specs.Bases.{IsFitBase, base_columns, base_parts, base_text, inline_text};
ghost use Rattle.hv_lineage.specs.Hashes.{base_writes};

use hv_value::{Schema, Text};
use sqlite_items::Items;
use std::hash::{Hash, Hasher};

/// A table that no term made.
#[derive(Drop)]
pub enum Base {
    /// The CSV text of each partition, each of fewer than 2^26 bytes.
    Inline {
        schema: Schema,
        parts: Items<Text>,
    },
    /// A table of the catalog, by its name and its number of partitions.
    Named {
        schema: Schema,
        table: Text,
        parts: u32,
    },
}

impl Base {
    /// The columns.
    pub fn schema(&self) -> &Schema
        ensures { result.now ≡ base_columns self.now }
    {
        match self {
            Base::Inline { schema, .. } => schema,
            Base::Named { schema, .. } => schema,
        }
    }

    /// The number of partitions, of which there are at most 65,536.
    pub fn parts(&self) -> u32
        requires { IsFitBase self.now }
        ensures { result ≡ base_parts self.now }
    {
        match self {
            Base::Inline { parts, .. } => parts.len() as u32,
            Base::Named { parts, .. } => *parts,
        }
    }
}

impl Base {
    /// The text of an inline table's partition from 0, fewer than 2^26 bytes. `None` of a named table.
    pub fn text(&self, part: u32) -> Option<&str>
        requires fit { IsFitBase self.now }
        requires there { part < base_parts self.now }
        ensures text { option_map (λ text. text.now) result ≡ inline_text self.now part }
        ensures short { IfSome result (λ text. length text.now < 2 ^ 26) }
    {
        match self {
            Base::Inline { parts, .. } => Some(text_at(parts.as_slice(), part as usize)),
            Base::Named { .. } => None,
        }
    }
}

fn text_at(parts: &[Text], part: usize) -> &str
    requires there { part < length parts.now }
    requires short { AllByRecursion (λ text. length text < 2 ^ 26) parts.now }
    ensures text { result.now ≡ get_or parts.now part [] }
    ensures short { length result.now < 2 ^ 26 }
{
    parts[part].as_str()
}

/// Two bases are equal where they are the same.
impl PartialEq for Base {
    ghost use Rattle.hv_lineage.specs.contracts.base.Base as row;

    ghost eq = { same_by row.the_row.coded };

    ghost laws = { partial_equiv_from_equiv (same_by-equiv row.the_row.coded) };

    fn eq(&self, other: &Base) -> bool {
        are_same(self, other)
    }
}

/// Whether two bases are the same.
pub(crate) fn are_same(a: &Base, b: &Base) -> bool
    ensures { IsTrue result ↔ (a.now ≡ b.now) }
{
    match (a, b) {
        (
            Base::Inline { schema, parts },
            Base::Inline {
                schema: other_schema,
                parts: other_parts,
            },
        ) => are_same_schemas(schema, other_schema)
            && are_same_texts(parts.as_slice(), other_parts.as_slice()),
        (
            Base::Named {
                schema,
                table,
                parts,
            },
            Base::Named {
                schema: other_schema,
                table: other_table,
                parts: other_parts,
            },
        ) => are_same_schemas(schema, other_schema) && table == other_table && parts == other_parts,
        _ => false,
    }
}

fn are_same_schemas(a: &Schema, b: &Schema) -> bool
    ensures { IsTrue result ↔ (a.now ≡ b.now) }
{
    a == b
}

pub(crate) fn are_same_texts(a: &[Text], b: &[Text]) -> bool
    ensures { IsTrue result ↔ (a.now ≡ b.now) }
{
    a == b
}

impl Eq for Base {
    ghost use Rattle.hv_lineage.specs.contracts.base.Base as row;

    ghost laws = { same_by-equiv row.the_row.coded };
}

/// Only the number of partitions and one text are hashed, since an inline table may have a MiB of text.
impl Hash for Base {
    ghost use Rattle.hv_lineage.specs.contracts.base.Base as row;

    ghost hash_input = { base_writes };

    ghost respects_eq = { λ x y e. ap base_writes ((same_by-decides row.the_row.coded x y).0 e) };

    fn hash<H: Hasher>(&self, state: &mut H) {
        count_of(self).hash(state);
        text_of(self).hash(state);
    }
}

/// The number of partitions.
fn count_of(base: &Base) -> usize
    ensures { result ≡ base_parts base.now }
{
    match base {
        Base::Inline { parts, .. } => parts.len(),
        Base::Named { parts, .. } => *parts as usize,
    }
}

/// The table's name, or the text of the first partition.
fn text_of(base: &Base) -> &str
    ensures { result.now ≡ base_text base.now }
{
    match base {
        Base::Inline { parts, .. } => first_of(parts.as_slice()),
        Base::Named { table, .. } => table.as_str(),
    }
}

fn first_of(parts: &[Text]) -> &str
    ensures { result.now ≡ get_or parts.now 0 [] }
{
    match parts {
        [] => "",
        [first, ..] => first.as_str(),
    }
}
