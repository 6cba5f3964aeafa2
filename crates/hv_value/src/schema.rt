//! Schemas. Contracts see one as the list of its columns, each a name and a kind.

ghost use Rattle.std.specs.Prelude.{◌≡◌, ◌<◌, ◌≤◌, ◌↔◌, true, false, length, map, IsTrue, IfOk, IsErrOf, slice_get, option_map, Some};
ghost use Rattle.std.specs.List.{list_all, list_any};
ghost use Rattle.std.specs.Cmp.{partial_equiv_from_equiv};
ghost use Rattle.std.specs.Hash as fed;
ghost use Rattle.std.proofs.Common.{ap};
ghost use Rattle.hv_value.specs.Same.{same_by};
ghost use Rattle.hv_value.specs.SameLaws.{same_by-decides, same_by-equiv};
ghost use Rattle.hv_value.specs.Schema.{schema_err_text};
ghost use Rattle.hv_value.specs.Schema.{is_schema, is_named, has_fit_name, have_own_names, column_place};

use crate::{Kind, Text};
use std::error::Error;
use std::fmt;
use std::hash::{Hash, Hasher};
use std::marker::Model;

/// The most columns of a table.
pub const MAX_COLUMNS: usize = 64;

/// The most bytes of a column's name.
pub const MAX_NAME_BYTES: usize = 128;

/// Why columns make no schema.
#[derive(Clone, Copy, Debug, PartialEq, Eq)]
pub enum SchemaErr {
    /// No column or more than 64, an empty name, one over 128 bytes, or one that repeats.
    BadSchema,
    Memory,
}

impl fmt::Display for SchemaErr {
    ghost output = { λ err. Some (schema_err_text err) };

    fn fmt<W: fmt::Write>(&self, f: &mut fmt::Formatter<W>) -> fmt::Result {
        f.write_str(match self {
            SchemaErr::BadSchema => "the columns make no schema",
            SchemaErr::Memory => "out of memory",
        })
    }
}

impl Error for SchemaErr {}

/// The columns of a table: 1 to 64 of them, with names of 1 to 128 bytes that differ.
#[derive(Drop)]
pub struct Schema {
    cols: Vec<(Text, Kind)>,
}

impl Model for Schema {
    ghost use Rattle.std.specs.Prelude.{◌≡◌, true};
    ghost use Rattle.hv_value.specs.Schema.{Columns, is_schema};

    ghost Value = { Columns };

    ghost view = { λ schema. schema.cols.items };

    ghost invariant = { λ schema. is_schema schema.cols.items ≡ true };
}

/// Two schemas are equal where their columns are, in order.
impl PartialEq for Schema {
    ghost use Rattle.hv_value.specs.contracts.schema.Schema as row;

    ghost eq = { same_by row.the_row.coded };

    ghost laws = { partial_equiv_from_equiv (same_by-equiv row.the_row.coded) };

    fn eq(&self, other: &Schema) -> bool {
        are_same_columns(self.cols.as_slice(), other.cols.as_slice())
    }
}

fn are_same_columns(a: &[(Text, Kind)], b: &[(Text, Kind)]) -> bool
    ensures { IsTrue result ↔ (a.now ≡ b.now) }
{
    a == b
}

impl Eq for Schema {
    ghost use Rattle.hv_value.specs.contracts.schema.Schema as row;

    ghost laws = { same_by-equiv row.the_row.coded };
}

impl Hash for Schema {
    ghost use Rattle.hv_value.specs.contracts.schema.Schema as row;

    ghost hash_input = { λ columns. fed.usize (length columns) };

    ghost respects_eq = { λ x y e. ap (λ columns. fed.usize (length columns)) ((same_by-decides row.the_row.coded x y).0 e) };

    fn hash<H: Hasher>(&self, state: &mut H) {
        self.cols.len().hash(state);
    }
}

fn is_fit_name(column: &(Text, Kind)) -> bool
    ensures { result ≡ has_fit_name column.now }
{
    let size = column.0.as_str().len();
    0 < size && size <= MAX_NAME_BYTES
}

fn are_fit_names(cols: &[(Text, Kind)]) -> bool
    ensures { result ≡ list_all has_fit_name cols.now }
{
    cols.iter().all(is_fit_name)
}

fn has_name(cols: &[(Text, Kind)], name: &str) -> bool
    ensures { result ≡ list_any (is_named name.now) cols.now }
{
    cols.iter().any(|column| column.0.as_str() == name)
}

fn are_own_names(cols: &[(Text, Kind)]) -> bool
    ensures { result ≡ have_own_names cols.now }
{
    let mut rest = cols;
    while let [first, after @ ..] = rest {
        if has_name(after, first.0.as_str()) {
            return false;
        }
        rest = after;
    }
    true
}

fn are_columns(cols: &[(Text, Kind)]) -> bool
    ensures { result ≡ is_schema cols.now }
{
    !cols.is_empty() && cols.len() <= MAX_COLUMNS && are_fit_names(cols) && are_own_names(cols)
}

fn place_of(cols: &[(Text, Kind)], name: &str) -> Option<usize>
    ensures { result ≡ column_place name.now cols.now }
{
    cols.iter().position(|column| column.0.as_str() == name)
}

fn column_count(cols: &[(Text, Kind)]) -> u32
    requires { is_schema cols.now ≡ true }
    ensures { result ≡ length cols.now }
{
    cols.len() as u32
}

fn short_place(cols: &[(Text, Kind)], name: &str) -> Option<u32>
    requires { is_schema cols.now ≡ true }
    ensures { result ≡ column_place name.now cols.now }
{
    let place = place_of(cols, name)?;
    Some(place as u32)
}

impl Schema {
    /// Makes a schema of columns. It takes no memory.
    pub fn new(cols: Vec<(Text, Kind)>) -> Result<Schema, SchemaErr>
        ensures ok { IfOk result (λ schema. schema ≡ cols.items) }
        ensures bad_schema { IsErrOf result SchemaErr.BadSchema ↔ (is_schema cols.items ≡ false) }
        ensures no_memory { IsErrOf result SchemaErr.Memory → ⊥ }
    {
        if are_columns(cols.as_slice()) {
            Ok(Schema { cols })
        } else {
            Err(SchemaErr::BadSchema)
        }
    }

    /// The number of columns, 1 to 64.
    pub fn len(&self) -> u32
        ensures value { result ≡ length self.now }
        ensures schema { is_schema self.now ≡ true }
    {
        column_count(self.cols.as_slice())
    }

    /// The name of the column at a place from 0.
    pub fn name(&self, j: u32) -> &str
        requires { j < length self.now }
        ensures { option_map (λ column. column.0) (slice_get self.now j) ≡ Some result.now }
    {
        self.cols[j as usize].0.as_str()
    }

    /// The kind of the column at a place from 0.
    pub fn kind(&self, j: u32) -> Kind
        requires { j < length self.now }
        ensures { option_map (λ column. column.1) (slice_get self.now j) ≡ Some result }
    {
        self.cols[j as usize].1
    }

    /// The place of the column with a name.
    pub fn find(&self, name: &str) -> Option<u32>
        ensures { result ≡ column_place name.now self.now }
    {
        short_place(self.cols.as_slice(), name)
    }
}
