//! Tables, axes and cells that a message asks for, before anything is looked up, and their limits. The definitions are
//! in specs/Tables.antt, specs/Axes.antt and specs/Constants.antt.

ghost use Rattle.std.specs.Prelude.{◌≡◌, ◌≤◌, ◌*◌, min, IfOk};
ghost use Rattle.std.specs.List.{list_all};
ghost use Rattle.hv_asked.specs.Axes as axes;
ghost use Rattle.hv_asked.specs.Constants as constant;
ghost use Rattle.hv_asked.specs.Tables as table;

use crate::MAX_COUNTS;
use crate::constants::is_short;
use hv_value::{Kind, Listed, MAX_PARTITIONS, Mem, Text};
use std::alloc::Global;

/// A table, before it is known whether its columns make a schema.
#[derive(Drop)]
pub enum TableAsked {
    /// Columns, and the CSV text of each partition.
    Inline(Listed<(Text, Kind)>, Listed<Text>),
    /// Columns, and the name of a table of the catalog.
    Named(Listed<(Text, Kind)>, Text),
}

/// An axis, before its column is looked up. A number of buckets is any whole number of 64 bits.
#[derive(Drop)]
pub enum AxisAsked {
    /// So many buckets of the numbers or days of the column with this name, from one to another.
    Numbers {
        col: Text,
        lo: CellAsked,
        hi: CellAsked,
        n: i128,
    },
    /// The texts of the column with this name, by the left boundaries of their buckets.
    Texts {
        col: Text,
        bounds: Listed<Text>,
    },
}

/// A cell that a message gives, before it is known beside which column.
#[derive(Drop)]
pub enum CellAsked {
    /// No value.
    Missing,
    /// A whole number of 64 bits, -2^63 to 2^64 - 1.
    Number(i128),
    /// A text, of a day or any other.
    Text(Text),
}

impl TableAsked {
    /// Whether there are at most 65,536 partitions, each of fewer than 2^26 bytes. The columns have no limit here.
    pub fn fits(&self) -> bool
        ensures { result ≡ table.fits_table self.now }
    {
        match self {
            TableAsked::Inline(_, parts) => are_parts(parts.as_slice()),
            TableAsked::Named(_, _) => true,
        }
    }
}

fn are_parts(parts: &[Text]) -> bool
    ensures { result ≡ table.are_parts parts.now }
{
    parts.len() <= MAX_PARTITIONS as usize && are_short_parts(parts)
}

fn are_short_parts(parts: &[Text]) -> bool
    ensures { result ≡ list_all table.is_short_part parts.now }
{
    parts.iter().all(is_short_part)
}

fn is_short_part(text: &Text) -> bool
    ensures { result ≡ table.is_short_part text.now }
{
    text.as_str().len() < 1 << 26
}

impl AxisAsked {
    /// Whether its constants are within their limits.
    pub fn fits(&self) -> bool
        ensures { result ≡ axes.fits_asked self.now }
    {
        match self {
            AxisAsked::Numbers { lo, hi, .. } => lo.fits() && hi.fits(),
            AxisAsked::Texts { bounds, .. } => are_short(bounds.as_slice()),
        }
    }

    /// How many buckets it asks for, 65,537 where there are more.
    pub fn buckets(&self) -> u64
        ensures { result ≡ min (axes.buckets_asked self.now) PAST_COUNTS }
    {
        match self {
            AxisAsked::Numbers { n, .. } => (*n).max(0).min(i128::from(PAST_COUNTS)) as u64,
            AxisAsked::Texts { bounds, .. } => (bounds.as_slice().len() as u64).min(PAST_COUNTS),
        }
    }
}

/// Whether two axes are within their limits, and the counts of each bucket of one by those of the other.
pub fn do_fit(x: &AxisAsked, y: &AxisAsked) -> bool
    ensures { result ≡ axes.do_fit x.now y.now }
{
    x.fits() && y.fits() && product(x.buckets(), y.buckets()) <= MAX_COUNTS
}

/// The least number of counts that is over their limit.
pub const PAST_COUNTS: u64 = MAX_COUNTS + 1;

/// The product of two numbers that are cut at 65,537, cut so itself.
pub fn product(a: u64, b: u64) -> u64
    requires a { a ≤ PAST_COUNTS }
    requires b { b ≤ PAST_COUNTS }
    ensures { result ≡ min (a * b) PAST_COUNTS }
{
    (a * b).min(PAST_COUNTS)
}

fn are_short(bounds: &[Text]) -> bool
    ensures { result ≡ list_all constant.is_short bounds.now }
{
    bounds.iter().all(is_short_bound)
}

fn is_short_bound(text: &Text) -> bool
    ensures { result ≡ constant.is_short text.now }
{
    is_short(text.as_str())
}

impl CellAsked {
    /// An equal cell.
    pub(crate) fn copy(&self, alloc: Global) -> Mem<CellAsked>
        ensures { IfOk result (λ cell. cell ≡ self.now) }
    {
        match self {
            CellAsked::Missing => Ok(CellAsked::Missing),
            CellAsked::Number(n) => Ok(CellAsked::Number(*n)),
            CellAsked::Text(text) => Ok(CellAsked::Text(text.copy(alloc)?)),
        }
    }

    /// Whether a number is one of an `i64` and a text is short enough.
    pub(crate) fn fits(&self) -> bool
        ensures { result ≡ constant.fits_cell self.now }
    {
        match self {
            CellAsked::Missing => true,
            CellAsked::Number(n) => i128::from(i64::MIN) <= *n && *n <= i128::from(i64::MAX),
            CellAsked::Text(text) => is_short(text.as_str()),
        }
    }
}
