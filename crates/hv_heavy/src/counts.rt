//! Values counted exactly, in maps, until they are too many (specs/Counting.antt).

ghost use Rattle.std.specs.Prelude.{◌≡◌, ◌<◌, ◌≤◌, ◌+◌, ◌++◌, ◌^◌, [], ℕ, false, count_by, IfOk, OnOk, IsPermutation};
ghost use Rattle.std.specs.List.{IsDistinct};
ghost use Rattle.std.specs.List.Sorted.{IsSorted};
ghost use Rattle.hv_value.specs.declared.cell.Cell.{Cell};
ghost use Rattle.hv_value.specs.declared.cell.Cell.TheVariants as cell;
ghost use Rattle.hv_value.specs.Cells.{cell_lent};
ghost use Rattle.hv_sketch.specs.ColumnCells.{is_missing};
ghost use Rattle.hv_sketch.specs.Rising.{IsRising};
ghost use Rattle.hv_heavy.specs.Counting.{CountsOne, counted, pairs_of, text_cell};
ghost use Rattle.hv_heavy.specs.Heavy.{by_value, is_same, total};

use crate::HeavyPair;
use crate::pair_order::compare_values;
use hv_value::{Cell, CellRef, Mem, Text};
use std::alloc::Global;
use std::collections::HashMap;

/// How many different values are counted before the counts are cut, beside `k` of them.
const ROOM: usize = 4096;

/// How often each value was counted, by kind. The cells of a column are of one kind, so two of the maps stay empty.
#[derive(Drop)]
pub(crate) struct ValueCounts {
    pub(crate) ints: HashMap<i64, u64>,
    pub(crate) days: HashMap<i32, u64>,
    pub(crate) texts: HashMap<String, u64>,
}

impl ValueCounts {
    /// No values.
    pub(crate) fn new(alloc: Global) -> ValueCounts
        ensures { counted result ≡ [] }
    {
        ValueCounts {
            ints: HashMap::new(alloc),
            days: HashMap::new(alloc),
            texts: HashMap::new(alloc),
        }
    }

    /// Whether there are so many values that the counts are to be cut to `k` pairs. Any answer would be right; this one
    /// keeps few values, and cuts so seldom that it costs little.
    pub(crate) fn are_many(&self, k: u32) -> bool {
        let most = ROOM + k as usize;
        self.ints.len() > most || self.days.len() > most || self.texts.len() > most
    }

    /// Counts a value, which isn't missing. A text is copied where it is new.
    #[inline(always)]
    pub(crate) fn count(&mut self, alloc: Global, value: CellRef<'_>) -> Mem<()>
        requires there { is_missing (cell_lent value) ≡ false }
        requires fits { total (counted self.old) + 1 < 2 ^ 64 }
        ensures { OnOk result (CountsOne (cell_lent value.entry)
            (counted self.old) (counted self.new)) }
    {
        match value {
            CellRef::Missing => Ok(()),
            CellRef::Int(n) => count_int(&mut self.ints, n),
            CellRef::Date(day) => count_day(&mut self.days, day),
            CellRef::Text(text) => count_text(alloc, &mut self.texts, text),
        }
    }

    /// The values with their counts, strictly rising.
    pub(crate) fn into_rising(self, alloc: Global) -> Mem<Vec<HeavyPair>>
        ensures rises { IfOk result (λ pairs. IsRising by_value pairs.items) }
        ensures same { IfOk result (λ pairs. IsPermutation (counted self) pairs.items) }
    {
        let mut pairs = Vec::new(alloc);
        push_ints(&mut pairs, self.ints)?;
        push_days(&mut pairs, self.days)?;
        push_texts(&mut pairs, self.texts)?;
        sort_by_value(pairs.as_mut_slice());
        Ok(pairs)
    }
}

fn count_int(counts: &mut HashMap<i64, u64>, n: i64) -> Mem<()>
    requires { total (pairs_of cell.Int counts.old.entries) + 1 < 2 ^ 64 }
    ensures { OnOk result (CountsOne (cell.Int n)
        (pairs_of cell.Int counts.old.entries) (pairs_of cell.Int counts.new.entries)) }
{
    match counts.get_mut(&n) {
        Some(count) => {
            *count += 1;
            Ok(())
        }
        None => {
            counts.insert(n, 1)?;
            Ok(())
        }
    }
}

fn count_day(counts: &mut HashMap<i32, u64>, day: i32) -> Mem<()>
    requires { total (pairs_of cell.Date counts.old.entries) + 1 < 2 ^ 64 }
    ensures { OnOk result (CountsOne (cell.Date day)
        (pairs_of cell.Date counts.old.entries) (pairs_of cell.Date counts.new.entries)) }
{
    match counts.get_mut(&day) {
        Some(count) => {
            *count += 1;
            Ok(())
        }
        None => {
            counts.insert(day, 1)?;
            Ok(())
        }
    }
}

fn count_text(alloc: Global, counts: &mut HashMap<String, u64>, text: &str) -> Mem<()>
    requires { total (pairs_of text_cell counts.old.entries) + 1 < 2 ^ 64 }
    ensures { OnOk result (CountsOne (cell.Text text.now)
        (pairs_of text_cell counts.old.entries) (pairs_of text_cell counts.new.entries)) }
{
    match counts.get_mut(text) {
        Some(count) => {
            *count += 1;
            Ok(())
        }
        None => {
            counts.insert(String::from_str(alloc, text)?, 1)?;
            Ok(())
        }
    }
}

fn push_ints(pairs: &mut Vec<HeavyPair>, counts: HashMap<i64, u64>) -> Mem<()>
    ensures added { OnOk result
        (pairs.new.items ≡ pairs.old.items ++ pairs_of cell.Int counts.entries) }
    ensures once { OnOk result ((value : Cell) →
        count_by (λ pair. is_same value pair.value) (pairs_of cell.Int counts.entries) ≤ 1) }
{
    for (n, estimate) in counts {
        let value = Cell::Int(n);
        pairs.push(HeavyPair { value, estimate })?;
    }
    Ok(())
}

fn push_days(pairs: &mut Vec<HeavyPair>, counts: HashMap<i32, u64>) -> Mem<()>
    ensures added { OnOk result
        (pairs.new.items ≡ pairs.old.items ++ pairs_of cell.Date counts.entries) }
    ensures once { OnOk result ((value : Cell) →
        count_by (λ pair. is_same value pair.value) (pairs_of cell.Date counts.entries) ≤ 1) }
{
    for (day, estimate) in counts {
        let value = Cell::Date(day);
        pairs.push(HeavyPair { value, estimate })?;
    }
    Ok(())
}

fn push_texts(pairs: &mut Vec<HeavyPair>, counts: HashMap<String, u64>) -> Mem<()>
    ensures added { OnOk result
        (pairs.new.items ≡ pairs.old.items ++ pairs_of text_cell counts.entries) }
    ensures once { OnOk result ((value : Cell) →
        count_by (λ pair. is_same value pair.value) (pairs_of text_cell counts.entries) ≤ 1) }
{
    for (text, estimate) in counts {
        let value = Cell::Text(Text::from_string(text));
        pairs.push(HeavyPair { value, estimate })?;
    }
    Ok(())
}

fn sort_by_value(pairs: &mut [HeavyPair])
    ensures same { IsPermutation pairs.old pairs.new }
    ensures sorted { IsSorted by_value pairs.new }
{
    pairs.sort_unstable_by(|a, b| compare_values(a, b));
}
