//! The places of some values among themselves: for each the place of the first one equal to it. Contracts see them as
//! the list of the values.

ghost use Rattle.std.specs.Prelude.{◌≡◌, ◌∷◌, [], ◌+◌, ◌++◌, ℕ, ℤ, List, length, string_bytes, bytes_eq, if◌then◌else◌, Some, None, IfOk, OnOk};
ghost use Rattle.std.specs.HashMap.{get, get_by_text};
ghost use Rattle.std.specs.Option.{option_or};
ghost use Rattle.std.specs.Ordering.{int_eq};
ghost use Rattle.hv_value.specs.declared.cell.Cell.{Cell};
ghost use Rattle.hv_value.specs.Cells.{cell_lent};
ghost use Rattle.hv_heavy.specs.CountOf.{slot_of};
ghost use Rattle.hv_heavy.specs.ValuePlaces.{AreMapped};

use hv_value::{Cell, CellRef, Mem};
use std::alloc::Global;
use std::collections::HashMap;
use std::marker::Model;

/// The place of the first of each of some values, by kind.
#[derive(Drop)]
pub(crate) struct PlaceMaps {
    pub(crate) ints: HashMap<i64, usize>,
    pub(crate) days: HashMap<i32, usize>,
    pub(crate) texts: HashMap<String, usize>,
}

/// Some values with their places. Missing cells among them have none.
#[derive(Drop)]
pub(crate) struct ValuePlaces<'a> {
    values: &'a [Cell],
    maps: PlaceMaps,
}

impl<'a> Model for ValuePlaces<'a> {
    ghost use Rattle.std.specs.Prelude.{List};
    ghost use Rattle.hv_value.specs.declared.cell.Cell.{Cell};
    ghost use Rattle.hv_heavy.specs.ValuePlaces.{AreMapped};

    ghost Value = { List Cell };

    ghost view = { λ places. places.values.now };

    ghost invariant = { λ places. AreMapped places.values.now places.maps };
}

impl<'a> ValuePlaces<'a> {
    /// The places of these values.
    pub(crate) fn of(alloc: Global, values: &'a [Cell]) -> Mem<ValuePlaces<'a>>
        ensures { IfOk result (λ places. places ≡ values.now) }
    {
        let maps = PlaceMaps::of(alloc, values)?;
        Ok(ValuePlaces { values, maps })
    }

    /// How many slots there are: one for each value, one for cells that are none of them, and one for missing ones.
    pub(crate) fn slots(&self) -> usize
        ensures { result ≡ length self.now + 2 }
    {
        self.values.len() + 2
    }

    /// The slot of a cell: the place of the first value that it is.
    #[inline(always)]
    pub(crate) fn slot_of(&self, cell: CellRef<'_>) -> usize
        ensures { result ≡ slot_of self.now (cell_lent cell.entry) }
    {
        let others = self.values.len();
        match cell {
            CellRef::Missing => others + 1,
            CellRef::Int(n) => self.maps.ints.get(&n).copied().unwrap_or(others),
            CellRef::Date(day) => self.maps.days.get(&day).copied().unwrap_or(others),
            CellRef::Text(text) => self.maps.texts.get(text).copied().unwrap_or(others),
        }
    }
}

impl PlaceMaps {
    fn of(alloc: Global, values: &[Cell]) -> Mem<PlaceMaps>
        ensures { IfOk result (AreMapped values.now) }
    {
        let mut maps = PlaceMaps {
            ints: HashMap::new(alloc),
            days: HashMap::new(alloc),
            texts: HashMap::new(alloc),
        };
        for place in 0..values.len() {
            maps.add(alloc, values[place].lent(), place)?;
        }
        Ok(maps)
    }

    /// Adds a value after the others, of which there are so many. One that has a place already keeps it.
    fn add(&mut self, alloc: Global, value: CellRef<'_>, place: usize) -> Mem<()>
        ensures { OnOk result ((values : List Cell) → place ≡ length values
            → AreMapped values self.old → AreMapped (values ++ cell_lent value.entry ∷ []) self.new) }
    {
        match value {
            CellRef::Missing => Ok(()),
            CellRef::Int(n) => add_int(&mut self.ints, n, place),
            CellRef::Date(day) => add_day(&mut self.days, day, place),
            CellRef::Text(text) => add_text(alloc, &mut self.texts, text, place),
        }
    }
}

fn add_int(places: &mut HashMap<i64, usize>, n: i64, place: usize) -> Mem<()>
    ensures { OnOk result ((other : ℤ) → get int_eq places.new other
        ≡ option_or (get int_eq places.old other) (if int_eq n other then Some place else None)) }
{
    if !places.contains_key(&n) {
        places.insert(n, place)?;
    }
    Ok(())
}

fn add_day(places: &mut HashMap<i32, usize>, day: i32, place: usize) -> Mem<()>
    ensures { OnOk result ((other : ℤ) → get int_eq places.new other
        ≡ option_or (get int_eq places.old other) (if int_eq day other then Some place else None)) }
{
    if !places.contains_key(&day) {
        places.insert(day, place)?;
    }
    Ok(())
}

fn add_text(alloc: Global, places: &mut HashMap<String, usize>, text: &str, place: usize) -> Mem<()>
    ensures { OnOk result ((other : List ℕ) → get_by_text places.new other
        ≡ option_or (get_by_text places.old other) (if bytes_eq text.now other then Some place else None)) }
{
    if !places.contains_key(text) {
        places.insert(String::from_str(alloc, text)?, place)?;
    }
    Ok(())
}
