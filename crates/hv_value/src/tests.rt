use super::*;
use std::alloc::Global;
use std::cmp::Ordering;
use std::test::Fail;

/// The days of the calendar whose numbers are known from outside: Python's `datetime` gives the same.
#[test]
fn day_texts_and_day_numbers_are_each_others(rt: HostRuntime) {
    for (text, day) in [
        ("1970-01-01", 0),
        ("1969-12-31", -1),
        ("0001-01-01", -719162),
        ("0004-02-29", -718008),
        ("1582-10-15", -141427),
        ("1972-02-29", 789),
        ("2000-02-29", 11016),
        ("2020-02-29", 18321),
        ("9999-12-31", 2932896),
    ] {
        assert_eq!(rt; day_of(text.as_bytes()), Some(day), "at {text}");
        if -719162 <= day && day <= 2932896 {
            let written = date_text(day);
            assert_eq!(rt; str::from_utf8(&written), Ok(text));
        }
    }
}

// Every rule that a text may break: the year 0000, another length, 29 February of a common year and of a century,
// months and days that don't exist, bytes that aren't digits or dashes.
#[test]
fn no_other_text_is_a_day(rt: HostRuntime) {
    for text in [
        "0000-01-01",
        "1970-1-1",
        "1970-01-1",
        "01970-01-01",
        "1970-01-011",
        "19700101",
        "",
        "2019-02-29",
        "1900-02-29",
        "2100-02-29",
        "2020-02-30",
        "1970-00-01",
        "1970-13-01",
        "1970-01-00",
        "1970-01-32",
        "1970-04-31",
        "1970/01/01",
        "1970-01/01",
        "+970-01-01",
        "-970-01-01",
        " 970-01-01",
        "1970-+1-01",
        "1970-01- 1",
        "197a-01-01",
        "1970-01-01 ",
    ] {
        assert_eq!(rt; day_of(text.as_bytes()), None, "at {text}");
    }
    assert_eq!(rt; day_of(b"1970-01-0\xFF"), None);
}

fn text_of(cell: &Cell) -> Option<&str> {
    match cell {
        Cell::Text(text) => Some(text.as_str()),
        _ => None,
    }
}

#[test]
fn copies_have_equal_contents(rt: HostRuntime) -> Result<(), Memory> {
    let text = Text::of(rt.alloc(), "ab")?;
    assert_eq!(rt; text.as_str(), "ab");
    let copy = text.copy(rt.alloc())?;
    assert_eq!(rt; copy.as_str(), "ab");
    for cell in [
        CellRef::Missing,
        CellRef::Int(-5),
        CellRef::Date(0),
        CellRef::Text("ab"),
        CellRef::Text(""),
    ] {
        let own = Cell::of(rt.alloc(), cell)?;
        assert_eq!(rt; own.lent(), cell);
    }
    assert_eq!(rt;
        text_of(&Cell::of(rt.alloc(), CellRef::Text("ab"))?),
        Some("ab")
    );
    Ok(())
}

// The cells in their order: missing, whole numbers, days, texts by bytes.
#[test]
fn cells_are_in_order(rt: HostRuntime) {
    let cells = [
        CellRef::Missing,
        CellRef::Int(i64::MIN),
        CellRef::Int(-1),
        CellRef::Int(7),
        CellRef::Date(-2),
        CellRef::Date(3),
        CellRef::Text(""),
        CellRef::Text("Z"),
        CellRef::Text("a"),
        CellRef::Text("ab"),
        CellRef::Text("\u{e4}"),
    ];
    for (i, a) in cells.iter().enumerate() {
        for (j, b) in cells.iter().enumerate() {
            assert_eq!(rt; compare(*a, *b), i.cmp(&j), "{a:?} and {b:?}");
        }
    }
    assert_eq!(rt;
        compare(CellRef::Missing, CellRef::Int(1)).reverse(),
        Ordering::Greater
    );
}

fn schema_of(alloc: Global, names: &[&str], kinds: &[Kind]) -> Result<Schema, SchemaErr> {
    let mut cols = Vec::new(alloc);
    for (name, kind) in names.iter().zip(kinds.iter()) {
        let Ok(name) = Text::of(alloc, name) else {
            return Err(SchemaErr::Memory);
        };
        if cols.push((name, *kind)).is_err() {
            return Err(SchemaErr::Memory);
        }
    }
    Schema::new(cols)
}

#[test]
fn a_schema_has_columns_with_own_names(rt: HostRuntime) -> Result<(), SchemaErr> {
    let schema = schema_of(rt.alloc(), &["x", "when"], &[Kind::Int, Kind::Date])?;
    assert_eq!(rt; schema.len(), 2);
    assert_eq!(rt; schema.find("x"), Some(0));
    assert_eq!(rt; schema.find("when"), Some(1));
    assert_eq!(rt; schema.find("y"), None);
    if schema.len() == 2 {
        assert_eq!(rt; schema.name(1), "when");
        assert_eq!(rt; schema.kind(1), Kind::Date);
    }
    Ok(())
}

// Each rule that columns may break, and the longest name and the most columns that don't.
#[test]
fn no_other_columns_make_a_schema(rt: HostRuntime) -> Result<(), Memory> {
    let two = [Kind::Int, Kind::Text];
    assert_eq!(rt;
        schema_of(rt.alloc(), &["x", "x"], &two).err(),
        Some(SchemaErr::BadSchema)
    );
    assert_eq!(rt;
        schema_of(rt.alloc(), &[], &[]).err(),
        Some(SchemaErr::BadSchema)
    );
    assert_eq!(rt;
        schema_of(rt.alloc(), &[""], &two).err(),
        Some(SchemaErr::BadSchema)
    );
    let mut name = String::new(rt.alloc());
    for _ in 0..128 {
        name.push('n')?;
    }
    assert_eq!(rt; schema_of(rt.alloc(), &[name.as_str()], &two).err(), None);
    name.push('n')?;
    assert_eq!(rt;
        schema_of(rt.alloc(), &[name.as_str()], &two).err(),
        Some(SchemaErr::BadSchema)
    );
    for (count, want) in [(64u32, None), (65, Some(SchemaErr::BadSchema))] {
        let mut cols = Vec::new(rt.alloc());
        for i in 0..count {
            let name = format!(in rt.alloc(); "{i}")?;
            cols.push((Text::of(rt.alloc(), name.as_str())?, Kind::Text))?;
        }
        assert_eq!(rt; Schema::new(cols).err(), want, "of {count}");
    }
    Ok(())
}

// Each cell is equal to itself alone, though numbers and days look alike.
#[test]
fn only_the_same_cells_are_equal(rt: HostRuntime) -> Result<(), Memory> {
    let cells = [
        CellRef::Missing,
        CellRef::Int(0),
        CellRef::Int(1),
        CellRef::Date(0),
        CellRef::Date(1),
        CellRef::Text(""),
        CellRef::Text("ab"),
        CellRef::Text("b"),
    ];
    for (i, a) in cells.iter().enumerate() {
        for (j, b) in cells.iter().enumerate() {
            let same = Cell::of(rt.alloc(), *a)? == Cell::of(rt.alloc(), *b)?;
            assert_eq!(rt; same, i == j, "at {i} and {j}");
        }
    }
    Ok(())
}

#[test]
fn schemas_are_equal_by_names_and_kinds_in_order(rt: HostRuntime) -> Result<(), Fail> {
    let kinds = [Kind::Int, Kind::Text];
    let schema = schema_of(rt.alloc(), &["x", "y"], &kinds)?;
    for (names, kinds, want) in [
        (["x", "y"], [Kind::Int, Kind::Text], true),
        (["x", "z"], [Kind::Int, Kind::Text], false),
        (["y", "x"], [Kind::Int, Kind::Text], false),
        (["x", "y"], [Kind::Int, Kind::Date], false),
    ] {
        let other = schema_of(rt.alloc(), names.as_slice(), kinds.as_slice())?;
        assert_eq!(rt; schema == other, want);
    }
    Ok(())
}

#[test]
fn a_catalog_knows_its_tables_by_name(rt: HostRuntime) -> Result<(), Memory> {
    let alloc = rt.alloc();
    let tables = vec![in alloc;
        (Text::of(alloc, "flights")?, 8),
        (Text::of(alloc, "t")?, 0),
    ]?;
    let catalog = Catalog::new(tables);
    for (name, want) in [
        ("flights", Some(8)),
        ("t", Some(0)),
        ("flight", None),
        ("", None),
    ] {
        assert_eq!(rt; catalog.parts_of(name), want, "at {name}");
    }
    Ok(())
}

// By the first key that tells two apart, the other way round where it goes down.
#[test]
fn orders_compare_key_by_key(rt: HostRuntime) -> Result<(), Memory> {
    let alloc = rt.alloc();
    let up = OrderKey {
        col: 0,
        down: false,
    };
    let down = OrderKey { col: 1, down: true };
    let order = Order::new(vec![in alloc; up, down]?);
    let a = vec![in alloc; Cell::Int(1), Cell::Int(5)]?;
    let b = vec![in alloc; Cell::Int(1), Cell::Int(7)]?;
    let c = vec![in alloc; Cell::Int(2), Cell::Missing]?;
    assert_eq!(rt;
        order.compare(a.as_slice(), b.as_slice()),
        Ordering::Greater
    );
    assert_eq!(rt; order.compare(a.as_slice(), c.as_slice()), Ordering::Less);
    assert_eq!(rt; order.compare(c.as_slice(), c.as_slice()), Ordering::Equal);
    assert!(rt; order.copied(alloc)? == order);
    Ok(())
}

#[test]
fn lists_are_those_of_their_values(rt: HostRuntime) -> Result<(), Memory> {
    let alloc = rt.alloc();
    let mut list = Listed::new(alloc);
    list.push(Cell::Int(2))?;
    list.insert(0, Cell::Int(1))?;
    list.push(Cell::Int(3))?;
    list.truncate(2);
    let other = Listed::from_vec(vec![in alloc; Cell::Int(1), Cell::Int(2)]?);
    assert!(rt; list == other);
    assert_eq!(rt; list.into_vec().len(), other.as_slice().len());
    Ok(())
}
