ghost use Rattle.std.specs.Prelude.{◌≡◌, true, IfOk};
ghost use Rattle.std.specs.Arc.{arc_value};
ghost use Rattle.hv_expr.specs.Checks.{has_fit_factors};

use super::*;
use hv_expr::{Expr, Pred};
use hv_value::{Kind, Memory, Schema, Text};
use sqlite_items::{Boxed, Items};
use std::alloc::Global;
use std::hash::{DefaultHasher, Hash, Hasher};
use std::sync::Arc;

/// A table of the whole numbers x and the texts t, in three partitions.
fn named_base(alloc: Global) -> Result<Arc<Lineage>, LineageErr> {
    let mut cols = Vec::new(alloc);
    cols.push((Text::of(alloc, "x")?, Kind::Int))?;
    cols.push((Text::of(alloc, "t")?, Kind::Text))?;
    let schema = Schema::new(cols).map_err(|_| LineageErr::Memory)?;
    let base = Base::Named {
        schema,
        table: Text::of(alloc, "flights")?,
        parts: 3,
    };
    Ok(Lineage::base(alloc, base)?)
}

/// That a column is missing, under so many negations.
fn missing(alloc: Global, col: &str, negations: u32) -> Result<Pred, Memory> {
    let mut pred = Pred::Missing {
        col: Text::of(alloc, col)?,
    };
    for _ in 0..negations {
        pred = Pred::Not(Boxed::new(alloc, pred)?);
    }
    Ok(pred)
}

#[tactic(auto, using(hv_expr::proofs::Folds::folds), unfolding(hv_expr::specs::Checks::has_fit_factors))]
fn column(alloc: Global, name: &str) -> Result<Expr, Memory>
    ensures { IfOk result (λ e. has_fit_factors e ≡ true) }
{
    Ok(Expr::Col(Text::of(alloc, name)?))
}

#[tactic(auto, using(hv_expr::proofs::Folds::folds), unfolding(hv_expr::specs::Checks::has_fit_factors))]
fn length_of(alloc: Global, name: &str) -> Result<Expr, Memory>
    ensures { IfOk result (λ e. has_fit_factors e ≡ true) }
{
    let of = column(alloc, name)?;
    Ok(Expr::Length(Boxed::new(alloc, of)?))
}

fn names(alloc: Global, cols: &[&str]) -> Result<Vec<Text>, Memory> {
    let mut names = Vec::new(alloc);
    for col in cols {
        names.push(Text::of(alloc, col)?)?;
    }
    Ok(names)
}

fn filtered(alloc: Global, of: &Arc<Lineage>, col: &str, negations: u32) -> Option<LineageErr> {
    let Ok(pred) = missing(alloc, col, negations) else {
        return Some(LineageErr::Memory);
    };
    Lineage::filter(alloc, of, pred).err()
}

fn projected(alloc: Global, of: &Arc<Lineage>, cols: &[&str]) -> Option<LineageErr> {
    let Ok(cols) = names(alloc, cols) else {
        return Some(LineageErr::Memory);
    };
    Lineage::project(alloc, of, cols).err()
}

fn derived(alloc: Global, of: &Arc<Lineage>, name: &str, text: &str) -> Option<LineageErr> {
    let (Ok(name), Ok(expr)) = (Text::of(alloc, name), length_of(alloc, text)) else {
        return Some(LineageErr::Memory);
    };
    Lineage::derive(alloc, of, name, expr).err()
}

// Each refusal once, and where two stand together the first in the order that the format gives.
#[test]
fn refuses_in_order(rt: HostRuntime) -> Result<(), LineageErr> {
    let alloc = rt.alloc();
    let base = named_base(alloc)?;
    for (col, negations, want) in [
        ("x", 15, None),
        ("x", 16, Some(LineageErr::TooDeep)),
        ("q", 15, Some(LineageErr::NoColumn)),
        ("q", 16, Some(LineageErr::TooDeep)),
    ] {
        assert_eq!(rt;
            filtered(alloc, &base, col, negations),
            want,
            "{col} {negations}"
        );
    }
    for (cols, want) in [
        (["t", "x"].as_slice(), None),
        (&["t"], None),
        (&["q"], Some(LineageErr::NoColumn)),
        (&["x", "x"], Some(LineageErr::BadSchema)),
        (&["x", "x", "q"], Some(LineageErr::NoColumn)),
        (&[], Some(LineageErr::BadSchema)),
    ] {
        assert_eq!(rt; projected(alloc, &base, cols), want, "{cols:?}");
    }
    for (name, text, want) in [
        ("n", "t", None),
        ("n", "q", Some(LineageErr::NoColumn)),
        ("n", "x", Some(LineageErr::WrongKind)),
        ("x", "t", Some(LineageErr::NameClash)),
        ("x", "q", Some(LineageErr::NoColumn)),
        ("", "t", Some(LineageErr::BadSchema)),
    ] {
        assert_eq!(rt; derived(alloc, &base, name, text), want, "{name} of {text}");
    }
    Ok(())
}

// A base has depth 1, so the 64th node over it is one too many; each reason beside the depth comes first.
#[test]
fn the_sixty_fourth_filter_is_too_deep(rt: HostRuntime) -> Result<(), LineageErr> {
    let alloc = rt.alloc();
    let mut lineage = named_base(alloc)?;
    assert_eq!(rt; lineage.depth(), 1);
    assert_eq!(rt; lineage.size(), 1);
    for _ in 0..63u32 {
        lineage = Lineage::filter(alloc, &lineage, missing(alloc, "x", 0)?)?;
    }
    assert_eq!(rt; lineage.depth(), 64);
    assert_eq!(rt; lineage.size(), 64);
    for (col, negations, want) in [
        ("x", 0, LineageErr::Deep),
        ("q", 0, LineageErr::NoColumn),
        ("x", 16, LineageErr::TooDeep),
    ] {
        assert_eq!(rt; filtered(alloc, &lineage, col, negations), Some(want));
    }
    for (cols, want) in [
        (["x"].as_slice(), LineageErr::Deep),
        (&["x", "x"], LineageErr::BadSchema),
    ] {
        assert_eq!(rt; projected(alloc, &lineage, cols), Some(want));
    }
    for (name, want) in [
        ("n", LineageErr::Deep),
        ("x", LineageErr::NameClash),
        ("", LineageErr::BadSchema),
    ] {
        assert_eq!(rt; derived(alloc, &lineage, name, "t"), Some(want));
    }
    Ok(())
}

fn has_columns(schema: &Schema, want: &[(&str, Kind)]) -> bool {
    schema.len() as usize == want.len()
        && (0..schema.len()).zip(want.iter()).all(|(j, (name, kind))| j < schema.len()
            && schema.name(j) == *name
            && schema.kind(j) == *kind)
}

// A derived column stands at the end and can be used as any other; chosen columns stand in the order of their names.
#[test]
fn columns_are_those_of_the_term(rt: HostRuntime) -> Result<(), LineageErr> {
    let alloc = rt.alloc();
    let base = named_base(alloc)?;
    let length = Lineage::derive(alloc, &base, Text::of(alloc, "n")?, length_of(alloc, "t")?)?;
    let again = Lineage::derive(alloc, &length, Text::of(alloc, "m")?, column(alloc, "n")?)?;
    let kept = Lineage::filter(alloc, &again, missing(alloc, "m", 1)?)?;
    let chosen = Lineage::project(alloc, &kept, names(alloc, &["m", "t"])?)?;
    assert!(rt;
        has_columns(
            kept.schema(),
            &[
                ("x", Kind::Int),
                ("t", Kind::Text),
                ("n", Kind::Int),
                ("m", Kind::Int)
            ],
        )
    );
    assert!(rt; has_columns(chosen.schema(), &[("m", Kind::Int), ("t", Kind::Text)]));
    assert_eq!(rt; chosen.depth(), 5);
    assert_eq!(rt; chosen.parts(), 3);
    assert_eq!(rt;
        filtered(alloc, &chosen, "x", 0),
        Some(LineageErr::NoColumn)
    );
    Ok(())
}

// Bases are told apart by their columns, texts, names and numbers of partitions.
#[test]
fn equal_bases_are_the_same(rt: HostRuntime) -> Result<(), LineageErr> {
    let alloc = rt.alloc();
    let base = named_base(alloc)?;
    let kept = Lineage::filter(alloc, &base, missing(alloc, "x", 0)?)?;
    assert!(rt; kept.same_base(&*named_base(alloc)?));
    let mut cols = Vec::new(alloc);
    cols.push((Text::of(alloc, "x")?, Kind::Int))?;
    let schema = Schema::new(cols).map_err(|_| LineageErr::Memory)?;
    let parts = Items::new(alloc);
    let inline = Lineage::base(alloc, Base::Inline { schema, parts })?;
    assert_eq!(rt; inline.parts(), 0);
    assert!(rt; !kept.same_base(&inline));
    Ok(())
}

fn hash_of<T: Hash>(value: &T) -> u64 {
    let mut hasher = DefaultHasher::new();
    value.hash(&mut hasher);
    hasher.finish()
}

/// The lengths of t under a name, over the rows with an x.
fn lengths(alloc: Global, name: &str) -> Result<Arc<Lineage>, LineageErr> {
    let kept = Lineage::filter(alloc, &named_base(alloc)?, missing(alloc, "x", 1)?)?;
    Lineage::derive(alloc, &kept, Text::of(alloc, name)?, length_of(alloc, "t")?)
}

// Lineages that were made alike share nothing, and are equal all the same.
#[test]
fn lineages_made_alike_are_equal(rt: HostRuntime) -> Result<(), LineageErr> {
    let alloc = rt.alloc();
    let made = lengths(alloc, "n")?;
    let again = lengths(alloc, "n")?;
    assert!(rt; made == again);
    assert!(rt; made.origin() == again.origin());
    assert_eq!(rt; hash_of(&*made), hash_of(&*again));
    assert_eq!(rt; hash_of(made.origin()), hash_of(again.origin()));
    let other = lengths(alloc, "m")?;
    assert!(rt; made != other);
    assert!(rt; hash_of(&*made) != hash_of(&*other));
    Ok(())
}

// A term that stands on both sides counts twice, so that 127 nodes are reached at depth 7. One more is the last.
#[test]
fn one_hundred_and_twenty_eight_nodes_are_the_most(rt: HostRuntime) -> Result<(), LineageErr> {
    let alloc = rt.alloc();
    let base = named_base(alloc)?;
    let mut lineage = named_base(alloc)?;
    for _ in 0..6u32 {
        lineage = Lineage::combine(alloc, How2::Both, &lineage, &lineage)?;
    }
    assert_eq!(rt; lineage.size(), 127);
    assert_eq!(rt; lineage.depth(), 7);
    let full = Lineage::sample(alloc, &lineage, 42, 2147483648)?;
    assert_eq!(rt; full.size(), 128);
    assert!(rt; lineage.has_room() && !full.has_room());
    assert_eq!(rt; filtered(alloc, &full, "x", 0), Some(LineageErr::Deep));
    assert_eq!(rt;
        combined(alloc, How2::Minus, &lineage, &base),
        Some(LineageErr::Deep)
    );
    assert_eq!(rt;
        combined(alloc, How2::Zip, &lineage, &base),
        Some(LineageErr::NameClash)
    );
    Ok(())
}

fn combined(
    alloc: Global,
    how: How2,
    left: &Arc<Lineage>,
    right: &Arc<Lineage>,
) -> Option<LineageErr> {
    Lineage::combine(alloc, how, left, right).err()
}

// Bases are compared before columns; a union wants the same columns, and what is zipped no common name.
#[test]
fn unlike_lineages_are_not_combined(rt: HostRuntime) -> Result<(), LineageErr> {
    let alloc = rt.alloc();
    let base = named_base(alloc)?;
    let texts = Lineage::project(alloc, &base, names(alloc, &["t"])?)?;
    let numbers = Lineage::project(alloc, &base, names(alloc, &["x"])?)?;
    assert_eq!(rt;
        combined(alloc, How2::Union, &texts, &numbers),
        Some(LineageErr::SchemaDiffers)
    );
    assert_eq!(rt; combined(alloc, How2::Union, &texts, &texts), None);
    assert_eq!(rt;
        combined(alloc, How2::Zip, &texts, &base),
        Some(LineageErr::NameClash)
    );
    let zipped = Lineage::combine(alloc, How2::Zip, &texts, &numbers)?;
    assert!(rt; has_columns(zipped.schema(), &[("t", Kind::Text), ("x", Kind::Int)]));
    let mut cols = Vec::new(alloc);
    cols.push((Text::of(alloc, "x")?, Kind::Int))?;
    let schema = Schema::new(cols).map_err(|_| LineageErr::Memory)?;
    let parts = Items::new(alloc);
    let other = Lineage::base(alloc, Base::Inline { schema, parts })?;
    assert_eq!(rt;
        combined(alloc, How2::Zip, &other, &numbers),
        Some(LineageErr::NotSameBase)
    );
    Ok(())
}
