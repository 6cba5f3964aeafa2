//! Each public call once, over a table of one row. The tables of predicates, expressions and tests of texts are scripts
//! (tests/predicates.jsonl, tests/expressions.jsonl and tests/text_tests.jsonl of the repository).

ghost use Rattle.std.specs.Prelude.{◌≡◌, [], ◌∷◌, codes, true, IfOk};
ghost use Rattle.hv_value.specs.declared.cell.Kind.TheVariants as kind;
ghost use Rattle.hv_expr.specs.Checks.{has_fit_factors};

use super::*;
use hv_value::{Cell, CellRef, Kind, Schema, Table, Text};
use sqlite_items::{Boxed, Items};
use std::alloc::Global;
use std::hash::{DefaultHasher, Hash, Hasher};
use std::test::Fail;

/// A table of one row with the columns n (whole numbers) and t (texts).
#[derive(Drop)]
struct OneRow {
    schema: Schema,
    n: i64,
    t: Text,
    ghost columns: { schema ≡ (codes "n", kind.Int) ∷ (codes "t", kind.Text) ∷ [] },
}

impl Table for OneRow {
    ghost use Rattle.std.specs.Prelude.{[], ◌∷◌, codes};
    ghost use Rattle.hv_value.specs.declared.cell.Kind.TheVariants as kind;
    ghost use Rattle.hv_value.specs.declared.cell.Cell.TheVariants as cell;

    ghost columns = { λ table. (codes "n", kind.Int) ∷ (codes "t", kind.Text) ∷ [] };

    ghost part_number = { λ table. 0 };

    ghost rows = { λ table. record { part = 0; number = 0; cells = cell.Int table.n ∷ cell.Text table.t ∷ [] } ∷ [] };

    fn schema(&self) -> &Schema {
        &self.schema
    }

    fn part(&self) -> u32 {
        0
    }

    fn next_row(&self, from: u32) -> Option<u32> {
        if from == 0 { Some(0) } else { None }
    }

    fn cell(&self, _row: u32, col: u32) -> CellRef<'_> {
        match col {
            0 => CellRef::Int(self.n),
            _ => CellRef::Text(self.t.as_str()),
        }
    }
}

fn schema_of(alloc: Global) -> Result<Schema, Fail>
    ensures { IfOk result (λ schema. schema ≡ (codes "n", kind.Int) ∷ (codes "t", kind.Text) ∷ []) }
{
    let n = (Text::of(alloc, "n")?, Kind::Int);
    let t = (Text::of(alloc, "t")?, Kind::Text);
    Ok(Schema::new(vec![in alloc; n, t]?)?)
}

fn row_of(alloc: Global, n: i64, t: &str) -> Result<OneRow, Fail> {
    Ok(OneRow {
        schema: schema_of(alloc)?,
        n,
        t: Text::of(alloc, t)?,
    })
}

/// The texts of the column t twice, with one between them.
#[tactic(auto, using(crate::proofs::Folds::folds), unfolding(crate::specs::Checks::has_fit_factors))]
fn twice(alloc: Global, between: &str) -> Result<Expr, Fail>
    ensures { IfOk result (λ e. has_fit_factors e ≡ true) }
{
    let left = Expr::Col(Text::of(alloc, "t")?);
    let right = Expr::Col(Text::of(alloc, "t")?);
    Ok(Expr::Join {
        left: Boxed::new(alloc, left)?,
        between: Text::of(alloc, between)?,
        right: Boxed::new(alloc, right)?,
    })
}

/// A folding test of whether a text has a piece.
fn piece(alloc: Global, text: &str) -> Result<TextTest, Fail> {
    Ok(TextTest {
        how: How::Contains,
        fold: true,
        text: Text::of(alloc, text)?,
    })
}

/// Whether n is 7 and t has a piece.
fn seven_with(alloc: Global, text: &str) -> Result<Pred, Fail> {
    let seven = Pred::Cmp {
        col: Text::of(alloc, "n")?,
        how: Rel::Eq,
        to: Cell::Int(7),
    };
    let has = Pred::Match {
        col: Text::of(alloc, "t")?,
        test: piece(alloc, text)?,
    };
    Ok(Pred::And(Items::from_vec(vec![in alloc; seven, has]?)))
}

fn hash_of<T: Hash>(value: &T) -> u64 {
    let mut state = DefaultHasher::new();
    value.hash(&mut state);
    state.finish()
}

#[test]
fn a_text_meets_a_test_by_itself_and_prepared(rt: HostRuntime) -> Result<(), Fail> {
    let alloc = rt.alloc();
    let test = piece(alloc, "FFI")?.copy(alloc)?;
    assert_eq!(rt; test.meets(alloc, "oﬃce")?, true);
    let ready = ReadyTest::of(alloc, &test)?;
    assert_eq!(rt; ready.meets(alloc, "oﬃce")?, true);
    assert_eq!(rt; ready.meets(alloc, "face")?, false);
    Ok(())
}

#[test]
fn an_expression_has_a_value_by_name_and_by_place(rt: HostRuntime) -> Result<(), Fail> {
    let alloc = rt.alloc();
    let table = row_of(alloc, 7, "b")?;
    let e = twice(alloc, "-")?;
    assert_eq!(rt; e.eval(alloc, &table, 0)?.lent(), CellRef::Text("b-b"));
    let ready = ReadyExpr::of(alloc, &e, table.schema())?;
    assert_eq!(rt; ready.eval(alloc, &table, 0)?.lent(), CellRef::Text("b-b"));
    assert_eq!(rt; e.check(table.schema()), Ok(Kind::Text));
    assert_eq!(rt; e.nodes(), 3);
    Ok(())
}

#[test]
fn a_predicate_holds_by_name_and_by_place(rt: HostRuntime) -> Result<(), Fail> {
    let alloc = rt.alloc();
    let table = row_of(alloc, 7, "office")?;
    let pred = seven_with(alloc, "FFI")?;
    assert_eq!(rt; pred.eval(alloc, &table, 0)?, true);
    let ready = ReadyPred::of(alloc, &pred, table.schema())?;
    assert_eq!(rt; ready.eval(alloc, &table, 0)?, true);
    assert_eq!(rt; pred.check(table.schema()), Ok(()));
    assert_eq!(rt; pred.nodes(), 3);
    Ok(())
}

#[test]
fn copies_are_equal_and_others_are_not(rt: HostRuntime) -> Result<(), Fail> {
    let alloc = rt.alloc();
    let e = twice(alloc, "-")?;
    let copy = e.copy(alloc)?;
    assert!(rt; copy == e && copy != twice(alloc, "+")?);
    assert_eq!(rt; hash_of(&copy), hash_of(&e));
    let pred = seven_with(alloc, "b")?;
    let copy = pred.copy(alloc)?;
    assert!(rt; copy == pred && copy != seven_with(alloc, "c")?);
    assert_eq!(rt; hash_of(&copy), hash_of(&pred));
    Ok(())
}
