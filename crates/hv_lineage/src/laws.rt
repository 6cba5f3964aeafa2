//! What the definitions of rows give, as contracts of calls that do nothing.

ghost use Rattle.std.specs.Prelude.{◌≡◌, ℕ, List, [], ◌++◌, Some, IsPermutation};
ghost use Rattle.hv_value.specs.Rows.{Row};
ghost use Rattle.hv_member.specs.Sets.{IsSetBelow, common, joined};
ghost use Rattle.hv_lineage.specs.Flat.{Told, flat_rows};
ghost use Rattle.hv_lineage.specs.Lineages.{TermOver};

/// The rows of a lineage over two sets of partitions without a common one, joined, are those over both.
pub fn joined_parts_have_both_rows()
    ensures { (told : Told) (lineage : TermOver) (size : ℕ) (a b : List ℕ) (xs ys : List Row) → IsSetBelow size a → IsSetBelow size b → common a b ≡ []
        → flat_rows told lineage a ≡ Some xs → flat_rows told lineage b ≡ Some ys
        → (zs : List Row) × (flat_rows told lineage (joined a b) ≡ Some zs) × IsPermutation (xs ++ ys) zs }
{}
