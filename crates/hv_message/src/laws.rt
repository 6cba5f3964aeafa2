//! Laws of the definitions, each as a contract of a call that does nothing: that reading never runs out of levels, and
//! that each refusal of a term has a word.

ghost use Rattle.std.specs.Prelude.{◌≡◌, ◌≤◌, ℕ, List, Some, true, is_some, IfSome};
ghost use Rattle.serde_json.specs.Data.{Data};
ghost use Rattle.serde_json.specs.Read.{read};
ghost use Rattle.hv_expr.specs.declared.expr.Expr.{Expr};
ghost use Rattle.hv_expr.specs.declared.pred.Pred.{Pred};
ghost use Rattle.hv_lineage.specs.Combining.{combine_refusal, sample_refusal};
ghost use Rattle.hv_lineage.specs.declared.how.How2.{How2};
ghost use Rattle.hv_lineage.specs.Lineages.{TermOver, derive_refusal, filter_refusal, project_refusal};
ghost use Rattle.hv_message.specs.LineageTexts.{term_in};
ghost use Rattle.hv_message.specs.Terms.{refusal_word};
ghost use Rattle.hv_asked.specs.Trees.{expr_in, levels, pred_in};

/// The definitions of a predicate, of an expression and of a lineage's term count their levels down. For every value
/// that a text is read as there are levels enough: with more of them the meaning is the same.
pub fn levels_are_enough()
    ensures pred { (text : List ℕ) (value : Data) (n : ℕ) → read text ≡ Some value → levels ≤ n
        → pred_in n value ≡ pred_in levels value }
    ensures expr { (text : List ℕ) (value : Data) (n : ℕ) → read text ≡ Some value → levels ≤ n
        → expr_in n value ≡ expr_in levels value }
    ensures term { (text : List ℕ) (value : Data) (n : ℕ) (base : TermOver) → read text ≡ Some value → levels ≤ n
        → term_in n base value ≡ term_in levels base value }
{}

/// Whatever a filter, a choice of columns, a derived column, a sample or a combination is refused for has a word. So one that is refused is never
/// taken for one that isn't.
pub fn refusals_have_words()
    ensures filter { (lineage : TermOver) (pred : Pred)
        → IfSome (filter_refusal lineage pred) (λ e. is_some (refusal_word e) ≡ true) }
    ensures project { (lineage : TermOver) (cols : List (List ℕ))
        → IfSome (project_refusal lineage cols) (λ e. is_some (refusal_word e) ≡ true) }
    ensures derive { (lineage : TermOver) (name : List ℕ) (expr : Expr)
        → IfSome (derive_refusal lineage name expr) (λ e. is_some (refusal_word e) ≡ true) }
    ensures sample { (lineage : TermOver)
        → IfSome (sample_refusal lineage) (λ e. is_some (refusal_word e) ≡ true) }
    ensures combine { (how : How2) (left right : TermOver)
        → IfSome (combine_refusal how left right) (λ e. is_some (refusal_word e) ≡ true) }
{}
