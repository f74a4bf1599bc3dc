//! Laws of the calls on statements, over the definitions alone.

ghost use Rattle.std.specs.Prelude.{◌≡◌, ℤ, Some, option_map};
ghost use Rattle.sql_node.specs.Tree.{Distinct, Expr, Items, Statement, an_expr, joined, no_expr};
ghost use Rattle.sql_expr.specs.Calls.{beside};
ghost use Rattle.sql_leaf.specs.declared.operator.Logic.TheVariants.{And, Or};
ghost use Rattle.sql_select.specs.Changes.{filtered, grouped, items_then, limited, offset_by, ordered, ordered_then, selected, with_distinct, with_having};
ghost use Rattle.sql_select.specs.Parts.{clauses_of};

/// Of two calls that replace one clause the later stands alone.
pub fn the_later_call_stands()
    ensures select { (d e : Expr) (s : Statement) → selected e (selected d s) ≡ selected e s }
    ensures distinct { (d e : Distinct) (s : Statement)
        → with_distinct e (with_distinct d s) ≡ with_distinct e s }
    ensures order { (is js : Items) (s : Statement) → ordered js (ordered is s) ≡ ordered js s }
    ensures limit { (m n : ℤ) (s : Statement) → limited n (limited m s) ≡ limited n s }
    ensures offset { (m n : ℤ) (s : Statement) → offset_by n (offset_by m s) ≡ offset_by n s }
    ensures group_by { (d e : Expr) (s : Statement) → grouped e (grouped d s) ≡ grouped e s }
    ensures having { (d e : Expr) (s : Statement)
        → with_having e (with_having d s) ≡ with_having e s }
{}

/// Without an earlier condition, `filter(a)` and then `or_filter(b)` is `filter(a.or(b))`.
pub fn or_filter_is_filter_with_or()
    ensures { (a b : Expr) (s : Statement)
        → option_map (λ c. c.condition) (clauses_of s) ≡ Some no_expr
        → filtered Or b (filtered And a s) ≡ filtered And (joined Or a b) s }
{}

/// `filter` and `then_order_by` append: a condition to the conditions so far, and items to the items so far.
pub fn filter_and_then_order_by_append()
    ensures filter { (a b : Expr) (s : Statement)
        → option_map (λ c. c.condition) (clauses_of (filtered And b (filtered And a s)))
        ≡ option_map (λ c. an_expr (joined And (beside And c.condition a) b)) (clauses_of s) }
    ensures then_order_by { (is js : Items) (s : Statement)
        → ordered_then js (ordered_then is s) ≡ ordered_then (items_then is js) s }
    ensures first { (is js : Items) (s : Statement)
        → ordered_then js (ordered is s) ≡ ordered (items_then is js) s }
{}
