//! Laws of the rows of a side: each is a function with an empty body, and its contract is the law.
ghost use Rattle.std.specs.Prelude.{◌≡◌, ◌++◌, ℕ, List, map};
ghost use Rattle.wt_value.specs.Values.{Tuple, IsOneBag, distinct_rows};
ghost use Rattle.wt_symbol.specs.Sides.{SideTree, inner_join, left_join, dedup, PairTree};
ghost use Rattle.wt_instance.specs.declared.instance.Instance.{Instance};
ghost use Rattle.wt_instance.specs.Instances.{IsInstance, table};
ghost use Rattle.wt_instance.specs.Rows.{values, rows_of, HaveColumns};
ghost use Rattle.wt_instance.specs.SideBags.{unmatched_rows, with_tables};

/// A law: on an instance of a pair each row of a side has the columns of the side.
pub fn rows_have_columns()
    ensures { (p : PairTree) (I : Instance) → IsInstance p I → (s : SideTree) (A : List ℕ) → HaveColumns s A I }
{}

/// A law: on an instance of a pair the rows of a Dedup are the distinct rows of its operand.
pub fn dedup_rows_are_distinct_rows()
    ensures { (p : PairTree) (I : Instance) → IsInstance p I → (s : SideTree) (A : List ℕ) → rows_of (dedup s) A I ≡ distinct_rows (rows_of s A I) }
{}

/// A law: the rows of a LeftJoin are those of the InnerJoin and the left rows that no right row matches,
/// with NULLs for the right columns.
pub fn left_join_adds_unmatched_rows()
    ensures { (I : Instance) (A : List ℕ) (a b : ℕ) (s t : SideTree) →
        IsOneBag (rows_of (left_join a b s t) A I) (rows_of (inner_join a b s t) A I ++ map values (unmatched_rows A I a b s t)) }
{}

/// A law: the rows of a side depend on its tables as bags. On instances whose tables have the same rows in
/// another order, and that are the same else, a side gives one bag.
pub fn sides_depend_on_tables_as_bags()
    ensures { (I : Instance) (tables : List (List Tuple)) → ((r : ℕ) → IsOneBag (table I r) (table (with_tables I tables) r)) →
        (s : SideTree) (A : List ℕ) → IsOneBag (rows_of s A I) (rows_of s A (with_tables I tables)) }
{}
