ghost use Rattle.std.specs.Prelude.{◌≡◌, List, [], ◌∷◌, false};
ghost use Rattle.std.specs.List.{AllByRecursion};
ghost use Rattle.wt_ast.specs.Tree.{CondTree, cond_at};
ghost use Rattle.wt_ast.specs.Conjuncts.{conjuncts, IsNoAnd};
ghost use Rattle.wt_ast.specs.Marks.{mark, marks_in_cond, marks_of_each};
ghost use Rattle.wt_ast.specs.declared.marks.Mark.{Mark};
ghost use Rattle.wt_ast.specs.declared.marks.Marked.TheVariants.{Conjunct};

/// What conjuncts are: none of them is a run of AND; a condition that is none is its own sole conjunct, and is marked as one
/// at its first byte; and the marks of a condition are those of its conjuncts in order. So an Or is one conjunct. It does
/// nothing: the law is its contract.
pub fn what_conjuncts_are()
    ensures no_and { (c : CondTree) → AllByRecursion IsNoAnd (conjuncts c) }
    ensures whole { (c : CondTree) → IsNoAnd c → conjuncts c ≡ c ∷ [] }
    ensures marked { (c : CondTree) → IsNoAnd c → (ms : List Mark) × (marks_in_cond false c ≡ mark Conjunct (cond_at c) ∷ ms) }
    ensures marks { (c : CondTree) → marks_in_cond false c ≡ marks_of_each (conjuncts c) }
{}
