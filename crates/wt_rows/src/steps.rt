//! Steps keep rows, at the top as a bag and inside a nested form as which rows occur.
ghost use Rattle.std.specs.Prelude.{◌≡◌, Bool, true, List};
ghost use Rattle.wt_bag.specs.Bags.{Each};
ghost use Rattle.wt_value.specs.Values.{IsOneBag};
ghost use Rattle.wt_symbol.specs.Sides.{PairTree};
ghost use Rattle.wt_symbol.specs.declared.head.Part.{Part};
ghost use Rattle.wt_constraint.specs.declared.set.AtomSet.{AtomSet};
ghost use Rattle.wt_form.specs.declared.form.Expr.{Expr};
ghost use Rattle.wt_form.specs.Trees.{Terms, term_then, Ranges, Conds, Form};
ghost use Rattle.wt_form.specs.Parts.{one_term};
ghost use Rattle.wt_form.specs.Known.{Known};
ghost use Rattle.wt_form.specs.Places.{others};
ghost use Rattle.wt_form.specs.Drops.{Repeated, SelfJoin, InTrue, NotInFalse, NullCompared, NotInOfNull};
ghost use Rattle.wt_form.specs.Joining.{JoinToIn, Merged, Rewritten};
ghost use Rattle.wt_form.specs.Opening.{Opened};
ghost use Rattle.wt_form.specs.TwoTerms.{SplitByIn, Twins};
ghost use Rattle.wt_form.specs.Steps.{Row, PairRow, TermsStep, Step};
ghost use Rattle.wt_form.specs.Under.{Under};
ghost use Rattle.wt_instance.specs.declared.instance.Instance.{Instance};
ghost use Rattle.wt_instance.specs.Instances.{IsInstance};
ghost use Rattle.wt_instance.specs.Meeting.{Meets};
ghost use Rattle.wt_rows.specs.FormRows.{terms_rows, form_rows};
ghost use Rattle.wt_rows.specs.Keeping.{Keeps};
ghost use Rattle.wt_rows.specs.Fits.{ExprFits, RangesFit, CondsFit, TermsFit, Fits};

/// The law of each step, one clause to a row of the table: what it puts in the place of a term that
/// fits, or of two, has the same rows on every instance that meets the set.
pub fn each_step_keeps_rows()
    ensures repeated { (pair : PairTree) (set : AtomSet) (I : Instance) (K : Known) → IsInstance pair I → Meets pair set I → Under pair set K → (nested : Bool) (rs : Ranges) (cs : Conds) (ps : List Expr) (us : Terms) → RangesFit I rs → CondsFit I rs cs → Each (ExprFits I rs) ps → Repeated K rs cs ps us → Keeps nested (terms_rows (one_term rs cs ps) I) (terms_rows us I) }
    ensures self_join { (pair : PairTree) (set : AtomSet) (I : Instance) (K : Known) → IsInstance pair I → Meets pair set I → Under pair set K → (nested : Bool) (rs : Ranges) (cs : Conds) (ps : List Expr) (us : Terms) → RangesFit I rs → CondsFit I rs cs → Each (ExprFits I rs) ps → SelfJoin K rs cs ps us → Keeps nested (terms_rows (one_term rs cs ps) I) (terms_rows us I) }
    ensures in_true { (pair : PairTree) (set : AtomSet) (I : Instance) (K : Known) → IsInstance pair I → Meets pair set I → Under pair set K → (nested : Bool) (rs : Ranges) (cs : Conds) (ps : List Expr) (us : Terms) → RangesFit I rs → CondsFit I rs cs → Each (ExprFits I rs) ps → InTrue K rs cs ps us → Keeps nested (terms_rows (one_term rs cs ps) I) (terms_rows us I) }
    ensures join_to_in { (pair : PairTree) (set : AtomSet) (I : Instance) (K : Known) → IsInstance pair I → Meets pair set I → Under pair set K → (nested : Bool) (rs : Ranges) (cs : Conds) (ps : List Expr) (us : Terms) → RangesFit I rs → CondsFit I rs cs → Each (ExprFits I rs) ps → JoinToIn K nested rs cs ps us → Keeps nested (terms_rows (one_term rs cs ps) I) (terms_rows us I) }
    ensures merged { (pair : PairTree) (set : AtomSet) (I : Instance) (K : Known) → IsInstance pair I → Meets pair set I → Under pair set K → (nested : Bool) (rs : Ranges) (cs : Conds) (ps : List Expr) (us : Terms) → RangesFit I rs → CondsFit I rs cs → Each (ExprFits I rs) ps → Merged K rs cs ps us → Keeps nested (terms_rows (one_term rs cs ps) I) (terms_rows us I) }
    ensures not_in_false { (pair : PairTree) (set : AtomSet) (I : Instance) (K : Known) → IsInstance pair I → Meets pair set I → Under pair set K → (nested : Bool) (rs : Ranges) (cs : Conds) (ps : List Expr) (us : Terms) → RangesFit I rs → CondsFit I rs cs → Each (ExprFits I rs) ps → NotInFalse K rs cs ps us → Keeps nested (terms_rows (one_term rs cs ps) I) (terms_rows us I) }
    ensures null_compared { (pair : PairTree) (set : AtomSet) (I : Instance) (K : Known) → IsInstance pair I → Meets pair set I → Under pair set K → (nested : Bool) (rs : Ranges) (cs : Conds) (ps : List Expr) (us : Terms) → RangesFit I rs → CondsFit I rs cs → Each (ExprFits I rs) ps → NullCompared rs cs ps us → Keeps nested (terms_rows (one_term rs cs ps) I) (terms_rows us I) }
    ensures not_in_of_null { (pair : PairTree) (set : AtomSet) (I : Instance) (K : Known) → IsInstance pair I → Meets pair set I → Under pair set K → (nested : Bool) (rs : Ranges) (cs : Conds) (ps : List Expr) (us : Terms) → RangesFit I rs → CondsFit I rs cs → Each (ExprFits I rs) ps → NotInOfNull rs cs ps us → Keeps nested (terms_rows (one_term rs cs ps) I) (terms_rows us I) }
    ensures opened { (pair : PairTree) (set : AtomSet) (I : Instance) (K : Known) → IsInstance pair I → Meets pair set I → Under pair set K → (nested : Bool) (rs : Ranges) (cs : Conds) (ps : List Expr) (us : Terms) → RangesFit I rs → CondsFit I rs cs → Each (ExprFits I rs) ps → Opened K nested rs cs ps us → Keeps nested (terms_rows (one_term rs cs ps) I) (terms_rows us I) }
    ensures rewritten { (pair : PairTree) (set : AtomSet) (I : Instance) (K : Known) → IsInstance pair I → Meets pair set I → Under pair set K → (nested : Bool) (rs : Ranges) (cs : Conds) (ps : List Expr) (us : Terms) → RangesFit I rs → CondsFit I rs cs → Each (ExprFits I rs) ps → Rewritten K rs cs ps us → Keeps nested (terms_rows (one_term rs cs ps) I) (terms_rows us I) }
    ensures split_by_in { (pair : PairTree) (set : AtomSet) (I : Instance) (K : Known) → IsInstance pair I → Meets pair set I → Under pair set K → (nested : Bool) (rs : Ranges) (cs : Conds) (ps : List Expr) (rs' : Ranges) (cs' : Conds) (ps' : List Expr) → (s : SplitByIn K rs cs ps rs' cs' ps') →
        Keeps nested (terms_rows (term_then rs cs ps (one_term rs' cs' ps')) I) (terms_rows (one_term rs (others s.place) ps) I) }
    ensures split_by_in_later { (pair : PairTree) (set : AtomSet) (I : Instance) (K : Known) → IsInstance pair I → Meets pair set I → Under pair set K → (nested : Bool) (rs : Ranges) (cs : Conds) (ps : List Expr) (rs' : Ranges) (cs' : Conds) (ps' : List Expr) → (s : SplitByIn K rs' cs' ps' rs cs ps) →
        Keeps nested (terms_rows (term_then rs cs ps (one_term rs' cs' ps')) I) (terms_rows (one_term rs' (others s.place) ps') I) }
    ensures twins { (pair : PairTree) (set : AtomSet) (I : Instance) (K : Known) → IsInstance pair I → Meets pair set I → Under pair set K → (nested : Bool) (rs : Ranges) (cs : Conds) (ps : List Expr) (rs' : Ranges) (cs' : Conds) (ps' : List Expr) → Twins K nested rs cs ps rs' cs' ps' →
        Keeps nested (terms_rows (term_then rs cs ps (one_term rs' cs' ps')) I) (terms_rows (one_term rs cs ps) I) }
{}

/// The law of steps: a step of a form that fits gives a form that fits and keeps its rows as one bag;
/// inside an In, a NotIn or a Distinct it keeps which rows occur.
pub fn steps_keep_rows()
    ensures top { (pair : PairTree) (set : AtomSet) (I : Instance) (K : Known) → IsInstance pair I → Meets pair set I → Under pair set K → (f g : Form) → Fits I f → Step K f g → Fits I g × IsOneBag (form_rows f I) (form_rows g I) }
    ensures inside { (pair : PairTree) (set : AtomSet) (I : Instance) (K : Known) → IsInstance pair I → Meets pair set I → Under pair set K → (head : List Part) (ts us : Terms) → TermsFit I head ts → TermsStep (Row K) (PairRow K) true ts us →
        TermsFit I head us × Keeps true (terms_rows ts I) (terms_rows us I) }
{}
