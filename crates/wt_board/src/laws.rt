//! Laws of boards: each is a function with an empty body, and its contract is the law.
ghost use Rattle.std.specs.Prelude.{ℕ, ◌≡◌, ◌+◌, ◌≤◌, ◌↔◌, true, List, length, Some, slice_get};
ghost use Rattle.wt_symbol.specs.Sides.{PairTree};
ghost use Rattle.wt_constraint.specs.declared.set.AtomSet.{AtomSet};
ghost use Rattle.wt_constraint.specs.Atoms.{atoms_of_pair};
ghost use Rattle.wt_form.specs.Under.{Provable};
ghost use Rattle.wt_form.specs.Relaxed.{IsRule};
ghost use Rattle.wt_cores.specs.Cores.{Within, IsCore, all_atoms};
ghost use Rattle.wt_board.specs.declared.words.Entry.{Entry};
ghost use Rattle.wt_board.specs.declared.words.Event.{Event};
ghost use Rattle.wt_board.specs.Lots.{LotTree};
ghost use Rattle.wt_board.specs.Knowledge.{cores_of, refused_of, has_core, is_refused};
ghost use Rattle.wt_board.specs.Machine.{State, start, LogStands, Settled, Settles, IsRun, replay};
ghost use Rattle.wt_board.specs.Counts.{times_out, times_logged, times_core, IsAlone};
ghost use Rattle.wt_board.specs.Rules.{TellsRule};

/// A law: after every run each logged verdict is true; and no set of a pair is out twice, logged twice, or both.
pub fn runs_keep_verdicts_true()
    ensures log { (lot : LotTree) (events : List Event) → IsRun lot start events → LogStands lot (replay start events).log }
    ensures once { (lot : LotTree) (events : List Event) → IsRun lot start events → (p : ℕ) (s : AtomSet) →
        times_out (replay start events).out p s + times_logged (replay start events).log p s ≤ 1 }
{}

/// A law: what a true log tells is so. A set that is known proved has a core of the pair in it, and under a set that is known
/// refused the pair is not provable.
pub fn findings_are_true()
    ensures proved { (lot : LotTree) (log : List Entry) → LogStands lot log → (p : ℕ) (pair : PairTree) → slice_get lot.pairs p ≡ Some pair → (s : AtomSet) →
        has_core (cores_of p log) s ≡ true → (c : AtomSet) × IsCore pair lot.bounds.steps c × Within c s }
    ensures refused { (lot : LotTree) (log : List Entry) → LogStands lot log → (p : ℕ) (pair : PairTree) → slice_get lot.pairs p ≡ Some pair → (s : AtomSet) →
        is_refused (refused_of p log) s ≡ true → Provable pair s lot.bounds.steps → ⊥ }
{}

/// A law: where at most one claim is out at each moment of a run, no core of a pair is logged twice.
pub fn no_core_is_found_twice_alone()
    ensures { (lot : LotTree) (events : List Event) → IsRun lot start events → IsAlone start events → (p : ℕ) (c : AtomSet) → times_core (replay start events).log p c ≤ 1 }
{}

/// A law: the log of a settled board settles its lot.
pub fn a_settled_board_settles_its_lot()
    ensures { (lot : LotTree) (state : State) → Settled lot state → Settles lot state.log }
{}

/// A law: a true log that settles a lot tells the rules of its pairs, whichever sets it settles by what is known alone, and
/// whichever set each claim was of.
pub fn settled_lots_tell_their_rules()
    ensures { (lot : LotTree) (log : List Entry) → LogStands lot log → Settles lot log → (p : ℕ) (pair : PairTree) → slice_get lot.pairs p ≡ Some pair →
        length (atoms_of_pair pair) ≤ 64 → (m : AtomSet) → (IsRule pair lot.bounds.steps lot.bounds.depth m ↔ TellsRule (all_atoms pair) lot.bounds.depth (cores_of p log) m) }
{}
