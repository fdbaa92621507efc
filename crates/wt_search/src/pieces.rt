//! Forms whose terms have different numbers of pieces, which steps keep and congruent terms share.
ghost use Rattle.std.specs.Prelude.{◌≡◌, ℕ, length, map, true, IsTrue, IfOk};
ghost use Rattle.std.specs.List.{list_any};
ghost use Rattle.wt_bag.specs.Choices.{Has};
ghost use Rattle.wt_form.specs.Trees.{Form as FormTree, no_terms};
ghost use Rattle.wt_form.specs.Views.{terms_seen, form_seen};
ghost use Rattle.wt_search.specs.Pieces.{HavePieces, Differ, IsEmpty};

use wt_form::{Form, Terms};

/// Whether each term has so many pieces.
fn have_pieces(terms: &Terms, n: usize) -> bool
    ensures { IsTrue result → HavePieces n (terms_seen terms.now) }
{
    match terms {
        Terms::Empty => true,
        Terms::More(term, rest) => {
            if term.pieces.len() != n {
                return false;
            }
            have_pieces(rest, n)
        }
    }
}

/// How many pieces the first term has.
fn first_pieces(terms: &Terms) -> usize {
    match terms {
        Terms::Empty => 0,
        Terms::More(term, _) => term.pieces.len(),
    }
}

/// Whether all terms of the one form have another number of pieces than all terms of the other.
fn differ(f: &Form, g: &Form) -> bool
    ensures { IsTrue result → Differ (form_seen f.now) (form_seen g.now) }
{
    let n = first_pieces(&f.terms);
    let m = first_pieces(&g.terms);
    if n == m {
        return false;
    }
    if !have_pieces(&f.terms, n) {
        return false;
    }
    have_pieces(&g.terms, m)
}

fn is_empty(terms: &Terms) -> bool
    ensures { terms_seen terms.now ≡ no_terms → IsTrue result }
{
    match terms {
        Terms::Empty => true,
        Terms::More(_, _) => false,
    }
}

/// Whether one of the forms has no term.
fn some_is_empty(forms: &[Form]) -> bool
    ensures { (f : FormTree) → Has f (map form_seen forms.now) → IsEmpty f → IsTrue result }
{
    for form in forms {
        if is_empty(&form.terms) {
            return true;
        }
    }
    false
}

/// Whether the number of pieces tells that no form which the first one reaches is congruent to one of
/// these, which the second one reaches.
pub fn cannot_meet(f: &Form, g: &Form, from_g: &[Form]) -> bool
    ensures { IsTrue result → Differ (form_seen f.now) (form_seen g.now) × ((h : FormTree) → Has h (map form_seen from_g.now) → IsEmpty h → ⊥) }
{
    if !differ(f, g) {
        return false;
    }
    !some_is_empty(from_g)
}
