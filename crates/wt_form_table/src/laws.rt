//! Laws of numbers: each is a function with an empty body, and its contract is the law.
ghost use Rattle.std.specs.Prelude.{ℕ, ◌≡◌};
ghost use Rattle.wt_form.specs.Trees.{Form};
ghost use Rattle.wt_form_table.specs.Entries.{Tables, Goes};
ghost use Rattle.wt_form_table.specs.Spelled.{IsForm};

/// A law: a number that a form has is its number in each table that goes on from this one.
pub fn numbers_stay()
    ensures { (old new : Tables) (n : ℕ) (form : Form) → Goes old new → IsForm old n form → IsForm new n form }
{}

/// A law: two forms with one number are one form.
pub fn one_form_a_number()
    ensures { (tables : Tables) (n : ℕ) (f g : Form) → IsForm tables n f → IsForm tables n g → f ≡ g }
{}

/// A law: a form has one number.
pub fn one_number_a_form()
    ensures { (tables : Tables) (m n : ℕ) (form : Form) → IsForm tables m form → IsForm tables n form → m ≡ n }
{}
