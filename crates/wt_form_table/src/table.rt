//! The table.
ghost use Rattle.std.specs.Prelude.{ℕ, ◌≡◌, List, [], IfOk, OnOk};
ghost use Rattle.wt_form.specs.Views.{form_seen, terms_seen, ranges_seen, range_seen, conds_seen, cond_seen};
ghost use Rattle.wt_form_table.specs.Entries.{First, Goes, tables_of, value_of, columns_of};
ghost use Rattle.wt_form_table.specs.declared.cell.Front.TheVariants.{Part as PartFront};
ghost use Rattle.wt_form_table.specs.Spelled.{Then, Tested, IsForm, IsTerms, IsRanges, IsRange, IsConds, IsCond, IsPieces, IsHead};

use crate::cell::{Entry, Front, Test, Value, expr_value, part_columns};
use indexmap::IndexSet;
use std::alloc::{AllocError, Global};
use wt_form::{Cond, Conds, Expr, Form, FormRange, Ranges, Terms};
use wt_symbol::Part;

/// The entries of forms by their numbers.
#[derive(Drop)]
pub struct FormTable {
    pub values: IndexSet<Value>,
    pub tests: IndexSet<Test>,
    pub fronts: IndexSet<Front>,
    pub entries: IndexSet<Entry>,
}

impl FormTable {
    /// A table without entries.
    pub fn new(alloc: Global) -> FormTable
        ensures { tables_of result ≡ record { values = []; tests = []; fronts = []; entries = [] } }
    {
        FormTable {
            values: IndexSet::new(alloc),
            tests: IndexSet::new(alloc),
            fronts: IndexSet::new(alloc),
            entries: IndexSet::new(alloc),
        }
    }

    /// The number of an entry, which is made where there is none.
    fn number(&mut self, entry: Entry) -> Result<usize, AllocError>
        ensures first { IfOk result (λ n. First (tables_of self.new).entries n entry) }
        ensures more { OnOk result (Goes (tables_of self.old) (tables_of self.new)) }
    {
        let (n, _added) = self.entries.insert_full(entry)?;
        Ok(n)
    }

    fn front(&mut self, front: Front) -> Result<usize, AllocError>
        ensures first { IfOk result (λ n. First (tables_of self.new).fronts n front) }
        ensures more { OnOk result (Goes (tables_of self.old) (tables_of self.new)) }
    {
        let (n, _added) = self.fronts.insert_full(front)?;
        Ok(n)
    }

    fn value(&mut self, x: Expr) -> Result<usize, AllocError>
        ensures first { IfOk result (λ n. First (tables_of self.new).values n (value_of x)) }
        ensures more { OnOk result (Goes (tables_of self.old) (tables_of self.new)) }
    {
        let (n, _added) = self.values.insert_full(expr_value(x))?;
        Ok(n)
    }

    fn test(&mut self, test: Test) -> Result<usize, AllocError>
        ensures first { IfOk result (λ n. First (tables_of self.new).tests n test) }
        ensures more { OnOk result (Goes (tables_of self.old) (tables_of self.new)) }
    {
        let (n, _added) = self.tests.insert_full(test)?;
        Ok(n)
    }

    /// The number of a list of conditions by the first one and the number of those after it.
    fn tested(&mut self, test: Test, after: usize) -> Result<usize, AllocError>
        ensures is { IfOk result (λ n. Tested (tables_of self.new) n test after) }
        ensures more { OnOk result (Goes (tables_of self.old) (tables_of self.new)) }
    {
        let first = self.test(test)?;
        self.number(Entry::Then(first, after))
    }

    /// The number of a list by its first element and the number of those after it.
    fn list(&mut self, front: Front, after: usize) -> Result<usize, AllocError>
        ensures is { IfOk result (λ n. Then (tables_of self.new) n front after) }
        ensures more { OnOk result (Goes (tables_of self.old) (tables_of self.new)) }
    {
        let first = self.front(front)?;
        self.number(Entry::Then(first, after))
    }

    /// The number of a form. Numbers that were given stay.
    pub fn intern(&mut self, form: &Form) -> Result<usize, AllocError>
        ensures is { IfOk result (λ n. IsForm (tables_of self.new) n (form_seen form.now)) }
        ensures more { OnOk result (Goes (tables_of self.old) (tables_of self.new)) }
    {
        let head = self.head(form.head.as_slice())?;
        let terms = self.terms(&form.terms)?;
        self.number(Entry::Form(head, terms))
    }

    fn part(&mut self, part: Part, after: usize) -> Result<usize, AllocError>
        ensures is { IfOk result (λ n. Then (tables_of self.new) n (PartFront part.leaf (columns_of part.cols)) after) }
        ensures more { OnOk result (Goes (tables_of self.old) (tables_of self.new)) }
    {
        self.list(Front::Part(part.leaf, part_columns(part.cols)), after)
    }

    fn head(&mut self, parts: &[Part]) -> Result<usize, AllocError>
        ensures is { IfOk result (λ n. IsHead (tables_of self.new) n parts.now) }
        ensures more { OnOk result (Goes (tables_of self.old) (tables_of self.new)) }
    {
        match parts {
            [] => self.number(Entry::End),
            [part, rest @ ..] => {
                let after = self.head(rest)?;
                self.part(*part, after)
            }
        }
    }

    fn pieces(&mut self, pieces: &[Expr]) -> Result<usize, AllocError>
        ensures is { IfOk result (λ n. IsPieces (tables_of self.new) n pieces.now) }
        ensures more { OnOk result (Goes (tables_of self.old) (tables_of self.new)) }
    {
        match pieces {
            [] => self.number(Entry::End),
            [x, rest @ ..] => {
                let after = self.pieces(rest)?;
                let value = self.value(*x)?;
                self.list(Front::Piece(value), after)
            }
        }
    }

    #[cycle(parts)]
    fn terms(&mut self, terms: &Terms) -> Result<usize, AllocError>
        ensures is { IfOk result (λ n. IsTerms (tables_of self.new) n (terms_seen terms.now)) }
        ensures more { OnOk result (Goes (tables_of self.old) (tables_of self.new)) }
    {
        match terms {
            Terms::Empty => self.number(Entry::End),
            Terms::More(term, rest) => {
                let ranges = self.ranges(&term.ranges)?;
                let conds = self.conds(&term.conds)?;
                let pieces = self.pieces(term.pieces.as_slice())?;
                let after = self.terms(rest)?;
                self.number(Entry::Term(ranges, conds, pieces, after))
            }
        }
    }

    #[cycle(parts)]
    fn ranges(&mut self, ranges: &Ranges) -> Result<usize, AllocError>
        ensures is { IfOk result (λ n. IsRanges (tables_of self.new) n (ranges_seen ranges.now)) }
        ensures more { OnOk result (Goes (tables_of self.old) (tables_of self.new)) }
    {
        match ranges {
            Ranges::Empty => self.number(Entry::End),
            Ranges::More(range, rest) => {
                let after = self.ranges(rest)?;
                self.range(range, after)
            }
        }
    }

    #[cycle(parts)]
    fn range(&mut self, range: &FormRange, after: usize) -> Result<usize, AllocError>
        ensures is { IfOk result (λ n. IsRange (tables_of self.new) n (range_seen range.now) after) }
        ensures more { OnOk result (Goes (tables_of self.old) (tables_of self.new)) }
    {
        match range {
            FormRange::Rel(r) => self.list(Front::Leaf(*r), after),
            FormRange::Distinct(form) => {
                let head = self.head(form.head.as_slice())?;
                let terms = self.terms(&form.terms)?;
                let form = self.number(Entry::Form(head, terms))?;
                self.list(Front::Distinct(form), after)
            }
        }
    }

    #[cycle(parts)]
    fn conds(&mut self, conds: &Conds) -> Result<usize, AllocError>
        ensures is { IfOk result (λ n. IsConds (tables_of self.new) n (conds_seen conds.now)) }
        ensures more { OnOk result (Goes (tables_of self.old) (tables_of self.new)) }
    {
        match conds {
            Conds::Empty => self.number(Entry::End),
            Conds::More(cond, rest) => {
                let after = self.conds(rest)?;
                self.cond(cond, after)
            }
        }
    }

    #[cycle(parts)]
    fn cond(&mut self, cond: &Cond, after: usize) -> Result<usize, AllocError>
        ensures is { IfOk result (λ n. IsCond (tables_of self.new) n (cond_seen cond.now) after) }
        ensures more { OnOk result (Goes (tables_of self.old) (tables_of self.new)) }
    {
        match cond {
            Cond::Pred(p, x) => {
                let value = self.value(*x)?;
                self.tested(Test::Pred(*p, value), after)
            }
            Cond::Join(x, y) => {
                let left = self.value(*x)?;
                let right = self.value(*y)?;
                self.tested(Test::Join(left, right), after)
            }
            Cond::In(x, form) => {
                let value = self.value(*x)?;
                let head = self.head(form.head.as_slice())?;
                let terms = self.terms(&form.terms)?;
                let form = self.number(Entry::Form(head, terms))?;
                self.tested(Test::In(value, form), after)
            }
            Cond::NotIn(x, form) => {
                let value = self.value(*x)?;
                let head = self.head(form.head.as_slice())?;
                let terms = self.terms(&form.terms)?;
                let form = self.number(Entry::Form(head, terms))?;
                self.tested(Test::NotIn(value, form), after)
            }
        }
    }
}
