//! Templates: trees of plan operators, in one order.
#![tactic(auto)]

ghost use Rattle.std.specs.Prelude.{◌≡◌, ◌↔◌, ◌-◌, ◌^◌, ◌<◌, ◌≤◌, length, min, IsTrue, IfOk, slice_get};
ghost use Rattle.std.specs.Option.{option_map};
ghost use Rattle.wt_template.specs.Shapes.{shape_of, size_of, weight_of, templates, templates_of_size, variants_of, CountsTemplates};

use place::{Place, Variants, locate};
pub use std::alloc::AllocError as WantOfMemory;
use std::alloc::Global;

pub mod place;

/// A tree of operators over inputs, without symbols.
#[derive(Debug, Drop)]
pub enum Template {
    Input,
    Proj(Box<Template>),
    Filter(Box<Template>),
    InnerJoin(Box<Template>, Box<Template>),
    LeftJoin(Box<Template>, Box<Template>),
    InSub(Box<Template>, Box<Template>),
    Dedup(Box<Template>),
}

/// A set of operators: bits 0 to 5 are the letters P, F, I, L, S and D, for Proj, Filter, InnerJoin,
/// LeftJoin, InSub and Dedup.
#[derive(Clone, Copy, Debug, PartialEq, Eq)]
pub struct Ops(pub u8);

impl Ops {
    /// How many variants each operator has in templates: one where its letter is in the set, else none.
    pub fn variants(self) -> Variants
        ensures { result ≡ variants_of self.0 }
    {
        Variants {
            proj: u64::from(self.0 & 1),
            filter: u64::from(self.0 >> 1 & 1),
            inner_join: u64::from(self.0 >> 2 & 1),
            left_join: u64::from(self.0 >> 3 & 1),
            in_sub: u64::from(self.0 >> 4 & 1),
            dedup: u64::from(self.0 >> 5 & 1),
        }
    }
}

impl Template {
    /// The same template.
    pub fn copy(&self, alloc: Global) -> Result<Template, WantOfMemory>
        ensures { IfOk result (λ t. shape_of t ≡ shape_of self.now) }
    {
        match self {
            Template::Input => Ok(Template::Input),
            Template::Proj(t) => Ok(Template::Proj(Box::new(alloc, t.copy(alloc)?)?)),
            Template::Filter(t) => Ok(Template::Filter(Box::new(alloc, t.copy(alloc)?)?)),
            Template::InnerJoin(t, u) => {
                let left = Box::new(alloc, t.copy(alloc)?)?;
                Ok(Template::InnerJoin(left, Box::new(alloc, u.copy(alloc)?)?))
            }
            Template::LeftJoin(t, u) => {
                let left = Box::new(alloc, t.copy(alloc)?)?;
                Ok(Template::LeftJoin(left, Box::new(alloc, u.copy(alloc)?)?))
            }
            Template::InSub(t, u) => {
                let left = Box::new(alloc, t.copy(alloc)?)?;
                Ok(Template::InSub(left, Box::new(alloc, u.copy(alloc)?)?))
            }
            Template::Dedup(t) => Ok(Template::Dedup(Box::new(alloc, t.copy(alloc)?)?)),
        }
    }

    /// Whether both are the same template.
    pub fn same(&self, other: &Template) -> bool
        ensures { IsTrue result ↔ (shape_of self.now ≡ shape_of other.now) }
    {
        match self {
            Template::Input => match other {
                Template::Input => true,
                _ => false,
            },
            Template::Proj(t) => match other {
                Template::Proj(u) => t.same(u),
                _ => false,
            },
            Template::Filter(t) => match other {
                Template::Filter(u) => t.same(u),
                _ => false,
            },
            Template::InnerJoin(t, u) => match other {
                Template::InnerJoin(v, w) => t.same(v) && u.same(w),
                _ => false,
            },
            Template::LeftJoin(t, u) => match other {
                Template::LeftJoin(v, w) => t.same(v) && u.same(w),
                _ => false,
            },
            Template::InSub(t, u) => match other {
                Template::InSub(v, w) => t.same(v) && u.same(w),
                _ => false,
            },
            Template::Dedup(t) => match other {
                Template::Dedup(u) => t.same(u),
                _ => false,
            },
        }
    }

    /// How many operators it has, an input being none, up to the type's greatest number.
    pub fn size(&self) -> u32
        ensures { result ≡ min (size_of (shape_of self.now)) (2 ^ 32 - 1) }
    {
        match self {
            Template::Input => 0,
            Template::Proj(t) | Template::Filter(t) | Template::Dedup(t) => t
                .size()
                .saturating_add(1),
            Template::InnerJoin(t, u) | Template::LeftJoin(t, u) | Template::InSub(t, u) => {
                t.size().saturating_add(u.size()).saturating_add(1)
            }
        }
    }

    /// The sum of its operators' weights, up to the type's greatest number.
    pub fn weight(&self) -> u32
        ensures { result ≡ min (weight_of (shape_of self.now)) (2 ^ 32 - 1) }
    {
        match self {
            Template::Input => 0,
            Template::Proj(t) | Template::Filter(t) => t.weight().saturating_add(1),
            Template::InnerJoin(t, u) => t.weight().saturating_add(u.weight()).saturating_add(6),
            Template::LeftJoin(t, u) => t.weight().saturating_add(u.weight()).saturating_add(7),
            Template::InSub(t, u) => t.weight().saturating_add(u.weight()).saturating_add(4),
            Template::Dedup(t) => t.weight().saturating_add(3),
        }
    }
}

/// The k-th template of one size, where `counts` has how many there are of each smaller size.
fn template_of(
    alloc: Global,
    ops: Ops,
    counts: &[u64],
    size: usize,
    k: u64,
) -> Result<Template, WantOfMemory>
    requires counted { CountsTemplates ops.0 counts.now size }
    requires within { size ≤ length counts.now }
    requires exists { k < length (templates_of_size ops.0 size) }
    ensures { IfOk result (λ t. slice_get (templates_of_size ops.0 size) k ≡ Some (shape_of t)) }
{
    if size == 0 {
        return Ok(Template::Input);
    }
    let n = size - 1;
    match locate(&ops.variants(), counts, n, k) {
        Ok(Place::Proj(o)) => Ok(Template::Proj(Box::new(
            alloc,
            template_of(alloc, ops, counts, n, o.operand)?,
        )?)),
        Ok(Place::Filter(o)) => Ok(Template::Filter(Box::new(
            alloc,
            template_of(alloc, ops, counts, n, o.operand)?,
        )?)),
        Ok(Place::InnerJoin(o)) => {
            let left = Box::new(alloc, template_of(alloc, ops, counts, o.left_size, o.left)?)?;
            let right = template_of(alloc, ops, counts, n - o.left_size, o.right)?;
            Ok(Template::InnerJoin(left, Box::new(alloc, right)?))
        }
        Ok(Place::LeftJoin(o)) => {
            let left = Box::new(alloc, template_of(alloc, ops, counts, o.left_size, o.left)?)?;
            let right = template_of(alloc, ops, counts, n - o.left_size, o.right)?;
            Ok(Template::LeftJoin(left, Box::new(alloc, right)?))
        }
        Ok(Place::InSub(o)) => {
            let left = Box::new(alloc, template_of(alloc, ops, counts, o.left_size, o.left)?)?;
            let right = template_of(alloc, ops, counts, n - o.left_size, o.right)?;
            Ok(Template::InSub(left, Box::new(alloc, right)?))
        }
        Ok(Place::Dedup(o)) => Ok(Template::Dedup(Box::new(
            alloc,
            template_of(alloc, ops, counts, n, o.operand)?,
        )?)),
        Err(_) => unreachable!(),
    }
}

/// The k-th template, from 0, of size 1 to `most` over the operators of `ops`, by size, then by root
/// in the table's order, then by operands; None where there are not so many.
pub fn nth_template(
    alloc: Global,
    ops: Ops,
    most: u32,
    k: u64,
) -> Result<Option<Template>, WantOfMemory>
    ensures { IfOk result (λ found. option_map shape_of found ≡ slice_get (templates ops.0 most) k) }
{
    let variants = ops.variants();
    if variants.is_none() {
        return Ok(None);
    }
    let mut counts = Vec::new(alloc);
    counts.push(1)?;
    let mut rest = k;
    for n in 0..most as usize {
        match locate(&variants, &counts, n, rest) {
            Ok(_) => return Ok(Some(template_of(alloc, ops, &counts, n + 1, rest)?)),
            Err(after) => {
                counts.push(rest - after)?;
                rest = after;
            }
        }
    }
    Ok(None)
}
