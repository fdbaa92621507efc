//! Places of trees in their order, and the tree that stands at a number: by counting, without a list.

ghost use Rattle.std.specs.Prelude.{◌≡◌, ◌↔◌, ◌+◌, ◌*◌, ◌<◌, length, slice_index, IsTrue, MatchOption, MatchResult};
ghost use Rattle.wt_template.specs.Places.{HasNone, IsOnePlace, one_number, IsTwoPlace, two_number, two_block, IsPlace, number_of, number_of_trees};

/// How many variants each operator has over the same operands.
#[derive(Clone, Copy, Debug, PartialEq, Eq)]
pub struct Variants {
    pub proj: u64,
    pub filter: u64,
    pub inner_join: u64,
    pub left_join: u64,
    pub in_sub: u64,
    pub dedup: u64,
}

impl Variants {
    /// Whether no operator has a variant.
    pub fn is_none(&self) -> bool
        ensures { IsTrue result ↔ HasNone self.now }
    {
        self.proj == 0
            && self.filter == 0
            && self.inner_join == 0
            && self.left_join == 0
            && self.in_sub == 0
            && self.dedup == 0
    }
}

/// A tree's place under an operator of one operand: the operand's number among the trees of its
/// size, and the variant.
#[derive(Clone, Copy, Debug, PartialEq, Eq)]
pub struct OneOperand {
    pub operand: u64,
    pub variant: u64,
}

/// A tree's place under an operator of two operands: the left one's size, the numbers of both among
/// the trees of their sizes, and the variant.
#[derive(Clone, Copy, Debug, PartialEq, Eq)]
pub struct TwoOperands {
    pub left_size: usize,
    pub left: u64,
    pub right: u64,
    pub variant: u64,
}

/// A tree's root with the place under it.
#[derive(Clone, Copy, Debug, PartialEq, Eq)]
pub enum Place {
    Proj(OneOperand),
    Filter(OneOperand),
    InnerJoin(TwoOperands),
    LeftJoin(TwoOperands),
    InSub(TwoOperands),
    Dedup(OneOperand),
}

/// What is left of a number after a block of `a * b * w`, or None where it stands within the block.
fn past(k: u64, a: u64, b: u64, w: u64) -> Option<u64>
    requires { 0 < w }
    ensures { MatchOption result (k < a * b * w) (λ rest. rest + a * b * w ≡ k) }
{
    k.checked_sub(a.checked_mul(b)?.checked_mul(w)?)
}

/// The k-th tree under an operator of `variants` variants over one of `operands`, or what is left of k.
fn under_one(variants: u64, operands: u64, k: u64) -> Result<OneOperand, u64>
    ensures { MatchResult result
        (λ o. IsOnePlace variants operands o × (one_number variants o ≡ k))
        (λ rest. rest + operands * variants ≡ k) }
{
    if variants == 0 {
        return Err(k);
    }
    match past(k, operands, 1, variants) {
        Some(rest) => Err(rest),
        None => Ok(OneOperand {
            operand: k / variants,
            variant: k % variants,
        }),
    }
}

/// The k-th tree under an operator of `variants` variants over one of `lefts` and one of `rights`.
fn within_two(variants: u64, lefts: u64, rights: u64, left_size: usize, k: u64) -> TwoOperands
    requires { k < lefts * rights * variants }
    ensures size { result.left_size ≡ left_size }
    ensures left { result.left < lefts }
    ensures right { result.right < rights }
    ensures variant { result.variant < variants }
    ensures number { (result.left * rights + result.right) * variants + result.variant ≡ k }
{
    let pair = k / variants;
    TwoOperands {
        left_size,
        left: pair / rights,
        right: pair % rights,
        variant: k % variants,
    }
}

/// The k-th tree under an operator of `variants` variants over two operands that have n operators
/// together, or what is left of k.
fn under_two(variants: u64, counts: &[u64], n: usize, k: u64) -> Result<TwoOperands, u64>
    requires { n < length counts.now }
    ensures { MatchResult result
        (λ o. IsTwoPlace variants (slice_index counts.now) n o × (two_number variants (slice_index counts.now) n o ≡ k))
        (λ rest. rest + two_block variants (slice_index counts.now) n ≡ k) }
{
    if variants == 0 {
        return Err(k);
    }
    let mut rest = k;
    for left_size in 0..n + 1 {
        let lefts = counts[left_size];
        let rights = counts[n - left_size];
        match past(rest, lefts, rights, variants) {
            Some(after) => rest = after,
            None => return Ok(within_two(variants, lefts, rights, left_size, rest)),
        }
    }
    Err(rest)
}

/// The k-th of the trees whose operands have n operators together, where `counts` has how many
/// trees of each size up to n there are; or what is left of k after all of them.
pub fn locate(variants: &Variants, counts: &[u64], n: usize, k: u64) -> Result<Place, u64>
    requires { n < length counts.now }
    ensures { MatchResult result
        (λ p. IsPlace variants.now (slice_index counts.now) n p × (number_of variants.now (slice_index counts.now) n p ≡ k))
        (λ rest. rest + number_of_trees variants.now (slice_index counts.now) n ≡ k) }
{
    let rest = match under_one(variants.proj, counts[n], k) {
        Ok(o) => return Ok(Place::Proj(o)),
        Err(rest) => rest,
    };
    let rest = match under_one(variants.filter, counts[n], rest) {
        Ok(o) => return Ok(Place::Filter(o)),
        Err(rest) => rest,
    };
    let rest = match under_two(variants.inner_join, counts, n, rest) {
        Ok(o) => return Ok(Place::InnerJoin(o)),
        Err(rest) => rest,
    };
    let rest = match under_two(variants.left_join, counts, n, rest) {
        Ok(o) => return Ok(Place::LeftJoin(o)),
        Err(rest) => rest,
    };
    let rest = match under_two(variants.in_sub, counts, n, rest) {
        Ok(o) => return Ok(Place::InSub(o)),
        Err(rest) => rest,
    };
    match under_one(variants.dedup, counts[n], rest) {
        Ok(o) => Ok(Place::Dedup(o)),
        Err(rest) => Err(rest),
    }
}
