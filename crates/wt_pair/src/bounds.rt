//! Bounds of a discovery.
use wt_template::Ops;

/// The bounds of a discovery: the greatest sizes of sources and destinations, the operators, how
/// many atoms a set may leave out, and how many steps a proof may have.
#[derive(Clone, Copy, Debug, PartialEq, Eq)]
pub struct Bounds {
    pub src: u32,
    pub dst: u32,
    pub ops: Ops,
    pub depth: u32,
    pub steps: u32,
}
