//! A rule applied at a node.

/// A rule that is applied: the node, numbered in preorder from 0, and the rule's number in its list, from 0.
#[derive(Clone, Copy, Debug, PartialEq, Eq)]
pub struct Applied {
    pub node: u32,
    pub rule: u32,
}
