//! What is kept of one pair.
ghost use Rattle.std.specs.Prelude.{MatchOption, ◌≡◌, ◌<◌, ◌≤◌, ◌+◌, ◌++◌, ◌∷◌, [], false, IfOk, OnOk, OnErr, length, get_or, take, drop};
ghost use Rattle.wt_cores.specs.Cores.{Within};
ghost use Rattle.wt_board.specs.Knowledge.{cores_of, refused_of};
ghost use Rattle.wt_board.specs.Covering.{Covers, EachWithin, NextOpen, knows, turns_left};
ghost use Rattle.wt_board.specs.Viewing.{lore_with};
ghost use Rattle.wt_board.specs.Boards.{AreNeeded};
ghost use Rattle.wt_board.specs.Keeping.{PageFits, page_at, lore_of, Moves};
ghost use Rattle.wt_board.specs.declared.page.Visit.TheVariants.{Stays, Found};

use crate::known::View;
use crate::lowest::{needed, open_below, unknown_below};
use crate::nodes::{Node, Sight, look, split};
use crate::open::open_among;
use crate::words::{Entry, Ticket, Verdict};
use std::alloc::{AllocError, Global};
use std::marker::Model;
use wt_constraint::AtomSet;

/// The atoms of a pair, what the first entries of a log tell of it, and nodes that cover what these leave unknown.
#[derive(Drop)]
pub(crate) struct Page {
    all: AtomSet,
    cores: Vec<AtomSet>,
    refused: Vec<AtomSet>,
    seen: usize,
    nodes: Vec<Node>,
}

impl Model for Page {
    ghost use Rattle.wt_board.specs.Keeping.{PageTree};

    ghost Value = { PageTree };

    ghost view = { λ p. record { all = p.all; lore = record { cores = p.cores.items; refused = p.refused.items }; seen = p.seen; nodes = p.nodes.items } };
}

/// What a visit to a node came to: it is gone; or two stand in its place; or it stays, and nothing was found; or an open set was found.
#[derive(Clone, Copy)]
enum Visit {
    Gone,
    Doubled,
    Stays,
    Found(AtomSet),
}

fn visit_of(found: Option<AtomSet>) -> Visit
    ensures { MatchOption found (result ≡ Stays) (λ s. result ≡ Found s) }
{
    match found {
        Some(set) => Visit::Found(set),
        None => Visit::Stays,
    }
}

/// Looks at the node at the place: drops it where its sets are known; looks for an open set below its least one, where that is
/// not known or not looked at yet; and else splits it.
fn look_at(view: &View, nodes: &mut Vec<Node>, k: usize) -> Result<Visit, AllocError>
    requires at { k < length nodes.old.items }
    requires covers { Covers (lore_with view.now.cores.now view.now.refused.now view.now.rest.now view.now.pair) view.now.all nodes.old.items }
    requires within { EachWithin view.now.all nodes.old.items }
    ensures covers { Covers (lore_with view.now.cores.now view.now.refused.now view.now.rest.now view.now.pair) view.now.all nodes.new.items }
    ensures within { EachWithin view.now.all nodes.new.items }
    ensures told { IfOk result (Moves (lore_with view.now.cores.now view.now.refused.now view.now.rest.now view.now.pair) view.now.out.now view.now.pair view.now.all nodes.old.items nodes.new.items) }
{
    let node = nodes[k];
    match look(view, node) {
        Sight::Known => {
            nodes.remove(k);
            Ok(Visit::Gone)
        }
        Sight::Splits(i) => {
            if let Some(set) = unknown_below(view, node) {
                return Ok(visit_of(open_below(view, set)));
            }
            split(nodes, k, i)?;
            Ok(Visit::Doubled)
        }
        Sight::Unknown => Ok(visit_of(open_below(view, node.must))),
    }
}

/// An open set of the pair, if there is one. The last node comes first.
fn next_open(view: &View, nodes: &mut Vec<Node>) -> Result<Option<AtomSet>, AllocError>
    requires covers { Covers (lore_with view.now.cores.now view.now.refused.now view.now.rest.now view.now.pair) view.now.all nodes.old.items }
    requires within { EachWithin view.now.all nodes.old.items }
    ensures covers { Covers (lore_with view.now.cores.now view.now.refused.now view.now.rest.now view.now.pair) view.now.all nodes.new.items }
    ensures within { EachWithin view.now.all nodes.new.items }
    ensures open { IfOk result (NextOpen (lore_with view.now.cores.now view.now.refused.now view.now.rest.now view.now.pair) view.now.out.now view.now.pair view.now.all) }
{
    let mut left = nodes.len();
    'nodes: while left > 0 {
        match look_at(view, nodes, left - 1)? {
            Visit::Gone => left -= 1,
            Visit::Doubled => left += 1,
            Visit::Stays => left -= 1,
            Visit::Found(set) => return Ok(Some(set)),
        }
    }
    Ok(open_among(view, nodes))
}

/// Adds the core or the refused set of the entry, if it is one of the pair.
fn learn(
    cores: &mut Vec<AtomSet>,
    refused: &mut Vec<AtomSet>,
    entry: Entry,
    pair: u32,
) -> Result<(), AllocError>
    ensures cores { OnOk result (cores.new.items ≡ cores.old.items ++ cores_of pair (entry ∷ [])) }
    ensures refused { OnOk result (refused.new.items ≡ refused.old.items ++ refused_of pair (entry ∷ [])) }
    ensures same { OnErr result ((cores.new.items ≡ cores.old.items) × (refused.new.items ≡ refused.old.items)) }
{
    if entry.pair != pair {
        return Ok(());
    }
    match entry.verdict {
        Verdict::Proved(core) => cores.push(core)?,
        Verdict::Refused(set) => refused.push(set)?,
    }
    Ok(())
}

impl Page {
    /// A page of a pair of which nothing was found.
    pub(crate) fn new(alloc: Global, all: AtomSet) -> Result<Page, AllocError>
        ensures { IfOk result (λ page. page ≡ page_at all) }
    {
        let mut nodes = Vec::new(alloc);
        nodes.push(Node {
            must: AtomSet(0),
            may: all,
            least: true,
        })?;
        Ok(Page {
            all,
            cores: Vec::new(alloc),
            refused: Vec::new(alloc),
            seen: 0,
            nodes,
        })
    }

    /// All atoms of the pair.
    pub(crate) fn atoms(&self) -> AtomSet {
        self.all
    }

    /// Takes over what the rest of the log tells of the pair.
    fn catch_up(&mut self, log: &[Entry], pair: u32) -> Result<(), AllocError>
        requires fits { PageFits self.old.all pair log.now self.old }
        ensures fits { PageFits self.old.all pair log.now self.new }
        ensures seen { OnOk result (self.new.seen ≡ length log.now) }
    {
        'entries: while self.seen < log.len() {
            learn(&mut self.cores, &mut self.refused, log[self.seen], pair)?;
            self.seen += 1;
        }
        Ok(())
    }

    /// A pending set of the pair of the number, if there is one.
    pub(crate) fn next_pending(
        &mut self,
        log: &[Entry],
        out: &[Ticket],
        pair: u32,
    ) -> Result<Option<AtomSet>, AllocError>
        requires fits { PageFits self.old.all pair log.now self.old }
        ensures fits { PageFits self.old.all pair log.now self.new }
        ensures pending { IfOk result (NextOpen (lore_of pair log.now) out.now pair self.old.all) }
    {
        self.catch_up(log, pair)?;
        let view = View {
            all: self.all,
            cores: &self.cores,
            refused: &self.refused,
            rest: &[],
            out,
            pair,
        };
        next_open(&view, &mut self.nodes)
    }

    /// The same without a change.
    pub(crate) fn any_pending(&self, log: &[Entry], out: &[Ticket], pair: u32) -> Option<AtomSet>
        requires fits { PageFits self.now.all pair log.now self.now }
        ensures { NextOpen (lore_of pair log.now) out.now pair self.now.all result }
    {
        let view = View {
            all: self.all,
            cores: &self.cores,
            refused: &self.refused,
            rest: &log[self.seen..],
            out,
            pair,
        };
        open_among(&view, &self.nodes)
    }

    /// The atoms of a set without which it is known refused.
    pub(crate) fn needed(&self, log: &[Entry], pair: u32, set: AtomSet) -> AtomSet
        requires fits { PageFits self.now.all pair log.now self.now }
        ensures { AreNeeded pair log.now set result }
    {
        let view = View {
            all: self.all,
            cores: &self.cores,
            refused: &self.refused,
            rest: &log[self.seen..],
            out: &[],
            pair,
        };
        needed(&view, set)
    }
}
