//! Rules, books of rules and the lines of a rule file.
#![tactic(auto)]

ghost use Rattle.std.specs.Prelude.{◌≡◌, ◌++◌, ◌<◌, ◌≤◌, [], ◌∷◌, length, All, IfOk, OnOk, string_bytes, if◌then◌else◌};
ghost use Rattle.std.specs.Fmt.{decimal};
ghost use Rattle.std.specs.List.{flat_map};
ghost use Rattle.std.specs.Prelude.{codes};
ghost use Rattle.wt_symbol.specs.Sides.{tree_of, pair_of};
ghost use Rattle.wt_symbol.specs.Lawful.{IsLawful};
ghost use Rattle.wt_symbol.specs.Heads.{anchor};
ghost use Rattle.wt_rule.specs.Texts.{HasListAnchors, leaf_text, list_text, pred_text, anchored_text, marked_text, side_text, atom_text, chosen, atoms_text, rule_text, weights_text, rule_line, head_line, end_line};

pub use std::alloc::AllocError as WantOfMemory;
use std::alloc::Global;
use wt_constraint::{Atom, AtomSet, Atoms, atoms_of, has};
use wt_symbol::{Pair, Side};
use wt_value::{Bytes, Seq};

/// A pair with a set of its atoms under which its sides give one bag.
#[derive(Debug, Drop)]
pub struct Rule {
    pub pair: Pair,
    pub set: AtomSet,
}

/// A list of rules.
pub type Rules = Seq<Rule>;

/// The rules of a file, with the bound on steps that they are proved within.
#[derive(Debug, Drop)]
pub struct RuleBook {
    pub steps: u32,
    pub rules: Rules,
}

fn may_be_shared<T: Send + Sync>() {}

/// A statement to the compiler: threads may share these types, and hand them over.
pub fn threads_share_rules() {
    may_be_shared::<Rule>();
    may_be_shared::<RuleBook>();
}

fn push_text(out: &mut Vec<u8>, text: &str) -> Result<(), WantOfMemory>
    ensures { OnOk result (out.new.items ≡ out.old.items ++ text.now) }
{
    out.extend_from_slice(text.as_bytes())
}

fn push_number(alloc: Global, out: &mut Vec<u8>, n: u8) -> Result<(), WantOfMemory>
    ensures { OnOk result (out.new.items ≡ out.old.items ++ decimal n) }
{
    let digits = format!(in alloc; "{n}")?;
    push_text(out, &digits)
}

fn push_leaf(alloc: Global, out: &mut Vec<u8>, r: u8) -> Result<(), WantOfMemory>
    ensures { OnOk result (out.new.items ≡ out.old.items ++ leaf_text r) }
{
    push_text(out, "r")?;
    push_number(alloc, out, r)
}

fn push_list(alloc: Global, out: &mut Vec<u8>, a: u8) -> Result<(), WantOfMemory>
    ensures { OnOk result (out.new.items ≡ out.old.items ++ list_text a) }
{
    push_text(out, "a")?;
    push_number(alloc, out, a)
}

fn push_pred(alloc: Global, out: &mut Vec<u8>, p: u8) -> Result<(), WantOfMemory>
    ensures { OnOk result (out.new.items ≡ out.old.items ++ pred_text p) }
{
    push_text(out, "p")?;
    push_number(alloc, out, p)
}

/// Adds a list symbol, with its anchor if the marks have one.
fn push_marked(alloc: Global, out: &mut Vec<u8>, marks: &[u8], a: u8) -> Result<(), WantOfMemory>
    ensures { OnOk result (out.new.items ≡ out.old.items ++ marked_text marks.now a) }
{
    push_list(alloc, out, a)?;
    if usize::from(a) < marks.len() {
        push_text(out, "@")?;
        push_leaf(alloc, out, marks[usize::from(a)])?;
    }
    Ok(())
}

/// Adds the lists of a join with a comma between them.
fn push_lists(
    alloc: Global,
    out: &mut Vec<u8>,
    marks: &[u8],
    a: u8,
    b: u8,
) -> Result<(), WantOfMemory>
    ensures { OnOk result (out.new.items ≡ out.old.items ++ (marked_text marks.now a ++ (codes "," ++ marked_text marks.now b))) }
{
    push_marked(alloc, out, marks, a)?;
    push_text(out, ",")?;
    push_marked(alloc, out, marks, b)
}

/// Adds an operand behind an opening text.
#[cycle(side)]
fn push_opened(
    alloc: Global,
    out: &mut Vec<u8>,
    before: &str,
    marks: &[u8],
    s: &Side,
) -> Result<(), WantOfMemory>
    ensures { OnOk result (out.new.items ≡ out.old.items ++ (before.now ++ side_text (marked_text marks.now) (tree_of s.now))) }
{
    push_text(out, before)?;
    push_side(alloc, out, marks, s)
}

/// Adds a side's text, each list with its anchor if the marks have one.
#[cycle(side)]
fn push_side(
    alloc: Global,
    out: &mut Vec<u8>,
    marks: &[u8],
    side: &Side,
) -> Result<(), WantOfMemory>
    ensures { OnOk result (out.new.items ≡ out.old.items ++ side_text (marked_text marks.now) (tree_of side.now)) }
{
    match side {
        Side::Input(r) => push_leaf(alloc, out, *r),
        Side::Proj(a, s) => {
            push_text(out, "Proj<")?;
            push_marked(alloc, out, marks, *a)?;
            push_opened(alloc, out, ">(", marks, s)?;
            push_text(out, ")")
        }
        Side::Filter(p, a, s) => {
            push_text(out, "Filter<")?;
            push_pred(alloc, out, *p)?;
            push_text(out, ",")?;
            push_marked(alloc, out, marks, *a)?;
            push_opened(alloc, out, ">(", marks, s)?;
            push_text(out, ")")
        }
        Side::InnerJoin(a, b, s, t) => {
            push_text(out, "InnerJoin<")?;
            push_lists(alloc, out, marks, *a, *b)?;
            push_opened(alloc, out, ">(", marks, s)?;
            push_opened(alloc, out, ",", marks, t)?;
            push_text(out, ")")
        }
        Side::LeftJoin(a, b, s, t) => {
            push_text(out, "LeftJoin<")?;
            push_lists(alloc, out, marks, *a, *b)?;
            push_opened(alloc, out, ">(", marks, s)?;
            push_opened(alloc, out, ",", marks, t)?;
            push_text(out, ")")
        }
        Side::InSub(a, s, t) => {
            push_text(out, "InSub<")?;
            push_marked(alloc, out, marks, *a)?;
            push_opened(alloc, out, ">(", marks, s)?;
            push_opened(alloc, out, ",", marks, t)?;
            push_text(out, ")")
        }
        Side::Dedup(s) => {
            push_opened(alloc, out, "Dedup(", marks, s)?;
            push_text(out, ")")
        }
    }
}

/// Adds the anchor of a list and the list, as atoms have them.
fn push_anchored(
    alloc: Global,
    out: &mut Vec<u8>,
    anchors: &[u8],
    a: u8,
) -> Result<(), WantOfMemory>
    requires { a < length anchors.now }
    ensures { OnOk result (out.new.items ≡ out.old.items ++ (leaf_text (anchor anchors.now a) ++ (codes "," ++ list_text a))) }
{
    push_leaf(alloc, out, anchors[usize::from(a)])?;
    push_text(out, ",")?;
    push_list(alloc, out, a)
}

/// Adds an atom's text.
fn push_atom(
    alloc: Global,
    out: &mut Vec<u8>,
    anchors: &[u8],
    atom: Atom,
) -> Result<(), WantOfMemory>
    requires { HasListAnchors anchors.now atom }
    ensures { OnOk result (out.new.items ≡ out.old.items ++ atom_text anchors.now atom) }
{
    match atom {
        Atom::RelEq(x, y) => {
            push_text(out, "RelEq(")?;
            push_leaf(alloc, out, x)?;
            push_text(out, ",")?;
            push_leaf(alloc, out, y)?;
        }
        Atom::AttrsEq(x, y) => {
            push_text(out, "AttrsEq(")?;
            push_list(alloc, out, x)?;
            push_text(out, ",")?;
            push_list(alloc, out, y)?;
        }
        Atom::PredEq(x, y) => {
            push_text(out, "PredEq(")?;
            push_pred(alloc, out, x)?;
            push_text(out, ",")?;
            push_pred(alloc, out, y)?;
        }
        Atom::Unique(a) => {
            push_text(out, "Unique(")?;
            push_anchored(alloc, out, anchors, a)?;
        }
        Atom::NotNull(a) => {
            push_text(out, "NotNull(")?;
            push_anchored(alloc, out, anchors, a)?;
        }
        Atom::RefAttrs(a, b) => {
            push_text(out, "RefAttrs(")?;
            push_anchored(alloc, out, anchors, a)?;
            push_text(out, ",")?;
            push_anchored(alloc, out, anchors, b)?;
        }
    }
    push_text(out, ")")
}

/// Adds an atom if it is chosen.
fn push_if(kept: &mut Atoms, is_chosen: bool, atom: Atom) -> Result<(), WantOfMemory>
    ensures { OnOk result (kept.new ≡ (if is_chosen then kept.old ++ atom ∷ [] else kept.old)) }
{
    if is_chosen {
        kept.push(atom)?;
    }
    Ok(())
}

/// The atoms of a set in their order.
fn chosen_atoms(alloc: Global, atoms: &Atoms, set: AtomSet) -> Result<Atoms, WantOfMemory>
    requires { length atoms.now ≤ 64 }
    ensures { IfOk result (λ kept. kept ≡ chosen set 0 atoms.now) }
{
    let mut kept = Atoms::new(alloc);
    for (k, atom) in atoms.as_slice().iter().enumerate() {
        push_if(&mut kept, has(set, k as u32), *atom)?;
    }
    Ok(kept)
}

/// Adds more atoms, each behind a space.
fn push_more(
    alloc: Global,
    out: &mut Vec<u8>,
    anchors: &[u8],
    atoms: &[Atom],
) -> Result<(), WantOfMemory>
    requires { All (HasListAnchors anchors.now) atoms.now }
    ensures { OnOk result (out.new.items ≡ out.old.items ++ flat_map (λ next. codes " " ++ atom_text anchors.now next) atoms.now) }
{
    for next in atoms {
        push_text(out, " ")?;
        push_atom(alloc, out, anchors, *next)?;
    }
    Ok(())
}

/// Adds atoms with a space between each two, or a dash for none.
fn push_atoms(
    alloc: Global,
    out: &mut Vec<u8>,
    anchors: &[u8],
    atoms: &[Atom],
) -> Result<(), WantOfMemory>
    requires { All (HasListAnchors anchors.now) atoms.now }
    ensures { OnOk result (out.new.items ≡ out.old.items ++ atoms_text anchors.now atoms.now) }
{
    if atoms.is_empty() {
        return push_text(out, "-");
    }
    push_atom(alloc, out, anchors, atoms[0])?;
    push_more(alloc, out, anchors, &atoms[1..])
}

/// Adds the pair of a rule with its atoms.
fn push_rule(alloc: Global, out: &mut Vec<u8>, rule: &Rule) -> Result<(), WantOfMemory>
    requires { IsLawful (pair_of rule.now.pair) }
    ensures { OnOk result (out.new.items ≡ out.old.items ++ rule_text (pair_of rule.now.pair) rule.now.set) }
{
    let anchors = rule.pair.anchors.as_slice();
    let all = atoms_of(alloc, &rule.pair)?;
    let atoms = chosen_atoms(alloc, &all, rule.set)?;
    push_side(alloc, out, anchors, &rule.pair.source)?;
    push_text(out, " => ")?;
    push_side(alloc, out, &[], &rule.pair.dest)?;
    push_text(out, " | ")?;
    push_atoms(alloc, out, anchors, atoms.as_slice())?;
    Ok(())
}

fn two_weights(alloc: Global, source: u32, dest: u32) -> Result<String, WantOfMemory>
    ensures { IfOk result (λ text. string_bytes text ≡ codes " | " ++ (decimal source ++ (codes " " ++ (decimal dest ++ (10 ∷ []))))) }
{
    format!(in alloc; " | {source} {dest}\n")
}

/// The weights of a pair's sides, as a line ends with them.
fn weights(alloc: Global, pair: &Pair) -> Result<String, WantOfMemory>
    requires { IsLawful (pair_of pair.now) }
    ensures { IfOk result (λ text. string_bytes text ≡ weights_text (pair_of pair.now)) }
{
    two_weights(alloc, pair.source.weight(), pair.dest.weight())
}

/// The line of a rule in a rule file, with LF.
pub fn write_rule(alloc: Global, rule: &Rule) -> Result<Bytes, WantOfMemory>
    requires { IsLawful (pair_of rule.now.pair) }
    ensures { IfOk result (λ line. line ≡ rule_line rule.now) }
{
    let mut out = Vec::new(alloc);
    push_rule(alloc, &mut out, rule)?;
    let weights = weights(alloc, &rule.pair)?;
    push_text(&mut out, &weights)?;
    Ok(Bytes::from_vec(out))
}

/// A line of a text and a number.
fn numbered_line(alloc: Global, text: &str, n: u64) -> Result<Bytes, WantOfMemory>
    ensures { IfOk result (λ line. line ≡ text.now ++ (decimal n ++ (10 ∷ []))) }
{
    let mut out = Vec::new(alloc);
    push_text(&mut out, text)?;
    let digits = format!(in alloc; "{n}")?;
    push_text(&mut out, &digits)?;
    push_text(&mut out, "\n")?;
    Ok(Bytes::from_vec(out))
}

/// The first line of a rule file whose rules are proved within so many steps, with LF.
pub fn write_head(alloc: Global, steps: u32) -> Result<Bytes, WantOfMemory>
    ensures { IfOk result (λ line. line ≡ head_line steps) }
{
    numbered_line(alloc, "wetune-rules 2 steps=", u64::from(steps))
}

/// The last line of a rule file of so many rules, with LF.
pub fn write_end(alloc: Global, count: u64) -> Result<Bytes, WantOfMemory>
    ensures { IfOk result (λ line. line ≡ end_line count) }
{
    numbered_line(alloc, "end ", count)
}
