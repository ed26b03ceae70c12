// Records of nodes.
ghost use Rattle.std.specs.Prelude.{◌≡◌, ◌≤◌, ◌<◌, ◌==◌, ◌||◌, IsTrue, IfOk, length};
ghost use Rattle.shunt_rows.specs.defs.Checks.{answer};
ghost use Rattle.shunt_proof.specs.defs.CertificateFormat.{kind_of, duals_of, head_in, root_in};
ghost use Rattle.shunt_proof.specs.defs.CertificateFormat.{deepest, later_in, child_in};

use crate::records::{Choice, NodeKind};
use shunt_instance::Instance;
use shunt_plan::{read_dep, read_option};
use shunt_rows::{Row, RowFault, RowKind, fields_in, found, must, number_in};

/// What the record of a node says of its duals.
#[derive(Clone, Copy, Debug, PartialEq, Eq, Drop)]
pub enum HeadDuals {
    /// They are its parent's.
    Same,
    /// They are its own, in the records behind it.
    New,
    /// It has none.
    Bare,
}

/// What the record of a node says.
#[derive(Clone, Copy, Debug, PartialEq, Eq, Drop)]
pub struct Head {
    /// From 0 to 160.
    pub depth: u8,
    pub choice: Option<Choice>,
    pub kind: NodeKind,
    pub duals: HeadDuals,
}

#[tactic(auto, unfolding(crate::specs::defs::CertificateFormat::kind_of))]
fn kind_named(text: &[u8]) -> Option<NodeKind>
    ensures { result ≡ kind_of text.now }
{
    if text == b"branch".as_slice() {
        return Some(NodeKind::Branch);
    }
    if text == b"leaf".as_slice() {
        return Some(NodeKind::Leaf);
    }
    if text == b"whole".as_slice() {
        return Some(NodeKind::Whole);
    }
    None
}

#[tactic(auto, unfolding(crate::specs::defs::CertificateFormat::duals_of))]
fn duals_named(kind: NodeKind, depth: u8, text: &[u8]) -> Option<HeadDuals>
    ensures { result ≡ duals_of kind depth text.now }
{
    if let NodeKind::Whole = kind {
        if text == b"none".as_slice() {
            return Some(HeadDuals::Bare);
        }
        return None;
    }
    if text == b"new".as_slice() {
        return Some(HeadDuals::New);
    }
    if depth != 0 && text == b"same".as_slice() {
        return Some(HeadDuals::Same);
    }
    None
}

// Kind and duals of a node at a depth.
fn read_head(row: &Row, n: u32, depth: u8) -> Result<Head, RowFault>
    requires { 4 ≤ length row.now }
    ensures { result ≡ answer n (head_in row.now depth) }
{
    let kind = found(kind_named(row.field(3)), n, 3, RowKind::Kind)?;
    let duals = found(duals_named(kind, depth, row.field(4)), n, 4, RowKind::Kind)?;
    Ok(Head {
        depth,
        choice: None,
        kind,
        duals,
    })
}

/// The record of the first node, behind that many.
#[tactic(auto, unfolding(crate::specs::defs::CertificateFormat::root_in))]
pub fn read_root(begun: u32, row: &Row, n: u32) -> Result<Head, RowFault>
    ensures answer { result ≡ answer n (root_in begun row.now) }
    ensures room { IfOk result (λ _. begun < 5000) }
{
    fields_in(row, n, 4, 4)?;
    must(begun < 5_000, n, 1, RowKind::Limit)?;
    let depth = number_in(row, n, 2, 0, 0)?;
    read_head(row, n, depth as u8)
}

// The greatest depth of the next node.
fn deepest(last: Head) -> u64
    ensures { result ≡ deepest last }
{
    match last.kind {
        NodeKind::Branch => last.depth as u64 + 1,
        _ => last.depth as u64,
    }
}

// The record of a node behind that many, of which this was the last, and what it adds, with its option yet to come.
#[tactic(auto, unfolding(crate::specs::defs::CertificateFormat::later_in))]
fn read_later(
    instance: &Instance,
    begun: u32,
    last: Head,
    row: &Row,
    n: u32,
) -> Result<(Head, Choice), RowFault>
    ensures answer { result ≡ answer n (later_in instance.now begun last row.now) }
    ensures fields { IfOk result (λ _. IsTrue (length row.now == 8 || length row.now == 11)) }
    ensures room { IfOk result (λ _. begun < 5000) }
{
    let len = row.len();
    must(len == 8 || len == 11, n, 1, RowKind::Fields)?;
    must(begun < 5_000, n, 1, RowKind::Limit)?;
    let depth = number_in(row, n, 2, 1, 160)?;
    must(depth <= deepest(last), n, 2, RowKind::Limit)?;
    let head = read_head(row, n, depth as u8)?;
    let units = number_in(row, n, 5, 1, 8)?;
    let dep = read_dep(instance, row, n, 6)?;
    let q = number_in(row, n, 7, 1, 8)?;
    let choice = Choice {
        n: units as u8,
        dep,
        q: q as u8,
        park: None,
    };
    Ok((head, choice))
}

/// The record of a node behind that many, of which this was the last.
pub fn read_child(
    instance: &Instance,
    begun: u32,
    last: Head,
    row: &Row,
    n: u32,
) -> Result<Head, RowFault>
    ensures answer { result ≡ answer n (child_in instance.now begun last row.now) }
    ensures room { IfOk result (λ _. begun < 5000) }
{
    let (mut head, mut choice) = read_later(instance, begun, last, row, n)?;
    choice.park = read_option(instance, row, n, 8)?;
    head.choice = Some(choice);
    Ok(head)
}
