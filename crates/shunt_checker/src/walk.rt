// From node to node of a certificate, with the duals that hold there and the best cost.
ghost use Rattle.std.specs.Prelude.{◌≡◌, ◌<◌, ◌≤◌, ◌+◌, ◌-◌, ◌↔◌, IsTrue, IfOk, IfSome, IfNone};
ghost use Rattle.std.specs.Prelude.{All, List, take, length};
ghost use Rattle.shunt_blocks.specs.declared.records.Block.{Block as ABlock};
ghost use Rattle.shunt_blocks.specs.defs.Blocks.{IsBlockButId};
ghost use Rattle.shunt_blocks.specs.defs.Lists.{RunsThrough, placed, total_cost};
ghost use Rattle.shunt_choices.specs.defs.Paths.{IsTrailOf};
ghost use Rattle.shunt_proof.specs.declared.records.NodeKind.TheVariants as shows;
ghost use Rattle.shunt_proof.specs.declared.records.NodeDuals.TheVariants as has;
ghost use Rattle.shunt_proof.specs.defs.Nodes.{node_at, AreNodes};
ghost use Rattle.shunt_proof.specs.defs.Trees.{depth_at, parent, duals_at, best_with};
ghost use Rattle.shunt_proof.specs.defs.Versions.{HoldIn};
ghost use Rattle.shunt_proof.specs.defs.Certificates.{IsCertificate};
ghost use Rattle.shunt_checker.specs.defs.NodeSteps.{Judges, JudgesChild, LeadsDown};
ghost use Rattle.shunt_checker.specs.defs.Walks.{IsOwner, AreOwn, Owns, IsFrame, AreFrames, IsWalk};
ghost use Rattle.shunt_checker.specs.defs.Walks.{Settles, FindsFault, front_of};

use crate::children::depth_of;
use crate::descent::child_fault;
use crate::nodes::{is_whole, kind_fault, kind_of, path_cost, shown_fault, whole_fault};
use crate::opening_costs::opening_cost;
use crate::verdict::Reason;
use shunt_base::Cases;
use shunt_blocks::laws::few_blocks;
use shunt_choices::Path;
use shunt_instance::Instance;
use shunt_prices::laws::longer_paths;
use shunt_proof::laws::parents;
use shunt_proof::{Certificate, Node, NodeDuals};
use shunt_stacks::laws::bounds_rise;
use std::alloc::{AllocError, Global};

/// A node, and the one whose own duals hold there.
#[derive(Clone, Copy, Debug, PartialEq, Eq, Drop)]
pub(crate) struct Frame {
    pub(crate) node: usize,
    pub(crate) owner: usize,
}

/// A node, and what is told of it.
#[derive(Clone, Copy, Debug, PartialEq, Eq, Drop)]
pub(crate) struct Fault {
    pub(crate) node: usize,
    pub(crate) reason: Reason,
}

/// The own duals of a node that has some.
fn own_cases(nodes: &[Node], owner: usize) -> &Cases
    requires there { owner < length nodes.now }
    requires own { AreOwn (node_at nodes.now owner).duals }
    ensures { (node_at nodes.now owner).duals ≡ has.New result.now }
{
    match &nodes[owner].duals {
        NodeDuals::New(cases) => cases,
        NodeDuals::Same => unreachable!(),
        NodeDuals::Bare => unreachable!(),
    }
}

/// The duals of a node, from the one whose own they are.
fn cases_at<'a>(certificate: &'a Certificate, j: usize, owner: usize) -> &'a Cases
    requires { IsOwner certificate.now.nodes j owner }
    ensures { result.now ≡ duals_at certificate.now.nodes j }
{
    own_cases(certificate.nodes.as_slice(), owner)
}

/// Whether a node has its parent's duals.
fn is_same(nodes: &[Node], k: usize) -> bool
    requires { k < length nodes.now }
    ensures { IsTrue result ↔ ((node_at nodes.now k).duals ≡ has.Same) }
{
    match nodes[k].duals {
        NodeDuals::Same => true,
        NodeDuals::New(_) => false,
        NodeDuals::Bare => false,
    }
}

/// Whether a node of a certificate has its parent's duals.
fn has_same(certificate: &Certificate, k: usize) -> bool
    requires { k < length certificate.now.nodes }
    ensures { IsTrue result ↔ ((node_at certificate.now.nodes k).duals ≡ has.Same) }
{
    is_same(certificate.nodes.as_slice(), k)
}

/// The depth of a node, at most 160.
fn depth_at(instance: &Instance, certificate: &Certificate, k: usize) -> usize
    requires nodes { AreNodes instance.now certificate.now.nodes }
    requires there { k < length certificate.now.nodes }
    ensures exact { result ≡ depth_at certificate.now.nodes k }
    ensures small { result ≤ 160 }
{
    depth_of(certificate.nodes.as_slice(), k) as usize
}

/// Whether a node is the root.
fn is_root(k: usize) -> bool
    ensures { IsTrue result ↔ (k ≡ 0) }
{
    if k == 0 { true } else { false }
}

/// The frame of a node's parent.
fn frame_above(
    instance: &Instance,
    certificate: &Certificate,
    k: usize,
    frames: &[Frame; 161],
) -> Frame
    requires nodes { AreNodes instance.now certificate.now.nodes }
    requires there { k < length certificate.now.nodes }
    requires deep { 1 ≤ depth_at certificate.now.nodes k }
    requires frames { AreFrames certificate.now.nodes k frames.now }
    ensures { IsFrame certificate.now.nodes (parent certificate.now.nodes k) result }
{
    frames[depth_at(instance, certificate, k) - 1]
}

/// Takes blocks away from the end of a path until that many are left.
fn shorten(instance: &Instance, path: &mut Path, left: usize)
    requires of { IsTrailOf instance.now path.old }
    requires pins { path.old.pins ≤ left }
    requires some { left ≤ length path.old.blocks }
    ensures blocks { path.new.blocks ≡ take left path.old.blocks }
    ensures of { IsTrailOf instance.now path.new }
    ensures pins { path.new.pins ≡ path.old.pins }
{
    'longer: while path.blocks().len() > left {
        let Some(_block) = path.pop(instance) else {
            unreachable!();
        };
    }
}

/// What is wrong with a node's choice and with its bound by its parent's duals, from the path of the node before it. If nothing is,
/// the path is then the node's.
fn parent_fault(
    alloc: Global,
    instance: &Instance,
    certificate: &Certificate,
    k: usize,
    path: &mut Path,
    frame: Frame,
    best: u64,
) -> Result<Option<Reason>, AllocError>
    requires nodes { AreNodes instance.now certificate.now.nodes }
    requires some { 1 ≤ k }
    requires there { k < length certificate.now.nodes }
    requires path { IsTrailOf instance.now path.old }
    requires each { All (IsBlockButId instance.now) path.old.blocks }
    requires deep { 1 ≤ depth_at certificate.now.nodes k }
    requires long { path.old.pins + depth_at certificate.now.nodes k ≤ length path.old.blocks + 1 }
    requires frame { IsFrame certificate.now.nodes (parent certificate.now.nodes k) frame }
    requires best { best ≤ 4000000000 }
    ensures found { IfOk result (JudgesChild instance.now certificate.now k
        (front_of certificate.now.nodes k path.old) best) }
    ensures leads { IfOk result (λ r. IfNone r (LeadsDown instance.now certificate.now k
        (front_of certificate.now.nodes k path.old) path.new.blocks)) }
    ensures through { IfOk result
        (λ r. IfNone r (RunsThrough instance.now (placed path.new.blocks))) }
    ensures each { IfOk result (λ r. IfNone r (All (IsBlockButId instance.now) path.new.blocks)) }
    ensures of { IsTrailOf instance.now path.new }
    ensures pins { path.new.pins ≡ path.old.pins }
{
    // A parent is a branch. There are at most 160 units, and blocks that share nothing are no more.
    parents();
    instance.units();
    few_blocks();
    let above = depth_at(instance, certificate, k) - 1;
    let left = path.pins() + above;
    shorten(instance, path, left);
    let cases = cases_at(certificate, frame.node, frame.owner);
    child_fault(
        alloc,
        instance,
        certificate,
        k,
        frame.node,
        path,
        cases,
        best,
    )
}

/// What is wrong with a node at its path, but for its choice and its parent's duals. Cases that are known to hold there aren't tried
/// again.
fn own_fault(
    alloc: Global,
    instance: &Instance,
    certificate: &Certificate,
    k: usize,
    path: &mut Path,
    owner: usize,
    known: Option<&Cases>,
) -> Result<Option<Reason>, AllocError>
    requires nodes { AreNodes instance.now certificate.now.nodes }
    requires there { k < length certificate.now.nodes }
    requires path { IsTrailOf instance.now path.old }
    requires owner { Owns certificate.now.nodes k owner }
    requires through { RunsThrough instance.now (placed path.old.blocks) }
    requires each { All (IsBlockButId instance.now) path.old.blocks }
    requires known { IfSome known
        (λ held. HoldIn certificate.now.version instance.now path.old.blocks held.now) }
    requires bound { certificate.now.bound ≤ 1000000000000 }
    ensures found { IfOk result (Judges instance.now certificate.now k path.old.blocks 4 8) }
    ensures kept { IfOk result (λ r. IfNone r (path.new ≡ path.old)) }
{
    // The duals of a node that isn't whole are cases within the limits.
    parents();
    let other = kind_fault(instance, certificate, k, path);
    if let Some(reason) = other {
        return Ok(Some(reason));
    }
    if is_whole(kind_of(certificate, k)) {
        return Ok(whole_fault(instance, certificate, k, path));
    }
    let cases = cases_at(certificate, k, owner);
    shown_fault(alloc, instance, certificate, k, path, cases, known)
}

/// Whose own duals hold at a node: its own, or its parent's.
fn owner_of(
    instance: &Instance,
    certificate: &Certificate,
    k: usize,
    frames: &[Frame; 161],
) -> usize
    requires nodes { AreNodes instance.now certificate.now.nodes }
    requires there { k < length certificate.now.nodes }
    requires frames { AreFrames certificate.now.nodes k frames.now }
    ensures { Owns certificate.now.nodes k result }
{
    // A node with its parent's duals isn't the root.
    parents();
    if !has_same(certificate, k) {
        return k;
    }
    frame_above(instance, certificate, k, frames).owner
}

/// What is wrong with a node, from what is known before it. If nothing is, the path is then the node's.
fn node_fault(
    alloc: Global,
    instance: &Instance,
    certificate: &Certificate,
    k: usize,
    path: &mut Path,
    frames: &[Frame; 161],
    best: u64,
    owner: usize,
) -> Result<Option<Reason>, AllocError>
    ghost start: { List ABlock }
    requires certificate { IsCertificate instance.now certificate.now }
    requires there { k < length certificate.now.nodes }
    requires walk { IsWalk instance.now start certificate.now k path.old frames.now best }
    requires owner { Owns certificate.now.nodes k owner }
    ensures { IfOk result (Settles instance.now start certificate.now k path.new) }
{
    // Duals that hold at the parent hold at its child.
    parents();
    longer_paths();
    bounds_rise();
    if is_root(k) {
        return own_fault(alloc, instance, certificate, k, path, owner, None);
    }
    let frame = frame_above(instance, certificate, k, frames);
    let misled = parent_fault(alloc, instance, certificate, k, path, frame, best)?;
    if let Some(reason) = misled {
        return Ok(Some(reason));
    }
    let known = Some(cases_at(certificate, frame.node, frame.owner));
    own_fault(alloc, instance, certificate, k, path, owner, known)
}

/// The best cost after a node.
fn best_after(
    instance: &Instance,
    certificate: &Certificate,
    k: usize,
    path: &Path,
    best: u64,
) -> u64
    requires there { k < length certificate.now.nodes }
    requires path { IsTrailOf instance.now path.now }
    ensures exact { result ≡ best_with (node_at certificate.now.nodes k).kind
        (total_cost instance.now path.now.blocks) best }
    ensures small { result ≤ best }
{
    if !is_whole(kind_of(certificate, k)) {
        return best;
    }
    let cost = path_cost(instance, path);
    if cost < best { cost } else { best }
}

/// The first node with which something is wrong, from the root's path on.
pub(crate) fn first_fault(
    alloc: Global,
    instance: &Instance,
    certificate: &Certificate,
    mut path: Path,
) -> Result<Option<Fault>, AllocError>
    ghost start: { List ABlock }
    requires certificate { IsCertificate instance.now certificate.now }
    requires path { IsTrailOf instance.now path }
    requires start { path.blocks ≡ start }
    requires pins { path.pins ≡ length start }
    requires through { RunsThrough instance.now (placed path.blocks) }
    requires each { All (IsBlockButId instance.now) path.blocks }
    ensures { IfOk result (FindsFault instance.now start certificate.now) }
{
    // The root has duals of its own.
    parents();
    let mut best = opening_cost(instance, &path);
    let mut frames = [Frame { node: 0, owner: 0 }; 161];
    for k in 0..certificate.nodes.len() {
        let owner = owner_of(instance, certificate, k, &frames);
        let found = node_fault(
            alloc,
            instance,
            certificate,
            k,
            &mut path,
            &frames,
            best,
            owner,
        )?;
        if let Some(reason) = found {
            return Ok(Some(Fault { node: k, reason }));
        }
        let after = best_after(instance, certificate, k, &path, best);
        best = after;
        let depth = depth_at(instance, certificate, k);
        frames[depth] = Frame { node: k, owner };
    }
    Ok(None)
}
