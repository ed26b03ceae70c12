// Whether a node's choice leads on from its parent's path.
ghost use Rattle.std.specs.Prelude.{◌≡◌, ◌<◌, ◌≤◌, ◌≤ℤ◌, ◌<ℤ◌, ◌↔◌, IsTrue, IfOk, IfSome, IfNone};
ghost use Rattle.std.specs.Prelude.{All, Some, pos, length};
ghost use Rattle.shunt_blocks.specs.defs.Blocks.{IsBlockButId};
ghost use Rattle.shunt_blocks.specs.defs.Lists.{RunsThrough, placed};
ghost use Rattle.shunt_choices.specs.defs.Paths.{IsTrailOf};
ghost use Rattle.shunt_prices.specs.defs.Limits.{AreCases};
ghost use Rattle.shunt_proof.specs.defs.Nodes.{node_at, AreNodes, FitsChoice};
ghost use Rattle.shunt_proof.specs.defs.Trees.{parent, duals_at, IsChildOf};
ghost use Rattle.shunt_checker.specs.declared.verdict.Reason.TheVariants as reason;
ghost use Rattle.shunt_checker.specs.defs.NodeFaults.{HasTwin};
ghost use Rattle.shunt_checker.specs.defs.Tallies.{IsOneMore};
ghost use Rattle.shunt_checker.specs.defs.NodeSteps.{JudgesBelow, JudgesChild, LeadsDown};

use crate::children::has_twin;
use crate::node_choices::{is_there, push_choice};
use crate::runs::runs_placed;
use crate::verdict::Reason;
use crate::versions::step_bound;
use shunt_base::Cases;
use shunt_blocks::laws::few_blocks;
use shunt_choices::Path;
use shunt_instance::Instance;
use shunt_proof::laws::parents;
use shunt_proof::version_laws::bounds_by_version;
use shunt_proof::{Certificate, Choice, Node};
use std::alloc::{AllocError, Global};

/// What the node with a number adds to its parent's path.
fn choice_at(nodes: &[Node], k: usize) -> Option<Choice>
    requires { k < length nodes.now }
    ensures { result ≡ (node_at nodes.now k).choice }
{
    nodes[k].choice
}

/// What a node of a certificate adds to its parent's path.
fn choice_of(certificate: &Certificate, k: usize) -> Option<Choice>
    requires { k < length certificate.now.nodes }
    ensures { result ≡ (node_at certificate.now.nodes k).choice }
{
    choice_at(certificate.nodes.as_slice(), k)
}

/// Whether a path's run goes through, with the blocks' places as ids.
fn path_runs(alloc: Global, instance: &Instance, path: &Path) -> Result<bool, AllocError>
    requires { IsTrailOf instance.now path.now }
    ensures { IfOk result (λ b. IsTrue b ↔ RunsThrough instance.now (placed path.now.blocks)) }
{
    // There are at most 160 units, and blocks that share nothing are no more.
    instance.units();
    few_blocks();
    runs_placed(alloc, instance, path.blocks())
}

/// Whether a node's choice is one at its parent's path and gives a partial plan. If it does, the path is then the node's.
fn there_fault(
    alloc: Global,
    instance: &Instance,
    certificate: &Certificate,
    k: usize,
    path: &mut Path,
    choice: Choice,
) -> Result<Option<Reason>, AllocError>
    requires nodes { AreNodes instance.now certificate.now.nodes }
    requires some { 1 ≤ k }
    requires there { k < length certificate.now.nodes }
    requires path { IsTrailOf instance.now path.old }
    requires each { All (IsBlockButId instance.now) path.old.blocks }
    requires choice { (node_at certificate.now.nodes k).choice ≡ Some choice }
    requires fits { FitsChoice instance.now choice }
    ensures found { IfOk result (JudgesBelow instance.now certificate.now k path.old.blocks 1 2) }
    ensures leads { IfOk result
        (λ r. IfNone r (LeadsDown instance.now certificate.now k path.old.blocks path.new.blocks)) }
    ensures more { IfOk result
        (λ r. IfNone r (IsOneMore instance.now path.old.blocks path.new.blocks)) }
    ensures of { IsTrailOf instance.now path.new }
    ensures pins { path.new.pins ≡ path.old.pins }
{
    parents();
    let there = is_there(instance, path, choice);
    if !there {
        return Ok(Some(Reason::ChildNotThere { choice }));
    }
    push_choice(instance, path, choice);
    let through = path_runs(alloc, instance, path)?;
    if !through {
        return Ok(Some(Reason::ChildNotThere { choice }));
    }
    Ok(None)
}

/// Whether an earlier child of the node above has this choice.
fn is_twice(
    instance: &Instance,
    certificate: &Certificate,
    above: usize,
    k: usize,
    choice: Choice,
) -> bool
    requires nodes { AreNodes instance.now certificate.now.nodes }
    requires child { IsChildOf certificate.now.nodes above k }
    ensures { IsTrue result ↔ HasTwin certificate.now.nodes k choice }
{
    has_twin(instance, certificate.nodes.as_slice(), above, k, choice)
}

/// What is told of a bound that isn't below the best cost.
fn lean_reason(bound: i64, best: u64) -> Option<Reason>
    requires { best ≤ 4000000000 }
    ensures some { IfSome result
        (λ r. (pos best ≤ℤ bound) × (r ≡ reason.ChildNotLean bound (pos best))) }
    ensures none { IfNone result (bound <ℤ pos best) }
{
    let best = best as i64;
    if bound < best {
        return None;
    }
    Some(Reason::ChildNotLean { bound, best })
}

/// What is wrong with a node's choice and with its bound by its parent's duals. If nothing is, the path is then the node's.
pub(crate) fn child_fault(
    alloc: Global,
    instance: &Instance,
    certificate: &Certificate,
    k: usize,
    above: usize,
    path: &mut Path,
    cases: &Cases,
    best: u64,
) -> Result<Option<Reason>, AllocError>
    requires nodes { AreNodes instance.now certificate.now.nodes }
    requires some { 1 ≤ k }
    requires there { k < length certificate.now.nodes }
    requires above { above ≡ parent certificate.now.nodes k }
    requires path { IsTrailOf instance.now path.old }
    requires each { All (IsBlockButId instance.now) path.old.blocks }
    requires cases { AreCases instance.now cases.now }
    requires duals { cases.now ≡ duals_at certificate.now.nodes above }
    requires pins { path.old.pins ≤ length path.old.blocks }
    requires best { best ≤ 4000000000 }
    ensures found { IfOk result (JudgesChild instance.now certificate.now k path.old.blocks best) }
    ensures leads { IfOk result
        (λ r. IfNone r (LeadsDown instance.now certificate.now k path.old.blocks path.new.blocks)) }
    ensures through { IfOk result
        (λ r. IfNone r (RunsThrough instance.now (placed path.new.blocks))) }
    ensures each { IfOk result (λ r. IfNone r (All (IsBlockButId instance.now) path.new.blocks)) }
    ensures of { IsTrailOf instance.now path.new }
    ensures pins { path.new.pins ≡ path.old.pins }
{
    // Each node but the root has a choice, and a path has at most one bound.
    parents();
    bounds_by_version();
    let Some(choice) = choice_of(certificate, k) else {
        unreachable!();
    };
    let misplaced = there_fault(alloc, instance, certificate, k, path, choice)?;
    if let Some(reason) = misplaced {
        return Ok(Some(reason));
    }
    if is_twice(instance, certificate, above, k, choice) {
        return Ok(Some(Reason::ChildTwice { choice }));
    }
    let bound = step_bound(alloc, instance, certificate.version, path, cases)?;
    Ok(lean_reason(bound, best))
}
