// If the records of a certificate's nodes stand in its text.
ghost use Rattle.std.specs.Prelude.{◌≡◌, ◌≤◌, [], ◌∷◌, length};
ghost use Rattle.shunt_prices.specs.defs.Limits.{AreCases};
ghost use Rattle.shunt_proof.specs.defs.Nodes.{FitsNode, AreNodes};
ghost use Rattle.shunt_proof.specs.defs.CertificateRows.{is_plain, duals_count, cases_count};
ghost use Rattle.shunt_proof.specs.defs.CertificateRows.{row_count, row_of};

use shunt_base::{Case, Cases};
use shunt_instance::Instance;
use shunt_proof::{Node, NodeDuals};

/// How many records a case has behind its limits.
fn duals_count(case: &Case) -> u32
    requires { length case.now.duals.prices ≤ 64 }
    ensures exact { result ≡ duals_count case.now }
    ensures small { result ≤ 66 }
{
    2 + case.duals.prices.len() as u32
}

/// Whether a case is the one that is written without its limits.
fn is_plain(case: &Case) -> bool
    ensures { result ≡ is_plain case.now }
{
    case.to == 160 && case.multiplier == 0
}

/// How many records a case has that stands alone.
fn only_count(case: &Case) -> u32
    requires { length case.now.duals.prices ≤ 64 }
    ensures exact { result ≡ cases_count (case.now ∷ []) }
    ensures small { result ≤ 67 }
{
    if is_plain(case) {
        return duals_count(case);
    }
    duals_count(case) + 1
}

/// How many records cases have.
fn cases_count(instance: &Instance, cases: &Cases) -> u32
    requires { AreCases instance.now cases.now }
    ensures exact { result ≡ cases_count cases.now }
    ensures small { result ≤ 134 }
{
    let first = cases.get(0);
    if cases.len() == 1 {
        return only_count(first);
    }
    let second = cases.get(1);
    duals_count(first) + 1 + (duals_count(second) + 1)
}

/// How many records a node has.
fn row_count(instance: &Instance, node: &Node) -> u32
    requires { FitsNode instance.now node.now }
    ensures exact { result ≡ row_count node.now }
    ensures small { result ≤ 135 }
{
    match &node.duals {
        NodeDuals::New(cases) => 1 + cases_count(instance, cases),
        NodeDuals::Same => 1,
        NodeDuals::Bare => 1,
    }
}

/// The number of the record of the node with a number, from 1; behind the nodes that of the last record.
pub(crate) fn row_of(instance: &Instance, nodes: &[Node], k: usize) -> u32
    requires nodes { AreNodes instance.now nodes.now }
    requires few { length nodes.now ≤ 5000 }
    requires there { k ≤ length nodes.now }
    ensures { result ≡ row_of nodes.now k }
{
    let mut row = 2;
    for j in 0..k {
        row += row_count(instance, &nodes[j]);
    }
    row
}
