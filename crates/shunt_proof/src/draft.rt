// From records to a certificate.
ghost use Rattle.std.specs.Prelude.{◌≡◌, ◌<◌, None, OnOk, IfOk};
ghost use Rattle.shunt_rows.specs.declared.fault.ReadError.TheVariants as errors;
ghost use Rattle.shunt_rows.specs.defs.Checks.{answer};
ghost use Rattle.shunt_rows.specs.defs.Given.{Gives};
ghost use Rattle.shunt_rows.specs.defs.Formats.{reading};
ghost use Rattle.shunt_proof.specs.defs.Certificates.{IsCertificate};
ghost use Rattle.shunt_proof.specs.defs.CertificateFormat.{CertificateDraft, cases_of, settled};
ghost use Rattle.shunt_proof.specs.defs.CertificateFormat.{with_head, with_node, root_of, child_of};
ghost use Rattle.shunt_proof.specs.defs.CertificateFormat.{no_case, node_of, with_case};
ghost use Rattle.shunt_proof.specs.defs.CertificateFormat.{with_second, with_alpha, with_beta};
ghost use Rattle.shunt_proof.specs.defs.CertificateFormat.{with_lone, with_price, with_end};
ghost use Rattle.shunt_proof.specs.defs.CertificateFormat.{first_case_of, second_case_of, alpha_of};
ghost use Rattle.shunt_proof.specs.defs.CertificateFormat.{lone_alpha_of, beta_of, price_of};
ghost use Rattle.shunt_proof.specs.defs.CertificateFormat.{part_of, end_in, end_of, after_node};
ghost use Rattle.shunt_proof.specs.defs.CertificateFormat.{after_case, after_beta, after_new};
ghost use Rattle.shunt_proof.specs.defs.CertificateFormat.{later_of, ended, certificate_format};

use crate::heads::{Head, HeadDuals, read_child, read_root};
use crate::records::{Certificate, Node, NodeDuals, NodeKind, Version};
use crate::values::{
    Limits, read_alpha, read_beta, read_first_limits, read_lone_alpha, read_part, read_price,
    read_second_limits,
};
use crate::versions::read_version;
use shunt_base::{Case, Cases, Duals, Price, parse_decimal};
use shunt_instance::Instance;
use shunt_lists::Items;
use shunt_rows::{
    FormatReader, ReadError, Row, RowFault, RowKind, fields_in, found, must, number_in, read,
};
use std::alloc::{AllocError, Global};
use std::marker::Model;
use std::mem::replace;

/// What was read last, which tells the words that may stand next.
#[derive(Clone, Copy, Debug, PartialEq, Eq, Drop)]
pub enum LastRead {
    /// The first record of the file.
    Start,
    /// A node whose duals aren't its own.
    Node,
    /// A node with duals of its own.
    New,
    Case,
    Alpha,
    /// The record `beta`, or a price behind it.
    Beta,
    /// The last record.
    End,
}

// What the records so far state.
#[derive(Debug, Drop)]
struct CertificateDraft {
    version: Version,
    nodes: Vec<Node>,
    begun: u32,
    cases: u32,
    place: LastRead,
    head: Head,
    before: Option<Case>,
    to: u8,
    multiplier: i64,
    alpha: Items<i64>,
    beta: Items<i64>,
    prices: Vec<Price>,
    cost: u64,
    bound: u64,
}

impl Model for CertificateDraft {
    ghost use Rattle.shunt_proof.specs.defs.CertificateFormat.{CertificateDraft};

    ghost Value = { CertificateDraft };

    ghost view = { λ d. record {
      version = d.version;
      nodes = d.nodes.items;
      begun = d.begun;
      cases = d.cases;
      place = d.place;
      head = d.head;
      before = d.before;
      now = record {
        to = d.to;
        multiplier = d.multiplier;
        duals = record {
          alpha = d.alpha;
          beta = d.beta;
          prices = d.prices.items;
        };
      };
      cost = d.cost;
      bound = d.bound;
    } };
}

impl CertificateDraft {
    // Takes the case that was read last.
    fn take_case(&mut self, alloc: Global) -> Case
        ensures taken { result ≡ self.old.now }
        ensures left { self.new ≡ record self.old { now = no_case } }
    {
        let alpha = replace(&mut self.alpha, Items::from_vec(Vec::new(alloc)));
        let beta = replace(&mut self.beta, Items::from_vec(Vec::new(alloc)));
        let prices = replace(&mut self.prices, Vec::new(alloc));
        let case = Case {
            to: self.to,
            multiplier: self.multiplier,
            duals: Duals {
                alpha,
                beta,
                prices: Items::from_vec(prices),
            },
        };
        self.to = 0;
        self.multiplier = 0;
        case
    }

    // Takes the cases of the last node.
    fn take_cases(&mut self, alloc: Global) -> Cases
        ensures taken { result ≡ cases_of self.old.before self.old.now }
        ensures left { self.new ≡ record self.old { before = None; now = no_case } }
    {
        let last = self.take_case(alloc);
        match self.before.take() {
            None => Cases::one(last),
            Some(first) => Cases::two(first, last),
        }
    }

    // Makes the last node whole, where it may have all its cases.
    #[tactic(auto, unfolding(crate::specs::defs::CertificateFormat::settled))]
    fn settle(&mut self, alloc: Global) -> Result<(), AllocError>
        ensures { OnOk result (self.new ≡ settled self.old) }
    {
        if let LastRead::Beta = self.place {
            let cases = self.take_cases(alloc);
            self.nodes.push(node_of(self.head, NodeDuals::New(cases)))?;
        }
        Ok(())
    }

    // One more node behind whole ones.
    fn add_head(&mut self, head: Head) -> Result<(), AllocError>
        requires { self.old.begun < 5000 }
        ensures { OnOk result (self.new ≡ with_head self.old head head.duals) }
    {
        self.begun += 1;
        self.head = head;
        self.place = LastRead::Node;
        match head.duals {
            HeadDuals::New => self.place = LastRead::New,
            HeadDuals::Same => self.nodes.push(node_of(head, NodeDuals::Same))?,
            HeadDuals::Bare => self.nodes.push(node_of(head, NodeDuals::Bare))?,
        }
        Ok(())
    }

    #[tactic(auto, unfolding(crate::specs::defs::CertificateFormat::with_node, crate::specs::defs::CertificateFormat::settled))]
    fn add_node(&mut self, alloc: Global, head: Head) -> Result<(), AllocError>
        requires { self.old.begun < 5000 }
        ensures { OnOk result (self.new ≡ with_node self.old head) }
    {
        self.settle(alloc)?;
        self.add_head(head)?;
        Ok(())
    }

    // Begins a case of the last node.
    fn begin_case(&mut self, alloc: Global, limits: Limits)
        requires { self.old.cases < 8000 }
        ensures { self.new ≡ with_case self.old limits }
    {
        self.cases += 1;
        self.place = LastRead::Case;
        self.to = limits.to;
        self.multiplier = limits.multiplier;
        self.alpha = Items::from_vec(Vec::new(alloc));
        self.beta = Items::from_vec(Vec::new(alloc));
        self.prices = Vec::new(alloc);
    }

    // Begins one more case of the last node.
    fn follow_case(&mut self, alloc: Global, limits: Limits)
        requires { self.old.cases < 8000 }
        ensures { self.new ≡ with_second self.old limits }
    {
        let before = self.take_case(alloc);
        self.before = Some(before);
        self.begin_case(alloc, limits);
    }

    fn set_alpha(&mut self, values: Vec<i64>)
        ensures { self.new ≡ with_alpha self.old values.items }
    {
        self.place = LastRead::Alpha;
        self.alpha = Items::from_vec(values);
    }

    fn set_beta(&mut self, values: Vec<i64>)
        ensures { self.new ≡ with_beta self.old values.items }
    {
        self.place = LastRead::Beta;
        self.beta = Items::from_vec(values);
    }

    // Begins the case that begins with `alpha`.
    fn begin_lone(&mut self, alloc: Global, values: Vec<i64>)
        requires { self.old.cases < 8000 }
        ensures { self.new ≡ with_lone self.old values.items }
    {
        let limits = Limits {
            to: 160,
            multiplier: 0,
        };
        self.begin_case(alloc, limits);
        self.set_alpha(values);
    }

    fn add_price(&mut self, price: Price) -> Result<(), AllocError>
        ensures { OnOk result (self.new ≡ with_price self.old price) }
    {
        self.prices.push(price)?;
        Ok(())
    }

    #[tactic(auto, unfolding(crate::specs::defs::CertificateFormat::with_end))]
    fn end(&mut self, alloc: Global, cost: u64, bound: u64) -> Result<(), AllocError>
        ensures { OnOk result (self.new ≡ with_end self.old (cost, bound)) }
    {
        self.settle(alloc)?;
        self.place = LastRead::End;
        self.cost = cost;
        self.bound = bound;
        Ok(())
    }

    fn read_root(&mut self, alloc: Global, n: u32, row: &Row) -> Result<(), ReadError>
        ensures { Gives (λ _. self.new) result (answer n (root_of self.old row.now)) }
    {
        let head = read_root(self.begun, row, n)?;
        self.add_node(alloc, head)?;
        Ok(())
    }

    fn read_child(
        &mut self,
        instance: &Instance,
        alloc: Global,
        n: u32,
        row: &Row,
    ) -> Result<(), ReadError>
        ensures { Gives (λ _. self.new) result (answer n (child_of instance.now self.old row.now)) }
    {
        let head = read_child(instance, self.begun, self.head, row, n)?;
        self.add_node(alloc, head)?;
        Ok(())
    }

    fn read_first_case(&mut self, alloc: Global, n: u32, row: &Row) -> Result<(), ReadError>
        ensures { Gives (λ _. self.new) result (answer n (first_case_of self.old row.now)) }
    {
        let limits = read_first_limits(self.cases, row, n)?;
        self.begin_case(alloc, limits);
        Ok(())
    }

    fn read_second_case(&mut self, alloc: Global, n: u32, row: &Row) -> Result<(), ReadError>
        ensures { Gives (λ _. self.new) result (answer n (second_case_of self.old row.now)) }
    {
        let limits = read_second_limits(self.cases, row, n)?;
        self.follow_case(alloc, limits);
        Ok(())
    }

    fn read_alpha(
        &mut self,
        instance: &Instance,
        alloc: Global,
        n: u32,
        row: &Row,
    ) -> Result<(), ReadError>
        ensures { Gives (λ _. self.new) result (answer n (alpha_of instance.now self.old row.now)) }
    {
        let values = read_alpha(instance, alloc, row, n)?;
        self.set_alpha(values);
        Ok(())
    }

    fn read_lone_alpha(
        &mut self,
        instance: &Instance,
        alloc: Global,
        n: u32,
        row: &Row,
    ) -> Result<(), ReadError>
        ensures { Gives (λ _. self.new) result
            (answer n (lone_alpha_of instance.now self.old row.now)) }
    {
        let values = read_lone_alpha(instance, alloc, self.cases, row, n)?;
        self.begin_lone(alloc, values);
        Ok(())
    }

    fn read_beta(
        &mut self,
        instance: &Instance,
        alloc: Global,
        n: u32,
        row: &Row,
    ) -> Result<(), ReadError>
        ensures { Gives (λ _. self.new) result (answer n (beta_of instance.now self.old row.now)) }
    {
        let values = read_beta(instance, alloc, row, n)?;
        self.set_beta(values);
        Ok(())
    }

    fn read_price(&mut self, instance: &Instance, n: u32, row: &Row) -> Result<(), ReadError>
        ensures { Gives (λ _. self.new) result (answer n (price_of instance.now self.old row.now)) }
    {
        let price = read_price(instance, &self.prices, row, n)?;
        self.add_price(price)?;
        Ok(())
    }

    fn read_part(&mut self, instance: &Instance, n: u32, row: &Row) -> Result<(), ReadError>
        ensures { Gives (λ _. self.new) result (answer n (part_of instance.now self.old row.now)) }
    {
        let price = read_part(instance, &self.prices, row, n)?;
        self.add_price(price)?;
        Ok(())
    }

    fn read_end(&mut self, alloc: Global, n: u32, row: &Row) -> Result<(), ReadError>
        ensures { Gives (λ _. self.new) result (answer n (end_of self.old row.now)) }
    {
        let stated = read_end(self.begun, row, n)?;
        self.end(alloc, stated.0, stated.1)?;
        Ok(())
    }

    // A record behind a whole node.
    #[tactic(auto, unfolding(crate::specs::defs::CertificateFormat::after_node))]
    fn read_after_node(
        &mut self,
        instance: &Instance,
        alloc: Global,
        n: u32,
        row: &Row,
    ) -> Result<(), ReadError>
        ensures { Gives (λ _. self.new) result
            (answer n (after_node instance.now self.old row.now)) }
    {
        let word = row.word();
        if word == b"node".as_slice() {
            return self.read_child(instance, alloc, n, row);
        }
        if word == b"end".as_slice() {
            return self.read_end(alloc, n, row);
        }
        Err(fault(n, RowKind::Kind))
    }

    // A record behind a whole case.
    #[tactic(auto, unfolding(crate::specs::defs::CertificateFormat::after_case))]
    fn read_after_case(
        &mut self,
        instance: &Instance,
        alloc: Global,
        n: u32,
        row: &Row,
    ) -> Result<(), ReadError>
        ensures { Gives (λ _. self.new) result
            (answer n (after_case instance.now self.old row.now)) }
    {
        if self.to == 160 {
            return self.read_after_node(instance, alloc, n, row);
        }
        if row.word() == b"case".as_slice() {
            return self.read_second_case(alloc, n, row);
        }
        Err(fault(n, RowKind::Kind))
    }

    // A record behind the values of a case.
    #[tactic(auto, unfolding(crate::specs::defs::CertificateFormat::after_beta))]
    fn read_after_beta(
        &mut self,
        instance: &Instance,
        alloc: Global,
        n: u32,
        row: &Row,
    ) -> Result<(), ReadError>
        ensures { Gives (λ _. self.new) result
            (answer n (after_beta instance.now self.old row.now)) }
    {
        let word = row.word();
        if word == b"price".as_slice() {
            return self.read_price(instance, n, row);
        }
        if word == b"part".as_slice() {
            return self.read_part(instance, n, row);
        }
        self.read_after_case(instance, alloc, n, row)
    }

    // A record behind a node with duals of its own.
    #[tactic(auto, unfolding(crate::specs::defs::CertificateFormat::after_new))]
    fn read_after_new(
        &mut self,
        instance: &Instance,
        alloc: Global,
        n: u32,
        row: &Row,
    ) -> Result<(), ReadError>
        ensures { Gives (λ _. self.new) result
            (answer n (after_new instance.now self.old row.now)) }
    {
        let word = row.word();
        if word == b"case".as_slice() {
            return self.read_first_case(alloc, n, row);
        }
        if word == b"alpha".as_slice() {
            return self.read_lone_alpha(instance, alloc, n, row);
        }
        Err(fault(n, RowKind::Kind))
    }
}

// What the last record says behind that many nodes: a cost and a bound.
#[tactic(auto, unfolding(crate::specs::defs::CertificateFormat::end_in))]
fn read_end(begun: u32, row: &Row, n: u32) -> Result<(u64, u64), RowFault>
    ensures { result ≡ answer n (end_in begun row.now) }
{
    fields_in(row, n, 4, 4)?;
    let cost = number_in(row, n, 2, 0, 1_000_000_000_000)?;
    let bound = number_in(row, n, 3, 0, 1_000_000_000_000)?;
    let nodes = found(parse_decimal(row.field(4)), n, 4, RowKind::Number)?;
    must(nodes == begun as u64, n, 4, RowKind::Limit)?;
    Ok((cost, bound))
}

fn node_of(head: Head, duals: NodeDuals) -> Node
    ensures { result ≡ node_of head duals }
{
    Node {
        depth: head.depth,
        choice: head.choice,
        kind: head.kind,
        duals,
    }
}

impl<'r> FormatReader<'r> for CertificateDraft {
    type Context = Instance;

    type Output = Certificate;

    ghost format = { λ night. certificate_format night };

    ghost suits = { λ _. Unit };

    #[tactic(auto, unfolding(crate::specs::defs::CertificateFormat::first_of))]
    fn read_first(
        _: &'r Instance,
        alloc: Global,
        row: &'r Row,
    ) -> Result<CertificateDraft, ReadError> {
        let version = read_version(row)?;
        Ok(CertificateDraft {
            version,
            nodes: Vec::new(alloc),
            begun: 0,
            cases: 0,
            place: LastRead::Start,
            head: Head {
                depth: 0,
                choice: None,
                kind: NodeKind::Whole,
                duals: HeadDuals::Bare,
            },
            before: None,
            to: 0,
            multiplier: 0,
            alpha: Items::from_vec(Vec::new(alloc)),
            beta: Items::from_vec(Vec::new(alloc)),
            prices: Vec::new(alloc),
            cost: 0,
            bound: 0,
        })
    }

    #[tactic(auto, unfolding(crate::specs::defs::CertificateFormat::later_of))]
    fn read_later(
        &mut self,
        instance: &'r Instance,
        alloc: Global,
        n: u32,
        row: &'r Row,
    ) -> Result<(), ReadError> {
        let word = row.word();
        match self.place {
            LastRead::Start if word == b"node".as_slice() => self.read_root(alloc, n, row),
            LastRead::Node => self.read_after_node(instance, alloc, n, row),
            LastRead::New => self.read_after_new(instance, alloc, n, row),
            LastRead::Case if word == b"alpha".as_slice() => self.read_alpha(
                instance, alloc, n, row,
            ),
            LastRead::Alpha if word == b"beta".as_slice() => self.read_beta(
                instance, alloc, n, row,
            ),
            LastRead::Beta => self.read_after_beta(instance, alloc, n, row),
            LastRead::End => Err(fault(n, RowKind::Tail)),
            _ => Err(fault(n, RowKind::Kind)),
        }
    }

    fn is_whole(&self, _: &'r Instance) -> bool {
        is_end(self.place)
    }

    fn into_output(self, _: &'r Instance) -> Certificate {
        Certificate {
            version: self.version,
            nodes: Items::from_vec(self.nodes),
            cost: self.cost,
            bound: self.bound,
        }
    }
}

// A fault of the record's word.
fn fault(n: u32, kind: RowKind) -> ReadError
    ensures { result ≡ errors.Fault (record { row = n; field = 1; kind = kind }) }
{
    ReadError::Fault(RowFault {
        row: n,
        field: 1,
        kind,
    })
}

fn is_end(place: LastRead) -> bool
    ensures { result ≡ ended place }
{
    match place {
        LastRead::End => true,
        _ => false,
    }
}

/// The certificate that the records state, which a file can state, or exactly their first fault.
///
/// `Fault` is the least fault by record, then field, then kind; `Memory` is want of memory.
pub fn read_certificate(
    alloc: Global,
    instance: &Instance,
    rows: &Vec<Row>,
) -> Result<Certificate, ReadError>
    ensures stated { Gives (λ c. c) result
        (reading (certificate_format instance.now) rows.now.items) }
    ensures in_range { IfOk result (IsCertificate instance.now) }
{
    read::<CertificateDraft>(instance, alloc, rows)
}
