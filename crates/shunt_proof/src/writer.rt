// From a certificate to its text.
ghost use Rattle.std.specs.Prelude.{◌≡◌, ◌≢◌, ◌≤◌, ◌<◌, ◌++◌, [], ◌∷◌, All, map, length, IfOk};
ghost use Rattle.std.specs.Prelude.{OnOk};
ghost use Rattle.std.specs.List.{flat_map};
ghost use Rattle.std.specs.Fmt.{signed_decimal};
ghost use Rattle.shunt_rows.specs.defs.Records.{text_of_row, text_of_rows};
ghost use Rattle.shunt_prices.specs.defs.Limits.{IsPrice, IsCase, AreDuals, AreCases};
ghost use Rattle.shunt_proof.specs.defs.Nodes.{FitsChoice, FitsDepth, FitDuals, FitsNode};
ghost use Rattle.shunt_proof.specs.defs.Certificates.{IsCertificate};
ghost use Rattle.shunt_proof.specs.defs.CertificateRows.{kind_text, duals_text, choice_fields};
ghost use Rattle.shunt_proof.specs.defs.CertificateRows.{node_row, case_row, alpha_row, beta_row};
ghost use Rattle.shunt_proof.specs.defs.CertificateRows.{price_row, duals_rows, case_rows};
ghost use Rattle.shunt_proof.specs.defs.CertificateRows.{is_plain, cases_rows, own_rows, node_rows};
ghost use Rattle.shunt_proof.specs.defs.CertificateRows.{head_row, end_row, rows_of};
ghost use Rattle.shunt_proof.specs.defs.CertificateRows.{ReadsAsCertificate};

use crate::records::{Certificate, Choice, Node, NodeDuals, NodeKind, Version};
use crate::versions::number_of;
use shunt_base::{Case, Cases, Duals, Price, PriceKind};
use shunt_instance::Instance;
use shunt_plan::{arr_name, dep_name, track_name, write_option};
use shunt_rows::RowWriter;
use std::alloc::{AllocError, Global};

// Adds a signed number as a field of the open row.
fn write_signed(writer: &mut RowWriter, alloc: Global, number: i64) -> Result<(), AllocError>
    ensures { OnOk result
        (writer.new ≡ record writer.old { row = writer.old.row ++ signed_decimal number ∷ [] }) }
{
    let text = format!(in alloc; "{number}")?;
    writer.field(text.as_bytes())
}

// Adds signed numbers as fields of the open row.
fn write_values(writer: &mut RowWriter, alloc: Global, values: &[i64]) -> Result<(), AllocError>
    ensures { OnOk result
        (writer.new ≡ record writer.old { row = writer.old.row ++ map signed_decimal values.now }) }
{
    'values: for value in values {
        write_signed(writer, alloc, *value)?;
    }
    Ok(())
}

fn write_alpha(writer: &mut RowWriter, alloc: Global, duals: &Duals) -> Result<(), AllocError>
    requires { writer.old.row ≡ [] }
    ensures { OnOk result (writer.new
        ≡ record { text = writer.old.text ++ text_of_row (alpha_row duals.now); row = [] }) }
{
    writer.field(b"alpha")?;
    write_values(writer, alloc, duals.alpha.as_slice())?;
    writer.end_row()
}

fn write_beta(writer: &mut RowWriter, alloc: Global, duals: &Duals) -> Result<(), AllocError>
    requires { writer.old.row ≡ [] }
    ensures { OnOk result (writer.new
        ≡ record { text = writer.old.text ++ text_of_row (beta_row duals.now); row = [] }) }
{
    writer.field(b"beta")?;
    write_values(writer, alloc, duals.beta.as_slice())?;
    writer.end_row()
}

fn write_price(writer: &mut RowWriter, instance: &Instance, price: Price) -> Result<(), AllocError>
    requires open_row { writer.old.row ≡ [] }
    requires price { IsPrice instance.now price }
    ensures { OnOk result (writer.new
        ≡ record { text = writer.old.text ++ text_of_row (price_row instance.now price); row = [] }) }
{
    match price.kind {
        PriceKind::Length => {
            writer.field(b"price")?;
            writer.field(track_name(instance, price.track))?;
            writer.field(arr_name(instance, price.train))?;
        }
        PriceKind::Parts(parts) => {
            writer.field(b"part")?;
            writer.field(track_name(instance, price.track))?;
            writer.field(arr_name(instance, price.train))?;
            writer.number(parts as u64)?;
        }
    }
    writer.number(price.value)?;
    writer.end_row()
}

fn write_prices(
    writer: &mut RowWriter,
    instance: &Instance,
    prices: &[Price],
) -> Result<(), AllocError>
    requires open_row { writer.old.row ≡ [] }
    requires prices { All (IsPrice instance.now) prices.now }
    ensures { OnOk result (writer.new
        ≡ record {
          text = writer.old.text ++ text_of_rows (map (price_row instance.now) prices.now);
          row = [];
        }) }
{
    'prices: for price in prices {
        write_price(writer, instance, *price)?;
    }
    Ok(())
}

// The records of a case behind its limits.
fn write_duals(
    writer: &mut RowWriter,
    alloc: Global,
    instance: &Instance,
    duals: &Duals,
) -> Result<(), AllocError>
    requires open_row { writer.old.row ≡ [] }
    requires duals { AreDuals instance.now duals.now }
    ensures { OnOk result (writer.new
        ≡ record {
          text = writer.old.text ++ text_of_rows (duals_rows instance.now duals.now);
          row = [];
        }) }
{
    write_alpha(writer, alloc, duals)?;
    write_beta(writer, alloc, duals)?;
    write_prices(writer, instance, duals.prices.as_slice())
}

fn write_limits(writer: &mut RowWriter, alloc: Global, case: &Case) -> Result<(), AllocError>
    requires { writer.old.row ≡ [] }
    ensures { OnOk result (writer.new
        ≡ record { text = writer.old.text ++ text_of_row (case_row case.now); row = [] }) }
{
    writer.field(b"case")?;
    writer.number(case.to as u64)?;
    write_signed(writer, alloc, case.multiplier)?;
    writer.end_row()
}

// The records of a case that doesn't begin with `alpha`.
fn write_case(
    writer: &mut RowWriter,
    alloc: Global,
    instance: &Instance,
    case: &Case,
) -> Result<(), AllocError>
    requires open_row { writer.old.row ≡ [] }
    requires case { IsCase instance.now case.now }
    ensures { OnOk result (writer.new
        ≡ record {
          text = writer.old.text ++ text_of_rows (case_rows instance.now case.now);
          row = [];
        }) }
{
    write_limits(writer, alloc, case)?;
    write_duals(writer, alloc, instance, &case.duals)
}

// The records of the only case of a node.
fn write_only_case(
    writer: &mut RowWriter,
    alloc: Global,
    instance: &Instance,
    case: &Case,
) -> Result<(), AllocError>
    requires open_row { writer.old.row ≡ [] }
    requires case { IsCase instance.now case.now }
    ensures { OnOk result (writer.new
        ≡ record {
          text = writer.old.text ++ text_of_rows (cases_rows instance.now (case.now ∷ []));
          row = [];
        }) }
{
    if case.to == 160 && case.multiplier == 0 {
        return write_duals(writer, alloc, instance, &case.duals);
    }
    write_case(writer, alloc, instance, case)
}

fn write_cases(
    writer: &mut RowWriter,
    alloc: Global,
    instance: &Instance,
    cases: &Cases,
) -> Result<(), AllocError>
    requires open_row { writer.old.row ≡ [] }
    requires cases { AreCases instance.now cases.now }
    ensures { OnOk result (writer.new
        ≡ record {
          text = writer.old.text ++ text_of_rows (cases_rows instance.now cases.now);
          row = [];
        }) }
{
    if cases.len() == 1 {
        return write_only_case(writer, alloc, instance, cases.get(0));
    }
    write_case(writer, alloc, instance, cases.get(0))?;
    write_case(writer, alloc, instance, cases.get(1))
}

// Adds the words of a node to the open row.
fn write_kind(writer: &mut RowWriter, kind: NodeKind) -> Result<(), AllocError>
    ensures { OnOk result
        (writer.new ≡ record writer.old { row = writer.old.row ++ kind_text kind ∷ [] }) }
{
    match kind {
        NodeKind::Branch => writer.field(b"branch"),
        NodeKind::Leaf => writer.field(b"leaf"),
        NodeKind::Whole => writer.field(b"whole"),
    }
}

fn write_word(writer: &mut RowWriter, duals: &NodeDuals) -> Result<(), AllocError>
    ensures { OnOk result
        (writer.new ≡ record writer.old { row = writer.old.row ++ duals_text duals.now ∷ [] }) }
{
    match duals {
        NodeDuals::Same => writer.field(b"same"),
        NodeDuals::New(_) => writer.field(b"new"),
        NodeDuals::Bare => writer.field(b"none"),
    }
}

// Adds the fields of a choice to the open row.
fn write_choice(
    writer: &mut RowWriter,
    instance: &Instance,
    choice: Choice,
) -> Result<(), AllocError>
    requires { FitsChoice instance.now choice }
    ensures { OnOk result (writer.new
        ≡ record writer.old { row = writer.old.row ++ choice_fields instance.now (Some choice) }) }
{
    writer.number(choice.n as u64)?;
    writer.field(dep_name(instance, choice.dep))?;
    writer.number(choice.q as u64)?;
    write_option(writer, instance, choice.park)
}

// The record of a node alone.
fn write_head(writer: &mut RowWriter, instance: &Instance, node: &Node) -> Result<(), AllocError>
    requires open_row { writer.old.row ≡ [] }
    requires choice { FitsDepth instance.now node.now.depth node.now.choice }
    ensures { OnOk result (writer.new
        ≡ record { text = writer.old.text ++ text_of_row (node_row instance.now node.now); row = [] }) }
{
    writer.field(b"node")?;
    writer.number(node.depth as u64)?;
    write_kind(writer, node.kind)?;
    write_word(writer, &node.duals)?;
    if let Some(choice) = node.choice {
        write_choice(writer, instance, choice)?;
    }
    writer.end_row()
}

/// Writes the records of a node that a file can state, which is told from its values alone. The error is want of memory.
pub(crate) fn write_node(
    writer: &mut RowWriter,
    alloc: Global,
    instance: &Instance,
    node: &Node,
) -> Result<(), AllocError>
    requires open_row { writer.old.row ≡ [] }
    requires node { FitsNode instance.now node.now }
    ensures { OnOk result (writer.new
        ≡ record {
          text = writer.old.text ++ text_of_rows (node_rows instance.now node.now);
          row = [];
        }) }
{
    write_head(writer, instance, node)?;
    if let NodeDuals::New(cases) = &node.duals {
        write_cases(writer, alloc, instance, cases)?;
    }
    Ok(())
}

fn write_nodes(
    writer: &mut RowWriter,
    alloc: Global,
    instance: &Instance,
    nodes: &[Node],
) -> Result<(), AllocError>
    requires open_row { writer.old.row ≡ [] }
    requires nodes { All (FitsNode instance.now) nodes.now }
    ensures { OnOk result (writer.new
        ≡ record {
          text = writer.old.text ++ text_of_rows (flat_map (node_rows instance.now) nodes.now);
          row = [];
        }) }
{
    'nodes: for node in nodes {
        write_node(writer, alloc, instance, node)?;
    }
    Ok(())
}

pub(crate) fn write_first(writer: &mut RowWriter, version: Version) -> Result<(), AllocError>
    requires { writer.old.row ≡ [] }
    ensures { OnOk result (writer.new
        ≡ record { text = writer.old.text ++ text_of_row (head_row version); row = [] }) }
{
    writer.field(b"certificate")?;
    writer.number(number_of(version))?;
    writer.end_row()
}

pub(crate) fn write_end(
    writer: &mut RowWriter,
    cost: u64,
    bound: u64,
    nodes: u64,
) -> Result<(), AllocError>
    requires { writer.old.row ≡ [] }
    ensures { OnOk result (writer.new
        ≡ record { text = writer.old.text ++ text_of_row (end_row cost bound nodes); row = [] }) }
{
    writer.field(b"end")?;
    writer.number(cost)?;
    writer.number(bound)?;
    writer.number(nodes)?;
    writer.end_row()
}

// A writer that has written the certificate.
fn written(
    alloc: Global,
    instance: &Instance,
    certificate: &Certificate,
) -> Result<RowWriter, AllocError>
    requires { All (FitsNode instance.now) certificate.now.nodes }
    ensures { IfOk result
        (λ w. w ≡ record { text = text_of_rows (rows_of instance.now certificate.now); row = [] }) }
{
    let mut writer = RowWriter::new(alloc)?;
    write_first(&mut writer, certificate.version)?;
    write_nodes(&mut writer, alloc, instance, certificate.nodes.as_slice())?;
    write_end(
        &mut writer,
        certificate.cost,
        certificate.bound,
        certificate.nodes.len() as u64,
    )?;
    Ok(writer)
}

/// The text of a certificate that a file can state: its nodes in their order, each with its own cases.
///
/// It reads back as the same certificate, and has at most 63,076,051 bytes. The error is want of memory.
pub fn write_certificate(
    alloc: Global,
    instance: &Instance,
    certificate: &Certificate,
) -> Result<Vec<u8>, AllocError>
    requires { IsCertificate instance.now certificate.now }
    ensures text { IfOk result
        (λ v. v.items ≡ text_of_rows (rows_of instance.now certificate.now)) }
    ensures again { IfOk result (λ v. ReadsAsCertificate instance.now certificate.now v.items) }
    ensures short { IfOk result (λ v. length v.items ≤ 63076051) }
{
    // The call tells that the night is well formed, so that its names are plain and distinct.
    instance.station();
    written(alloc, instance, certificate)?.finish()
}
