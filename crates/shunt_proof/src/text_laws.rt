//! What follows from the format of certificates.
ghost use Rattle.std.specs.Prelude.{◌≡◌, ◌-◌, ◌<◌, List, ℕ, Ok, Option, Some, length, slice_get};
ghost use Rattle.shunt_rows.specs.defs.Formats.{reading};
ghost use Rattle.shunt_rows.specs.defs.FirstFault.{Tells};
ghost use Rattle.shunt_rows.specs.defs.Records.{text_of_rows};
ghost use Rattle.shunt_instance.specs.defs.Instance.{Night, IsInstance};
ghost use Rattle.shunt_proof.specs.declared.records.Certificate.{Certificate};
ghost use Rattle.shunt_proof.specs.declared.records.Node.{Node};
ghost use Rattle.shunt_proof.specs.declared.records.Version.{Version};
ghost use Rattle.shunt_proof.specs.defs.Nodes.{node_at};
ghost use Rattle.shunt_proof.specs.defs.TextRecorders.{nodes_told, IsTextOf, EndFits};
ghost use Rattle.shunt_proof.specs.defs.Certificates.{IsCertificate};
ghost use Rattle.shunt_proof.specs.defs.CertificateFormat.{certificate_format};
ghost use Rattle.shunt_proof.specs.defs.CertificateRows.{node_row, rows_of, row_of};
ghost use Rattle.shunt_proof.specs.defs.CertificateRows.{ReadsAsCertificate};

/// In each night, records state a certificate or have a first fault, and never both, and reading them says which.
pub fn certificate_or_first_fault()
    ensures { (night : Night) (rows : List (List (List ℕ)))
        → Tells (certificate_format night) rows }
{}

/// The certificate that records state is one that a file can state.
pub fn stated_certificates_can_be_stated()
    ensures { (night : Night) (rows : List (List (List ℕ))) (c : Certificate)
        → reading (certificate_format night) rows ≡ Ok c → IsCertificate night c }
{}

/// The records of a certificate that a file can state do state it, and its text reads back as it.
pub fn texts_of_certificates()
    ensures rows { (night : Night) (c : Certificate) → IsInstance night → IsCertificate night c
        → reading (certificate_format night) (rows_of night c) ≡ Ok c }
    ensures again { (night : Night) (c : Certificate) → IsInstance night → IsCertificate night c
        → ReadsAsCertificate night c (text_of_rows (rows_of night c)) }
{}

/// The record with the number of a node is that node's.
pub fn records_of_nodes()
    ensures { (night : Night) (c : Certificate) (k : ℕ) → k < length c.nodes → slice_get
        (rows_of night c) (row_of c.nodes k - 1) ≡ Some (node_row night (node_at c.nodes k)) }
{}

/// The nodes that a file tells are those whose text it holds behind the first record and, where a cost and a bound were stated,
/// before the last one; and no other list of nodes that a file can state has this text.
pub fn nodes_of_files()
    ensures written { (version : Version) (night : Night) (end : Option (ℕ × ℕ)) (count cases : ℕ)
        (bytes : List ℕ) (nodes : List Node) → nodes_told version night end count cases bytes
        ≡ Some nodes → IsTextOf version night end count cases bytes nodes }
    ensures told { (version : Version) (night : Night) (end : Option (ℕ × ℕ)) (count cases : ℕ)
        (bytes : List ℕ) (nodes : List Node) → IsInstance night → EndFits end count
        → IsTextOf version night end count cases bytes nodes
        → nodes_told version night end count cases bytes ≡ Some nodes }
{}
