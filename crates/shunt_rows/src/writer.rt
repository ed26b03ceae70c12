// The text of records.
ghost use Rattle.std.specs.Prelude.{◌≡◌, ◌≢◌, [], ◌∷◌, ◌++◌, IfOk, OnOk};
ghost use Rattle.std.specs.Fmt.{decimal};
ghost use Rattle.csv.specs.Records.{fields_of};
ghost use Rattle.shunt_rows.specs.defs.Records.{text_of_row, ReadsBack};
ghost use Rattle.shunt_rows.specs.defs.Rows.{IsAtRow, rows_text};
ghost use Rattle.shunt_rows.specs.defs.Written.{Written, move_word, side_text};

use csv::{ByteRecord, Writer, WriterBuilder};
use shunt_base::Side;
use std::alloc::{AllocError, Global};
use std::fmt::{self, Debug, Formatter, Write};
use std::marker::Model;

// A writer of rows of any lengths, before its first.
fn no_rows(alloc: Global) -> Writer<Vec<u8>>
    ensures text { rows_text result ≡ [] }
    ensures at_row { IsAtRow result }
{
    WriterBuilder::new()
        .flexible(true)
        .from_writer(Vec::new(alloc))
}

// Writes a row behind those that were written, or begins anew where there is no memory.
#[tactic(auto, using(crate::proofs::Flexible::one_more))]
fn write_row(alloc: Global, rows: &mut Writer<Vec<u8>>, row: &ByteRecord) -> Result<(), AllocError>
    requires { IsAtRow rows.old }
    ensures text { OnOk result
        (rows_text rows.new ≡ rows_text rows.old ++ text_of_row (fields_of row.now)) }
    ensures at_row { IsAtRow rows.new }
{
    if rows.write_byte_record(row).is_err() {
        *rows = no_rows(alloc);
        return Err(AllocError);
    }
    Ok(())
}

/// Writes records one after the other, as `csv` does; seen as the text of the rows that were ended, and the open row.
///
/// After an error it may have lost its rows, and is to be dropped.
#[derive(Drop)]
pub struct RowWriter {
    alloc: Global,
    rows: Writer<Vec<u8>>,
    row: ByteRecord,
}

impl Model for RowWriter {
    ghost use Rattle.std.specs.Prelude.{◌≡◌, []};
    ghost use Rattle.csv.specs.Records.{fields_of, partial_of};
    ghost use Rattle.shunt_rows.specs.defs.Rows.{IsAtRow, rows_text};
    ghost use Rattle.shunt_rows.specs.defs.Written.{Written};

    ghost Value = { Written };

    ghost view = { λ w. record { text = rows_text w.rows; row = fields_of w.row } };

    ghost invariant = { λ w. (partial_of w.row ≡ []) × IsAtRow w.rows };
}

impl Debug for RowWriter {
    fn fmt<W: Write>(&self, f: &mut Formatter<W>) -> fmt::Result {
        f.debug_struct("RowWriter")
            .field("row", &self.row)
            .finish_non_exhaustive()
    }
}

impl RowWriter {
    /// No rows, and an open row without fields.
    pub fn new(alloc: Global) -> Result<RowWriter, AllocError>
        ensures { IfOk result (λ w. w ≡ record { text = []; row = [] }) }
    {
        Ok(RowWriter {
            alloc,
            rows: no_rows(alloc),
            row: ByteRecord::new(alloc),
        })
    }

    /// Adds a field to the open row.
    pub fn field(&mut self, bytes: &[u8]) -> Result<(), AllocError>
        ensures { OnOk result
            (self.new ≡ record self.old { row = self.old.row ++ bytes.now ∷ [] }) }
    {
        if self.row.push_field(bytes).is_err() {
            self.row = ByteRecord::new(self.alloc);
            return Err(AllocError);
        }
        Ok(())
    }

    /// Adds a number as a field of the open row, in plain decimals.
    pub fn number(&mut self, number: u64) -> Result<(), AllocError>
        ensures { OnOk result
            (self.new ≡ record self.old { row = self.old.row ++ decimal number ∷ [] }) }
    {
        let text = format!(in self.alloc; "{number}")?;
        self.field(text.as_bytes())
    }

    /// Adds a side as a field of the open row: `A` or `B`.
    pub fn side(&mut self, side: Side) -> Result<(), AllocError>
        ensures { OnOk result
            (self.new ≡ record self.old { row = self.old.row ++ side_text side ∷ [] }) }
    {
        match side {
            Side::A => self.field(b"A"),
            Side::B => self.field(b"B"),
        }
    }

    /// Adds the word of an entry or a leave as a field of the open row: `enter` or `leave`.
    pub fn move_word(&mut self, enters: bool) -> Result<(), AllocError>
        ensures { OnOk result
            (self.new ≡ record self.old { row = self.old.row ++ move_word enters ∷ [] }) }
    {
        if enters {
            self.field(b"enter")
        } else {
            self.field(b"leave")
        }
    }

    /// Ends the open row, which has a field.
    pub fn end_row(&mut self) -> Result<(), AllocError>
        requires { self.old.row ≢ [] }
        ensures { OnOk result
            (self.new ≡ record { text = self.old.text ++ text_of_row self.old.row; row = [] }) }
    {
        write_row(self.alloc, &mut self.rows, &self.row)?;
        self.row.clear();
        Ok(())
    }

    /// The text of the rows. If they are plain, `records` reads them back.
    #[tactic(auto, using(crate::proofs::Again::again))]
    pub fn finish(self) -> Result<Vec<u8>, AllocError>
        requires { self.row ≡ [] }
        ensures text { IfOk result (λ v. v.items ≡ self.text) }
        ensures again { IfOk result (λ v. ReadsBack self.text v.items) }
    {
        self.rows.into_inner().map_err(|_| AllocError)
    }
}
