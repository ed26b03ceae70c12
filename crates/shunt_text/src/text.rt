// A text that is put together piece by piece.
ghost use Rattle.std.specs.Prelude.{◌≡◌, [], ◌++◌, OnOk, decimal};
ghost use Rattle.std.specs.Fmt.{signed_decimal};
ghost use Rattle.shunt_base.specs.defs.Spelling.{minute_text};

use itoa::Buffer;
use shunt_base::{Minute, minute_bytes};
use std::alloc::{AllocError, Global};
use std::marker::Model;

/// A text so far.
#[derive(Debug, Drop)]
pub struct Text {
    bytes: Vec<u8>,
}

impl Model for Text {
    ghost use Rattle.std.specs.Prelude.{List, ℕ};

    ghost Value = { List ℕ };

    ghost view = { λ t. t.bytes.items };
}

impl Text {
    /// The empty text.
    pub fn new(alloc: Global) -> Text
        ensures { result ≡ [] }
    {
        Text {
            bytes: Vec::new(alloc),
        }
    }

    /// Appends these bytes.
    pub fn push(&mut self, bytes: &[u8]) -> Result<(), AllocError>
        ensures { OnOk result (self.new ≡ self.old ++ bytes.now) }
    {
        self.bytes.extend_from_slice(bytes)?;
        Ok(())
    }

    /// Appends a number in plain decimals.
    pub fn push_number(&mut self, number: u64) -> Result<(), AllocError>
        ensures { OnOk result (self.new ≡ self.old ++ decimal number) }
    {
        let mut digits = Buffer::new();
        self.bytes
            .extend_from_slice(digits.format(number).as_bytes())?;
        Ok(())
    }

    /// Appends a number that may be below 0 in plain decimals.
    pub fn push_signed(&mut self, number: i64) -> Result<(), AllocError>
        ensures { OnOk result (self.new ≡ self.old ++ signed_decimal number) }
    {
        let mut digits = Buffer::new();
        self.bytes
            .extend_from_slice(digits.format(number).as_bytes())?;
        Ok(())
    }

    /// Appends a minute as `HH:MM`.
    pub fn push_minute(&mut self, minute: Minute) -> Result<(), AllocError>
        ensures { OnOk result (self.new ≡ self.old ++ minute_text minute) }
    {
        self.bytes.extend_from_slice(&minute_bytes(minute))?;
        Ok(())
    }

    /// All that was appended.
    pub fn into_bytes(self) -> Vec<u8>
        ensures { result.items ≡ self }
    {
        self.bytes
    }
}
