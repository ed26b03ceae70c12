// Numbers, minutes and names as texts spell them, and records as texts have them.
use crate::files::{field, word};
use shunt_base::{Minute, is_name, minute_bytes, parse_decimal, parse_minute, parse_signed};
use shunt_rows::{Row, records};
use std::alloc::{AllocError, Global};

/// What a text is read as.
#[derive(Clone, Copy, Drop)]
enum Kind {
    Decimal,
    Signed,
    Minute,
    Clock,
    Name,
}

fn kind_of(word: &str) -> Option<Kind> {
    match word {
        "decimal" => Some(Kind::Decimal),
        "signed" => Some(Kind::Signed),
        "minute" => Some(Kind::Minute),
        "clock" => Some(Kind::Clock),
        "name" => Some(Kind::Name),
        _ => None,
    }
}

// The number of a text in digits.
fn decimal(alloc: Global, text: &[u8]) -> Result<String, AllocError> {
    match parse_decimal(text) {
        Some(n) => format!(in alloc; "{n}"),
        None => String::from_str(alloc, "none"),
    }
}

fn signed(alloc: Global, text: &[u8]) -> Result<String, AllocError> {
    match parse_signed(text) {
        Some(n) => format!(in alloc; "{n}"),
        None => String::from_str(alloc, "none"),
    }
}

// The minute that hours and minutes name.
fn minute(alloc: Global, text: &[u8]) -> Result<String, AllocError> {
    let Some(minute) = parse_minute(text) else {
        return String::from_str(alloc, "none");
    };
    let n = minute.number();
    format!(in alloc; "{n}")
}

// The minute with a number.
fn minute_of(text: &[u8]) -> Option<Minute> {
    let n = parse_decimal(text)?;
    Minute::new(u16::try_from(n).ok()?)
}

// How a minute is written.
fn clock(alloc: Global, text: &[u8]) -> Result<String, AllocError> {
    let Some(minute) = minute_of(text) else {
        return String::from_str(alloc, "none");
    };
    let bytes = minute_bytes(minute);
    String::from_str(alloc, std::str::from_utf8(bytes.as_slice()).unwrap_or(""))
}

fn name(alloc: Global, text: &[u8]) -> Result<String, AllocError> {
    String::from_str(alloc, if is_name(text) { "name" } else { "none" })
}

fn read(alloc: Global, kind: Kind, text: &[u8]) -> Result<String, AllocError> {
    match kind {
        Kind::Decimal => decimal(alloc, text),
        Kind::Signed => signed(alloc, text),
        Kind::Minute => minute(alloc, text),
        Kind::Clock => clock(alloc, text),
        Kind::Name => name(alloc, text),
    }
}

/// A record is a kind, a text, and what is read from it.
pub(crate) fn is_spelled(alloc: Global, row: &Row) -> Option<bool> {
    let kind = kind_of(word(row, 1))?;
    let value = read(alloc, kind, field(row, 2)).ok()?;
    Some(value.as_bytes() == field(row, 3))
}

// Adds the fields of a record with `|` between them, and `/` behind the last one.
fn push_fields(text: &mut Vec<u8>, row: &Row) -> Result<(), AllocError> {
    for k in 1..row.len() {
        text.extend_from_slice(field(row, k))?;
        text.push(b'|')?;
    }
    text.extend_from_slice(field(row, row.len()))?;
    text.push(b'/')?;
    Ok(())
}

fn shown(alloc: Global, text: &[u8]) -> Result<Vec<u8>, AllocError> {
    let mut all = Vec::new(alloc);
    for row in records(alloc, text)? {
        push_fields(&mut all, &row)?;
    }
    Ok(all)
}

/// A record is a text, and the records that it has: their fields with `|` between them and `/` behind the last one.
pub(crate) fn is_taken_apart(alloc: Global, row: &Row) -> Option<bool> {
    let found = shown(alloc, field(row, 1)).ok()?;
    Some(found.as_slice() == field(row, 2))
}
