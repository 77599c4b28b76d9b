//! Tables that are spelled by records of comma-separated fields.

ghost use Rattle.std.specs.Prelude.{◌⊎◌, ◌≡◌, ◌∷◌, ◌++◌, [], ℕ, List, Some, false, All, length, IfErr, IfOk, OnOk, string_bytes};
ghost use Rattle.csv.specs.Reading.{source_of};
ghost use Rattle.csv.specs.Records.{fields_of};
ghost use Rattle.ndtables.specs.Records.{ForbidsRecords, HasRows, IsPlain, SpellsRecords, TakesRecords, fields_in, rows_of, spaced};
ghost use Rattle.ndtables.specs.Spelling.{IsCellWord};
ghost use Rattle.ndtables.specs.Words.{words_of};

use crate::fault::Fault;
use crate::printing::push_shape;
use crate::spelling::cell;
use csv::{ByteRecord, Reader, ReaderBuilder};
use std::alloc::Global;
use std::str;

/// The words of the table that a text of records is: a shape word, and the fields of the rows. The first record is no row where that is
/// a header.
///
/// The fault is `shape` where a record has not as many fields as the first, `number` where a field of a row spells no cell, and `memory`.
pub fn table_words(alloc: Global, csv: &str, below_header: bool) -> Result<String, Fault>
    ensures words { IfOk result (λ text. SpellsRecords below_header csv.now (words_of (string_bytes text))) }
    ensures err { IfErr result (ForbidsRecords below_header csv.now) }
{
    let (rows, columns, mut text) = fields(alloc, csv, below_header)?;
    let mut shape = String::new(alloc);
    push_shape(&mut shape, &[rows, columns])?;
    shape.push(' ')?;
    text.insert_str(0, shape.as_str())?;
    Ok(text)
}

/// How many rows and columns the table of a text of records has, and its fields, each before a blank.
fn fields(alloc: Global, csv: &str, below_header: bool) -> Result<(usize, usize, String), Fault>
    ensures taken { IfOk result (λ t. TakesRecords below_header csv.now t.0 t.1 (string_bytes t.2)) }
    ensures err { IfErr result (ForbidsRecords below_header csv.now) }
{
    let mut text = String::with_capacity(alloc, csv.len())?;
    let mut fields = ByteRecord::new(alloc);
    let mut reader = ReaderBuilder::new()
        .has_headers(false)
        .flexible(true)
        .from_reader(alloc, csv.as_bytes());
    let Ok(found) = reader.read_byte_record(&mut fields) else {
        return Err(Fault::Memory);
    };
    if !found {
        return Ok((0, 0, text));
    }
    let columns = fields.len();
    let first = push_first(&mut text, &fields, below_header)?;
    let below = push_rows(alloc, &mut text, reader, columns)?;
    let Some(rows) = below.checked_add(first) else {
        return Err(Fault::Memory);
    };
    Ok((rows, columns, text))
}

/// Appends the fields of the first record, unless it is a header, and returns how many rows it is.
fn push_first(text: &mut String, fields: &ByteRecord, is_header: bool) -> Result<usize, Fault>
    ensures rows { IfOk result (λ n. n ≡ length (rows_of is_header (fields_of fields.now ∷ []))) }
    ensures cells { OnOk result (All IsCellWord (fields_in is_header (fields_of fields.now ∷ []))) }
    ensures text { OnOk result (string_bytes text.new ≡ string_bytes text.old ++ spaced (fields_in is_header (fields_of fields.now ∷ []))) }
    ensures err { IfErr result (λ fault. (fault ≡ Fault.Memory) ⊎ (All IsCellWord (fields_in is_header (fields_of fields.now ∷ [])) → ⊥)) }
{
    if is_header {
        return Ok(0);
    }
    push_fields(text, fields)?;
    Ok(1)
}

/// Appends the fields of the records that a reader has left, and returns how many records these are.
fn push_rows(
    alloc: Global,
    text: &mut String,
    mut reader: Reader<&[u8]>,
    columns: usize,
) -> Result<usize, Fault>
    requires plain { IsPlain reader }
    requires known { (bytes : List ℕ) × (source_of (λ s. Some s.now) reader ≡ Some bytes) }
    ensures rows { IfOk result (λ n. (records : List (List (List ℕ))) × HasRows reader.entry columns records × (length records ≡ n) × (string_bytes text.new ≡ string_bytes text.old ++ spaced (fields_in false records))) }
    ensures err { IfErr result (λ fault. (fault ≡ Fault.Memory) ⊎ ((records : List (List (List ℕ))) → HasRows reader.entry columns records → ⊥)) }
{
    let mut fields = ByteRecord::new(alloc);
    for count in 0..usize::MAX {
        let Ok(found) = reader.read_byte_record(&mut fields) else {
            return Err(Fault::Memory);
        };
        if !found {
            return Ok(count);
        }
        if fields.len() != columns {
            return Err(Fault::Shape);
        }
        push_fields(text, &fields)?;
    }
    Err(Fault::Memory)
}

/// Appends the fields of a record, each before a blank. The fault is `number` where a field spells no cell.
fn push_fields(text: &mut String, fields: &ByteRecord) -> Result<(), Fault>
    ensures cells { OnOk result (All IsCellWord (fields_of fields.now)) }
    ensures text { OnOk result (string_bytes text.new ≡ string_bytes text.old ++ spaced (fields_of fields.now)) }
    ensures err { IfErr result (λ fault. (fault ≡ Fault.Memory) ⊎ (All IsCellWord (fields_of fields.now) → ⊥)) }
{
    for field in fields.iter() {
        let Ok(word) = cell_word(field) else {
            return Err(Fault::Number);
        };
        text.push_str(word)?;
        text.push(' ')?;
    }
    Ok(())
}

/// A field as a word that spells a cell.
pub fn cell_word(field: &[u8]) -> Result<&str, Fault>
    ensures word { IfOk result (λ word. (word.now ≡ field.now) × IsCellWord field.now) }
    ensures err { IfErr result (λ _. IsCellWord field.now → ⊥) }
{
    let Ok(word) = str::from_utf8(field) else {
        return Err(Fault::Number);
    };
    match cell(word) {
        Ok(_number) => Ok(word),
        Err(fault) => Err(fault),
    }
}
