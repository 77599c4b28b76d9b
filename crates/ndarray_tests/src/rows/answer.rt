//! What a row gives.

use crate::rows::calls::ViewCall;
use crate::rows::layouts::{Layout, Table};
use crate::rows::reading::Asked;
use crate::rows::writing::parse_views;
use crate::rows::{along, arrays, joining, operators, products, reading, spelling, writing};
use std::alloc::{AllocError, Global};

/// What the calls of a row give on a layout of its table: `TABLE | CALL | ..`.
///
/// A table begins with the type of its cells, where that is not `i64`.
pub fn answer(alloc: Global, row: &str, layout: Layout) -> Result<String, AllocError> {
    let pieces: Vec<&str> = row.split('|').collect(alloc)?;
    let Some((table, calls)) = pieces.as_slice().split_first() else {
        return "no table".to_string(alloc);
    };
    let words: Vec<&str> = table.split_whitespace().collect(alloc)?;
    let (is_i8, words) = match words.as_slice() {
        ["i8", words @ ..] => (true, words),
        words => (false, words),
    };
    match parse_table(alloc, words, layout)? {
        Some(table) if is_i8 => of_i8(alloc, &table, calls),
        Some(table) => carry_out(alloc, table, calls),
        None => "no table".to_string(alloc),
    }
}

/// What a call gives on a layout of a table of `i8`, which has two calls: `sums_fit` and `products_fit`.
fn of_i8(alloc: Global, table: &Table, calls: &[&str]) -> Result<String, AllocError> {
    let Some(cells) = as_i8(alloc, table.cells.as_slice())? else {
        return "no table".to_string(alloc);
    };
    match calls {
        [call] if call.trim() == "sums_fit" => sums_fit(alloc, table, cells.as_slice()),
        [call] if call.trim() == "products_fit" => products_fit(alloc, table, cells.as_slice()),
        _ => "not understood".to_string(alloc),
    }
}

/// Whether the sums of these cells fit, which lie as those of a table.
fn sums_fit(alloc: Global, table: &Table, cells: &[i8]) -> Result<String, AllocError> {
    match table.view_of(cells) {
        Ok(view) => view.sums_fit().to_string(alloc),
        Err(error) => reading::kind(alloc, &error),
    }
}

/// Whether the products of these cells fit, which lie as those of a table.
fn products_fit(alloc: Global, table: &Table, cells: &[i8]) -> Result<String, AllocError> {
    match table.view_of(cells) {
        Ok(view) => view.products_fit().to_string(alloc),
        Err(error) => reading::kind(alloc, &error),
    }
}

/// Cells as `i8`; `None` where one is out of range.
fn as_i8(alloc: Global, cells: &[i64]) -> Result<Option<Vec<i8>>, AllocError> {
    let mut narrow = Vec::new(alloc);
    for cell in cells {
        let Ok(cell) = i8::try_from(*cell) else {
            return Ok(None);
        };
        narrow.push(cell)?;
    }
    Ok(Some(narrow))
}

/// What calls give on a layout of a table.
fn carry_out(alloc: Global, table: Table, calls: &[&str]) -> Result<String, AllocError> {
    match calls.split_first() {
        Some((first, rest)) => carry_out_on(alloc, table, first.trim(), rest, calls),
        None => read(alloc, &table, calls),
    }
}

/// The table of these words; `None` where they spell none.
pub fn parse_table(
    alloc: Global,
    words: &[&str],
    layout: Layout,
) -> Result<Option<Table>, AllocError> {
    let Some((shape, cells)) = words.split_first() else {
        return Ok(None);
    };
    let Some(lengths) = spelling::lengths(alloc, *shape)? else {
        return Ok(None);
    };
    match spelling::cells(alloc, cells)? {
        Some(cells) => Table::new(alloc, lengths, cells, layout).map(Some),
        None => Ok(None),
    }
}

/// What calls give on a table, by the first of them.
fn carry_out_on(
    alloc: Global,
    table: Table,
    first: &str,
    rest: &[&str],
    calls: &[&str],
) -> Result<String, AllocError> {
    match first {
        "view_mut" => writing::answer(alloc, table, rest),
        "owned" => arrays::answer(alloc, table, rest),
        "cow_array" => arrays::borrow(alloc, &table, rest),
        _ => read(alloc, &table, calls),
    }
}

/// What calls give on a view of a table.
fn read(alloc: Global, table: &Table, calls: &[&str]) -> Result<String, AllocError> {
    let views = parse_views(alloc, calls)?;
    if let [call] = calls.get(views.len()..).unwrap_or(&[]) {
        if let Some(text) = make(alloc, table, views.as_slice(), *call)? {
            return Ok(text);
        }
    }
    match table.view() {
        Ok(view) => reading::answer(alloc, view, calls),
        Err(error) => reading::kind(alloc, &error),
    }
}

/// What a call gives that makes an array of a table, after calls that view it; `None` for another call.
fn make(
    alloc: Global,
    table: &Table,
    views: &[ViewCall],
    call: &str,
) -> Result<Option<String>, AllocError> {
    let words: Vec<&str> = call.split_whitespace().collect(alloc)?;
    let asked = Asked {
        table,
        views,
        words: words.as_slice(),
    };
    if let Some(text) = operators::answer(alloc, &asked)? {
        return Ok(Some(text));
    }
    if let Some(text) = along::answer(alloc, &asked)? {
        return Ok(Some(text));
    }
    if let Some(text) = products::answer(alloc, &asked)? {
        return Ok(Some(text));
    }
    joining::answer(alloc, table, views, call)
}
