//! The rows of a table from one place on.

ghost use Rattle.std.specs.Prelude.{◌≡◌, ◌≤◌, ◌++◌, IfOk, OnOk, take, drop, length};
ghost use Rattle.cml_scan.specs.{Order.{IsSorted}, Scan.{scan, scan_of, partners_of}};

use cml_book::Book;
use cml_index::OfferIndex;
use cml_scan::{Meet, Place, Table};
use std::alloc::{AllocError, Global};

// Appends the rows that begin with the head, from the one at this place on, until there are so many rows. Returns how many begin with it.
fn push_partners<T: Table>(
    table: &T,
    rows: &mut Vec<Meet>,
    head: Place,
    from: usize,
    limit: usize,
) -> Result<usize, AllocError>
    requires { length rows.old.items ≤ limit }
    ensures rows { let own = partners_of (scan_of (T.entries table.now) (T.is_lit table.now)) head in
        OnOk result (rows.new.items ≡ take limit (rows.old.items ++ drop from own)) }
    ensures count { let own = partners_of (scan_of (T.entries table.now) (T.is_lit table.now)) head in
        IfOk result (λ count. count ≡ length own) }
{
    let count = table.partner_count(head);
    for j in from..count {
        if rows.len() >= limit {
            return Ok(count);
        }
        rows.push(table.partner(head, j))?;
    }
    Ok(count)
}

// Of all rows those from this place on, at most so many.
fn rows_from<T: Table>(
    alloc: Global,
    table: &T,
    from: usize,
    limit: usize,
) -> Result<Vec<Meet>, AllocError>
    requires { IsSorted (T.entries table.now) }
    ensures { IfOk result (λ rows. rows.items ≡ take limit (drop from (scan_of (T.entries table.now) (T.is_lit table.now)))) }
{
    let mut rows = Vec::new(alloc);
    let mut left = from;
    for k in 0..table.head_count() {
        if rows.len() >= limit {
            return Ok(rows);
        }
        let head = table.head(k);
        let count = push_partners(table, &mut rows, head, left, limit)?;
        left = left.saturating_sub(count);
    }
    Ok(rows)
}

/// Of the rows that can be taken in this book, those from this place on, at most so many. It looks at each head before these.
///
/// # Errors
/// Out of memory.
pub(crate) fn rows_in(
    alloc: Global,
    book: &Book<OfferIndex>,
    from: usize,
    limit: usize,
) -> Result<Vec<Meet>, AllocError>
    ensures { IfOk result (λ rows. rows.items ≡ take limit (drop from (scan book.now))) }
{
    rows_from(alloc, book.table(), from, limit)
}
