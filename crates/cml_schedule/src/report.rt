//! Reports of a run, made while it goes on.

ghost use Rattle.std.specs.{Prelude.{◌≡◌, ◌++◌, IfOk, IfErr, OnOk, IsTrue, ◌↔◌, map}, List.{flat_map}, String.{string_bytes}};
ghost use Rattle.cml_schedule.specs.Reports as spec;

use cml_scan::Meet;
use cml_value::Tid;
use std::alloc::{AllocError, AllocFailed, Global};
use std::marker::Model;
use std::sync::Arc;

// What there was to see.
#[derive(Drop)]
struct Shown {
    rows: Vec<Meet>,
    waiting: Vec<Tid>,
}

/// What there was to see of a run after this many items of its schedule: the communications that were possible, and the threads that
/// waited. Its copies share what was seen.
#[derive(Drop)]
pub struct Report {
    at: u64,
    shown: Arc<Shown>,
}

impl Model for Report {
    ghost use Rattle.std.specs.Prelude.{map};
    ghost use Rattle.cml_schedule.specs.{Reports.{PlainReport}, ReportCodes.{report_code}};

    ghost Value = { PlainReport };

    ghost coded = { report_code };

    ghost view = { λ r. record {
      at = r.at;
      rows = r.shown.value.rows.items;
      waiting = map (λ t. t.0) r.shown.value.waiting.items;
    } };
}

impl Report {
    /// The report of these rows and waiting threads, after this many items.
    ///
    /// # Errors
    /// Out of memory; both lists come back.
    pub fn new(
        alloc: Global,
        at: u64,
        rows: Vec<Meet>,
        waiting: Vec<Tid>,
    ) -> Result<Report, AllocFailed<(Vec<Meet>, Vec<Tid>)>>
        ensures ok { IfOk result (λ report. report ≡ record { at = at; rows = rows.items; waiting = map (λ t. t.0) waiting.items }) }
        ensures err { IfErr result (λ back. back.value ≡ (rows, waiting)) }
    {
        match Arc::new(alloc, Shown { rows, waiting }) {
            Ok(shown) => Ok(Report { at, shown }),
            Err(back) => Err(AllocFailed {
                value: (back.value.rows, back.value.waiting),
            }),
        }
    }

    /// After how many items it was made.
    pub fn at(&self) -> u64
        ensures { result ≡ self.now.at }
    {
        self.at
    }

    /// The communications that were possible, in the order of the table.
    pub fn rows(&self) -> &[Meet]
        ensures { result.now ≡ self.now.rows }
    {
        self.shown.rows.as_slice()
    }

    /// The threads that waited, in ascending order.
    pub fn waiting(&self) -> &[Tid]
        ensures { map (λ t. t.0) result.now ≡ self.now.waiting }
    {
        self.shown.waiting.as_slice()
    }

    /// The same report, which both share from now on.
    ///
    /// # Errors
    /// Out of memory: there are too many copies to be counted.
    pub fn copy(&self) -> Result<Report, AllocError>
        ensures { IfOk result (λ report. report ≡ self.now) }
    {
        let shown = Arc::try_clone(&self.shown)?;
        Ok(Report { at: self.at, shown })
    }

    /// Whether the two show the same.
    pub fn same(&self, other: &Report) -> bool
        ensures { IsTrue result ↔ (self.now ≡ other.now) }
    {
        self.at == other.at
            && same_rows(self.rows(), other.rows())
            && same_threads(self.waiting(), other.waiting())
    }
}

fn same_rows(these: &[Meet], those: &[Meet]) -> bool
    ensures { IsTrue result ↔ (these.now ≡ those.now) }
{
    these == those
}

fn same_threads(these: &[Tid], those: &[Tid]) -> bool
    ensures { IsTrue result ↔ (map (λ t. t.0) these.now ≡ map (λ t. t.0) those.now) }
{
    these == those
}

/// The lines of a report: `report A rows R waiting W`, a line for each row, and `wait T` for each waiting thread.
///
/// # Errors
/// Out of memory.
pub fn render(alloc: Global, report: &Report) -> Result<String, AllocError>
    ensures { IfOk result (λ text. string_bytes text ≡ spec.report_text report.now) }
{
    let rows = report.rows();
    let waiting = report.waiting();
    let mut text = format!(in alloc;
        "report {} rows {} waiting {}\n",
        report.at(),
        rows.len(),
        waiting.len()
    )?;
    push_rows(&mut text, rows)?;
    push_waiting(&mut text, waiting)?;
    Ok(text)
}

fn push_rows(text: &mut String, rows: &[Meet]) -> Result<(), AllocError>
    ensures { let lines = flat_map spec.report_row_line rows.now in
        OnOk result (string_bytes text.new ≡ string_bytes text.old ++ lines) }
{
    for row in rows {
        push_row(text, row)?;
    }
    Ok(())
}

fn push_row(text: &mut String, row: &Meet) -> Result<(), AllocError>
    ensures { let line = spec.report_row_line row.now in
        OnOk result (string_bytes text.new ≡ string_bytes text.old ++ line) }
{
    text.push_str("row")?;
    row.push_numbers(text)?;
    text.push_str("\n")
}

fn push_waiting(text: &mut String, waiting: &[Tid]) -> Result<(), AllocError>
    ensures { let lines = flat_map spec.wait_line (map (λ t. t.0) waiting.now) in
        OnOk result (string_bytes text.new ≡ string_bytes text.old ++ lines) }
{
    for thread in waiting {
        writeln!(text, "wait {}", thread.0)?;
    }
    Ok(())
}
