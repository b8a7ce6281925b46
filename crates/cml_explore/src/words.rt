//! What is told of many runs, in words.

use crate::ends::{EndTold, EndsTold};
use crate::excuse::may_wait;
use crate::fault_told::FaultTold;
use crate::orders::Orders;
use crate::seed::Order;
use crate::stop_words::{push_count, push_stop};
use crate::told::{BreakTold, ClassTold, RunTold, RunsTold, ThreadLeft, ThreadState};
use cml_facts::ending::{Named, Stands, push_awaited, push_many, push_named, push_number};
use cml_facts::fault::push_reason;
use cml_hub::End;
use cml_judge::Spot;
use cml_phrase::{Place, push_line};
use cml_properties::Property;
use cml_text::Sexpr;
use std::alloc::{AllocError, Global};

// How many classes were bad, and how many good.
#[derive(Clone, Copy)]
struct Seen {
    bad: u64,
    good: u64,
}

// How wide the columns are.
#[derive(Clone, Copy)]
struct Widths {
    runs: usize,
    end: usize,
    outputs: usize,
}

// The word for how a run ended.
fn end_word(end: End) -> &'static [u8] {
    match end {
        End::Quiet => b"quiet",
        End::Budget => b"budget",
        End::Partial => b"partial",
    }
}

// Appends how many threads wait.
fn push_waits(alloc: Global, out: &mut Vec<u8>, count: usize) -> Result<(), AllocError> {
    if count == 0 {
        out.extend_from_slice(b"none waits")
    } else {
        push_many(alloc, out, " waits", " wait", count as u64)
    }
}

// Appends how many there are of a thing, behind a comma, if there is one.
fn push_further(
    alloc: Global,
    out: &mut Vec<u8>,
    one: &str,
    more: &str,
    count: usize,
) -> Result<(), AllocError> {
    if count == 0 {
        return Ok(());
    }
    out.extend_from_slice(b", ")?;
    push_many(alloc, out, one, more, count as u64)
}

// How a run ended, in words: `quiet, 1 waits, 2 run, 1 fault`.
fn end_words(alloc: Global, run: &RunTold) -> Result<Vec<u8>, AllocError> {
    let mut words = Vec::from_slice(alloc, end_word(run.end))?;
    words.extend_from_slice(b", ")?;
    push_waits(alloc, &mut words, run.waits)?;
    push_further(alloc, &mut words, " runs", " run", run.runs)?;
    push_further(alloc, &mut words, " fault", " faults", run.faults)?;
    Ok(words)
}

// How many digits a number has.
fn digit_count(alloc: Global, number: u64) -> Result<usize, AllocError> {
    let digits = format!(in alloc; "{number}")?;
    Ok(digits.len())
}

// The columns, wide enough for this class too.
fn wider(alloc: Global, widths: Widths, class: &ClassTold) -> Result<Widths, AllocError> {
    let runs = digit_count(alloc, class.runs)?;
    let outputs = digit_count(alloc, class.outputs as u64)?;
    let words = end_words(alloc, &class.run)?;
    Ok(Widths {
        runs: widths.runs.max(runs),
        end: widths.end.max(words.len()),
        outputs: widths.outputs.max(outputs),
    })
}

// How wide the columns are: each as wide as what is widest in it.
fn widths_of(alloc: Global, classes: &[ClassTold]) -> Result<Widths, AllocError> {
    let mut widths = Widths {
        runs: 0,
        end: 0,
        outputs: 0,
    };
    for class in classes {
        widths = wider(alloc, widths, class)?;
    }
    Ok(widths)
}

// Appends a text at the left end of a column.
fn push_at_left(
    alloc: Global,
    out: &mut Vec<u8>,
    width: usize,
    text: &[u8],
) -> Result<(), AllocError> {
    out.extend_from_slice(text)?;
    let spaces = vec![in alloc; b' '; width.saturating_sub(text.len())]?;
    out.extend_from_slice(spaces.as_slice())
}

// Appends a number at the right end of a column.
fn push_at_right(
    alloc: Global,
    out: &mut Vec<u8>,
    width: usize,
    number: u64,
) -> Result<(), AllocError> {
    let digits = format!(in alloc; "{number:>width$}")?;
    out.extend_from_slice(digits.as_bytes())
}

// Appends how many different outputs there are.
fn push_outputs(
    alloc: Global,
    out: &mut Vec<u8>,
    width: usize,
    count: usize,
) -> Result<(), AllocError> {
    push_at_right(alloc, out, width, count as u64)?;
    if count == 1 {
        out.extend_from_slice(b" output ")
    } else {
        out.extend_from_slice(b" outputs")
    }
}

/// Appends the option by which `run` has this order, if it takes one.
///
/// # Errors
/// Out of memory.
pub(crate) fn push_option(
    alloc: Global,
    out: &mut Vec<u8>,
    order: Order,
) -> Result<(), AllocError> {
    match order {
        Order::Queue => Ok(()),
        Order::Lot => out.extend_from_slice(b" --turns"),
        Order::Priority(depth) => {
            out.extend_from_slice(b" --priority ")?;
            push_number(alloc, out, u64::from(depth))
        }
    }
}

// Appends by which options `run` makes the first run of a class.
fn push_first(alloc: Global, out: &mut Vec<u8>, class: &ClassTold) -> Result<(), AllocError> {
    out.extend_from_slice(b"   first: --seed ")?;
    push_number(alloc, out, class.first)?;
    push_option(alloc, out, class.order)?;
    out.extend_from_slice(b", ")?;
    push_many(alloc, out, " item", " items", class.items as u64)?;
    out.extend_from_slice(b"\n")
}

// The word for a class whose runs ended well, or not.
fn kind_word(well: bool) -> &'static str {
    if well { "good" } else { "bad" }
}

// Appends whether a class is good or bad, the number of its runs, and how they ended.
fn push_end(
    alloc: Global,
    out: &mut Vec<u8>,
    widths: Widths,
    class: &ClassTold,
) -> Result<(), AllocError> {
    push_at_left(alloc, out, 6, kind_word(class.well).as_bytes())?;
    push_at_right(alloc, out, widths.runs, class.runs)?;
    out.extend_from_slice(b"  ")?;
    let words = end_words(alloc, &class.run)?;
    push_at_left(alloc, out, widths.end, words.as_slice())?;
    out.extend_from_slice(b"   ")
}

// Appends a line and a column, if they are known.
fn push_position(alloc: Global, out: &mut Vec<u8>, place: Option<Place>) -> Result<(), AllocError> {
    match place {
        Some(place) => {
            out.extend_from_slice(b" at ")?;
            push_line(alloc, out, place)
        }
        None => Ok(()),
    }
}

// Appends how a thread is left.
fn push_state(
    alloc: Global,
    out: &mut Vec<u8>,
    forms: &[Sexpr],
    state: &ThreadState,
) -> Result<(), AllocError> {
    match state {
        ThreadState::Stands(Stands::Waits(awaited)) => {
            out.extend_from_slice(b": ")?;
            push_awaited(alloc, out, forms, awaited)
        }
        ThreadState::Stands(Stands::Runs) => out.extend_from_slice(b" runs"),
        ThreadState::AtFault(reason) => {
            out.extend_from_slice(b" ends at a fault: ")?;
            push_reason(alloc, out, reason)
        }
    }
}

// Appends the line of a thread, where these are the functions of servers.
fn push_thread(
    alloc: Global,
    out: &mut Vec<u8>,
    forms: &[Sexpr],
    servers: &[u32],
    left: &ThreadLeft,
) -> Result<(), AllocError> {
    out.extend_from_slice(b"       ")?;
    push_named(alloc, out, forms, &left.thread)?;
    push_position(alloc, out, left.place)?;
    push_state(alloc, out, forms, &left.state)?;
    if may_wait(servers, left) {
        out.extend_from_slice(b"; a server, which may wait")?;
    }
    out.extend_from_slice(b"\n")
}

// Appends the lines of the threads of a run.
fn push_threads(
    alloc: Global,
    out: &mut Vec<u8>,
    forms: &[Sexpr],
    servers: &[u32],
    run: &RunTold,
) -> Result<(), AllocError> {
    for left in &run.threads {
        push_thread(alloc, out, forms, servers, left)?;
    }
    Ok(())
}

// Appends where a property breaks: `line 4, printed by thread 2 consumer() at item 12`.
fn push_spot(
    alloc: Global,
    out: &mut Vec<u8>,
    forms: &[Sexpr],
    line: usize,
    spot: Spot,
    who: Option<&Named>,
) -> Result<(), AllocError> {
    out.extend_from_slice(b"line ")?;
    push_number(alloc, out, (line as u64).saturating_add(1))?;
    if let Some(who) = who {
        out.extend_from_slice(b", printed by ")?;
        push_named(alloc, out, forms, who)?;
    }
    out.extend_from_slice(b" at item ")?;
    push_number(alloc, out, spot.item as u64)
}

// Appends the line of a property that the first run of a class breaks.
fn push_break(
    alloc: Global,
    out: &mut Vec<u8>,
    forms: &[Sexpr],
    properties: &[Property],
    told: &BreakTold,
) -> Result<(), AllocError> {
    let Some(property) = properties.get(told.one.property) else {
        return Ok(());
    };
    let begun = format!(in alloc; "       breaks {property}: ")?;
    out.extend_from_slice(begun.as_bytes())?;
    match told.one.spot {
        Some(spot) => push_spot(alloc, out, forms, told.one.line, spot, told.who.as_ref())?,
        None => out.extend_from_slice(b"at its end")?,
    }
    out.extend_from_slice(b"\n")
}

// Appends the lines of the properties that the first run of a class breaks.
fn push_breaks(
    alloc: Global,
    out: &mut Vec<u8>,
    forms: &[Sexpr],
    properties: &[Property],
    class: &ClassTold,
) -> Result<(), AllocError> {
    for told in &class.breaks {
        push_break(alloc, out, forms, properties, told)?;
    }
    Ok(())
}

// Appends the lines of a class: its own, and those of the properties and of the threads of its first run.
fn push_class(
    alloc: Global,
    out: &mut Vec<u8>,
    forms: &[Sexpr],
    servers: &[u32],
    properties: &[Property],
    widths: Widths,
    class: &ClassTold,
) -> Result<(), AllocError> {
    push_end(alloc, out, widths, class)?;
    push_outputs(alloc, out, widths.outputs, class.outputs)?;
    push_first(alloc, out, class)?;
    push_breaks(alloc, out, forms, properties, class)?;
    push_threads(alloc, out, forms, servers, &class.run)
}

// One class more that is good, or not.
fn and_one(seen: Seen, well: bool) -> Seen {
    if well {
        Seen {
            good: seen.good.saturating_add(1),
            ..seen
        }
    } else {
        Seen {
            bad: seen.bad.saturating_add(1),
            ..seen
        }
    }
}

// Appends the line that names the file of a class, where one is saved: the last of its kind so far.
fn push_saved(
    alloc: Global,
    out: &mut Vec<u8>,
    save: Option<&str>,
    well: bool,
    seen: Seen,
) -> Result<(), AllocError> {
    let place = if well { seen.good } else { seen.bad };
    match save {
        Some(start) => {
            let kind = kind_word(well);
            let line = format!(in alloc; "       saved: {start}-{kind}-{place}.schedule\n")?;
            out.extend_from_slice(line.as_bytes())
        }
        None => Ok(()),
    }
}

// Appends the lines of all classes. Those that are saved are counted.
fn push_classes(
    alloc: Global,
    out: &mut Vec<u8>,
    forms: &[Sexpr],
    properties: &[Property],
    told: &RunsTold,
    save: Option<&str>,
) -> Result<(), AllocError> {
    let servers = told.servers.as_slice();
    let widths = widths_of(alloc, told.classes.as_slice())?;
    let mut seen = Seen { bad: 0, good: 0 };
    for class in &told.classes {
        push_class(alloc, out, forms, servers, properties, widths, class)?;
        if told.saves(class) {
            seen = and_one(seen, class.well);
            push_saved(alloc, out, save, class.well, seen)?;
        }
    }
    Ok(())
}

// Appends the order of a run.
fn push_order(alloc: Global, out: &mut Vec<u8>, order: Order) -> Result<(), AllocError> {
    match order {
        Order::Queue => out.extend_from_slice(b"picks"),
        Order::Lot => out.extend_from_slice(b"turns"),
        Order::Priority(depth) => {
            out.extend_from_slice(b"priorities of depth ")?;
            push_number(alloc, out, u64::from(depth))
        }
    }
}

// Appends in which orders the runs were made.
fn push_orders(alloc: Global, out: &mut Vec<u8>, orders: Orders) -> Result<(), AllocError> {
    out.extend_from_slice(b" by ")?;
    match orders {
        Orders::Named(order) => push_order(alloc, out, order),
        Orders::Round => out.extend_from_slice(b"picks, turns and priorities"),
    }
}

// How many runs the bad classes have.
fn bad_runs(classes: &[ClassTold]) -> u64 {
    let mut bad: u64 = 0;
    for class in classes {
        if !class.well {
            bad = bad.saturating_add(class.runs);
        }
    }
    bad
}

// Appends the verdict, and what it rests on.
fn push_verdict(
    alloc: Global,
    out: &mut Vec<u8>,
    properties: usize,
    told: &RunsTold,
) -> Result<(), AllocError> {
    let bad = bad_runs(told.classes.as_slice());
    if bad != 0 {
        out.extend_from_slice(b"bad: ")?;
        push_number(alloc, out, bad)?;
        out.extend_from_slice(b" of ")?;
        push_many(alloc, out, " run", " runs", told.runs)?;
        return out.extend_from_slice(b"\n");
    }
    out.extend_from_slice(b"good: ")?;
    push_many(alloc, out, " run", " runs", told.runs)?;
    push_orders(alloc, out, told.orders)?;
    if properties != 0 {
        out.extend_from_slice(b", each keeps ")?;
        push_many(alloc, out, " property", " properties", properties as u64)?;
    }
    out.extend_from_slice(b"; not all schedules (verify looks at all)\n")
}

// Appends by which seeds the runs were made.
fn push_seeds(alloc: Global, out: &mut Vec<u8>, told: &RunsTold) -> Result<(), AllocError> {
    match told.last {
        None => {
            out.extend_from_slice(b", seed ")?;
            push_number(alloc, out, told.first)
        }
        Some(last) => {
            out.extend_from_slice(b", seeds ")?;
            push_number(alloc, out, told.first)?;
            out.extend_from_slice(b" to ")?;
            push_number(alloc, out, last)
        }
    }
}

/// Appends what is told of many runs of the script that has this name and forms, of which these properties are wanted: how many runs, and the
/// classes of those that ended alike, each with the threads that are left in its first run or ended at a fault in it; which run is the first at which
/// to stop, or that none is, where it was said at which; and last the verdict, and what it rests on. Where schedules are saved in files whose names
/// begin so, each file is named below its class.
///
/// # Errors
/// Out of memory.
pub fn write_runs(
    alloc: Global,
    out: &mut Vec<u8>,
    name: &str,
    forms: &[Sexpr],
    properties: &[Property],
    told: &RunsTold,
    save: Option<&str>,
) -> Result<(), AllocError> {
    push_count(alloc, out, told)?;
    out.extend_from_slice(b" of ")?;
    out.extend_from_slice(name.as_bytes())?;
    push_seeds(alloc, out, told)?;
    out.extend_from_slice(b",")?;
    push_orders(alloc, out, told.orders)?;
    out.extend_from_slice(b"\n")?;
    push_classes(alloc, out, forms, properties, told, save)?;
    push_stop(alloc, out, told, save.is_some())?;
    push_verdict(alloc, out, properties.len(), told)
}

// How wide the column of ends is: as wide as what is widest in it.
fn end_width(alloc: Global, ends: &[EndTold]) -> Result<usize, AllocError> {
    let mut width = 0;
    for end in ends {
        let words = end_words(alloc, &end.run)?;
        width = width.max(words.len());
    }
    Ok(width)
}

// Appends the lines of a class of ends: its own, and those of the threads of the run by its shortest schedule.
fn push_told(
    alloc: Global,
    out: &mut Vec<u8>,
    forms: &[Sexpr],
    width: usize,
    end: &EndTold,
) -> Result<(), AllocError> {
    let words = end_words(alloc, &end.run)?;
    push_at_left(alloc, out, width, words.as_slice())?;
    out.extend_from_slice(b"   shortest: ")?;
    push_many(alloc, out, " item", " items", end.items as u64)?;
    out.extend_from_slice(b"\n")?;
    push_threads(alloc, out, forms, &[], &end.run)
}

/// Appends what is told of the ends of the script that has these forms: the classes of those that ended alike, each with the threads that are
/// left in the run by its shortest schedule or ended at a fault in it.
///
/// # Errors
/// Out of memory.
pub fn write_ends(
    alloc: Global,
    out: &mut Vec<u8>,
    forms: &[Sexpr],
    told: &EndsTold,
) -> Result<(), AllocError> {
    let classes = told.classes.as_slice();
    let width = end_width(alloc, classes)?;
    for number in &told.order {
        match classes.get(*number) {
            Some(end) => push_told(alloc, out, forms, width, end)?,
            None => {}
        }
    }
    Ok(())
}

// The line of the thread whose turn the last item is.
fn fault_line(alloc: Global, forms: &[Sexpr], fault: &FaultTold) -> Result<Vec<u8>, AllocError> {
    let mut line = Vec::new(alloc);
    for left in &fault.run.threads {
        if fault.thread == Some(left.thread.thread) {
            push_thread(alloc, &mut line, forms, &[], left)?;
        }
    }
    Ok(line)
}

// Whether one of these lines is this one.
fn is_among(lines: &[Vec<u8>], line: &[u8]) -> bool {
    for one in lines {
        if one.as_slice() == line {
            return true;
        }
    }
    false
}

// Appends how many items a schedule has, and the line of the thread that ends at a fault by the last of them.
fn push_fault(
    alloc: Global,
    out: &mut Vec<u8>,
    items: usize,
    line: &[u8],
) -> Result<(), AllocError> {
    out.extend_from_slice(b"fault   shortest: ")?;
    push_many(alloc, out, " item", " items", items as u64)?;
    out.extend_from_slice(b"\n")?;
    out.extend_from_slice(line)
}

/// Appends what is told of schedules by whose last items threads end at faults, of the script that has these forms: of each the thread, at which
/// statement it does so, and why; where two say the same, the first alone.
///
/// # Errors
/// Out of memory.
pub fn write_faulted(
    alloc: Global,
    out: &mut Vec<u8>,
    forms: &[Sexpr],
    told: &[FaultTold],
) -> Result<(), AllocError> {
    let mut lines = Vec::new(alloc);
    for fault in told {
        let line = fault_line(alloc, forms, fault)?;
        if !is_among(lines.as_slice(), line.as_slice()) {
            push_fault(alloc, out, fault.items, line.as_slice())?;
            lines.push(line)?;
        }
    }
    Ok(())
}
