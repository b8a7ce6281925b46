//! What comes of a run once its workers have ended.

ghost use Rattle.std.specs.Prelude.{◌≡◌, ◌↔◌, ℕ, List, Option, true, false, Err, IfOk, IfErr, IsTrue, length};
ghost use Rattle.cml_stream.specs.Streams.{stream, Takes};
ghost use Rattle.cml_work.specs.Marks.{BeginsWith};
ghost use Rattle.cml_work.specs.Seen.{texts_of, IsSentOut, IsWatched, FaultWrites, failed_at, failed_watching, failed_with, failed_after_all};
ghost use Rattle.cml_work.specs.{Picks.{Picker, ChoosesBy, TakenBy, picker, hub_of_end, hub_of_watched}, Works.{PlainOpening, IsWorked, GoesOnFrom, IsForeignFault, IsLeft, IsCut, BreaksAfter}};

use crate::fault::{WatchFault, WorkFault};
use crate::locked::leads;
use crate::reports::send_reports;
use crate::started::Started;
use cml_hub::law::what_is_played_is_picked;
use cml_hub::{Chooser, Hub};
use cml_schedule::Report;
use cml_stream::Counting;
use cml_stream::input_output::WriteFault;
use std::alloc::Global;
use std::io::Write;

// Runs the hub to its end, which it has mostly reached already. Where the workers were stopped, or memory runs out, the hub comes back
// as far as it has gone on.
pub(crate) fn end_alone<C: Chooser + Drop>(
    alloc: Global,
    mut hub: Hub,
    mut chooser: C,
    is_stopped: bool,
) -> Result<Hub, Hub>
    ensures ok { IfOk result (λ new. IsWorked hub new × BeginsWith new.reports hub.reports) }
    ensures err { IfErr result (λ new. GoesOnFrom hub new × BeginsWith new.reports hub.reports) }
    ensures stopped { is_stopped ≡ true → result ≡ Err hub }
    ensures chosen { (o : PlainOpening) (picks : Picker) → ChoosesBy o picks hub (picker (record { picks = C.picks; next = C.next }) chooser) is_stopped
        → TakenBy o picks (hub_of_end result) }
{
    if is_stopped {
        return Err(hub);
    }
    leads(&hub);
    what_is_played_is_picked::<C>();
    match hub.run_alone(alloc, &mut chooser) {
        Ok(_) => Ok(hub),
        Err(_) => Err(hub),
    }
}

// Whether these are the reports of the hub.
fn are_reports(seen: &[Report], hub: &Hub) -> bool
    ensures { IsTrue result ↔ (seen.now ≡ hub.now.reports) }
{
    let reports = hub.reports();
    if seen.len() != reports.len() {
        return false;
    }
    for i in 0..seen.len() {
        if !seen[i].same(&reports[i]) {
            return false;
        }
    }
    true
}

// The hub with the reports that were seen, where they are its own.
fn compared(hub: Hub, seen: Vec<Report>) -> Result<(Hub, Vec<Report>), WorkFault>
    ensures ok { IfOk result (λ r. (r.0 ≡ hub) × (r.1.items ≡ seen.items) × (seen.items ≡ hub.reports)) }
    ensures err { IfErr result (λ fault. IsForeignFault hub seen.items fault) }
{
    if are_reports(seen.as_slice(), &hub) {
        Ok((hub, seen))
    } else {
        Err(WorkFault::Foreign(hub, seen))
    }
}

// Writes the reports of the hub that come after those that were seen. It takes no memory.
fn told<W: Write>(
    hub: &Hub,
    seen: &[Report],
    writer: &mut Counting<'_, W>,
) -> Result<(), WriteFault>
    requires { BeginsWith hub.now.reports seen.now }
    ensures written { (start : Option (List ℕ)) → Takes (stream start (W.contents writer.old.stream.now)) (texts_of seen.now)
        → IsSentOut (texts_of hub.now.reports) result (stream start (W.contents writer.new.stream.now)) }
    ensures same_reference { writer.new.stream.ghost_name ≡ writer.old.stream.ghost_name }
    ensures failed { writer.new.failed ≡ failed_with result writer.old.failed }
{
    let reports = hub.reports();
    send_reports(&reports[seen.len()..], writer)
}

// Why the hub that the workers have left is not run to its end, once all its reports are written: nothing has begun, or memory ran out; or
// they could not be written.
fn cut_off<W: Write>(
    hub: Hub,
    seen: Vec<Report>,
    is_still: bool,
    writer: &mut Counting<'_, W>,
) -> WorkFault
    requires { BeginsWith hub.reports seen.items }
    ensures cut_off { IsCut hub is_still result }
    ensures written { (start : Option (List ℕ)) → Takes (stream start (W.contents writer.old.stream.now)) (texts_of seen.items)
        → FaultWrites (stream start (W.contents writer.new.stream.now)) result }
    ensures same_reference { writer.new.stream.ghost_name ≡ writer.old.stream.ghost_name }
    ensures failed { writer.new.failed ≡ failed_at result writer.old.failed }
{
    match told(&hub, seen.as_slice(), writer) {
        Err(_) => WorkFault::Write(hub),
        Ok(()) => {
            if is_still {
                WorkFault::Start(hub)
            } else {
                WorkFault::Memory(hub)
            }
        }
    }
}

// The same where memory ran out.
pub(crate) fn out_of_memory<W: Write>(
    hub: Hub,
    seen: Vec<Report>,
    writer: &mut Counting<'_, W>,
) -> WorkFault
    requires { BeginsWith hub.reports seen.items }
    ensures cut_off { IsCut hub false result }
    ensures written { (start : Option (List ℕ)) → Takes (stream start (W.contents writer.old.stream.now)) (texts_of seen.items)
        → FaultWrites (stream start (W.contents writer.new.stream.now)) result }
    ensures same_reference { writer.new.stream.ghost_name ≡ writer.old.stream.ghost_name }
    ensures failed { writer.new.failed ≡ failed_at result writer.old.failed }
{
    cut_off(hub, seen, false, writer)
}

// The hub that the workers have left, run to its end, with the reports that were seen, all of which were written.
fn left<C: Chooser + Drop, W: Write>(
    alloc: Global,
    hub: Hub,
    chooser: C,
    is_stopped: bool,
    seen: Vec<Report>,
    writer: &mut Counting<'_, W>,
) -> Result<(Hub, Vec<Report>), WorkFault>
    requires { BeginsWith hub.reports seen.items }
    ensures chosen { (o : PlainOpening) (picks : Picker) → ChoosesBy o picks hub (picker (record { picks = C.picks; next = C.next }) chooser) is_stopped
        → TakenBy o picks (hub_of_watched result) }
    ensures ok { IfOk result (λ r. IsWorked hub r.0 × (r.1.items ≡ seen.items) × (seen.items ≡ r.0.reports)) }
    ensures err { IfErr result (λ fault. IsLeft hub seen.items fault) }
    ensures written { (start : Option (List ℕ)) → Takes (stream start (W.contents writer.old.stream.now)) (texts_of seen.items)
        → IfOk result (λ r. Takes (stream start (W.contents writer.new.stream.now)) (texts_of r.0.reports)) }
    ensures written_err { (start : Option (List ℕ)) → Takes (stream start (W.contents writer.old.stream.now)) (texts_of seen.items)
        → IfErr result (λ fault. FaultWrites (stream start (W.contents writer.new.stream.now)) fault) }
    ensures same_reference { writer.new.stream.ghost_name ≡ writer.old.stream.ghost_name }
    ensures failed { writer.new.failed ≡ failed_after_all result writer.old.failed }
{
    match end_alone(alloc, hub, chooser, is_stopped) {
        Ok(hub) => compared(hub, seen),
        Err(hub) => Err(out_of_memory(hub, seen, writer)),
    }
}

// Whether no worker was started and nothing has happened since the schedule had this many items.
pub(crate) fn is_still(started: &Started, hub: &Hub, before: usize) -> bool
    ensures { IsTrue result → length hub.now.course.items ≡ before }
{
    started.is_none() && hub.schedule().len() == before
}

// What comes of a run with a watcher, once all have ended. It is made from the hub that the workers have left, from whether nothing has
// begun, and from the reports that the watcher saw (with why the watcher gave up, if it did).
pub(crate) fn finished<C: Chooser + Drop, W: Write>(
    alloc: Global,
    hub: Hub,
    chooser: C,
    is_stopped: bool,
    is_still: bool,
    seen: Vec<Report>,
    fault: Option<WatchFault>,
    writer: &mut Counting<'_, W>,
) -> Result<(Hub, Vec<Report>), WorkFault>
    requires { BeginsWith hub.reports seen.items }
    ensures chosen { (o : PlainOpening) (picks : Picker) → ChoosesBy o picks hub (picker (record { picks = C.picks; next = C.next }) chooser) is_stopped
        → TakenBy o picks (hub_of_watched result) }
    ensures works { IfOk result (λ r. IsWorked hub r.0 × (r.1.items ≡ r.0.reports)) }
    ensures fails { IfErr result (λ fault. BreaksAfter hub is_still fault) }
    ensures written { (start : Option (List ℕ)) → IsWatched (stream start (W.contents writer.old.stream.now)) seen.items fault
        → IfOk result (λ r. Takes (stream start (W.contents writer.new.stream.now)) (texts_of r.0.reports)) }
    ensures written_err { (start : Option (List ℕ)) → IsWatched (stream start (W.contents writer.old.stream.now)) seen.items fault
        → IfErr result (λ fault. FaultWrites (stream start (W.contents writer.new.stream.now)) fault) }
    ensures same_reference { writer.new.stream.ghost_name ≡ writer.old.stream.ghost_name }
    ensures failed { (was : ℕ) → writer.old.failed ≡ failed_watching fault was → writer.new.failed ≡ failed_after_all result was }
{
    match fault {
        Some(WatchFault::Write) => {
            drop(seen);
            drop(chooser);
            Err(WorkFault::Write(hub))
        }
        Some(WatchFault::Memory) => {
            drop(chooser);
            Err(out_of_memory(hub, seen, writer))
        }
        None => {
            if is_still {
                drop(chooser);
                return Err(cut_off(hub, seen, true, writer));
            }
            left(alloc, hub, chooser, is_stopped, seen, writer)
        }
    }
}
