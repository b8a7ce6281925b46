//! Whether a run is stuck.

ghost use Rattle.std.specs.{Prelude.{◌≡◌, ◌==◌, Some, slice_get}, List.{list_any}, Option.{option_copied}};
ghost use Rattle.cml_scan.specs.World.{PlainThread};
ghost use Rattle.cml_hub.specs.Deeds.{origins};
ghost use Rattle.cml_step.specs.Calls.{text_of};
ghost use Rattle.cml_facts.specs.Stuck as spec;

use cml_hub::{End, Hub};
use cml_value::{FnRef, Tid};

// Whether the function is among these.
fn is_among(servers: &[u32], func: u32) -> bool
    ensures { result ≡ list_any (λ g. g == func) servers.now }
{
    for server in servers {
        if *server == func {
            return true;
        }
    }
    false
}

// Whether a thread that began so is a server.
fn is_server(servers: &[u32], began: Option<&FnRef>) -> bool
    ensures { result ≡ spec.is_server servers.now (option_copied began.entry) }
{
    match began {
        Some(function) => is_among(servers, function.func()),
        None => false,
    }
}

// Whether the thread of this number waits, and is no server.
fn is_held_up(servers: &[u32], hub: &Hub, thread: Tid) -> bool
    ensures { (t : PlainThread) → slice_get hub.now.course.world.threads thread.0 ≡ Some t →
        result ≡ spec.is_held_up servers.now (slice_get (origins (text_of hub.now.course.program) hub.now.course.items) thread.0) t }
{
    match hub.book().waiting(thread) {
        Some(_) => !is_server(servers, hub.origin(thread)),
        None => false,
    }
}

/// Whether some thread waits that began with none of these functions.
pub fn some_held_up(servers: &[u32], hub: &Hub) -> bool
    ensures { result ≡ spec.some_held_up servers.now (origins (text_of hub.now.course.program) hub.now.course.items) 0 hub.now.course.world.threads }
{
    for t in 0..hub.book().next_thread().0 {
        if is_held_up(servers, hub, Tid(t)) {
            return true;
        }
    }
    false
}

/// Whether nothing is left to do in the run of this hub, and not all is well: a thread waits that began with none of these functions, or a
/// thread has ended at a fault.
pub fn is_stuck(hub: &Hub, servers: &[u32]) -> bool
    ensures { result ≡ spec.is_stuck servers.now hub.now }
{
    hub.end() == End::Quiet && (some_held_up(servers, hub) || hub.faults() != 0)
}
