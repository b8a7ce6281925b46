//! Which threads may wait.

ghost use Rattle.std.specs.{Prelude.{◌≡◌, ◌==◌}, List.{list_any}};
ghost use Rattle.cml_facts.specs.Stuck.{is_server as began_as_server};
ghost use Rattle.cml_explore.specs.Told as spec;

use crate::tell::is_waiting;
use crate::told::ThreadLeft;
use cml_facts::ending::Named;

// Whether the function of this number is among these.
fn is_among(servers: &[u32], func: u32) -> bool
    ensures { result ≡ list_any (λ g. g == func) servers.now }
{
    servers.iter().any(|server| *server == func)
}

// Whether the thread began with one of these functions.
fn is_server(servers: &[u32], thread: &Named) -> bool
    ensures { result ≡ began_as_server servers.now thread.now.began }
{
    match &thread.began {
        Some(function) => is_among(servers, function.func()),
        None => false,
    }
}

/// Whether the thread may wait as it is left, where these are the functions of servers: it does, and is a server.
pub(crate) fn may_wait(servers: &[u32], left: &ThreadLeft) -> bool
    ensures { result ≡ spec.may_wait servers.now left.now }
{
    is_waiting(left) && is_server(servers, &left.thread)
}
