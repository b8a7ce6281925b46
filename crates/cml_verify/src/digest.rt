//! A number for a state, by which it is looked up. It need not tell states apart: what has the same number is compared.

ghost use Rattle.std.specs.Prelude.{◌≡◌, fold, option_map};
ghost use Rattle.cml_scan.specs.Views.{thread_of};
ghost use Rattle.cml_step.specs.Shared.{left_of, plain_seen};
ghost use Rattle.cml_verify.specs.Digests.{mix, value_mixed, variable_mixed, thread_mixed, queue_mixed, entry_mixed, stack_mixed, printed_mixed, digest_at};

use cml_scan::{ThreadState, World};
use cml_step::{Machine, Seen, Walk};
use cml_value::{Value, ValueKind};

// The digest so far, with one number more.
#[tactic(auto, unfolding(crate::specs::Digests::mix))]
fn mixed(digest: u64, number: u64) -> u64
    ensures { result ≡ mix digest number }
{
    (digest ^ number)
        .wrapping_mul(0x100_0000_01b3)
        .rotate_left(23)
}

// With a value: numbers and truth values by what they are, of others the kind alone.
fn with_value(digest: u64, value: &Value) -> u64
    ensures { result ≡ value_mixed digest value.now }
{
    match value.kind() {
        ValueKind::Int(number) => mixed(digest, number.cast_unsigned()),
        ValueKind::Bool(truth) => mixed(digest, if *truth { 4 } else { 3 }),
        ValueKind::Unit => mixed(digest, 2),
        ValueKind::Pair(_) => mixed(digest, 5),
        ValueKind::Thread(thread) => mixed(mixed(digest, 6), u64::from(thread.0)),
        ValueKind::Text(_) => mixed(digest, 1),
        ValueKind::Chan(_) => mixed(digest, 1),
        ValueKind::Swap(_) => mixed(digest, 1),
        ValueKind::IVar(_) => mixed(digest, 1),
        ValueKind::MVar(_) => mixed(digest, 1),
        ValueKind::Mailbox(_) => mixed(digest, 1),
        ValueKind::Mchan(_) => mixed(digest, 1),
        ValueKind::Port(_) => mixed(digest, 1),
        ValueKind::Event(_) => mixed(digest, 1),
    }
}

fn with_values(digest: u64, values: &[Value]) -> u64
    ensures { result ≡ fold value_mixed digest values.now }
{
    let mut all = digest;
    for value in values {
        all = with_value(all, value);
    }
    all
}

fn with_entry(digest: u64, entry: Seen<'_>) -> u64
    ensures { result ≡ entry_mixed digest (plain_seen entry.entry) }
{
    match entry {
        Seen::Call(call) => {
            let place = mixed(mixed(digest, u64::from(call.function())), call.at() as u64);
            with_values(place, call.values())
        }
        Seen::Force(_, asked) => mixed(digest, if asked { 8 } else { 7 }),
        Seen::Wraps(_) => mixed(digest, 9),
    }
}

// With the entries of a stack, from the top.
fn with_stack(digest: u64, entries: Walk<'_>) -> u64
    ensures { result ≡ stack_mixed digest (left_of entries.entry) }
{
    let mut all = digest;
    let mut left = entries;
    while let Some(entry) = left.step() {
        all = with_entry(all, entry);
    }
    all
}

fn with_machines(digest: u64, machines: &[Machine]) -> u64
    ensures { result ≡ fold (λ d m. stack_mixed d m.stack) digest machines.now }
{
    let mut all = digest;
    for machine in machines {
        all = with_stack(all, machine.entries());
    }
    all
}

fn with_variable(digest: u64, variable: &Option<Value>) -> u64
    ensures { result ≡ variable_mixed digest variable.now }
{
    match variable {
        Some(value) => with_value(digest, value),
        None => mixed(digest, 10),
    }
}

fn with_variables(digest: u64, variables: &[Option<Value>]) -> u64
    ensures { result ≡ fold variable_mixed digest variables.now }
{
    let mut all = digest;
    for variable in variables {
        all = with_variable(all, variable);
    }
    all
}

fn with_thread(digest: u64, thread: &ThreadState) -> u64
    ensures { result ≡ thread_mixed digest (thread_of thread.now) }
{
    match thread {
        ThreadState::Running => mixed(digest, 11),
        ThreadState::Pending(_) => mixed(digest, 12),
        ThreadState::Ended => mixed(digest, 13),
    }
}

fn with_threads(digest: u64, threads: &[ThreadState]) -> u64
    ensures { result ≡ fold (λ d t. thread_mixed d (thread_of t)) digest threads.now }
{
    let mut all = digest;
    for thread in threads {
        all = with_thread(all, thread);
    }
    all
}

fn with_queue(digest: u64, queue: &Vec<Value>) -> u64
    ensures { result ≡ queue_mixed digest queue.now.items }
{
    with_values(mixed(digest, 14), queue.as_slice())
}

fn with_queues(digest: u64, queues: &[Vec<Value>]) -> u64
    ensures { result ≡ fold (λ d q. queue_mixed d q.items) digest queues.now }
{
    let mut all = digest;
    for queue in queues {
        all = with_queue(all, queue);
    }
    all
}

/// The digest of a world and of the machines in it.
pub(crate) fn digest_of(world: &World, machines: &[Machine]) -> u64
    ensures { result ≡ digest_at world.now machines.now }
{
    let counts = mixed(world.tick, u64::from(world.channels));
    let threads = with_threads(counts, world.threads.as_slice());
    let ivars = with_variables(threads, world.ivars.as_slice());
    let mvars = with_variables(ivars, world.mvars.as_slice());
    let queues = with_queues(mvars, world.mailboxes.as_slice());
    let messages = with_queues(queues, world.ports.as_slice());
    with_machines(messages, machines)
}

fn with_bytes(digest: u64, bytes: &[u8]) -> u64
    ensures { result ≡ fold mix digest bytes.now }
{
    let mut all = digest;
    for byte in bytes {
        all = mixed(all, u64::from(*byte));
    }
    all
}

/// The digest with what is seen of an output.
pub(crate) fn with_printed(digest: u64, printed: &Option<Vec<u8>>) -> u64
    ensures { result ≡ printed_mixed digest (option_map (λ bytes. bytes.items) printed.now) }
{
    match printed {
        Some(bytes) => with_bytes(mixed(digest, 15), bytes.as_slice()),
        None => digest,
    }
}
