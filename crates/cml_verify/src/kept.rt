//! What is kept of a state: the world, the machine of each thread, what is known of its turns, and what is seen of its output.

ghost use Rattle.std.specs.Prelude.{◌≡◌, ◌<◌, ◌↔◌, IfOk, IsTrue, Some, length, option_map, slice_get};
ghost use Rattle.std.specs.Hash as fed;
ghost use Rattle.cml_hub.specs.{Runs.{terminal}, Deeds.{origins}};
ghost use Rattle.cml_step.specs.Calls.{text_of};
ghost use Rattle.cml_verify.specs.{Sameness.{is_same, is_same_equivalence, is_same_partly, is_same_says}, Digests.{digest_at, printed_mixed}, Kept.{PlainKept, state_code, KeepsCourse}, Verdicts.{output_if}};
ghost use Rattle.std.proofs.Common.{ap};

use crate::digest::{digest_of, with_printed};
use crate::read::read_world;
use crate::same::{Same, same_all, same_world};
use cml_hub::{End, Hub};
use cml_scan::World;
use cml_step::Machine;
use cml_value::{FnRef, Tid};
use std::alloc::{AllocError, Global};
use std::hash::{Hash, Hasher};
use std::marker::Model;

/// What is kept of a state: the world, the machine of each thread by its number, with which function each thread began, how many ended at a
/// fault, and what was printed, if the output counts. The digest of the world, the machines and the output, by which it is looked up, stands beside
/// them.
#[derive(Drop)]
pub struct Kept {
    digest: u64,
    // Whether nothing is left to do.
    ends: bool,
    world: World,
    machines: Vec<Machine>,
    began: Vec<FnRef>,
    faults: usize,
    printed: Option<Vec<u8>>,
}

impl Model for Kept {
    ghost use Rattle.std.specs.Prelude.{◌≡◌, option_map};
    ghost use Rattle.cml_hub.specs.Runs.{terminal};
    ghost use Rattle.cml_verify.specs.{Digests.{digest_at, printed_mixed}, Kept.{PlainKept, state_code}};

    ghost Value = { PlainKept };

    ghost coded = { state_code };

    ghost view = { λ k. record {
      world = k.world;
      machines = k.machines.items;
      began = k.began.items;
      faults = k.faults;
      printed = option_map (λ bytes. bytes.items) k.printed;
    } };

    ghost invariant = { λ k. (k.ends ≡ terminal k.world) × (k.digest ≡ printed_mixed (digest_at k.world k.machines.items) (option_map (λ bytes. bytes.items) k.printed)) };
}

impl PartialEq for Kept {
    ghost eq = { is_same state_code };

    ghost laws = { is_same_partly state_code };

    fn eq(&self, other: &Kept) -> bool {
        self.same(other)
    }
}

impl Eq for Kept {
    ghost laws = { is_same_equivalence state_code };
}

impl Hash for Kept {
    ghost hash_input = { λ k. fed.u64 (printed_mixed (digest_at k.world k.machines) k.printed) };

    ghost respects_eq = { λ a b e. ap (λ k. fed.u64 (printed_mixed (digest_at k.world k.machines) k.printed)) (is_same_says state_code a b e) };

    fn hash<H: Hasher>(&self, state: &mut H) {
        state.write_u64(self.digest);
    }
}

impl Kept {
    /// Whether nothing is left to do.
    pub(crate) fn ends(&self) -> bool
        ensures { result ≡ terminal self.now.world }
    {
        self.ends
    }

    /// How many threads ended at a fault.
    pub(crate) fn faults(&self) -> usize
        ensures { result ≡ self.now.faults }
    {
        self.faults
    }

    /// The machine of each thread by its number.
    pub(crate) fn machines(&self) -> &[Machine]
        ensures { result.now ≡ self.now.machines }
    {
        self.machines.as_slice()
    }

    // Whether the two are the same.
    fn same(&self, other: &Kept) -> bool
        ensures { IsTrue result ↔ (self.now ≡ other.now) }
    {
        if self.digest != other.digest {
            return false;
        }
        if self.faults != other.faults {
            return false;
        }
        if !self.printed.same(&other.printed) {
            return false;
        }
        if !same_world(&self.world, &other.world) {
            return false;
        }
        if !same_all(self.began.as_slice(), other.began.as_slice()) {
            return false;
        }
        same_all(self.machines.as_slice(), other.machines.as_slice())
    }
}

// Whether nothing is left to do.
fn is_quiet(hub: &Hub) -> bool
    ensures { result ≡ terminal hub.now.course.world }
{
    match hub.end() {
        End::Quiet => true,
        End::Budget => false,
        End::Partial => false,
    }
}

// A copy of the machine of a thread.
fn machine_of(alloc: Global, hub: &Hub, thread: Tid) -> Result<Machine, AllocError>
    requires { thread.0 < length hub.now.course.world.threads }
    ensures { IfOk result (λ machine. slice_get hub.now.course.machines thread.0 ≡ Some machine) }
{
    match hub.machine(thread) {
        Some(machine) => {
            let copy = machine.copy(alloc)?;
            Ok(copy)
        }
        None => unreachable!(),
    }
}

// The machines of all threads of a hub.
fn machines(alloc: Global, hub: &Hub) -> Result<Vec<Machine>, AllocError>
    ensures { IfOk result (λ machines. machines.items ≡ hub.now.course.machines) }
{
    // No effect: named here so that the prover knows where it leads.
    let _items = hub.schedule();
    let mut machines = Vec::new(alloc);
    for t in 0..hub.book().next_thread().0 {
        let machine = machine_of(alloc, hub, Tid(t))?;
        machines.push(machine)?;
    }
    Ok(machines)
}

// A copy of the function with which a thread began.
fn origin_of(hub: &Hub, thread: Tid) -> Result<FnRef, AllocError>
    requires { thread.0 < length (origins (text_of hub.now.course.program) hub.now.course.items) }
    ensures { IfOk result (λ function. slice_get (origins (text_of hub.now.course.program) hub.now.course.items) thread.0 ≡ Some function) }
{
    match hub.origin(thread) {
        Some(function) => {
            let copy = function.copy()?;
            Ok(copy)
        }
        None => unreachable!(),
    }
}

// The functions with which the threads of a hub began.
fn all_origins(alloc: Global, hub: &Hub) -> Result<Vec<FnRef>, AllocError>
    ensures { IfOk result (λ began. began.items ≡ origins (text_of hub.now.course.program) hub.now.course.items) }
{
    // No effect: named here so that the prover knows where it leads.
    let _items = hub.schedule();
    let mut began = Vec::new(alloc);
    for t in 0..hub.book().next_thread().0 {
        let function = origin_of(hub, Tid(t))?;
        began.push(function)?;
    }
    Ok(began)
}

// What is seen of what a hub has printed.
fn printed_by(alloc: Global, hub: &Hub, with_output: bool) -> Result<Option<Vec<u8>>, AllocError>
    ensures { IfOk result (λ printed. option_map (λ bytes. bytes.items) printed ≡ output_if with_output hub.now.course.output) }
{
    if !with_output {
        return Ok(None);
    }
    let bytes = Vec::from_slice(alloc, hub.out().as_bytes())?;
    Ok(Some(bytes))
}

/// What is kept of where a hub stands.
pub(crate) fn keep(alloc: Global, hub: &Hub, with_output: bool) -> Result<Kept, AllocError>
    ensures { IfOk result (λ kept. KeepsCourse with_output hub.now.course kept) }
{
    let world = read_world(alloc, hub.book())?;
    let machines = machines(alloc, hub)?;
    let began = all_origins(alloc, hub)?;
    let printed = printed_by(alloc, hub, with_output)?;
    let digest = with_printed(digest_of(&world, machines.as_slice()), &printed);
    let ends = is_quiet(hub);
    let faults = hub.faults();
    let kept = Kept {
        digest,
        ends,
        world,
        machines,
        began,
        faults,
        printed,
    };
    Ok(kept)
}
