//! Walks over a group that take no memory, and why a wait on it is refused.

ghost use Rattle.std.specs.{Prelude.{◌≡◌, ℕ, Bool, true, false, None, IfSome, not, nat_lt, length, slice_get}, List.{list_all}};
ghost use Rattle.cml_value.specs.{Value.{PlainBase}, Group.{bases, scopes, nacks_of}};
ghost use Rattle.cml_book.specs.{Entering.{is_far}, Sync.{base_exists, is_fresh_for}, Outcomes.{first_if}};
ghost use Rattle.cml_book.specs.Walks.{shape_refusal, enters_as_it_is, enters_quietly, IsPlain, IsWhole, IsStanding, IsQuiet};
ghost use Rattle.cml_book.specs.Sync as spec;

use crate::refusal::Refusal;
use crate::state::State;
use cml_group::has_few_leaves;
use cml_objects::{NackCell, Register};
use cml_value::{Base, BaseKind, Group, GroupKind, NackId, Tid};

/// The greatest tick.
pub(crate) const MAX_TICK: u64 = 4_611_686_018_427_387_904;

// A test of the base events of a group.
pub(crate) trait BaseTest {
    ghost passes: { Self → PlainBase → Bool };

    fn passes(&self, base: &Base) -> bool
        ensures { result ≡ passes self.now base.now };
}

// A test of the nacks of the scopes of a group.
pub(crate) trait NackTest {
    ghost passes: { Self → ℕ → Bool };

    fn passes(&self, nack: NackId) -> bool
        ensures { result ≡ passes self.now nack.0 };
}

/// Whether all base events of the group pass.
#[tactic(auto, using(crate::proofs::Walks::base_steps))]
pub(crate) fn all_bases<P: BaseTest>(test: &P, group: &Group) -> bool
    ensures { result ≡ list_all (P.passes test.now) (bases group.now) }
{
    match group.kind() {
        GroupKind::Never => true,
        GroupKind::Leaf(b) => test.passes(b),
        GroupKind::Choose(gs) => {
            for g in gs.iter() {
                let holds = match g.kind() {
                    GroupKind::Leaf(b) => test.passes(b),
                    _ => all_bases(test, g),
                };
                if !holds {
                    return false;
                }
            }
            true
        }
        GroupKind::Wrap(g, _) => all_bases(test, g),
        GroupKind::Scope(_, g) => all_bases(test, g),
    }
}

/// Whether the nacks of all scopes of the group pass.
#[tactic(auto, using(crate::proofs::Walks::nack_steps))]
pub(crate) fn all_nacks<P: NackTest>(test: &P, group: &Group) -> bool
    ensures { result ≡ list_all (P.passes test.now) (nacks_of (scopes group.now)) }
{
    match group.kind() {
        GroupKind::Never | GroupKind::Leaf(_) => true,
        GroupKind::Choose(gs) => {
            for g in gs.iter() {
                if !all_nacks(test, g) {
                    return false;
                }
            }
            true
        }
        GroupKind::Wrap(g, _) => all_nacks(test, g),
        GroupKind::Scope(k, g) => test.passes(*k) && all_nacks(test, g),
    }
}

// That no scope is in a leaf, where its base event passes.
fn walk_leaf<P: BaseTest>(test: &P, base: &Base) -> Option<bool>
    ensures passes { IfSome result (λ scoped. P.passes test.now base.now ≡ true) }
    ensures plain { IfSome result (λ scoped. scoped ≡ false) }
{
    if test.passes(base) { Some(false) } else { None }
}

/// Whether a scope is in the group, where all its base events pass. The walk stops at the first that does not.
#[tactic(auto, using(crate::proofs::Walks::base_steps, crate::proofs::Walks::nack_steps))]
pub(crate) fn walk_whole<P: BaseTest>(test: &P, group: &Group) -> Option<bool>
    ensures bases { IfSome result (λ scoped. list_all (P.passes test.now) (bases group.now) ≡ true) }
    ensures scopes { IfSome result (λ scoped. scoped ≡ false →
        list_all (λ k. false) (nacks_of (scopes group.now)) ≡ true) }
{
    match group.kind() {
        GroupKind::Never => Some(false),
        GroupKind::Leaf(b) => walk_leaf(test, b),
        GroupKind::Choose(gs) => {
            let mut scoped = false;
            for g in gs.iter() {
                let found = match g.kind() {
                    GroupKind::Leaf(b) => walk_leaf(test, b)?,
                    _ => walk_whole(test, g)?,
                };
                if found {
                    scoped = true;
                }
            }
            Some(scoped)
        }
        GroupKind::Wrap(g, _) => walk_whole(test, g),
        GroupKind::Scope(_, g) => {
            let _scoped = walk_whole(test, g)?;
            Some(true)
        }
    }
}

impl BaseTest for State {
    ghost passes = { base_exists };

    fn passes(&self, base: &Base) -> bool {
        match base.kind() {
            BaseKind::Always(_) | BaseKind::At(_) | BaseKind::After(_) => true,
            BaseKind::Send(c, _) => c.0 < self.channels,
            BaseKind::Recv(c) => c.0 < self.channels,
            BaseKind::Swap(s, _) => s.0 < self.swaps,
            BaseKind::IGet(i) => (i.0 as usize) < self.ivars.len(),
            BaseKind::MTake(m) => (m.0 as usize) < self.mvars.len(),
            BaseKind::MGet(m) => (m.0 as usize) < self.mvars.len(),
            BaseKind::MSwap(m, _) => (m.0 as usize) < self.mvars.len(),
            BaseKind::MailRecv(b) => (b.0 as usize) < self.mailboxes.len(),
            BaseKind::PortRecv(p) => (p.0 as usize) < self.ports.len(),
            BaseKind::Join(t) => (t.0 as usize) < self.threads.len(),
            BaseKind::Nack(k) => (k.0 as usize) < self.nacks.len(),
        }
    }
}

impl NackTest for State {
    ghost passes = { λ w k. nat_lt k (length w.nacks) };

    fn passes(&self, nack: NackId) -> bool {
        (nack.0 as usize) < self.nacks.len()
    }
}

// The tick now: a base event must not wait for one above the greatest.
#[derive(Drop)]
struct Near {
    tick: u64,
}

impl BaseTest for Near {
    ghost passes = { λ s b. not (is_far s.tick b) };

    fn passes(&self, base: &Base) -> bool {
        match base.kind() {
            BaseKind::At(t) => *t <= MAX_TICK,
            BaseKind::After(d) => match self.tick.checked_add(*d) {
                Some(t) => t <= MAX_TICK,
                None => false,
            },
            _ => true,
        }
    }
}

// What exists: a base event must name what does, and enter as it is.
#[derive(Drop)]
struct AsItIs<'a> {
    state: &'a State,
}

impl<'a> BaseTest for AsItIs<'a> {
    ghost passes = { λ s b. enters_as_it_is s.state.now b };

    fn passes(&self, base: &Base) -> bool {
        match base.kind() {
            BaseKind::After(_) => false,
            BaseKind::At(t) => *t <= MAX_TICK,
            _ => BaseTest::passes(self.state, base),
        }
    }
}

// What exists: a base event must name what does, enter as it is, and look at no light.
#[derive(Drop)]
struct Quiet<'a> {
    state: &'a State,
}

impl<'a> BaseTest for Quiet<'a> {
    ghost passes = { λ s b. enters_quietly s.state.now b };

    fn passes(&self, base: &Base) -> bool {
        let state = self.state;
        match base.kind() {
            BaseKind::Always(_) => true,
            BaseKind::Send(c, _) => c.0 < state.channels,
            BaseKind::Recv(c) => c.0 < state.channels,
            BaseKind::Swap(s, _) => s.0 < state.swaps,
            _ => false,
        }
    }
}

/// What is known of a group.
#[derive(Clone, Copy)]
pub struct Standing {
    /// That it enters as it is and names what exists; and then, whether a scope is in it.
    pub scoped: Option<bool>,
    /// That no leaf of it looks at a light either.
    pub quiet: bool,
}

// A thread that begins to wait: the nack of a scope must be fresh, and this thread's.
#[derive(Drop)]
struct FreshFor<'a> {
    thread: Tid,
    nacks: &'a Register<NackCell>,
}

impl<'a> NackTest for FreshFor<'a> {
    ghost passes = { λ s k. is_fresh_for s.thread.0 (slice_get s.nacks.now.objects k) };

    fn passes(&self, nack: NackId) -> bool {
        match self.nacks.get(nack.0) {
            Some(cell) => cell.is_fresh_of(self.thread),
            None => false,
        }
    }
}

impl State {
    /// What is known of the group. A first walk stops at a base event that looks at a light, names what does not exist, or does not enter
    /// as it is; then a second walk asks all but the lights.
    pub fn standing(&self, group: &Group) -> Standing
        ensures standing { IsStanding self.now group.now result.scoped }
        ensures quiet { result.quiet ≡ true → IsQuiet self.now group.now }
    {
        match walk_whole(&Quiet { state: self }, group) {
            Some(scoped) => Standing {
                scoped: Some(scoped),
                quiet: true,
            },
            None => Standing {
                scoped: walk_whole(&AsItIs { state: self }, group),
                quiet: false,
            },
        }
    }

    // Why the thread can't wait on the group, which enters as it is and has no scope, if it can't.
    #[tactic(auto, using(crate::proofs::Plain::plain_steps))]
    fn plain_refusal(&self, thread: Tid, group: &Group) -> Option<Refusal>
        requires { IsPlain self.now group.now }
        ensures { result ≡ spec.sync_refusal self.now thread.0 group.now }
    {
        if let Some(why) = self.thread_refusal(thread) {
            return Some(why);
        }
        if !has_few_leaves(group) {
            return Some(Refusal::Leaves);
        }
        if !group.fits() {
            return Some(Refusal::Deep);
        }
        None
    }

    // The same, where it may have scopes, without the refusal that is only about whose their nacks are.
    #[tactic(auto, using(crate::proofs::Plain::whole_steps))]
    fn whole_refusal(&self, thread: Tid, group: &Group) -> Option<Refusal>
        requires { IsWhole self.now group.now }
        ensures { result ≡ shape_refusal self.now thread.0 group.now }
    {
        if let Some(why) = self.thread_refusal(thread) {
            return Some(why);
        }
        if !all_nacks(self, group) {
            return Some(Refusal::Object);
        }
        if !has_few_leaves(group) {
            return Some(Refusal::Leaves);
        }
        if !group.fits() {
            return Some(Refusal::Deep);
        }
        None
    }

    // Why the thread can't wait on the group for the nacks of its scopes, all of which exist, if it can't.
    #[inline(never)]
    fn nack_refusal(&mut self, thread: Tid, group: &Group) -> Option<Refusal>
        requires { list_all (λ k. nat_lt k (length self.old.nacks)) (nacks_of (scopes group.now)) ≡ true }
        ensures why { result ≡ first_if (not (spec.can_enter self.old thread.0 (nacks_of (scopes group.now)))) Refusal.Nack None }
        ensures same { self.new ≡ self.old }
    {
        let fresh = FreshFor {
            thread,
            nacks: &self.nacks,
        };
        if !all_nacks(&fresh, group) {
            return Some(Refusal::Nack);
        }
        if !self.marks.each_once(group) {
            return Some(Refusal::Nack);
        }
        None
    }

    /// Why the thread can't wait on the group, if it can't: the first refusal that fits. How the group stands is known.
    pub fn sync_refusal(
        &mut self,
        thread: Tid,
        group: &Group,
        standing: Option<bool>,
    ) -> Option<Refusal>
        requires { IsStanding self.old group.now standing }
        ensures why { result ≡ spec.sync_refusal self.old thread.0 group.now }
        ensures same { self.new ≡ self.old }
    {
        if let Some(false) = standing {
            return self.plain_refusal(thread, group);
        }
        if let Some(why) = self.walked_refusal(thread, group, standing) {
            return Some(why);
        }
        self.nack_refusal(thread, group)
    }

    // Why the thread can't wait on the group, if it can't, without the refusal that is only about the nacks of the scopes. How the group
    // stands is known.
    fn walked_refusal(&self, thread: Tid, group: &Group, standing: Option<bool>) -> Option<Refusal>
        requires { IsStanding self.now group.now standing }
        ensures { result ≡ shape_refusal self.now thread.0 group.now }
    {
        match standing {
            Some(_) => self.whole_refusal(thread, group),
            None => self.shape_refusal(thread, group),
        }
    }

    // The same, where nothing is known of the group.
    #[inline(never)]
    #[tactic(auto, using(crate::proofs::Walks::refusal_steps))]
    fn shape_refusal(&self, thread: Tid, group: &Group) -> Option<Refusal>
        ensures { result ≡ shape_refusal self.now thread.0 group.now }
    {
        if let Some(why) = self.thread_refusal(thread) {
            return Some(why);
        }
        if !all_bases(self, group) || !all_nacks(self, group) {
            return Some(Refusal::Object);
        }
        if !has_few_leaves(group) {
            return Some(Refusal::Leaves);
        }
        if !group.fits() {
            return Some(Refusal::Deep);
        }
        if !all_bases(&Near { tick: self.now() }, group) {
            return Some(Refusal::Far);
        }
        None
    }
}
