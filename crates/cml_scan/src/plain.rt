//! The scan of a world, plain and slow: it looks at every leaf, and at every two leaves.

ghost use Rattle.std.specs.Prelude.{◌≡◌, ◌++◌, Bool, IfOk};
ghost use Rattle.cml_scan.specs.declared.object.Light.{Light};
ghost use Rattle.cml_scan.specs.Light as light_spec;
ghost use Rattle.cml_scan.specs.Scan as spec;

use crate::looks::light;
use crate::meet::Meet;
use crate::object::Light;
use crate::offer::{Offer, offers};
use crate::world::{NackState, ThreadState, World};
use cml_value::{Base, BaseKind};
use std::alloc::{AllocError, Global};

/// What tells of each light whether it is lit.
pub trait Lights {
    ghost is_lit: { Self → Light → Bool };

    /// Whether the light is lit.
    fn is_lit(&self, light: Light) -> bool
        ensures { result ≡ is_lit self.now light };
}

impl Lights for World {
    ghost is_lit = { light_spec.light_of };

    fn is_lit(&self, light: Light) -> bool {
        match light {
            Light::IVar(i) => matches!(self.ivars.get(i.0 as usize), Some(Some(_))),
            Light::MVar(m) => matches!(self.mvars.get(m.0 as usize), Some(Some(_))),
            Light::Mbox(b) => self
                .mailboxes
                .get(b.0 as usize)
                .is_some_and(|items| !items.is_empty()),
            Light::Port(p) => self
                .ports
                .get(p.0 as usize)
                .is_some_and(|items| !items.is_empty()),
            Light::Joined(t) => matches!(self.threads.get(t.0 as usize), Some(ThreadState::Ended)),
            Light::Alarm(tick) => tick <= self.tick,
            Light::Nack(k) => matches!(self.nacks.get(k.0 as usize), Some(NackState::Fired)),
        }
    }
}

// Whether the base event can be taken alone.
fn is_lit_by<L: Lights>(lights: &L, base: &Base) -> bool
    ensures { result ≡ light_spec.lit_by (L.is_lit lights.now) base.now }
{
    match base.kind() {
        BaseKind::Always(_) => true,
        _ => match light(base) {
            Some(l) => lights.is_lit(l),
            None => false,
        },
    }
}

// Whether the two are the sides of one communication, the first as its head.
fn meets(head: &Base, other: &Base) -> bool
    ensures { result ≡ spec.meets head.now other.now }
{
    match (head.kind(), other.kind()) {
        (BaseKind::Send(c, _), BaseKind::Recv(d)) => c == d,
        (BaseKind::Swap(s, _), BaseKind::Swap(r, _)) => s == r,
        _ => false,
    }
}

// Whether the two leaves communicate, the first as the head.
fn can_meet(head: &Offer, other: &Offer) -> bool
    ensures { result ≡ spec.can_meet head.now other.now }
{
    head.tid != other.tid
        && meets(&head.base, &other.base)
        && (!meets(&other.base, &head.base) || head.tid.0 < other.tid.0)
}

// Appends the rows that this leaf heads.
fn push_pairs(rows: &mut Vec<Meet>, head: &Offer, offers: &[Offer]) -> Result<(), AllocError>
    ensures { IfOk result (λ _. rows.new.items ≡ rows.old.items ++ spec.pairs_with offers.now head.now) }
{
    for other in offers {
        if can_meet(head, other) {
            rows.push(Meet::Pair {
                head: head.tid,
                head_leaf: head.leaf,
                other: other.tid,
                other_leaf: other.leaf,
            })?;
        }
    }
    Ok(())
}

/// The rows of these leaves, in order.
///
/// # Errors
/// Out of memory.
pub fn rows<L: Lights>(alloc: Global, offers: &[Offer], lights: &L) -> Result<Vec<Meet>, AllocError>
    ensures { IfOk result
        (λ rows. rows.items ≡ spec.rows_of (light_spec.lit_by (L.is_lit lights.now)) offers.now) }
{
    let mut rows = Vec::new(alloc);
    for offer in offers {
        if is_lit_by(lights, &offer.base) {
            rows.push(Meet::Single {
                tid: offer.tid,
                leaf: offer.leaf,
            })?;
        }
    }
    for head in offers {
        push_pairs(&mut rows, head, offers)?;
    }
    Ok(rows)
}

/// All communications that are possible in the world, in order.
///
/// # Errors
/// Out of memory, also where a thread or a leaf has no number.
pub fn scan(alloc: Global, world: &World) -> Result<Vec<Meet>, AllocError>
    ensures { IfOk result (λ rows. rows.items ≡ spec.scan world.now) }
{
    let offers = offers(alloc, world)?;
    rows(alloc, &offers, world)
}
