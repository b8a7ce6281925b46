//! What a base event that is taken alone is given: its value, a copy of one that stays, and the light that is turned off.

ghost use Rattle.std.specs.{Prelude.{◌≡◌, ◌≤◌, ◌+◌, ◌++◌, true, false, None, IsTrue, IsOk, IfOk, length, map, slice_get}, Option.{option_map_or}};
ghost use Rattle.std.specs.Vec.{vec_capacity};
ghost use Rattle.cml_objects.specs.Registered.{lit_at};
ghost use Rattle.cml_book.specs.{Commit.{copied, is_read}, Leaving.{can_give, turned_off}};
ghost use Rattle.cml_book.specs.Commit as spec;

use crate::state::State;
use cml_objects::{MVarWant, Register, Source};
use cml_scan::Light;
use cml_value::{Base, BaseKind, Value, ValueKind};
use std::alloc::AllocError;

impl State {
    /// The copy that `given` needs for the base event, which can be taken alone.
    ///
    /// # Errors
    /// Out of memory, where the event reads a variable and leaves its value there.
    pub fn spare(&self, base: &Base) -> Result<Option<Value>, AllocError>
        requires { can_give self.now base.now ≡ true }
        ensures copy { IfOk result (λ copy. copy ≡ copied self.now base.now) }
        ensures sure { is_read base.now ≡ false → IsOk result }
    {
        match base.kind() {
            BaseKind::IGet(i) => spare_of(&self.ivars, i.0, &()),
            BaseKind::MGet(m) => spare_of(&self.mvars, m.0, &MVarWant::Get),
            _ => Ok(None),
        }
    }

    /// Takes the base event alone: changes its object, and returns its value. The copy is the one that `spare` returned.
    pub fn given(&mut self, base: Base, copy: Option<Value>) -> Value
        requires stock { can_give self.old base ≡ true }
        requires copy { copy ≡ copied self.old base }
        ensures value { result ≡ spec.given self.old base }
        ensures world { self.new ≡ spec.taken self.old base }
    {
        match base.into_kind() {
            BaseKind::Always(value) => value,
            BaseKind::IGet(i) => self.ivars.give(i.0, (), copy),
            BaseKind::MTake(m) => self.mvars.give(m.0, MVarWant::Take, copy),
            BaseKind::MGet(m) => self.mvars.give(m.0, MVarWant::Get, copy),
            BaseKind::MSwap(m, value) => self.mvars.give(m.0, MVarWant::Swap(value), copy),
            BaseKind::MailRecv(b) => self.mailboxes.give(b.0, (), copy),
            BaseKind::PortRecv(p) => self.ports.give(p.0, (), copy),
            _ => Value::new(ValueKind::Unit),
        }
    }

    /// Appends the light that is turned off when the base event is taken alone, if one is. There is room for it.
    pub fn push_turned_off(&self, lights: &mut Vec<Light>, base: &Base)
        requires stock { can_give self.now base.now ≡ true }
        requires room { length lights.old.items + 1 ≤ vec_capacity lights.old }
        ensures lights { lights.new.items ≡ lights.old.items ++ turned_off self.now base.now }
        ensures room { vec_capacity lights.new ≡ vec_capacity lights.old }
    {
        match base.kind() {
            BaseKind::MTake(m) => lights.push_reserved(Light::MVar(*m)),
            BaseKind::MailRecv(b) => {
                if !stays_lit(&self.mailboxes, b.0, &()) {
                    lights.push_reserved(Light::Mbox(*b));
                }
            }
            BaseKind::PortRecv(p) => {
                if !stays_lit(&self.ports, p.0, &()) {
                    lights.push_reserved(Light::Port(*p));
                }
            }
            _ => (),
        }
    }
}

// The copy that the object of this number, which is lit, needs for the want.
fn spare_of<K: Source>(
    objects: &Register<K>,
    id: u32,
    want: &K::Want,
) -> Result<Option<Value>, AllocError>
    requires { IsTrue (lit_at K.is_lit (map K.state objects.now.objects) id) }
    ensures { IfOk result (λ copy. copy ≡
        option_map_or (λ s. K.spared s want.now) (slice_get (map K.state objects.now.objects) id) None) }
{
    match objects.get(id) {
        Some(object) => object.spare(want),
        None => Ok(None),
    }
}

// Whether the object of this number, which is lit, stays lit after it gave its value to this want (a take, a read, a swap).
fn stays_lit<K: Source>(objects: &Register<K>, id: u32, want: &K::Want) -> bool
    requires { IsTrue (lit_at K.is_lit (map K.state objects.now.objects) id) }
    ensures { result ≡
        option_map_or (λ s. K.is_lit (K.after s want.now)) (slice_get (map K.state objects.now.objects) id) false }
{
    match objects.get(id) {
        Some(object) => object.stays_lit_after(want),
        None => false,
    }
}
