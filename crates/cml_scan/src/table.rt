//! What a table of communications promises to those who keep it up to date.

ghost use Rattle.std.specs.Prelude.{◌≡◌, ◌<◌, Bool, List, length, IsTrue, IsNone, IsOk, OnOk, OnErr, IfOk, Some, slice_get, All};
ghost use Rattle.cml_scan.specs.{declared.object.Light.{Light}, World.{PlainEntry}, Scan.{scan_of, heads_of, partners_of, has_row}};
ghost use Rattle.cml_scan.specs.Table.{changed, lit_after, CanChange, IsNackOf, nacks_among};

use crate::meet::{Meet, Place};
use crate::object::Light;
use cml_value::{Group, Tid};
use std::alloc::{AllocError, Global};

/// A table of the communications that are possible among the pending threads that it was told of, with the lights as it was told.
pub trait Table {
    /// The pending threads that it was told of, ascending, each with its group.
    ghost entries: { Self → List PlainEntry };

    /// What it was told of each light.
    ghost is_lit: { Self → Light → Bool };

    /// Where this holds, no change is refused in which no thread comes and only nacks of the leaving groups are turned on.
    ghost SURE: { Bool };

    const SURE: bool;

    /// Tells which threads are no longer pending, which one now is, with its group, and which lights were turned on and off.
    /// To tell that a light is as it was changes nothing.
    ///
    /// # Errors
    /// Out of memory: nothing was told.
    fn change(
        &mut self,
        alloc: Global,
        gone: &[Tid],
        came: Option<(Tid, &Group)>,
        lit: &[Light],
        unlit: &[Light],
    ) -> Result<(), AllocError>
        requires ready { CanChange (entries self.old) gone.now came lit.now unlit.now }

        ensures ok { OnOk result (entries self.new ≡ changed (entries self.old) gone.now came.entry) }
        ensures ok_lit { OnOk result ((l : Light) → is_lit self.new l ≡ lit_after lit.now unlit.now l (is_lit self.old l)) }
        ensures err { OnErr result (entries self.new ≡ entries self.old) }
        ensures err_lit { OnErr result ((l : Light) → is_lit self.new l ≡ is_lit self.old l) }
        ensures sure { IsTrue SURE → IsNone came.entry →
            All (IsNackOf (nacks_among gone.now (entries self.old))) lit.now → IsOk result };

    /// All rows, in order.
    ///
    /// # Errors
    /// Out of memory.
    fn rows(&self, alloc: Global) -> Result<Vec<Meet>, AllocError>
        ensures { IfOk result (λ rows. rows.items ≡ scan_of (entries self.now) (is_lit self.now)) };

    /// Whether the row is there.
    fn has(&self, row: &Meet) -> bool
        ensures { result ≡ has_row (scan_of (entries self.now) (is_lit self.now)) row.now };

    /// How many heads there are.
    fn head_count(&self) -> usize
        ensures { result ≡ length (heads_of (scan_of (entries self.now) (is_lit self.now))) };

    /// The head at this place in their order.
    fn head(&self, k: usize) -> Place
        requires { k < length (heads_of (scan_of (entries self.now) (is_lit self.now))) }
        ensures { slice_get (heads_of (scan_of (entries self.now) (is_lit self.now))) k ≡ Some result };

    /// How many rows begin with the head.
    fn partner_count(&self, head: Place) -> usize
        ensures { result ≡ length (partners_of (scan_of (entries self.now) (is_lit self.now)) head) };

    /// The row at this place among those that begin with the head.
    fn partner(&self, head: Place, j: usize) -> Meet
        requires { j < length (partners_of (scan_of (entries self.now) (is_lit self.now)) head) }
        ensures { slice_get (partners_of (scan_of (entries self.now) (is_lit self.now)) head) j ≡ Some result };
}
