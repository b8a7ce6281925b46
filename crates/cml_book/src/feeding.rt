//! Objects whose lights are turned on when they are fed.

ghost use Rattle.std.specs.Prelude.{◌≡◌, ◌<◌, length, map};
ghost use Rattle.cml_objects.specs.{Feeds.{IsAccepted}, Registered.{lit_at, fed_at}};
ghost use Rattle.cml_book.specs.{Feeding.{IsTaken}, Telling.{newly_lit, TurnsOn}};

use cml_objects::{FeedFault, Register, Source};
use cml_scan::{Light, Table};
use cml_value::Value;
use std::alloc::{AllocError, Global};

/// Whether there is an object of this number that is lit.
pub(crate) fn is_lit_at<K: Source>(objects: &Register<K>, id: u32) -> bool
    ensures { result ≡ lit_at K.is_lit (map K.state objects.now.objects) id }
{
    match objects.get(id) {
        Some(object) => object.lit(),
        None => false,
    }
}

/// Feeds the object of this number a value that it takes and that turns its light on. If the light was off, the table is told
/// first. Room for the value is made before that, so nothing can fail any more once the table is told.
///
/// # Errors
/// Out of memory: the value comes back, and neither the objects nor what the table was told has changed.
pub(crate) fn feed<K: Source<Feed = Value>, T: Table>(
    alloc: Global,
    objects: &mut Register<K>,
    id: u32,
    value: Value,
    table: &mut T,
    light: Light,
) -> Result<(), Value>
    requires there { id < length objects.old.objects }
    requires accepted { IsAccepted (fed_at K.fed (map K.state objects.old.objects) id value) }
    ensures states { IsTaken result (fed_at K.fed (map K.state objects.old.objects) id value) value
        (map K.state objects.old.objects) (map K.state objects.new.objects) }
    ensures told { TurnsOn result
        (newly_lit (lit_at K.is_lit (map K.state objects.old.objects) id) light)
        (T.entries table.old) (T.entries table.new) (T.is_lit table.old) (T.is_lit table.new) }
    ensures len { length objects.new.objects ≡ length objects.old.objects }
    ensures waits { objects.new.waits ≡ objects.old.waits }
{
    let Ok(()) = objects.room(Some(id)) else {
        return Err(value);
    };
    let Ok(()) = tell_lit(alloc, table, is_lit_at(objects, id), light) else {
        return Err(value);
    };
    match objects.feed(id, value) {
        Ok(()) => Ok(()),
        Err(_) => unreachable!(),
    }
}

/// Tells the table that the light is on, unless there is nothing to tell: it was on before, or stays off.
///
/// # Errors
/// Out of memory: nothing was told.
pub(crate) fn tell_lit<T: Table>(
    alloc: Global,
    table: &mut T,
    is_known: bool,
    light: Light,
) -> Result<(), AllocError>
    ensures { TurnsOn result (newly_lit is_known light)
        (T.entries table.old) (T.entries table.new) (T.is_lit table.old) (T.is_lit table.new) }
{
    if is_known {
        return Ok(());
    }
    table.change(alloc, &[], None, &[light], &[])
}
