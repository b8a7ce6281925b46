//! Variables and mailboxes: how they are made, and how values are put into them.

ghost use Rattle.std.specs.Prelude.{◌≡◌, Bool, List};
ghost use Rattle.cml_scan.specs.{World.{PlainEntry}, declared.object.Light.{Light}};
ghost use Rattle.cml_objects.specs.Queues.{is_full_at};
ghost use Rattle.cml_book.specs.{Outcomes.{Does, DoesWith}, Telling.{StaysKept}, Views.{queues_of}};
ghost use Rattle.cml_book.specs.MakeObjects as make_spec;
ghost use Rattle.cml_book.specs.Put as put_spec;
ghost use Rattle.cml_book.specs.Mail as mail_spec;

use crate::book::MAX_OBJECTS;
use crate::feeding::{feed, tell_lit};
use crate::fullness::{ivar_is_full, mvar_is_full};
use crate::refusal::{Fault, Refusal, Returned};
use crate::state::State;
use cml_objects::{IVar, MVar, Mailbox, Register};
use cml_scan::{Light, Table};
use cml_value::{IVarId, MVarId, MboxId, Value};
use std::alloc::Global;

impl State {
    /// Makes an empty I-variable.
    pub(crate) fn make_ivar(&mut self) -> Result<IVarId, Fault>
        ensures step { Does result (make_spec.make_ivar self.old) self.old self.new }
        ensures kept { (entries : List PlainEntry) (told : Light → Bool) →
            StaysKept self.old entries told self.new entries told }
    {
        if self.ivars.len() >= MAX_OBJECTS {
            return Err(Fault::Refused(Refusal::Full));
        }
        let Ok(id) = self.ivars.make(IVar::new()) else {
            return Err(Fault::Memory);
        };
        Ok(IVarId(id))
    }

    /// Makes an M-variable that holds this, and tells the table if it is full.
    pub(crate) fn make_mvar<T: Table>(
        &mut self,
        alloc: Global,
        table: &mut T,
        held: Option<Value>,
    ) -> Result<MVarId, Returned<Option<Value>>>
        ensures step { DoesWith result held (make_spec.make_mvar self.old held) self.old self.new }
        ensures kept { StaysKept self.old (T.entries table.old) (T.is_lit table.old)
            self.new (T.entries table.new) (T.is_lit table.new) }
    {
        if !fits(&held) {
            return Err(Returned::refused(held, Refusal::Deep));
        }
        if self.mvars.len() >= MAX_OBJECTS {
            return Err(Returned::refused(held, Refusal::Full));
        }
        let Ok(()) = self.mvars.room(None) else {
            return Err(Returned::out_of_memory(held));
        };
        let mvar = MVarId(self.mvars.len() as u32);
        let Ok(()) = tell_lit(alloc, table, held.is_none(), Light::MVar(mvar)) else {
            return Err(Returned::out_of_memory(held));
        };
        let Ok(_) = self.mvars.make(MVar::new(held)) else {
            unreachable!();
        };
        Ok(mvar)
    }

    /// Makes a mailbox without items.
    pub(crate) fn make_mailbox(&mut self, alloc: Global) -> Result<MboxId, Fault>
        ensures step { Does result (make_spec.make_mailbox self.old) self.old self.new }
        ensures kept { (entries : List PlainEntry) (told : Light → Bool) →
            StaysKept self.old entries told self.new entries told }
    {
        if self.mailboxes.len() >= MAX_OBJECTS {
            return Err(Fault::Refused(Refusal::Full));
        }
        let Ok(id) = self.mailboxes.make(Mailbox::new(alloc)) else {
            return Err(Fault::Memory);
        };
        Ok(MboxId(id))
    }

    /// Puts the value into the I-variable, and tells the table.
    pub(crate) fn iput<T: Table>(
        &mut self,
        alloc: Global,
        table: &mut T,
        ivar: IVarId,
        value: Value,
    ) -> Result<(), Returned<Value>>
        ensures step { DoesWith result value
            (put_spec.iput self.old ivar.0 value) self.old self.new }
        ensures kept { StaysKept self.old (T.entries table.old) (T.is_lit table.old)
            self.new (T.entries table.new) (T.is_lit table.new) }
    {
        if ivar.0 as usize >= self.ivars.len() {
            return Err(Returned::refused(value, Refusal::Object));
        }
        if ivar_is_full(&self.ivars, ivar) {
            return Err(Returned::refused(value, Refusal::Put));
        }
        if !value.fits() {
            return Err(Returned::refused(value, Refusal::Deep));
        }
        if let Err(value) = feed(
            alloc,
            &mut self.ivars,
            ivar.0,
            value,
            table,
            Light::IVar(ivar),
        ) {
            return Err(Returned::out_of_memory(value));
        }
        Ok(())
    }

    /// Puts the value into the M-variable, and tells the table.
    pub(crate) fn mput<T: Table>(
        &mut self,
        alloc: Global,
        table: &mut T,
        mvar: MVarId,
        value: Value,
    ) -> Result<(), Returned<Value>>
        ensures step { DoesWith result value
            (put_spec.mput self.old mvar.0 value) self.old self.new }
        ensures kept { StaysKept self.old (T.entries table.old) (T.is_lit table.old)
            self.new (T.entries table.new) (T.is_lit table.new) }
    {
        if mvar.0 as usize >= self.mvars.len() {
            return Err(Returned::refused(value, Refusal::Object));
        }
        if mvar_is_full(&self.mvars, mvar) {
            return Err(Returned::refused(value, Refusal::Put));
        }
        if !value.fits() {
            return Err(Returned::refused(value, Refusal::Deep));
        }
        if let Err(value) = feed(
            alloc,
            &mut self.mvars,
            mvar.0,
            value,
            table,
            Light::MVar(mvar),
        ) {
            return Err(Returned::out_of_memory(value));
        }
        Ok(())
    }

    /// Puts the value after the items of the mailbox, and tells the table if it is the first.
    pub(crate) fn mail<T: Table>(
        &mut self,
        alloc: Global,
        table: &mut T,
        mailbox: MboxId,
        value: Value,
    ) -> Result<(), Returned<Value>>
        ensures step { DoesWith result value
            (mail_spec.mail self.old mailbox.0 value) self.old self.new }
        ensures kept { StaysKept self.old (T.entries table.old) (T.is_lit table.old)
            self.new (T.entries table.new) (T.is_lit table.new) }
    {
        if mailbox.0 as usize >= self.mailboxes.len() {
            return Err(Returned::refused(value, Refusal::Object));
        }
        if !value.fits() {
            return Err(Returned::refused(value, Refusal::Deep));
        }
        if mailbox_is_full(&self.mailboxes, mailbox) {
            return Err(Returned::refused(value, Refusal::Full));
        }
        if let Err(value) = feed(
            alloc,
            &mut self.mailboxes,
            mailbox.0,
            value,
            table,
            Light::Mbox(mailbox),
        ) {
            return Err(Returned::out_of_memory(value));
        }
        Ok(())
    }
}

// Whether the value is not too large, if there is one.
fn fits(held: &Option<Value>) -> bool
    ensures { result ≡ make_spec.held_fits held.now }
{
    match held {
        Some(value) => value.fits(),
        None => true,
    }
}

// Whether there is such a mailbox, and it takes no more items.
fn mailbox_is_full(mailboxes: &Register<Mailbox>, id: MboxId) -> bool
    ensures { result ≡ is_full_at (queues_of mailboxes.now.objects) id.0 }
{
    match mailboxes.get(id.0) {
        Some(mailbox) => mailbox.is_full(),
        None => false,
    }
}
