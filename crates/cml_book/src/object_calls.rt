//! The calls of a book that make and change objects.

ghost use Rattle.cml_book.specs.Outcomes.{Does, DoesWith};
ghost use Rattle.cml_book.specs.MakeObjects as make_spec;
ghost use Rattle.cml_book.specs.MakePort as port_spec;
ghost use Rattle.cml_book.specs.Put as put_spec;
ghost use Rattle.cml_book.specs.Mail as mail_spec;
ghost use Rattle.cml_book.specs.Multicast as multicast_spec;

use crate::book::Book;
use crate::refusal::{Fault, Returned};
use cml_scan::Table;
use cml_value::{IVarId, MVarId, MboxId, McastId, PortId, Value};
use std::alloc::Global;

impl<T: Table> Book<T> {
    /// Makes an empty I-variable.
    ///
    /// # Errors
    /// Refused where there are 65,536 of them; or memory runs out.
    #[inline(never)]
    pub fn make_ivar(&mut self) -> Result<IVarId, Fault>
        ensures { Does result (make_spec.make_ivar self.old) self.old self.new }
    {
        self.state.make_ivar()
    }

    /// Makes an M-variable, which is empty or holds the value.
    ///
    /// # Errors
    /// Refused where the value is too deep or has too many nodes, or where there are 65,536 of them; or memory runs out. The value
    /// comes back.
    #[inline(never)]
    pub fn make_mvar(
        &mut self,
        alloc: Global,
        held: Option<Value>,
    ) -> Result<MVarId, Returned<Option<Value>>>
        ensures { DoesWith result held (make_spec.make_mvar self.old held) self.old self.new }
    {
        self.state.make_mvar(alloc, &mut self.table, held)
    }

    /// Makes a mailbox without items.
    ///
    /// # Errors
    /// Refused where there are 65,536 of them; or memory runs out.
    #[inline(never)]
    pub fn make_mailbox(&mut self, alloc: Global) -> Result<MboxId, Fault>
        ensures { Does result (make_spec.make_mailbox self.old) self.old self.new }
    {
        self.state.make_mailbox(alloc)
    }

    /// Makes a multicast channel without ports.
    ///
    /// # Errors
    /// Refused where there are 65,536 of them; or memory runs out.
    #[inline(never)]
    pub fn make_mchan(&mut self, alloc: Global) -> Result<McastId, Fault>
        ensures { Does result (make_spec.make_mchan self.old) self.old self.new }
    {
        self.state.make_mchan(alloc)
    }

    /// Makes a port of the channel, to which the messages come that are sent from now on.
    ///
    /// # Errors
    /// Refused where there is no such channel, or where there are 65,536 ports; or memory runs out.
    #[inline(never)]
    pub fn make_port(&mut self, alloc: Global, channel: McastId) -> Result<PortId, Fault>
        ensures { Does result (port_spec.make_port self.old channel.0) self.old self.new }
    {
        self.state.make_port(alloc, &mut self.table, channel)
    }

    /// Makes a port of the same channel, with the same unread messages.
    ///
    /// # Errors
    /// Refused where there is no such port, or where there are 65,536 ports; or memory runs out.
    #[inline(never)]
    pub fn copy_port(&mut self, alloc: Global, port: PortId) -> Result<PortId, Fault>
        ensures { Does result (port_spec.copy_port self.old port.0) self.old self.new }
    {
        self.state.copy_port(alloc, &mut self.table, port)
    }

    /// Puts the value into the I-variable.
    ///
    /// # Errors
    /// Refused where there is no such variable, where it is full, or where the value is too deep or has too many nodes; or memory
    /// runs out. The value comes back.
    #[inline(never)]
    pub fn iput(&mut self, alloc: Global, ivar: IVarId, value: Value) -> Result<(), Returned<Value>>
        ensures { DoesWith result value (put_spec.iput self.old ivar.0 value) self.old self.new }
    {
        self.state.iput(alloc, &mut self.table, ivar, value)
    }

    /// Puts the value into the M-variable.
    ///
    /// # Errors
    /// Refused where there is no such variable, where it is full, or where the value is too deep or has too many nodes; or memory
    /// runs out. The value comes back.
    #[inline(never)]
    pub fn mput(&mut self, alloc: Global, mvar: MVarId, value: Value) -> Result<(), Returned<Value>>
        ensures { DoesWith result value (put_spec.mput self.old mvar.0 value) self.old self.new }
    {
        self.state.mput(alloc, &mut self.table, mvar, value)
    }

    /// Puts the value after the items of the mailbox.
    ///
    /// # Errors
    /// Refused where there is no such mailbox, where the value is too deep or has too many nodes, or where the mailbox has 65,536
    /// items; or memory runs out. The value comes back.
    pub fn mail(
        &mut self,
        alloc: Global,
        mailbox: MboxId,
        value: Value,
    ) -> Result<(), Returned<Value>>
        ensures { DoesWith result value
            (mail_spec.mail self.old mailbox.0 value) self.old self.new }
    {
        self.state.mail(alloc, &mut self.table, mailbox, value)
    }

    /// Puts the message after the unread ones of every port of the channel. A channel without ports drops it.
    ///
    /// # Errors
    /// Refused where there is no such channel, where the message is too deep or has too many nodes, or where one of the ports has
    /// 65,536 unread messages; or memory runs out. The message comes back, and no port has got it.
    #[inline(never)]
    pub fn multicast(
        &mut self,
        alloc: Global,
        channel: McastId,
        message: Value,
    ) -> Result<(), Returned<Value>>
        ensures { DoesWith result message
            (multicast_spec.multicast self.old channel.0 message) self.old self.new }
    {
        self.state
            .multicast(alloc, &mut self.table, channel, message)
    }
}
