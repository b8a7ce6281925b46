//! The commands that make and change objects.

ghost use Rattle.cml_book.specs.Step.{DoesStep};
ghost use Rattle.cml_book.specs.declared.command.Command.TheVariants as command;

use crate::book::Book;
use crate::command::{Command, Reply};
use crate::refusal::Returned;
use crate::run::refused;
use cml_scan::Table;
use cml_value::{IVarId, MVarId, MboxId, McastId, PortId, Value};
use std::alloc::Global;

impl<T: Table> Book<T> {
    pub(crate) fn perform_make_ivar(&mut self) -> Result<Reply, Returned<Command>>
        ensures { DoesStep result command.MakeIVar self.old self.new }
    {
        match self.make_ivar() {
            Ok(ivar) => Ok(Reply::IVar(ivar)),
            Err(fault) => refused(fault, Command::MakeIVar),
        }
    }

    pub(crate) fn perform_make_mvar(
        &mut self,
        alloc: Global,
        held: Option<Value>,
    ) -> Result<Reply, Returned<Command>>
        ensures { DoesStep result (command.MakeMVar held) self.old self.new }
    {
        match self.make_mvar(alloc, held) {
            Ok(mvar) => Ok(Reply::MVar(mvar)),
            Err(back) => refused(back.fault, Command::MakeMVar(back.value)),
        }
    }

    pub(crate) fn perform_make_mailbox(&mut self, alloc: Global) -> Result<Reply, Returned<Command>>
        ensures { DoesStep result command.MakeMailbox self.old self.new }
    {
        match self.make_mailbox(alloc) {
            Ok(mailbox) => Ok(Reply::Mailbox(mailbox)),
            Err(fault) => refused(fault, Command::MakeMailbox),
        }
    }

    pub(crate) fn perform_make_mchan(&mut self, alloc: Global) -> Result<Reply, Returned<Command>>
        ensures { DoesStep result command.MakeMChan self.old self.new }
    {
        match self.make_mchan(alloc) {
            Ok(channel) => Ok(Reply::Mchan(channel)),
            Err(fault) => refused(fault, Command::MakeMChan),
        }
    }

    pub(crate) fn perform_make_port(
        &mut self,
        alloc: Global,
        channel: McastId,
    ) -> Result<Reply, Returned<Command>>
        ensures { DoesStep result (command.MakePort channel) self.old self.new }
    {
        match self.make_port(alloc, channel) {
            Ok(port) => Ok(Reply::Port(port)),
            Err(fault) => refused(fault, Command::MakePort(channel)),
        }
    }

    pub(crate) fn perform_copy_port(
        &mut self,
        alloc: Global,
        port: PortId,
    ) -> Result<Reply, Returned<Command>>
        ensures { DoesStep result (command.CopyPort port) self.old self.new }
    {
        match self.copy_port(alloc, port) {
            Ok(copy) => Ok(Reply::Port(copy)),
            Err(fault) => refused(fault, Command::CopyPort(port)),
        }
    }

    pub(crate) fn perform_iput(
        &mut self,
        alloc: Global,
        ivar: IVarId,
        value: Value,
    ) -> Result<Reply, Returned<Command>>
        ensures { DoesStep result (command.IPut ivar value) self.old self.new }
    {
        match self.iput(alloc, ivar, value) {
            Ok(()) => Ok(Reply::Done),
            Err(back) => refused(back.fault, Command::IPut(ivar, back.value)),
        }
    }

    pub(crate) fn perform_mput(
        &mut self,
        alloc: Global,
        mvar: MVarId,
        value: Value,
    ) -> Result<Reply, Returned<Command>>
        ensures { DoesStep result (command.MPut mvar value) self.old self.new }
    {
        match self.mput(alloc, mvar, value) {
            Ok(()) => Ok(Reply::Done),
            Err(back) => refused(back.fault, Command::MPut(mvar, back.value)),
        }
    }

    pub(crate) fn perform_mail(
        &mut self,
        alloc: Global,
        mailbox: MboxId,
        value: Value,
    ) -> Result<Reply, Returned<Command>>
        ensures { DoesStep result (command.Mail mailbox value) self.old self.new }
    {
        match self.mail(alloc, mailbox, value) {
            Ok(()) => Ok(Reply::Done),
            Err(back) => refused(back.fault, Command::Mail(mailbox, back.value)),
        }
    }

    pub(crate) fn perform_multicast(
        &mut self,
        alloc: Global,
        channel: McastId,
        message: Value,
    ) -> Result<Reply, Returned<Command>>
        ensures { DoesStep result (command.Multicast channel message) self.old self.new }
    {
        match self.multicast(alloc, channel, message) {
            Ok(()) => Ok(Reply::Done),
            Err(back) => refused(back.fault, Command::Multicast(channel, back.value)),
        }
    }
}
