//! Lists of commands, done by one call.

ghost use Rattle.std.specs.Prelude.{◌≡◌, ◌++◌, ◌∷◌, [], IfOk, IfErr, OnOk, OnErr};
ghost use Rattle.cml_book.specs.Step as spec;

use crate::book::Book;
use crate::command::{Command, Reply, Stopped};
use crate::refusal::{Fault, Returned};
use cml_scan::Table;
use std::alloc::Global;

impl<T: Table> Book<T> {
    /// The reply to one command, as `run` replies to each of a list. A refusal is a reply.
    ///
    /// # Errors
    /// Out of memory, only where the command is not refused: it comes back, and nothing changes.
    pub fn perform(&mut self, alloc: Global, command: Command) -> Result<Reply, Returned<Command>>
        ensures { spec.DoesStep result command self.old self.new }
    {
        match command {
            Command::Spawn => match self.spawn() {
                Ok(thread) => Ok(Reply::Thread(thread)),
                Err(fault) => refused(fault, Command::Spawn),
            },
            Command::MakeChan => match self.make_chan() {
                Ok(channel) => Ok(Reply::Chan(channel)),
                Err(fault) => refused(fault, Command::MakeChan),
            },
            Command::MakeSwap => match self.make_swap() {
                Ok(channel) => Ok(Reply::Swap(channel)),
                Err(fault) => refused(fault, Command::MakeSwap),
            },
            Command::Nack(owner) => match self.nack(owner) {
                Ok(nack) => Ok(Reply::Nack(nack)),
                Err(fault) => refused(fault, Command::Nack(owner)),
            },
            Command::Sync(thread, group) => match self.sync(alloc, thread, &group) {
                Ok(()) => Ok(Reply::Done),
                Err(fault) => refused(fault, Command::Sync(thread, group)),
            },
            Command::Commit(row) => match self.commit(alloc, row) {
                Ok(committed) => Ok(Reply::Committed(committed)),
                Err(fault) => refused(fault, Command::Commit(row)),
            },
            Command::End(thread) => match self.end(alloc, thread) {
                Ok(()) => Ok(Reply::Done),
                Err(fault) => refused(fault, Command::End(thread)),
            },
            Command::Clock(to) => match self.clock(alloc, to) {
                Ok(()) => Ok(Reply::Done),
                Err(fault) => refused(fault, Command::Clock(to)),
            },
            Command::MakeIVar => self.perform_make_ivar(),
            Command::MakeMVar(held) => self.perform_make_mvar(alloc, held),
            Command::MakeMailbox => self.perform_make_mailbox(alloc),
            Command::MakeMChan => self.perform_make_mchan(alloc),
            Command::MakePort(channel) => self.perform_make_port(alloc, channel),
            Command::CopyPort(port) => self.perform_copy_port(alloc, port),
            Command::IPut(ivar, value) => self.perform_iput(alloc, ivar, value),
            Command::MPut(mvar, value) => self.perform_mput(alloc, mvar, value),
            Command::Mail(mailbox, value) => self.perform_mail(alloc, mailbox, value),
            Command::Multicast(channel, message) => self.perform_multicast(alloc, channel, message),
        }
    }

    /// The reply to each command in order.
    ///
    /// # Errors
    /// Out of memory, which ends the run: the replies so far and the commands that were not done come back. Room for a reply is made
    /// before its command is done, so a run may stop also at a command that would be refused.
    pub fn run(&mut self, alloc: Global, mut commands: Vec<Command>) -> Result<Vec<Reply>, Stopped>
        ensures replies { IfOk result (λ replies. replies.items ≡ spec.replies_of commands.items self.old) }
        ensures world { OnOk result (self.new ≡ spec.world_after commands.items self.old) }
        ensures stopped { IfErr result
            (λ s. spec.HasStopped commands.items s.replies.items s.left.items self.old self.new) }
    {
        let mut replies: Vec<Reply> = Vec::new(alloc);
        commands.reverse();
        while let Some(command) = commands.pop() {
            if let Err(command) = self.perform_into(alloc, command, &mut replies) {
                commands.push_reserved(command);
                commands.reverse();
                return Err(Stopped {
                    replies,
                    left: commands,
                });
            }
        }
        Ok(replies)
    }

    // Does one command and appends its reply. Where memory runs out the command comes back.
    fn perform_into(
        &mut self,
        alloc: Global,
        command: Command,
        replies: &mut Vec<Reply>,
    ) -> Result<(), Command>
        ensures world { OnOk result (self.new ≡ (spec.step self.old command).0) }
        ensures reply { OnOk result
            (replies.new.items ≡ replies.old.items ++ (spec.step self.old command).1 ∷ []) }
        ensures err { OnErr result (self.new ≡ self.old) }
        ensures replies_err { OnErr result (replies.new.items ≡ replies.old.items) }
        ensures back { IfErr result (λ back. back ≡ command) }
    {
        if replies.reserve(1).is_err() {
            return Err(command);
        }
        match self.perform(alloc, command) {
            Ok(reply) => {
                replies.push_reserved(reply);
                Ok(())
            }
            Err(returned) => Err(returned.value),
        }
    }
}

// The reply to a command that was refused. Where memory ran out the command comes back.
pub(crate) fn refused(fault: Fault, command: Command) -> Result<Reply, Returned<Command>>
    ensures { result ≡ spec.refused_reply fault command }
{
    match fault {
        Fault::Refused(why) => Ok(Reply::Refused(why)),
        Fault::Memory => Err(Returned {
            value: command,
            fault,
        }),
    }
}
