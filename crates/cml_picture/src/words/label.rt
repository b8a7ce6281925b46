//! What stands beside marks.

use crate::layout::Shape;
use crate::sheet::{Left, Sign};
use cml_facts::ending::{Named, push_named};
use cml_facts::narrative::{Came, Deed, Happened, Met, Took, Turned, push_happened};
use cml_group::Chosen;
use cml_phrase::{
    ObjectState, Told, Who, push_began, push_event, push_first, push_numbered, push_value,
};
use cml_step::Ask;
use cml_text::Sexpr;
use cml_value::{Base, BaseKind, FnRef, NackId, Value, ValueKind};
use std::alloc::{AllocError, Global};

// How many characters of words are shown, and how many at the beginning of a line.
const WORD_LIMIT: usize = 40;

const BEGINNING_LIMIT: usize = 20;

/// What speaks of a program of these forms, of a schedule of so many items, and of threads that have not ended, in the order of their
/// numbers.
#[derive(Clone, Copy)]
pub(crate) struct Speaker<'a> {
    pub(crate) alloc: Global,
    pub(crate) forms: &'a [Sexpr],
    pub(crate) items: usize,
    pub(crate) left: &'a [Left],
}

impl Speaker<'_> {
    /// Words as they are shown.
    pub(crate) fn cut(&self, words: &[u8]) -> Result<Vec<u8>, AllocError> {
        let mut shown = Vec::new(self.alloc);
        push_first(&mut shown, words, WORD_LIMIT)?;
        Ok(shown)
    }

    /// The beginning of a thread's line: its number, and the function with which it began.
    pub(crate) fn beginning(
        &self,
        thread: u64,
        began: Option<&FnRef>,
    ) -> Result<Vec<u8>, AllocError> {
        let mut whole = Vec::new(self.alloc);
        push_numbered(self.alloc, &mut whole, b"", thread)?;
        if let Some(began) = began {
            whole.extend_from_slice(b" ")?;
            push_began(self.alloc, &mut whole, self.forms, began)?;
        }
        let mut shown = Vec::new(self.alloc);
        push_first(&mut shown, whole.as_slice(), BEGINNING_LIMIT)?;
        Ok(shown)
    }

    /// A thread, with the function with which it began.
    pub(crate) fn name(&self, named: &Named) -> Result<Vec<u8>, AllocError> {
        let mut words = Vec::new(self.alloc);
        push_named(self.alloc, &mut words, self.forms, named)?;
        Ok(words)
    }

    // The thread for whose end a base event waits, if it is one of those that have not ended.
    fn behind(&self, base: &Base) -> Option<Who<'_>> {
        let BaseKind::Join(thread) = base.kind() else {
            return None;
        };
        let thread = thread.0;
        let at = self.left.partition_point(|l| l.named.thread < thread);
        match self.left.get(at) {
            Some(left) if left.named.thread == thread => Some(left.named.who()),
            _ => None,
        }
    }

    /// A base event by itself.
    pub(crate) fn event(&self, base: &Base) -> Result<Vec<u8>, AllocError> {
        let mut words = Vec::new(self.alloc);
        let told = Told {
            base,
            state: ObjectState::Unsaid,
            who: self.behind(base),
        };
        push_event(self.alloc, &mut words, self.forms, told)?;
        Ok(words)
    }

    /// The line of an item.
    pub(crate) fn line(&self, happened: &Happened) -> Result<Vec<u8>, AllocError> {
        let mut words = Vec::new(self.alloc);
        push_happened(self.alloc, &mut words, self.forms, self.items, happened)?;
        Ok(words)
    }

    // What is printed, without its line feed: the characters of a text, and any other value as it is shown.
    fn printed(&self, value: &Value) -> Result<Vec<u8>, AllocError> {
        match value.kind() {
            ValueKind::Text(characters) => self.cut(characters.as_str().as_bytes()),
            _ => {
                let text = value.show(self.alloc)?;
                self.cut(text.as_bytes())
            }
        }
    }

    // What an ask feeds, and to what.
    fn fed(&self, ask: &Ask) -> Result<Vec<u8>, AllocError> {
        match ask {
            Ask::IPut(ivar, value) => self.over(b"I-variable ", ivar.0, value),
            Ask::MPut(mvar, value) => self.over(b"M-variable ", mvar.0, value),
            Ask::Mail(mailbox, value) => self.over(b"mailbox ", mailbox.0, value),
            Ask::Multicast(channel, value) => self.over(b"multicast channel ", channel.0, value),
            _ => Ok(Vec::new(self.alloc)),
        }
    }

    // What stands beside the mark of a turn.
    fn turned(&self, turned: &Turned) -> Result<Vec<u8>, AllocError> {
        match &turned.came {
            Came::Failed(name) => self.cut(name.as_slice()),
            Came::Waits(_) => Ok(Vec::new(self.alloc)),
            Came::Done(number) => match &turned.ask {
                Ask::Spawn(function) => self.beginning(*number, Some(function)),
                Ask::Print(value) => self.printed(value),
                ask => self.fed(ask),
            },
        }
    }

    // A value that goes over an object of this kind and number.
    fn over(&self, kind: &[u8], number: u32, value: &Value) -> Result<Vec<u8>, AllocError> {
        let mut words = Vec::new(self.alloc);
        push_numbered(self.alloc, &mut words, kind, u64::from(number))?;
        words.extend_from_slice(b": ")?;
        push_value(self.alloc, &mut words, value)?;
        self.cut(words.as_slice())
    }

    // What goes to another thread, by what the one takes from which it goes.
    fn gone(&self, base: &Base) -> Result<Vec<u8>, AllocError> {
        match base.kind() {
            BaseKind::Send(c, v) => self.over(b"channel ", c.0, v),
            BaseKind::Swap(s, v) => self.over(b"swap channel ", s.0, v),
            _ => Ok(Vec::new(self.alloc)),
        }
    }

    // An event that is always ready, or another base event, as it stands before what it gives.
    fn taken(&self, base: &Base) -> Result<Vec<u8>, AllocError> {
        match base.kind() {
            BaseKind::Always(_) => Vec::from_slice(self.alloc, b"always ready"),
            _ => self.event(base),
        }
    }

    // A base event that is taken alone, and what it gives, if it gives a value of its own.
    fn alone(&self, base: &Base, given: &Value) -> Result<Vec<u8>, AllocError> {
        let mut words = self.taken(base)?;
        match base.kind() {
            BaseKind::Always(_)
            | BaseKind::IGet(_)
            | BaseKind::MTake(_)
            | BaseKind::MGet(_)
            | BaseKind::MSwap(_, _)
            | BaseKind::MailRecv(_)
            | BaseKind::PortRecv(_) => {
                words.extend_from_slice(b": ")?;
                push_value(self.alloc, &mut words, given)?;
            }
            BaseKind::Join(_)
            | BaseKind::At(_)
            | BaseKind::Nack(_)
            | BaseKind::Send(_, _)
            | BaseKind::Recv(_)
            | BaseKind::Swap(_, _)
            | BaseKind::After(_) => {}
        }
        self.cut(words.as_slice())
    }

    // The nacks that fire.
    fn nacks(&self, nacks: &[NackId]) -> Result<Vec<u8>, AllocError> {
        let mut words = Vec::from_slice(self.alloc, b"fires nack")?;
        let mut before: &[u8] = b" ";
        for nack in nacks {
            push_numbered(self.alloc, &mut words, before, u64::from(nack.0))?;
            before = b", ";
        }
        self.cut(words.as_slice())
    }

    // What stands beside the dot of a thread, or beside the nacks that it fires.
    fn took(&self, took: &Took, shape: Shape) -> Result<Vec<u8>, AllocError> {
        match &took.taker.chosen {
            Some(chosen) if shape == Shape::Nack => self.nacks(chosen.lost.as_slice()),
            Some(chosen) => self.alone(&chosen.base, &took.value),
            None => Ok(Vec::new(self.alloc)),
        }
    }

    // What stands at an arrow from a thread, or beside the nacks that it fires.
    fn party(&self, chosen: &Option<Chosen>, shape: Shape) -> Result<Vec<u8>, AllocError> {
        match chosen {
            Some(chosen) if shape == Shape::Nack => self.nacks(chosen.lost.as_slice()),
            Some(chosen) => self.gone(&chosen.base),
            None => Ok(Vec::new(self.alloc)),
        }
    }

    // The same, of the one of two threads whose mark it is.
    fn met(&self, met: &Met, sign: Sign) -> Result<Vec<u8>, AllocError> {
        if sign.thread == u64::from(met.head.thread.thread) {
            self.party(&met.head.chosen, sign.shape)
        } else {
            self.party(&met.other.chosen, sign.shape)
        }
    }

    /// What stands beside a mark of what an item did.
    pub(crate) fn label(&self, deed: &Deed, sign: Sign) -> Result<Vec<u8>, AllocError> {
        match deed {
            Deed::Turned(turned) => self.turned(turned),
            Deed::Took(took) => self.took(took, sign.shape),
            Deed::Met(met) => self.met(met, sign),
            Deed::Moved(tick) => {
                let mut words = Vec::new(self.alloc);
                push_numbered(self.alloc, &mut words, b"tick ", *tick)?;
                Ok(words)
            }
        }
    }
}
