//! Marks, one for each number, by which it is found whether a number is named twice.

ghost use Rattle.std.specs.{Prelude.{◌≡◌, ◌==◌, ◌+◌, true, not, nat_lt, OnOk, OnErr, slice_get, slice_set}, List.{list_all}};
ghost use Rattle.cml_value.specs.Group.{scopes, nacks_of};
ghost use Rattle.cml_book.specs.{Sync.{times_named, with_each}, NackMarks.{is_that, was_each_other}};

use cml_value::{Group, GroupKind, NackId};
use std::alloc::{AllocError, Global};
use std::marker::Model;

/// Marks for the numbers below some number. None of them is set between the calls.
#[derive(Drop)]
pub struct NackMarks {
    marks: Vec<bool>,
}

impl Model for NackMarks {
    ghost use Rattle.std.specs.Prelude.{ℕ, length};
    ghost use Rattle.cml_book.specs.NackMarks.{AreClear};

    ghost Value = { ℕ };

    ghost view = { λ m. length m.marks.items };

    ghost invariant = { λ m. AreClear m.marks.items };
}

impl NackMarks {
    pub fn new(alloc: Global) -> NackMarks
        ensures { result ≡ 0 }
    {
        NackMarks {
            marks: Vec::new(alloc),
        }
    }

    /// Adds a mark for one more number.
    pub fn grow(&mut self) -> Result<(), AllocError>
        ensures ok { OnOk result (self.new ≡ self.old + 1) }
        ensures err { OnErr result (self.new ≡ self.old) }
    {
        self.marks.reserve(1)?;
        self.marks.push_reserved(false);
        Ok(())
    }

    /// Whether each nack that a scope of the group names is named by no other scope. One pass marks them, another takes the marks away.
    pub fn each_once(&mut self, group: &Group) -> bool
        requires { list_all (λ k. nat_lt k self.old) (nacks_of (scopes group.now)) ≡ true }
        ensures once { result ≡ (let ks = nacks_of (scopes group.now) in list_all (λ k. times_named k ks == 1) ks) }
        ensures same { self.new ≡ self.old }
    {
        let once = set_each(&mut self.marks, group, true);
        set_each(&mut self.marks, group, false);
        once
    }
}

// Sets the mark of each scope's nack to this. Returns whether none of them had this mark before its turn.
#[tactic(auto, using(crate::proofs::Walks::nack_steps))]
fn set_each(marks: &mut Vec<bool>, group: &Group, so: bool) -> bool
    ensures marks { marks.new.items ≡ with_each (nacks_of (scopes group.now)) so marks.old.items }
    ensures other { result ≡ was_each_other so (nacks_of (scopes group.now)) marks.old.items }
{
    match group.kind() {
        GroupKind::Never | GroupKind::Leaf(_) => true,
        GroupKind::Choose(gs) => {
            let mut all = true;
            for g in gs.iter() {
                if !set_each(marks, g, so) {
                    all = false;
                }
            }
            all
        }
        GroupKind::Wrap(g, _) => set_each(marks, g, so),
        GroupKind::Scope(k, g) => {
            let other = set_one(marks, *k, so);
            set_each(marks, g, so) && other
        }
    }
}

fn set_one(marks: &mut Vec<bool>, nack: NackId, so: bool) -> bool
    ensures marks { marks.new.items ≡ slice_set marks.old.items nack.0 so }
    ensures other { result ≡ not (is_that so (slice_get marks.old.items nack.0)) }
{
    let place = nack.0 as usize;
    if place >= marks.len() {
        return true;
    }
    let was = marks[place];
    marks[place] = so;
    was != so
}
