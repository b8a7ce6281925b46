//! The forced members of a choice.

ghost use Rattle.std.specs.{Prelude.{◌≡◌, ◌↔◌, ◌+◌, ◌++◌, [], IfOk, OnOk, is_some, IfSome, IsTrue}, List.{flat_map}};
ghost use Rattle.cml_value.specs.{Group.{groups, groups_depth, groups_nodes}, Limits.{is_within}};

use cml_value::Group;
use std::alloc::{AllocError, Global};
use std::marker::Model;
use std::sync::Arc;

/// Groups in order, in pieces that copies share. A piece is longer than the next one, so there are few of them; many appends
/// together cost little, also where there are copies.
#[derive(Drop)]
pub struct Done {
    pieces: Vec<Arc<Vec<Group>>>,
}

impl Model for Done {
    ghost use Rattle.std.specs.{Prelude.{List}, List.{flat_map}, Coded.{coded_list}};
    ghost use Rattle.cml_value.specs.{Group.{PlainGroup}, GroupCodes.{group_code}};

    ghost Value = { List PlainGroup };

    ghost coded = { coded_list group_code };

    ghost view = { λ a. flat_map (λ p. p.value.items) a.pieces.items };
}

// Appends copies of the groups.
fn add_copies(all: &mut Vec<Group>, groups: &[Group]) -> Result<(), AllocError>
    ensures { OnOk result (all.new.items ≡ all.old.items ++ groups.now) }
{
    for group in groups {
        all.push(group.copy()?)?;
    }
    Ok(())
}

// What is left of a budget of nodes after the groups, where the budget and the depth are enough for them.
#[tactic(auto, using(std::proofs::lemmas::Bool::Decides::nat_tests))]
fn spend_all(members: &[Group], depth: u32, budget: u32) -> Option<u32>
    ensures enough { is_some result
        ≡ is_within depth budget (groups_depth (groups members.now))
        (groups_nodes (groups members.now)) }
    ensures left { IfSome result (λ left. left + groups_nodes (groups members.now) ≡ budget) }
{
    let mut left = budget;
    for group in members {
        left = group.spend(depth, left)?;
    }
    Some(left)
}

// Appends the groups to those of the pieces, in one piece with the last pieces that are no longer.
fn add_piece(
    pieces: &mut Vec<Arc<Vec<Group>>>,
    alloc: Global,
    last: Vec<Group>,
) -> Result<(), AllocError>
    ensures { OnOk result (flat_map (λ p. p.value.items) pieces.new.items
        ≡ flat_map (λ p. p.value.items) pieces.old.items ++ last.items) }
{
    match pieces.pop() {
        Some(piece) => {
            if piece.len() <= last.len() {
                let mut joined = Vec::new(alloc);
                add_copies(&mut joined, &piece)?;
                add_copies(&mut joined, &last)?;
                return add_piece(pieces, alloc, joined);
            }
            pieces.push(piece)?;
            pieces.push(Arc::new(alloc, last)?)?;
            Ok(())
        }
        None => {
            pieces.push(Arc::new(alloc, last)?)?;
            Ok(())
        }
    }
}

// Whether the two are the same groups, one after another.
fn same_groups(groups: &[Group], others: &[Group]) -> bool
    ensures { IsTrue result ↔ (groups.now ≡ others.now) }
{
    if groups.len() != others.len() {
        return false;
    }
    for i in 0..groups.len() {
        if !groups[i].same(&others[i]) {
            return false;
        }
    }
    true
}

// Whether the groups and those of the pieces are the others and those of the other pieces, however they are cut.
fn same_pieces(
    groups: &[Group],
    pieces: &[Arc<Vec<Group>>],
    others: &[Group],
    other_pieces: &[Arc<Vec<Group>>],
) -> bool
    ensures { IsTrue result ↔ (groups.now ++ flat_map (λ p. p.value.items) pieces.now
        ≡ others.now ++ flat_map (λ p. p.value.items) other_pieces.now) }
{
    if let ([], [piece, rest @ ..]) = (groups, pieces) {
        return same_pieces(piece, rest, others, other_pieces);
    }
    if let ([], [piece, rest @ ..]) = (others, other_pieces) {
        return same_pieces(groups, pieces, piece, rest);
    }
    let many = groups.len().min(others.len());
    if many == 0 {
        return groups.is_empty() && others.is_empty();
    }
    let (first, rest) = groups.split_at(many);
    let (other_first, other_rest) = others.split_at(many);
    same_groups(first, other_first) && same_pieces(rest, pieces, other_rest, other_pieces)
}

impl Done {
    /// No groups.
    pub fn new(alloc: Global) -> Done
        ensures { result ≡ [] }
    {
        Done {
            pieces: Vec::new(alloc),
        }
    }

    /// Another owner of the same groups.
    ///
    /// # Errors
    /// Out of memory.
    pub fn copy(&self, alloc: Global) -> Result<Done, AllocError>
        ensures { IfOk result (λ done. done ≡ self.now) }
    {
        let mut pieces = Vec::new(alloc);
        for piece in &self.pieces {
            pieces.push(Arc::try_clone(piece)?)?;
        }
        Ok(Done { pieces })
    }

    /// Whether the two are the same groups, however their pieces are cut.
    pub fn same(&self, other: &Done) -> bool
        ensures { IsTrue result ↔ (self.now ≡ other.now) }
    {
        same_pieces(&[], &self.pieces, &[], &other.pieces)
    }

    /// All the groups, and then these, in one list. Where there are no others, it is the list of these.
    ///
    /// # Errors
    /// Out of memory.
    pub fn all_with(&self, alloc: Global, more: Vec<Group>) -> Result<Vec<Group>, AllocError>
        ensures { IfOk result (λ all. all.items ≡ self.now ++ more.items) }
    {
        if self.pieces.is_empty() {
            return Ok(more);
        }
        let mut all = Vec::new(alloc);
        for piece in &self.pieces {
            add_copies(&mut all, piece)?;
        }
        add_copies(&mut all, &more)?;
        Ok(all)
    }

    /// All the groups, and then these.
    ///
    /// # Errors
    /// Out of memory.
    pub fn with(&self, alloc: Global, more: Vec<Group>) -> Result<Done, AllocError>
        ensures { IfOk result (λ done. done ≡ self.now ++ more.items) }
    {
        let mut done = self.copy(alloc)?;
        if more.is_empty() {
            return Ok(done);
        }
        add_piece(&mut done.pieces, alloc, more)?;
        Ok(done)
    }

    /// What is left of a budget of nodes after the groups, where the budget and the depth are enough for them.
    #[tactic(auto, using(std::proofs::lemmas::Bool::Decides::nat_tests, crate::proofs::Spending::appended))]
    pub fn spend(&self, depth: u32, budget: u32) -> Option<u32>
        ensures enough { is_some result
            ≡ is_within depth budget (groups_depth (groups self.now))
            (groups_nodes (groups self.now)) }
        ensures left { IfSome result (λ left. left + groups_nodes (groups self.now) ≡ budget) }
    {
        let mut left = budget;
        for piece in &self.pieces {
            left = spend_all(piece, depth, left)?;
        }
        Some(left)
    }
}
