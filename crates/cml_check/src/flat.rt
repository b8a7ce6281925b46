//! Instructions in a short form: those that set or test numbers, synchronize on one plain event, mail, put or yield.

ghost use Rattle.std.specs.Prelude.{◌≡◌, IfSome, IfOk, map};
ghost use Rattle.cml_check.specs.Syntax.{value as plain_value, number, variable, unary, binary, act_on_two};
ghost use Rattle.cml_check.specs.{Layout.{let_then, set_then, do_then, if_then, while_then}, InstrViews.{plain_instr}, StmtViews.{plain_effect}};
ghost use Rattle.cml_check.specs.Ops.{flat_expr, offer_expr, told_effect, acting, IsShortOf, AreShort};

use crate::instr::Instr;
use crate::syntax::{
    Act, ActOnOne, ActOnTwo, Binary, Constant, Effect, Expr, ExprKind, Source, Unary,
};
use std::alloc::{AllocError, Global};

/// A short expression: true, a number, what a slot has, or an operation on two of these. The most frequent have forms of their own.
#[derive(Clone, Copy)]
pub enum Flat {
    True,
    Number(i64),
    Slot(usize),
    /// `(+ x y)`, `(+ x z)` and `(- x z)`, where x and y are slots, and z a number.
    AddSlots(usize, usize),
    AddNumber(usize, i64),
    SubNumber(usize, i64),
    /// `(< x y)`, `(< x z)` and `(< z x)`.
    LessSlots(usize, usize),
    LessNumber(usize, i64),
    NumberLess(i64, usize),
    /// Each other operation on two slots, or on a slot and a number.
    Slots(Binary, usize, usize),
    SlotAndNumber(Binary, usize, i64),
    NumberAndSlot(Binary, i64, usize),
}

/// An event to synchronize on: the one that a slot has, or a plain one on what a slot has.
#[derive(Clone, Copy)]
pub enum Offer {
    Event(usize),
    Recv(usize),
    Send(usize, Flat),
    MailRecv(usize),
    MTake(usize),
}

/// An effect whose answer is dropped: the others go first, or an item goes where the slot says.
#[derive(Clone, Copy)]
pub enum Told {
    Yield,
    Mail(usize, Flat),
    MPut(usize, Flat),
}

/// An instruction in its short form.
#[derive(Clone, Copy)]
pub enum Op {
    /// It has none: it gives a slot a value, or tests one.
    Other,
    /// It has none: it has an effect, or returns.
    Acts,
    /// The slot, what it is given, and the place after it.
    Set(usize, Flat, usize),
    /// The test, the place where it holds, and the place where it does not.
    Test(Flat, usize, usize),
    /// The event, the slot that is given what comes of it, if one is, and the place after it.
    Sync(Offer, Option<usize>, usize),
    /// The effect, and the place after it.
    Tell(Told, usize),
}

// Whether the operation is one on numbers.
fn is_of_numbers(op: Binary) -> bool {
    match op {
        Binary::Plus | Binary::Minus | Binary::Times | Binary::Less | Binary::Equal => true,
        Binary::Pair | Binary::Send | Binary::Swap | Binary::MSwap => false,
    }
}

// An operation on two slots.
fn on_slots(op: Binary, x: usize, y: usize) -> Flat
    ensures { flat_expr result ≡ binary op (variable x) (variable y) }
{
    match op {
        Binary::Plus => Flat::AddSlots(x, y),
        Binary::Less => Flat::LessSlots(x, y),
        _ => Flat::Slots(op, x, y),
    }
}

// An operation on a slot and a number.
fn on_slot(op: Binary, x: usize, z: i64) -> Flat
    ensures { flat_expr result ≡ binary op (variable x) (number z) }
{
    match op {
        Binary::Plus => Flat::AddNumber(x, z),
        Binary::Minus => Flat::SubNumber(x, z),
        Binary::Less => Flat::LessNumber(x, z),
        _ => Flat::SlotAndNumber(op, x, z),
    }
}

// An operation on a number and a slot.
fn on_number(op: Binary, z: i64, x: usize) -> Flat
    ensures { flat_expr result ≡ binary op (number z) (variable x) }
{
    match op {
        Binary::Less => Flat::NumberLess(z, x),
        _ => Flat::NumberAndSlot(op, z, x),
    }
}

// An operation in the short form, if it has one.
fn flat_binary(op: Binary, d: &Expr, e: &Expr) -> Option<Flat>
    ensures { IfSome result (λ f. flat_expr f ≡ binary op d.now e.now) }
{
    if !is_of_numbers(op) {
        return None;
    }
    match &d.kind {
        ExprKind::Variable(x) => match &e.kind {
            ExprKind::Variable(y) => Some(on_slots(op, *x, *y)),
            ExprKind::Number(z) => Some(on_slot(op, *x, *z)),
            _ => None,
        },
        ExprKind::Number(z) => match &e.kind {
            ExprKind::Variable(x) => Some(on_number(op, *z, *x)),
            _ => None,
        },
        _ => None,
    }
}

// An expression in the short form, if it has one.
fn flat_of(e: &Expr) -> Option<Flat>
    ensures { IfSome result (λ f. flat_expr f ≡ e.now) }
{
    match &e.kind {
        ExprKind::Constant(Constant::True) => Some(Flat::True),
        ExprKind::Number(z) => Some(Flat::Number(*z)),
        ExprKind::Variable(x) => Some(Flat::Slot(*x)),
        ExprKind::Binary(op, d, e) => flat_binary(*op, d, e),
        _ => None,
    }
}

// The slot of a variable.
fn slot_of(e: &Expr) -> Option<usize>
    ensures { IfSome result (λ x. flat_expr (Flat.Slot x) ≡ e.now) }
{
    match &e.kind {
        ExprKind::Variable(x) => Some(*x),
        _ => None,
    }
}

// A plain event of one operand, if it has a short form.
fn plain_offer(op: Unary, e: &Expr) -> Option<Offer>
    ensures { IfSome result (λ o. offer_expr o ≡ unary op e.now) }
{
    let x = slot_of(e)?;
    match op {
        Unary::Recv => Some(Offer::Recv(x)),
        Unary::MailRecv => Some(Offer::MailRecv(x)),
        Unary::MTake => Some(Offer::MTake(x)),
        _ => None,
    }
}

// A send, if it has a short form.
fn send_offer(d: &Expr, e: &Expr) -> Option<Offer>
    ensures { IfSome result (λ o. offer_expr o ≡ binary Binary.Send d.now e.now) }
{
    let x = slot_of(d)?;
    let item = flat_of(e)?;
    Some(Offer::Send(x, item))
}

// An event in the short form, if it has one.
fn offer_of(e: &Expr) -> Option<Offer>
    ensures { IfSome result (λ o. offer_expr o ≡ e.now) }
{
    match &e.kind {
        ExprKind::Variable(x) => Some(Offer::Event(*x)),
        ExprKind::Unary(op, e) => plain_offer(*op, e),
        ExprKind::Binary(Binary::Send, d, e) => send_offer(d, e),
        _ => None,
    }
}

// What is mailed or put, in the short form, if it has one.
fn told_item(act: ActOnTwo, d: &Expr, e: &Expr) -> Option<Told>
    ensures { IfSome result (λ t. told_effect t ≡ act_on_two act d.now e.now) }
{
    let x = slot_of(d)?;
    let item = flat_of(e)?;
    match act {
        ActOnTwo::Mail => Some(Told::Mail(x, item)),
        ActOnTwo::MPut => Some(Told::MPut(x, item)),
        ActOnTwo::IPut | ActOnTwo::Multicast => None,
    }
}

// An effect in the short form, if it has one and its answer is dropped.
fn told_of(effect: &Effect) -> Option<Told>
    ensures { IfSome result (λ t. told_effect t ≡ plain_effect effect.now) }
{
    match effect {
        Effect::Act(Act::Yield) => Some(Told::Yield),
        Effect::ActOnTwo(act, d, e) => told_item(*act, d, e),
        _ => None,
    }
}

// A slot that is given the value of an expression.
#[tactic(auto, using(crate::proofs::OpLemmas::set_short, crate::proofs::OpLemmas::let_short, crate::proofs::OpLemmas::other_short))]
fn set(slot: usize, e: &Expr, next: usize) -> Op
    ensures set_to { IsShortOf (set_then slot e.now next) result }
    ensures let_be { IsShortOf (let_then slot (plain_value e.now) next) result }
{
    match flat_of(e) {
        Some(f) => Op::Set(slot, f, next),
        None => Op::Other,
    }
}

// A test.
#[tactic(auto, using(crate::proofs::OpLemmas::if_short, crate::proofs::OpLemmas::while_short, crate::proofs::OpLemmas::other_short))]
fn test(e: &Expr, first: usize, second: usize) -> Op
    ensures if_so { IsShortOf (if_then e.now first second) result }
    ensures while_so { IsShortOf (while_then e.now first second) result }
{
    match flat_of(e) {
        Some(f) => Op::Test(f, first, second),
        None => Op::Other,
    }
}

// A synchronization.
#[tactic(auto, using(crate::proofs::OpLemmas::sync_short, crate::proofs::OpLemmas::acts_short))]
fn sync(effect: &Effect, given: Option<usize>, next: usize) -> Op
    ensures { IsShortOf (acting given (plain_effect effect.now) next) result }
{
    match effect {
        Effect::ActOnOne(ActOnOne::Sync, e) => match offer_of(e) {
            Some(o) => Op::Sync(o, given, next),
            None => Op::Acts,
        },
        _ => Op::Acts,
    }
}

// An effect whose answer is dropped.
#[tactic(auto, using(crate::proofs::OpLemmas::tell_short))]
fn tell(effect: &Effect, next: usize) -> Op
    ensures { IsShortOf (do_then (plain_effect effect.now) next) result }
{
    match told_of(effect) {
        Some(t) => Op::Tell(t, next),
        None => sync(effect, None, next),
    }
}

// The short form of an instruction.
#[tactic(auto, using(crate::proofs::OpLemmas::acts_short))]
fn short(instr: &Instr) -> Op
    ensures { IsShortOf (plain_instr instr.now) result }
{
    match instr {
        Instr::Let(slot, source, next) => match source {
            Source::Value(e) => set(*slot, e, *next),
            Source::Effect(effect) => sync(effect, Some(*slot), *next),
        },
        Instr::Set(slot, e, next) => set(*slot, e, *next),
        Instr::Do(effect, next) => tell(effect, *next),
        Instr::If(e, yes, no) => test(e, *yes, *no),
        Instr::While(e, body, next) => test(e, *body, *next),
        Instr::Return(_) => Op::Acts,
    }
}

/// The short forms of instructions.
#[tactic(auto, using(crate::proofs::OpLemmas::shorts_none, crate::proofs::OpLemmas::shorts_next, crate::proofs::OpLemmas::shorts_all))]
pub(crate) fn shorts(alloc: Global, code: &[Instr]) -> Result<Vec<Op>, AllocError>
    ensures { IfOk result (λ ops. AreShort (map plain_instr code.now) ops.items) }
{
    let mut ops = Vec::with_capacity(alloc, code.len())?;
    for instr in code {
        ops.push(short(instr))?;
    }
    Ok(ops)
}
