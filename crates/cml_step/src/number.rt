//! Numbers and truth values of expressions, found without a value made of each part. `None` says nothing: then the value is to be found in
//! full, where each fault is told.

ghost use Rattle.std.specs.Prelude.{◌≡◌, ◌<◌, length, Ok, IfSome};
ghost use Rattle.cml_value.specs.Value.{int, truth};
ghost use Rattle.cml_check.specs.Ops.{flat_expr};
ghost use Rattle.cml_step.specs.{Variables.{slot_value}, Evaluate.{evaluate}};
ghost use Rattle.cml_step.specs.Operators as operators;

use cml_check::{Binary, Expr, ExprKind, Flat};
use cml_value::{Value, ValueKind};

/// The number in a slot, if it is there and has one.
#[inline(always)]
pub(crate) fn number_in(slots: &[Value], at: usize) -> Option<i64>
    ensures found { IfSome result (λ z. slot_value slots.now at ≡ int z) }
    ensures there { IfSome result (λ _. at < length slots.now) }
{
    match slots.get(at) {
        Some(value) => match value.kind() {
            ValueKind::Int(z) => Some(*z),
            _ => None,
        },
        None => None,
    }
}

// What the operation makes of two numbers, where that is a number.
#[inline(always)]
#[tactic(auto, using(crate::proofs::Numbers::number_fits))]
fn counted(operator: Binary, x: i64, y: i64) -> Option<i64>
    ensures { IfSome result (λ z. operators.binary_value operator (int x) (int y) ≡ Ok (int z)) }
{
    match operator {
        Binary::Plus => x.checked_add(y),
        Binary::Minus => x.checked_sub(y),
        Binary::Times => x.checked_mul(y),
        _ => None,
    }
}

// The test of two numbers.
#[inline(always)]
fn tested(operator: Binary, x: i64, y: i64) -> Option<bool>
    ensures { IfSome result (λ b. operators.binary_value operator (int x) (int y) ≡ Ok (truth b)) }
{
    match operator {
        Binary::Less => Some(x < y),
        Binary::Equal => Some(x == y),
        _ => None,
    }
}

/// The number that a short expression is, where it is one and has no fault.
#[inline(always)]
pub(crate) fn flat_int(slots: &[Value], e: &Flat) -> Option<i64>
    ensures { IfSome result (λ z. evaluate (slot_value slots.now) (flat_expr e.now) ≡ Ok (int z)) }
{
    match e {
        Flat::AddSlots(x, y) => {
            let x = number_in(slots, *x)?;
            let y = number_in(slots, *y)?;
            counted(Binary::Plus, x, y)
        }
        Flat::AddNumber(x, z) => {
            let x = number_in(slots, *x)?;
            counted(Binary::Plus, x, *z)
        }
        Flat::SubNumber(x, z) => {
            let x = number_in(slots, *x)?;
            counted(Binary::Minus, x, *z)
        }
        Flat::Number(z) => Some(*z),
        Flat::Slot(x) => number_in(slots, *x),
        Flat::Slots(operator, x, y) => {
            let x = number_in(slots, *x)?;
            let y = number_in(slots, *y)?;
            counted(*operator, x, y)
        }
        Flat::SlotAndNumber(operator, x, z) => {
            let x = number_in(slots, *x)?;
            counted(*operator, x, *z)
        }
        Flat::NumberAndSlot(operator, z, x) => {
            let x = number_in(slots, *x)?;
            counted(*operator, *z, x)
        }
        _ => None,
    }
}

// The truth value in a slot, if it is one.
#[inline(always)]
fn truth_at(slots: &[Value], at: usize) -> Option<bool>
    ensures { IfSome result (λ b. slot_value slots.now at ≡ truth b) }
{
    match slots.get(at) {
        Some(value) => match value.kind() {
            ValueKind::Bool(b) => Some(*b),
            _ => None,
        },
        None => None,
    }
}

/// The truth value that a short expression is, where it is one and has no fault.
#[inline(always)]
pub(crate) fn flat_truth(slots: &[Value], e: &Flat) -> Option<bool>
    ensures { IfSome result (λ b.
        evaluate (slot_value slots.now) (flat_expr e.now) ≡ Ok (truth b)) }
{
    match e {
        Flat::LessSlots(x, y) => {
            let x = number_in(slots, *x)?;
            let y = number_in(slots, *y)?;
            tested(Binary::Less, x, y)
        }
        Flat::LessNumber(x, z) => {
            let x = number_in(slots, *x)?;
            tested(Binary::Less, x, *z)
        }
        Flat::NumberLess(z, x) => {
            let x = number_in(slots, *x)?;
            tested(Binary::Less, *z, x)
        }
        Flat::True => Some(true),
        Flat::Slot(x) => truth_at(slots, *x),
        Flat::Slots(operator, x, y) => {
            let x = number_in(slots, *x)?;
            let y = number_in(slots, *y)?;
            tested(*operator, x, y)
        }
        Flat::SlotAndNumber(operator, x, z) => {
            let x = number_in(slots, *x)?;
            tested(*operator, x, *z)
        }
        Flat::NumberAndSlot(operator, z, x) => {
            let x = number_in(slots, *x)?;
            tested(*operator, *z, x)
        }
        _ => None,
    }
}

// The number that an expression is, however deep it is.
#[inline(never)]
fn deep_int(slots: &[Value], e: &Expr) -> Option<i64>
    ensures { IfSome result (λ z. evaluate (slot_value slots.now) e.now ≡ Ok (int z)) }
{
    match &e.kind {
        ExprKind::Number(z) => Some(*z),
        ExprKind::Variable(at) => number_in(slots, *at),
        ExprKind::Binary(operator, d, e) => match operator {
            Binary::Plus | Binary::Minus | Binary::Times => {
                let x = deep_int(slots, d)?;
                let y = deep_int(slots, e)?;
                counted(*operator, x, y)
            }
            _ => None,
        },
        _ => None,
    }
}

// The number that a part of an expression is. Most parts are variables and numbers, so these are looked for here.
#[inline(always)]
fn part_int(slots: &[Value], e: &Expr) -> Option<i64>
    ensures { IfSome result (λ z. evaluate (slot_value slots.now) e.now ≡ Ok (int z)) }
{
    match &e.kind {
        ExprKind::Variable(at) => number_in(slots, *at),
        ExprKind::Number(z) => Some(*z),
        _ => deep_int(slots, e),
    }
}

/// The number that an expression is, where it can be found so and has no fault.
#[inline(always)]
pub(crate) fn quick_int(slots: &[Value], e: &Expr) -> Option<i64>
    ensures { IfSome result (λ z. evaluate (slot_value slots.now) e.now ≡ Ok (int z)) }
{
    match &e.kind {
        ExprKind::Number(z) => Some(*z),
        ExprKind::Variable(at) => number_in(slots, *at),
        ExprKind::Binary(operator, d, e) => match operator {
            Binary::Plus | Binary::Minus | Binary::Times => {
                let x = part_int(slots, d)?;
                let y = part_int(slots, e)?;
                counted(*operator, x, y)
            }
            _ => None,
        },
        _ => None,
    }
}

/// The truth value that an expression is, where it is a test of two numbers and has no fault.
#[inline(always)]
pub(crate) fn quick_truth(slots: &[Value], e: &Expr) -> Option<bool>
    ensures { IfSome result (λ b. evaluate (slot_value slots.now) e.now ≡ Ok (truth b)) }
{
    match &e.kind {
        ExprKind::Binary(operator, d, e) => match operator {
            Binary::Less | Binary::Equal => {
                let x = part_int(slots, d)?;
                let y = part_int(slots, e)?;
                tested(*operator, x, y)
            }
            _ => None,
        },
        _ => None,
    }
}
