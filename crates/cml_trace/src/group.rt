//! The groups that forms of a trace are.

ghost use Rattle.std.specs.Prelude.{◌≡◌, ◌<◌, map, IfOk, IfSome, IfNone, option_map};
ghost use Rattle.cml_value.specs.Group as plain;
ghost use Rattle.cml_text.specs.Forms.{plain_forms, nesting, nesting_of};
ghost use Rattle.cml_text.specs.Numbers as number_spec;
ghost use Rattle.cml_trace.specs.Given.{both};
ghost use Rattle.cml_trace.specs.Keywords as keyword_spec;
ghost use Rattle.cml_trace.specs.GroupForms as spec;

use crate::form::{number_and_value, value_from, values_from};
use crate::keyword::{Keyword, head_of, keyword_from};
use cml_text::{Sexpr, Shape, number_from, tick_from};
use cml_value::{
    Base, BaseKind, ChanId, FnRef, Group, GroupKind, IVarId, MVarId, MboxId, NackId, PortId,
    SwapId, Tid, Value,
};
use std::alloc::{AllocError, Global};

/// The group that the form is, if it is one.
pub fn group_from(alloc: Global, form: &Sexpr) -> Result<Option<Group>, AllocError>
    ensures { IfOk result (λ group. group ≡ spec.group_from form.now) }
{
    let Some((keyword, behind)) = list_head(form) else {
        return Ok(never_of(keyword_from(form)));
    };
    match keyword {
        Keyword::Choose => {
            let mut members = Vec::new(alloc);
            for member in behind {
                let Some(group) = group_from(alloc, member)? else {
                    return Ok(None);
                };
                members.push(group)?;
            }
            Ok(Some(Group::choose(alloc, members)?))
        }
        Keyword::Wrap => match behind {
            [inner, function, values @ ..] => {
                let inner = group_from(alloc, inner)?;
                wrap_from(alloc, inner, function, values)
            }
            _ => Ok(None),
        },
        Keyword::Scope => match behind {
            [number, inner] => {
                let inner = group_from(alloc, inner)?;
                scope_from(alloc, number, inner)
            }
            _ => Ok(None),
        },
        _ => leaf_by(alloc, keyword, behind),
    }
}

// The keyword at the head of a list, and the forms after it.
fn list_head(form: &Sexpr) -> Option<(Keyword, &[Sexpr])>
    ensures some { let group = spec.group_from form.now in
        IfSome result (λ head. group ≡ spec.group_by head.0 head.1.now (map spec.group_from head.1.now)) }
    ensures lower { IfSome result (λ head. nesting_of (plain_forms head.1.now) < nesting form.now) }
    ensures none { let keyword = keyword_spec.keyword_from form.now in
        IfNone result (spec.group_from form.now ≡ spec.never_of keyword) }
{
    match form.shape() {
        Shape::List(forms) => head_of(forms),
        _ => None,
    }
}

fn never_of(keyword: Option<Keyword>) -> Option<Group>
    ensures { result ≡ spec.never_of keyword }
{
    match keyword {
        Some(Keyword::Never) => Some(Group::new(GroupKind::Never)),
        _ => None,
    }
}

// The group, if there is one, wrapped by the function of this number with these captured values.
fn wrap_from(
    alloc: Global,
    inner: Option<Group>,
    function: &Sexpr,
    captured: &[Sexpr],
) -> Result<Option<Group>, AllocError>
    ensures { let by = spec.function_from function.now captured.now in
        IfOk result (λ group. group ≡ both plain.wrap inner by) }
{
    match function_from(alloc, function, captured) {
        Ok(by) => match inner.zip(by) {
            Some((inner, by)) => Ok(Some(inner.wrap(alloc, by)?)),
            None => Ok(None),
        },
        Err(AllocError) => {
            drop(inner);
            Err(AllocError)
        }
    }
}

// The group, if there is one, in the scope of the nack of this number.
fn scope_from(
    alloc: Global,
    number: &Sexpr,
    inner: Option<Group>,
) -> Result<Option<Group>, AllocError>
    ensures { let nack = number_spec.number_from number.now in
        IfOk result (λ group. group ≡ both plain.scope nack inner) }
{
    match number_from(number).zip(inner) {
        Some((nack, inner)) => Ok(Some(inner.scope(alloc, NackId(nack))?)),
        None => Ok(None),
    }
}

// The function of this number with these captured values.
fn function_from(
    alloc: Global,
    number: &Sexpr,
    captured: &[Sexpr],
) -> Result<Option<FnRef>, AllocError>
    ensures { IfOk result (λ function. function ≡ spec.function_from number.now captured.now) }
{
    let Some(number) = number_from(number) else {
        return Ok(None);
    };
    let Some(values) = values_from(alloc, captured)? else {
        return Ok(None);
    };
    Ok(Some(FnRef::new(alloc, number, values)?))
}

// The base event that these forms after its keyword are, as a group.
fn leaf_by(alloc: Global, keyword: Keyword, forms: &[Sexpr]) -> Result<Option<Group>, AllocError>
    ensures { IfOk result (λ group. group ≡ spec.leaf_by keyword forms.now) }
{
    match base_by(alloc, keyword, forms)? {
        Some(base) => Ok(Some(Group::new(GroupKind::Leaf(base)))),
        None => Ok(None),
    }
}

fn base_by(alloc: Global, keyword: Keyword, forms: &[Sexpr]) -> Result<Option<Base>, AllocError>
    ensures { IfOk result (λ base. base ≡ spec.base_by keyword forms.now) }
{
    match keyword {
        Keyword::Always => always_by(alloc, forms),
        Keyword::Send | Keyword::Swap | Keyword::MSwap => giving_by(alloc, keyword, forms),
        Keyword::At | Keyword::After => Ok(timing_by(keyword, forms)),
        _ => Ok(naming_by(keyword, forms)),
    }
}

fn always_by(alloc: Global, forms: &[Sexpr]) -> Result<Option<Base>, AllocError>
    ensures { IfOk result (λ base. base ≡ spec.always_by forms.now) }
{
    let [form] = forms else {
        return Ok(None);
    };
    match value_from(alloc, form)? {
        Some(value) => Ok(Some(Base::new(BaseKind::Always(value)))),
        None => Ok(None),
    }
}

// The base event that names a channel, a swap channel or a variable and hands over a value.
fn giving_by(alloc: Global, keyword: Keyword, forms: &[Sexpr]) -> Result<Option<Base>, AllocError>
    ensures { IfOk result (λ base. base ≡ spec.giving_by keyword forms.now) }
{
    match number_and_value(alloc, forms)? {
        Some((number, value)) => Ok(giving(keyword, number, value)),
        None => Ok(None),
    }
}

fn giving(keyword: Keyword, n: u32, value: Value) -> Option<Base>
    ensures { result ≡ option_map (λ base. base n value) (spec.giving keyword) }
{
    match keyword {
        Keyword::Send => Some(Base::new(BaseKind::Send(ChanId(n), value))),
        Keyword::Swap => Some(Base::new(BaseKind::Swap(SwapId(n), value))),
        Keyword::MSwap => Some(Base::new(BaseKind::MSwap(MVarId(n), value))),
        _ => None,
    }
}

// The base event that waits for a tick.
fn timing_by(keyword: Keyword, forms: &[Sexpr]) -> Option<Base>
    ensures { result ≡ spec.timing_by keyword forms.now }
{
    let [form] = forms else {
        return None;
    };
    let tick = tick_from(form)?;
    match keyword {
        Keyword::At => Some(Base::new(BaseKind::At(tick))),
        Keyword::After => Some(Base::new(BaseKind::After(tick))),
        _ => None,
    }
}

// The base event that names one channel, variable, queue, thread or nack.
fn naming_by(keyword: Keyword, forms: &[Sexpr]) -> Option<Base>
    ensures { result ≡ spec.naming_by keyword forms.now }
{
    let [form] = forms else {
        return None;
    };
    let n = number_from(form)?;
    let kind = match keyword {
        Keyword::Recv => BaseKind::Recv(ChanId(n)),
        Keyword::IGet => BaseKind::IGet(IVarId(n)),
        Keyword::MTake => BaseKind::MTake(MVarId(n)),
        Keyword::MGet => BaseKind::MGet(MVarId(n)),
        Keyword::MailRecv => BaseKind::MailRecv(MboxId(n)),
        Keyword::PortRecv => BaseKind::PortRecv(PortId(n)),
        Keyword::Join => BaseKind::Join(Tid(n)),
        Keyword::Nack => BaseKind::Nack(NackId(n)),
        _ => return None,
    };
    Some(Base::new(kind))
}
