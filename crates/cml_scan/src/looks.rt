//! Which object a base event looks at.

ghost use Rattle.std.specs.Prelude.{◌≡◌};
ghost use Rattle.cml_scan.specs.Light as spec;

use crate::object::Light;
use cml_value::{Base, BaseKind};

/// The light of a base event: the object whose state it looks at, if it looks at one.
pub fn light(base: &Base) -> Option<Light>
    ensures { result ≡ spec.light base.now }
{
    match base.kind() {
        BaseKind::Always(_)
        | BaseKind::Send(_, _)
        | BaseKind::Recv(_)
        | BaseKind::Swap(_, _)
        | BaseKind::After(_) => None,
        BaseKind::IGet(i) => Some(Light::IVar(*i)),
        BaseKind::MTake(m) | BaseKind::MGet(m) | BaseKind::MSwap(m, _) => Some(Light::MVar(*m)),
        BaseKind::MailRecv(b) => Some(Light::Mbox(*b)),
        BaseKind::PortRecv(p) => Some(Light::Port(*p)),
        BaseKind::Join(t) => Some(Light::Joined(*t)),
        BaseKind::At(tick) => Some(Light::Alarm(*tick)),
        BaseKind::Nack(k) => Some(Light::Nack(*k)),
    }
}
