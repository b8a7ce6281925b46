//! A tick that threads wait for.

ghost use Rattle.std.specs.Prelude.{◌≡◌};
ghost use Rattle.cml_objects.specs.Signals.{alarm_at};

use crate::{FeedFault, Source};
use cml_value::{Value, ValueKind};
use std::alloc::AllocError;
use std::marker::Model;

/// One tick for which threads wait. It is fed each time to which the clock has moved, and rings from its tick on.
#[derive(Drop)]
pub struct Alarm {
    tick: u64,
    has_rung: bool,
}

impl Model for Alarm {
    ghost use Rattle.cml_objects.specs.PlainAlarm.{PlainAlarm, alarm_code};

    ghost Value = { PlainAlarm };

    ghost coded = { alarm_code };

    ghost view = { λ alarm. record { tick = alarm.tick; has_rung = alarm.has_rung } };
}

impl Alarm {
    /// The alarm of this tick, where the clock stands at `now`.
    pub fn new(tick: u64, now: u64) -> Alarm
        ensures { result ≡ alarm_at tick now }
    {
        Alarm {
            tick,
            has_rung: tick <= now,
        }
    }

    /// The tick from which on it rings.
    pub fn tick(&self) -> u64
        ensures { result ≡ self.now.tick }
    {
        self.tick
    }
}

impl Source for Alarm {
    ghost use Rattle.std.specs.Prelude.{true, None};
    ghost use Rattle.std.proofs.Common.{rules};
    ghost use Rattle.cml_value.specs.Value.{unit};
    ghost use Rattle.cml_objects.specs.{PlainAlarm.{PlainAlarm}, Signals.{alarm_fed}, SignalLaws.{rung_stays_lit}};

    type Want = ();

    /// The time to which the clock has moved.
    type Feed = u64;

    ghost State = { PlainAlarm };

    ghost state = { λ alarm. alarm };

    ghost is_lit = { λ alarm. alarm.has_rung };

    ghost given = { λ _ _. unit };

    ghost after = { λ alarm _. alarm };

    ghost spared = { λ _ _. None };

    ghost fed = { alarm_fed };

    ghost has_room = { λ _. true };

    ghost STICKY = { true };

    const STICKY: bool = true;

    ghost ROOMY = { true };

    const ROOMY: bool = true;

    fn lit(&self) -> bool {
        self.has_rung
    }

    fn stays_lit_after(&self, _want: &()) -> bool {
        true
    }

    fn spare(&self, _want: &()) -> Result<Option<Value>, AllocError> {
        Ok(None)
    }

    fn give(&mut self, _want: (), _copy: Option<Value>) -> Value {
        Value::new(ValueKind::Unit)
    }

    fn feed(&mut self, now: u64) -> Result<(), FeedFault<u64>> {
        self.has_rung = self.has_rung || self.tick <= now;
        Ok(())
    }

    fn room(&mut self) -> Result<(), AllocError> {
        Ok(())
    }

    ghost stays_lit = { rung_stays_lit };

    ghost sticky = { Prim.search rules };

    ghost roomy = { Prim.search rules };
}
