//! Multicast channels.

ghost use Rattle.std.specs.Prelude.{◌≡◌, ◌<◌, ◌≤◌, ◌+◌, ◌++◌, ◌∷◌, [], OnOk, OnErr, IsOk, All, AllPairs};

use cml_value::PortId;
use std::alloc::{AllocError, Global};
use std::marker::Model;

/// A multicast channel: the ports to which it delivers each message. Their numbers ascend, so each is there once.
#[derive(Drop)]
pub struct Multicast {
    ports: Vec<PortId>,
}

impl Model for Multicast {
    ghost use Rattle.std.specs.Prelude.{◌<◌, ◌-◌, AllPairs, vec_capacity, vec_len};
    ghost use Rattle.cml_objects.specs.PlainMulticast.{PlainMulticast};

    ghost Value = { PlainMulticast };

    ghost view = { λ channel. record { ports = channel.ports.items; room = vec_capacity channel.ports - vec_len channel.ports } };

    ghost invariant = { λ channel. AllPairs (λ a b. a.0 < b.0) channel.ports.items };
}

impl Multicast {
    /// A channel without ports.
    pub fn new(alloc: Global) -> Multicast
        ensures { result.ports ≡ [] }
    {
        Multicast {
            ports: Vec::new(alloc),
        }
    }

    /// Its ports.
    pub fn ports(&self) -> &[PortId]
        ensures ports { result.now ≡ self.now.ports }
        ensures once { AllPairs (λ a b. a.0 < b.0) self.now.ports }
    {
        &self.ports
    }

    /// One more port, of a number above those of the others.
    ///
    /// # Errors
    /// Out of memory, unless `room` was called before: nothing changes, and what room there was stays.
    pub fn add(&mut self, port: PortId) -> Result<(), AllocError>
        requires { All (λ other. other.0 < port.0) self.old.ports }
        ensures ok { OnOk result (self.new.ports ≡ self.old.ports ++ port ∷ []) }
        ensures err { OnErr result (self.new.ports ≡ self.old.ports) }
        ensures room { 0 < self.old.room → IsOk result }
        ensures kept { self.old.room ≤ self.new.room + 1 }
        ensures kept_err { OnErr result (self.old.room ≤ self.new.room) }
    {
        self.ports.push(port)?;
        Ok(())
    }

    /// Makes room: the next `add` takes no memory. What room there was stays, also at an error.
    ///
    /// # Errors
    /// Out of memory.
    pub fn room(&mut self) -> Result<(), AllocError>
        ensures ports { self.new.ports ≡ self.old.ports }
        ensures ok { OnOk result (0 < self.new.room) }
        ensures kept { self.old.room ≤ self.new.room }
    {
        self.ports.reserve(1)
    }
}
