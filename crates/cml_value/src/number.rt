//! The numbers of threads, objects and nacks. A number of one kind can't be used as one of another.

/// The number of a thread.
#[derive(Clone, Copy, PartialEq, Eq, Hash)]
pub struct Tid(pub u32);

/// The number of a channel.
#[derive(Clone, Copy, PartialEq, Eq, Hash)]
pub struct ChanId(pub u32);

/// The number of a swap channel.
#[derive(Clone, Copy, PartialEq, Eq, Hash)]
pub struct SwapId(pub u32);

/// The number of an I-variable.
#[derive(Clone, Copy, PartialEq, Eq, Hash)]
pub struct IVarId(pub u32);

/// The number of an M-variable.
#[derive(Clone, Copy, PartialEq, Eq, Hash)]
pub struct MVarId(pub u32);

/// The number of a mailbox.
#[derive(Clone, Copy, PartialEq, Eq, Hash)]
pub struct MboxId(pub u32);

/// The number of a multicast channel.
#[derive(Clone, Copy, PartialEq, Eq, Hash)]
pub struct McastId(pub u32);

/// The number of a port of a multicast channel.
#[derive(Clone, Copy, PartialEq, Eq, Hash)]
pub struct PortId(pub u32);

/// The number of a nack.
#[derive(Clone, Copy, PartialEq, Eq, Hash)]
pub struct NackId(pub u32);
