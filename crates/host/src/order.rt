//! What a host is told to do with a call.
ghost use Rattle.std.specs.Prelude.{◌≡◌};
ghost use Rattle.host.specs.Orders.{order_address, order_cause, order_kind};

use terms::digits::Digits;

/// An order. A cause goes with clearing alone, an address with the two kinds of connection alone.
#[derive(Clone, Copy)]
pub enum Order {
    /// Go on with the call as it stands.
    Continue,
    /// Connect the call to this address.
    Connect(Digits),
    /// Collect further digits from the caller.
    Collect,
    /// Route the call as if no service had been asked for.
    DefaultRoute,
    /// Clear the call: with the cause that the control point named, or 0 where the call ended by itself.
    Clear { cause: u8 },
    /// Connect the caller to a resource that speaks and listens.
    Resource,
    /// Connect the caller to this address for a while.
    TemporaryConnection(Digits),
}

// Kind, cause and address stay methods: each is one field of an order as the format has it, and no conversion of it.
impl Order {
    /// The number of the order's kind.
    pub fn kind(self) -> u8
        ensures { result ≡ order_kind self }
    {
        match self {
            Order::Continue => 1,
            Order::Connect(_) => 2,
            Order::Collect => 3,
            Order::DefaultRoute => 4,
            Order::Clear { .. } => 5,
            Order::Resource => 6,
            Order::TemporaryConnection(_) => 7,
        }
    }

    /// The cause: 0 unless a control point released the call.
    // No `Option`: in the format a cause of 0 is how an order says that no control point named one.
    pub fn cause(self) -> u8
        ensures { result ≡ order_cause self }
    {
        match self {
            Order::Clear { cause } => cause,
            _ => 0,
        }
    }

    /// The ASCII digits of the address: none unless the order connects to one.
    pub fn address(&self) -> &[u8]
        ensures { result.now ≡ order_address self.now }
    {
        match self {
            Order::Connect(address) | Order::TemporaryConnection(address) => address.as_ascii(),
            _ => &[],
        }
    }
}
