//! Hosts: the interface of what holds calls while a control point is asked what to do with them, and a host that keeps to it.
#![tactic(auto)]

ghost use Rattle.std.specs.Prelude.{◌≡◌};
ghost use Rattle.host.specs.Meaning.{HostMeaning, HostRanges, can_join, cleared, holding, joining, letting_go, mode_of};

mod by_call;
mod mode;
mod order;
mod place;

pub use by_call::CallTable;
pub use mode::Mode;
pub use order::Order;
pub use place::Place;

/// How many calls a host looks after: those from 0 to 63.
pub const CALLS: usize = 64;

/// The most ports of a host, and the most circuits.
pub const MOST_PLACES: u8 = 64;

/// A host, which looks after the calls 0 to 63 while a control point decides on them.
///
/// Each call has a mode: not held, held, held on a port, or held on a circuit; and a last order, or none yet. A
/// supplier of a host says by `hosted` what each of its values means: the modes and the last orders of the 64
/// calls in turn, and how many ports and how many circuits there are. That there are 64 of each list, and at most
/// 64 ports and 64 circuits, is owed of every value of the type, by the law `ranges`; keep it in the type by a
/// ghost field. Then each method says what it makes of that meaning, and nothing else is asked: how a host keeps
/// its calls is its own affair.
///
/// - Every method takes every number. For one above 63 it does nothing; a join says no, and the mode is not held.
/// - A method touches no other call than its own, and the numbers of ports and circuits never change.
/// - The ports in use are the calls held on a port, and the circuits in use the calls held on a circuit. So a port
///   or circuit is free again as soon as its call is held anew or let go.
/// - A join names the `Place` that it is for, a port or a circuit. It is refused exactly where the call is not simply
///   held (not held at all, or on a port or circuit already), or all such places are in use. A refused join leaves
///   everything as it was.
/// - Reading the mode changes nothing.
pub trait Host {
    ghost hosted: { Self → HostMeaning };

    /// Clears out: no call is held, and none has an order.
    fn clear(&mut self)
        ensures { hosted self.new ≡ cleared (hosted self.old) };

    /// Holds the call, on no port and no circuit; its last order stays.
    fn hold(&mut self, call: u8)
        ensures { hosted self.new ≡ holding (hosted self.old) call };

    /// Puts a held call on a port or a circuit and records the order, or says no.
    // A `bool`: a no is an answer like a yes, and there is nothing to tell beside it.
    fn join(&mut self, call: u8, place: Place, order: Order) -> bool
        ensures said { result ≡ can_join (hosted self.old) call place }
        ensures after { hosted self.new ≡ joining (hosted self.old) call place order };

    /// Lets the call go and records the order.
    fn let_go(&mut self, call: u8, order: Order)
        ensures { hosted self.new ≡ letting_go (hosted self.old) call order };

    /// The mode of a call.
    fn mode(&self, call: u8) -> Mode
        ensures { result ≡ mode_of (hosted self.now) call };

    ghost ranges: { (host : Self) → HostRanges (hosted host) };
}
