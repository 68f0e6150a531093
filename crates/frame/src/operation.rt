//! What a frame says.
ghost use Rattle.std.specs.Prelude.{◌≡◌, Some};
ghost use Rattle.frame.specs.Operations.{code_in, operation_name};

use crate::code::Code;
use crate::items::Items;
use std::fmt;
use terms::digits::Digits;
use terms::error_code::ErrorCode;

/// An operation and its argument.
#[derive(Clone, Copy)]
pub enum Operation {
    /// The control point could not serve the InitialDP that it was sent.
    InitialDpError(ErrorCode),
    /// Connect the call to another exchange for a while.
    EstablishTemporaryConnection(Digits),
    /// Give up the resource or the temporary connection.
    DisconnectForwardConnection,
    /// Connect the call to a resource of this exchange.
    ConnectToResource,
    /// Connect the call to an address.
    Connect(Digits),
    /// Clear the call for a cause from 1 to 127.
    ReleaseCall(u8),
    /// Watch detection points.
    RequestReportBcsmEvent(Items),
    /// Collect further digits.
    CollectInformation,
    /// Let the call go on as it is.
    Continue,
    /// Wait for so many ticks from now, 1 to 6,000.
    ResetTimer(u16),
    /// Charge for the call, and report what was charged.
    ApplyCharging,
    /// Report on the call when it ends.
    CallInformationRequest,
    /// Forget all that was asked for.
    Cancel,
    /// Answer, to show that the dialogue is alive.
    ActivityTest,
    /// Any operation outside this list. No frame says it, and the writer refuses it.
    Unknown,
}

impl Operation {
    /// Which operation this is, unless it is one outside the list.
    pub(crate) fn code(&self) -> Option<Code>
        ensures { result ≡ code_in self.now }
    {
        match self {
            Operation::InitialDpError(_) => Some(Code::InitialDpError),
            Operation::EstablishTemporaryConnection(_) => Some(Code::EstablishTemporaryConnection),
            Operation::DisconnectForwardConnection => Some(Code::DisconnectForwardConnection),
            Operation::ConnectToResource => Some(Code::ConnectToResource),
            Operation::Connect(_) => Some(Code::Connect),
            Operation::ReleaseCall(_) => Some(Code::ReleaseCall),
            Operation::RequestReportBcsmEvent(_) => Some(Code::RequestReportBcsmEvent),
            Operation::CollectInformation => Some(Code::CollectInformation),
            Operation::Continue => Some(Code::Continue),
            Operation::ResetTimer(_) => Some(Code::ResetTimer),
            Operation::ApplyCharging => Some(Code::ApplyCharging),
            Operation::CallInformationRequest => Some(Code::CallInformationRequest),
            Operation::Cancel => Some(Code::Cancel),
            Operation::ActivityTest => Some(Code::ActivityTest),
            Operation::Unknown => None,
        }
    }

    /// The operation's name in the trade.
    // Beside `Display`: the text itself, for whoever formats nothing.
    pub fn name(&self) -> &'static str
        ensures { operation_name self.now ≡ result.now }
    {
        match self {
            Operation::InitialDpError(_) => "error to InitialDP",
            Operation::EstablishTemporaryConnection(_) => "EstablishTemporaryConnection",
            Operation::DisconnectForwardConnection => "DisconnectForwardConnection",
            Operation::ConnectToResource => "ConnectToResource",
            Operation::Connect(_) => "Connect",
            Operation::ReleaseCall(_) => "ReleaseCall",
            Operation::RequestReportBcsmEvent(_) => "RequestReportBCSMEvent",
            Operation::CollectInformation => "CollectInformation",
            Operation::Continue => "Continue",
            Operation::ResetTimer(_) => "ResetTimer",
            Operation::ApplyCharging => "ApplyCharging",
            Operation::CallInformationRequest => "CallInformationRequest",
            Operation::Cancel => "Cancel",
            Operation::ActivityTest => "ActivityTest",
            Operation::Unknown => "unknown operation",
        }
    }
}

/// Shows the operation's name.
impl fmt::Display for Operation {
    ghost output = { λ o. Some (operation_name o) };

    fn fmt<W: fmt::Write>(&self, f: &mut fmt::Formatter<W>) -> fmt::Result {
        f.pad(self.name())
    }
}

/// A frame: an operation for a dialogue, under an invoke number.
#[derive(Clone, Copy)]
pub struct Frame {
    pub dialogue: u8,
    pub invoke: u8,
    pub operation: Operation,
}
