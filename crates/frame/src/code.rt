//! Which operation a frame asks for.
ghost use Rattle.std.specs.Prelude.{◌≡◌, Some, None, MatchResult};
ghost use Rattle.frame.specs.Operations.{code_at, code_number};

use terms::unknown_number::UnknownNumber;

/// An operation without its argument.
#[derive(Clone, Copy, PartialEq, Eq, Debug)]
pub enum Code {
    InitialDpError = 0,
    EstablishTemporaryConnection = 17,
    DisconnectForwardConnection = 18,
    ConnectToResource = 19,
    Connect = 20,
    ReleaseCall = 22,
    RequestReportBcsmEvent = 23,
    CollectInformation = 27,
    Continue = 31,
    ResetTimer = 33,
    ApplyCharging = 35,
    CallInformationRequest = 45,
    Cancel = 53,
    ActivityTest = 55,
}

/// The byte that stands for the operation.
impl From<Code> for u8 {
    ghost from_gives = { λ k number. number ≡ code_number k };

    fn from(code: Code) -> u8 {
        code as u8
    }
}

/// The operation that a byte stands for, if it stands for one.
impl TryFrom<u8> for Code {
    type Error = UnknownNumber;

    ghost try_from_gives = { λ number r.
        MatchResult r
        (λ k. (code_at number ≡ Some k) × (code_number k ≡ number))
        (λ _. code_at number ≡ None) };

    fn try_from(number: u8) -> Result<Code, UnknownNumber> {
        match number {
            0 => Ok(Code::InitialDpError),
            17 => Ok(Code::EstablishTemporaryConnection),
            18 => Ok(Code::DisconnectForwardConnection),
            19 => Ok(Code::ConnectToResource),
            20 => Ok(Code::Connect),
            22 => Ok(Code::ReleaseCall),
            23 => Ok(Code::RequestReportBcsmEvent),
            27 => Ok(Code::CollectInformation),
            31 => Ok(Code::Continue),
            33 => Ok(Code::ResetTimer),
            35 => Ok(Code::ApplyCharging),
            45 => Ok(Code::CallInformationRequest),
            53 => Ok(Code::Cancel),
            55 => Ok(Code::ActivityTest),
            _ => Err(UnknownNumber),
        }
    }
}
