//! Saying in words what a frame is, and why it was refused.
use frame::{Frame, Item, Operation};
use std::fmt;
use terms::refusal::Refusal;

/// A code or a point by its number and its name.
#[derive(Clone, Copy)]
struct Numbered<T>(T);

impl<T: Copy + Into<u8> + fmt::Display> fmt::Display for Numbered<T> {
    fn fmt<W: fmt::Write>(&self, f: &mut fmt::Formatter<W>) -> fmt::Result {
        let number: u8 = self.0.into();
        let value = self.0;
        write!(f, "{number} {value}")
    }
}

/// The items, with a comma between each two.
#[derive(Clone, Copy)]
struct Listed<'a>(&'a [Item]);

impl fmt::Display for Listed<'_> {
    fn fmt<W: fmt::Write>(&self, f: &mut fmt::Formatter<W>) -> fmt::Result {
        for (i, item) in self.0.iter().enumerate() {
            let comma = if i > 0 { "," } else { "" };
            let point = Numbered(item.point);
            let mode = item.mode;
            write!(f, "{comma} {point} {mode}")?;
        }
        Ok(())
    }
}

/// The operation's argument.
#[derive(Clone, Copy)]
struct Argument<'a>(&'a Operation);

impl fmt::Display for Argument<'_> {
    fn fmt<W: fmt::Write>(&self, f: &mut fmt::Formatter<W>) -> fmt::Result {
        let operation = self.0;
        match operation {
            Operation::InitialDpError(error) => {
                let error = Numbered(*error);
                write!(f, ": {error}")
            }
            Operation::EstablishTemporaryConnection(address) | Operation::Connect(address) => {
                write!(f, " to {address}")
            }
            Operation::ReleaseCall(cause) => write!(f, ", cause {cause}"),
            Operation::RequestReportBcsmEvent(items) => {
                let items = Listed(items.as_slice());
                write!(f, ":{items}")
            }
            Operation::ResetTimer(ticks) => write!(f, ", ticks {ticks}"),
            _ => Ok(()),
        }
    }
}

/// The frame's dialogue, invoke number, operation and argument.
#[derive(Clone, Copy)]
pub(crate) struct InWords<'a>(pub(crate) &'a Frame);

impl fmt::Display for InWords<'_> {
    fn fmt<W: fmt::Write>(&self, f: &mut fmt::Formatter<W>) -> fmt::Result {
        let (dialogue, invoke) = (self.0.dialogue, self.0.invoke);
        let operation = &self.0.operation;
        let argument = Argument(operation);
        write!(
            f,
            "dialogue {dialogue}, invoke {invoke}: {operation}{argument}"
        )
    }
}

/// The number of the refusal, what it means, and the error code that answers it.
#[derive(Clone, Copy)]
pub(crate) struct Refused(pub(crate) Refusal);

impl fmt::Display for Refused {
    fn fmt<W: fmt::Write>(&self, f: &mut fmt::Formatter<W>) -> fmt::Result {
        let refusal = self.0;
        let number = u8::from(refusal);
        write!(f, "refused by {number}: {refusal}")?;
        if let Some(code) = refusal.error_code() {
            let code = Numbered(code);
            write!(f, "; answered by {code}")?;
        }
        Ok(())
    }
}
