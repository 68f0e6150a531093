//! Reading an operation's argument: its length, and the values that have a type of their own.
ghost use Rattle.std.specs.Prelude.{◌≡◌, ◌/◌, ◌%◌, ◌≤◌, false, [], ◌∷◌, length, Some, MatchOption};
ghost use Rattle.std.specs.List.{list_all};
ghost use Rattle.terms.specs.ErrorCodes.{error_number};
ghost use Rattle.terms.specs.ShortLists.{elements};
ghost use Rattle.frame.specs.Limits.{item_size, longest_argument};
ghost use Rattle.frame.specs.Items.{item_bytes, spelt, is_item};
ghost use Rattle.frame.specs.Operations.{address_bytes, argument, code_in, items_in};
ghost use Rattle.frame.specs.Format.{none_fault, error_fault, cause_fault, ticks_fault, address_fault, items_fault, argument_fault};
ghost use Rattle.frame.specs.Steps.{GivesOr};

use crate::code::Code;
use crate::item::Item;
use crate::items::Items;
use crate::limits::{ITEM_SIZE, MOST_ITEMS};
use crate::operation::Operation;
use terms::digits::{Digits, MOST_DIGITS};
use terms::error_code::ErrorCode;
use terms::refusal::Refusal;
use terms::short_list::ShortList;

/// The operation that has no argument.
fn bare(operation: Operation, bytes: &[u8]) -> Result<Operation, Refusal>
    ensures { GivesOr (none_fault bytes.now) (λ v. (v ≡ operation) × (bytes.now ≡ [])) result }
{
    match bytes {
        [] => Ok(operation),
        _ => Err(Refusal::ArgumentLength),
    }
}

/// The one byte of an argument.
fn byte(bytes: &[u8]) -> Result<u8, Refusal>
    ensures { GivesOr (cause_fault bytes.now) (λ v. bytes.now ≡ v ∷ []) result }
{
    match bytes {
        [v] => Ok(*v),
        _ => Err(Refusal::ArgumentLength),
    }
}

/// An error code in one byte.
fn error_code(bytes: &[u8]) -> Result<ErrorCode, Refusal>
    ensures { GivesOr (error_fault bytes.now) (λ v. bytes.now ≡ error_number v ∷ []) result }
{
    match bytes {
        [v] => ErrorCode::try_from(*v).map_err(|_| Refusal::Value),
        _ => Err(Refusal::ArgumentLength),
    }
}

/// A number of ticks in two bytes.
fn ticks(bytes: &[u8]) -> Result<u16, Refusal>
    ensures { GivesOr (ticks_fault bytes.now) (λ v. bytes.now ≡ (v / 256) ∷ (v % 256) ∷ []) result }
{
    match bytes {
        [high, low] => Ok(u16::from_be_bytes([*high, *low])),
        _ => Err(Refusal::ArgumentLength),
    }
}

/// An address: a count, and as many digits.
fn address(bytes: &[u8]) -> Result<Digits, Refusal>
    ensures { GivesOr (address_fault bytes.now) (λ a. address_bytes a ≡ bytes.now) result }
{
    let (count, ascii) = bytes.split_first().ok_or(Refusal::ArgumentLength)?;
    let n = ascii.len();
    if !(1..=MOST_DIGITS).contains(&n) || usize::from(*count) != n {
        return Err(Refusal::ArgumentLength);
    }
    Digits::from_ascii(ascii).ok_or(Refusal::Value)
}

/// The items that bytes spell, unless a point or a mode does not exist.
fn spelt_items(bytes: &[u8]) -> Option<ShortList<Item, MOST_ITEMS>>
    requires { (length bytes.now ≤ longest_argument) × (length bytes.now % item_size ≡ 0) }
    ensures { MatchOption result (list_all is_item (spelt bytes.now) ≡ false) (λ xs. item_bytes (elements xs) ≡ bytes.now) }
{
    let mut items = ShortList::empty();
    // Not `chunks_exact(..).map(..)` and a `collect`: that answers a collection which can run out of memory.
    let mut rest = bytes;
    while let Some((numbers, others)) = rest.split_first_chunk::<ITEM_SIZE>() {
        let item = Item::try_from((numbers[0], numbers[1])).ok()?;
        items.push(item).unwrap();
        rest = others;
    }
    Some(items)
}

/// Items: one or more, each of the same size.
fn items(bytes: &[u8]) -> Result<Items, Refusal>
    ensures { GivesOr (items_fault bytes.now) (λ xs. item_bytes (items_in xs) ≡ bytes.now) result }
{
    let n = bytes.len();
    if !(ITEM_SIZE..=MOST_ITEMS * ITEM_SIZE).contains(&n) || n % ITEM_SIZE != 0 {
        return Err(Refusal::ArgumentLength);
    }
    let items = spelt_items(bytes).ok_or(Refusal::Value)?;
    Ok(Items { items })
}

/// The operation with its argument, or the fault by which the bytes spell none.
pub(crate) fn operation(code: Code, bytes: &[u8]) -> Result<Operation, Refusal>
    ensures { GivesOr (argument_fault code bytes.now) (λ v. (code_in v ≡ Some code) × (argument v ≡ bytes.now)) result }
{
    match code {
        Code::InitialDpError => Ok(Operation::InitialDpError(error_code(bytes)?)),
        Code::EstablishTemporaryConnection => {
            Ok(Operation::EstablishTemporaryConnection(address(bytes)?))
        }
        Code::DisconnectForwardConnection => bare(Operation::DisconnectForwardConnection, bytes),
        Code::ConnectToResource => bare(Operation::ConnectToResource, bytes),
        Code::Connect => Ok(Operation::Connect(address(bytes)?)),
        Code::ReleaseCall => Ok(Operation::ReleaseCall(byte(bytes)?)),
        Code::RequestReportBcsmEvent => Ok(Operation::RequestReportBcsmEvent(items(bytes)?)),
        Code::CollectInformation => bare(Operation::CollectInformation, bytes),
        Code::Continue => bare(Operation::Continue, bytes),
        Code::ResetTimer => Ok(Operation::ResetTimer(ticks(bytes)?)),
        Code::ApplyCharging => bare(Operation::ApplyCharging, bytes),
        Code::CallInformationRequest => bare(Operation::CallInformationRequest, bytes),
        Code::Cancel => bare(Operation::Cancel, bytes),
        Code::ActivityTest => bare(Operation::ActivityTest, bytes),
    }
}
