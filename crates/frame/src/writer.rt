//! The writer.
ghost use Rattle.std.specs.Prelude.{◌≡◌, ◌+◌, ◌≤◌, ◌/◌, ◌%◌, [], ◌∷◌, length, take, IfOk, Some};
ghost use Rattle.terms.specs.Decimals.{most_digits};
ghost use Rattle.frame.specs.Limits.{longest_argument, longest_frame, most_items, version};
ghost use Rattle.frame.specs.Items.{item_bytes};
ghost use Rattle.frame.specs.Operations.{address_bytes, argument, code_in, code_number};
ghost use Rattle.frame.specs.Format.{wire};
ghost use Rattle.frame.specs.Laws.{ReadsOnlyAs};
ghost use Rattle.frame.specs.Promises.{Writes};
ghost use Rattle.frame.specs.Steps.{Puts};

use crate::check::check_frame;
use crate::code::Code;
use crate::item::Item;
use crate::limits::{HEAD_SIZE, ITEM_SIZE, LONGEST_FRAME, VERSION};
use crate::operation::{Frame, Operation};
use terms::digits::Digits;
use terms::refusal::Refusal;

// Each of these asks for its room. An array's type would say it, but an array of their own would be a second buffer, and each
// byte written twice; and of a part of `out` that `first_chunk_mut` gives and `unwrap` takes out nothing is known after the
// borrow, while a `let .. else` would add a way out that is never taken.

/// Writes how many digits there are, then the digits; returns the bytes written.
fn put_address(address: &Digits, out: &mut [u8]) -> usize
    requires { 1 + most_digits ≤ length out.old }
    ensures puts { Puts (address_bytes address.now) out.old result out.new }
    ensures few { result ≤ 1 + most_digits }
{
    let digits = address.as_ascii();
    let n = 1 + digits.len();
    out[0] = digits.len() as u8;
    out[1..n].copy_from_slice(digits);
    n
}

/// Writes the items one after the other; returns the bytes written.
fn put_items(items: &[Item], out: &mut [u8]) -> usize
    requires { (length items.now ≤ most_items) × (longest_argument ≤ length out.old) }
    ensures puts { Puts (item_bytes items.now) out.old result out.new }
    ensures few { result ≤ longest_argument }
{
    // A cursor: what a `zip` of the items with `out.chunks_exact_mut(2)` leaves in `out` is not known after the loop.
    let mut n = 0;
    for item in items {
        out[n] = u8::from(item.point);
        out[n + 1] = u8::from(item.mode);
        n += ITEM_SIZE;
    }
    n
}

/// Writes one byte; returns that it is one.
fn put_byte(byte: u8, out: &mut [u8]) -> usize
    requires { longest_argument ≤ length out.old }
    ensures puts { Puts (byte ∷ []) out.old result out.new }
    ensures few { result ≤ longest_argument }
{
    out[0] = byte;
    1
}

/// Writes a number in two bytes, the higher one first; returns that they are two.
fn put_number(number: u16, out: &mut [u8]) -> usize
    requires { longest_argument ≤ length out.old }
    ensures puts { Puts ((number / 256) ∷ (number % 256) ∷ []) out.old result out.new }
    ensures few { result ≤ longest_argument }
{
    let [high, low] = number.to_be_bytes();
    out[0] = high;
    out[1] = low;
    2
}

/// Writes the operation's argument; returns the bytes written.
fn put_argument(operation: &Operation, out: &mut [u8]) -> usize
    requires { longest_argument ≤ length out.old }
    ensures puts { Puts (argument operation.now) out.old result out.new }
    ensures few { result ≤ longest_argument }
{
    match operation {
        Operation::InitialDpError(error) => put_byte(u8::from(*error), out),
        Operation::EstablishTemporaryConnection(address) | Operation::Connect(address) => {
            put_address(address, out)
        }
        Operation::ReleaseCall(cause) => put_byte(*cause, out),
        Operation::RequestReportBcsmEvent(items) => put_items(items.as_slice(), out),
        Operation::ResetTimer(ticks) => put_number(*ticks, out),
        _ => 0,
    }
}

/// The bytes before an argument of so many bytes.
fn head(frame: &Frame, code: Code, size: usize) -> [u8; HEAD_SIZE]
    requires { size ≤ longest_argument }
    ensures { result ≡ 0 ∷ (4 + size) ∷ version ∷ frame.now.dialogue ∷ code_number code ∷ frame.now.invoke ∷ [] }
{
    let (dialogue, invoke) = (frame.dialogue, frame.invoke);
    let [high, low] = (4 + size as u16).to_be_bytes();
    [high, low, VERSION, dialogue, u8::from(code), invoke]
}

/// Writes the frame of an operation whose code this is; returns the bytes written.
fn put(frame: &Frame, code: Code, out: &mut [u8]) -> usize
    requires { (longest_frame ≤ length out.old) × (code_in frame.now.operation ≡ Some code) }
    ensures puts { Puts (wire frame.now) out.old result out.new }
    ensures few { result ≤ longest_frame }
{
    let n = put_argument(&frame.operation, &mut out[HEAD_SIZE..LONGEST_FRAME]);
    out[..HEAD_SIZE].copy_from_slice(&head(frame, code, n));
    HEAD_SIZE + n
}

/// Writes the frame at the front of `out`, and returns its length; or refuses it, and touches nothing.
// The caller lends the memory, and so is told how much of it was used: nothing here may run out of any.
pub fn write(frame: &Frame, out: &mut [u8]) -> Result<usize, Refusal>
    ensures writes { Writes frame.now out.old result out.new }
    ensures one_reading { IfOk result (λ n. ReadsOnlyAs (take n out.new) frame.now) }
    ensures within { IfOk result (λ n. n ≤ length out.new) }
{
    if out.len() < LONGEST_FRAME {
        return Err(Refusal::Room);
    }
    let code = check_frame(frame)?;
    Ok(put(frame, code, out))
}
