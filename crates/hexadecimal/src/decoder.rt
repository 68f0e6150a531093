//! From text to bytes.
ghost use Rattle.std.specs.Prelude.{◌≡◌, ◌+◌, ◌*◌, ◌%◌, ◌<◌, ◌≤◌, true, not, ◌++◌, length, drop, IfOk, position};
ghost use Rattle.std.specs.List.{list_all};
ghost use Rattle.hexadecimal.specs.Text.{bytes_of, digit_value, is_hex_digit};
ghost use Rattle.hexadecimal.specs.Promises.{Decodes};

use crate::fault::HexFault;

fn is_hex_digit(c: u8) -> bool
    ensures { result ≡ is_hex_digit c }
{
    matches!(c, b'0'..=b'9' | b'A'..=b'F')
}

fn digit_value(c: u8) -> u8
    requires { is_hex_digit c ≡ true }
    ensures value { result ≡ digit_value c }
    ensures small { result < 16 }
{
    if c <= b'9' { c - b'0' } else { c - b'A' + 10 }
}

/// The byte that two digits spell.
fn byte_value(high: u8, low: u8) -> u8
    requires { (is_hex_digit high ≡ true) × (is_hex_digit low ≡ true) }
    ensures { result ≡ 16 * digit_value high + digit_value low }
{
    16 * digit_value(high) + digit_value(low)
}

/// The place of the first character that is no digit.
fn first_other(text: &[u8]) -> Option<usize>
    ensures { result ≡ position (λ c. not (is_hex_digit c)) text.now }
{
    text.iter().position(|c| !is_hex_digit(*c))
}

/// Writes the bytes that pairs of digits spell.
fn put_bytes(text: &[u8], out: &mut [u8]) -> usize
    requires { (list_all is_hex_digit text.now ≡ true) × ((length text.now % 2 ≡ 0) × (length text.now ≤ 2 * length out.old)) }
    ensures len { length text.now ≡ 2 * result }
    ensures after { out.new ≡ bytes_of text.now ++ drop result out.old }
{
    // A cursor: what a `zip` of the pairs with `out.iter_mut()` leaves in `out` is not known after the loop.
    let mut n = 0;
    let mut rest = text;
    while let Some((pair, others)) = rest.split_first_chunk::<2>() {
        out[n] = byte_value(pair[0], pair[1]);
        n += 1;
        rest = others;
    }
    n
}

/// Writes the bytes that a text spells at the front of `out`, and returns how many; or says what is wrong with the text,
/// and touches nothing.
// The caller lends the memory, and so is told how much of it was used: nothing here may run out of any.
#[tactic(auto, using(crate::proofs::Others::no_other))]
pub fn decode(text: &[u8], out: &mut [u8]) -> Result<usize, HexFault>
    ensures decodes { Decodes text.now out.old result out.new }
    ensures within { IfOk result (λ n. n ≤ length out.new) }
{
    if text.len().div_ceil(2) > out.len() {
        return Err(HexFault::TooLong);
    }
    if let Some(i) = first_other(text) {
        return Err(HexFault::Character(i));
    }
    if text.len() % 2 == 1 {
        return Err(HexFault::Odd);
    }
    Ok(put_bytes(text, out))
}
