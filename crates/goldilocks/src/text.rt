//! Numbers of the field as texts.
ghost use Rattle.std.specs.Prelude.{◌≡◌, ◌≤◌, ◌<◌, ◌↔◌, ◌++◌, ◌∷◌, ℕ, length, IfOk, IsOk, OnOk, OnErr, codes, false};
ghost use Rattle.std.specs.Fmt.{decimal, digits};
ghost use Rattle.goldilocks.specs.Field.{prime};
ghost use Rattle.goldilocks.specs.Text.{IsNumberText, text_number, Writes, HasNoDigits, IsFirstBadDigit, IsTooLarge, is_marked};
ghost use Rattle.goldilocks.specs.Reading.{IsAnswer};

use crate::{Felt, PRIME};
use std::alloc::{AllocError, Global};
use std::error::Error;
use std::fmt;

/// Why a text is no number of the field.
#[derive(Clone, Copy, Debug, PartialEq, Eq)]
pub enum TextFault {
    /// The text is empty, or `0x` alone.
    Empty,
    /// The byte at this index, counted from the text's first byte, is the first that isn't a digit.
    BadDigit(usize),
    /// The number is [`PRIME`] or more.
    TooLarge,
}

/// The name of the fault, and the index of its byte where it has one.
impl fmt::Display for TextFault {
    ghost use Rattle.std.specs.Prelude.{Some};
    ghost use Rattle.goldilocks.specs.Text.{text_fault_text};

    ghost output = { λ fault. Some (text_fault_text fault) };

    fn fmt<W: fmt::Write>(&self, f: &mut fmt::Formatter<W>) -> fmt::Result {
        match self {
            TextFault::Empty => write!(f, "Empty"),
            TextFault::BadDigit(index) => write!(f, "BadDigit {index}"),
            TextFault::TooLarge => write!(f, "TooLarge"),
        }
    }
}

impl Error for TextFault {}

impl Felt {
    /// The number that `text` writes in decimal digits, or in hexadecimal digits of either case after `0x`.
    /// Leading zeros are allowed, and nothing else is.
    pub fn read_text(text: &[u8]) -> Result<Felt, TextFault>
        ensures reads { IfOk result (λ value. Writes text.now value.number) }
        ensures accepted { IsOk result ↔ (IsNumberText text.now × (text_number text.now < prime)) }
        ensures empty { (result ≡ Err TextFault.Empty) ↔ HasNoDigits text.now }
        ensures bad_digit { (i : ℕ) → (result ≡ Err (TextFault.BadDigit i)) ↔ IsFirstBadDigit text.now i }
        ensures too_large { (result ≡ Err TextFault.TooLarge) ↔ IsTooLarge text.now }
    {
        if is_marked(text) {
            read_digits(text, 2, 16)
        } else {
            read_digits(text, 0, 10)
        }
    }

    /// Appends the value's decimal digits. The only error is want of memory, and then nothing is appended.
    pub fn write_text(self, alloc: Global, out: &mut Vec<u8>) -> Result<(), AllocError>
        ensures ok { OnOk result (out.new.items ≡ out.old.items ++ decimal self.number) }
        ensures err { OnErr result (out.new.items ≡ out.old.items) }

        // `read_text` reads back what is appended.
        ensures read_back { Writes (decimal self.number) self.number }
    {
        let text = format!(in alloc; "{}", self.number)?;
        out.extend_from_slice(text.as_bytes())
    }

    /// Appends `0x` and the value's lower-case hexadecimal digits, with no leading zeros; 0 is `0x0`. The only error is
    /// want of memory, and then nothing is appended.
    pub fn write_hex(self, alloc: Global, out: &mut Vec<u8>) -> Result<(), AllocError>
        ensures ok { OnOk result (out.new.items ≡ out.old.items ++ (codes "0x" ++ digits 16 false self.number)) }
        ensures err { OnErr result (out.new.items ≡ out.old.items) }

        // `read_text` reads back what is appended.
        ensures read_back { Writes (codes "0x" ++ digits 16 false self.number) self.number }
    {
        let text = format!(in alloc; "0x{:x}", self.number)?;
        out.extend_from_slice(text.as_bytes())
    }
}

/// Whether `text` begins with `0x`.
fn is_marked(text: &[u8]) -> bool
    ensures { result ≡ is_marked text.now }
{
    text.len() >= 2 && text[0] == b'0' && text[1] == b'x'
}

/// The number that the digits from `start` on write in `base`.
fn read_digits(text: &[u8], start: usize, base: u32) -> Result<Felt, TextFault>
    requires low { 2 ≤ base }
    requires high { base ≤ 36 }
    ensures answer { IsAnswer text.now start base result }
{
    if text.len() <= start {
        return Err(TextFault::Empty);
    }
    // What the digits so far write, or p where that is more.
    let mut number: u128 = 0;
    for i in start..text.len() {
        let Some(digit) = char::from(text[i]).to_digit(base) else {
            return Err(TextFault::BadDigit(i));
        };
        number = (number * u128::from(base) + u128::from(digit)).min(u128::from(PRIME));
    }
    if number < u128::from(PRIME) {
        Ok(Felt {
            number: number as u64,
        })
    } else {
        Err(TextFault::TooLarge)
    }
}
