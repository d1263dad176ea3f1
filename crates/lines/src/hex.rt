ghost use Rattle.std.specs.Prelude.{◌≡◌, ℕ, ◌*◌, ◌<◌, ◌≤◌, true, List, ◌++◌, length, drop, is_ok, if◌then◌else◌, Some, None, slice_index};
ghost use Rattle.std.specs.Option.{unwrap_or};
ghost use Rattle.lines.specs.Hex.{hex_digit, hex_value, all_hex, is_hex, hex_bytes, fronted, hex_letter, hex_text};

use std::alloc::AllocError;

// It stays beside the kit's crate `hex`, which refuses a text that has more bytes than there is room for.

// The value of each byte that is a digit, in either case; 255 for what is none. A table: a digit costs one look, whatever it is.
const VALUES: [u8; 256] = [
    255, 255, 255, 255, 255, 255, 255, 255, 255, 255, 255, 255, 255, 255, 255, 255, 255, 255, 255,
    255, 255, 255, 255, 255, 255, 255, 255, 255, 255, 255, 255, 255, 255, 255, 255, 255, 255, 255,
    255, 255, 255, 255, 255, 255, 255, 255, 255, 255, 0, 1, 2, 3, 4, 5, 6, 7, 8, 9, 255, 255, 255,
    255, 255, 255, 255, 10, 11, 12, 13, 14, 15, 255, 255, 255, 255, 255, 255, 255, 255, 255, 255,
    255, 255, 255, 255, 255, 255, 255, 255, 255, 255, 255, 255, 255, 255, 255, 255, 10, 11, 12, 13,
    14, 15, 255, 255, 255, 255, 255, 255, 255, 255, 255, 255, 255, 255, 255, 255, 255, 255, 255,
    255, 255, 255, 255, 255, 255, 255, 255, 255, 255, 255, 255, 255, 255, 255, 255, 255, 255, 255,
    255, 255, 255, 255, 255, 255, 255, 255, 255, 255, 255, 255, 255, 255, 255, 255, 255, 255, 255,
    255, 255, 255, 255, 255, 255, 255, 255, 255, 255, 255, 255, 255, 255, 255, 255, 255, 255, 255,
    255, 255, 255, 255, 255, 255, 255, 255, 255, 255, 255, 255, 255, 255, 255, 255, 255, 255, 255,
    255, 255, 255, 255, 255, 255, 255, 255, 255, 255, 255, 255, 255, 255, 255, 255, 255, 255, 255,
    255, 255, 255, 255, 255, 255, 255, 255, 255, 255, 255, 255, 255, 255, 255, 255, 255, 255, 255,
    255, 255, 255, 255, 255, 255, 255, 255, 255, 255, 255, 255, 255, 255, 255, 255, 255, 255, 255,
    255, 255, 255,
];

// What the table has for a byte.
fn code(b: u8) -> u8
    ensures { result ≡ unwrap_or (hex_digit b) 255 }
{
    VALUES[usize::from(b)]
}

/// The value of a hexadecimal digit in either case, where the byte is one.
pub fn digit(b: u8) -> Option<u8>
    ensures { result ≡ hex_digit b }
{
    let value = code(b);
    if value < 16 { Some(value) } else { None }
}

// The value of a byte that was found to be a digit.
// A 0 stays for what is none: to show here that there is one, the clauses of all that lead here would have to say so.
fn value(b: u8) -> u8
    ensures is { result ≡ hex_value b }
    ensures small { result < 16 }
{
    digit(b).unwrap_or(0)
}

// Every byte of the text is a digit.
fn all_hex(text: &[u8]) -> bool
    ensures { result ≡ all_hex text.now }
{
    text.iter().all(|b| digit(*b).is_some())
}

/// The text stands for one byte or more: digits only, two for each byte.
pub fn is_hex(text: &[u8]) -> bool
    ensures { result ≡ is_hex text.now }
{
    !text.is_empty() && text.len() % 2 == 0 && all_hex(text)
}

// Writes the bytes that the text stands for at the front, as many as there is room for.
fn put(text: &[u8], out: &mut [u8])
    ensures { out.new ≡ fronted (hex_bytes text.now) out.old }
{
    let mut rest = text;
    // What is left is moved on by hand: of what is written through a `zip` with its pairs a proof knows nothing.
    for slot in out.iter_mut() {
        let [high, low, more @ ..] = rest else {
            return;
        };
        *slot = value(*high) * 16 + value(*low);
        rest = more;
    }
}

/// The number of bytes that a hexadecimal text stands for, which are written at the front of `out`, as many as
/// there is room for. None, and nothing is written, where the text is empty or odd or has a byte that is no digit.
pub fn decode(text: &[u8], out: &mut [u8]) -> Option<usize>
    ensures count { result ≡ (if is_hex text.now then Some (length (hex_bytes text.now)) else None) }
    ensures after { out.new ≡ (if is_hex text.now then fronted (hex_bytes text.now) out.old else out.old) }
{
    if !is_hex(text) {
        return None;
    }
    put(text, out);
    Some(text.len() / 2)
}

// The digit, in lower case, that a value below 16 is written as.
fn letter(value: u8) -> u8
    requires { value < 16 }
    ensures { result ≡ hex_letter value }
{
    if value < 10 {
        value + b'0'
    } else {
        value - 10 + b'a'
    }
}

// Writes the digits of the bytes at the front, where there is room for all.
fn write_digits(bytes: &[u8], out: &mut [u8])
    requires { 2 * length bytes.now ≤ length out.old }
    ensures { out.new ≡ hex_text bytes.now ++ drop (2 * length bytes.now) out.old }
{
    // In place, and not by a push for each digit: so the processor writes many at once.
    for (i, b) in bytes.iter().enumerate() {
        out[2 * i] = letter(*b / 16);
        out[2 * i + 1] = letter(*b % 16);
    }
}

/// Appends the bytes as hexadecimal text, two digits each, in lower case; nothing where there is no memory for all.
pub fn push_hex(out: &mut Vec<u8>, bytes: &[u8]) -> Result<(), AllocError>
    ensures { out.new.items ≡ (if is_ok result then out.old.items ++ hex_text bytes.now else out.old.items) }
{
    let start = out.len();
    let digits = bytes.len().checked_mul(2).ok_or(AllocError)?;
    out.resize(start.checked_add(digits).ok_or(AllocError)?, 0)?;
    write_digits(bytes, &mut out[start..]);
    Ok(())
}

/// What is written of some bytes is hexadecimal text, and is read back as these bytes.
pub fn hex_is_read_back()
    ensures text { (bytes : List ℕ) → ((i : ℕ) → slice_index bytes i < 256) → 0 < length bytes → is_hex (hex_text bytes) ≡ true }
    ensures back { (bytes : List ℕ) → ((i : ℕ) → slice_index bytes i < 256) → hex_bytes (hex_text bytes) ≡ bytes }
{}
