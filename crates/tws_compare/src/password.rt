//! Passwords that are given as listings show them.

ghost use Rattle.std.specs.Prelude.{◌≡◌, ℕ, true, false, List, length, IfSome, IfNone};
ghost use Rattle.std.specs.List.{list_all};
ghost use Rattle.std.specs.Char.{is_ascii_alphabetic};
ghost use Rattle.byte_output.specs.Bytes.{IsBytes};
ghost use Rattle.hex.specs.Hex.{encode_lower};
ghost use Rattle.tws_compare.specs.Password.{IsShown};

use hex::{FromHex, encode_to_slice};
use tws_file::Password;

// The password that these four letters are.
fn letters_in(bytes: &[u8]) -> Option<[u8; 4]>
    ensures same { IfSome result (λ password. password ≡ bytes.now) }
    ensures four { IfSome result (λ password. length password ≡ 4) }
    ensures letters { IfSome result (λ password. list_all is_ascii_alphabetic password ≡ true) }
    ensures bytes { IfSome result IsBytes }
    ensures none { IfNone result (length bytes.now ≡ 4 → list_all is_ascii_alphabetic bytes.now ≡ false) }
{
    let password = bytes.as_array::<4>()?;
    if Password(*password).is_letters() {
        Some(*password)
    } else {
        None
    }
}

// Whether these are the digits of a password, in lower case.
fn are_digits_of(digits: &[u8], password: [u8; 4]) -> bool
    ensures yes { result ≡ true → digits.now ≡ encode_lower password }
    ensures no { result ≡ false → digits.now ≡ encode_lower password → length password ≡ 4 → ⊥ }
{
    let mut shown = [0; 8];
    encode_to_slice(password, &mut shown).is_ok() && shown.as_slice() == digits
}

// The four bytes that have these digits, in lower case.
fn digits_in(digits: &[u8]) -> Option<[u8; 4]>
    ensures digits { IfSome result (λ password. digits.now ≡ encode_lower password) }
    ensures four { IfSome result (λ password. length password ≡ 4) }
    ensures bytes { IfSome result IsBytes }
    ensures none { IfNone result ((password : List ℕ) → IsBytes password → length password ≡ 4 → digits.now ≡ encode_lower password → ⊥) }
{
    let Ok(password) = <[u8; 4] as FromHex>::from_hex(digits) else {
        return None;
    };
    if are_digits_of(digits, password) {
        Some(password)
    } else {
        None
    }
}

// The password with these digits, if its bytes are not all letters.
fn others_in(digits: &[u8]) -> Option<[u8; 4]>
    ensures digits { IfSome result (λ password. digits.now ≡ encode_lower password) }
    ensures four { IfSome result (λ password. length password ≡ 4) }
    ensures others { IfSome result (λ password. list_all is_ascii_alphabetic password ≡ false) }
    ensures bytes { IfSome result IsBytes }
    ensures none { IfNone result ((password : List ℕ) → IsBytes password → length password ≡ 4 → list_all is_ascii_alphabetic password ≡ false → digits.now ≡ encode_lower password → ⊥) }
{
    let password = digits_in(digits)?;
    if Password(password).is_letters() {
        None
    } else {
        Some(password)
    }
}

/// The password that a listing shows as this text: four letters, or an `x` and the eight lower-case hexadecimal digits of
/// four bytes that are not all letters. `None` for any other text.
pub fn password_shown(text: &str) -> Option<[u8; 4]>
    ensures some { IfSome result (IsShown text.now) }
    ensures none { IfNone result ((password : List ℕ) → IsShown text.now password → ⊥) }
{
    let bytes = text.as_bytes();
    if bytes.len() == 4 {
        letters_in(bytes)
    } else {
        match bytes.strip_prefix(b"x") {
            Some(digits) => others_in(digits),
            None => None,
        }
    }
}
