ghost use Rattle.std.specs.Prelude.{◌≡◌, ◌<◌, ◌++◌, [], unwrap_or, IfOk, IfSome};
ghost use Rattle.std.specs.Option.{is_some};
ghost use Rattle.hd_deck.specs.Deck.{hex_byte, hex_bytes, hex_value};

use std::alloc::AllocError;

/// Whether hexadecimal digits spell bytes, two digits each.
pub(crate) fn are_hex_bytes(digits: &[u8]) -> bool
    ensures { result ≡ is_some (hex_bytes digits.now) }
{
    let mut rest = digits;
    'pairs: while rest.len() > 1 {
        if hex_byte(rest[0], rest[1]).is_none() {
            return false;
        }
        rest = &rest[2..];
    }
    rest.is_empty()
}

/// Puts the bytes that hexadecimal digits spell, two digits each, behind others: none where they spell none.
pub(crate) fn put_hex_bytes(bytes: &mut Vec<u8>, digits: &[u8]) -> Result<(), AllocError>
    ensures { IfOk result (λ _. bytes.new.items ≡ bytes.old.items ++ unwrap_or (hex_bytes digits.now) []) }
{
    let before = bytes.len();
    let mut rest = digits;
    'pairs: while rest.len() > 1 {
        let Some(byte) = hex_byte(rest[0], rest[1]) else {
            bytes.truncate(before);
            return Ok(());
        };
        bytes.push(byte)?;
        rest = &rest[2..];
    }
    if !rest.is_empty() {
        bytes.truncate(before);
    }
    Ok(())
}

/// The byte that two digits spell.
fn hex_byte(high: u8, low: u8) -> Option<u8>
    ensures { result ≡ hex_byte high low }
{
    let high = hex_value(high)?;
    let low = hex_value(low)?;
    Some(16 * high + low)
}

/// The value of a digit, a letter in lower case alone.
fn hex_value(digit: u8) -> Option<u8>
    ensures value { result ≡ hex_value digit }
    ensures bound { IfSome result (λ k. k < 16) }
{
    match digit {
        b'0'..=b'9' => Some(digit - b'0'),
        b'a'..=b'f' => Some(digit - b'a' + 10),
        _ => None,
    }
}
