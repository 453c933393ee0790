ghost use Rattle.std.specs.Prelude.{◌≡◌, ◌≤◌, [], length};
ghost use Rattle.std.specs.List.{prefix_len};
ghost use Rattle.hd_calls.specs.Ssas.{is_command, has_byte, commands_among, commands_length, head_ending};
ghost use Rattle.hd_ssa.specs.AtOnce.{head_with_name};

use hd_calls::Commands;
use hd_dbd::Name8;
use std::marker::Model;

/// The head of a segment search argument: the segment's name and the command codes, with all that stands behind the opening bracket,
/// if there is one.
#[derive(Drop)]
pub struct Ssa<'a> {
    pub name: Name8,
    pub commands: Commands,
    pub qualification: Option<&'a [u8]>,
}

impl<'a> Model for Ssa<'a> {
    ghost use Rattle.std.specs.Prelude.{option_copied};
    ghost use Rattle.hd_calls.specs.Ssas.{Head};

    ghost Value = { Head };

    ghost view = { λ h. record { name = h.name; commands = h.commands; qualification = option_copied h.qualification } };
}

impl<'a> Ssa<'a> {
    /// The head of this name, with what stands behind the name, where it is one. Nothing behind a blank or an opening bracket is judged.
    pub(crate) fn with_name(name: Name8, behind: &'a [u8]) -> Option<Ssa<'a>>
        ensures { result ≡ head_with_name name behind.now }
    {
        let count = commands_length(behind);
        let commands = commands_among(&behind[..count]);
        Ssa::ending(name, commands, &behind[count..])
    }

    /// The head with this ending, where it is one.
    fn ending(name: Name8, commands: Commands, bytes: &'a [u8]) -> Option<Ssa<'a>>
        ensures { result ≡ head_ending name commands bytes.now }
    {
        let qualification = match bytes.split_first() {
            None => None,
            Some((b' ', _)) => None,
            Some((b'(', text)) => Some(text),
            Some(_) => return None,
        };
        Some(Ssa {
            name,
            commands,
            qualification,
        })
    }
}

/// No command code.
pub(crate) fn no_commands() -> Commands
    ensures { result ≡ commands_among [] }
{
    Commands {
        path: false,
        first: false,
        last: false,
        excepted: false,
    }
}

/// Whether the byte is a command code.
fn is_command(byte: u8) -> bool
    ensures { result ≡ is_command byte }
{
    matches!(byte, b'D' | b'F' | b'L' | b'N' | b'-')
}

/// Whether the byte stands among others.
fn has_byte(byte: u8, bytes: &[u8]) -> bool
    ensures { result ≡ has_byte byte bytes.now }
{
    bytes.iter().any(|b| *b == byte)
}

/// The command codes among these bytes.
fn commands_among(bytes: &[u8]) -> Commands
    ensures { result ≡ commands_among bytes.now }
{
    Commands {
        path: has_byte(b'D', bytes),
        first: has_byte(b'F', bytes),
        last: has_byte(b'L', bytes),
        excepted: has_byte(b'N', bytes),
    }
}

/// How many bytes from the front on are command codes.
fn commands_in_front(bytes: &[u8]) -> usize
    ensures count { result ≡ prefix_len is_command bytes.now }
    ensures within { result ≤ length bytes.now }
{
    let mut count = 0;
    while count < bytes.len() && is_command(bytes[count]) {
        count += 1;
    }
    count
}

/// How many bytes the star and the command codes take.
fn commands_length(bytes: &[u8]) -> usize
    ensures count { result ≡ commands_length bytes.now }
    ensures within { result ≤ length bytes.now }
{
    match bytes.split_first() {
        Some((b'*', rest)) => 1 + commands_in_front(rest),
        _ => 0,
    }
}
