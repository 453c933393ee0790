ghost use Rattle.std.specs.Prelude.{◌≡◌, ◌↔◌, ◌==◌, length, IsTrue, IsSome, IfSome, bytes_eq};
ghost use Rattle.std.specs.List.{list_all};
ghost use Rattle.hd_dbd.specs.Naming.{is_name, is_name_byte, is_name_rest};

use std::marker::Model;

/// A name of 1 to 8 characters of A to Z, 0 to 9, `$`, `#` and `@`, the first a letter, blank padded to 8.
#[derive(Clone, Copy, Debug)]
pub struct Name8 {
    bytes: [u8; 8],
}

impl Model for Name8 {
    ghost use Rattle.std.specs.Prelude.{ℕ, List, IsTrue};
    ghost use Rattle.hd_dbd.specs.Naming.{is_name};

    ghost Value = { List ℕ };

    ghost view = { λ n. n.bytes };

    ghost invariant = { λ n. IsTrue (is_name n.bytes) };

    ghost inverse = { λ bs. record { bytes = bs } };
}

impl PartialEq for Name8 {
    ghost use Rattle.std.specs.Prelude.{bytes_eq};
    ghost use Rattle.std.specs.Cmp.{partial_equiv_from_equiv};
    ghost use Rattle.std.specs.Cmp.Lexicographic.{nat_list_eq_equiv};

    ghost eq = { bytes_eq };

    ghost laws = { partial_equiv_from_equiv nat_list_eq_equiv };

    fn eq(&self, other: &Name8) -> bool {
        self.is(&other.bytes)
    }
}

impl Eq for Name8 {
    ghost use Rattle.std.specs.Cmp.Lexicographic.{nat_list_eq_equiv};

    ghost laws = { nat_list_eq_equiv };
}

impl Name8 {
    /// The eight bytes, with blanks behind the name.
    pub fn bytes(&self) -> &[u8; 8]
        ensures bytes { result.now ≡ self.now }
        ensures name { IsTrue (is_name self.now) }
        ensures len { length self.now ≡ 8 }
    {
        &self.bytes
    }

    /// Whether the name is these eight bytes, with its blanks.
    pub fn is(&self, bytes: &[u8; 8]) -> bool
        ensures { result ≡ bytes_eq self.now bytes.now }
    {
        are_bytes(&self.bytes, bytes)
    }

    /// The name that these bytes are, with its blanks; `None` where they are none.
    pub fn from_padded(bytes: [u8; 8]) -> Option<Name8>
        ensures found { IsSome result ↔ IsTrue (is_name bytes) }
        ensures same { IfSome result (λ n. n ≡ bytes) }
    {
        if is_name(&bytes) {
            Some(Name8 { bytes })
        } else {
            None
        }
    }
}

/// Whether eight bytes are these. They are compared at once, as numbers, since each call asks names of the DBD and the PSB.
fn are_bytes(left: &[u8; 8], right: &[u8; 8]) -> bool
    ensures { result ≡ bytes_eq left.now right.now }
{
    u64::from_be_bytes(*left) == u64::from_be_bytes(*right)
}

/// Whether a byte may stand in a name behind its first character.
fn is_name_byte(byte: u8) -> bool
    ensures { result ≡ is_name_byte byte }
{
    matches!(byte, b'A'..=b'Z' | b'0'..=b'9' | b'$' | b'#' | b'@')
}

/// Whether the bytes are a name with its blanks.
fn is_name(bytes: &[u8]) -> bool
    ensures { result ≡ is_name bytes.now }
{
    let Some((first, rest)) = bytes.split_first() else {
        return false;
    };
    first.is_ascii_uppercase() && rest.len() == 7 && is_name_rest(rest)
}

/// Whether the bytes are those of a name, and then blanks alone.
fn is_name_rest(bytes: &[u8]) -> bool
    ensures { result ≡ is_name_rest bytes.now }
{
    for (place, byte) in bytes.iter().enumerate() {
        if !is_name_byte(*byte) {
            return is_blank(&bytes[place..]);
        }
    }
    true
}

fn is_blank(bytes: &[u8]) -> bool
    ensures { result ≡ list_all (λ c. c == 32) bytes.now }
{
    bytes.iter().all(|b| *b == b' ')
}
