ghost use Rattle.std.specs.Prelude.{◌≡◌};
ghost use Rattle.hd_dbd.specs.Letters.{gives_insert, gives_replace, gives_delete, gives_path};
ghost use Rattle.hd_dbd.specs.Views.{may};
ghost use Rattle.hd_dbd.specs.Accesses.{gives};

use crate::database::Dbd;
use crate::procopt::gives_get;
use crate::program::Pcb;

/// What a PCB may be allowed to do with the segments of a type.
#[derive(Clone, Copy, Debug, PartialEq, Eq)]
pub enum Access {
    Get,
    Insert,
    Replace,
    Delete,
    Path,
}

/// Whether letters of PROCOPT give inserts: I, or A.
fn gives_insert(letters: &[u8]) -> bool
    ensures { result ≡ gives_insert letters.now }
{
    letters.iter().any(|b| *b == b'I' || *b == b'A')
}

/// Whether letters of PROCOPT give replaces: R, or A.
fn gives_replace(letters: &[u8]) -> bool
    ensures { result ≡ gives_replace letters.now }
{
    letters.iter().any(|b| *b == b'R' || *b == b'A')
}

/// Whether letters of PROCOPT give deletes: D, or A.
fn gives_delete(letters: &[u8]) -> bool
    ensures { result ≡ gives_delete letters.now }
{
    letters.iter().any(|b| *b == b'D' || *b == b'A')
}

/// Whether letters of PROCOPT give path calls: P.
fn gives_path(letters: &[u8]) -> bool
    ensures { result ≡ gives_path letters.now }
{
    letters.iter().any(|b| *b == b'P')
}

/// Whether letters of PROCOPT give an access.
fn gives(access: Access, letters: &[u8]) -> bool
    ensures { result ≡ gives access letters.now }
{
    match access {
        Access::Get => gives_get(letters),
        Access::Insert => gives_insert(letters),
        Access::Replace => gives_replace(letters),
        Access::Delete => gives_delete(letters),
        Access::Path => gives_path(letters),
    }
}

/// Whether the PCB sees the type of a code, and its letters give an access.
pub fn may(dbd: &Dbd, pcb: &Pcb, access: Access, code: u8) -> bool
    ensures { result ≡ may (record { types = dbd.now.types; pcb = pcb.now }) (gives access) code }
{
    let Some(segment) = dbd.type_of(code) else {
        return false;
    };
    match pcb.letters_for(&segment.name) {
        Some(letters) => gives(access, letters),
        None => false,
    }
}
