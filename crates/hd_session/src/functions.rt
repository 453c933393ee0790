ghost use Rattle.std.specs.Prelude.{◌≡◌};
ghost use Rattle.hd_calls.specs.Functions.{function_of};

use hd_calls::{Function, GetKind};

/// The four letters of each function as one number, so that they are compared at once.
const GU: u32 = 0x4755_2020;

const GN: u32 = 0x474e_2020;

const GNP: u32 = 0x474e_5020;

const GHU: u32 = 0x4748_5520;

const GHN: u32 = 0x4748_4e20;

const GHNP: u32 = 0x4748_4e50;

const ISRT: u32 = 0x4953_5254;

const REPL: u32 = 0x5245_504c;

const DLET: u32 = 0x444c_4554;

/// The function that four bytes name, blank padded; the hold forms have an H.
pub fn function_of(text: [u8; 4]) -> Option<Function>
    ensures { result ≡ function_of text }
{
    match u32::from_be_bytes(text) {
        GU => Some(Function::Get(GetKind::Unique, false)),
        GN => Some(Function::Get(GetKind::Next, false)),
        GNP => Some(Function::Get(GetKind::NextInParent, false)),
        GHU => Some(Function::Get(GetKind::Unique, true)),
        GHN => Some(Function::Get(GetKind::Next, true)),
        GHNP => Some(Function::Get(GetKind::NextInParent, true)),
        ISRT => Some(Function::Insert),
        REPL => Some(Function::Replace),
        DLET => Some(Function::Delete),
        _ => None,
    }
}
