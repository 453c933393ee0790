//! The common get without arguments, which goes on to the row just behind those that its PCB has passed.
ghost use Rattle.std.specs.Prelude.{◌≡◌};
ghost use Rattle.hd_get.specs.Behind.{begins_behind};

use crate::call::Get;
use hd_calls::GetKind;
use hd_dbd::Dbd;
use hd_position::{Position, row_on};

/// Whether a get without arguments begins at the row just behind those that its PCB has passed, where that is of the type of a code: GNP only where that row is
/// below the parentage row, and GU never.
pub fn begins_behind(dbd: &Dbd, call: &Get<'_>, position: &Position, code: u8) -> bool
    ensures { result ≡ begins_behind dbd.now.types call.now.kind position.now code }
{
    match call.kind {
        GetKind::Unique => false,
        GetKind::Next => true,
        GetKind::NextInParent => {
            row_on(position.path(), position.parent()).is_some()
                && position.parent() < dbd.level(code)
        }
    }
}
