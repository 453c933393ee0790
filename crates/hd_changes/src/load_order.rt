ghost use Rattle.std.specs.Prelude.{◌≡◌};
ghost use Rattle.hd_dbd.specs.Loads.{order_fault};

use hd_dbd::{Dbd, LoadFault, compare_keys};

/// Why a row may not be loaded behind the one before it below its parent, or among the roots, if there is a reason: `LE` after a greater code,
/// `LB` after an equal unique key, `LC` after a greater key. Calls that load and streams go by it.
pub fn order_fault(
    dbd: &Dbd,
    code_before: u8,
    bytes_before: &[u8],
    code: u8,
    bytes: &[u8],
) -> Option<LoadFault>
    ensures { result ≡ order_fault dbd.now.types (record { code = code_before; bytes = bytes_before.now }) (record { code = code; bytes = bytes.now }) }
{
    if code < code_before {
        return Some(LoadFault::LE);
    }
    if code_before < code {
        return None;
    }
    let order = compare_keys(
        dbd.key_of(code_before, bytes_before),
        dbd.key_of(code, bytes),
    );
    if dbd.has_unique_key(code) && order.is_eq() {
        return Some(LoadFault::LB);
    }
    if order.is_gt() {
        return Some(LoadFault::LC);
    }
    None
}
