ghost use Rattle.std.specs.Prelude.{◌≡◌};
ghost use Rattle.hd_calls.specs.Admits.{is_on_way};
ghost use Rattle.hd_calls.specs.SearchWays.{way_down, way_beside};

use hd_dbd::Dbd;

/// Whether a type is on the way to another: it is that type, or that type depends on it.
pub fn is_on_way(dbd: &Dbd, target: u8, code: u8) -> bool
    ensures { result ≡ is_on_way dbd.now.types target code }
{
    target == code || dbd.is_under(target, code)
}

/// The child type of a type that is on the way to another, where the other depends on the type.
pub fn way_down(dbd: &Dbd, target: u8, code: u8) -> Option<u8>
    ensures { result ≡ way_down dbd.now.types target code }
{
    let mut below = target;
    let mut levels = dbd.level(target);
    while levels > 0 {
        levels -= 1;
        let Some(parent) = dbd.parent_of(below) else {
            return None;
        };
        if parent == code {
            return Some(below);
        }
        below = parent;
    }
    None
}

/// The type with the same parent as a type that is on the way to another, where the other depends on the parent.
pub fn way_beside(dbd: &Dbd, target: u8, code: u8) -> Option<u8>
    ensures { result ≡ way_beside dbd.now.types target code }
{
    way_down(dbd, target, dbd.parent_of(code)?)
}
