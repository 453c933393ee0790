ghost use Rattle.std.specs.Prelude.{◌≡◌, None, length};
ghost use Rattle.hd_calls.specs.Admits.{Descend};
ghost use Rattle.hd_get.specs.Gets.{levels_taken};

use hd_dbd::Dbd;
use hd_forest::Path;
use hd_position::Levels;
use hd_ssa::ResolvedSsa;

/// The levels, on the path to the row that a get with these arguments finds, of the rows that it returns: those of the arguments with
/// D above the last, and the row's own.
pub fn taken(dbd: &Dbd, ssas: &[ResolvedSsa<'_>], path: &Path) -> Levels
    requires descend { Descend dbd.now.types None ssas.now }
    ensures { result ≡ levels_taken dbd.now.types ssas.now (length path.now) }
{
    let mut levels = Levels::new();
    for place in 0..ssas.len().saturating_sub(1) {
        let ssa = &ssas[place];
        let level = dbd.level(ssa.code());
        if ssa.commands().path {
            levels.push(level);
        }
    }
    levels.push(path.level());
    levels
}
