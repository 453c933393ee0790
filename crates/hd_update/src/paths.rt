ghost use Rattle.std.specs.Prelude.{◌≡◌};
ghost use Rattle.hd_update.specs.Paths.{path_up_to};

use hd_forest::Path;

/// A path as far as to an address.
pub fn path_up_to(path: &Path, address: u32) -> Path
    ensures { result ≡ path_up_to address path.now }
{
    let mut part = Path::new();
    for own in path.addresses() {
        part.push(*own);
        if *own == address {
            return part;
        }
    }
    part
}
