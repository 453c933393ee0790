//! The blocks that bear the entries of the index.
ghost use Rattle.std.specs.Prelude.{◌≡◌, ℕ};
ghost use Rattle.hd_volume.specs.Headers.{header_of};
ghost use Rattle.hd_volume.specs.Volumes.{VolumeState};
ghost use Rattle.hd_volume.specs.Entries.{entry_blocks};
ghost use Rattle.hd_image.specs.Right.{ChainIsFormed};
ghost use Rattle.hd_check_index.specs.IndexPhases.{IsSequence};

/// Puts the blocks of a chain in order of their numbers.
pub fn sort_chain(chain: &mut Vec<u32>)
    ensures { (k : ℕ) (v : VolumeState) → (header_of v.image).version ≡ 1 → ChainIsFormed k v → chain.old.items ≡ entry_blocks v → IsSequence k v chain.new.items }
{
    chain.sort_unstable();
}
