//! Segments in the bytes of a data block.
ghost use Rattle.std.specs.Prelude.{IfSome};
ghost use Rattle.hd_volume.specs.Volumes.{IsFormatted};
ghost use Rattle.hd_volume.specs.Calls.{HasSegment};
ghost use Rattle.hd_check_blocks.specs.DataBlocks.{OfBlockAt, BeginThere};

/// The bytes of a data block that begins at an address from another on; `None` where that is not in the block.
pub fn bytes_from<'b>(bytes: &'b [u8], first: u32, address: u32) -> Option<&'b [u8]>
    ensures { IfSome result (λ s. OfBlockAt bytes.now first (λ v. IsFormatted v → HasSegment v address 0 → BeginThere v address s.now)) }
{
    if address < first {
        return None;
    }
    let at = (address - first) as usize;
    if at >= bytes.len() {
        return None;
    }
    Some(&bytes[at..])
}
