ghost use Rattle.std.specs.Prelude.{◌≡◌, ◌≤◌, IsTrue};
ghost use Rattle.hd_bytes.specs.Blocks.{HasBlock};
ghost use Rattle.hd_bytes.specs.Numbers.{number_at};
ghost use Rattle.hd_dbd.specs.declared.hierarchy.FreeSpace.{FreeSpace};
ghost use Rattle.hd_volume.specs.Headers.{header_of};
ghost use Rattle.hd_volume.specs.Volumes.{IsFormatted};
ghost use Rattle.hd_volume.specs.Calls.{HasNewHeader};
ghost use Rattle.hd_volume.specs.Spacing.{LeavesSpace};

use crate::blocks::Blocks;
use crate::volume::{COUNT, FIRST_ROOT, HEIGHT, LARGEST, LAST_ROOT, TOP, Volume, head_number};
use hd_bytes::read_u16;
use hd_stores::BlockStore;

/// The first eight bytes of a volume.
pub const MARK: [u8; 8] = *b"HDVOLUME";

/// The version of new volumes.
pub const NEWEST_VERSION: u16 = 3;

/// Where the header has its version and the block size, of two bytes each, and the name of its database, of eight.
pub const VERSION: usize = 8;

pub const BLOCK_SIZE: usize = 10;

pub const NAME: usize = 20;

impl<S: BlockStore> Volume<S> {
    /// The version of the volume's layout.
    pub fn version(&self) -> u16
        ensures { IsTrue self.now.is_sound → HasBlock self.now.size self.now.image 0 → result ≡ (header_of self.now.image).version }
    {
        head_version(&self.blocks)
    }

    /// How many blocks the header counts, block 0 among them.
    pub fn block_count(&self) -> u32
        ensures { IsTrue self.now.is_sound → HasBlock self.now.size self.now.image 0 → result ≡ (header_of self.now.image).count }
    {
        head_number(&self.blocks, COUNT)
    }

    /// The largest count of blocks to which the volume may grow.
    pub fn largest_count(&self) -> u32
        ensures { IsTrue self.now.is_sound → HasBlock self.now.size self.now.image 0 → result ≡ (header_of self.now.image).largest }
    {
        head_number(&self.blocks, LARGEST)
    }

    /// Sets the address of the first root, 0 for none. Nothing is read or written.
    pub fn set_first_root(&mut self, address: u32)
        requires formatted { IsTrue self.old.is_sound → IsFormatted self.old }
        ensures set { IsTrue self.old.is_sound → HasNewHeader self.old (record (header_of self.old.image) { first_root = address }) self.new }
        ensures rest { self.new ≡ record self.old { image = self.new.image } }
        ensures space { (spacing : FreeSpace) → LeavesSpace spacing self.old → LeavesSpace spacing self.new }
    {
        self.blocks.write_head(FIRST_ROOT, address);
    }

    /// Sets the address of the last root, 0 for none. Nothing is read or written.
    pub fn set_last_root(&mut self, address: u32)
        requires formatted { IsTrue self.old.is_sound → IsFormatted self.old }
        ensures set { IsTrue self.old.is_sound → HasNewHeader self.old (record (header_of self.old.image) { last_root = address }) self.new }
        ensures rest { self.new ≡ record self.old { image = self.new.image } }
        ensures space { (spacing : FreeSpace) → LeavesSpace spacing self.old → LeavesSpace spacing self.new }
    {
        self.blocks.write_head(LAST_ROOT, address);
    }

    /// Sets the number of the top index block, 0 for none. Nothing is read or written.
    pub fn set_top(&mut self, number: u32)
        requires formatted { IsTrue self.old.is_sound → IsFormatted self.old }
        ensures set { IsTrue self.old.is_sound → HasNewHeader self.old (record (header_of self.old.image) { top = number }) self.new }
        ensures rest { self.new ≡ record self.old { image = self.new.image } }
        ensures space { (spacing : FreeSpace) → LeavesSpace spacing self.old → LeavesSpace spacing self.new }
    {
        self.blocks.write_head(TOP, number);
    }

    /// Sets the height of the index, 0 for none. Nothing is read or written.
    pub fn set_height(&mut self, height: u32)
        requires formatted { IsTrue self.old.is_sound → IsFormatted self.old }
        ensures set { IsTrue self.old.is_sound → HasNewHeader self.old (record (header_of self.old.image) { height = height }) self.new }
        ensures rest { self.new ≡ record self.old { image = self.new.image } }
        ensures space { (spacing : FreeSpace) → LeavesSpace spacing self.old → LeavesSpace spacing self.new }
    {
        self.blocks.write_head(HEIGHT, height);
    }
}

/// The version in block 0.
fn head_version<S: BlockStore>(blocks: &Blocks<S>) -> u16
    requires { 10 ≤ blocks.now.size }
    ensures { IsTrue blocks.now.is_sound → HasBlock blocks.now.size blocks.now.image 0 → result ≡ number_at 2 blocks.now.image 8 }
{
    read_u16(blocks.head(), VERSION)
}
