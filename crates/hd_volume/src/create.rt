ghost use Rattle.std.specs.Prelude.{◌≡◌, ◌≤◌, ◌<◌, ◌*◌, [], length, replicate, IsTrue, IfOk, IfErr};
ghost use Rattle.hd_dbd.specs.Facts.{stored_sizes};
ghost use Rattle.hd_volume.specs.Spacing.{IsPlain};
ghost use Rattle.hd_volume.specs.Creates.{IsCreated, IsGivenNew, head_list};
ghost use Rattle.hd_volume.specs.declared.load.TheConstants.{MOST_BLOCKS};

use crate::header::NEWEST_VERSION;
use crate::slots::LEAST_ASIDE;
use crate::volume::Volume;
use hd_dbd::{Dbd, Refused};
use hd_stores::BlockStore;
use std::alloc::Global;

impl<S: BlockStore> Volume<S> {
    /// A new volume of one block, of the newest version and this largest count, 1 to 65,536, in an empty store. A refusal
    /// gives the store back.
    pub fn create(
        alloc: Global,
        store: S,
        dbd: &Dbd,
        largest: u32,
    ) -> Result<Volume<S>, (S, Refused)>
        requires size { S.size store ≡ dbd.now.block_size }
        requires empty { IsTrue (S.is_sound store) → S.contents store ≡ [] }
        requires bounds { (0 < largest) × (largest ≤ MOST_BLOCKS) }
        ensures created { IfOk result (λ v. IsTrue (S.is_sound store) → IsCreated dbd.now.name dbd.now.block_size largest v) }
        ensures store { IfOk result (λ v. (v.is_sound ≡ S.is_sound store) × (v.failures ≡ S.failures store) × (v.committed ≡ S.committed store) × (v.size ≡ S.size store) × (v.sizes ≡ stored_sizes dbd.now.types) × IsPlain v) }
        ensures refusal { IfErr result (λ e. IsGivenNew S.size S.contents S.is_sound S.failures S.committed store e) }
    {
        Volume::create_keeping(alloc, store, dbd, largest, LEAST_ASIDE)
    }

    /// The same, with so many blocks of the volume kept in memory beside block 0 and the one in hand, three at least and no
    /// more than the largest count; memory that is lacking beyond three only keeps fewer.
    pub fn create_keeping(
        alloc: Global,
        mut store: S,
        dbd: &Dbd,
        largest: u32,
        kept: usize,
    ) -> Result<Volume<S>, (S, Refused)>
        requires size { S.size store ≡ dbd.now.block_size }
        requires empty { IsTrue (S.is_sound store) → S.contents store ≡ [] }
        requires bounds { (0 < largest) × (largest ≤ MOST_BLOCKS) }
        ensures created { IfOk result (λ v. IsTrue (S.is_sound store) → IsCreated dbd.now.name dbd.now.block_size largest v) }
        ensures store { IfOk result (λ v. (v.is_sound ≡ S.is_sound store) × (v.failures ≡ S.failures store) × (v.committed ≡ S.committed store) × (v.size ≡ S.size store) × (v.sizes ≡ stored_sizes dbd.now.types) × IsPlain v) }
        ensures refusal { IfErr result (λ e. IsGivenNew S.size S.contents S.is_sound S.failures S.committed store e) }
    {
        if let Err(refused) = store.grow(1) {
            return Err((store, refused));
        }
        match Volume::load_with(alloc, store, dbd, kept.min(largest as usize)) {
            Ok(mut volume) => {
                volume.format(dbd.name().bytes(), largest);
                Ok(volume)
            }
            Err(given) => Err(given),
        }
    }

    /// Writes the header of a new volume.
    fn format(&mut self, name: &[u8; 8], largest: u32)
        requires one { IsTrue self.old.is_sound → length self.old.image ≡ self.old.size }
        requires stored { IsTrue self.old.is_sound → self.old.stored ≡ replicate (1 * self.old.size) 0 }
        requires zeros { IsTrue self.old.is_sound → self.old.image ≡ replicate (1 * self.old.size) 0 }
        requires bounds { (0 < largest) × (largest ≤ MOST_BLOCKS) }
        requires eight { length name.now ≡ 8 }
        ensures rest { self.new ≡ record self.old { image = self.new.image } }
        ensures created { IsTrue self.old.is_sound → IsCreated name.now self.old.size largest self.new }
    {
        let size = self.blocks.block_size() as u16;
        self.blocks.write_front(&head_bytes(name, size, largest));
    }
}

/// The first bytes of a new volume.
fn head_bytes(n: &[u8; 8], size: u16, largest: u32) -> [u8; 44]
    requires { largest ≤ MOST_BLOCKS }
    ensures { result ≡ head_list n.now size largest }
{
    let [a, b, c, d] = [
        (largest / 16_777_216) as u8,
        (largest / 65536 % 256) as u8,
        (largest / 256 % 256) as u8,
        (largest % 256) as u8,
    ];
    let [newest, high, low] = [NEWEST_VERSION as u8, (size / 256) as u8, (size % 256) as u8];
    [
        b'H', b'D', b'V', b'O', b'L', b'U', b'M', b'E', 0, newest, high, low, 0, 0, 0, 1, a, b, c,
        d, n[0], n[1], n[2], n[3], n[4], n[5], n[6], n[7], 0, 0, 0, 0, 0, 0, 0, 0, 0, 0, 0, 0, 0,
        0, 0, 0,
    ]
}
