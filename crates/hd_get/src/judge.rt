ghost use Rattle.std.specs.Prelude.{ℕ, List, Bool, IfOk};
ghost use Rattle.hd_dbd.specs.Types.{SegmentType};
ghost use Rattle.hd_dbd.specs.Segment.{Segment};
ghost use Rattle.hd_dbd.specs.Refusals.{OnlyDevice};
ghost use Rattle.hd_volume.specs.Calls.{IsRead};
ghost use Rattle.hd_get.specs.Searches.{IsOf, IsThere, IsVerdict};

use crate::verdict::Verdict;
use hd_dbd::{Dbd, Refused};
use hd_forest::Path;
use hd_stores::BlockStore;
use hd_volume::Volume;

/// What a call asks of the rows: a test that a row passes or not, and whether a row is admitted, so that rows below it may pass.
pub trait Judge {
    // whether a row passes, by its number in a list of rows of the types
    ghost test: { Self → List SegmentType → List Segment → ℕ → Bool };

    // whether a row is admitted, so that rows below it may pass
    ghost admits: { Self → List SegmentType → List Segment → ℕ → Bool };

    // what the judge asks of the database's types
    ghost suits: { Self → List SegmentType → Type 0 };

    /// Judges the row that a path leads to; the verdict is right wherever the row's parents are admitted.
    fn judge<S: BlockStore>(
        &self,
        volume: &mut Volume<S>,
        dbd: &Dbd,
        path: &Path,
    ) -> Result<Verdict, Refused>
        requires suits { suits self.now dbd.now.types }
        requires of { IsOf dbd.now volume.old }
        requires there { IsThere dbd.now volume.old path.now }
        ensures read { IsRead volume.old result volume.new }
        ensures value { IfOk result (λ v. IsVerdict (test self.now dbd.now.types) (admits self.now dbd.now.types) dbd.now volume.old path.now v) }
        ensures refusal { OnlyDevice result };
}
