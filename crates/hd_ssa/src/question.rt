ghost use Rattle.std.specs.Prelude.{◌≡◌, ◌&&◌};

use crate::comparison::ComparisonRead;
use hd_dbd::Key;

/// What is asked of each comparison of a group.
#[derive(Clone, Copy)]
pub enum Question<'b> {
    /// Whether it is true of a segment's bytes.
    IsTrue(&'b [u8]),
    /// Whether the key in a segment's bytes is not past it.
    IsNotPast(Key, &'b [u8]),
}

impl<'b> Question<'b> {
    ghost use Rattle.hd_ssa.specs.Questions.{passes};

    /// Whether a comparison passes too, where those before it in its group did or did not.
    pub fn is_passed(self, so_far: bool, read: &ComparisonRead<'_>) -> bool
        ensures { result ≡ (so_far && passes self.entry read.now.comparison) }
    {
        so_far
            && match self {
                Question::IsTrue(bytes) => read.comparison.is_true_of(bytes),
                Question::IsNotPast(key, bytes) => !read.comparison.is_past(key, bytes),
            }
    }
}
