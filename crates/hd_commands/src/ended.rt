ghost use Rattle.std.specs.Prelude.{◌≡◌, true, Some, None};
ghost use Rattle.std.specs.Io.KnownBytes.{Appends};
ghost use Rattle.hd_commands.specs.Lines.{status_of, refusal_line};

use crate::refusal::Refusal;
use std::io::Write;

/// How a command ended: the program's status; why it was refused, if it was; and whether standard error then took the line that says so.
#[derive(Clone, Copy, Debug, PartialEq, Eq)]
pub struct Ended {
    pub status: u8,
    pub refusal: Option<Refusal>,
    pub told: bool,
}

/// The end of a command that did its work.
pub(crate) const DONE: Ended = Ended {
    status: 0,
    refusal: None,
    told: true,
};

impl Ended {
    /// The end of a command that was not refused, with a status.
    pub fn with_status(status: u8) -> Ended
        ensures { result ≡ record { status = status; refusal = None; told = true } }
    {
        Ended {
            status,
            refusal: None,
            told: true,
        }
    }
}

/// Says why a command is refused.
pub fn refuse<E: Write>(refusal: Refusal, err: &mut E) -> Ended
    ensures status { result.status ≡ status_of refusal }
    ensures named { result.refusal ≡ Some refusal }
    ensures line { result.told ≡ true → Appends (E.contents err.old) (E.contents err.new) (refusal_line refusal) }
{
    let told = writeln!(err, "{refusal}").is_ok();
    Ended {
        status: refusal.status(),
        refusal: Some(refusal),
        told,
    }
}
