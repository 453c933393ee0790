ghost use Rattle.std.specs.Prelude.{◌≡◌, false, IsTrue, OnOk, IfOk, IfErr};
ghost use Rattle.std.specs.Io.KnownBytes.{Appends};
ghost use Rattle.hd_session.specs.Turns.{StaysWhole};
ghost use Rattle.hd_serve.specs.Frames.{frame_bytes};
ghost use Rattle.hd_serve.specs.Answers.{done_bytes};
ghost use Rattle.hd_session.specs.Requests.{commit};
ghost use Rattle.hd_serve.specs.Serves.{IsServed, HaltsAt, IsHalted};

use crate::answer::{put_done, put_refusal};
use crate::answered_calls::{Count, Halt};
use crate::fault::WriteFault;
use hd_session::Session;
use hd_stores::CommitStore;
use std::io::Write;

/// Writes that a commit of a session is done, which it is.
fn tell_done<S: CommitStore, W: Write>(
    session: &Session<'_, S>,
    out: &mut W,
) -> Result<(), WriteFault>
    requires lasts { IsTrue session.now.volume.is_sound → (session.now.volume.committed.image ≡ session.now.volume.image) × (session.now.volume.committed.tried ≡ session.now.volume.image) }
    ensures { OnOk result (Appends (W.contents out.old) (W.contents out.new) (frame_bytes done_bytes)) }
{
    let _ = session;
    put_done(out)
}

/// A commit, and the frame that says that it is done. Where it failed it is `Device`, whether or not the frame that says so was written.
pub(crate) fn answer_commit<S: CommitStore, W: Write>(
    session: &mut Session<'_, S>,
    out: &mut W,
) -> Result<Count, Halt>
    requires whole { session.old.broken ≡ false }
    ensures served { IfOk result (λ n. IsServed session.old commit (W.contents out.old) (W.contents out.new) n.calls n.memory session.new) }
    ensures whole { OnOk result (StaysWhole session.old session.new) }
    ensures halts { IfErr result (λ e. HaltsAt session.old commit e session.new) }
    ensures stops { IfErr result (λ e. IsHalted session.old e session.new) }
{
    if let Err(refused) = session.commit() {
        let _ = put_refusal(out, refused);
        return Err(Halt::Device);
    }
    match tell_done(session, out) {
        Ok(()) => Ok(Count {
            calls: 0,
            memory: 0,
        }),
        Err(_) => Err(Halt::Write),
    }
}
