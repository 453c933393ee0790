//! Calls in frames, served over a store.

ghost use Rattle.std.specs.Prelude.{◌≡◌, false};
ghost use Rattle.hd_dbd.specs.ProgramRules.{type_names};

use crate::acts::End;
use crate::lasting::Lasting;
use crate::streams::{Feed, Page};
use hd_commands::status_of_calls;
use hd_dbd::{Dbd, Psb};
use hd_serve::{Ending, FrameFault, ServeFault, Service};
use hd_session::OpenFault;
use hd_stores::BlockStore;
use std::alloc::Global;

/// The frames of calls over the sample, by both PCBs of its program, of a call that is foretold, of one that is made twice, and of two commits.
pub const FRAMES: &[&[u8]] = &[
    b"\0\0\0,\x01\x01GU  \x02\0\x19COURSE  *D(NUM     EQ101)\0\x08BOOK    ",
    b"\0\0\0\x1f\x01\x01GU  \x01\0\x16CLASS   (ED      EQ01)",
    b"\0\0\0\x07\x01\x01GNP \0",
    b"\0\0\0\x07\x01\x01GN  \0",
    b"\0\0\0\x09\x05\x01\x01\x02GN  \0",
    b"\0\0\0\x07\x01\x02GN  \0",
    b"\0\0\0\x11\x01\x02GN  \x01\0\x08STUD    ",
    b"\0\0\0\x09\x04\x02\x01\x01GN  \0\0\0\0!\x01\x01GHU \x01\0\x18STUD    (SNAME   EQADAM)",
    b"\0\0\0\x01\x02",
    b"\0\0\0\x0d\x01\x01REPL\0ADAM77",
    b"\0\0\0\x01\x02",
    b"\0\0\0\x07\x01\x01GHN \0",
    b"\0\0\0\x0a\x01\x01REPL\0EVE",
    b"\0\0\0/\x01\x01ISRT\x02\0\x16CLASS   (ED      EQ01)\0\x08STUD    CARL03",
    b"\0\0\0\x1f\x01\x01GU  \x01\0\x16CLASS   (ED      EQ01)",
    b"\0\0\0\x11\x01\x01GHNP\x01\0\x08STUD    ",
    b"\0\0\0\x07\x01\x01DLET\0",
    b"\0\0\0\x07\x01\x01DLET\0",
    b"\0\0\0\x07\x01\x01GXX \0",
    b"\0\0\0\x11\x01\x02GN  \x01\0\x08CLASS   ",
];

/// The frame that tells the sample and its program, and those of the answers, by the rules of DL/I.
pub const ANSWERS: &[u8] = b"\0\0\0\x89HD\0\x03\x02\x04\
    COURSE  \x01\0\0\x08\0\x08\x01NUM     \0\x01\0\x03C\
    CLASS   \x02\0\0\x04\0\x04\x01ED      \0\x01\0\x02C\
    STUD    \x03\0\0\x06\0\x06\x01SNAME   \0\x01\0\x04C\
    BOOK    \x02\0\0\x05\0\x05\0\
    EDU     AP  \0\x04\0\x09\
    EDU     GIRD\0\x03\0\x05\
    \0\0\0\x1e\0  \x02BOOK    \0\x03101101ALGEBEULER\
    \0\0\0\x17\0  \x02CLASS   \0\x051010101AB\
    \0\0\0\x1d\0  \x03STUD    \0\x0910101ADAMADAM01\
    \0\0\0\x1d\0  \x03STUD    \0\x0910101EVE EVE 02\
    \0\0\0\x1e\x07\0\0\0\x19\0  \x01COURSE  \0\x03101101ALGEB\
    \0\0\0\x19\0  \x01COURSE  \0\x03101101ALGEB\
    \0\0\0\x0e\0AC\0        \0\0\
    \0\0\0\x1d\0  \x03STUD    \0\x0910101ADAMADAM01\
    \0\0\0\x01\x06\
    \0\0\0\x17\0  \x03STUD    \0\x0910101ADAM\
    \0\0\0\x01\x06\
    \0\0\0\x1d\0  \x03STUD    \0\x0910101EVE EVE 02\
    \0\0\0\x0e\x02  \0        \0\0\
    \0\0\0\x17\0  \x03STUD    \0\x0910101CARL\
    \0\0\0\x17\0  \x02CLASS   \0\x051010101AB\
    \0\0\0\x1d\0  \x03STUD    \0\x0910101ADAMADAM77\
    \0\0\0\x17\0  \x03STUD    \0\x0910101ADAM\
    \0\0\0\x0e\0DJ\0        \0\0\
    \0\0\0\x0e\0AD\0        \0\0\
    \0\0\0\x17\0  \x02CLASS   \0\x051010101AB";

/// The frame of a call or a commit in which an access failed.
pub const DEVICE: &[u8] = b"\0\0\0\x0e\x04  \0        \0\0";

/// Serves the requests, which are sent in one piece each, or byte by byte, and end in a read that fails behind so many bytes. No read comes before the
/// last answer was sent, and a request that comes in one piece takes one.
pub fn serve_calls<S: BlockStore + Drop>(
    alloc: Global,
    dbd: &Dbd,
    psb: &Psb,
    is_slow: bool,
    left: usize,
    kept: usize,
    store: S,
    out: &mut Page<'_>,
) -> Option<(S, End)>
    requires unsound { S.is_sound store ≡ false }
    requires size { S.size store ≡ dbd.now.block_size }
    requires matches { psb.now.made_for ≡ type_names dbd.now.types }
{
    let mut input = Feed::new(FRAMES, is_slow, left, out.sent);
    let Ok(mut service) = Service::new(alloc, dbd, psb) else {
        return None;
    };
    let (store, end) = match service.serve(
        alloc,
        Lasting::new(store),
        dbd,
        psb,
        kept,
        &mut input,
        out,
    ) {
        Ok(end) if end.ending == Ending::Input => (
            end.store,
            End::Status(status_of_calls(end.memory), true),
        ),
        Ok(end) => (end.store, End::Other),
        Err((store, ServeFault::Device | ServeFault::Open(OpenFault::Device))) => (
            store,
            End::Device,
        ),
        Err((store, ServeFault::Write)) => (store, End::Write),
        Err((store, ServeFault::Frame(FrameFault::Read))) => (store, End::Read),
        Err((store, _)) => (store, End::Other),
    };
    let is_orderly = !input.is_early && (is_slow || input.reads <= input.made.saturating_add(1));
    Some((
        store.into_store(),
        if is_orderly { end } else { End::Other },
    ))
}
