ghost use Rattle.hd_commands.specs.Headline.{Headline};
ghost use Rattle.hd_commands.specs.Crashes.{CrashLaw};

use hd_journal::Disk;

/// The headline: if a check passes a volume, that holds exactly one forest of the database; every interleaved list of calls by the PCBs of any
/// program, in a session or in the run of a deck, then answers the segments, keys and statuses that hierarchic sequence over that forest defines;
/// behind each call of a session, and behind a run, the volume passes for the forest so defined; and every volume that a reload makes passes.
///
/// Its parts begin where the contracts of the functions end: `passed` of `hd_check::check`, those of `hd_session::Session::open`, `call`, `flush` and
/// `close`, which says that the image stands in the store, `played` of `hd_deck::run`, and `reloaded` of `hd_unload::reload`.
pub fn law_headline()
    ensures { Headline }
{}

/// The law of crashes: take a volume and a log that stand for an image which passes; play any interleaved list of calls, with commits among them; whatever
/// moment the machine stops at, the files left stand for an image that passes, with the forest of the last commit that was answered, or, where a commit was
/// under way, with that one's.
///
/// It is of any state of a disk, and begins where the contracts of the functions end, over any disk that keeps what was synced. `open` of
/// `hd_journal::Journaled` says that the store has the image for which the files stand, as its one commit, and that a crash while they are opened leaves it.
/// `assure` says in every state for which commits the disk is safe; no call but a commit changes them. Which requests were carried out, and that each commit
/// among them made last the image that it found, say `run_with_commits` of `hd_deck` (`done`, `fault`), `play_unit` (`played`, `commits`), and `serve` of
/// `hd_serve::Service` (`served`, `fault`), up to a commit that failed.
pub fn law_crashes_leave_commits<D: Disk>(disk: &D)
    ensures { CrashLaw (D.state disk.now) }
{
    let _ = disk;
}
