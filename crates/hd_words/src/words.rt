use crate::request::Request;
use crate::verbs::{Asks, Kind, LEAST_BLOCKS, MOST_BLOCKS, MOST_CALLS, Verb, Word, verbs};
use clap::{Arg, ArgAction, ArgMatches, Command, Error, value_parser};
use std::alloc::Global;

/// When the line that says why the program stopped is followed by others that say more.
#[derive(Clone, Copy, PartialEq, Eq)]
pub enum Explains {
    Always,
    Never,
    /// Where standard error is a terminal.
    Auto,
}

/// What the words behind the program's name ask for, and when more is said of a stop; an error is `clap`'s, help among them.
pub fn read_words(alloc: Global, words: &[String]) -> Result<(Request<'_>, Explains), Error> {
    let mut command = program(alloc)?;
    for verb in verbs() {
        command = command.subcommand(command_of(alloc, verb)?)?;
    }
    let matches = command.try_get_matches_from(words)?;
    let explains = match matches.get_str("EXPLAIN") {
        Some("always") => Explains::Always,
        Some("never") => Explains::Never,
        _ => Explains::Auto,
    };
    Ok((request_of(&matches), explains))
}

/// The program without its commands.
fn program<'a>(alloc: Global) -> Result<Command<'a>, Error> {
    let command = Command::new(alloc, "hd")
        .bin_name("hd")?
        .version("0.1.0, unproved: this is no build that `make` has proved")
        .about(
            "A hierarchical database. Without a command it plays a deck of DL/I calls, read from standard input, over a built-in sample database",
        )
        .no_binary_name(true)
        .arg(explains_word(alloc))?;
    Ok(command)
}

/// What the words that were read ask for.
fn request_of<'a>(matches: &ArgMatches<'a>) -> Request<'a> {
    let Some((name, given)) = matches.subcommand() else {
        return Request::Sample;
    };
    match verbs().iter().find(|verb| verb.name == name) {
        Some(verb) => asked_by(verb.asks, given),
        None => Request::Sample,
    }
}

/// What a command asks for with these words.
fn asked_by<'a>(asks: Asks, given: &ArgMatches<'a>) -> Request<'a> {
    match asks {
        Asks::Deck => deck_of(given),
        Asks::Serve => serve_of(given),
        Asks::Check => Request::Check {
            dbd: text_of(given, "DBD"),
            volume: text_of(given, "VOLUME"),
            is_whole: given.get_flag("ALL"),
            cache: cache_of(given),
        },
        Asks::Recover => recover_of(given),
        Asks::Unload => unload_of(given),
        Asks::Copy => copy_of(given),
        Asks::Salvage => salvage_of(given),
        Asks::Reload => reload_of(given),
        Asks::Show => show_of(given),
        Asks::Rows => rows_of(given),
        Asks::Stream => stream_of(given),
        Asks::Operands => Request::Operands {
            source: text_of(given, "SOURCE"),
        },
        Asks::Explain => Request::Explain {
            word: given.get_str("WORD"),
        },
    }
}

/// A word that is always given.
fn text_of<'a>(given: &ArgMatches<'a>, name: &str) -> &'a str {
    given.get_str(name).unwrap_or("")
}

/// How many blocks of a volume are kept in memory, if that is given.
fn cache_of(given: &ArgMatches<'_>) -> Option<u32> {
    given.get_one::<u32>("CACHE")
}

/// Whether to wait until what is written is on the disk.
fn syncs_of(given: &ArgMatches<'_>) -> bool {
    !given.get_flag("NOSYNC")
}

fn deck_of<'a>(given: &ArgMatches<'a>) -> Request<'a> {
    Request::Deck {
        dbd: text_of(given, "DBD"),
        psb: text_of(given, "PSB"),
        volume: text_of(given, "VOLUME"),
        deck: text_of(given, "DECK"),
        every: given.get_one::<u32>("COMMIT"),
        compares: given.get_flag("EXPECT"),
        cache: cache_of(given),
        syncs: syncs_of(given),
    }
}

fn serve_of<'a>(given: &ArgMatches<'a>) -> Request<'a> {
    Request::Serve {
        dbd: text_of(given, "DBD"),
        psb: text_of(given, "PSB"),
        volume: text_of(given, "VOLUME"),
        end_commits: !given.get_flag("ONREQUEST"),
        cache: cache_of(given),
        syncs: syncs_of(given),
    }
}

fn recover_of<'a>(given: &ArgMatches<'a>) -> Request<'a> {
    Request::Recover {
        dbd: text_of(given, "DBD"),
        volume: text_of(given, "VOLUME"),
        log: given.get_str("LOG"),
        cache: cache_of(given),
    }
}

fn unload_of<'a>(given: &ArgMatches<'a>) -> Request<'a> {
    Request::Unload {
        dbd: text_of(given, "DBD"),
        volume: text_of(given, "VOLUME"),
        out: text_of(given, "OUT"),
        cache: cache_of(given),
        syncs: syncs_of(given),
    }
}

fn copy_of<'a>(given: &ArgMatches<'a>) -> Request<'a> {
    Request::Copy {
        dbd: text_of(given, "DBD"),
        volume: text_of(given, "VOLUME"),
        out: text_of(given, "OUT"),
        cache: cache_of(given),
        syncs: syncs_of(given),
    }
}

fn salvage_of<'a>(given: &ArgMatches<'a>) -> Request<'a> {
    Request::Salvage {
        dbd: text_of(given, "DBD"),
        volume: text_of(given, "VOLUME"),
        out: text_of(given, "OUT"),
        orphans: given.get_str("ORPHANS"),
        cache: cache_of(given),
        syncs: syncs_of(given),
    }
}

fn reload_of<'a>(given: &ArgMatches<'a>) -> Request<'a> {
    Request::Reload {
        dbd: text_of(given, "DBD"),
        input: text_of(given, "IN"),
        volume: text_of(given, "VOLUME"),
        blocks: given.get_one::<u32>("BLOCKS").unwrap_or(1),
        cache: cache_of(given),
        syncs: syncs_of(given),
    }
}

fn show_of<'a>(given: &ArgMatches<'a>) -> Request<'a> {
    Request::Show {
        dbd: text_of(given, "DBD"),
        volume: given.get_str("VOLUME"),
        picture: given.get_str("FILE"),
        cache: cache_of(given),
        syncs: syncs_of(given),
    }
}

fn rows_of<'a>(given: &ArgMatches<'a>) -> Request<'a> {
    Request::Rows {
        dbd: text_of(given, "DBD"),
        volume: text_of(given, "VOLUME"),
        table: given.get_str("TYPE"),
        folder: given.get_str("FOLDER"),
        is_typed: given.get_flag("TYPED"),
        cache: cache_of(given),
        syncs: syncs_of(given),
    }
}

fn stream_of<'a>(given: &ArgMatches<'a>) -> Request<'a> {
    Request::Stream {
        dbd: text_of(given, "DBD"),
        rows: text_of(given, "IN"),
        out: text_of(given, "OUT"),
        is_tables: given.get_flag("TABLES"),
        is_typed: given.get_flag("TYPED"),
        syncs: syncs_of(given),
    }
}

/// A command with its words.
fn command_of<'a>(alloc: Global, verb: &Verb) -> Result<Command<'a>, Error> {
    let mut command = Command::new(alloc, verb.name).about(verb.about);
    for word in verb.words {
        command = command.arg(arg_of(alloc, word)?)?;
    }
    Ok(command)
}

/// A word of a command.
fn arg_of<'a>(alloc: Global, word: &Word) -> Result<Arg<'a>, Error> {
    let arg = Arg::new(alloc, word.name).help(word.help);
    match word.kind {
        Kind::Needed => Ok(arg.required(true)),
        Kind::Optional => Ok(arg),
        Kind::Blocks => Ok(blocks(arg.required(true))),
        Kind::Behind(long, shown, None) => Ok(arg.long(long).value_name(shown)),
        Kind::Behind(long, shown, Some(other)) => {
            Ok(arg.long(long).value_name(shown).requires_arg(other)?)
        }
        Kind::BehindAlone(long, shown, other) => {
            Ok(arg.long(long).value_name(shown).conflicts_with(other)?)
        }
        Kind::BlocksBehind(long, shown) => Ok(blocks(arg.long(long).value_name(shown))),
        Kind::CallsBehind(long, shown) => Ok(calls(arg.long(long).value_name(shown))),
        Kind::Flag(long) => Ok(arg.long(long).action(ArgAction::SetTrue)),
    }
}

/// A word that is a number of blocks.
fn blocks(arg: Arg<'_>) -> Arg<'_> {
    arg.value_parser(value_parser!(u32).range(LEAST_BLOCKS..=MOST_BLOCKS))
}

/// A word that is a number of calls.
fn calls(arg: Arg<'_>) -> Arg<'_> {
    arg.value_parser(value_parser!(u32).range(1..=MOST_CALLS))
}

/// The option that says when more is said of a stop.
fn explains_word<'a>(alloc: Global) -> Arg<'a> {
    Arg::new(alloc, "EXPLAIN")
        .long("explain")
        .value_name("WHEN")
        .global(true)
        .help(
            "When further lines say more of why the program stopped; auto: where standard error is a terminal",
        )
        .value_parser(["always", "never", "auto"].as_slice())
}
