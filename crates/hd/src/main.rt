//! The program `hd`: plays decks of DL/I calls, checks, unloads and reloads volumes, draws them, writes their rows, and says what its words mean.
#![tactic(auto)]

use hd_program::{Stop, Terminal, play, stopped};
use std::io::{IsTerminal, Write};
use std::process::ExitCode;
use std::{env, io};

fn main(rt: HostRuntime) -> ExitCode {
    let is_terminal = rt.stderr().is_terminal();
    let has_output = rt.stdout().is_terminal();
    let progress = Terminal::new(rt.alloc(), &rt, rt.stderr(), is_terminal, has_output);
    let status = match words_of(&rt) {
        Ok(words) => {
            if words.is_empty() && rt.stdin().is_terminal() {
                tell_that_it_waits(&mut rt.stderr());
            }
            play(
                &rt,
                words.as_slice(),
                is_terminal,
                &progress,
                &mut rt.stdin(),
                &mut io::writer(&rt),
                &mut rt.stderr(),
            )
        }
        Err(error) => stopped(&Stop::words(&error), &mut rt.stderr()),
    };
    ExitCode::from(status)
}

/// Says on a terminal that a deck is read there.
fn tell_that_it_waits<E: Write>(err: &mut E) {
    let _ = writeln!(
        err,
        "a deck of calls is read from the terminal, to its end by Ctrl-D; hd --help lists the commands"
    );
}

/// The words behind the program's name.
fn words_of(rt: &HostRuntime) -> io::Result<Vec<String>> {
    let words = env::args(rt)?.skip(1).collect::<Vec<String>>(rt.alloc())?;
    Ok(words)
}
