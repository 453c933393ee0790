//! That commands tell how far they are, and take it away before a line and at the end.
use crate::words::words_of;
use hd_program::{DBD_SOURCE, PSB_SOURCE, Progress, Silent, Work, play};
use std::cell::Cell;
use std::fs::{self, File};
use std::io::{self, Write};
use std::process::Abort;
use std::rt::Files;
use std::test::Fail;

/// What was told, and whether something is shown.
#[derive(Drop)]
struct Told {
    tells: Cell<u64>,
    accesses: Cell<u64>,
    blocks: Cell<u64>,
    work: Cell<Work>,
    all: Cell<u64>,
    done: Cell<u64>,
    is_shown: Cell<bool>,
}

impl Told {
    fn nothing() -> Told {
        Told {
            tells: Cell::new(0),
            accesses: Cell::new(0),
            blocks: Cell::new(0),
            work: Cell::new(Work::Blocks),
            all: Cell::new(0),
            done: Cell::new(0),
            is_shown: Cell::new(false),
        }
    }
}

impl Progress for Told {
    fn tell(&self, _doing: &str, accesses: u64, blocks: u64) {
        self.tells.set(self.tells.get().saturating_add(1));
        self.accesses.set(accesses);
        self.blocks.set(blocks);
        self.is_shown.set(true);
    }

    fn begin(&self, all: u64, work: Work) {
        self.work.set(work);
        self.all.set(all);
        self.done.set(0);
    }

    fn done(&self, count: u64) {
        self.done.set(self.done.get().saturating_add(count));
    }

    fn end(&self) {
        self.is_shown.set(false);
    }

    fn end_before_output(&self) {
        self.end();
    }
}

/// A writer that notes whether it is written to while progress is shown.
#[derive(Drop)]
struct Line<'t> {
    told: &'t Told,
    count: usize,
    is_mixed: bool,
}

impl<'t> Write for Line<'t> {
    fn write(&mut self, buf: &[u8]) -> io::Result<usize> {
        self.is_mixed = self.is_mixed || self.told.is_shown.get();
        self.count = self.count.saturating_add(buf.len());
        Ok(buf.len())
    }

    fn flush(&mut self) -> io::Result<()> {
        Ok(())
    }
}

/// A command, the status with which it ends, the most blocks of which it tells, if not those of the volume, the work that it begins last, how much that is and
/// how much of it is done, where that is known, and whether it makes so many accesses that it tells of any.
struct Command {
    line: &'static str,
    status: u8,
    blocks: Option<u64>,
    work: Work,
    all: u64,
    done: Option<u64>,
    is_told: bool,
}

/// The command ends with its status; meanwhile progress is told of a volume of so many blocks at most, and of its work, and none of it is seen beside a line or at
/// the end.
fn expect_told<R: Files<File = File> + AllocGlobal + Abort>(
    rt: &R,
    command: &Command,
    blocks: u64,
) -> Result<(), Fail> {
    let Command {
        line,
        status,
        work,
        all,
        done,
        is_told,
        ..
    } = *command;
    let given = words_of(rt.alloc(), line)?;
    let told = Told::nothing();
    let mut input: &[u8] = b"";
    let mut out = Line {
        told: &told,
        count: 0,
        is_mixed: false,
    };
    let mut err = Line {
        told: &told,
        count: 0,
        is_mixed: false,
    };
    let ended = play(rt, &given, false, &told, &mut input, &mut out, &mut err);
    assert_eq!(rt; ended, status, "{line}");
    let tells = told.tells.get();
    assert!(rt;
        (tells > 0) == is_told && told.accesses.get() == tells.saturating_mul(256),
        "{line}"
    );
    assert!(rt; told.blocks.get() <= blocks, "{line}");
    assert!(rt;
        told.work.get() == work && told.all.get() == all && told.done.get() <= all,
        "{line}"
    );
    let wanted = done.unwrap_or(told.done.get());
    assert_eq!(rt; told.done.get(), wanted, "{line}");
    assert!(rt;
        !(told.is_shown.get() || out.is_mixed || err.is_mixed),
        "{line}"
    );
    assert_eq!(rt; (out.count > 0, err.count > 0), (status == 0, status != 0));
    Ok(())
}

/// A reload that finds its blocks full has all of them in memory yet.
const COMMANDS: &[Command] = &[
    Command {
        line: "reload told.dbd told.stream told.volume 1000",
        status: 0,
        blocks: Some(1000),
        work: Work::Bytes,
        all: 9905,
        done: Some(9900),
        is_told: true,
    },
    Command {
        line: "check told.dbd told.volume",
        status: 0,
        blocks: None,
        work: Work::Segments,
        all: 900,
        done: Some(900),
        is_told: true,
    },
    Command {
        line: "unload told.dbd told.volume told.out",
        status: 0,
        blocks: None,
        work: Work::Segments,
        all: 900,
        done: Some(900),
        is_told: true,
    },
    Command {
        line: "deck told.dbd told.psb told.volume told.deck",
        status: 0,
        blocks: None,
        work: Work::Calls,
        all: 903,
        done: Some(903),
        is_told: true,
    },
    Command {
        line: "reload told.dbd told.stream told.volume 120",
        status: 1,
        blocks: Some(120),
        work: Work::Bytes,
        all: 9905,
        done: None,
        is_told: false,
    },
];

/// The command over a volume with a fault.
const DAMAGED: Command = Command {
    line: "check told.dbd told.volume --explain=always",
    status: 1,
    blocks: Some(1000),
    work: Work::Segments,
    all: 900,
    done: None,
    is_told: true,
};

/// The files of a database with 900 courses.
fn write_files<R: Files<File = File> + AllocGlobal + Abort>(rt: &R) -> Result<(), Fail> {
    fs::write(rt, "told.dbd", DBD_SOURCE)?;
    fs::write(rt, "told.psb", PSB_SOURCE)?;
    fs::write(rt, "told.deck", b"L 903 GN\n")?;
    let mut rows = Vec::new(rt.alloc());
    for number in 0..900u32 {
        writeln!(rows, "COURSE NUM={:03}", number)?;
    }
    fs::write(rt, "told.rows", &rows)?;
    let words = words_of(rt.alloc(), "stream told.dbd told.rows told.stream")?;
    let mut input: &[u8] = b"";
    let mut out = Vec::new(rt.alloc());
    let mut err = Vec::new(rt.alloc());
    let status = play(rt, &words, false, &Silent, &mut input, &mut out, &mut err);
    assert_eq!(rt; status, 0);
    Ok(())
}

/// The volume with another byte in its first segment.
fn damage<R: Files<File = File> + AllocGlobal>(rt: &R) -> Result<(), Fail> {
    let mut bytes = fs::read(rt, "told.volume")?;
    if let Some(byte) = bytes.get_mut(137) {
        *byte = 1;
    }
    fs::write(rt, "told.volume", &bytes)?;
    Ok(())
}

/// The most blocks of which the command tells.
fn blocks_of<R: Files<File = File> + AllocGlobal>(rt: &R, command: &Command) -> Result<u64, Fail> {
    match command.blocks {
        Some(most) => Ok(most),
        None => Ok(fs::metadata(rt, "told.volume")?.len() / 128),
    }
}

#[test]
fn tells_how_far_each_command_is(rt: HostRuntime) -> Result<(), Fail> {
    write_files(&rt)?;
    for command in COMMANDS {
        let blocks = blocks_of(&rt, command)?;
        expect_told(&rt, command, blocks)?;
    }
    let made = fs::read(&rt, "told.out")?;
    assert!(rt; made == fs::read(&rt, "told.stream")?);
    damage(&rt)?;
    let blocks = blocks_of(&rt, &DAMAGED)?;
    expect_told(&rt, &DAMAGED, blocks)
}
