//! The line of a terminal that tells how far a command is.
use hd_program::{Progress, Terminal, Work};
use std::cell::Cell;
use std::fs::{self, File};
use std::io;
use std::test::Fail;
use std::time::{Clock, Duration};

/// A clock that goes so many milliseconds at each look.
#[derive(Drop)]
struct Ticks {
    now: Cell<u64>,
    step: u64,
}

impl Clock for Ticks {
    fn monotonic(&self) -> io::Result<Duration> {
        let now = self.now.get();
        self.now.set(now.saturating_add(self.step));
        Ok(Duration::from_millis(now))
    }

    fn since_1970(&self) -> io::Result<Duration> {
        self.monotonic()
    }
}

/// What a terminal is told.
#[derive(Clone, Copy)]
enum Step {
    /// So many accesses, to so many blocks.
    Tell(u64, u64),
    /// So often, each time so many accesses more, to so many blocks.
    Tells(u64, u64, u64),
    /// So many of these are to be done.
    Begin(u64, Work),
    /// So many more are done.
    Done(u64),
    EndBeforeOutput,
    End,
}

fn take<P: Progress>(terminal: &P, step: Step) {
    match step {
        Step::Tell(accesses, blocks) => terminal.tell("playing", accesses, blocks),
        Step::Tells(times, accesses, blocks) => {
            for count in 0..times {
                let all = count.saturating_add(1).saturating_mul(accesses);
                terminal.tell("checking", all, blocks);
            }
        }
        Step::Begin(all, work) => terminal.begin(all, work),
        Step::Done(count) => terminal.done(count),
        Step::EndBeforeOutput => terminal.end_before_output(),
        Step::End => terminal.end(),
    }
}

/// What is told; the milliseconds of a look at the clock, whether standard error is a terminal, and standard output is one; and what is shown.
type Scene = (&'static [Step], u64, bool, bool, &'static [u8]);

const SCENES: &[Scene] = &[
    // Nothing is shown in the first second.
    (&[Step::Tells(9, 1, 4), Step::End], 100, true, false, b""),
    // One line is shown, which is taken away, and nothing behind it.
    (
        &[
            Step::Tells(15, 256, 4096),
            Step::EndBeforeOutput,
            Step::End,
            Step::End,
            Step::Tell(1_000_000, 4096),
        ],
        100,
        true,
        false,
        b"\rchecking: 2,560 accesses to 4,096 blocks\x1b[K\rchecking: 3,328 accesses to 4,096 blocks\x1b[K\r\x1b[K",
    ),
    // The thousands of a number are parted.
    (
        &[
            Step::Tell(0, 1),
            Step::Tell(999, 1000),
            Step::Tell(1_000_000, 65_536),
            Step::Tell(1_234_567, 1_002),
            Step::Tell(12_000_345_678, 999_999),
        ],
        1000,
        true,
        false,
        b"\rplaying: 0 accesses to 1 blocks\x1b[K\rplaying: 999 accesses to 1,000 blocks\x1b[K\rplaying: 1,000,000 accesses to 65,536 blocks\x1b[K\rplaying: 1,234,567 accesses to 1,002 blocks\x1b[K\rplaying: 12,000,345,678 accesses to 999,999 blocks\x1b[K",
    ),
    // It is shown how much of all work is done, of what was begun last.
    (
        &[
            Step::Tell(256, 4096),
            Step::Begin(50_001, Work::Calls),
            Step::Done(1),
            Step::Done(1_233),
            Step::Tell(512, 4096),
            Step::Begin(4096, Work::Blocks),
            Step::Tell(768, 4096),
            Step::Done(4096),
            Step::Begin(1_000_000, Work::Segments),
            Step::Done(999),
            Step::Tell(1024, 4096),
            Step::Begin(18, Work::Bytes),
            Step::Done(18),
            Step::Tell(1280, 4096),
            Step::End,
        ],
        1000,
        true,
        false,
        b"\rplaying: 256 accesses to 4,096 blocks\x1b[K\rplaying: 1,234 of 50,001 calls, 512 accesses to 4,096 blocks\x1b[K\rplaying: 0 of 4,096 blocks, 768 accesses to 4,096 blocks\x1b[K\rplaying: 999 of 1,000,000 segments, 1,024 accesses to 4,096 blocks\x1b[K\rplaying: 18 of 18 bytes, 1,280 accesses to 4,096 blocks\x1b[K\r\x1b[K",
    ),
    // The line gives way to output on the same terminal.
    (
        &[
            Step::Tell(256, 4),
            Step::EndBeforeOutput,
            Step::Tell(512, 4),
        ],
        1000,
        true,
        true,
        b"\rplaying: 256 accesses to 4 blocks\x1b[K\r\x1b[K",
    ),
    // Nothing is shown where there is no terminal.
    (&[Step::Tells(9, 1, 4), Step::End], 1000, false, false, b""),
];

#[test]
fn shows_one_line_on_a_terminal(rt: HostRuntime) -> Result<(), Fail> {
    for (steps, step, is_terminal, has_output, text) in SCENES {
        let screen = File::create(&rt, "terminal.screen")?;
        let clock = Ticks {
            now: Cell::new(0),
            step: *step,
        };
        let terminal = Terminal::new(rt.alloc(), &clock, &screen, *is_terminal, *has_output);
        for step in *steps {
            take(&terminal, *step);
        }
        assert_eq!(rt; fs::read(&rt, "terminal.screen")?.as_slice(), *text);
    }
    Ok(())
}
