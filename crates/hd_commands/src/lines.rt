ghost use Rattle.std.specs.Prelude.{◌≡◌, ◌==◌, ◌≤◌, length, OnOk};
ghost use Rattle.std.specs.Io.KnownBytes.{Appends};
ghost use Rattle.std.specs.List.{position_or_len};
ghost use Rattle.hd_commands.specs.Lines.{name_text, counted, passed_line, unloaded_line, reloaded_line};

use hd_check::Passed;
use std::io::{self, Write};

/// Where the first blank of a name stands, or its length.
fn blank_or_end(name: &[u8]) -> usize
    ensures value { result ≡ position_or_len (λ b. b == 32) name.now }
    ensures bound { result ≤ length name.now }
{
    name.iter().take_while(|byte| **byte != b' ').count()
}

/// A name without the blanks behind it.
fn name_text(name: &[u8]) -> &[u8]
    ensures { result.now ≡ name_text name.now }
{
    let end = blank_or_end(name);
    &name[..end]
}

/// Prints a number between two texts.
fn print_count<O: Write>(out: &mut O, before: &str, count: u32, behind: &str) -> io::Result<()>
    ensures { OnOk result (Appends (O.contents out.old) (O.contents out.new) (counted before.now count behind.now)) }
{
    write!(out, "{before}{count}{behind}")
}

/// Prints what a volume that passes has.
pub fn print_passed<O: Write>(out: &mut O, name: &[u8], passed: &Passed) -> io::Result<()>
    ensures { OnOk result (Appends (O.contents out.old) (O.contents out.new) (passed_line name.now passed.now)) }
{
    out.write_all(name_text(name))?;
    print_count(out, " passes: ", passed.blocks, " blocks")?;
    print_count(out, ", ", passed.segments, " segments")?;
    print_count(out, ", ", passed.roots, " roots\n")
}

/// Prints how many segments were unloaded.
pub fn print_unloaded<O: Write>(out: &mut O, segments: u32) -> io::Result<()>
    ensures { OnOk result (Appends (O.contents out.old) (O.contents out.new) (unloaded_line segments)) }
{
    print_count(out, "unloaded ", segments, " segments\n")
}

/// Prints how many segments and blocks a reloaded volume has.
pub fn print_reloaded<O: Write>(out: &mut O, segments: u32, blocks: u32) -> io::Result<()>
    ensures { OnOk result (Appends (O.contents out.old) (O.contents out.new) (reloaded_line segments blocks)) }
{
    print_count(out, "reloaded ", segments, " segments")?;
    print_count(out, " into ", blocks, " blocks\n")
}
