ghost use Rattle.std.specs.Prelude.{◌≡◌, ◌<◌};

use crate::check_command::load_volume;
use crate::console::Console;
use crate::dbd_source::{CACHE, read_database};
use crate::stop::Stop;
use crate::volume_store::open_to_read;
use hd_commands::{Ended, Refusal, check_volume};
use hd_dbd::Dbd;
use hd_files::{FileFault, Identity, Named, Output, Wanted, file_blocks, of_file};
use hd_output::{Pieces, Progress};
use hd_show::{Survey, draw_database, draw_svg, draw_volume, survey_volume};
use hd_stores::{BlockStore, ReadAhead, RunStore};
use std::alloc::Global;
use std::fs::File;
use std::io::Write;
use std::marker::Brand;
use std::rt::Files;
use std::sync::ledger::{Blank, Ledger};

/// Draws a volume that was surveyed, as text.
fn draw_text<O: Write>(alloc: Global, dbd: &Dbd, survey: &Survey, out: &mut O) -> Result<(), Stop> {
    let Ok(mut lines) = Pieces::new(alloc, out) else {
        return Err(Stop::from(Refusal::Memory));
    };
    draw_volume(survey, dbd, &mut lines)?;
    lines.flush()?;
    Ok(())
}

/// Draws a volume that was surveyed, as a picture.
fn draw_lines<W: Write>(
    alloc: Global,
    dbd: &Dbd,
    survey: &Survey,
    picture: &mut W,
) -> Result<(), Stop> {
    let Ok(mut lines) = Pieces::new(alloc, picture) else {
        return Err(Stop::from(Refusal::Memory));
    };
    of_file(Named::Picture, draw_svg(survey, dbd, &mut lines))?;
    of_file(Named::Picture, lines.flush())?;
    Ok(())
}

/// Draws a volume that was surveyed, as a picture in a file, which then gets its name.
fn draw_picture<R: Files<File = File>>(
    alloc: Global,
    dbd: &Dbd,
    survey: &Survey,
    picture: &mut Output<'_, R>,
) -> Result<(), Stop> {
    draw_lines(alloc, dbd, survey, picture)?;
    picture.publish()?;
    Ok(())
}

/// Draws the volume in a store, as text or as a picture, and judges it.
fn show<S: BlockStore + Drop, R: Files<File = File>, O: Write, E: Write>(
    alloc: Global,
    dbd: &Dbd,
    store: S,
    picture: Option<&mut Output<'_, R>>,
    cache: u32,
    out: &mut O,
    err: &mut E,
) -> Result<Ended, Stop>
    requires { S.size store ≡ dbd.now.block_size }
{
    let mut volume = load_volume(alloc, dbd, store, cache)?;
    let survey = survey_volume(alloc, &mut volume, dbd)?;
    match picture {
        Some(picture) => draw_picture(alloc, dbd, &survey, picture)?,
        None => draw_text(alloc, dbd, &survey, out)?,
    }
    Ok(check_volume(alloc, &mut volume, dbd, out, err))
}

/// Draws the volume in a store, whose blocks are read ahead, and judges it.
fn show_ahead<S: RunStore + Drop, R: Files<File = File>, O: Write, E: Write>(
    alloc: Global,
    dbd: &Dbd,
    store: S,
    picture: Option<&mut Output<'_, R>>,
    cache: u32,
    out: &mut O,
    err: &mut E,
) -> Result<Ended, Stop>
    requires { S.size store ≡ dbd.now.block_size }
{
    let store = ReadAhead::new(alloc, store);
    show(alloc, dbd, store, picture, cache, out, err)
}

/// Draws the volume in a file, and judges it, with a ledger for the accesses that fail.
fn show_blocks<L: Ledger, R: Files<File = File>, O: Write, E: Write>(
    alloc: Global,
    dbd: &Dbd,
    file: File,
    picture: Option<&mut Output<'_, R>>,
    cache: u32,
    blank: Blank,
    out: &mut O,
    err: &mut E,
) -> Result<Ended, Stop>
    requires name { blank.name ≡ L.name }
    requires parts { blank.parts ≡ L.parts }
    requires share { 0 < blank.parts }
{
    let store = file_blocks::<L>(dbd, file, blank)?;
    show_ahead(alloc, dbd, store, picture, cache, out, err)
}

/// As `show_blocks`, with a ledger of its own.
fn show_file<R: Files<File = File>, O: Write, E: Write>(
    alloc: Global,
    dbd: &Dbd,
    file: File,
    picture: Option<&mut Output<'_, R>>,
    cache: u32,
    out: &mut O,
    err: &mut E,
) -> Result<Ended, Stop> {
    let blank = Blank::new(1);
    show_blocks::<Brand, R, O, E>(alloc, dbd, file, picture, cache, blank, out, err)
}

/// Draws the hierarchy that a DBD describes.
pub fn show_database<R, O>(rt: &R, alloc: Global, dbd: &str, out: &mut O) -> Result<Ended, Stop>
where
    R: Files<File = File>,
    O: Write,
{
    let (dbd, _) = read_database(rt, alloc, dbd)?;
    draw_database(&dbd, out)?;
    Ok(Ended::with_status(0))
}

/// The file of a picture; never one of the files that the command reads.
fn open_picture<'a, R: Files<File = File>>(
    rt: &'a R,
    alloc: Global,
    name: &'a str,
    syncs: bool,
    inputs: &[Identity],
) -> Result<Output<'a, R>, FileFault> {
    let wanted = Wanted {
        name,
        word: Named::Picture,
        is_read: false,
        syncs,
    };
    Output::open(rt, alloc, wanted, inputs)
}

/// Draws the volume in a file, which is opened for reading alone, as text, or as a picture into another file; and judges it. The DBD is read
/// and judged first, then the files are opened. A volume with a fault is drawn as far as it can be read.
pub fn show_volume<R, P, O, E>(
    console: &mut Console<'_, R, P, O, E>,
    dbd: &str,
    volume: &str,
    picture: Option<&str>,
    cache: Option<u32>,
    syncs: bool,
) -> Result<Ended, Stop>
where
    R: Files<File = File>,
    P: Progress,
    O: Write,
    E: Write,
{
    let (rt, alloc) = (console.rt, console.alloc);
    let (dbd, source) = read_database(rt, alloc, dbd)?;
    let (file, image) = open_to_read(console, volume)?;
    let mut picture = match picture {
        Some(name) => Some(open_picture(rt, alloc, name, syncs, &[source, image])?),
        None => None,
    };
    let cache = cache.unwrap_or(CACHE);
    show_file(
        alloc,
        &dbd,
        file,
        picture.as_mut(),
        cache,
        &mut *console.out,
        &mut *console.err,
    )
}
