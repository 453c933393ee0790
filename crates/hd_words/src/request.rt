use hd_files::Named;

/// What the words of the command line ask for. All of them but `blocks`, `cache`, `end_commits`, `syncs`, `table`, `is_tables`, `is_typed`, `is_whole` and `word` are names of files; `cache`
/// says how many blocks of the volume are kept in memory, if the words say it, and `syncs` whether to wait until what is written is on the disk.
#[derive(Clone, Copy)]
pub enum Request<'a> {
    /// A deck over the sample.
    Sample,
    /// A deck over a volume, by a program, with a commit behind every so many calls where that is wanted, and whether what it expects is compared.
    Deck {
        dbd: &'a str,
        psb: &'a str,
        volume: &'a str,
        deck: &'a str,
        every: Option<u32>,
        compares: bool,
        cache: Option<u32>,
        syncs: bool,
    },
    /// Calls over a volume, by a program that sends them. Its end commits what they changed, or only its requests do.
    Serve {
        dbd: &'a str,
        psb: &'a str,
        volume: &'a str,
        end_commits: bool,
        cache: Option<u32>,
        syncs: bool,
    },
    /// A check of a volume, which lists all faults or names the first.
    Check {
        dbd: &'a str,
        volume: &'a str,
        is_whole: bool,
        cache: Option<u32>,
    },
    /// The commits in a volume's log, or in a file that is named for it, copied into the volume.
    Recover {
        dbd: &'a str,
        volume: &'a str,
        log: Option<&'a str>,
        cache: Option<u32>,
    },
    Unload {
        dbd: &'a str,
        volume: &'a str,
        out: &'a str,
        cache: Option<u32>,
        syncs: bool,
    },
    /// A copy of a volume that passes.
    Copy {
        dbd: &'a str,
        volume: &'a str,
        out: &'a str,
        cache: Option<u32>,
        syncs: bool,
    },
    /// An unload stream of what a volume still holds, and the rows that are left out of it, if a file is named for them.
    Salvage {
        dbd: &'a str,
        volume: &'a str,
        out: &'a str,
        orphans: Option<&'a str>,
        cache: Option<u32>,
        syncs: bool,
    },
    /// A volume of an unload stream, of at most so many blocks.
    Reload {
        dbd: &'a str,
        input: &'a str,
        volume: &'a str,
        blocks: u32,
        cache: Option<u32>,
        syncs: bool,
    },
    /// A picture of a database, or of a volume, which goes into a file if one is named.
    Show {
        dbd: &'a str,
        volume: Option<&'a str>,
        picture: Option<&'a str>,
        cache: Option<u32>,
        syncs: bool,
    },
    /// The rows of a volume, or those of one type as a table, or of each in a folder that is named for them; with values by the TYPEs of their fields, or as bytes.
    Rows {
        dbd: &'a str,
        volume: &'a str,
        table: Option<&'a str>,
        folder: Option<&'a str>,
        is_typed: bool,
        cache: Option<u32>,
        syncs: bool,
    },
    /// An unload stream of a text of rows, or of the tables in a folder, whose values are read by the TYPEs of their fields, or as bytes.
    Stream {
        dbd: &'a str,
        rows: &'a str,
        out: &'a str,
        is_tables: bool,
        is_typed: bool,
        syncs: bool,
    },
    /// The operands of a source.
    Operands {
        source: &'a str,
    },
    /// What a fault, status or refusal means, or a list of all.
    Explain {
        word: Option<&'a str>,
    },
}

/// What messages call a file of which the command line has no name.
const STANDARD_INPUT: &str = "standard input";

/// The names of a command's files, as the command line has them.
#[derive(Clone, Copy)]
struct Names<'a> {
    dbd: &'a str,
    psb: &'a str,
    volume: &'a str,
    deck: &'a str,
    stream: &'a str,
    rows: &'a str,
    /// The stream or the picture that is written, or the folder of tables.
    out: &'a str,
}

impl<'a> Names<'a> {
    /// Those of a command over a database, and maybe a volume.
    fn over(dbd: &'a str, volume: &'a str) -> Names<'a> {
        Names {
            dbd,
            psb: STANDARD_INPUT,
            volume,
            deck: STANDARD_INPUT,
            stream: STANDARD_INPUT,
            rows: STANDARD_INPUT,
            out: STANDARD_INPUT,
        }
    }

    /// With a program's too.
    fn with_psb(self, psb: &'a str) -> Names<'a> {
        Names { psb, ..self }
    }

    fn with_deck(self, deck: &'a str) -> Names<'a> {
        Names { deck, ..self }
    }

    fn with_stream(self, stream: &'a str) -> Names<'a> {
        Names { stream, ..self }
    }

    fn with_rows(self, rows: &'a str) -> Names<'a> {
        Names { rows, ..self }
    }

    fn with_out(self, out: &'a str) -> Names<'a> {
        Names { out, ..self }
    }
}

impl<'a> Request<'a> {
    /// The names of the command's files.
    fn names(&self) -> Names<'a> {
        match *self {
            Request::Sample | Request::Explain { .. } => {
                Names::over(STANDARD_INPUT, STANDARD_INPUT)
            }
            Request::Deck {
                dbd,
                psb,
                volume,
                deck,
                ..
            } => Names::over(dbd, volume).with_psb(psb).with_deck(deck),
            Request::Serve {
                dbd,
                psb,
                volume,
                ..
            } => Names::over(dbd, volume).with_psb(psb),
            Request::Check { dbd, volume, .. } | Request::Recover { dbd, volume, .. } => {
                Names::over(dbd, volume)
            }
            Request::Rows {
                dbd,
                volume,
                folder,
                ..
            } => Names::over(dbd, volume).with_out(folder.unwrap_or("")),
            Request::Unload {
                dbd,
                volume,
                out,
                ..
            }
            | Request::Copy {
                dbd,
                volume,
                out,
                ..
            } => Names::over(dbd, volume).with_out(out),
            Request::Salvage {
                dbd,
                volume,
                out,
                orphans,
                ..
            } => Names::over(dbd, volume)
                .with_out(out)
                .with_rows(orphans.unwrap_or("")),
            Request::Reload {
                dbd,
                input,
                volume,
                ..
            } => Names::over(dbd, volume).with_stream(input),
            Request::Show {
                dbd,
                volume,
                picture,
                ..
            } => Names::over(dbd, volume.unwrap_or("")).with_out(picture.unwrap_or("")),
            Request::Stream { dbd, rows, out, .. } => {
                Names::over(dbd, STANDARD_INPUT)
                    .with_rows(rows)
                    .with_out(out)
            }
            Request::Operands { source } => Names::over(source, STANDARD_INPUT),
        }
    }

    /// The name of one of the command's files, as the command line has it.
    pub fn name_of(&self, file: Named) -> &'a str {
        let names = self.names();
        match file {
            Named::Dbd => names.dbd,
            Named::Psb => names.psb,
            Named::Volume => names.volume,
            Named::Deck => names.deck,
            Named::Stream => names.stream,
            Named::Rows => names.rows,
            Named::Out | Named::Picture => names.out,
            Named::Log | Named::Input => STANDARD_INPUT,
            Named::Output => "standard output",
        }
    }
}
