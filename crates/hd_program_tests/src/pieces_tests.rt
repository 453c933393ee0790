use hd_output::Pieces;
use std::alloc::{AllocError, Global};
use std::io::{self, ErrorKind, Write};
use std::test::Fail;

/// A writer that keeps how long each write was, and takes so many bytes in all.
#[derive(Drop)]
struct Narrow {
    taken: Vec<u8>,
    writes: Vec<usize>,
    most: usize,
}

fn taking(alloc: Global, most: usize) -> Narrow {
    Narrow {
        taken: Vec::new(alloc),
        writes: Vec::new(alloc),
        most,
    }
}

impl Write for Narrow {
    fn write(&mut self, buf: &[u8]) -> io::Result<usize> {
        let count = buf.len().min(self.most.saturating_sub(self.taken.len()));
        if count == 0 {
            return Err(io::Error::from(ErrorKind::StorageFull));
        }
        self.taken.extend_from_slice(&buf[..count])?;
        self.writes.push(count)?;
        Ok(count)
    }

    fn flush(&mut self) -> io::Result<()> {
        Ok(())
    }
}

/// Writes pieces of so many bytes so often, each piece of another byte, and a flush; what was written.
fn write_pieces(
    alloc: Global,
    times: u8,
    lengths: &[usize],
    out: &mut Narrow,
) -> Result<Vec<u8>, Fail> {
    let mut written = Vec::new(alloc);
    let Ok(mut pieces) = Pieces::new(alloc, out) else {
        return Err(Fail::from(AllocError));
    };
    let mut byte: u8 = 0;
    for _ in 0..times {
        for length in lengths {
            byte = byte.wrapping_add(1);
            let piece = vec![in alloc; byte; *length]?;
            pieces.write_all(&piece)?;
            written.extend_from_slice(&piece)?;
        }
    }
    pieces.flush()?;
    Ok(written)
}

/// How often pieces of some lengths are written, and the lengths in which they are handed on: large ones, and what is larger than all room as it is.
const HANDED: &[(u8, &[usize], &[usize])] = &[
    (100, &[1000], &[65_000, 35_000]),
    (1, &[1, 70_000, 1], &[1, 70_000, 1]),
];

#[test]
fn hands_on_in_large_pieces(rt: HostRuntime) -> Result<(), Fail> {
    for (times, lengths, handed) in HANDED {
        let mut out = taking(rt.alloc(), 1_000_000);
        let written = write_pieces(rt.alloc(), *times, lengths, &mut out)?;
        assert_eq!(rt; out.writes.as_slice(), *handed);
        assert!(rt; out.taken.as_slice() == written.as_slice());
    }
    Ok(())
}

#[test]
fn writes_nothing_twice_after_a_failure(rt: HostRuntime) -> Result<(), Fail> {
    let mut out = taking(rt.alloc(), 4);
    let Ok(mut pieces) = Pieces::new(rt.alloc(), &mut out) else {
        return Err(Fail::from(AllocError));
    };
    pieces.write_all(b"abcdef")?;
    assert!(rt; pieces.flush().is_err());
    assert!(rt; pieces.flush().is_err());
    assert_eq!(rt; pieces.write(b"gh")?, 2);
    drop(pieces);
    assert_eq!(rt; out.taken.as_slice(), b"abcd".as_slice());
    Ok(())
}
