//! Sources of databases and of programs, and the bytes of volumes.

use hd_dbd::Dbd;
use hd_sample::{image, spread_image};
use hd_stores::MemStore;
use hd_unload::reload;
use std::alloc::Global;

/// The sample database.
pub const SAMPLE: &[u8] = b"         DBD   NAME=EDU,ACCESS=(HIDAM,VSAM)
         DATASET DD1=EDUDD,DEVICE=3390,SIZE=128
         SEGM  NAME=COURSE,PARENT=0,BYTES=8,POINTER=TWINBWD
         LCHILD NAME=(EDUXS,EDUX),POINTER=INDX
         FIELD NAME=(NUM,SEQ,U),BYTES=3,START=1,TYPE=C
         SEGM  NAME=CLASS,PARENT=((COURSE,DBLE)),BYTES=4,PTR=TB
         FIELD NAME=(ED,SEQ,U),BYTES=2,START=1,TYPE=C
         SEGM  NAME=STUD,PARENT=((CLASS,SNGL)),BYTES=6,PTR=T
         FIELD NAME=(SNAME,SEQ,M),BYTES=4,START=1,TYPE=C
         SEGM  NAME=BOOK,PARENT=((COURSE,DBLE)),BYTES=5,PTR=TB
         DBDGEN
";

/// A program of it: its first PCB sees all, and the second no students.
const PROGRAM: &[u8] = b"         PCB   TYPE=DB,DBDNAME=EDU,PROCOPT=AP
         SENSEG NAME=COURSE,PARENT=0
         SENSEG NAME=CLASS,PARENT=COURSE
         SENSEG NAME=STUD,PARENT=CLASS
         SENSEG NAME=BOOK,PARENT=COURSE
         PCB   TYPE=DB,DBDNAME=EDU,PROCOPT=GIRDP
         SENSEG NAME=COURSE,PARENT=0
         SENSEG NAME=CLASS,PARENT=COURSE
         SENSEG NAME=BOOK,PARENT=COURSE
         PSBGEN LANG=COBOL,PSBNAME=EDUP
";

/// Courses and books of which the longest take a block each.
const LONG: &[u8] = b"         DBD   NAME=EDU,ACCESS=HIDAM
         DATASET SIZE=128
         SEGM  NAME=COURSE,BYTES=(102,5),PTR=TB
         FIELD NAME=(NUM,SEQ,U),BYTES=3,START=3
         SEGM  NAME=BOOK,PARENT=((COURSE,DBLE)),BYTES=(110,4),PTR=TB
         DBDGEN
";

/// A program of two PCBs that see both.
const LONG_PROGRAM: &[u8] = b"         PCB   TYPE=DB,DBDNAME=EDU,PROCOPT=AP
         SENSEG NAME=COURSE
         SENSEG NAME=BOOK,PARENT=COURSE
         PCB   TYPE=DB,DBDNAME=EDU,PROCOPT=AP
         SENSEG NAME=COURSE
         SENSEG NAME=BOOK,PARENT=COURSE
         PSBGEN
";

/// A program that loads the sample database.
pub const LOADER: &[u8] = b"         PCB   TYPE=DB,DBDNAME=EDU,PROCOPT=L
         SENSEG NAME=COURSE
         PSBGEN
";

/// A database with a program of it.
#[derive(Clone, Copy)]
pub enum Base {
    Sample,
    Long,
}

/// The sources of a database and of its program.
pub fn sources_of(base: Base) -> (&'static [u8], &'static [u8]) {
    match base {
        Base::Sample => (SAMPLE, PROGRAM),
        Base::Long => (LONG, LONG_PROGRAM),
    }
}

/// What a volume has before an act.
#[derive(Clone, Copy)]
pub enum Holds {
    /// Not even a block.
    Nothing,
    /// The sample's rows, in four blocks.
    Sample,
    /// The sample's rows, each in a block of its own: nine blocks with those of the header and of the index.
    Spread,
    /// The rows of an unload stream.
    Rows(&'static [u8]),
}

/// The bytes of a volume of a database, of the newest version.
pub fn bytes_of(alloc: Global, dbd: &Dbd, holds: Holds) -> Option<Vec<u8>> {
    match holds {
        Holds::Nothing => Some(Vec::new(alloc)),
        Holds::Sample => {
            let mut newest = image();
            newest[9] = 3;
            newest.to_vec(alloc).ok()
        }
        Holds::Spread => spread_image().to_vec(alloc).ok(),
        Holds::Rows(stream) => {
            let store = MemStore::new(dbd.block_size() as usize, Vec::new(alloc));
            let loaded = reload(alloc, dbd, stream, store, 16, 3).ok()?;
            Some(loaded.store.into_bytes())
        }
    }
}
