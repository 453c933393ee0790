ghost use Rattle.std.specs.Prelude.{◌≡◌, IfOk, IfErr};
ghost use Rattle.hd_dbd.specs.ProgramRules.{type_names};
ghost use Rattle.hd_dbd.specs.Sample.{sample_database, sample_pcbs};

use crate::stop::Stop;
use hd_commands::Refusal;
use hd_dbd::{Dbd, Psb};
use hd_gen::{GenFault, read_dbd, read_psb};
use hd_stores::MemStore;
use hd_unload::reload;
use std::alloc::Global;

/// The source of the sample database EDU: courses with their classes and books, and the students of each class.
pub const DBD_SOURCE: &[u8] = b"         DBD   NAME=EDU,ACCESS=(HIDAM,VSAM)
         DATASET DD1=EDUDD,DEVICE=3390,SIZE=128
         SEGM  NAME=COURSE,PARENT=0,BYTES=8,POINTER=TWINBWD
         LCHILD NAME=(EDUXS,EDUX),POINTER=INDX
         FIELD NAME=(NUM,SEQ,U),BYTES=3,START=1,TYPE=C
         SEGM  NAME=CLASS,PARENT=((COURSE,DBLE)),BYTES=4,PTR=TB
         FIELD NAME=(ED,SEQ,U),BYTES=2,START=1,TYPE=C
         SEGM  NAME=STUD,PARENT=((CLASS,SNGL)),BYTES=6,PTR=T
         FIELD NAME=(SNAME,SEQ,M),BYTES=4,START=1,TYPE=C
         SEGM  NAME=BOOK,PARENT=((COURSE,DBLE)),BYTES=5,PTR=TB,        X
               RULES=(,HERE)
         DBDGEN
         FINISH
         END
";

/// The source of the sample program EDUP: its first PCB may also get paths, and its third sees no students.
pub const PSB_SOURCE: &[u8] = b"         PCB   TYPE=DB,DBDNAME=EDU,PROCOPT=AP,KEYLEN=9
         SENSEG NAME=COURSE,PARENT=0
         SENSEG NAME=CLASS,PARENT=COURSE
         SENSEG NAME=STUD,PARENT=CLASS
         SENSEG NAME=BOOK,PARENT=COURSE
         PCB   TYPE=DB,DBDNAME=EDU,PROCOPT=A,KEYLEN=9
         SENSEG NAME=COURSE,PARENT=0
         SENSEG NAME=CLASS,PARENT=COURSE
         SENSEG NAME=STUD,PARENT=CLASS
         SENSEG NAME=BOOK,PARENT=COURSE
         PCB   TYPE=DB,DBDNAME=EDU,PROCOPT=A,KEYLEN=9
         SENSEG NAME=COURSE,PARENT=0
         SENSEG NAME=CLASS,PARENT=COURSE
         SENSEG NAME=BOOK,PARENT=COURSE
         PSBGEN LANG=COBOL,PSBNAME=EDUP
         END
";

/// The sample database.
pub fn database(alloc: Global) -> Result<Dbd, GenFault>
    ensures sample { IfOk result (λ d. d ≡ sample_database) }
    ensures memory { IfErr result (λ e. e ≡ GenFault.Memory) }
{
    read_dbd(alloc, DBD_SOURCE)
}

/// The sample program.
pub fn program(alloc: Global, dbd: &Dbd) -> Result<Psb, GenFault>
    ensures made_for { IfOk result (λ p. p.made_for ≡ type_names dbd.now.types) }
    ensures sample { IfOk result (λ p. dbd.now ≡ sample_database → p.pcbs ≡ sample_pcbs) }
{
    read_psb(alloc, PSB_SOURCE, dbd)
}

/// The unload stream of the sample's segments.
const STREAM: &[u8] =
    b"HDUNLOAD\0\x01EDU     \x01\0\x08101ALGEB\x02\0\x0401AB\x03\0\x06ADAM01\x03\0\x06EVE 02\x02\0\x0402CD\x04\0\x05EULER\x01\0\x08205LOGIC\0\0\0\0\x07";

/// The most blocks that the sample's volume may have.
const BLOCKS: u32 = 16;

/// How many of them are kept in memory.
pub const KEPT: usize = 3;

/// A volume of the sample's segments, in memory.
pub fn volume(alloc: Global, dbd: &Dbd) -> Result<MemStore, Stop>
    ensures { IfOk result (λ s. s.size ≡ dbd.now.block_size) }
{
    let store = MemStore::new(dbd.block_size() as usize, Vec::new(alloc));
    match reload(alloc, dbd, STREAM, store, BLOCKS, KEPT) {
        Ok(loaded) => Ok(loaded.store),
        Err((_, fault)) => Err(Stop::from(Refusal::of_reload(fault))),
    }
}
