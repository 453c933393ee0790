//! What is read of sources, and of statements.
use hd_dbd::Rule;
use hd_gen::{read_dbd, read_psb};
use hd_macro::statements;
use std::test::Fail;

/// A source with types that vary.
const VARY: &[u8] = b"X DBD NAME=VARY,ACCESS=HIDAM
 DATASET SIZE=128
 SEGM NAME=A,BYTES=(8,4)
 FIELD NAME=(KEY,SEQ),BYTES=2,START=3
 SEGM NAME=B,PARENT=A,BYTES=8
 SEGM NAME=C,PARENT=B,BYTES=(6,6)
 DBDGEN
";

#[test]
fn reads_types_that_vary(rt: HostRuntime) -> Result<(), Fail> {
    let dbd = read_dbd(rt.alloc(), VARY)?;
    assert!(rt; dbd.some_vary());
    let mut lengths = dbd
        .types()
        .iter()
        .map(|segment| (segment.length, segment.least));
    assert_eq!(rt; lengths.next(), Some((8, Some(4))));
    assert_eq!(rt; lengths.next(), Some((8, None)));
    assert_eq!(rt; lengths.next(), Some((6, Some(6))));
    assert_eq!(rt; lengths.next(), None);
    Ok(())
}

/// A source with every statement and operand.
const ONE: &[u8] = b"X DBD NAME=ONE,ACCESS=(HIDAM),PASSWD=NO
 PRINT NOGEN
 DATASET SIZE=(4096,2),FRSPC=(5,10),DD1=A,DEVICE=B,SCAN=3,MODEL=(C,(D))
 SEGM NAME=A,PARENT=0,BYTES=20,POINTER=(NT),RULES=(L,FIRST),FREQ=1.5
 FIELD NAME=(KEY,SEQ,U),BYTES=4,START=3,TYPE=X
 LCHILD NAME=(AX,ONEX),PTR=INDX
 FIELD NAME=REST,BYTES=10,START=7
 SEGM NAME=B,PARENT=((A,DBLE)),BYTES=6,PTR=TWINBWD,RULES=(,HERE)
 DBDGEN
 END
";

/// The same of a program.
const ONE_PSB: &[u8] = b"X PCB TYPE=DB,NAME=ONE,PROCOPT=G,POS=SINGLE,KEYLEN=10,PCBNAME=ONEP
 SENSEG NAME=A
 SENSEG NAME=B,PARENT=A,PROCOPT=GIR
 PSBGEN LANG=PLI,PSBNAME=ONEPSB,CMPAT=YES,IOASIZE=100,SSASIZE=100
 END
";

#[test]
fn reads_every_statement_and_operand(rt: HostRuntime) -> Result<(), Fail> {
    let dbd = read_dbd(rt.alloc(), ONE)?;
    assert_eq!(rt; dbd.name().bytes(), b"ONE     ");
    let spaces = (dbd.block_size(), dbd.frspc().fbff, dbd.frspc().fspf);
    assert_eq!(rt; spaces, (4096, 5, 10));
    let [root, below] = dbd.types() else {
        return Err(Fail::from("two types"));
    };
    assert!(rt; root.length == 20 && root.rule == Rule::First && !root.backward);
    assert_eq!(rt; root.fields.len(), 2);
    assert_eq!(rt; root.key.map(|key| (key.start, key.length)), Some((3, 4)));
    assert!(rt; below.parent == Some(1) && below.backward && below.last_pointer);
    assert_eq!(rt; below.rule, Rule::Here);
    Ok(())
}

#[test]
fn reads_every_operand_of_a_program(rt: HostRuntime) -> Result<(), Fail> {
    let dbd = read_dbd(rt.alloc(), ONE)?;
    let psb = read_psb(rt.alloc(), ONE_PSB, &dbd)?;
    let [pcb] = psb.pcbs() else {
        return Err(Fail::from("a PCB"));
    };
    assert_eq!(rt; pcb.procopt.as_str(), "G");
    assert_eq!(rt; pcb.sens.len(), 2);
    Ok(())
}

#[test]
fn joins_a_continued_statement(rt: HostRuntime) -> Result<(), Fail> {
    let source =
        b"* a sample\r\n\n PRINT NOGEN\n         SEGM  NAME=BOOK,PARENT=((COURSE,DBLE)),BYTES=5,PTR=TB,        X\n               RULES=(,HERE)\n DBDGEN";
    let found = statements(rt.alloc(), source)?;
    let [segment, _] = found.as_slice() else {
        return Err(Fail::from("two statements"));
    };
    assert!(rt; segment.operation.as_slice() == b"SEGM".as_slice() && segment.line == 4);
    assert_eq!(rt; segment.operands.len(), 5);
    let rules = segment.operands.last().ok_or("an operand")?;
    assert!(rt; rules.keyword.as_slice() == b"RULES".as_slice());
    assert!(rt; rules.value.as_slice() == b"(,HERE)".as_slice());
    Ok(())
}
