//! Arguments whose answers the rules give.
use crate::sources::{CHAIN, CHAIN_PSB, DBD, LOADER, PSB};
use hd_calls::{Function, GetKind};
use hd_dbd::{Dbd, Pcb, Psb, Status};
use hd_gen::{read_dbd, read_psb};
use hd_ssa::{SsaFault, resolve};
use std::alloc::{AllocError, Global};
use std::test::Fail;

const GET: Function = Function::Get(GetKind::Unique, false);

/// The function of a letter.
fn function_of(letter: u8) -> Function {
    match letter {
        b'I' => Function::Insert,
        b'R' => Function::Replace,
        b'D' => Function::Delete,
        _ => GET,
    }
}

/// The arguments of a call, behind each of which stands a slash.
fn texts(alloc: Global, line: &[u8]) -> Result<Vec<Vec<u8>>, AllocError> {
    let mut list = Vec::new(alloc);
    let Some((b'/', front)) = line.split_last() else {
        return Ok(list);
    };
    for ssa in front.split(|byte| *byte == b'/') {
        list.push(Vec::from_slice(alloc, ssa)?)?;
    }
    Ok(list)
}

/// The status that arguments are answered with: blank where they mean something.
fn status_of(
    alloc: Global,
    dbd: &Dbd,
    pcb: &Pcb,
    function: Function,
    ssas: &[Vec<u8>],
) -> Result<Status, SsaFault> {
    match resolve(alloc, function, ssas, pcb, dbd) {
        Ok(_) => Ok(Status::Blank),
        Err(SsaFault::Status(status)) => Ok(status),
        Err(SsaFault::Memory) => Err(SsaFault::Memory),
    }
}

/// The two characters of the statuses that arguments are answered with.
fn code_of(status: Status) -> [u8; 2] {
    match status {
        Status::Blank => *b"  ",
        Status::AC => *b"AC",
        Status::AJ => *b"AJ",
        Status::AK => *b"AK",
        _ => *b"??",
    }
}

/// Calls, each in a line: G, I, R or D for the function; P for the PCB that may do all, S for the one that sees no students, L for the one that loads; the
/// status that is the answer to its arguments; and these, each with a slash behind it.
const CALLS: &[u8] = b"GP   \x20
GP    COURSE  /
GP    COURSE  *DFLN- whatever/
GP    COURSE  *(NUM     EQ101)whatever/
GP AJ COURSE/
GP AJ  COURSE /
GP AJ COU RSE /
GP AJ COURSE  X/
GP AJ COURSE  *P/
GP AJ CLASS   (ED      XX02)/
GP AJ CLASS   (ED      EQ02/
GP AJ CLASS   (ED      EQ0/
GP AJ CLASS   (ED      EQ02,ED      EQ02)/
GP AJ CLASS   (ED     /
GP AK CLASS   (NAME    EQ02)/
GP AK CLASS   (NAME    XX02)/
GP AC CLAS    /
GP AC STUD    /CLASS   /
GP AC CLASS   /BOOK    /
GP AC CLASS   (NAME    EQ02)/CLAS    /
GP AJ CLASS   (NAME    EQ02)/BOOK    X/
IP AJ CLASS   (ED      EQ01)/
IP AC COURSE  /STUD    /
IP    CLASS   (ED      EQ01)/STUD    /
RP AJ CLASS   (ED      EQ01)/
DP AJ COURSE  /CLASS   /
GS AC STUD    /
IL AJ COURSE  /CLASS   /
GS AC COURSE  /COURSE  /COURSE  /COURSE  /COURSE  /COURSE  /COURSE  /COURSE  /COURSE  /COURSE  /COURSE  /COURSE  /COURSE  /COURSE  /COURSE  /COURSE  /";

/// The PCB of a letter.
fn pcb_of<'a>(psb: &'a Psb, loader: &'a Psb, letter: u8) -> Option<&'a Pcb> {
    match letter {
        b'P' => psb.pcbs().first(),
        b'S' => psb.pcbs().get(1),
        _ => loader.pcbs().first(),
    }
}

/// Whether the answer to the arguments of a line is what the line says.
fn is_answered(
    alloc: Global,
    dbd: &Dbd,
    psb: &Psb,
    loader: &Psb,
    line: &[u8],
) -> Result<bool, Fail> {
    let Some(([letter, program, _, first, second, _], rest)) = line.split_first_chunk::<6>() else {
        return Err(Fail::from("a line"));
    };
    let pcb = pcb_of(psb, loader, *program).ok_or("a PCB")?;
    let ssas = texts(alloc, rest)?;
    let status = status_of(alloc, dbd, pcb, function_of(*letter), &ssas)?;
    Ok(code_of(status) == [*first, *second])
}

#[test]
fn answers_the_first_fault(rt: HostRuntime) -> Result<(), Fail> {
    let dbd = read_dbd(rt.alloc(), DBD)?;
    let psb = read_psb(rt.alloc(), PSB, &dbd)?;
    let loader = read_psb(rt.alloc(), LOADER, &dbd)?;
    for (number, line) in CALLS.split(|byte| *byte == b'\n').enumerate() {
        assert!(rt;
            is_answered(rt.alloc(), &dbd, &psb, &loader, line)?,
            "at {number}"
        );
    }
    Ok(())
}

/// Arguments for courses; a row; whether it has the qualification, and whether it is past it; and the least key, empty where there is none.
const QUALIFIED: &[u8] = b"COURSE  /101ALGEB/+/-/
COURSE  (NUM     EQ101)/101ALGEB/+/-/101
COURSE  (NUM      =101)/100ALGEB/-/-/101
COURSE  (NUM     = 101)/102ALGEB/-/+/101
COURSE  (NUM     >=150)/205LOGIC/+/-/150
COURSE  (NUM     =<150)/150LOGIC/+/-/
COURSE  (NUM     < 150)/150LOGIC/-/+/
COURSE  (NUM     > 150)/150LOGIC/-/-/150
COURSE  (NUM     NE150)/150LOGIC/-/-/
COURSE  (TITLE   EQLOGIC)/205LOGIC/+/-/
COURSE  (NUM     EQ101+NUM     EQ205)/205LOGIC/+/-/101
COURSE  (NUM     EQ101|NUM     EQ205)/206LOGIC/-/+/101
COURSE  (NUM     GE101&NUM     LT150)/205LOGIC/-/+/101
COURSE  (NUM     GE101*NUM     GT150+NUM     EQ160)/155LOGIC/+/-/150
COURSE  (NUM     EQ101+TITLE   EQLOGIC)/205LOGIC/+/-/
COURSE  (NUM     EQ101+NUM     EQ205*TITLE   EQALGEB)/101LOGIC/+/-/101";

/// Whether the argument of a line does what the line says.
fn is_judged(alloc: Global, dbd: &Dbd, pcb: &Pcb, line: &[u8]) -> Result<bool, Fail> {
    let mut cells = line.split(|byte| *byte == b'/');
    let mut ssas = Vec::new(alloc);
    ssas.push(Vec::from_slice(alloc, cells.next().unwrap_or(b""))?)?;
    let row = cells.next().unwrap_or(b"");
    let holds = cells.next() == Some(b"+");
    let is_past = cells.next() == Some(b"+");
    let least = cells.next().filter(|least| !least.is_empty());
    let resolved = resolve(alloc, GET, &ssas, pcb, dbd)?;
    let (Some(ssa), Some(root)) = (resolved.ssas().first(), dbd.type_of(1)) else {
        return Err(Fail::from("an argument"));
    };
    let key = root.key.ok_or("a key")?;
    let alike = ssa.holds(row) == holds && ssa.is_past(root, row) == is_past;
    Ok(alike && ssa.least_key(key) == least)
}

#[test]
fn judges_rows(rt: HostRuntime) -> Result<(), Fail> {
    let dbd = read_dbd(rt.alloc(), DBD)?;
    let psb = read_psb(rt.alloc(), PSB, &dbd)?;
    let pcb = psb.pcbs().first().ok_or("a PCB")?;
    for (number, line) in QUALIFIED.split(|byte| *byte == b'\n').enumerate() {
        assert!(rt; is_judged(rt.alloc(), &dbd, pcb, line)?, "at {number}");
    }
    Ok(())
}

#[test]
fn resolves_as_many_as_there_are_levels(rt: HostRuntime) -> Result<(), Fail> {
    let dbd = read_dbd(rt.alloc(), CHAIN)?;
    let psb = read_psb(rt.alloc(), CHAIN_PSB, &dbd)?;
    let pcb = psb.pcbs().first().ok_or("a PCB")?;
    let mut ssas = Vec::new(rt.alloc());
    for segment in dbd.types() {
        ssas.push(Vec::from_slice(rt.alloc(), segment.name.bytes())?)?;
        let resolved = resolve(rt.alloc(), GET, &ssas, pcb, &dbd)?;
        assert_eq!(rt; resolved.ssas().len(), ssas.len());
    }
    assert_eq!(rt; ssas.len(), 15);
    Ok(())
}
