//! The text and the status of stops to which no words lead from outside, or only want of memory does.
use hd_dbd::{DbdFault, PsbFault, Refused};
use hd_deck::DeckFault;
use hd_gen::GenFault;
use hd_program::{Named, Stop};
use std::alloc::AllocError;
use std::io::{self, ErrorKind};
use std::process::Abort;

/// A stop has this text and this status.
fn says<R: AllocGlobal + Abort>(rt: &R, stop: &Stop, line: &str, status: u8) {
    let text = stop.to_string(rt.alloc()).expect(rt, "memory");
    assert_eq!(rt; text.as_str(), line);
    assert_eq!(rt; stop.status(), status);
}

#[test]
fn words_refusals_that_no_source_has(rt: HostRuntime) {
    let alloc = rt.alloc();
    let fault = GenFault::Dbd(DbdFault::B1);
    let stop = Stop::database(fault, Vec::new(alloc));
    says(&rt, &stop, "DBD refused: type 0, B1", 2);
    let fault = GenFault::Psb(PsbFault::P6(0));
    let stop = Stop::program(fault, Vec::new(alloc));
    says(&rt, &stop, "PSB refused: pcb 0, P6", 2);
}

#[test]
fn says_where_memory_is_wanting(rt: HostRuntime) {
    let alloc = rt.alloc();
    let line = "no memory";
    let fault = GenFault::Memory;
    says(&rt, &Stop::database(fault, Vec::new(alloc)), line, 4);
    says(&rt, &Stop::program(fault, Vec::new(alloc)), line, 4);
    let stop = Stop::deck(DeckFault::Memory, Vec::new(alloc), Named::Deck);
    says(&rt, &stop, line, 4);
    says(&rt, &Stop::from(Refused::Memory), line, 4);
    says(&rt, &Stop::from(AllocError), line, 4);
    let error = io::Error::from(ErrorKind::OutOfMemory);
    says(&rt, &Stop::words(&error), line, 4);
    says(&rt, &Stop::file(Named::Dbd, error), line, 4);
}
