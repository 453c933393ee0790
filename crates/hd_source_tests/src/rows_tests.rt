//! Rows as text, where the stream comes in pieces, or is none, and tables of which the program reads none so.
use crate::sources::{DBD, NOTES, ODD};
use hd_dbd::Dbd;
use hd_gen::read_dbd;
use hd_rows::{Form, RowFault, RowWriter, TextFault, Values, stream_of_tables};
use std::alloc::Global;
use std::io::Write;
use std::test::Fail;

/// The text of a stream, given to the writer in pieces of so many bytes; `None` where it is refused.
fn text_of(alloc: Global, dbd: &Dbd, form: Form, stream: &[u8], piece: usize) -> Option<Vec<u8>> {
    let mut out = Vec::new(alloc);
    let mut rows = RowWriter::new(alloc, dbd, form, Values::Bytes, &mut out).ok()?;
    let mut left = stream;
    for _ in 0..stream.len() {
        let (front, behind) = left.split_at(piece.min(left.len()));
        rows.write_all(front).ok()?;
        left = behind;
    }
    drop(rows);
    Some(out)
}

/// The unload stream of the sample's segments.
const STREAM: &[u8] =
    b"HDUNLOAD\0\x01EDU     \x01\0\x08101ALGEB\x02\0\x0401AB\x03\0\x06ADAM01\x03\0\x06EVE 02\x02\0\x0402CD\x04\0\x05EULER\x01\0\x08205LOGIC\0\0\0\0\x07";

/// A stream with bytes of every kind.
const ODD_STREAM: &[u8] =
    b"HDUNLOAD\0\x01ODDS    \x01\0\x0c1 x a\"\\,  \xff \x01\0\x0c2\0\r         \0\0\0\0\x02";

/// The stream of a ticket with four notes.
const NOTES_STREAM: &[u8] =
    b"HDUNLOAD\0\x01NOTES   \x01\0\x037  \x02\0\x13\0\x13ANN Called back. \x02\0\x06\0\x06BO  \x02\0\x09\0\x09BO  ok \x02\0\x0c\0\x0cANN yes   \0\0\0\0\x05";

/// Streams of databases, each with a form and the text in which it is written.
const TEXTS: &[(&[u8], &[u8], Form, &[u8])] = &[
    (
        DBD,
        STREAM,
        Form::Rows,
        b"COURSE NUM=101 TITLE=ALGEB\n  CLASS ED=01 3-4=AB\n    STUD SNAME=ADAM 5-6=01\n    STUD SNAME=EVE 5-6=02\n  CLASS ED=02 3-4=CD\n  BOOK 1-5=EULER\nCOURSE NUM=205 TITLE=LOGIC\n",
    ),
    (
        DBD,
        STREAM,
        Form::Table(3),
        b"COURSE.NUM,CLASS.ED,SNAME,5-6\n101,01,ADAM,01\n101,01,EVE,02\n",
    ),
    (
        ODD,
        ODD_STREAM,
        Form::Rows,
        b"ODD K=1 3-3=x A=\" a\\\"\\\\\" B=\"\\\"\\\\,\" 10-12=\" \\xff \"\nODD K=2\\x00 3-3=\\x0d A=\"\" B=\"\" 10-12=\"\"\n",
    ),
    (
        ODD,
        ODD_STREAM,
        Form::Table(1),
        b"K,A,B,3-3,10-12\n1,\" a\"\"\\\",\"\"\"\\,\",x, \xff \n2\0,,,\"\r\",\n",
    ),
    (
        NOTES,
        NOTES_STREAM,
        Form::Rows,
        b"TICKET NUM=7\n  NOTE BY=ANN 7-=\"Called back. \"\n  NOTE BY=BO 7-=\"\"\n  NOTE BY=BO 7-=\"ok \"\n  NOTE BY=ANN 7-=\"yes   \"\n",
    ),
    (
        NOTES,
        NOTES_STREAM,
        Form::Table(2),
        b"TICKET.NUM,BY,7-\n7,ANN,Called back. \n7,BO,\n7,BO,ok \n7,ANN,yes   \n",
    ),
];

#[test]
fn writes_streams_in_pieces_of_any_size(rt: HostRuntime) -> Result<(), Fail> {
    for (source, stream, form, text) in TEXTS {
        let dbd = read_dbd(rt.alloc(), source)?;
        for piece in 1..=stream.len() {
            let found = text_of(rt.alloc(), &dbd, *form, stream, piece);
            assert!(rt; found.as_deref() == Some(*text), "pieces of {piece}");
        }
    }
    Ok(())
}

/// Bytes that are no stream of a database: of another, with records of no type or length, or with an end that counts other records; of rows that
/// vary, records that are not as long as they say.
const NO_STREAMS: &[(&[u8], &[u8])] = &[
    (DBD, b"HDUNLOAD\0\x01ODD     "),
    (DBD, b"HDUNLOAD\0\x01EDU     \x05\0\x01A"),
    (DBD, b"HDUNLOAD\0\x01EDU     \x01\0\x01A"),
    (DBD, b"HDUNLOAD\0\x01EDU     \0\0\0\0\x01"),
    (DBD, b"HDUNLOAD\0\x01EDU     \0\0\0\0\0A"),
    (
        NOTES,
        b"HDUNLOAD\0\x01NOTES   \x01\0\x037  \x02\0\x06\0\x07BO  ",
    ),
    (
        NOTES,
        b"HDUNLOAD\0\x01NOTES   \x01\0\x037  \x02\0\x05\0\x05BO ",
    ),
    (NOTES, b"HDUNLOAD\0\x01NOTES   \x01\0\x037  \x01\0\x027 "),
];

#[test]
fn refuses_what_is_no_stream(rt: HostRuntime) -> Result<(), Fail> {
    for (source, stream) in NO_STREAMS {
        let dbd = read_dbd(rt.alloc(), source)?;
        for piece in [1usize, 1000] {
            assert!(rt; text_of(rt.alloc(), &dbd, Form::Rows, stream, piece).is_none());
        }
    }
    Ok(())
}

/// The tables of the sample, out of order.
const TABLES: &[(u8, &[u8])] = &[
    (4, b"1-5,COURSE.NUM\r\nEULER,101\r\n"),
    (
        3,
        b"5-6,SNAME,CLASS.1-2,COURSE.NUM\n02,EVE,01,101\n01,ADAM,01,101\n",
    ),
    (2, b"COURSE.NUM,ED,3-4\n\n\"101\",\"02\",CD\n101,01,AB\n"),
    (1, b"4-8,NUM\nLOGIC,205\nALGEB,101"),
];

#[test]
fn makes_a_stream_of_tables_in_any_order(rt: HostRuntime) -> Result<(), Fail> {
    let dbd = read_dbd(rt.alloc(), DBD)?;
    let mut made = Vec::new(rt.alloc());
    stream_of_tables(rt.alloc(), &dbd, TABLES, Values::Bytes, &mut made)?;
    assert_eq!(rt; made.as_slice(), STREAM);
    let mut none = Vec::new(rt.alloc());
    stream_of_tables(rt.alloc(), &dbd, &[], Values::Bytes, &mut none)?;
    let stream = b"HDUNLOAD\0\x01EDU     \0\0\0\0\0";
    assert_eq!(rt; none.as_slice(), stream.as_slice());
    Ok(())
}

#[test]
fn refuses_tables_of_no_type_and_of_one_twice(rt: HostRuntime) -> Result<(), Fail> {
    let dbd = read_dbd(rt.alloc(), DBD)?;
    for (code, fault) in [(5u8, RowFault::Type), (1, RowFault::Twice)] {
        let tables: [(u8, &[u8]); 2] = [(1, b"NUM\n101\n205\n"), (code, b"")];
        let mut made = Vec::new(rt.alloc());
        let refused = stream_of_tables(rt.alloc(), &dbd, &tables, Values::Bytes, &mut made).err();
        assert_eq!(rt; refused, Some(TextFault::Table(fault, code, 1, None)));
    }
    Ok(())
}
