//! A dyndep file is read, and written as this library writes it.
use dyndep_file::{Dyndep, DyndepReader, LineFault, ReadFault};
use ninja_text::Failure;
use std::alloc::Global;
use std::test::Fail;

/// The statements of a text that comes in two pieces.
fn read(alloc: Global, first: &[u8], rest: &[u8]) -> Result<Dyndep, Failure<ReadFault>> {
    let mut reader = DyndepReader::new(alloc);
    reader.feed(first)?;
    reader.feed(rest)?;
    reader.finish()
}

#[test]
fn a_text_is_read_in_pieces_or_refused_at_its_line(rt: HostRuntime) -> Result<(), Fail> {
    let first = b"ninja_dyndep_version=1\nbu";
    let dyndep = read(rt.alloc(), first, b"ild a.o: dyndep |  B.bmi\n")?;
    let text = b"ninja_dyndep_version = 1\nbuild a.o: dyndep | B.bmi\n".as_slice();
    assert!(rt; dyndep.to_text(rt.alloc())?.as_slice() == text);
    let (line, fault) = (2, LineFault::BadLine);
    let refused = Failure::Fault(ReadFault::AtLine { line, fault });
    assert!(rt; read(rt.alloc(), first, b"ffer b\n").err() == Some(refused));
    Ok(())
}
