use super::{DirShelf, LoadFault, MemShelf, MemSink, Shelf, Sink, SinkFault, StdSink};
use std::alloc::{AllocError, Global};
use std::fs;
use std::test::Fail;

/// Puts the file of a name whole. The number tells what came.
fn put_file<H: Shelf, K: Sink>(alloc: Global, shelf: &mut H, sink: &mut K, name: &str) -> u8 {
    match shelf.load(alloc, name, 12) {
        Ok(bytes) => match sink.put(&bytes) {
            Ok(()) => 0,
            Err(SinkFault::Failed { .. }) => 51,
        },
        Err(LoadFault::TooLong) => 32,
        Err(LoadFault::Failed) => 50,
        Err(LoadFault::Memory(_)) => 60,
    }
}

/// A shelf with one file, whose third load fails.
fn shelf(alloc: Global) -> Result<MemShelf, AllocError> {
    let name = String::from_str(alloc, "a")?;
    let bytes = Vec::from_slice(alloc, b"text")?;
    let files = vec![in alloc; (name, bytes)]?;
    Ok(MemShelf::new(files, vec![in alloc; 3]?))
}

#[test]
fn a_caller_over_the_traits_serves_memory(rt: HostRuntime) -> Result<(), Fail> {
    let alloc = rt.alloc();
    let mut shelf = shelf(alloc)?;
    let mut sink = MemSink::new(alloc, 9, vec![in alloc; (2, 3)]?)?;
    assert_eq!(rt; put_file(alloc, &mut shelf, &mut sink, "a"), 0);
    assert_eq!(rt; put_file(alloc, &mut shelf, &mut sink, "b"), 50);
    assert_eq!(rt; put_file(alloc, &mut shelf, &mut sink, "a"), 50);
    assert_eq!(rt; put_file(alloc, &mut shelf, &mut sink, "a"), 51);
    assert_eq!(rt; sink.written(), b"texttex".as_slice());
    Ok(())
}

#[test]
fn a_caller_over_the_traits_serves_the_process(rt: HostRuntime) -> Result<(), Fail> {
    let alloc = rt.alloc();
    let path = "ras_outside_test_file";
    let mut files = DirShelf::new(rt.clone()?);
    let mut output = StdSink::output(rt.clone()?);
    fs::write(&rt, path, "on the disk\n")?;
    assert_eq!(rt; put_file(alloc, &mut files, &mut output, path), 0);
    fs::write(&rt, path, "on the disk too\n")?;
    assert_eq!(rt; put_file(alloc, &mut files, &mut output, path), 32);
    fs::remove_file(&rt, path)?;
    assert_eq!(rt; put_file(alloc, &mut files, &mut output, path), 50);
    Ok(())
}

#[test]
fn the_error_stream_takes_text_alone(rt: HostRuntime) -> Result<(), Fail> {
    let mut error = StdSink::error(rt.clone()?);
    assert_eq!(rt; error.put(b"on the error stream\n"), Ok(()));
    assert_eq!(rt; error.put(b"\xff"), Err(SinkFault::Failed { taken: 0 }));
    Ok(())
}
