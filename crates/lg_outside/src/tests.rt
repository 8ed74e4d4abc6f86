use super::*;
use std::test::Fail;

const TEXT: &[u8; 8] = b"PRINT[1]";

#[test]
fn reads_all_or_says_why(rt: HostRuntime) -> Result<(), Fail> {
    let alloc = rt.alloc();
    // The piece, the limit and the call that fails (0: none), and the end that is wanted. The text
    // has 8 bytes, so a piece of 3 needs three calls and a fourth that finds the end.
    let cases = [
        (1, 8, 0, None),
        (3, 8, 0, None),
        (4096, 8, 0, None),
        (4096, 7, 0, Some(ReadEnd::TooLong)),
        (3, 7, 0, Some(ReadEnd::TooLong)),
        (1, 0, 0, Some(ReadEnd::TooLong)),
        (3, 8, 1, Some(ReadEnd::ReadFault)),
        (3, 8, 2, Some(ReadEnd::ReadFault)),
        (3, 8, 3, Some(ReadEnd::ReadFault)),
        (3, 8, 4, Some(ReadEnd::ReadFault)),
        (3, 8, 5, None),
        (4096, 7, 2, Some(ReadEnd::TooLong)),
    ];
    for (piece, limit, fault, want) in cases {
        assert!(rt; piece > 0);
        assert!(rt; limit <= TEXT.len());
        let failing = [fault].to_vec(alloc)?;
        let mut source = MemorySource::new(TEXT.to_vec(alloc)?, piece, failing);
        match read_all(alloc, &mut source, limit) {
            Ok(bytes) => {
                assert_eq!(rt; want, None, "piece {piece}, limit {limit}, fault {fault}");
                assert_eq!(rt; bytes.as_slice(), TEXT.as_slice());
            }
            Err(end) => assert_eq!(rt;
                want,
                Some(end),
                "piece {piece}, limit {limit}, fault {fault}"
            ),
        }
    }
    Ok(())
}

#[test]
fn writes_all_or_a_front(rt: HostRuntime) -> Result<(), Fail> {
    let alloc = rt.alloc();
    // The room, the call that fails (0: none), and how many bytes are written.
    for (room, fault, want) in [(20, 0, 8), (8, 0, 8), (3, 0, 3), (0, 0, 0), (20, 1, 0)] {
        let mut sink = MemorySink::new(alloc, room, [fault].to_vec(alloc)?)?;
        let result = write_all(&mut sink, TEXT);
        assert_eq!(rt; result.is_ok(), want == 8, "room {room}, fault {fault}");
        assert_eq!(rt; sink.bytes(), &TEXT[..want], "room {room}, fault {fault}");
    }
    Ok(())
}

#[test]
fn a_full_sink_takes_a_part(rt: HostRuntime) -> Result<(), Fail> {
    let alloc = rt.alloc();
    let mut sink = MemorySink::new(alloc, 5, [2].to_vec(alloc)?)?;
    assert_eq!(rt; sink.put(b"abc"), Ok(3));
    assert_eq!(rt; sink.put(b"def"), Err(Failed));
    assert_eq!(rt; sink.put(b"def"), Ok(2));
    assert_eq!(rt; sink.put(b"f"), Err(Failed));
    assert_eq!(rt; sink.put(b""), Ok(0));
    assert_eq!(rt; sink.bytes(), b"abcde".as_slice());
    Ok(())
}

#[test]
fn streams_of_std(rt: HostRuntime) -> Result<(), Fail> {
    let alloc = rt.alloc();
    let mut source = StdSource::new(TEXT.as_slice());
    let bytes = read_all(alloc, &mut source, 100)?;
    let mut sink = StdSink::new(Vec::new(alloc));
    write_all(&mut sink, &bytes)?;
    assert_eq!(rt; sink.into_inner().as_slice(), TEXT.as_slice());
    // A slice takes no more bytes than it has, and a write that takes none is a fault.
    let mut short = [0u8; 3];
    let mut full = StdSink::new(short.as_mut_slice());
    assert_eq!(rt; write_all(&mut full, TEXT), Err(WriteFault));
    Ok(())
}
