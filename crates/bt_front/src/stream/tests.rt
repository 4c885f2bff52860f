use crate::stream::keeping::Keeping;
use crate::stream::pouring::{Unpoured, pour};
use bt_lines::{Out, ScriptSink, ScriptSource, Source};
use std::alloc::Global;
use std::process::Abort;
use std::test::Fail;

const TEXT: &[u8] = b"chr1\t5\t9\nchr2\t1\t4\n";

// Reads of up to four bytes, until one fails or tells the end. Gives how many bytes came.
fn read_all<S: Source>(source: &mut S) -> usize {
    let mut block = [0u8; 4];
    let mut all: usize = 0;
    for _ in 0..TEXT.len() + 1 {
        match source.read(&mut block) {
            Ok(0) | Err(_) => return all,
            Ok(count) => all = all.saturating_add(count),
        }
    }
    all
}

#[test]
fn a_stream_is_kept(rt: HostRuntime) -> Result<(), Fail> {
    // The room, how many bytes come, and whether reads fail then: bytes come three at a time.
    for (room, count, has_failed) in [
        (100, 18, false),
        (18, 18, false),
        (5, 6, true),
        (0, 3, true),
    ] {
        let mut keeping = Keeping::new(rt.alloc(), ScriptSource::new(TEXT, 3, None), room);
        assert_eq!(rt; read_all(&mut keeping), count);
        assert_eq!(rt; keeping.failed(), has_failed);
        let (_source, kept) = keeping.into_parts();
        assert_eq!(rt; kept.as_slice(), &TEXT[..count]);
    }
    Ok(())
}

// Pours a stream of which some was read, and gives what the taker took. The stream and the taker fail after so many bytes.
fn poured(
    alloc: Global,
    stream_fails: Option<usize>,
    taker_fails: Option<usize>,
) -> (Result<(), Unpoured>, ScriptSink) {
    let mut keeping = Keeping::new(alloc, ScriptSource::new(TEXT, 3, stream_fails), 5);
    let _count = read_all(&mut keeping);
    let (mut stream, kept) = keeping.into_parts();
    let mut taker = Out::new(ScriptSink::new(alloc, 7, taker_fails));
    let ended = pour(kept.as_slice(), &mut stream, &mut taker);
    (ended, taker.into_sink())
}

#[test]
fn a_stream_is_poured(rt: HostRuntime) -> Result<(), Fail> {
    let (ended, taker) = poured(rt.alloc(), None, None);
    assert_eq!(rt; ended, Ok(()));
    assert_eq!(rt; taker.taken(), TEXT);
    let (ended, taker) = poured(rt.alloc(), Some(12), None);
    assert_eq!(rt; ended, Err(Unpoured::Stream));
    assert_eq!(rt; taker.taken(), &TEXT[..12]);
    for good in [2, 9] {
        let (ended, taker) = poured(rt.alloc(), None, Some(good));
        assert_eq!(rt; ended, Err(Unpoured::Taker));
        assert_eq!(rt; taker.taken().len(), good);
    }
    Ok(())
}
