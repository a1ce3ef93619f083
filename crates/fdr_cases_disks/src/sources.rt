//! Sources, sinks and buffered output.

use crate::disks::{calls_of, copied};
use fdr_io::{Failed, MemSink, MemSource, NullSink, OutBuffer, Source, SureSource, write_whole};
use std::process::Abort;

/// What a read of three bytes gives.
type ReadThree = Result<(usize, [u8; 3]), Failed>;

fn read_three<S: Source>(source: &mut S) -> ReadThree {
    let mut buf = [0; 3];
    let n = source.read(&mut buf)?;
    Ok((n, buf))
}

// Whether reads of three bytes give this, one after the other.
fn gives<S: Source>(source: &mut S, expected: &[ReadThree]) -> bool {
    for read in expected {
        if read_three(source) != *read {
            return false;
        }
    }
    true
}

// A sink whose writes with these numbers fail.
fn sink_of(rt: &(impl Abort + AllocGlobal), failing: &[u64]) -> MemSink {
    MemSink::new(rt.alloc(), calls_of(rt, failing))
}

fn output_of(rt: &(impl Abort + AllocGlobal)) -> OutBuffer {
    OutBuffer::new(rt.alloc()).expect(rt, "a buffer")
}

/// What reads of five bytes give, of which the second fails.
const FAILING_READS: &[ReadThree] = &[
    Ok((3, [1, 2, 3])),
    Err(Failed),
    Ok((2, [4, 5, 0])),
    Ok((0, [0, 0, 0])),
];

/// What reads of one byte give.
const SURE_READS: &[ReadThree] = &[Ok((1, [9, 0, 0])), Ok((0, [0, 0, 0]))];

#[test]
fn listed_reads_fail_and_take_nothing(rt: HostRuntime) {
    let mut source = MemSource::new(copied(&rt, &[1, 2, 3, 4, 5]), calls_of(&rt, &[1]));
    let mut sure = SureSource::new(copied(&rt, &[9]));
    assert!(rt; gives(&mut source, FAILING_READS) && gives(&mut sure, SURE_READS));
}

// Whether the second of three writes fails and keeps nothing.
fn keeps_two(sink: &mut MemSink) -> bool {
    write_whole(sink, b"ab") == Ok(())
        && write_whole(sink, b"cd") == Err(Failed)
        && write_whole(sink, b"ef") == Ok(())
        && sink.bytes() == b"abef".as_slice()
}

#[test]
fn listed_writes_fail_and_keep_nothing(rt: HostRuntime) {
    let mut sink = sink_of(&rt, &[1]);
    assert!(rt; keeps_two(&mut sink) && write_whole(&mut NullSink::new(), b"ab") == Ok(()));
}

// Whether what waits goes out where these bytes have no room beside it.
fn goes_out(output: &mut OutBuffer, sink: &mut MemSink, large: &[u8]) -> bool {
    output.add(sink, b"one ") == Ok(())
        && sink.bytes().is_empty()
        && output.add(sink, large) == Ok(())
        && sink.bytes() == b"one ".as_slice()
        && output.finish(sink) == Ok(())
        && sink.bytes().len() == 65539
}

#[test]
fn buffered_output_goes_out_in_large_pieces(rt: HostRuntime) {
    let mut sink = sink_of(&rt, &[]);
    let mut output = output_of(&rt);
    let large = vec![in rt.alloc(); 7u8; 65535].expect(&rt, "the bytes");
    assert!(rt; goes_out(&mut output, &mut sink, &large));
}

// Whether texts wait, until there is room to be made.
fn puts_texts(output: &mut OutBuffer, sink: &mut MemSink) -> bool {
    if output.make_room(sink, 64) != Ok(()) {
        return false;
    }
    output.put_three((b"one more", 3), (b", ", 2), (b"two and no more", 3));
    output.put_three((b"!", 0), (b"none", 0), (b"?", 1));
    output.put(b" three more", 6);
    output.put_all(b", four");
    sink.bytes().is_empty()
        && output.make_room(sink, 65536) == Ok(())
        && sink.bytes() == b"one, two? three, four".as_slice()
}

#[test]
fn texts_come_one_after_another(rt: HostRuntime) {
    let mut sink = sink_of(&rt, &[]);
    let mut output = output_of(&rt);
    assert!(rt; puts_texts(&mut output, &mut sink));
}
