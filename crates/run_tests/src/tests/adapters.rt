//! What no clause says: that calls succeed with ample memory, and what adapters over real readers and
//! writers do.
ghost use Rattle.std.specs.Prelude.{◌≡◌, ◌<◌, ◌≤◌, ◌-◌, ◌^◌};

use std::alloc::{AllocError, Global};
use std::io;
use std::io::{Cursor, Read, Write};
use zx_io::{
    Failed, MemSink, MemSource, NeverFailSink, NeverFailSource, Pieces, ReadAdapter, ReadError,
    Sink, Source, WriteAdapter, WriteFault, read_all, read_pieces, write_all,
};

const PROGRAM: &[u8] = b"OPENQASM 2.0;\ninclude \"qelib1.inc\";\nqreg q[1];\ns q[0];\n";

// A source of the program, at most `piece` bytes a call, of which the given calls fail.
fn program_source(alloc: Global, piece: usize, fails: &[u64]) -> Result<MemSource, AllocError>
    requires { 1 ≤ piece }
{
    let bytes = PROGRAM.to_vec(alloc)?;
    let fails = fails.to_vec(alloc)?;
    Ok(MemSource::new(bytes, piece, fails))
}

// Whether all that a source gives is this.
fn gives(alloc: Global, source: &mut impl Source, most: usize, bytes: &[u8]) -> bool
    requires { most < 2 ^ 64 - 1 }
{
    match read_all(alloc, source, most) {
        Ok(read) => read.as_slice() == bytes,
        Err(_) => false,
    }
}

// Why not all can be read of a source.
fn fault_of(alloc: Global, source: &mut impl Source, most: usize) -> Option<ReadError>
    requires { most < 2 ^ 64 - 1 }
{
    read_all(alloc, source, most).err()
}

#[test]
fn all_bytes_are_read_whatever_the_pieces(rt: HostRuntime) -> Result<(), AllocError> {
    let alloc = rt.alloc();
    for piece in [1, 7, 1000] {
        let mut source = program_source(alloc, piece.max(1), &[])?;
        assert!(rt;
            gives(alloc, &mut source, PROGRAM.len(), PROGRAM),
            "in pieces of {piece}"
        );
        assert!(rt; gives(alloc, &mut source, 0, b""));
    }
    let mut source = NeverFailSource::new(PROGRAM.to_vec(alloc)?);
    assert!(rt; gives(alloc, &mut source, 1000, PROGRAM));
    Ok(())
}

#[test]
fn one_byte_past_the_limit_is_too_long(rt: HostRuntime) -> Result<(), AllocError> {
    let alloc = rt.alloc();
    for piece in [1, 7, 1000] {
        let mut source = program_source(alloc, piece.max(1), &[])?;
        assert_eq!(rt; fault_of(alloc, &mut source, 10), Some(ReadError::TooLong));
        assert!(rt;
            gives(alloc, &mut source, 1000, &PROGRAM[11..]),
            "in pieces of {piece}"
        );
    }
    Ok(())
}

#[test]
fn a_failed_read_is_no_end(rt: HostRuntime) -> Result<(), AllocError> {
    let alloc = rt.alloc();
    let mut source = program_source(alloc, 20, &[2])?;
    assert_eq!(rt;
        fault_of(alloc, &mut source, 1000),
        Some(ReadError::ReadFault)
    );
    assert!(rt; gives(alloc, &mut source, 1000, &PROGRAM[20..]));
    Ok(())
}

// All bytes that came.
#[derive(Drop)]
struct Collected {
    bytes: Vec<u8>,
}

impl Pieces for Collected {
    ghost stands_for = { λ c bytes. c.bytes.items ≡ bytes };

    fn take(&mut self, piece: &[u8]) -> Result<(), AllocError> {
        self.bytes.extend_from_slice(piece)
    }
}

#[test]
fn all_bytes_are_handed_on_whatever_the_pieces(rt: HostRuntime) -> Result<(), AllocError> {
    let alloc = rt.alloc();
    for piece in [1, 7, 1000] {
        let mut source = program_source(alloc, piece.max(1), &[])?;
        let mut to = Collected {
            bytes: Vec::new(alloc),
        };
        assert_eq!(rt; read_pieces(&mut source, PROGRAM.len(), &mut to), Ok(()));
        assert_eq!(rt; to.bytes.as_slice(), PROGRAM, "in pieces of {piece}");
    }
    Ok(())
}

// Whether a source fails so once it has handed these bytes on, of which there may be so many.
fn fails_behind(
    source: &mut MemSource,
    most: usize,
    fault: ReadError,
    to: &mut Collected,
    bytes: &[u8],
) -> bool
    requires { most < 2 ^ 64 - 1 }
{
    read_pieces(source, most, to) == Err(fault) && to.bytes.as_slice() == bytes
}

#[test]
fn bytes_before_a_fault_are_handed_on(rt: HostRuntime) -> Result<(), AllocError> {
    let alloc = rt.alloc();
    // The third call fails.
    let mut source = program_source(alloc, 20, &[3])?;
    let mut to = Collected {
        bytes: Vec::new(alloc),
    };
    assert!(rt;
        fails_behind(
            &mut source,
            1000,
            ReadError::ReadFault,
            &mut to,
            &PROGRAM[..40]
        )
    );
    // The second call gives more than there may be.
    let mut source = program_source(alloc, 7, &[])?;
    to.bytes.clear();
    assert!(rt; fails_behind(&mut source, 10, ReadError::TooLong, &mut to, &PROGRAM[..7]));
    Ok(())
}

#[test]
fn a_failed_call_of_a_sink_leaves_a_prefix(rt: HostRuntime) -> Result<(), AllocError> {
    let alloc = rt.alloc();
    // Three writes, and the flush is the fourth call.
    for (call, kept) in [(1, 0), (2, 20), (3, 40), (4, 55), (5, 55)] {
        let mut sink = MemSink::new(alloc, 100, 20, vec![in alloc; call]?)?;
        let answer = write_all(&mut sink, PROGRAM);
        assert_eq!(rt; answer.is_ok(), call == 5, "failing at call {call}");
        assert_eq!(rt; sink.bytes().len(), kept, "failing at call {call}");
        assert!(rt; PROGRAM.starts_with(sink.bytes()));
    }
    Ok(())
}

#[test]
fn a_sink_without_place_fails(rt: HostRuntime) -> Result<(), AllocError> {
    let alloc = rt.alloc();
    let mut sink = MemSink::new(alloc, 30, 20, Vec::new(alloc))?;
    assert_eq!(rt; write_all(&mut sink, PROGRAM), Err(WriteFault));
    assert_eq!(rt; sink.bytes(), &PROGRAM[..30]);
    assert_eq!(rt; write_all(&mut sink, b""), Ok(()));
    assert_eq!(rt; write_all(&mut NeverFailSink::new(), PROGRAM), Ok(()));
    Ok(())
}

// Is interrupted at its first call, and then gives its byte once.
#[derive(Drop)]
struct Interrupted {
    calls: u8,
}

impl Read for Interrupted {
    fn read(&mut self, buf: &mut [u8]) -> io::Result<usize> {
        self.calls = self.calls.saturating_add(1);
        match (self.calls, buf.first_mut()) {
            (1, _) => Err(io::ErrorKind::Interrupted.into()),
            (2, Some(place)) => {
                *place = b'x';
                Ok(1)
            }
            _ => Ok(0),
        }
    }
}

// Takes every byte, and cannot flush.
#[derive(Drop)]
struct Stuck;

impl Write for Stuck {
    fn write(&mut self, buf: &[u8]) -> io::Result<usize> {
        Ok(buf.len())
    }

    fn flush(&mut self) -> io::Result<()> {
        Err(io::ErrorKind::BrokenPipe.into())
    }
}

#[test]
fn adapters_pass_bytes_on(rt: HostRuntime) -> Result<(), AllocError> {
    let alloc = rt.alloc();
    assert!(rt; gives(alloc, &mut ReadAdapter::new(PROGRAM), 1000, PROGRAM));
    assert!(rt;
        gives(
            alloc,
            &mut ReadAdapter::new(Cursor::new(PROGRAM)),
            1000,
            PROGRAM
        )
    );
    let mut written = Vec::new(alloc);
    assert_eq!(rt;
        write_all(&mut WriteAdapter::new(&mut written), PROGRAM),
        Ok(())
    );
    assert_eq!(rt; written.as_slice(), PROGRAM);
    Ok(())
}

#[test]
fn an_adapter_that_is_interrupted_fails_once(rt: HostRuntime) -> Result<(), AllocError> {
    let mut source = ReadAdapter::new(Interrupted { calls: 0 });
    assert_eq!(rt;
        fault_of(rt.alloc(), &mut source, 1000),
        Some(ReadError::ReadFault)
    );
    assert_eq!(rt; source.read(&mut [0; 4]), Ok(1));
    assert_eq!(rt; source.read(&mut [0; 4]), Ok(0));
    Ok(())
}

#[test]
fn a_full_slice_takes_nothing_of_a_piece(rt: HostRuntime) -> Result<(), AllocError> {
    let mut place = [0; 5];
    let mut sink = WriteAdapter::new(&mut place[..]);
    assert_eq!(rt; sink.write(PROGRAM), Ok(5));
    assert_eq!(rt; sink.write(PROGRAM), Err(Failed));
    Ok(())
}

#[test]
fn a_flush_that_fails_is_a_write_fault(rt: HostRuntime) -> Result<(), AllocError> {
    let mut sink = WriteAdapter::new(Stuck);
    assert_eq!(rt; sink.write(PROGRAM), Ok(PROGRAM.len()));
    assert_eq!(rt; sink.flush(), Err(Failed));
    assert_eq!(rt; write_all(&mut sink, PROGRAM), Err(WriteFault));
    Ok(())
}
