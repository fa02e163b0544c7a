// A sink in memory, and sources and sinks over readers and writers that go wrong.
ghost use Rattle.std.specs.Prelude.{◌≤◌, IfOk};

use flip_io::{Failed, MemSink, ReadAllFault, StdSink, StdSource, read_all, write_all};
use std::io::{self, ErrorKind, Read, Write};
use std::test::Fail;

#[test]
fn a_sink_in_memory_keeps_what_it_takes(rt: HostRuntime) -> Result<(), Fail> {
    let mut sink = MemSink::new(rt.alloc(), 13, 5, Vec::new(rt.alloc()))?;
    assert!(rt; write_all(&mut sink, b"one two three") == Ok(()));
    assert!(rt; sink.bytes() == b"one two three".as_slice());
    Ok(())
}

// A reader and writer that goes wrong as its script says, one sign for each call: `i` is
// interrupted, `e` an error, `0` takes or gives nothing, and another sign one byte.
#[derive(Drop)]
struct Script<'a> {
    signs: &'a [u8],
}

impl Script<'_> {
    fn turn(&mut self) -> io::Result<usize>
        ensures { IfOk result (λ n. n ≤ 1) }
    {
        let Some((sign, rest)) = self.signs.split_first() else {
            return Ok(0);
        };
        self.signs = rest;
        match *sign {
            b'i' => Err(ErrorKind::Interrupted.into()),
            b'e' => Err(ErrorKind::Other.into()),
            b'0' => Ok(0),
            _ => Ok(1),
        }
    }
}

impl Read for Script<'_> {
    fn read(&mut self, buf: &mut [u8]) -> io::Result<usize> {
        let count = self.turn()?.min(buf.len());
        buf[..count].fill(b'x');
        Ok(count)
    }
}

impl Write for Script<'_> {
    fn write(&mut self, piece: &[u8]) -> io::Result<usize> {
        Ok(self.turn()?.min(piece.len()))
    }

    fn flush(&mut self) -> io::Result<()> {
        Ok(())
    }
}

#[test]
fn adapters_pass_over_interruptions_and_fail_at_errors(rt: HostRuntime) -> Result<(), Fail> {
    let fault = Err(ReadAllFault::Fault);
    for (signs, read, write) in [
        ("xxx", Ok(3), Ok(())),
        ("iixixx", Ok(3), Ok(())),
        ("xex", fault, Err(Failed)),
        ("xx0", Ok(2), Err(Failed)),
    ] {
        let mut source = StdSource::new(Script {
            signs: signs.as_bytes(),
        });
        let got = read_all(rt.alloc(), &mut source, 3).map(|bytes| bytes.len());
        assert_eq!(rt; got, read, "{signs}");
        let mut sink = StdSink::new(Script {
            signs: signs.as_bytes(),
        });
        assert_eq!(rt; write_all(&mut sink, b"abc"), write, "{signs}");
    }
    Ok(())
}
