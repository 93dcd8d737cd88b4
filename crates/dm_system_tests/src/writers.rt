//! The adapter over a standard writer that takes one byte per write and fails from a given write on, or at each flush.
use dm_console::writers::{Failed, Out, Sink, write_all};
use std::io;
use std::io::Write;
use std::test::Fail;

/// Takes one byte per write, and fails after `left` writes. If `refuses`, it takes nothing from then on, and
/// each flush fails.
#[derive(Drop)]
struct Slow<'a> {
    taken: &'a mut Vec<u8>,
    left: usize,
    refuses: bool,
}

impl Write for Slow<'_> {
    fn write(&mut self, buf: &[u8]) -> io::Result<usize> {
        if buf.is_empty() {
            return Ok(0);
        }
        if self.left == 0 {
            return match self.refuses {
                true => Ok(0),
                false => Err(io::Error::from(io::ErrorKind::BrokenPipe)),
            };
        }
        self.left -= 1;
        self.taken.push(buf[0])?;
        Ok(1)
    }

    fn flush(&mut self) -> io::Result<()> {
        match self.refuses {
            true => Err(io::Error::from(io::ErrorKind::BrokenPipe)),
            false => Ok(()),
        }
    }
}

/// Definitions: dm_console writers.Out WriterState HasFailed AppendsPart
#[test]
fn stops_at_each_failing_write(rt: HostRuntime) -> Result<(), Fail> {
    let text = b"hello".as_slice();
    for left in 0..7usize {
        for refuses in [false, true] {
            let mut taken = Vec::new(rt.alloc());
            let mut sink = Sink::new(Slow {
                taken: &mut taken,
                left,
                refuses,
            });
            let want = if left < 5 { Err(Failed) } else { Ok(()) };
            assert_eq!(rt; write_all(&mut sink, text), want, "after {left} writes");
            drop(sink);
            assert_eq!(rt; Some(taken.as_slice()), text.get(..left.min(5)));
        }
    }
    Ok(())
}

/// Definitions: dm_console writers.Out WriterState
#[test]
fn passes_on_a_failed_flush(rt: HostRuntime) -> Result<(), Fail> {
    for refuses in [false, true] {
        let mut taken = Vec::new(rt.alloc());
        let mut sink = Sink::new(Slow {
            taken: &mut taken,
            left: 0,
            refuses,
        });
        let want = if refuses { Err(Failed) } else { Ok(()) };
        assert_eq!(rt; sink.flush(), want);
    }
    Ok(())
}
