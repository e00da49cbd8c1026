use crate::{
    Fail as FailingCall, Fails, FileBytes, FileFault, Files, LineBuffer, Lines, MemFiles, MemLines,
    MemSink, ReadFault, RealFiles, RealLines, RealSink, Sink, WriteFault,
};
use std::alloc::AllocError;
use std::io::{BufWriter, ErrorKind, Read, Write};
use std::test::Fail;
use std::{fs, io};

/// Gives its bytes one by one. At the place `fails` it is interrupted once, and then it fails once.
#[derive(Drop)]
struct Source {
    bytes: &'static [u8],
    at: usize,
    fails: usize,
    faults: u8,
}

impl Read for Source {
    fn read(&mut self, into: &mut [u8]) -> io::Result<usize> {
        if self.at == self.fails && self.faults < 2 {
            self.faults += 1;
            return Err(io::Error::from(if self.faults == 1 {
                ErrorKind::Interrupted
            } else {
                ErrorKind::BrokenPipe
            }));
        }
        match (self.bytes.get(self.at), into.first_mut()) {
            (Some(byte), Some(place)) => {
                *place = *byte;
                self.at = self.at.saturating_add(1);
                Ok(1)
            }
            _ => Ok(0),
        }
    }
}

/// Takes one byte at a time. Before the byte at the place `fails` it is interrupted once, and then it fails once.
#[derive(Drop)]
struct Target {
    taken: usize,
    fails: usize,
    faults: u8,
}

impl Write for Target {
    fn write(&mut self, bytes: &[u8]) -> io::Result<usize> {
        if self.taken == self.fails && self.faults < 2 {
            self.faults += 1;
            return Err(io::Error::from(if self.faults == 1 {
                ErrorKind::Interrupted
            } else {
                ErrorKind::BrokenPipe
            }));
        }
        if bytes.is_empty() {
            return Ok(0);
        }
        self.taken = self.taken.saturating_add(1);
        Ok(1)
    }

    fn flush(&mut self) -> io::Result<()> {
        Ok(())
    }
}

fn failing_at(fails: usize) -> Target {
    Target {
        taken: 0,
        fails,
        faults: 0,
    }
}

/// Takes nothing.
#[derive(Drop)]
struct Full;

impl Write for Full {
    fn write(&mut self, _bytes: &[u8]) -> io::Result<usize> {
        Ok(0)
    }

    fn flush(&mut self) -> io::Result<()> {
        Ok(())
    }
}

#[test]
fn lists_grow(rt: HostRuntime) -> Result<(), Fail> {
    let mut bytes = FileBytes::new(rt.alloc());
    bytes.push(7)?;
    bytes.push(0)?;
    assert_eq!(rt; bytes.as_slice(), [7, 0].as_slice());
    Ok(())
}

fn listed(rt: &HostRuntime, call: u64, stands: Option<u32>) -> Result<Fails, AllocError> {
    let mut fails = Fails::new(rt.alloc());
    fails.push(FailingCall { call, stands })?;
    Ok(fails)
}

#[test]
fn the_first_entry_counts(rt: HostRuntime) -> Result<(), Fail> {
    let mut fails = listed(&rt, 1, Some(1))?;
    fails.push(FailingCall {
        call: 1,
        stands: None,
    })?;
    let mut sink = MemSink::new(rt.alloc(), 5, fails)?;
    assert_eq!(rt; sink.write(b"cd"), Err(WriteFault));
    assert_eq!(rt; sink.written(), b"c".as_slice());
    Ok(())
}

#[test]
fn a_sink_fails_in_the_middle(rt: HostRuntime) -> Result<(), Fail> {
    let mut sink = MemSink::new(rt.alloc(), 3, listed(&rt, 2, None)?)?;
    assert_eq!(rt; sink.write(b"ab"), Ok(()));
    assert_eq!(rt; sink.write(b"c"), Err(WriteFault));
    assert_eq!(rt; sink.write(b"cd"), Err(WriteFault));
    assert_eq!(rt; sink.write(b"c"), Ok(()));
    assert_eq!(rt; sink.written(), b"abc".as_slice());
    Ok(())
}

#[test]
fn an_input_fails_in_the_middle(rt: HostRuntime) -> Result<(), Fail> {
    let mut lines = MemLines::new(rt.alloc(), b"a\nb", listed(&rt, 2, None)?)?;
    let mut line = LineBuffer::new(rt.alloc())?;
    assert_eq!(rt; lines.line(&mut line), Ok(true));
    assert_eq!(rt; lines.line(&mut line), Err(ReadFault));
    assert_eq!(rt; lines.left(), b"b".as_slice());
    assert_eq!(rt; lines.line(&mut line), Ok(true));
    assert_eq!(rt; line.bytes(), b"b".as_slice());
    Ok(())
}

#[test]
fn a_long_line_is_cut(rt: HostRuntime) -> Result<(), Fail> {
    let bytes = vec![in rt.alloc(); b'a'; 65536]?;
    let mut lines = MemLines::new(rt.alloc(), &bytes, Fails::new(rt.alloc()))?;
    let mut line = LineBuffer::new(rt.alloc())?;
    assert_eq!(rt; lines.line(&mut line), Ok(true));
    assert_eq!(rt; line.bytes().len(), 65535);
    assert_eq!(rt; lines.left(), b"a".as_slice());
    Ok(())
}

#[test]
fn files_are_placed(rt: HostRuntime) -> Result<(), Fail> {
    let mut files = MemFiles::new(rt.alloc(), 5, 2, Fails::new(rt.alloc()))?;
    assert!(rt; files.put("a", b"1"));
    assert!(rt; files.put("b", b"xy"));
    assert!(rt; !files.put("a", b"12"));
    assert!(rt; files.put("b", b""));
    assert!(rt; !files.put("c", b""));
    assert_eq!(rt; files.get("a").ok_or("a")?, b"1".as_slice());
    Ok(())
}

#[test]
fn files_are_read(rt: HostRuntime) -> Result<(), Fail> {
    let mut files = MemFiles::new(rt.alloc(), 5, 2, listed(&rt, 2, None)?)?;
    assert!(rt; files.put("a", b"12"));
    assert_eq!(rt; files.read(rt.alloc(), "b").err(), Some(FileFault::Absent));
    assert_eq!(rt; files.read(rt.alloc(), "a").err(), Some(FileFault::Failed));
    assert_eq!(rt; files.read(rt.alloc(), "a")?.as_slice(), b"12".as_slice());
    Ok(())
}

#[test]
fn files_are_written(rt: HostRuntime) -> Result<(), Fail> {
    let mut files = MemFiles::new(rt.alloc(), 5, 2, listed(&rt, 2, Some(1))?)?;
    assert_eq!(rt; files.write("a", b"12"), Ok(()));
    assert_eq!(rt; files.write("a", b"34"), Err(FileFault::Failed));
    assert_eq!(rt; files.get("a").ok_or("a")?, b"3".as_slice());
    assert_eq!(rt; files.write("b", b"xyz"), Err(FileFault::Failed));
    Ok(())
}

#[test]
fn sink_over_a_writer(rt: HostRuntime) {
    let mut sink = RealSink::new(failing_at(4));
    assert_eq!(rt; sink.write(b"abc"), Ok(()));
    assert_eq!(rt; sink.write(b"def"), Err(WriteFault));
    assert_eq!(rt; sink.write(b"def"), Ok(()));
    let mut full = RealSink::new(Full);
    assert_eq!(rt; full.write(b""), Ok(()));
    assert_eq!(rt; full.write(b"a"), Err(WriteFault));
}

// What a buffer holds is known to be written only where it was handed on.
#[test]
fn sink_flushes_a_buffer(rt: HostRuntime) -> Result<(), Fail> {
    let mut sink = RealSink::new(BufWriter::new(rt.alloc(), failing_at(4))?);
    assert_eq!(rt; sink.write(b"abc"), Ok(()));
    assert_eq!(rt; sink.write(b"def"), Err(WriteFault));
    Ok(())
}

// The fault in the middle of the second line loses nothing of it.
#[test]
fn lines_over_a_reader(rt: HostRuntime) -> Result<(), Fail> {
    let source = Source {
        bytes: b"a\nbc",
        at: 0,
        fails: 3,
        faults: 0,
    };
    let mut lines = RealLines::new(rt.alloc(), source)?;
    let mut line = LineBuffer::new(rt.alloc())?;
    assert_eq!(rt; lines.line(&mut line), Ok(true));
    assert_eq!(rt; line.bytes(), b"a".as_slice());
    assert_eq!(rt; lines.line(&mut line), Err(ReadFault));
    assert_eq!(rt; line.bytes(), b"a".as_slice());
    assert_eq!(rt; lines.line(&mut line), Ok(true));
    assert_eq!(rt; line.bytes(), b"bc".as_slice());
    assert_eq!(rt; lines.line(&mut line), Ok(false));
    Ok(())
}

/// The fault of a read, or how many bytes it gave.
fn read(rt: &HostRuntime, name: &str) -> Result<usize, FileFault> {
    let bytes = RealFiles::new(rt).read(rt.alloc(), name)?;
    Ok(bytes.as_slice().len())
}

/// Whether the bytes are written in place of others, stand on the disk, and are read again.
fn is_kept(rt: &HostRuntime, name: &str, bytes: &[u8]) -> Result<bool, Fail> {
    let mut files = RealFiles::new(rt);
    let longer = files.write(name, &[1; 10_000]).is_ok();
    let written = longer && files.write(name, bytes).is_ok();
    let stands = fs::read(rt, name)?.as_slice() == bytes;
    let given = files.read(rt.alloc(), name)?.as_slice() == bytes;
    fs::remove_file(rt, name)?;
    Ok(written && stands && given)
}

#[test]
fn files_of_the_runtime(rt: HostRuntime) -> Result<(), Fail> {
    assert!(rt; is_kept(&rt, "xs_base.test", b"\x00\xFF\n")?);
    assert!(rt; is_kept(&rt, "xs_base.none", b"")?);
    assert!(rt; is_kept(&rt, " xs base \u{E4}\u{4E8C} .test ", &[7; 9000])?);
    Ok(())
}

#[test]
fn files_that_are_not_read(rt: HostRuntime) {
    assert_eq!(rt; read(&rt, "xs_base.gone"), Err(FileFault::Absent));
    assert_eq!(rt; read(&rt, ""), Err(FileFault::Absent));
    assert_eq!(rt; read(&rt, "."), Err(FileFault::Failed));
    assert_eq!(rt; read(&rt, "/dev/null/file"), Err(FileFault::Failed));
    assert_eq!(rt; read(&rt, "/proc/self/mem"), Err(FileFault::Failed));
}

#[test]
fn files_that_are_not_written(rt: HostRuntime) {
    let mut files = RealFiles::new(&rt);
    assert_eq!(rt; files.write(".", b"a"), Err(FileFault::Failed));
    assert_eq!(rt;
        files.write("xs_base.gone/file", b"a"),
        Err(FileFault::Failed)
    );
    assert_eq!(rt; read(&rt, "xs_base.gone/file"), Err(FileFault::Absent));
    assert_eq!(rt; files.write("/dev/full", b"a"), Err(FileFault::Failed));
    assert_eq!(rt; files.write("/dev/full", b""), Ok(()));
}
