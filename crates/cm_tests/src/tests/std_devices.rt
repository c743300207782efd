//! Readers and writers of std that fail.
use cm_envelope::{
    ByteSink, ByteSource, DeviceFailed, Feed, Heard, Reader, Reads, Taken, Trouble, Writer,
};
use std::io;
use std::mem::size_of;

// Every call fails.
#[derive(Drop)]
struct Broken;

impl io::Read for Broken {
    fn read(&mut self, _piece: &mut [u8]) -> io::Result<usize> {
        Err(io::Error::from(io::ErrorKind::Interrupted))
    }
}

impl io::Write for Broken {
    fn write(&mut self, _bytes: &[u8]) -> io::Result<usize> {
        Err(io::Error::from(io::ErrorKind::BrokenPipe))
    }

    fn flush(&mut self) -> io::Result<()> {
        Err(io::Error::from(io::ErrorKind::BrokenPipe))
    }
}

// The first call fails, and each after it does what it is asked.
#[derive(Drop)]
struct Recovering {
    calls: u64,
}

impl Recovering {
    fn called(&mut self) -> io::Result<()> {
        self.calls = self.calls.saturating_add(1);
        if self.calls == 1 {
            return Err(io::Error::from(io::ErrorKind::Interrupted));
        }
        Ok(())
    }
}

impl io::Read for Recovering {
    fn read(&mut self, piece: &mut [u8]) -> io::Result<usize> {
        self.called()?;
        piece.fill(b'a');
        Ok(piece.len())
    }
}

impl io::Write for Recovering {
    fn write(&mut self, bytes: &[u8]) -> io::Result<usize> {
        self.called()?;
        Ok(bytes.len())
    }

    fn flush(&mut self) -> io::Result<()> {
        self.called()
    }
}

// Takes two bytes at most with each call, and none once it is full.
#[derive(Drop)]
struct Small {
    room: usize,
}

impl io::Write for Small {
    fn write(&mut self, bytes: &[u8]) -> io::Result<usize> {
        let count = bytes.len().min(self.room).min(2);
        self.room -= count;
        Ok(count)
    }

    fn flush(&mut self) -> io::Result<()> {
        Ok(())
    }
}

#[test]
fn a_failed_call_is_told(rt: HostRuntime) {
    let mut piece = [0; 4];
    assert_eq!(rt;
        Reader::new(Broken).read_some(&mut piece),
        Err(DeviceFailed)
    );
    assert_eq!(rt; Writer::new(Broken).write_some(b"ab"), Err(DeviceFailed));
    assert_eq!(rt; Writer::new(Broken).flush(), Err(DeviceFailed));
}

#[test]
fn a_failed_call_is_not_repeated(rt: HostRuntime) {
    let mut device = Recovering { calls: 0 };
    let mut piece = [0; 4];
    let read = Reader::new(&mut device).read_some(&mut piece);
    assert_eq!(rt; read, Err(DeviceFailed));
    assert_eq!(rt; device.calls, 1);
    let mut device = Recovering { calls: 0 };
    let written = Writer::new(&mut device).write_some(b"ab");
    assert_eq!(rt; written, Err(DeviceFailed));
    assert_eq!(rt; device.calls, 1);
    let mut device = Recovering { calls: 0 };
    let flushed = Writer::new(&mut device).flush();
    assert_eq!(rt; flushed, Err(DeviceFailed));
    assert_eq!(rt; device.calls, 1);
}

// The second call reads what the first would have.
#[test]
fn a_reader_is_read_once_by_each_call(rt: HostRuntime) {
    let mut device = Recovering { calls: 0 };
    let mut reads = Reads::new();
    let mut piece = [0; 4];
    assert_eq!(rt; reads.read(&mut device, &mut piece), Err(DeviceFailed));
    assert!(rt; piece == [0; 4]);
    assert_eq!(rt; reads.read(&mut device, &mut piece), Ok(4));
    assert!(rt; piece == *b"aaaa");
    assert_eq!(rt; device.calls, 2);
}

// The reader would go on after its failure, but the feed doesn't read again.
#[test]
fn a_feed_ends_with_its_first_failed_read(rt: HostRuntime) {
    let mut device = Recovering { calls: 0 };
    let mut reader = Reader::new(&mut device);
    let mut feed = Feed::new(rt.alloc());
    for _ in 0..2 {
        let answer = feed.next_line(&mut reader);
        assert!(rt; matches!(answer, Err(Trouble::ReadFailed)));
    }
    drop(feed);
    drop(reader);
    assert_eq!(rt; device.calls, 1);
}

#[test]
fn a_full_writer_takes_nothing(rt: HostRuntime) {
    let mut writer = Writer::new(Small { room: 3 });
    assert_eq!(rt; writer.write_some(b"abcd"), Ok(2));
    assert_eq!(rt; writer.write_some(b"cd"), Ok(1));
    assert_eq!(rt; writer.write_some(b"d"), Ok(0));
    assert_eq!(rt; writer.flush(), Ok(()));
}

#[test]
fn a_reader_gives_its_bytes_and_then_none(rt: HostRuntime) {
    let mut bytes = b"abc".as_slice();
    let mut reader = Reader::new(&mut bytes);
    let mut piece = [0; 2];
    assert_eq!(rt; reader.read_some(&mut piece), Ok(2));
    assert!(rt; piece == *b"ab");
    assert_eq!(rt; reader.read_some(&mut piece), Ok(1));
    assert!(rt; piece[0] == b'c');
    assert_eq!(rt; reader.read_some(&mut piece), Ok(0));
}

// What a device remembers is for clauses alone.
#[test]
fn what_a_device_remembers_takes_no_byte(rt: HostRuntime) {
    assert_eq!(rt; size_of::<Heard>(), 0);
    assert_eq!(rt; size_of::<Taken>(), 0);
}
