// Sources, sinks and clocks: those in memory, and the adapters over readers, writers and clocks of std.
use crate::*;
use std::io;
use std::test::Fail;
use std::time::{Clock as MachineClock, Duration};

// What some reads of one byte each give. None stands for a failure, and 0 for the end.
fn gives<S: Source>(source: &mut S, wanted: &[Option<u8>]) -> bool {
    let mut into = [0u8; 1];
    for want in wanted {
        into = [0];
        let read = source.read(&mut into).map(|_| into[0]).ok();
        if read != *want {
            return false;
        }
    }
    true
}

#[test]
fn a_source_fails_at_the_listed_calls(rt: HostRuntime) -> Result<(), Fail> {
    let mut source = MemSource::new(rt.alloc(), b"ab", &[1])?;
    assert!(rt; gives(&mut source, &[Some(b'a'), None, Some(b'b'), Some(0)]));
    Ok(())
}

#[test]
fn a_sink_takes_what_it_has_room_for(rt: HostRuntime) -> Result<(), Fail> {
    let mut sink = MemSink::new(rt.alloc(), 3, &[1])?;
    assert!(rt; write_all(&mut sink, b"ab").is_ok());
    assert!(rt; write_all(&mut sink, b"cd").is_err());
    assert!(rt; write_all(&mut sink, b"cd").is_err());
    assert_eq!(rt; sink.bytes(), b"abc".as_slice());
    Ok(())
}

#[test]
fn a_clock_tells_its_list(rt: HostRuntime) -> Result<(), Fail> {
    let mut clock = ListClock::new(rt.alloc(), &[5, 7])?;
    assert_eq!(rt; [clock.moment(), clock.moment(), clock.moment()], [5, 7, 0]);
    Ok(())
}

#[test]
fn adapters_hand_on_all_bytes_and_no_other(rt: HostRuntime) -> Result<(), Fail> {
    let mut source = StdSource::new(b"ab".as_slice());
    assert!(rt; gives(&mut source, &[Some(b'a'), Some(b'b'), Some(0)]));
    let mut held = [0u8; 4];
    let mut room = held.as_mut_slice();
    let mut sink = StdSink::new(&mut room);
    assert!(rt; write_all(&mut sink, b"xyz").is_ok());
    assert!(rt; write_all(&mut sink, b"v").is_ok());
    assert!(rt; write_all(&mut sink, b"w").is_err());
    drop(sink);
    assert_eq!(rt; held, *b"xyzv");
    Ok(())
}

// A machine that tells these seconds, or fails.
#[derive(Drop)]
struct Machine {
    seconds: Option<u64>,
}

impl MachineClock for Machine {
    fn monotonic(&self) -> io::Result<Duration> {
        self.since_1970()
    }

    fn since_1970(&self) -> io::Result<Duration> {
        match self.seconds {
            Some(seconds) => Ok(Duration::from_secs(seconds)),
            None => Err(io::ErrorKind::Unsupported.into()),
        }
    }
}

fn tells(seconds: Option<u64>) -> u64 {
    SystemClock::new(Machine { seconds }).moment()
}

#[test]
fn the_clock_asks_its_machine(rt: HostRuntime) -> Result<(), Fail> {
    let told = [
        tells(Some(1_700_000_000)),
        tells(Some((1 << 40) + 3)),
        tells(None),
    ];
    assert_eq!(rt; told, [1_700_000_000, 3, 0]);
    Ok(())
}

#[test]
fn the_machine_is_reached(rt: HostRuntime) -> Result<(), Fail> {
    let mut source = StdSource::new(rt.stdin());
    let _read = source.read(&mut [0u8; 1]);
    let mut sink = StdSink::new(rt.stderr());
    assert!(rt; write_all(&mut sink, b"").is_ok());
    assert!(rt; SystemClock::new(rt).moment() > 1_500_000_000);
    Ok(())
}
