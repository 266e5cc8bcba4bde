// A reader, a writer and a clock that answer by plan: what is made again, after how long a pause, and which error is told.
ghost use Rattle.std.specs.Prelude.{◌≤◌, IfOk};

use crate::outcome::Retry;
use crate::{read_full, read_some, write_all};
use std::cell::Cell;
use std::io;
use std::io::{Read, Write};
use std::rt::Clock;
use std::test::Fail;
use std::time::Duration;

// What a call answers: at most so many bytes, or the error of this number, or an error of this kind that has no number.
#[derive(Clone, Copy)]
enum Answer {
    Most(usize),
    Error(i32),
    Made(io::ErrorKind),
}

// The answers in order; behind the last one a call moves no byte.
#[derive(Clone, Copy)]
struct Planned {
    answers: [Answer; 6],
    calls: usize,
}

impl Planned {
    fn next(&mut self, room: usize) -> io::Result<usize>
        ensures { IfOk result (λ n. n ≤ room) }
    {
        let answer = self.answers.get(self.calls).copied();
        self.calls = self.calls.saturating_add(1);
        match answer {
            Some(Answer::Most(n)) => Ok(n.min(room)),
            Some(Answer::Error(number)) => Err(io::Error::from_raw_os_error(number)),
            Some(Answer::Made(kind)) => Err(io::Error::from(kind)),
            None => Ok(0),
        }
    }
}

impl Read for Planned {
    fn read(&mut self, buf: &mut [u8]) -> io::Result<usize> {
        self.next(buf.len())
    }
}

impl Write for Planned {
    fn write(&mut self, buf: &[u8]) -> io::Result<usize> {
        self.next(buf.len())
    }

    fn flush(&mut self) -> io::Result<()> {
        Ok(())
    }
}

// A clock that adds up the milliseconds that it was asked to wait.
#[derive(Drop)]
struct Waits {
    waited: Cell<u128>,
}

impl Clock for Waits {
    fn monotonic(&self) -> io::Result<Duration> {
        Ok(Duration::ZERO)
    }

    fn since_1970(&self) -> io::Result<Duration> {
        Ok(Duration::ZERO)
    }

    fn sleep(&self, duration: Duration) {
        self.waited
            .set(self.waited.get().saturating_add(duration.as_millis()));
    }
}

fn no_waits() -> Waits {
    Waits {
        waited: Cell::new(0),
    }
}

const INTERRUPTED: Answer = Answer::Error(4);

const WOULD_BLOCK: Answer = Answer::Error(11);

const FAILED: Answer = Answer::Error(5);

const MADE: Answer = Answer::Made(io::ErrorKind::WouldBlock);

const END: Answer = Answer::Most(0);

#[test]
fn interrupted_reads_are_made_again_at_once(rt: HostRuntime) -> Result<(), Fail> {
    let clock = no_waits();
    let mut reader = Planned {
        answers: [INTERRUPTED, INTERRUPTED, Answer::Most(3), FAILED, END, END],
        calls: 0,
    };
    let mut buf = [0u8; 8];
    assert_eq!(rt; read_some(&clock, &mut reader, &mut buf)?, 3);
    assert_eq!(rt; reader.calls, 3);
    assert_eq!(rt; clock.waited.get(), 0);
    Ok(())
}

#[test]
fn reads_that_would_block_are_made_again_after_a_pause(rt: HostRuntime) -> Result<(), Fail> {
    let clock = no_waits();
    let mut reader = Planned {
        answers: [
            WOULD_BLOCK,
            Answer::Most(3),
            WOULD_BLOCK,
            Answer::Most(2),
            END,
            FAILED,
        ],
        calls: 0,
    };
    let mut buf = [0u8; 8];
    assert_eq!(rt; read_full(&clock, &mut reader, &mut buf)?, 5);
    assert_eq!(rt; reader.calls, 5);
    assert_eq!(rt; clock.waited.get(), 10);
    Ok(())
}

#[test]
fn a_read_that_fails_is_not_the_end(rt: HostRuntime) -> Result<(), Fail> {
    let clock = no_waits();
    let mut reader = Planned {
        answers: [Answer::Most(3), FAILED, Answer::Most(5), END, END, END],
        calls: 0,
    };
    let mut buf = [0u8; 8];
    let read = read_full(&clock, &mut reader, &mut buf);
    let error = read.err().ok_or("no error is told")?;
    assert_eq!(rt; Retry::after(error), None);
    assert_eq!(rt; reader.calls, 2);
    assert_eq!(rt; error.raw_os_error(), Some(5));
    Ok(())
}

#[test]
fn writes_go_on_until_all_is_written(rt: HostRuntime) -> Result<(), Fail> {
    let clock = no_waits();
    let mut writer = Planned {
        answers: [
            Answer::Most(1),
            INTERRUPTED,
            Answer::Most(2),
            WOULD_BLOCK,
            Answer::Most(0),
            Answer::Most(9),
        ],
        calls: 0,
    };
    write_all(&clock, &mut writer, b"12345678")?;
    assert_eq!(rt; writer.calls, 6);
    assert_eq!(rt; clock.waited.get(), 10);
    Ok(())
}

#[test]
fn a_write_that_fails_ends_them(rt: HostRuntime) -> Result<(), Fail> {
    let clock = no_waits();
    let mut writer = Planned {
        answers: [Answer::Most(3), FAILED, Answer::Most(9), END, END, END],
        calls: 0,
    };
    let written = write_all(&clock, &mut writer, b"12345678");
    let stopped = written.err().ok_or("no error is told")?;
    assert_eq!(rt; stopped.written, 3);
    assert_eq!(rt; writer.calls, 2);
    assert_eq!(rt; stopped.error.raw_os_error(), Some(5));
    Ok(())
}

#[test]
fn an_error_without_a_number_ends_both(rt: HostRuntime) -> Result<(), Fail> {
    let clock = no_waits();
    let mut reader = Planned {
        answers: [MADE, Answer::Most(3), END, END, END, END],
        calls: 0,
    };
    let mut buf = [0u8; 8];
    let read = read_some(&clock, &mut reader, &mut buf);
    let error = read.err().ok_or("no error is told")?;
    assert_eq!(rt; Retry::after(error), None);
    assert_eq!(rt; reader.calls, 1);
    let mut writer = Planned {
        answers: [Answer::Most(3), MADE, Answer::Most(9), END, END, END],
        calls: 0,
    };
    let written = write_all(&clock, &mut writer, b"12345678");
    let stopped = written.err().ok_or("no error is told")?;
    assert_eq!(rt; stopped.written, 3);
    assert_eq!(rt; writer.calls, 2);
    assert_eq!(rt; clock.waited.get(), 0);
    Ok(())
}
