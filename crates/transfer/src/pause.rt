// A short wait, for a read or a write that would block.
use std::rt::Clock;
use std::thread;
use std::time::Duration;

// How long it is, in milliseconds: short beside a device's answer, long beside a call of the system.
const WAIT: u64 = 5;

// Waits once.
pub(crate) fn wait<C: Clock>(clock: &C) {
    thread::sleep(clock, Duration::from_millis(WAIT));
}
