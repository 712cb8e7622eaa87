//! The peak memory of this process.
use std::io::Read;
use std::rt::Files;
use std::{fs, str};

/// The file in which Linux reports the memory of a process.
const STATUS: &str = "/proc/self/status";

/// How many bytes of the file are read. The peak is among the first.
const STATUS_ROOM: usize = 4096;

/// The peak memory of this process in KiB, if the system reports it.
pub fn peak_kib<H: Files>(host: &H) -> Option<u64> {
    let mut file = fs::open(host, STATUS).ok()?;
    let mut bytes = [0; STATUS_ROOM];
    // The system makes the text at once, so one read returns all of it or fills the buffer.
    let count = file.read(&mut bytes).ok()?;
    kib_in(str::from_utf8(&bytes[..count]).ok()?)
}

/// The number on the line of the peak.
fn kib_in(status: &str) -> Option<u64> {
    for line in status.lines() {
        if let Some(peak) = line.strip_prefix("VmHWM:") {
            return peak.strip_suffix("kB")?.trim().parse().ok();
        }
    }
    None
}
