//! The descriptors of the standard streams.

use libc::types::pollfd;
use std::fs::OpenOptions;
use std::io;
use std::os::fd::IntoRawFd;

/// The device that is opened in place of a stream.
pub const NULL: &str = "/dev/null";

/// Opens `/dev/null` as each standard stream that is closed, for the rest of the run. Else a file or a connection that is
/// opened later would be taken for that stream.
pub fn open_closed(rt: &HostRuntime) -> io::Result<()> {
    let mut streams = [poll_request(0), poll_request(1), poll_request(2)];
    // a look that fails finds none closed
    let _found = libc::net::poll(&mut streams, 0);
    for stream in streams {
        if stream.revents & libc::net::POLLNVAL != 0 {
            open_lowest(rt)?;
        }
    }
    Ok(())
}

/// A request to poll whether a descriptor is open.
fn poll_request(descriptor: i32) -> pollfd {
    pollfd {
        fd: descriptor,
        events: 0,
        revents: 0,
    }
}

/// Opens `/dev/null` as the lowest descriptor that is free, and leaves it open.
fn open_lowest(rt: &HostRuntime) -> io::Result<()> {
    let null = OpenOptions::new().read(true).write(true).open(rt, NULL)?;
    let _number = null.into_raw_fd();
    Ok(())
}
