//! The descriptors that the daemon watches while it waits: its listener, and the pipes of the tests that run.

use libc::types::pollfd;

/// The most descriptors that are watched: the listener, and a pipe for each program that may run.
const MOST: usize = 257;

/// The number of no descriptor.
const NO_DESCRIPTOR: i32 = -1;

/// How long to wait for news.
#[derive(Clone, Copy, PartialEq, Eq)]
pub enum Patience {
    /// Not at all.
    None,
    /// For a quarter of a second.
    Short,
    /// Until there is news.
    Endless,
}

impl Patience {
    /// The milliseconds, as the system takes them. It takes a negative number for no limit.
    fn milliseconds(self) -> i32 {
        match self {
            Patience::None => 0,
            Patience::Short => 250,
            Patience::Endless => -1,
        }
    }
}

/// The descriptors that are watched, and the news of them as they were looked at last.
#[derive(Drop)]
pub struct Watched {
    /// The listener first, and then the pipe of each test. What comes after `count` of them is not watched.
    requests: [pollfd; MOST],
    count: usize,
}

impl Watched {
    /// Without descriptors.
    pub fn new() -> Watched {
        Watched {
            requests: [request_for(NO_DESCRIPTOR); MOST],
            count: 0,
        }
    }

    /// Forgets the descriptors, and watches a listener.
    pub fn restart(&mut self, listener: i32) {
        self.count = 0;
        self.add(listener);
    }

    /// Watches the pipe of a test, if there is room.
    pub fn add(&mut self, pipe: i32) {
        if let Some(request) = self.requests.get_mut(self.count) {
            *request = request_for(pipe);
            self.count += 1;
        }
    }

    /// Looks at the descriptors until there is news of one. Returns whether the system could look at them.
    pub fn look(&mut self, patience: Patience) -> bool {
        match self.requests.get_mut(..self.count) {
            Some(watched) => libc::net::poll(watched, patience.milliseconds()) >= 0,
            None => false,
        }
    }

    /// Whether the pipe of a test was closed at the last look.
    pub fn has_closed(&self) -> bool {
        self.requests.iter().take(self.count).skip(1).any(has_news)
    }

    /// Whether a client waited at the last look.
    pub fn has_client(&self) -> bool {
        self.requests.first().is_some_and(has_news)
    }
}

/// A request to look whether there is something to read from a descriptor, or it is closed.
fn request_for(descriptor: i32) -> pollfd {
    pollfd {
        fd: descriptor,
        events: libc::net::POLLIN,
        revents: 0,
    }
}

/// Whether there is news of a descriptor.
fn has_news(request: &pollfd) -> bool {
    request.revents != 0
}
