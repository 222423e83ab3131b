//! The lines of a client.

ghost use Rattle.std.specs.Prelude.{◌≡◌};
ghost use Rattle.ifs_host.specs.Hearing.{said_by, hears, heard_front, with_byte};

use crate::client_timer::{ClientTimer, TimedReader};
use crate::connection_queue::ConnectionQueue;
use arrayvec::ArrayVec;
use ifs_session::{ByteIn, DeviceFault, FromRead};

/// The most bytes of a client that are looked through for a line `stop`.
const INPUT: u32 = 16_777_216;

/// The first bytes of a line that are kept, one more than `reload` has.
const FRONT: usize = 7;

/// The bytes of a client. Once its connection is 10 seconds old, no line is begun: then a read fails, unless the input has
/// ended.
#[derive(Drop)]
pub struct ClientLines<'a, 'd> {
    input: FromRead<TimedReader<'a, 'd>>,
    timer: &'a ClientTimer<'a>,
    /// Whether the next byte begins a line.
    begins: bool,
}

impl<'a, 'd> ClientLines<'a, 'd> {
    /// The bytes of a connection's client. Others wait in the queue.
    pub fn new(timer: &'a ClientTimer<'a>, queue: &'a mut ConnectionQueue<'d>) -> Self {
        ClientLines {
            input: FromRead::new(TimedReader::new(timer, queue)),
            timer,
            begins: true,
        }
    }

    /// Whether the next byte begins a line, and the connection is too old for it.
    fn is_too_late(&self) -> bool {
        self.begins && self.timer.begin_line() && !self.input.peek().is_empty()
    }

    /// Reads the lines that have come and were not read, up to a line `stop`, with no line `reload` before it. Returns whether
    /// there is one. It waits for no further line. The next byte begins a line.
    pub fn drain_for_stop(&mut self) -> bool {
        self.timer.begin_drain();
        let mut front = ArrayVec::new();
        for _ in 0..INPUT {
            let Ok(next) = self.input.next() else {
                return false;
            };
            match taken_in(&mut front, next) {
                Heard::Nothing => {}
                Heard::Stop => return true,
                Heard::End => return false,
            }
        }
        false
    }
}

impl<'a, 'd> ByteIn for ClientLines<'a, 'd> {
    fn next(&mut self) -> Result<Option<u8>, DeviceFault> {
        if self.is_too_late() {
            return Err(DeviceFault);
        }
        let next = self.input.next()?;
        self.begins = next == Some(b'\n');
        Ok(next)
    }
}

/// What a byte says of the lines that are left.
#[derive(Clone, Copy)]
enum Heard {
    /// Nothing yet.
    Nothing,
    /// A line is `stop`.
    Stop,
    /// No line `stop` counts.
    End,
}

/// Takes the next byte, or the end of input, after the front of its line.
fn taken_in(front: &mut ArrayVec<u8, FRONT>, next: Option<u8>) -> Heard
    ensures gives { result ≡ hears next front.old.items }
    ensures kept { front.new.items ≡ heard_front next front.old.items }
{
    match next {
        Some(byte) if byte != b'\n' => {
            add(front, byte);
            Heard::Nothing
        }
        _ => {
            let said = meaning_of(front.as_slice(), next.is_none());
            front.clear();
            said
        }
    }
}

/// What a line says by its front. The last line ends with the input.
fn meaning_of(front: &[u8], is_last: bool) -> Heard
    ensures { result ≡ said_by front.now is_last }
{
    if front == b"stop".as_slice() {
        Heard::Stop
    } else if front == b"reload".as_slice() || is_last {
        Heard::End
    } else {
        Heard::Nothing
    }
}

/// Adds a byte to the front of a line, if there is room.
fn add(front: &mut ArrayVec<u8, FRONT>, byte: u8)
    ensures { front.new.items ≡ with_byte byte front.old.items }
{
    if !front.is_full() {
        front.push(byte);
    }
}
