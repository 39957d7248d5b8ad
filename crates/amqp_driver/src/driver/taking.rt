//! Whole frames out of received bytes (AMQP 1.0 part 2, section 2.3).

ghost use Rattle.std.specs.Prelude.{◌≡◌, ◌↔◌, ◌≤◌, ◌<◌, ◌+◌, ◌^◌, length, take, drop, IsTrue};
ghost use Rattle.amqp_driver.specs.Driver.{Mirrors, Tells, seen};
ghost use Rattle.amqp_driver.specs.Taking.{IsOver, Takes, is_wanted};

use super::Driver;
use crate::copied::Copied;
use crate::front::{Front, stands_at_front};
use crate::kind;
use crate::record::Record;
use crate::status::{Status, Taken};
use crate::told::Told;
use amqp_session::LinkRelay;
use amqp_types::ConnectionState;

/// How many bytes of the input are looked at: each place in them fits four bytes.
const SEEN: usize = 4294967295;

/// The input, as far as that.
pub(crate) fn seen(input: &[u8]) -> &[u8]
    ensures { result.now ≡ seen input.now }
{
    if input.len() <= SEEN {
        input
    } else {
        &input[..SEEN]
    }
}

/// Whether a record of this kind is to be answered before the frames behind its own are taken.
#[inline(always)]
fn is_wanted(kind: u8) -> bool
    ensures { result ≡ is_wanted kind }
{
    kind == kind::ATTACH_WANTED || kind == kind::BEGIN_WANTED
}

fn stopped(status: Status, taken: usize, written: usize, wanted: u32) -> Taken
    ensures { result ≡ record { status = status; taken = taken; written = written; wanted = wanted } }
{
    Taken {
        status,
        taken,
        written,
        wanted: wanted as usize,
    }
}

impl<R: LinkRelay> Driver<R> {
    /// Takes whole frames out of the input, runs each once, in order, and writes what each says to the next place of `records`. An empty frame
    /// (section 2.4.5) is taken, and has no record; any other has one, also where it was refused. Places behind those that were written stay as
    /// they were. What the frames hand out waits in [`Driver::out`].
    ///
    /// It stops behind a link or a session that the peer begins, whose record is the last one (`Again`, of
    /// [`ATTACH_WANTED`](crate::kind::ATTACH_WANTED) or [`BEGIN_WANTED`](crate::kind::BEGIN_WANTED): the owner answers it, and gives the rest
    /// again), where both Closes have passed (`Over`: nothing is taken any more), where what is left is no whole frame (`Done`, with the
    /// size of the next one as far as it is known), where a whole frame is left and all records are written (`Full`), at a size that no frame
    /// may have (`BadSize`: the owner closes, for `amqp:connection:framing-error`), or where memory was refused and the frame was not taken
    /// (`NoMemory`: some of what waited in the engine may be sent, and nothing else has changed). What is not taken is given again, with what
    /// came since.
    ///
    /// Places in the records are those of this call's input. Of an input of more than 4294967295 bytes the others are not looked at.
    ///
    /// ```
    /// let mut records = [Record::empty(); 64];
    /// let taken = driver.take(received, &mut records);
    /// for record in &records[..taken.written] {
    ///     if record.kind == kind::TRANSFER {
    ///         let from = record.payload_at as usize;
    ///         let payload = &received[from..from + record.payload as usize];
    ///     }
    /// }
    /// ```
    pub fn take(&mut self, input: &[u8], records: &mut [Record]) -> Taken
        ensures { Takes R.gives self.old.engine.connection.local_open.max_frame_size self.old (seen input.now) records.old
            result.status result.taken result.written result.wanted self.new records.new }
    {
        let limit = self.engine.connection().local_open().max_frame_size;
        self.take_within(limit, seen(input), records)
    }

    /// The same, where a frame has at most `limit` bytes.
    fn take_within(&mut self, limit: u32, input: &[u8], records: &mut [Record]) -> Taken
        requires { length input.now < 2 ^ 32 }
        ensures { Takes R.gives limit self.old input.now records.old
            result.status result.taken result.written result.wanted self.new records.new }
    {
        let mut copied = Copied::none();
        let mut taken = 0;
        let mut written = 0;
        'frames: loop {
            if self.is_over() {
                return stopped(Status::Over, taken, written, 0);
            }
            let size = match stands_at_front(&input[taken..], limit) {
                Front::Part(wanted) => return stopped(Status::Done, taken, written, wanted),
                Front::Bad => return stopped(Status::BadSize, taken, written, 0),
                Front::Whole(size) => size,
            };
            if written == records.len() {
                return stopped(Status::Full, taken, written, 0);
            }
            let end = taken + size as usize;
            let most = records.len() - written;
            copied = match copied.covering(self.alloc, input, taken, end, limit, most) {
                Ok(copied) => copied,
                Err(_) => return stopped(Status::NoMemory, taken, written, 0),
            };
            match self.take_one(&copied, input, taken, size) {
                Told::NoMemory => return stopped(Status::NoMemory, taken, written, 0),
                Told::Nothing => {}
                Told::One(record) => {
                    records[written] = record;
                    written += 1;
                    if is_wanted(record.kind) {
                        return stopped(Status::Again, end, written, 0);
                    }
                }
            }
            taken = end;
        }
    }

    /// Whether both Closes have passed.
    #[inline(always)]
    fn is_over(&self) -> bool
        ensures { IsTrue result ↔ IsOver self.now }
    {
        *self.engine.connection().local_state() == ConnectionState::End
    }

    /// Runs the frame of this size that stands at a place of the input.
    fn take_one(&mut self, copied: &Copied, input: &[u8], at: usize, size: u32) -> Told
        requires copy { Mirrors copied.now input.now }
        requires from { copied.now.start ≤ at }
        requires to { at + size ≤ copied.now.end }
        requires least { 8 ≤ size }
        requires few { length input.now < 2 ^ 32 }
        ensures { Tells R.gives self.old (drop 4 (take size (drop at input.now))) at size result self.new }
    {
        let Ok(frame) = copied.part(input, at + 4, at + size as usize) else {
            return Told::NoMemory;
        };
        self.tell(frame, at as u32, size)
    }
}
