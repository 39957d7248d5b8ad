//! Bytes that wait to be sent, out of the stream.

ghost use Rattle.std.specs.Prelude.{◌≡◌, ◌<◌, length};
ghost use Rattle.amqp_driver.specs.Stream.{having_sent, waiting};
ghost use Rattle.amqp1.specs.Taking.{TakesFront, TakesOff};

use crate::writing::fill;
use amqp_driver::Stream;
use amqp_session::LinkRelay;

/// Copies the bytes that wait to the output, as many as fit, and takes them off.
#[tactic(auto, using(crate::proofs::TakingLemmas::none_off))]
pub(crate) fn take<R: LinkRelay>(stream: &mut Stream<R>, output: &mut [u8]) -> usize
    ensures taken { TakesOff (waiting stream.old) output.old result (waiting stream.new) output.new }
    ensures rest { stream.new ≡ having_sent result stream.old }
{
    let mut at = 0;
    while at < output.len() && !stream.out().is_empty() {
        at += take_chunk(stream, at, output);
    }
    at
}

/// Copies bytes that lie together at the front to a place of the output, and takes them off. There is room for one.
fn take_chunk<R: LinkRelay>(stream: &mut Stream<R>, at: usize, output: &mut [u8]) -> usize
    requires room { at < length output.old }
    requires some { 0 < length (waiting stream.old) }
    ensures taken { TakesFront at (waiting stream.old) output.old result (waiting stream.new) output.new }
    ensures rest { stream.new ≡ having_sent result stream.old }
{
    let chunk = stream.out();
    let count = chunk.len().min(output.len() - at);
    fill(output, at, &chunk[..count]);
    stream.sent(count);
    count
}
