//! What the world does at the bottom of a stack of ends, between the calls of those who use it.

ghost use Rattle.std.specs.Prelude.{◌≡◌, List, length};
ghost use Rattle.std.specs.Option.{option_map};
ghost use Rattle.std.specs.List.{slice_get};
ghost use Rattle.transport.specs.Drafts.{outgoing_of};
ghost use Rattle.transport.specs.Frames.{frame_of};
ghost use Rattle.transport.specs.Rings.{Queue};
ghost use Rattle.transport.specs.Lists.{Listed, code_of, delivering, collecting, stopping_reads, stopping_writes};
ghost use Rattle.transport.specs.Layers.{stacked};

use crate::frame::Frame;
use crate::outgoing::Outgoing;
use crate::transport::Transport;

/// A stack of ends over a list end. The world changes the list end alone: what is held above it stays.
// Each call says so (`above`), since a law speaks of one value and not of two.
pub trait World: Transport {
    ghost bottom: { Self → Listed };

    ghost above: { Self → List Queue };

    /// A message arrives, and waits behind the others; false where there is no place for it.
    // A yes or no: a room that is full has nothing more to say.
    fn deliver(&mut self, message: &Outgoing<'_>) -> bool
        ensures defined { (result, bottom self.new) ≡ delivering (outgoing_of message.now) (bottom self.old) }
        ensures above { above self.new ≡ above self.old }
        ensures stack { Self.Transport.means self.new ≡ stacked (bottom self.new) (above self.new) };

    /// The first `n` frames that were sent and reached the bottom go, and their places are free again. Answers how many
    /// there were.
    fn collect(&mut self, n: usize) -> usize
        ensures defined { (result, bottom self.new) ≡ collecting n (bottom self.old) }
        ensures above { above self.new ≡ above self.old }
        ensures before { Self.Transport.means self.old ≡ stacked (bottom self.old) (above self.old) }
        ensures stack { Self.Transport.means self.new ≡ stacked (bottom self.new) (above self.new) };

    /// How many sent frames there are at the bottom.
    fn sent_len(&self) -> usize
        ensures { result ≡ length (bottom self.now).outgoing.frames };

    /// The sent frame at the bottom that `i` others are before.
    fn sent_at(&self, i: usize) -> Option<&Frame>
        ensures { option_map (λ f. frame_of f.now) result ≡ slice_get (bottom self.now).outgoing.frames i };

    // Two calls, as sockets have them for reading and for writing: a parameter for the direction would be no plainer.
    /// Reading meets this code once no frame waits; 0 and 11 are read as none.
    fn set_read_stop(&mut self, stop: Option<u32>)
        ensures defined { bottom self.new ≡ stopping_reads (code_of stop) (bottom self.old) }
        ensures above { above self.new ≡ above self.old }
        ensures stack { Self.Transport.means self.new ≡ stacked (bottom self.new) (above self.new) };

    /// Writing meets this code; 0 and 11 are read as none.
    fn set_write_stop(&mut self, stop: Option<u32>)
        ensures defined { bottom self.new ≡ stopping_writes (code_of stop) (bottom self.old) }
        ensures above { above self.new ≡ above self.old }
        ensures stack { Self.Transport.means self.new ≡ stacked (bottom self.new) (above self.new) };

    // A law: what an end means is what lies at the bottom, and above it. The calls say it too, since who calls through a `dyn`
    // reaches no law.
    ghost stack: { (s : Self) → Self.Transport.means s ≡ stacked (bottom s) (above s) };
}
