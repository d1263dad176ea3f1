ghost use Rattle.std.specs.Prelude.{◌≡◌, [], length, slice_index_or};
ghost use Rattle.message.specs.Reading.{read};
ghost use Rattle.site.specs.Nodes.{receiver_of};
ghost use Rattle.site.specs.Worlds.{world_of};

use crate::event::Node;
use crate::site::Site;

impl Site {
    /// How many messages were ever sent.
    pub fn sent(&self) -> usize
        ensures { result ≡ length (world_of self.now).sent }
    {
        self.network.len()
    }

    /// The bytes of a message, counted from 0; none of one that was never sent.
    pub fn message(&self, message: usize) -> &[u8]
        ensures { result.now ≡ slice_index_or (world_of self.now).sent message [] }
    {
        self.network.bytes(message)
    }

    /// Where a message is meant to arrive; nowhere where it was never sent.
    pub fn receiver(&self, message: usize) -> Option<Node>
        ensures { result ≡ receiver_of (read (slice_index_or (world_of self.now).sent message [])) }
    {
        self.network.receiver(message)
    }
}
