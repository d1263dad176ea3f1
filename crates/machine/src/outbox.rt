ghost use Rattle.std.specs.Prelude.{◌≡◌, false, sum, vec_items, vec_len};

use message::buffer::Buffer;
use message::to_borrower::ToBorrower;
use message::to_keeper::ToKeeper;
use std::alloc::Global;

/// The messages of a step, one behind another, and how many bytes each has; or that there was no memory for them.
#[derive(Drop)]
pub struct Outbox {
    pub buffer: Buffer,
    pub sizes: Vec<usize>,
    ghost whole: { buffer.failed ≡ false → sum (vec_items sizes) ≡ vec_len buffer.bytes },
}

impl Outbox {
    ghost use Rattle.std.specs.Prelude.{[], ◌∷◌};
    ghost use Rattle.message.specs.Format.{layout};
    ghost use Rattle.message.specs.Directions.{up_msg, down_msg};
    ghost use Rattle.machine.specs.Outboxes.{sent, Sent};

    /// No messages yet.
    pub fn new(heap: Global) -> Outbox
        ensures sent { sent result ≡ [] }
        ensures failed { result.buffer.failed ≡ false }
    {
        Outbox {
            buffer: Buffer::new(heap),
            sizes: Vec::new(heap),
        }
    }

    /// Lets go of all messages, and keeps their memory for the next.
    pub fn clear(&mut self)
        ensures sent { sent self.new ≡ [] }
        ensures failed { self.new.buffer.failed ≡ false }
    {
        self.buffer.clear();
        self.sizes.clear();
    }

    /// One more message, to the keeper.
    pub fn to_keeper(&mut self, message: &ToKeeper<'_>)
        ensures { Sent self.old self.new (layout (up_msg message.now) ∷ []) }
    {
        let before = self.buffer.bytes.len();
        message.put(&mut self.buffer);
        let size = self.buffer.bytes.len().saturating_sub(before);
        if self.sizes.push(size).is_err() {
            self.buffer.failed = true;
        }
    }

    /// One more message, to a borrower.
    pub fn to_borrower(&mut self, message: &ToBorrower<'_>)
        ensures { Sent self.old self.new (layout (down_msg message.now) ∷ []) }
    {
        let before = self.buffer.bytes.len();
        message.put(&mut self.buffer);
        let size = self.buffer.bytes.len().saturating_sub(before);
        if self.sizes.push(size).is_err() {
            self.buffer.failed = true;
        }
    }
}
