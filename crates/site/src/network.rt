ghost use Rattle.std.specs.Prelude.{◌≡◌, [], ◌∷◌, ◌++◌, map, length, take, IfOk, slice_index_or};
ghost use Rattle.std.specs.Option.{option_map};
ghost use Rattle.message.specs.Format.{said, layout};
ghost use Rattle.message.specs.Reading.{read};
ghost use Rattle.lender.specs.Rules.{recalls};
ghost use Rattle.lender.specs.Replies as keepers;
ghost use Rattle.borrower.specs.Outcomes as borrowers;
ghost use Rattle.site.specs.Nodes.{borrower_at, receiver_of};
ghost use Rattle.site.specs.Networks.{sent_of};
ghost use Rattle.site.specs.OneKeeper.{lender_of};

use crate::event::{Borrower, Node};
use crate::fault::Fault;
use crate::keeper_node::KeeperNode;
use lender::answer::Sends;
use message::decode::decode;
use message::encode::encode;
use message::form::Message;
use part::place::Place;
use part::who::Who;
use std::alloc::{AllocError, Global};

/// The bytes of every message ever sent, the first one first.
#[derive(Drop)]
pub struct Network {
    heap: Global,
    sent: Vec<Vec<u8>>,
}

// A borrower, if it is one of the four.
fn node(who: Who) -> Option<Node>
    ensures { result ≡ option_map (λ b. Node.Borrower b) (borrower_at who.id) }
{
    Borrower::new(u64::from(who.id)).map(Node::Borrower)
}

impl Network {
    /// Nothing was sent.
    pub fn new(heap: Global) -> Network
        ensures { sent_of result ≡ [] }
    {
        Network {
            heap,
            sent: Vec::new(heap),
        }
    }

    /// How many messages were sent.
    pub fn len(&self) -> usize
        ensures { result ≡ length (sent_of self.now) }
    {
        self.sent.len()
    }

    /// The bytes of a message, counted from 0; none of one that was never sent.
    pub fn bytes(&self, message: usize) -> &[u8]
        ensures { result.now ≡ slice_index_or (sent_of self.now) message [] }
    {
        match self.sent.get(message) {
            Some(bytes) => bytes,
            None => &[],
        }
    }

    /// So many first bytes of a message.
    pub fn first_bytes(&self, message: usize, size: usize) -> &[u8]
        ensures { result.now ≡ take size (slice_index_or (sent_of self.now) message []) }
    {
        let bytes = self.bytes(message);
        &bytes[0..size.min(bytes.len())]
    }

    /// Where a message is meant to arrive; nowhere where it was never sent.
    pub fn receiver(&self, message: usize) -> Option<Node>
        ensures { result ≡ receiver_of (read (slice_index_or (sent_of self.now) message [])) }
    {
        match decode(self.bytes(message)).ok()? {
            Message::Ask(_) | Message::Write(_) | Message::Back(_) => Some(Node::Keeper),
            Message::Loan { head, .. } | Message::In(head) | Message::Void(head) => node(head.who),
            Message::Recall { who, .. } => node(who),
        }
    }

    /// Sends a message, with the bytes of `part` where it carries a part's.
    pub fn send(&mut self, message: &Message, part: &[u8; 1024]) -> Result<(), AllocError>
        ensures { IfOk result (λ _. sent_of self.new ≡ sent_of self.old ++ layout (said part.now message.now) ∷ []) }
    {
        let mut out = [0; 1033];
        let size = encode(message, part, &mut out).unwrap();
        let mut bytes = Vec::new(self.heap);
        bytes.extend_from_slice(&out[0..size])?;
        self.sent.push(bytes)?;
        Ok(())
    }

    /// Sends a recall of a part to each borrower that is marked, by rising number.
    pub fn send_recalls(&mut self, place: Place, by: &[bool; 32]) -> Result<(), AllocError>
        ensures { IfOk result (λ _. sent_of self.new ≡ sent_of self.old ++ map layout (recalls place.at 0 by.now)) }
    {
        for id in 0u8..32 {
            if by[usize::from(id)] {
                let who = Who { id };
                self.send(&Message::Recall { who, place }, &[0; 1024])?;
            }
        }
        Ok(())
    }

    /// Sends what a borrower sends, if anything: a write with the bytes of `part`.
    pub fn send_from_borrower(
        &mut self,
        message: Option<Message>,
        part: &[u8; 1024],
    ) -> Result<(), AllocError>
        ensures { IfOk result (λ _. sent_of self.new ≡ sent_of self.old ++ map layout (borrowers.sent_by part.now message)) }
    {
        match message {
            Some(message) => self.send(&message, part),
            None => Ok(()),
        }
    }

    /// Sends what the keeper sends.
    pub fn send_from_keeper(&mut self, keeper: &KeeperNode, sends: Sends) -> Result<(), Fault>
        ensures { IfOk result (λ _. sent_of self.new ≡ sent_of self.old ++ map layout (keepers.sent_by (lender_of keeper.now).parts sends)) }
    {
        match sends {
            Sends::Nothing => {}
            Sends::One(message) => self.send(&message, &keeper.part(message.place())?)?,
            Sends::Recalls { place, by } => self.send_recalls(place, &by)?,
        }
        Ok(())
    }
}
