ghost use Rattle.site.specs.OnePart.{Rewritten};

use journal::record::Record;
use journal::replay::Journaled;
use part::place::Place;

/// One part as the records of a keeper's journal leave it.
#[derive(Clone, Copy)]
pub struct Written {
    pub place: Place,
    pub bytes: [u8; 1024],
}

impl Journaled for Written {
    ghost becomes = { λ was r is. Rewritten was r is };

    fn apply(&mut self, record: Record, part: &[u8; 1024]) {
        if let Record::Applied(head) = record {
            if head.place == self.place {
                self.bytes = *part;
            }
        }
    }
}
