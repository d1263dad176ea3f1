ghost use Rattle.std.specs.Prelude.{◌≡◌};
ghost use Rattle.journal.specs.Records.{recorded, size_of, Encoded};

use part::head::Head;
use part::number::put_number;
use part::place::Place;

/// Whose journal it is: the two have records of different kinds.
#[derive(Clone, Copy, Debug, PartialEq, Eq)]
pub enum Owner {
    Keeper,
    Borrower,
}

/// A record. The 1,024 bytes of a part that is applied stand beside it:
/// in the bytes that it was read from, or in the part that is lent where it is written.
// So they stay two parameters, for the reason that a message gives.
#[derive(Clone, Copy, Debug, PartialEq, Eq)]
pub enum Record {
    /// the keeper applied this write of this borrower
    Applied(Head),
    /// the keeper counts this borrower's writes of this part up to this number as void
    VoidUpTo(Head),
    /// a borrower has used no numbers of this part above these
    Numbers { place: Place, ask: u32, write: u32 },
}

impl Record {
    /// How many bytes it has.
    pub fn size(&self) -> usize
        ensures { result ≡ size_of self.now }
    {
        match self {
            Record::Applied(_) => 1032,
            Record::VoidUpTo(_) => 8,
            Record::Numbers { .. } => 11,
        }
    }
}

/// Writes the record at the front of `out`, with the bytes of `part` where a part is applied, and says how many bytes
/// it has; where there is no room it writes nothing.
// A size stays beside the bytes, as of a message.
pub fn encode(record: &Record, part: &[u8; 1024], out: &mut [u8]) -> Option<usize>
    ensures { Encoded (recorded part.now «record».now) out.old out.new result }
{
    if out.len() < record.size() {
        return None;
    }
    match record {
        Record::Applied(head) => {
            head.put(8, out);
            out[8..1032].copy_from_slice(part);
            Some(1032)
        }
        Record::VoidUpTo(head) => {
            head.put(9, out);
            Some(8)
        }
        Record::Numbers { place, ask, write } => {
            out[0] = 10;
            out[1] = place.file();
            out[2] = place.part();
            put_number(out, 3, *ask);
            put_number(out, 7, *write);
            Some(11)
        }
    }
}
