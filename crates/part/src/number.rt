ghost use Rattle.std.specs.Prelude.{◌≡◌, ◌+◌, ◌<◌, length, if◌then◌else◌, MatchOption, nat_le};
ghost use Rattle.part.specs.Bytes.{four, placed, Stands};

/// The number of which the four bytes stand at a place, high byte first, where so many bytes are there.
pub fn number_at(bytes: &[u8], at: usize) -> Option<u32>
    ensures { MatchOption result (length bytes.now < at + 4) (λ n. Stands bytes.now at n) }
{
    let four = bytes.get(at..)?.first_chunk()?;
    Some(u32::from_be_bytes(*four))
}

/// Writes the four bytes of a number at a place, high byte first; false, and nothing is written, where there is no room.
// A `bool` stays, for the reason that `Head::put` gives.
pub fn put_number(out: &mut [u8], at: usize, number: u32) -> bool
    ensures small { number < 4294967296 }
    ensures fits { result ≡ nat_le (at + 4) (length out.old) }
    ensures after { out.new ≡ (if result then placed at (four number) out.old else out.old) }
{
    if out.len() < 4 || out.len() - 4 < at {
        return false;
    }
    out[at..at + 4].copy_from_slice(&number.to_be_bytes());
    true
}
