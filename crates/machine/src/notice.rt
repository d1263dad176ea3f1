use part::place::Place;

/// What a writer is told of a write, by its part and number.
#[derive(Clone, Copy, Debug, PartialEq, Eq)]
pub enum Notice {
    /// it is applied
    In { place: Place, number: u32 },
    /// it is void
    Void { place: Place, number: u32 },
}
