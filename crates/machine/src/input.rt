use message::kind::Kind;
use part::place::Place;

/// What a borrower may be called to do.
#[derive(Clone, Copy, Debug, PartialEq, Eq)]
pub enum Call<'a> {
    /// to ask for a part
    Ask { place: Place, kind: Kind },
    /// to show its copy of a part
    Show(Place),
    /// to write a part: these bytes
    Write { place: Place, part: &'a [u8; 1024] },
    /// to let its copy of a part go
    Forget(Place),
}

/// What comes to a machine.
#[derive(Clone, Copy, Debug, PartialEq, Eq)]
pub enum Input<'a> {
    /// bytes, which are a message to it or not
    Came(&'a [u8]),
    /// a call
    Called(Call<'a>),
    /// nothing but a reading of the clock
    Reading,
}
