//! What a call tells beside its status.

ghost use Rattle.std.specs.Prelude.{◌≡◌};
ghost use Rattle.zxopt_c.specs.Calls.{fault_in, place_in};

use zx_run::Status;

/// What a call tells beside its status.
#[repr(C)]
#[derive(Drop, Clone, Copy)]
pub struct Told {
    /// How many bytes the command writes, also where there was no room for them.
    pub length: usize,
    /// Where the first fault is: a place in the text, from 0, or the number of a line, from 1; 0 where it has none.
    pub place: usize,
    /// The number of the first fault, from 1 to 26, or 0 where none is told.
    pub fault: u8,
}

impl Told {
    // What is told with an answer for which so many bytes are written.
    pub(crate) fn of(answer: Status, length: usize) -> Told
        ensures length { result.length ≡ length }
        ensures place { result.place ≡ place_in answer }
        ensures fault { result.fault ≡ fault_in answer }
    {
        let (place, fault) = match answer {
            Status::Refused(fault) => (fault.place().unwrap_or(0), fault.number()),
            _ => (0, 0),
        };
        Told {
            length,
            place,
            fault,
        }
    }
}
