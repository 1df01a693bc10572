// A right to make calls on each document of a host.
use crate::journaled::{Journaled, Opening};
use crate::shared::Shared;
use doc_model::{Call, Made};
use turn_board::SeatOf;

/// A right to make calls on each document of a host: a seat at each, all with one number. A thread carries its own.
#[derive(Drop)]
pub struct Pass<J: Journaled> {
    pub(crate) seats: Vec<SeatOf<Shared<J>, Call, Made, Opening>>,
}

impl<J: Journaled> Pass<J> {
    ghost use Rattle.std.specs.Prelude.{◌≡◌, ◌<◌, ◌↔◌, IsTrue, length};
    ghost use Rattle.doc_host.specs.Passes.{number_in, turns_at, free_in, whole_in};
    ghost use Rattle.doc_host.specs.Views.{views};

    /// Its number, under which its calls stand in the histories of all documents.
    pub fn number(&self) -> u32
        ensures { result ≡ number_in (views self.now) }
    {
        match self.seats.first() {
            Some(seat) => seat.number(),
            None => 0,
        }
    }

    /// How many turns it may still take on a document.
    pub fn turns_left(&self, doc: usize) -> u64
        requires { doc < length self.now.seats.items }
        ensures { result ≡ turns_at (views self.now) doc }
    {
        let seat = &self.seats[doc];
        seat.turns_left()
    }

    /// How many numbers it may still give away.
    pub fn free(&self) -> u32
        ensures { result ≡ free_in (views self.now) }
    {
        match self.seats.first() {
            Some(seat) => seat.free(),
            None => 0,
        }
    }

    /// Whether each number of the host is its own, free or ended. Then no other pass is left.
    pub fn whole(&self) -> bool
        ensures { IsTrue result ↔ whole_in (views self.now) }
    {
        match self.seats.first() {
            Some(seat) => seat.whole(),
            None => false,
        }
    }
}
