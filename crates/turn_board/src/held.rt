// The value, while a seat has its turn.
use std::marker::PhantomData;

/// The value behind a board, which the seat that has the turn may make calls on.
///
/// It borrows the board, and it cannot be dropped: it has to end in `Board::leave`.
pub struct Held<'a, S> {
    pub(crate) value: S,
    pub(crate) board: PhantomData<&'a S>,
}

impl<S> Held<'_, S> {
    ghost use Rattle.std.specs.Prelude.{◌≡◌, []};
    ghost use Rattle.std.specs.Borrow.{Lends, sem};
    ghost use mir.Syntax.{named};
    ghost use Rattle.turn_board.specs.contracts.held.Held.{the_row};
    ghost use Rattle.turn_board.specs.Held.{value_in, with_value};

    /// The value, to make a call on. What the call leaves there is what `leave` gives back.
    pub fn value(&mut self) -> &mut S
        ensures* writes_back { sem 𝓛 (Lends (the_row (record { mir = named 1; lft = [] }) S.row) S.row self.entry result (λ w. with_value self.old w)) }
        ensures shows { result.now ≡ value_in self.old }
    {
        &mut self.value
    }
}
