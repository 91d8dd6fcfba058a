//! The board of shutdown words: one word a slot, which never goes down.

ghost use Rattle.std.specs.Prelude.{◌≡◌, ◌*◌, ◌+◌, ◌<◌, ◌≤◌, ℕ, IfOk, IfErr, max, slice_index, slice_set};
ghost use Rattle.xt_base.specs.declared.steps.Errno.TheVariants.{NoMemory};
ghost use Rattle.xt_queue.specs.Boards.{Peeks, Rises, Shows, blank_words};
ghost use Rattle.xt_queue.specs.Seats.{fresh_seat, of_seat};
ghost use Rattle.xt_queue.specs.Words.{IsOver, word_of};

use crate::rule::{Beside, NeverDown, Peek, Show};
use crate::views::BoardView;
use crate::words;
use std::alloc::Global;
use std::marker::Model;
use xt_base::names::{Life, Slot};
use xt_base::sizes::SLOTS;
use xt_base::steps::{Errno, Reason};

/// The last life of each slot and whether it was shut, for all to read. A contract sees which board it is.
#[derive(Drop)]
pub struct Board {
    table: atomic_table::Table<(), BoardView, (), NeverDown, Global>,
}

impl Model for Board {
    ghost use Rattle.atomic_table.specs.Seated.{TableId, table_id_coded};
    ghost use Rattle.std.specs.Prelude.{◌≡◌};
    ghost use Rattle.xt_base.specs.declared.sizes.TheConstants.{SLOTS};

    ghost Value = { TableId };

    ghost coded = { table_id_coded };

    ghost view = { λ b. b.table.shared.table_id };

    ghost invariant = { λ b. b.table.shared.table_id.words ≡ SLOTS };
}

/// The right to show and to read words. A contract sees its board, and for each slot the greatest word that it showed and the last that it saw,
/// how many seats were split off it, and how many splits it is from the first one, which alone has rank 0.
#[derive(Drop)]
pub struct Seat {
    seat: atomic_table::Seat<(), BoardView>,
}

impl Model for Seat {
    ghost use Rattle.std.specs.Prelude.{◌≡◌, []};
    ghost use Rattle.xt_queue.specs.Seats.{SeatView};

    ghost Value = { SeatView };

    ghost view = { λ s. record { board = s.seat.table_id; shown = s.seat.me.0.shown; seen = s.seat.me.0.seen; splits = s.seat.me.0.splits; rank = s.seat.me.0.rank } };

    ghost invariant = { λ s. s.seat.me.1 ≡ [] };
}

impl Board {
    /// A board on which nothing was shown, and its first seat. The one error is `NoMemory`.
    pub fn new(alloc: Global) -> Result<(Self, Seat), Errno>
        ensures seat { IfOk result (λ made. made.1 ≡ fresh_seat made.0 blank_words 0) }
        ensures memory { IfErr result (λ errno. errno ≡ NoMemory) }
    {
        let made = atomic_table::Table::of_words(alloc, &[0; SLOTS], &());
        let (table, seat) = made.map_err(|_| Errno::NoMemory)?;
        Ok((Board { table }, Seat { seat }))
    }

    /// Another seat, which has seen what this one saw and shown nothing. Its rank is one more than this one's.
    pub fn split(&self, seat: &mut Seat) -> Seat
        requires board { seat.old.board ≡ self.now }
        ensures kept { seat.new ≡ record seat.old { splits = seat.old.splits + 1 } }
        ensures seat { result ≡ fresh_seat self.now seat.old.seen (seat.old.rank + 1) }
    {
        Seat {
            seat: self.table.shared.split_seat::<Beside>(&mut seat.seat),
        }
    }

    /// Raises a slot's word to that of a life, live or shut for a reason, unless it stands higher; in one step.
    pub fn show(&self, seat: &mut Seat, slot: Slot, life: Life, shut: Option<Reason>)
        requires board { seat.old.board ≡ self.now }
        ensures board { seat.new.board ≡ seat.old.board }
        ensures shown { seat.new.shown ≡ slice_set seat.old.shown slot (max (slice_index seat.old.shown slot) (word_of life shut)) }
        ensures seen { (found : ℕ) × (slice_index seat.old.seen slot ≤ found) × (seat.new.seen ≡ slice_set seat.old.seen slot (max found (word_of life shut))) }
        ensures splits { seat.new.splits ≡ seat.old.splits }
        ensures rank { seat.new.rank ≡ seat.old.rank }
        ensures saw { word_of life shut ≤ slice_index seat.new.seen slot }
        ensures rises { Rises seat.old.seen seat.new.seen }
        ensures rule { (found : ℕ) × Shows (of_seat seat.old) slot (word_of life shut) found (of_seat seat.new) }
    {
        let word = words::word(life, shut);
        self.table
            .shared
            .fetch_max::<Show>(&mut seat.seat, slot.index(), word);
    }

    /// The life that a slot's word names, and why it was shut; in one step. Life 0 where nothing was shown.
    pub fn peek(&self, seat: &mut Seat, slot: Slot) -> (Life, Option<Reason>)
        requires board { seat.old.board ≡ self.now }
        ensures board { seat.new.board ≡ seat.old.board }
        ensures shown { seat.new.shown ≡ seat.old.shown }
        ensures seen { seat.new.seen ≡ slice_set seat.old.seen slot (word_of result.0 result.1) }
        ensures rises { Rises seat.old.seen seat.new.seen }
        ensures splits { seat.new.splits ≡ seat.old.splits }
        ensures rank { seat.new.rank ≡ seat.old.rank }
        ensures answer { slice_index seat.new.seen slot ≡ word_of result.0 result.1 }
        ensures shut { (life : ℕ) → 8 * life < slice_index seat.old.seen slot → IsOver life result.0 result.1 }
        ensures rule { Peeks (of_seat seat.old) slot (word_of result.0 result.1) (of_seat seat.new) }
    {
        let word = self.table.shared.load::<Peek>(&mut seat.seat, slot.index());
        words::reading(word)
    }
}
