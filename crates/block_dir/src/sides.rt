//! A seat is cut in two, and two seats are made one. Each side learns by a step on word 0 what it
//! then has.
ghost use Rattle.std.specs.Prelude.{◌≡◌, ℕ, ◌+◌, ◌/◌, ◌<◌, ◌≤◌, [], ◌++◌, max, true, false};
ghost use Rattle.block_dir.specs.Views.{kept, handed, joined, marks, share_of, handed_share};
ghost use Rattle.block_dir.specs.Calls.{view, seat_of, id_of, Agree};
ghost use Rattle.block_dir.specs.Rule.{Kept};

use crate::Part;
use crate::directory::Directory;
use crate::mark::Mark;
use crate::plays::{Both, Looks, Marks, Sides};
use crate::seat::DirSeat;
use crate::view::View;
use atomic_table::Seat;

impl Directory {
    // The next split hands these parts on, each share whole or by half.
    fn mark_all(&self, seat: &mut Seat<Mark, View>, parts: &[Part], half: bool)
        requires { seat.old.table_id ≡ id_of self.now }
        ensures { (seat.new.table_id ≡ seat.old.table_id) × (seat.new.id ≡ seat.old.id)
            × (seat.new.me ≡ (marks parts.now half seat.old.me.0, seat.old.me.1)) }
    {
        for part in parts {
            let mark = Mark { part: *part, half };
            self.table
                .shared
                .compare_exchange_with::<Marks>(seat, 0, 0, 0, &mark);
        }
    }

    /// A new seat. It gets all that the seat has of the hands, and half of its share of each name
    /// and word of the lends, rounded down; it drew nothing, has the same position and half of the
    /// weight, rounded down. The seat keeps the rest.
    ///
    /// The parts need not be held, and may meet: a place that is not held gives nothing, one in
    /// both lists is lent, and of a share of 1 a lend gives nothing.
    #[tactic(auto, using(crate::proofs::Fields::view_fields), unfolding(crate::specs::Views::kept, crate::specs::Views::handed))]
    pub fn split(&self, seat: &mut DirSeat, hands: &[Part], lends: &[Part]) -> DirSeat
        requires same { seat_of seat.old ≡ id_of self.now }
        requires weight { 2 ≤ (view seat.old).weight }
        ensures same { (seat_of seat.new ≡ seat_of seat.old) × (seat_of result ≡ seat_of seat.old) }
        ensures rule { Kept (view seat.new) × Kept (view result) }
        ensures shares { (p : ℕ)
            → (share_of p (view result) ≡ handed_share hands.now lends.now (view seat.old) p)
            × (share_of p (view seat.new) + share_of p (view result) ≡ share_of p (view seat.old)) }
        ensures left { view seat.new ≡ kept hands.now lends.now (view seat.old) }
        ensures right { view result ≡ handed hands.now lends.now (view seat.old) }

        // What the two sides have beside shares.
        ensures weights { ((view result).weight ≡ (view seat.old).weight / 2)
            × ((view seat.new).weight + (view result).weight ≡ (view seat.old).weight) }
        ensures positions { ((view result).position ≡ (view seat.old).position)
            × ((view seat.new).position ≡ (view seat.old).position) }
        ensures drawn { ((view result).drawn ≡ []) × ((view seat.new).drawn ≡ (view seat.old).drawn) }
    {
        self.mark_all(&mut seat.seat, hands, false);
        self.mark_all(&mut seat.seat, lends, true);
        let mut other = self.table.shared.split_seat::<Sides>(&mut seat.seat);
        self.table.shared.load::<Looks>(&mut seat.seat, 0);
        self.table.shared.load::<Looks>(&mut other, 0);
        DirSeat {
            seat: other,
            position: seat.position,
        }
    }

    /// The seat takes in the other: it holds what both held, with the shares added, at the greater
    /// position and with the sum of the weights, and the blocks that the other drew follow its own.
    #[tactic(auto, using(crate::proofs::Fields::view_fields, crate::proofs::Laws::share_joined))]
    pub fn join(&self, seat: &mut DirSeat, other: DirSeat)
        requires same { (seat_of seat.old ≡ id_of self.now) × (seat_of other ≡ id_of self.now) }
        ensures same { seat_of seat.new ≡ seat_of seat.old }
        ensures rule { Kept (view seat.new) }
        ensures joined { view seat.new ≡ joined (view seat.old) (view other) }

        // What both knew of one place was the same.
        ensures agree { Agree (view seat.old) (view other) }

        // What the seat then has.
        ensures shares { (p : ℕ) → share_of p (view seat.new) ≡ share_of p (view seat.old) + share_of p (view other) }
        ensures weight { (view seat.new).weight ≡ (view seat.old).weight + (view other).weight }
        ensures position { (view seat.new).position ≡ max (view seat.old).position (view other).position }
        ensures drawn { (view seat.new).drawn ≡ (view seat.old).drawn ++ (view other).drawn }
    {
        let DirSeat {
            seat: theirs,
            position,
        } = other;
        self.table.shared.join_seat::<Both>(&mut seat.seat, theirs);
        self.table.shared.load::<Looks>(&mut seat.seat, 0);
        if position > seat.position {
            seat.position = position;
        }
    }
}
