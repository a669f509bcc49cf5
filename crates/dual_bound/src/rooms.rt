//! Rooms for leaves besides the one at which columns are priced.
ghost use Rattle.std.specs.Prelude.{All, ◌≡◌, IfOk};
ghost use Rattle.offer_book.specs.Book.{BookContents};
ghost use Rattle.dual_bound.specs.Rooms.{AreKnown, IsRoom};
ghost use Rattle.dual_bound.specs.declared.tableau.Tableau.{Tableau as TableauOf};

use crate::leasts::Leasts;
use crate::tableau::{Priced, Tableau};
use escrow_desk::NoMemory;
use std::alloc::Global;
use std::mem::swap;

// How many worths of days and stops all rooms may hold: 8 MB, to which come 29 kB at most for the lines and prices of each.
const ROOM_WORTHS: usize = 500_000;

/// What is known at a leaf besides: what the days of a tableau are worth, and what each line was found to add.
#[derive(Drop)]
pub(crate) struct Room {
    /// The leaf, and what the days are worth at it.
    pub priced: Priced,
    /// What each line was found to add.
    pub leasts: Leasts,
}

/// Rooms, and the one from which comes what is known at the leaf of the tableau.
#[derive(Drop)]
pub(crate) struct Rooms {
    /// The rooms.
    pub rooms: Vec<Room>,
    /// The place of that one. It shows what to keep, and nothing rests on it.
    pub own: usize,
}

impl Room {
    // A room for what is known at the leaf of a tableau.
    fn of(alloc: Global, tableau: &Tableau, leasts: &Leasts) -> Result<Room, NoMemory>
        ensures { IfOk result (λ room. (book : BookContents) → AreKnown book tableau.now leasts.now → IsRoom book tableau.now room) }
    {
        Ok(Room {
            priced: tableau.priced.copy(alloc)?,
            leasts: leasts.copy(alloc)?,
        })
    }
}

impl Rooms {
    /// No rooms.
    pub(crate) fn none(alloc: Global) -> Rooms
        ensures { (book : BookContents) (tableau : TableauOf) → All (IsRoom book tableau) result.rooms.items }
    {
        Rooms {
            rooms: Vec::new(alloc),
            own: 0,
        }
    }

    // One room more, for what is known at the leaf of a tableau.
    fn add(&mut self, alloc: Global, tableau: &Tableau, leasts: &Leasts) -> Result<(), NoMemory>
        ensures { (book : BookContents) → AreKnown book tableau.now leasts.now → All (IsRoom book tableau.now) self.old.rooms.items → All (IsRoom book tableau.now) self.new.rooms.items }
    {
        let room = Room::of(alloc, tableau, leasts)?;
        self.rooms.push(room)?;
        Ok(())
    }

    /// So many rooms more, as far as there is memory, and while they aren't too large together.
    pub(crate) fn grow(&mut self, alloc: Global, tableau: &Tableau, leasts: &Leasts, count: u32)
        ensures { (book : BookContents) → AreKnown book tableau.now leasts.now → All (IsRoom book tableau.now) self.old.rooms.items → All (IsRoom book tableau.now) self.new.rooms.items }
    {
        let size = 1 + tableau.days.len() + tableau.series.stops.len();
        let most = ROOM_WORTHS / size;
        for _ in 0..(count as usize).min(most) {
            if self.add(alloc, tableau, leasts).is_err() {
                return;
            }
        }
    }

    // Exchanges what is known at the leaf of a tableau for what a room holds, where there is such a room.
    fn exchange(&mut self, place: usize, tableau: &mut Tableau, leasts: &mut Leasts)
        ensures frame { tableau.new ≡ record tableau.old { priced = tableau.new.priced } }
        ensures known { (book : BookContents) → AreKnown book tableau.old leasts.old → All (IsRoom book tableau.old) self.old.rooms.items → AreKnown book tableau.new leasts.new }
        ensures rooms { (book : BookContents) → AreKnown book tableau.old leasts.old → All (IsRoom book tableau.old) self.old.rooms.items → All (IsRoom book tableau.new) self.new.rooms.items }
    {
        if let Some(room) = self.rooms.get_mut(place) {
            swap(&mut room.priced, &mut tableau.priced);
            swap(&mut room.leasts, leasts);
        }
    }

    /// Goes over to what a room holds, where there is such a room; what was known goes to the room it came from.
    pub(crate) fn enter(&mut self, place: usize, tableau: &mut Tableau, leasts: &mut Leasts)
        ensures frame { tableau.new ≡ record tableau.old { priced = tableau.new.priced } }
        ensures known { (book : BookContents) → AreKnown book tableau.old leasts.old → All (IsRoom book tableau.old) self.old.rooms.items → AreKnown book tableau.new leasts.new }
        ensures rooms { (book : BookContents) → AreKnown book tableau.old leasts.old → All (IsRoom book tableau.old) self.old.rooms.items → All (IsRoom book tableau.new) self.new.rooms.items }
    {
        if place != self.own {
            self.exchange(self.own, tableau, leasts);
            self.exchange(place, tableau, leasts);
            self.own = place;
        }
    }
}
