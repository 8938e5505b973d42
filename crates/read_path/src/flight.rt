//! What a side has in flight to its peer, and the room that is promised for more.

ghost use Rattle.std.specs.Prelude.{◌≡◌, ◌+◌, ◌-◌, ◌<◌, ◌≤◌, [], ◌∷◌, ◌++◌, length, remove, slice_get, option_map, take, IfNone, OnOk, OnErr, OnSome};
ghost use Rattle.std.specs.List.{list_all};
ghost use Rattle.order_rules.specs.Transactions.{may_overtake};
ghost use Rattle.read_path.specs.InFlight.{path_kind_of, path_may_land, parts_from};
ghost use Rattle.read_path.specs.Flights.{path_flying_of, nothing_flying};

use order_rules::{COMPLETION, READ_REQUEST, RELAXED, STRICT, full_table};
use std::alloc::{AllocError, Global};
use std::collections::VecDeque;
use std::marker::Model;
use step_kinds::limits::MOST_WRITE_BYTES;
use step_kinds::{Frame, InPlace, Items};

/// What travels from a side to its peer.
#[derive(Drop)]
pub enum InFlight {
    /// A posted write.
    Write {
        at: u32,
        bytes: InPlace<{ MOST_WRITE_BYTES }>,
        relaxed: bool,
    },
    /// A read request, with room for the bytes that it asks for.
    Request {
        number: u64,
        at: u32,
        room: Items<u8>,
    },
    /// A completion that isn't the last one of its read.
    Part {
        number: u64,
        part: u32,
    },
    /// The last completion of a read, with all its bytes.
    Last {
        number: u64,
        frame: Frame,
    },
}

impl InFlight {
    /// Returns the kind by which the table of order knows it.
    pub fn kind(&self) -> usize
        ensures value { result ≡ path_kind_of (path_flying_of self.now) }
        ensures small { result < 4 }
    {
        match self {
            InFlight::Write { relaxed: true, .. } => RELAXED,
            InFlight::Write { relaxed: false, .. } => STRICT,
            InFlight::Request { .. } => READ_REQUEST,
            InFlight::Part { .. } | InFlight::Last { .. } => COMPLETION,
        }
    }
}

/// What a side has in flight, the oldest first, and how many more are promised. Only [`Flight::promise`] takes memory.
#[derive(Drop)]
pub struct Flight {
    items: VecDeque<InFlight>,
    spare: usize,
}

impl Flight {
    /// Nothing in flight, and no room promised.
    pub fn new(alloc: Global) -> Flight
        ensures { result ≡ nothing_flying }
    {
        Flight {
            items: VecDeque::new(alloc),
            spare: 0,
        }
    }

    /// How much is in flight.
    pub fn len(&self) -> usize
        ensures { result ≡ length self.now.flying }
    {
        self.items.len()
    }

    /// Promises room for this many more, on top of those that are promised already. Returns an error if memory runs
    /// out, and then nothing changes.
    pub fn promise(&mut self, more: usize) -> Result<(), AllocError>
        ensures ok { OnOk result (self.new ≡ record self.old { spare = self.old.spare + more }) }
        ensures err { OnErr result (self.new ≡ self.old) }
    {
        let spare = self.spare.checked_add(more).ok_or(AllocError)?;
        self.items.reserve(spare)?;
        self.spare = spare;
        Ok(())
    }

    /// Gives back the promise of this many. This many have to be promised.
    pub fn give_back(&mut self, count: usize)
        requires { count ≤ self.old.spare }
        ensures { self.new ≡ record self.old { spare = self.old.spare - count } }
    {
        self.spare -= count;
    }

    /// Sends after all else, into room that was promised for at least one more.
    pub fn push(&mut self, item: InFlight)
        requires { 0 < self.old.spare }
        ensures { self.new ≡ record { flying = self.old.flying ++ path_flying_of item ∷ []; spare = self.old.spare - 1 } }
    {
        self.items.push_back_reserved(item);
        self.spare -= 1;
    }

    /// Returns whether what stands at this place may land: it stands there, and may pass each of those before it.
    pub fn may_land(&self, place: usize) -> bool
        ensures { result ≡ path_may_land self.now.flying place }
    {
        match self.items.get(place) {
            Some(item) => self.passes(item.kind(), place),
            None => false,
        }
    }

    /// Takes out what stands at this place, or answers `None` where nothing does. The room that it leaves isn't
    /// promised.
    pub fn take(&mut self, place: usize) -> Option<InFlight>
        ensures item { option_map path_flying_of result ≡ slice_get self.old.flying place }
        ensures rest { OnSome result (self.new ≡ record self.old { flying = remove self.old.flying place }) }
        ensures none { IfNone result (self.new ≡ self.old) }
    {
        self.items.remove(place)
    }

    /// Drops all that is in flight, and each promise.
    pub fn discard(&mut self)
        ensures { self.new ≡ nothing_flying }
    {
        self.items.clear();
        self.spare = 0;
    }

    /// Sends this many completions of a read, at most 3 and none of them the last, into room that was promised.
    pub fn push_parts(&mut self, number: u64, parts: usize)
        requires spare { parts ≤ self.old.spare }
        requires few { parts ≤ 3 }
        ensures { self.new ≡ record { flying = self.old.flying ++ parts_from number 0 parts; spare = self.old.spare - parts } }
    {
        for part in 0..parts {
            self.push(InFlight::Part {
                number,
                part: part as u32,
            });
        }
    }

    // Returns whether one of this kind may pass each of the first this many.
    fn passes(&self, kind: usize, count: usize) -> bool
        requires kind { kind < 4 }
        requires within { count ≤ length self.now.flying }
        ensures { result ≡ list_all (λ earlier. may_overtake kind (path_kind_of earlier)) (take count self.now.flying) }
    {
        let table = full_table();
        for place in 0..count {
            if !table.may_pass(kind, self.items[place].kind()) {
                return false;
            }
        }
        true
    }
}

impl Model for Flight {
    ghost use Rattle.read_path.specs.Flights.{FlightState, flight_seen, HasSpare};

    ghost Value = { FlightState };

    ghost view = { flight_seen };

    ghost invariant = { HasSpare };
}
