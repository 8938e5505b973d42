//! The forwarding database of a switch.

ghost use Rattle.std.specs.Prelude.{◌≡◌, ◌↔◌, ◌<◌, [], length, IfOk, IfSome, IsTrue};
ghost use Rattle.pair_model.specs.Fdb.{is_multicast, learned_source, lookup, place_of};

use pair_model::Station;
use std::alloc::{AllocError, Global};
use std::marker::Model;

/// How many stations are known at most.
const MOST_STATIONS: usize = 256;

/// The stations that a switch knows, at most 256, each with the port on which it was seen last.
#[derive(Drop)]
pub struct Fdb {
    stations: Vec<Station>,
}

impl Fdb {
    /// No station, and room for all.
    ///
    /// # Errors
    ///
    /// [`AllocError`] if memory runs out.
    pub fn new(alloc: Global) -> Result<Fdb, AllocError>
        ensures { IfOk result (λ fdb. fdb ≡ []) }
    {
        Ok(Fdb {
            stations: Vec::with_capacity(alloc, MOST_STATIONS)?,
        })
    }

    /// Returns whether the same stations are known, in one order and on the same ports.
    pub fn is_same(&self, other: &Fdb) -> bool
        ensures { IsTrue result ↔ (self.now ≡ other.now) }
    {
        self.stations.as_slice() == other.stations.as_slice()
    }

    /// Returns a database of the same stations, with room for all.
    ///
    /// # Errors
    ///
    /// [`AllocError`] if memory runs out.
    pub fn copy_of(&self, alloc: Global) -> Result<Fdb, AllocError>
        ensures { IfOk result (λ copy. copy ≡ self.now) }
    {
        let mut stations = Vec::with_capacity(alloc, MOST_STATIONS)?;
        stations.extend_from_slice(&self.stations)?;
        Ok(Fdb { stations })
    }

    /// Returns the port on which a station was seen last, if it is known. It looks at each station.
    pub fn lookup(&self, address: &[u8; 6]) -> Option<u32>
        ensures { result ≡ lookup self.now address.now }
    {
        let place = place_of(self.stations.as_slice(), address)?;
        Some(self.stations[place].port)
    }

    /// Returns what [`Fdb::lookup`] will answer once the source of a frame from a port is learned.
    pub fn lookup_with(&self, source: &[u8; 6], port: u32, address: &[u8; 6]) -> Option<u32>
        ensures { result ≡ lookup (learned_source self.now port source.now) address.now }
    {
        if is_multicast(source) {
            return self.lookup(address);
        }
        if address.as_slice() != source.as_slice() {
            return self.lookup(address);
        }
        let has_room = self.stations.len() < MOST_STATIONS;
        match self.lookup(source) {
            Some(_) => Some(port),
            None if has_room => Some(port),
            None => None,
        }
    }

    /// A frame with this source came from a port. If the first byte of the address is odd, no station is learned. Else
    /// a known station gets the port, and a new one is added where fewer than 256 are known. It takes no memory.
    pub fn learn_source(&mut self, source: &[u8; 6], port: u32)
        ensures { self.new ≡ learned_source self.old port source.now }
    {
        if is_multicast(source) {
            return;
        }
        let station = Station {
            address: *source,
            port,
        };
        match place_of(self.stations.as_slice(), source) {
            Some(place) => self.stations[place] = station,
            None => {
                if self.stations.len() < MOST_STATIONS {
                    self.stations.push_reserved(station);
                }
            }
        }
    }
}

impl Model for Fdb {
    ghost use Rattle.std.specs.Prelude.{List, ◌≤◌};
    ghost use Rattle.std.specs.Vec.{vec_capacity, vec_len};
    ghost use Rattle.pair_model.specs.declared.Station.{Station};

    ghost Value = { List Station };

    ghost view = { λ fdb. fdb.stations.items };

    ghost invariant = { λ fdb. (vec_len fdb.stations ≤ 256) × (256 ≤ vec_capacity fdb.stations) };
}

// Returns the place of the station with this address.
fn place_of(stations: &[Station], address: &[u8; 6]) -> Option<usize>
    ensures value { result ≡ place_of stations.now address.now }
    ensures below { IfSome result (λ place. place < length stations.now) }
{
    for (place, station) in stations.iter().enumerate() {
        if address.as_slice() == station.address.as_slice() {
            return Some(place);
        }
    }
    None
}

/// Returns whether an address names a group of devices: whether its first byte is odd.
pub fn is_multicast(address: &[u8; 6]) -> bool
    ensures { result ≡ is_multicast address.now }
{
    address[0] % 2 == 1
}
