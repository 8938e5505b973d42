//! How many frames of a lane there were in each session.

ghost use Rattle.std.specs.Prelude.{◌↔◌, ◌≡◌, ◌≢◌, ◌<◌, ◌≤◌, All, IfNone, IfOk, IfSome, IsTrue, OnErr, OnOk, ℕ, false, length, map, slice_index_or, true};
ghost use Rattle.fabric_core.specs.Same.{AreSameCounts, AreSameWhereCounted};
ghost use Rattle.fabric_core.specs.Sessions.{AreApart, AreUpTo, IsNowhere, IsPlaceOf, count_seen, no_count, nothing_tallied};
ghost use Rattle.fabric_rule.specs.Parts.{count_in, one_more};

use std::alloc::{AllocError, Global};
use std::marker::Model;
use step_kinds::limits::MOST_COUNT;

/// How many frames there were in one session.
#[derive(Clone, Copy)]
pub struct OfSession {
    pub session: u32,
    pub count: u64,
}

/// How many frames there were in each session, a session without frames left out. Room for one more is taken before it
/// is counted.
#[derive(Drop)]
pub struct SessionCounts {
    counts: Vec<OfSession>,
    most: u32,
    made: u64,
    has_room: bool,
}

impl SessionCounts {
    /// No frame in any session, and no room for one. It takes no memory.
    pub fn new(alloc: Global) -> SessionCounts
        ensures { result ≡ nothing_tallied }
    {
        SessionCounts {
            counts: Vec::new(alloc),
            most: 0,
            made: 0,
            has_room: false,
        }
    }

    /// Takes room for one more frame, in whichever session.
    ///
    /// # Errors
    ///
    /// [`AllocError`] from out of memory, or where 2^62 frames were counted, and then nothing changes.
    pub fn make_room(&mut self) -> Result<(), AllocError>
        ensures ok { OnOk result (self.new ≡ record self.old { has_room = true }) }
        ensures err { OnErr result (self.new ≡ self.old) }
    {
        if self.made >= MOST_COUNT {
            return Err(AllocError);
        }
        self.counts.reserve(1)?;
        self.has_room = true;
        Ok(())
    }

    /// Counts one more frame in a session. Room has to be there, and is used by it; it takes no memory.
    pub fn one_more(&mut self, session: u32)
        requires { self.old.has_room ≡ true }
        ensures counts { self.new.counts ≡ one_more self.old.counts session }
        ensures room { self.new.has_room ≡ false }
    {
        match place_of(&self.counts, self.most, session) {
            Some(place) => {
                let one = &mut self.counts[place];
                one.count += 1;
            }
            None => {
                self.counts.push_reserved(OfSession { session, count: 1 });
                self.most = self.most.max(session);
            }
        }
        self.made += 1;
        self.has_room = false;
    }

    /// Returns how many frames there were in a session.
    pub fn count_in(&self, session: u32) -> u64
        ensures { result ≡ count_in self.now.counts session }
    {
        match place_of(&self.counts, self.most, session) {
            Some(place) => self.counts[place].count,
            None => 0,
        }
    }
}

impl SessionCounts {
    /// Returns whether there were as many frames in each session.
    pub fn is_same(&self, other: &SessionCounts) -> bool
        ensures { IsTrue result ↔ AreSameCounts self.now.counts other.now.counts }
    {
        self.is_in(other) && other.is_in(self)
    }

    /// The same counts, with room for one more frame where there is room here.
    ///
    /// # Errors
    ///
    /// [`AllocError`] if memory runs out.
    pub fn copy_of(&self, alloc: Global) -> Result<SessionCounts, AllocError>
        ensures { IfOk result (λ copy. copy ≡ self.now) }
    {
        let len = self.counts.len();
        let room = if self.has_room { len + 1 } else { len };
        let mut counts = Vec::with_capacity(alloc, room)?;
        counts.extend_from_slice(&self.counts)?;
        Ok(SessionCounts {
            counts,
            most: self.most,
            made: self.made,
            has_room: self.has_room,
        })
    }

    // Returns whether each session that is counted here has as many frames there.
    fn is_in(&self, other: &SessionCounts) -> bool
        ensures { IsTrue result ↔ AreSameWhereCounted self.now.counts other.now.counts }
    {
        for one in &self.counts {
            if other.count_in(one.session) != one.count {
                return false;
            }
        }
        true
    }
}

impl Model for SessionCounts {
    ghost use Rattle.fabric_core.specs.Sessions.{Tallied};

    ghost Value = { Tallied };

    ghost use Rattle.fabric_core.specs.Counts.{IsTally, tallied_seen};

    ghost view = { tallied_seen };

    ghost invariant = { IsTally };
}

// Where a session is counted. Mostly that is at the end, if it is the last one, or nowhere, if it comes after all. Or
// it stands as many places after the first one as it comes after that, if each session between them has frames.
fn place_of(counts: &[OfSession], most: u32, session: u32) -> Option<usize>
    requires apart { AreApart (map count_seen counts.now) }
    requires most { AreUpTo (map count_seen counts.now) most }
    ensures found { IfSome result (λ place. IsPlaceOf (map count_seen counts.now) session place) }
    ensures none { IfNone result (IsNowhere (map count_seen counts.now) session (length counts.now)) }
{
    if session > most {
        return None;
    }
    if let Some(last) = counts.last()
        && last.session == session
    {
        return Some(counts.len() - 1);
    }
    if let Some(place) = place_by_number(counts, session) {
        return Some(place);
    }
    for (place, one) in counts.iter().enumerate() {
        if one.session == session {
            return Some(place);
        }
    }
    None
}

// Where a session is counted if each one from the first on is, in order.
fn place_by_number(counts: &[OfSession], session: u32) -> Option<usize>
    ensures { IfSome result (λ place. (place < length counts.now) × ((slice_index_or (map count_seen counts.now) place no_count).session ≡ session)) }
{
    let place = session.checked_sub(counts.first()?.session)? as usize;
    if counts.get(place)?.session == session {
        Some(place)
    } else {
        None
    }
}
