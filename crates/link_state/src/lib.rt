//! The link of a pair: its state, the number of its session, and which sides have enabled it and are clean.
//!
//! The call that enables a link, and the event that tells of its loss, are those of Linux `include/linux/ntb.h`.
//! Sessions and the clean bit of a side are this project's own. A link that was lost comes up again only after both
//! sides have forgotten the session, and then in the next session. No call takes memory, and a refused call changes
//! nothing.
#![tactic(auto)]

ghost use Rattle.std.specs.Prelude.{IfErr, IfOk, OnOk, ◌≡◌, ◌≢◌, ◌≤◌};
ghost use Rattle.std.specs.Result.{result_err};
ghost use Rattle.step_kinds.specs.Limits.{most_sessions};
ghost use Rattle.pair_model.specs.Both.{at_side, with_side};
ghost use Rattle.pair_model.specs.Link.{
  clean_refusal,
  cleaned_link,
  cut_link,
  cut_refusal,
  drop_refusal,
  dropped_link,
  enable_refusal,
  enabled_link,
  fresh_link,
  link_after,
  train_refusal,
  trained_link,
};

pub use pair_model::{LinkRefusal, LinkState};
use std::marker::Model;
use step_kinds::Side;
use step_kinds::limits::MOST_SESSIONS;

mod flags;

use flags::Flags;

/// The link of one pair. Contracts see its state, the number of its session, and for each side whether it has enabled
/// the link and whether it is clean.
#[derive(Clone, Copy, Debug, PartialEq, Eq)]
pub struct Link {
    state: LinkState,
    session: u32,
    enabled: Flags,
    clean: Flags,
}

impl Link {
    /// Returns the link of a pair before any step. It is down, with no session yet and enabled by no side, or, if `up`
    /// holds, up in session 1 and enabled by both sides. Both sides are clean.
    pub fn fresh(up: bool) -> Link
        ensures { result ≡ fresh_link up }
    {
        Link {
            state: if up { LinkState::Up } else { LinkState::Down },
            session: if up { 1 } else { 0 },
            enabled: Flags::both(up),
            clean: Flags::both(true),
        }
    }

    /// Returns whether the link is down, up or closing.
    pub fn state(&self) -> LinkState
        ensures { result ≡ self.now.state }
    {
        self.state
    }

    /// Returns the number of the session, from 1 to 65,535, and 0 before the first. It stays when the link is lost.
    pub fn session(&self) -> u32
        ensures value { result ≡ self.now.session }
        ensures numbered { result ≤ most_sessions }
    {
        self.session
    }

    /// Returns whether the side has enabled the link. Both sides have where it is up from the start, and neither has
    /// after [`Link::drop_done`].
    pub fn enabled(&self, side: Side) -> bool
        ensures { result ≡ at_side self.now.enabled side }
    {
        self.enabled.at(side)
    }

    /// The side agrees to bring the link up (`ntb_link_enable`). A second call changes nothing.
    ///
    /// # Errors
    ///
    /// [`LinkRefusal::NotDown`] where the link isn't down, and else [`LinkRefusal::Dirty`] where the side is not
    /// clean.
    pub fn enable(&mut self, side: Side) -> Result<(), LinkRefusal>
        ensures refusal { result_err result ≡ enable_refusal self.old side }
        ensures after { self.new ≡ link_after (enable_refusal self.old side) self.old (enabled_link self.old side) }
    {
        self.is_in(LinkState::Down, LinkRefusal::NotDown)?;
        if !self.clean.at(side) {
            return Err(LinkRefusal::Dirty);
        }
        self.enabled.set(side);
        Ok(())
    }

    /// The link comes up in the next session, whose number this answers.
    ///
    /// # Errors
    ///
    /// [`LinkRefusal::NotDown`] where the link isn't down, else [`LinkRefusal::NotEnabled`] where a side has not
    /// enabled it, and else [`LinkRefusal::SessionsSpent`] where 65,535 sessions were used.
    pub fn train(&mut self) -> Result<u32, LinkRefusal>
        ensures refusal { result_err result ≡ train_refusal self.old }
        ensures after { self.new ≡ link_after (train_refusal self.old) self.old (trained_link self.old) }
        ensures session { IfOk result (λ session. session ≡ self.new.session) }
    {
        self.is_in(LinkState::Down, LinkRefusal::NotDown)?;
        if !(self.enabled.at(Side::A) && self.enabled.at(Side::B)) {
            return Err(LinkRefusal::NotEnabled);
        }
        if self.session == MOST_SESSIONS {
            return Err(LinkRefusal::SessionsSpent);
        }
        self.state = LinkState::Up;
        self.session += 1;
        Ok(self.session)
    }

    /// The link is lost: it is closing, and what is in flight may still land until [`Link::drop_done`]. The session's
    /// number stays.
    ///
    /// # Errors
    ///
    /// [`LinkRefusal::NotUp`] where the link isn't up.
    pub fn cut(&mut self) -> Result<(), LinkRefusal>
        ensures refusal { result_err result ≡ cut_refusal self.old }
        ensures after { self.new ≡ link_after (cut_refusal self.old) self.old (cut_link self.old) }
    {
        self.is_in(LinkState::Up, LinkRefusal::NotUp)?;
        self.state = LinkState::Closing;
        Ok(())
    }

    /// Nothing of the lost session is in flight any more: the link is down, no side has enabled it, and neither is
    /// clean.
    ///
    /// # Errors
    ///
    /// [`LinkRefusal::NotClosing`] where the link isn't closing.
    pub fn drop_done(&mut self) -> Result<(), LinkRefusal>
        ensures refusal { result_err result ≡ drop_refusal self.old }
        ensures after { self.new ≡ link_after (drop_refusal self.old) self.old (dropped_link self.old) }
    {
        self.is_in(LinkState::Closing, LinkRefusal::NotClosing)?;
        self.state = LinkState::Down;
        self.enabled = Flags::both(false);
        self.clean = Flags::both(false);
        Ok(())
    }

    /// Returns whether the side is clean: no session was dropped yet, or it has forgotten the one that was dropped
    /// last.
    pub fn clean(&self, side: Side) -> bool
        ensures { result ≡ at_side self.now.clean side }
    {
        self.clean.at(side)
    }

    /// The side has forgotten the lost session: it is clean, and may enable the link again. A second call changes
    /// nothing.
    ///
    /// # Errors
    ///
    /// [`LinkRefusal::NotDown`] where the link isn't down.
    pub fn cleaned(&mut self, side: Side) -> Result<(), LinkRefusal>
        ensures refusal { result_err result ≡ clean_refusal self.old }
        ensures after { self.new ≡ link_after (clean_refusal self.old) self.old (cleaned_link self.old side) }
    {
        self.is_in(LinkState::Down, LinkRefusal::NotDown)?;
        self.clean.set(side);
        Ok(())
    }

    // Refuses, with this refusal, if the link is in another state.
    fn is_in(&self, state: LinkState, refusal: LinkRefusal) -> Result<(), LinkRefusal>
        ensures ok { OnOk result (self.now.state ≡ state) }
        ensures err { IfErr result (λ given. (given ≡ refusal) × (self.now.state ≢ state)) }
    {
        if self.state == state {
            Ok(())
        } else {
            Err(refusal)
        }
    }
}

impl Model for Link {
    ghost use Rattle.pair_model.specs.Link.{Link as PairLink};

    ghost Value = { PairLink };

    ghost use Rattle.link_state.specs.LinkFields.{IsNumbered, link_inside_of, link_of};

    ghost view = { link_of };

    ghost invariant = { IsNumbered };

    ghost inverse = { link_inside_of };
}
