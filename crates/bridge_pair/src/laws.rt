//! What stays promised while calls are made that promise nothing. Each function here does nothing: its clause is the
//! law.

ghost use Rattle.bridge_pair.specs.Laws.{
  LandingKeepsPromises,
  LinkStepsKeepPromises,
  OwnWritesKeepPromises,
  PostingUsesOnePromise,
};

/// A write that is posted uses one promise of its side, whether it is in flight then or lost. No other promise changes.
pub fn posting_uses_one_promise()
    ensures { PostingUsesOnePromise }
{}

/// A landing keeps all promises, whatever its answer: the pages of both memories and each side's room for writes.
pub fn landing_keeps_promises()
    ensures { LandingKeepsPromises }
{}

/// Each step of the link keeps all promises, also the drop of what is in flight and a side's clean.
pub fn link_steps_keep_promises()
    ensures { LinkStepsKeepPromises }
{}

/// What a side writes into its own memory, its book or its doorbell keeps all promises.
pub fn own_writes_keep_promises()
    ensures { OwnWritesKeepPromises }
{}
