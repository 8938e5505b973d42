//! The laws that tie memories and ledger, each the clause of a function with an empty body. What memories show is
//! `memory_of` of `ledger_model`: each byte is the last one stored there, else 0.

ghost use Rattle.ledger_laws.specs.Readings.{BytesSayTheLedger, SitesAreTheLedger};
ghost use Rattle.ledger_laws.specs.StoredRings.{RingsStandInMemory};
ghost use Rattle.ledger_laws.specs.Separate.{MemoriesKeepPairsApart, StoredPairsAreSeparate};

/// The pair of a site, that is, of a pair with its memories, is the ledger's after the same steps. No premise.
pub fn sites_are_the_ledger()
    ensures { SitesAreTheLedger }
{}

/// After any steps, the ring that the log leaves of a lane stands in memory. In the receiver's memory each slot's
/// payload and the fields of its header are read at their addresses, and in the sender's memory the index word at its.
///
/// Premises:
///
/// - The plan is one that a script can declare, and permits the steps.
/// - The lane's pair is one of the plan's. It is ordinary, that is, not declared `raw`, and the numbers of its two
///   sides agree.
/// - The queue is one of the two sides'.
pub fn rings_stand_in_memory()
    ensures { RingsStandInMemory }
{}

/// After any steps, the next one on an ordinary pair has the same outcome where it reads the bytes in memory as where
/// it reads the ledger. Premises: the plan is one that a script can declare, has the pair, and permits the next step
/// and those before it.
pub fn bytes_say_the_ledger()
    ensures { BytesSayTheLedger }
{}

/// What the memories of a pair show after a log is what the steps on that pair alone have stored: steps on other pairs
/// leave it. No premise: it holds on raw pairs too. It is the premise of `pairs_are_separate` of `ledger_laws`.
pub fn memories_keep_pairs_apart()
    ensures { MemoriesKeepPairsApart }
{}

/// If memories show what was stored, the answers to the steps on one pair are those of the list without the steps on
/// other pairs. No premise: it holds on raw pairs too.
pub fn stored_pairs_are_separate()
    ensures { StoredPairsAreSeparate }
{}
