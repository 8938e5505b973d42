//! What the answers of a queue have to do with one another. Each function here does nothing: its clause is the law.

ghost use Rattle.queue_pair.specs.Laws.{RefusesWhereBeginWould};

/// Whatever queue, pair and length: [`crate::QueuePair::refuses`] is true if and only if [`crate::QueuePair::begin`]
/// answers `LinkDown`, `NotReady`, `Closed`, `TooLong` or `Busy`, and so false where it answers `Ok` or `NoRoom`.
pub fn refuses_where_begin_would()
    ensures { RefusesWhereBeginWould }
{}
