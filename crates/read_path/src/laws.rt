//! The laws of reads.

ghost use Rattle.read_path.specs.Laws.{EachReadHasPushed, ReadsAreNumbered, RequestsLandOnce};

/// In the log of any steps, each read has pushed the posted writes before it. Three things are so where `data N`
/// stands:
///
/// - Each write that its side had posted before `read N` in that session landed before `landed read N`.
/// - Each write that the peer had posted before `landed read N` in that session landed before `data N`.
/// - The bytes are what the peer's memory held at `landed read N`.
///
/// No premise.
pub fn each_read_has_pushed()
    ensures { EachReadHasPushed }
{}

/// In the log of any steps, the number of a read is how many reads its side made before, in all sessions. So a side has
/// one `read N` at most for each N. No premise.
pub fn reads_are_numbered()
    ensures { ReadsAreNumbered }
{}

/// In the log of any steps, the request of a read lands once at most: so a side has one `landed read N` at most for
/// each N. No premise.
pub fn requests_land_once()
    ensures { RequestsLandOnce }
{}
