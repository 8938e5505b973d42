//! The laws of every log of a plan with switches, each the clause of a function with an empty body. A law holds of
//! every plan, every list of steps and whatever the memories show, but for the premises that its text names.

ghost use Rattle.ledger_laws.specs.NetworkLaws.{
  BridgesHaveALog,
  FramesComeInOrder,
  FramesComeOnce,
  HeadersStay,
  ItemsAgainWhereNoRoom,
  ItemsLinkDownWhereNotUp,
  LogGrowsByItems,
  LogReadsAsBridges,
  OriginsChangeNothing,
  PairsWithoutPortsAreSeparate,
  WaitingHaveHeaders,
};
ghost use Rattle.ledger_laws.specs.Paths.{PathsKeepOrder};

/// The frames of a path have the bytes that were accepted and delivered on the first of its lanes. They were delivered
/// on the last, and came by way of all of them. No origin stands twice, and origins rise by session and number.
/// Premise: the lanes' pairs are ordinary, that is, not declared `raw`.
pub fn paths_keep_order()
    ensures { PathsKeepOrder }
{}

/// The log, without what switches did alone, is the log of the steps that were made on bridges. So each law of a log of
/// bridges speaks of it. No premise.
pub fn bridges_have_a_log()
    ensures { BridgesHaveALog }
{}

/// What is read of a log (frames accepted and delivered, sessions, link, room, posted writes, device counters) is what
/// is read of its part on bridges. No premise.
pub fn log_reads_as_bridges()
    ensures { LogReadsAsBridges }
{}

/// One step more has one item more in the log, which the network before it gives, and the network changes by it alone.
/// No premise.
pub fn log_grows_by_items()
    ensures { LogGrowsByItems }
{}

/// In every log, what was delivered on a lane in a session is a prefix of what was accepted there, and both are
/// numbered from 0 on. Premise: the pair is ordinary.
pub fn frames_come_in_order()
    ensures { FramesComeInOrder }
{}

/// In every log no number of a lane and a session is delivered twice. Premise: the pair is ordinary.
pub fn frames_come_once()
    ensures { FramesComeOnce }
{}

/// An item that begins entries is answered `again` if and only if it isn't refused for another reason and the room is
/// less than it needs. An `xnext` that begins a frame is such an item. Premise: the pair is ordinary.
pub fn items_again_where_no_room()
    ensures { ItemsAgainWhereNoRoom }
{}

/// An item that needs the link is answered `linkdown` if and only if the link isn't up, and no other item is. The last
/// link step of the pair that wasn't refused says so, and the declaration where there is none. No premise.
pub fn items_link_down_where_not_up()
    ensures { ItemsLinkDownWhereNotUp }
{}

/// The items of the steps on a pair, those of switches aside, don't depend on the steps on other pairs. Premises: no
/// switch has a port on the pair, and what each pair's memories show depends on the steps on that pair alone.
pub fn pairs_without_ports_are_separate()
    ensures { PairsWithoutPortsAreSeparate }
{}

/// If each frame in a switch has its origin, each step is answered as where it is its bytes alone. The network is the
/// same then but for the origins. No premise.
pub fn origins_change_nothing()
    ensures { OriginsChangeNothing }
{}

/// Each frame that waits at a port has at least the 14 bytes of an Ethernet header. No premise.
pub fn waiting_have_headers()
    ensures { WaitingHaveHeaders }
{}

/// If each waiting frame of a network has at least 14 bytes, it is so after each step. No other premise.
pub fn headers_stay()
    ensures { HeadersStay }
{}
