//! The pair that its options declare, and whether its numbers go together.

ghost use Rattle.std.specs.Prelude.{◌≡◌};
ghost use Rattle.pair_settings.specs.Settings as rules;

use crate::settings::{Setting, SideKey, is_same_scope};
use step_kinds::limits::MOST_MTU;
use step_kinds::{Name, PairPlan, Side, SidePlan};

/// The version of a side's transport where none is said.
const DEFAULT_VERSION: u32 = 4;
/// The queues of a side where none are said.
const DEFAULT_QUEUES: u32 = 1;
/// The windows that a side sends through where none are said.
const DEFAULT_WINDOWS: u32 = 1;
/// The bytes of each window that a side sends through where none are said.
const DEFAULT_SIZE: u32 = 65_536;

/// Returns whether the options have this one, whatever its number is.
pub fn has_setting(setting: Setting, settings: &[Setting]) -> bool
    ensures { result ≡ rules.has_setting setting settings.now }
{
    settings.iter().any(|other| setting.is_same(other))
}

/// Returns the number of an option of these sides, if it is given.
fn number_at(settings: &[Setting], key: SideKey, side: Option<Side>) -> Option<u32>
    ensures { result ≡ rules.setting_number_at key side settings.now }
{
    for setting in settings {
        if let Setting::OfSide {
            key: other,
            side: scope,
            number,
        } = *setting
        {
            if key.is_same(other) && is_same_scope(side, scope) {
                return Some(number);
            }
        }
    }
    None
}

/// Returns a side's number: its own key's, else the plain key's, else what it is where nothing is said.
fn side_number(settings: &[Setting], key: SideKey, side: Side, default: u32) -> u32
    ensures { result ≡ rules.side_number settings.now key side default }
{
    number_at(settings, key, Some(side))
        .or(number_at(settings, key, None))
        .unwrap_or(default)
}

/// Returns the largest transfer unit.
fn mtu_in(settings: &[Setting]) -> u32
    ensures { result ≡ rules.mtu_in settings.now }
{
    for setting in settings {
        if let Setting::Mtu { number } = *setting {
            return number;
        }
    }
    MOST_MTU
}

/// Returns the bytes of each window that a side sends through.
fn size_of(settings: &[Setting], side: Side) -> u32
    ensures { result ≡ rules.size_of settings.now side }
{
    side_number(settings, SideKey::Size, side, DEFAULT_SIZE)
}

/// One side of the pair.
fn side_with(settings: &[Setting], side: Side) -> SidePlan
    ensures { result ≡ rules.side_with settings.now side }
{
    let peer_size = size_of(settings, side.other());
    SidePlan {
        version: side_number(settings, SideKey::Version, side, DEFAULT_VERSION),
        queues: side_number(settings, SideKey::Queues, side, DEFAULT_QUEUES),
        windows: side_number(settings, SideKey::Windows, side, DEFAULT_WINDOWS),
        size: size_of(settings, side) as u64,
        cap: side_number(settings, SideKey::Cap, side, peer_size) as u64,
    }
}

/// Returns the pair that the options declare. Of options that are the same the first counts. If a side has no number of
/// its own, that of both sides counts.
///
/// If nothing is said, a side has version 4, one queue and one window of 65,536 bytes, its cap is the peer's size, and
/// the mtu is 65,536. The pair starts up, and is strict or raw, if an option says so. Each class is 0.
pub fn pair_with(name: Name, settings: &[Setting]) -> PairPlan
    ensures { result ≡ rules.pair_with name settings.now }
{
    PairPlan {
        name,
        a: side_with(settings, Side::A),
        b: side_with(settings, Side::B),
        mtu: mtu_in(settings),
        up: has_setting(Setting::Up, settings),
        strict: has_setting(Setting::Strict, settings),
        raw: has_setting(Setting::Raw, settings),
        class_a: [0; 16],
        class_b: [0; 16],
    }
}

/// Returns whether each side's windows fit the peer's memory.
fn sizes_fit(pair: &PairPlan) -> bool
    ensures { result ≡ rules.sizes_fit pair.now }
{
    pair.a.size <= pair.b.cap && pair.b.size <= pair.a.cap
}

/// Returns whether a handshake can bring up the two sides: both have version 4 or more, they have as many queues and
/// windows, and each side's windows fit the peer's memory.
pub fn agrees(pair: &PairPlan) -> bool
    ensures { result ≡ rules.agrees pair.now }
{
    pair.a.version >= 4
        && pair.b.version >= 4
        && pair.a.queues == pair.b.queues
        && pair.a.windows == pair.b.windows
        && sizes_fit(pair)
}

/// Returns whether the longer header of version 5 and four bytes have room in a slot.
fn has_room_for_header(pair: &PairPlan) -> bool
    ensures { result ≡ rules.has_room_for_header pair.now }
{
    pair.a.version != 5 && pair.b.version != 5 || pair.mtu >= 20
}

/// Returns whether the numbers of a pair go together. One side at least has version 4 or more, and where one has
/// version 5 the mtu is at least 20. The sides of a pair that starts up agree, and those of a raw pair fit each other's
/// memory.
pub fn goes_together(pair: &PairPlan) -> bool
    ensures { result ≡ rules.goes_together pair.now }
{
    (pair.a.version >= 4 || pair.b.version >= 4)
        && has_room_for_header(pair)
        && (!pair.up || agrees(pair))
        && (!pair.raw || sizes_fit(pair))
}
