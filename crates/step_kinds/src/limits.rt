//! The limits of the surface: what a script may declare, and how much of it.
//!
//! Each constant is the number of the same name in `specs/Limits.antt`, which the clauses of [`constants_are_limits`]
//! say.

ghost use Rattle.std.specs.Prelude.{◌≡◌, ◌↔◌, IsTrue};
ghost use Rattle.step_kinds.specs.Limits.{
  IsClass,
  IsMtu,
  IsQueues,
  IsSize,
  IsWindows,
  least_mtu,
  least_ports,
  least_size,
  most_breaks,
  most_count,
  most_devices,
  most_frame_bytes,
  most_hosts,
  most_mtu,
  most_pairs,
  most_poke_bytes,
  most_ports,
  most_queues,
  most_script_bytes,
  most_sessions,
  most_size,
  most_steps,
  most_switches,
  most_threshold,
  most_traffic_bytes,
  most_traffic_entries,
  most_traffic_frames,
  most_windows,
  most_write_bytes,
  size_step,
  traffic_classes,
};

/// The most hosts of a script.
pub const MOST_HOSTS: usize = 16;
/// The most pairs of hosts of a script.
pub const MOST_PAIRS: usize = 16;
/// The most network devices of a script.
pub const MOST_DEVICES: usize = 64;
/// The most switches of a script.
pub const MOST_SWITCHES: usize = 16;
/// The fewest ports of a switch.
pub const LEAST_PORTS: usize = 2;
/// The most ports of a switch.
pub const MOST_PORTS: usize = 16;
/// The most queues of a side. Each side has at least one.
pub const MOST_QUEUES: u32 = 16;
/// The most translation windows of a side. Each side has at least one.
pub const MOST_WINDOWS: u32 = 4;
/// The fewest bytes of a window, and of the largest window that a memory gives.
pub const LEAST_SIZE: u64 = 4096;
/// The most bytes of a window, and of the largest window that a memory gives: 256 MiB.
pub const MOST_SIZE: u64 = 268_435_456;
/// Sizes in bytes of windows are multiples of this.
pub const SIZE_STEP: u64 = 4096;
/// The smallest MTU of a pair, in bytes.
pub const LEAST_MTU: u32 = 16;
/// The largest MTU of a pair, in bytes.
pub const MOST_MTU: u32 = 65_536;
/// The most bytes of a script: 16 MiB.
pub const MOST_SCRIPT_BYTES: usize = 16_777_216;
/// The most steps of a script, each macro replaced by its steps.
pub const MOST_STEPS: usize = 1_000_000;
/// The most bytes of a frame.
pub const MOST_FRAME_BYTES: u32 = 65_536;
/// The most bytes of one write in flight.
pub const MOST_WRITE_BYTES: usize = 128;
/// The largest threshold of a device.
pub const MOST_THRESHOLD: u32 = 65_535;
/// The most bytes that a step writes past the transport.
pub const MOST_POKE_BYTES: usize = 128;
/// The most link sessions of a pair.
pub const MOST_SESSIONS: u32 = 65_535;
/// The most frames of the traffic of a script.
pub const MOST_TRAFFIC_FRAMES: usize = 100_000;
/// The most bytes of the frames of the traffic of a script: 64 MiB.
pub const MOST_TRAFFIC_BYTES: u64 = 67_108_864;
/// The most link losses of one pair beside its traffic.
pub const MOST_BREAKS: u32 = 100;
/// The most entries of the ring of a lane with traffic.
pub const MOST_TRAFFIC_ENTRIES: u32 = 65_535;
/// How many traffic classes there are: a class is a number below this (PCI Express Base 4.0, section 2.4, has eight).
pub const TRAFFIC_CLASSES: u32 = 8;
/// How far anything is counted that no other limit holds down: frames and entries of a ring, and bytes of a device.
pub const MOST_COUNT: u64 = 1 << 62;

/// Returns whether a side may have this many queues: 1 to 16.
pub fn is_queues(queues: u32) -> bool
    ensures { IsTrue result ↔ IsQueues queues }
{
    1 <= queues && queues <= MOST_QUEUES
}

/// Returns whether a side may have this many translation windows: 1 to 4.
pub fn is_windows(windows: u32) -> bool
    ensures { IsTrue result ↔ IsWindows windows }
{
    1 <= windows && windows <= MOST_WINDOWS
}

/// Returns whether a window may have this many bytes: 4,096 to 268,435,456 in steps of 4,096.
pub fn is_size(bytes: u64) -> bool
    ensures { IsTrue result ↔ IsSize bytes }
{
    LEAST_SIZE <= bytes && bytes <= MOST_SIZE && bytes % SIZE_STEP == 0
}

/// Returns whether the largest transfer unit of a pair may be this many bytes: 16 to 65,536.
pub fn is_mtu(bytes: u32) -> bool
    ensures { IsTrue result ↔ IsMtu bytes }
{
    LEAST_MTU <= bytes && bytes <= MOST_MTU
}

/// Returns whether the number is a traffic class: 0 to 7.
pub fn is_class(number: u32) -> bool
    ensures { IsTrue result ↔ IsClass number }
{
    number < TRAFFIC_CLASSES
}

/// The constants of this module are the limits. It does nothing: its clauses are the law.
pub fn constants_are_limits()
    ensures hosts { MOST_HOSTS ≡ most_hosts }
    ensures pairs { MOST_PAIRS ≡ most_pairs }
    ensures devices { MOST_DEVICES ≡ most_devices }
    ensures switches { MOST_SWITCHES ≡ most_switches }
    ensures few_ports { LEAST_PORTS ≡ least_ports }
    ensures many_ports { MOST_PORTS ≡ most_ports }
    ensures queues { MOST_QUEUES ≡ most_queues }
    ensures windows { MOST_WINDOWS ≡ most_windows }
    ensures least_window { LEAST_SIZE ≡ least_size }
    ensures most_window { MOST_SIZE ≡ most_size }
    ensures window_step { SIZE_STEP ≡ size_step }
    ensures least_unit { LEAST_MTU ≡ least_mtu }
    ensures most_unit { MOST_MTU ≡ most_mtu }
    ensures script { MOST_SCRIPT_BYTES ≡ most_script_bytes }
    ensures steps { MOST_STEPS ≡ most_steps }
    ensures frame { MOST_FRAME_BYTES ≡ most_frame_bytes }
    ensures write { MOST_WRITE_BYTES ≡ most_write_bytes }
    ensures threshold { MOST_THRESHOLD ≡ most_threshold }
    ensures poke { MOST_POKE_BYTES ≡ most_poke_bytes }
    ensures sessions { MOST_SESSIONS ≡ most_sessions }
    ensures traffic_frames { MOST_TRAFFIC_FRAMES ≡ most_traffic_frames }
    ensures traffic_bytes { MOST_TRAFFIC_BYTES ≡ most_traffic_bytes }
    ensures breaks { MOST_BREAKS ≡ most_breaks }
    ensures traffic_entries { MOST_TRAFFIC_ENTRIES ≡ most_traffic_entries }
    ensures classes { TRAFFIC_CLASSES ≡ traffic_classes }
    ensures counts { MOST_COUNT ≡ most_count }
{}
