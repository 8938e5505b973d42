//! A row of the versions that headers carry.

use ring_geometry::ver_of;

/// Returns whether the version of an entry is the lowest 32 bits of its number.
pub fn versions_wrap() -> bool {
    ver_of(4_294_967_295) == 4_294_967_295
        && ver_of(4_294_967_296) == 0
        && ver_of(4_294_967_297) == 1
}
