//! What doorbell and mask do, bit by bit. Each function here does nothing: its clause is the law.

ghost use Rattle.bridge_regs.specs.Laws.{KeepsMasked, TakesUnmasked};

/// A bit is taken if and only if it is pending and not masked. Premise: both sets are numbers of 32 bits.
pub fn take_is_bit_by_bit()
    ensures { TakesUnmasked }
{}

/// A bit stays pending over a take if and only if it was pending and is masked. Premise: both sets are numbers of 32
/// bits.
pub fn masked_bits_stay()
    ensures { KeepsMasked }
{}
