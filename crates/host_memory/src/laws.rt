//! What a write to memory does, address by address, and which ranges are promised with others. Each function here does
//! nothing: its clause is the law.

ghost use Rattle.host_memory.specs.Laws.{
  BothPromised,
  LengthStays,
  OldOutside,
  PartPromised,
  ReadsBack,
  ReadsElsewhere,
  StaysPromised,
  WordElsewhere,
  WordReadsBack,
  WrittenInside,
};

/// Inside a write each byte is the written one. Premise: the write lies in the memory.
pub fn written_inside()
    ensures { WrittenInside }
{}

/// Outside a write each byte is the old one. Premise: the write lies in the memory.
pub fn old_outside()
    ensures { OldOutside }
{}

/// A write leaves the memory's length. Premise: the write lies in the memory.
pub fn length_stays()
    ensures { LengthStays }
{}

/// A read at the place of a write gives what was written. Premise: the write lies in the memory.
pub fn reads_back()
    ensures { ReadsBack }
{}

/// A read that lies before or after a write gives what it gave before. Premise: the write lies in the memory.
pub fn reads_elsewhere()
    ensures { ReadsElsewhere }
{}

/// A word is read back as it was written. Premises: it has 32 bits, and its four bytes lie in the memory.
pub fn word_reads_back()
    ensures { WordReadsBack }
{}

/// A word that lies before or after a write is what it was before. Premise: the write lies in the memory.
pub fn word_elsewhere()
    ensures { WordElsewhere }
{}

/// Each part of a promised range is promised.
pub fn part_promised()
    ensures { PartPromised }
{}

/// A range is promised where its front and the rest are.
pub fn both_promised()
    ensures { BothPromised }
{}

/// What is promised stays promised where further pages are.
pub fn stays_promised()
    ensures { StaysPromised }
{}
