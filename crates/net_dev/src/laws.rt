//! What holds of every Ethernet frame. The function here does nothing: its clause is the law.

ghost use Rattle.net_dev.specs.Laws.{FrameSaysItsParts};

/// Two frames with the same bytes have the same addresses, kind and payload, if each address has six bytes and each
/// kind is below 65,536. So what is decoded is what was encoded.
pub fn frame_says_its_parts()
    ensures { FrameSaysItsParts }
{}
