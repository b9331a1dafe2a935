// What the rules of frames mean.
ghost use Rattle.ibos_kinds.specs.Datagrams.{BreaksNone, HasOneParts, AreRead, HasHeading};

/// A frame breaks no rule exactly where it is a datagram of some parts. These parts are unique, and
/// they are those that stand at the places where fields are read, as does the frame's heading.
pub fn frames_law()
    ensures sound { BreaksNone }
    ensures unique { HasOneParts }
    ensures read { AreRead }
    ensures heading { HasHeading }
{}
