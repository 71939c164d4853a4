// What holds of every note, and of every session.
ghost use Rattle.avs_code.specs.Rules.{OneSpelling};
ghost use Rattle.avs_sync.specs.Machine.{BeginsAlike, PlacesAlike, MarksAlike, LearnsAlike, LeavesAlike};
ghost use Rattle.avs_sync.specs.Note.{IsNote};

/// A law: 64 bytes stand for one note, and a note has one such spelling. It makes no call.
pub fn one_spelling()
    ensures { OneSpelling IsNote }
{}

/// A law: the session of a half of the machine of two halves goes on as the half does: after a step of the half it is what
/// the call of that step makes of it. It makes no call.
pub fn goes_on_as_its_half()
    ensures begins { BeginsAlike }
    ensures places { PlacesAlike }
    ensures marks { MarksAlike }
    ensures learns { LearnsAlike }
    ensures leaves { LeavesAlike }
{}
