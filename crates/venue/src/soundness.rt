// Soundness of a market: one test has all that is kept. Each function's contract is a statement of specs/Statements.antt.
ghost use Rattle.venue.specs.Statements.{SoundExact, SoundFirst, SoundSays, SoundSafe};

// The test of a market passes exactly the markets that have all the facts that are kept.
pub fn test_is_exact()
    ensures { SoundExact }
{}

// Every first market passes it, whatever the limits.
pub fn first_is_sound()
    ensures { SoundFirst }
{}

// Every message keeps it.
pub fn messages_keep_sound()
    ensures { SoundSays }
{}

// A sound market is safe: nobody's money is below 0, everybody is covered, and money and holdings add up.
pub fn sound_is_safe()
    ensures { SoundSafe }
{}
