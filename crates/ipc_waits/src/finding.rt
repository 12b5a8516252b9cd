// Each function is a theorem: it does nothing, and its contract holds of every history.
ghost use Rattle.ipc_waits.specs.FindingLaws.{QuietCoversAt, EntryCoversAt, RulesAt, SourceIsSender};

/// Places that cover the next output are kept by adding those of the calls that an entry touches.
pub fn places_are_kept()
    ensures quiet { QuietCoversAt }
    ensures entry { EntryCoversAt }
{}

/// What the rules give is of a call at one of the places.
pub fn rules_ask_places()
    ensures rules { RulesAt }
    ensures source { SourceIsSender }
{}
