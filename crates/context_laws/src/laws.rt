//! Laws of entries. The functions do nothing; what they ensure is the law.

ghost use Rattle.context_laws.specs.Laws as entry_laws;

/// A mark at the top lends all entries.
pub fn lends_all()
    ensures { entry_laws.LendsAll }
{}

/// The places of the trail are those of the entries that went since the mark.
pub fn trail_goes()
    ensures { entry_laws.TrailGoes }
{}
