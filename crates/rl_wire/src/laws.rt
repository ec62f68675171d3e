//! Laws of the definitions: each is the contract of a function that does nothing.
ghost use Rattle.rl_wire.specs.Laws.{AttenuatedReferencesAreCaps};
ghost use Rattle.rl_wire.specs.Laws.{WhatGoesOutIsExported, ReferencesComeBack};
ghost use Rattle.rl_wire.specs.Laws.{ReferencesStayApart};

/// A reference with caveats from the wire behind its own is a reference with what was read of
/// these behind its own.
pub fn attenuated_references_are_caps()
    ensures { AttenuatedReferencesAreCaps }
{}

/// A reference that went out comes back as itself when its peer writes it, so that what a wire
/// reference names tells objects apart. In a valid state each embedded value holds a reference, and
/// a connection's exports are numbered so.
pub fn references_come_back()
    ensures exported { WhatGoesOutIsExported }
    ensures back { ReferencesComeBack }
    ensures apart { ReferencesStayApart }
{}
