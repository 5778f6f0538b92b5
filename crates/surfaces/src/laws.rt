// Theorems about these surfaces, each on a contract so that its proof is asked for.
ghost use Rattle.surfaces.specs.Laws.{SheetsLawful, SheetCells, SheetTwins, SmallSheet, MirrorsLawful, MirroredTwice, BarsLawful, BarsBothSides, BarredAgain, RaysApart};

// Every perforated sheet is sound, its cells are well numbered, and its twins are the half-edges with exchanged ends.
pub fn sheets_stand()
    ensures lawful { SheetsLawful }
    ensures cells { SheetCells }
    ensures twins { SheetTwins }
    ensures small { SmallSheet }
{}

// A mirror image is sound, and mirrored twice a surface is the same again.
pub fn mirrors_stand()
    ensures lawful { MirrorsLawful }
    ensures twice { MirroredTwice }
{}

// A surface with bars is sound; a bar closes its portal from both sides and no other.
pub fn bars_stand()
    ensures lawful { BarsLawful }
    ensures sides { BarsBothSides }
    ensures again { BarredAgain }
{}

// Rays of a fan do not come round again.
pub fn fans_stand()
    ensures { RaysApart }
{}
