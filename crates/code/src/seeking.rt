ghost use Rattle.code.specs.Sought.{FindsNone, FindsPassing, FindsOnly};

// That seeking among all words finds what there is: nothing exactly when no word passes, else a word that passes,
// and the one that passes where there is just one.
pub fn seeking_finds()
    ensures none { FindsNone }
    ensures passing { FindsPassing }
    ensures only { FindsOnly }
{}
