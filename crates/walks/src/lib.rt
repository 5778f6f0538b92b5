// Walks from triangle to triangle on a surface: their portals, and what holds of their taut strings. Each call is a statement with its proof.
#![tactic(auto)]

ghost use Rattle.walks.specs.Laws.{WalkLaws, SleeveLaw, ExactlyOne, ShortestOfAll, BackLaw, EqualWalks, SameStringSameClass};

// Walks are joined, parted, reduced and walked back.
pub fn walks_stand()
    ensures { WalkLaws }
{}

// A walk without spurs between two terminals is a sleeve, and its runs are parts of fans.
pub fn sleeves_stand()
    ensures { SleeveLaw }
{}

// It has one taut string and no other.
pub fn exactly_one_stands()
    ensures { ExactlyOne }
{}

// No path of homotopic crossings is shorter than that string, under any gauge.
pub fn shortest_stand()
    ensures { ShortestOfAll }
{}

// Walked back, it has the same string read backwards.
pub fn ways_back_stand()
    ensures { BackLaw }
{}

// Two such walks with the same string are one.
pub fn equal_walks_stand()
    ensures { EqualWalks }
{}

// So the string tells the homotopy class.
pub fn same_class_stands()
    ensures { SameStringSameClass }
{}
