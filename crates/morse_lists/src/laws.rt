ghost use Rattle.morse_lists.specs.Greedy.{GreedyIsOne};
ghost use Rattle.morse_lists.specs.Laws.{FaultlessIsMorseList, MorseEuler, MorseInequalities, RankOfAnyOrder};

/// A list has no fault just where it is a Morse list.
pub fn faultless_is_morse_list()
    ensures { FaultlessIsMorseList }
{}

/// The Betti number of each dimension is at most the number of critical steps of that dimension (Forman).
pub fn morse_inequalities()
    ensures { MorseInequalities }
{}

/// The alternating sum of the numbers of critical steps is the Euler characteristic.
pub fn morse_euler()
    ensures { MorseEuler }
{}

/// The rank of the columns of faces does not depend on their order.
pub fn rank_of_any_order()
    ensures { RankOfAnyOrder }
{}

/// A complex has one greedy list at most.
pub fn greedy_is_one()
    ensures { GreedyIsOne }
{}
