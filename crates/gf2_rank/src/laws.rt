ghost use Rattle.gf2_rank.specs.Laws.{RankIsOfAnyOrder, RankIsThatOfThePlaces, RankIsWithinTheColumns, RankIsWithinTheRows, SpanHasTheSums};

/// A set is in the span of others exactly where it is the symmetric difference of a sublist.
pub fn span_has_the_sums()
    ensures { SpanHasTheSums }
{}

/// The rank of sets does not depend on their order.
pub fn rank_is_of_any_order()
    ensures { RankIsOfAnyOrder }
{}

/// The rank of sets is at most their number.
pub fn rank_is_within_the_columns()
    ensures { RankIsWithinTheColumns }
{}

/// The rank of sets is at most the number of rows that they have their members from.
pub fn rank_is_within_the_rows()
    ensures { RankIsWithinTheRows }
{}

/// Sets of simplices have the rank of the sets of their places in a list.
pub fn rank_is_that_of_the_places()
    ensures { RankIsThatOfThePlaces }
{}
