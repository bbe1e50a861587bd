ghost use Rattle.betti_tables.specs.FlipLaws.{KeptRanksStay, RanksStayBelow};
ghost use Rattle.betti_tables.specs.Laws.{LimitIsTheLeast, RanksFit};

/// rank(k) and rank(k+1) are together at most f_k, since boundaries have no boundary (textbook).
pub fn ranks_fit()
    ensures { RanksFit }
{}

/// Ranks are refused just where a number of faces is above the limit, and the fault names the least dimension of these.
pub fn limit_is_the_least()
    ensures { LimitIsTheLeast }
{}

/// A flip leaves the faces with fewer labels than both of its sets, and so their ranks: after `keep_below` of that number each kept
/// rank is that of the complex after the flip.
pub fn ranks_stay_below()
    ensures ranks { RanksStayBelow }
    ensures kept { KeptRanksStay }
{}
