ghost use Rattle.std.specs.Prelude.{◌≡◌};

/// A condition that refuses a command, besides `syntax` and `unended`, which the text alone decides. The names and their order are own.
#[derive(Clone, Copy, Debug, PartialEq, Eq)]
pub enum Condition {
    /// A complex that the command names is not held.
    NoName,
    /// As many names are held as may be.
    NamesFull,
    /// A number is no label.
    LabelRange,
    /// A simplex has a label twice.
    LabelTwice,
    /// A simplex would have too many labels.
    DimLimit,
    /// The complexes would be too large.
    SizeLimit,
    /// A complex is the void complex.
    Void,
    /// A complex is not pure.
    NotPure,
    /// A complex has too small a dimension for the command.
    DimRange,
    /// Two complexes have not the same dimension.
    DimDiffers,
    /// A simplex is no face.
    NotFace,
    /// A simplex is no facet.
    NotFacet,
    /// Pairs of labels are no one-to-one map of the vertices.
    NotMap,
    /// Two simplices have a label in common.
    Overlap,
    /// Two vertices that a handle would join are the ends of an edge, or have a neighbour in common.
    Near,
    /// The simplices of a flip have not as many labels as a flip wants.
    FlipSize,
    /// The star of a flip's first simplex is not as the flip wants it.
    FlipStar,
    /// A flip's second simplex is a face already.
    FlipPresent,
    /// A face is empty, or does not lie properly in exactly one face.
    NotFree,
    /// A simplex is a face already.
    IsFace,
    /// A number is not one that the command takes.
    Range,
    /// A matrix of Betti numbers would be too large.
    RankLimit,
    /// A walk of so many flips would be too large.
    Budget,
    /// The changes that are kept would be too large.
    JournalFull,
    /// There is nothing to undo.
    NoPast,
    /// There is nothing to redo.
    NoFuture,
}

impl Condition {
    ghost use Rattle.conditions.specs.Condition.{condition_name};

    /// The name that a refusal prints.
    pub fn name(self) -> &'static str
        ensures { result.now ≡ condition_name self }
    {
        match self {
            Condition::NoName => "no_name",
            Condition::NamesFull => "names_full",
            Condition::LabelRange => "label_range",
            Condition::LabelTwice => "label_twice",
            Condition::DimLimit => "dim_limit",
            Condition::SizeLimit => "size_limit",
            Condition::Void => "void",
            Condition::NotPure => "not_pure",
            Condition::DimRange => "dim_range",
            Condition::DimDiffers => "dim_differs",
            Condition::NotFace => "not_face",
            Condition::NotFacet => "not_facet",
            Condition::NotMap => "not_map",
            Condition::Overlap => "overlap",
            Condition::Near => "near",
            Condition::FlipSize => "flip_size",
            Condition::FlipStar => "flip_star",
            Condition::FlipPresent => "flip_present",
            Condition::NotFree => "not_free",
            Condition::IsFace => "is_face",
            Condition::Range => "range",
            Condition::RankLimit => "rank_limit",
            Condition::Budget => "budget",
            Condition::JournalFull => "journal_full",
            Condition::NoPast => "no_past",
            Condition::NoFuture => "no_future",
        }
    }
}
