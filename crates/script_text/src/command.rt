use plain_text::Name;
use simplex::{Lists, Numbers};

/// A command of a script. Its numbers keep the order and the repeats of the script.
#[derive(Debug, Drop)]
pub enum Command {
    /// `show lists`: the facets that the lists generate.
    Show {
        lists: Lists,
    },
    /// `N := maker`: the name holds what the maker makes.
    Make {
        name: Name,
        maker: Maker,
    },
    /// A question to the complex of the name.
    Ask {
        name: Name,
        question: Question,
    },
    /// A change of the complex of the name.
    Change {
        name: Name,
        edit: Edit,
    },
    /// `sphere X B SEED`: whether a walk of at most B flips shows that X is a sphere.
    Sphere {
        name: Name,
        budget: u64,
        seed: u64,
    },
    /// `equivalent X Y B SEED`: whether walks of at most B flips show that X and Y are equivalent under flips.
    Equivalent {
        left: Name,
        right: Name,
        budget: u64,
        seed: u64,
    },
    /// `manifold X B SEED`: whether a walk of at most B flips for each vertex shows that X is a manifold.
    Manifold {
        name: Name,
        budget: u64,
        seed: u64,
    },
}

/// What makes a complex.
#[derive(Debug, Drop)]
pub enum Maker {
    /// `lists`: the complex that they generate.
    Facets {
        lists: Lists,
    },
    /// `copy X`: the complex of X once more.
    Copy {
        of: Name,
    },
    /// `link X list`: the link of a face.
    Link {
        of: Name,
        face: Numbers,
    },
    /// `star X list`: the star of a face.
    Star {
        of: Name,
        face: Numbers,
    },
    /// `deletion X list`: the faces that do not contain a face.
    Deletion {
        of: Name,
        face: Numbers,
    },
    /// `boundary X`: the boundary of a pure complex.
    Boundary {
        of: Name,
    },
    /// `skeleton X K`: the faces with at most K + 1 labels.
    Skeleton {
        of: Name,
        k: u64,
    },
    /// `bdsimplex D`: the boundary of a simplex of dimension D.
    BdSimplex {
        d: u64,
    },
    /// `bdcross D`: the boundary of a cross polytope of dimension D.
    BdCross {
        d: u64,
    },
    /// `cyclic K N`: the boundary of a cyclic polytope of dimension K with N vertices.
    Cyclic {
        k: u64,
        n: u64,
    },
    /// `stacked D N SEED`: a stacked sphere of dimension D, after N flips that each split a facet.
    Stacked {
        d: u64,
        n: u64,
        seed: u64,
    },
    /// `join X Y`: their join.
    Join {
        left: Name,
        right: Name,
    },
    /// `cone X`: the join with a point.
    Cone {
        of: Name,
    },
    /// `suspension X`: the join with two points.
    Suspension {
        of: Name,
    },
    /// `sum X F Y G`: the connected sum along a facet of each.
    Sum {
        left: Name,
        left_facet: Numbers,
        right: Name,
        right_facet: Numbers,
    },
    /// `handle X F G`: the complex with a handle between two of its facets.
    Handle {
        of: Name,
        first: Numbers,
        second: Numbers,
    },
    /// `relabel X lists`: the complex with other labels, by pairs of an old and a new label.
    Relabel {
        of: Name,
        pairs: Lists,
    },
}

/// What is asked of a complex X.
#[derive(Debug, Drop)]
pub enum Question {
    /// `print X`: its facets.
    Print,
    /// `fvec X`: the numbers of its faces with 1, 2, .. labels.
    Fvec,
    /// `hvec X`: its h-vector.
    Hvec,
    /// `gvec X`: its g-vector.
    Gvec,
    /// `euler X`: its Euler characteristic.
    Euler,
    /// `faces X K`: its faces with K + 1 labels.
    Faces { k: u64 },
    /// `degree X list`: how many of its facets contain the face.
    Degree { face: Numbers },
    /// `options X`: the numbers of its allowed flips of class 0, 1, .. .
    Options,
    /// `options X K`: its allowed flips of class K.
    OptionsOf { class: u64 },
    /// `betti X`: its Betti numbers over the field of two elements.
    Betti,
    /// `components X`: the number of its connected components.
    Components,
    /// `closed X`: whether each of its ridges lies in exactly two facets.
    Closed,
    /// `strong X`: whether it is strongly connected.
    Strong,
}

/// What changes a complex X.
#[derive(Debug, Drop)]
pub enum Edit {
    /// `flip X A B`: the bistellar flip that takes out A and puts in B.
    Flip { a: Numbers, b: Numbers },
    /// `add X list`: one more simplex, with its faces.
    Add { face: Numbers },
    /// `drop X list`: one facet less; its other faces stay.
    Drop { face: Numbers },
    /// `collapse X list`: the elementary collapse from a free face.
    Collapse { face: Numbers },
    /// `reduce X B SEED`: to the goal of a walk of at most B flips, chosen by the words of the seed.
    Reduce { budget: u64, seed: u64 },
    /// `undo X`: back by one change.
    Undo,
    /// `redo X`: forth by one change that was undone.
    Redo,
}

/// Why bytes give no command.
#[derive(Clone, Copy, Debug, PartialEq, Eq)]
pub enum CommandFault {
    /// They are no command of the grammar.
    Syntax,
    /// Want of memory.
    Memory,
}
