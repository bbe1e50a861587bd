ghost use Rattle.std.specs.Prelude.{ℕ, List};
ghost use Rattle.facet_set.specs.ClassLaws.{ClassChains, ClassMembers};
ghost use Rattle.facet_set.specs.FaceLaws.{GeneratedMembers, GeneratedFaces, AllFaces, KnownByFaces, FamilyFaces, LinkFaces};
ghost use Rattle.facet_set.specs.FlipsBack.{FlipsBack};
ghost use Rattle.facet_set.specs.FreshLaws.{FreshIsLeast};
ghost use Rattle.facet_set.specs.OptionLaws.{OptionMembers, OptionsIncrease};

/// What a list generates are its members that lie properly in no other.
pub fn generated_members()
    ensures { GeneratedMembers }
{}

/// What a list generates is a complex, and has the faces of the list.
pub fn generated_faces()
    ensures { GeneratedFaces }
{}

/// The list of all faces has just the simplices that lie in a facet.
pub fn all_faces()
    ensures { AllFaces }
{}

/// A complex is known by its faces.
pub fn known_by_faces()
    ensures { KnownByFaces }
{}

/// The faces that pass a test which is closed below are the faces of the complex of their maximal members.
pub fn family_faces()
    ensures { FamilyFaces }
{}

/// The faces of a link.
pub fn link_faces()
    ensures { LinkFaces }
{}

/// Two members are in one class exactly where a chain joins them.
pub fn class_chains()
    ensures labels { ClassChains ℕ }
    ensures facets { ClassChains (List ℕ) }
{}

/// No class is empty, and no member stands in two classes or twice in one.
pub fn class_members()
    ensures labels { ClassMembers ℕ }
    ensures facets { ClassMembers (List ℕ) }
{}

/// Where a bistellar flip is allowed, so is its inverse after it, and that leads back (Pachner).
pub fn flips_back()
    ensures { FlipsBack }
{}

/// The options of a class are its allowed flips, in the order of the sets that go out.
pub fn option_flips()
    ensures members { OptionMembers }
    ensures order { OptionsIncrease }
{}

/// The fresh label is the least one that is no vertex, and there is none exactly where each label is a vertex.
pub fn fresh_is_least()
    ensures { FreshIsLeast }
{}
