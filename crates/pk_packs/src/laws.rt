// Laws of packs.

ghost use Rattle.pk_packs.specs.Laws.{PacksAreOfTheirEdges, EdgesHavePacks, EdgesLieBetweenMembers, InnerEdgesAreOuter, OnePackWithoutComponents, OneOctagonBounds};

/// A pack's variables are the first named scalars for which its edges ask.
pub fn packs_are_of_their_edges()
    ensures { PacksAreOfTheirEdges }
{}

/// An edge belongs to pack 0 exactly where it belongs to no other pack.
pub fn edges_have_packs()
    ensures { EdgesHavePacks }
{}

/// An edge lies in a component where both its ends are members.
pub fn edges_lie_between_members()
    ensures { EdgesLieBetweenMembers }
{}

/// An edge of a component belongs to the packs of the components around it too.
pub fn inner_edges_are_outer()
    ensures { InnerEdgesAreOuter }
{}

/// Without components there is one pack, of the variables of the one octagon.
pub fn one_pack_without_components()
    ensures { OnePackWithoutComponents }
{}

/// With one pack, of the variables of the one octagon, the bound on chains is that with one octagon.
pub fn one_octagon_bounds()
    ensures { OneOctagonBounds }
{}
