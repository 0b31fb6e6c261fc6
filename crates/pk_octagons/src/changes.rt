// A variable assigned, and a guard passed, in each octagon that is over their variables; and the least bound on two variables.

ghost use Rattle.std.specs.Prelude.{◌≡◌, ◌<◌, ◌*◌, ◌+◌, ◌%◌, ◌/◌, ◌^◌, true, Some, IfOk, OnOk, IfSome, length, map, slice_set};
ghost use Rattle.pk_octmat.specs.Bounds.{lesser as lesser_of};
ghost use Rattle.pk_octmat.specs.Octagon.{entry};
ghost use Rattle.pk_octops.specs.Guards.{IsGuard, guard_of};
ghost use Rattle.pk_octagons.specs.Octagons.{octagon_at, widths};
ghost use Rattle.pk_octagons.specs.Packs.{is_over as has_each, is_some_over as has_each_somewhere, side_in, side_over as side_where_over, side_of};
ghost use Rattle.pk_octagons.specs.Changes.{then_with, or_else, changed_at, AreTerms, assigned_octagons, guarded_octagons, each_changed, bounded_in, related_in, bound_by, bound_in as least_bound};

use crate::marked::Marked;
use crate::octagons::Octagons;
use crate::packs::{Pack, Place, PlacedPacks};
use std::alloc::{AllocError, Global};

// The place of V(t) in an octagon over the pack's variables.
fn side(pack: &Pack, t: usize) -> Option<u32>
    requires { length pack.now < 2 ^ 31 }
    ensures value { result ≡ side_in pack.now t }
    ensures there { IfSome result (λ i. i < 2 * length pack.now) }
{
    match pack.place(t / 2) {
        None => None,
        Some(k) => Some((2 * k + t % 2) as u32),
    }
}

// Whether a pack has each of these variables.
fn is_over(pack: &Pack, over: &[usize]) -> bool
    ensures { result ≡ has_each over.now pack.now }
{
    for i in 0..over.len() {
        if pack.place(over[i]).is_none() {
            return false;
        }
    }
    true
}

// Whether one of the packs does.
fn is_some_over(packs: &PlacedPacks, over: &[usize]) -> bool
    ensures { result ≡ has_each_somewhere over.now packs.now }
{
    for p in 0..packs.count() {
        if is_over(packs.pack(p), over) {
            return true;
        }
    }
    false
}

// The place of V(t), in a pack that has each of these variables.
fn side_over(pack: &Pack, over: &[usize], t: usize) -> Option<u32>
    requires { length pack.now < 2 ^ 31 }
    ensures value { result ≡ side_where_over over.now pack.now t }
    ensures there { IfSome result (λ i. i < 2 * length pack.now) }
{
    if is_over(pack, over) {
        side(pack, t)
    } else {
        None
    }
}

// The place of V(t), if there is one.
fn side_if(pack: &Pack, over: &[usize], term: Option<usize>) -> Option<u32>
    requires { length pack.now < 2 ^ 31 }
    ensures value { result ≡ then_with term (side_where_over over.now pack.now) }
    ensures there { IfSome result (λ i. i < 2 * length pack.now) }
{
    match term {
        None => None,
        Some(t) => side_over(pack, over, t),
    }
}

// The place of V(t) in an octagon where its variable has place k.
fn side_at(k: u32, t: usize) -> u32
    requires { k < 2 ^ 31 }
    ensures { result ≡ side_of t k }
{
    2 * k + (t % 2) as u32
}

// Variable x gets V(term) + c, or any number.
fn assign_all(
    alloc: Global,
    all: &mut Vec<Marked>,
    packs: &PlacedPacks,
    x: usize,
    term: Option<usize>,
    c: i128,
    over: &[usize],
) -> Result<(), AllocError>
    requires { widths all.old.items ≡ map length packs.now }
    ensures { OnOk result (all.new.items ≡ assigned_octagons packs.now all.old.items x term c over.now) }
{
    let places = packs.places(x);
    for i in 0..places.len() {
        let place = places[i];
        let side = side_if(packs.pack(place.pack), over, term);
        all[place.pack] = all[place.pack].assigned(alloc, place.place, side, c)?;
    }
    Ok(())
}

// Another octagon in place of one, if there is another.
fn put_if(all: &mut Vec<Marked>, p: usize, octagon: Option<Marked>)
    requires { p < length all.old.items }
    ensures { all.new.items ≡ slice_set all.old.items p (or_else (octagon_at all.old.items p) octagon) }
{
    match octagon {
        None => {}
        Some(octagon) => {
            all[p] = octagon;
        }
    }
}

// In one octagon V(i) + V(j) is at most c, or V(i) alone.
fn guard_one(
    alloc: Global,
    all: &mut Vec<Marked>,
    p: usize,
    i: u32,
    j: Option<u32>,
    c: i128,
) -> Result<(), AllocError>
    requires octagon { p < length all.old.items }
    requires terms { IsGuard (octagon_at all.old.items p).vars (Some i) j }
    ensures { OnOk result (all.new.items ≡ slice_set all.old.items p
        (or_else (octagon_at all.old.items p) (guard_of (octagon_at all.old.items p) (Some i) j c))) }
{
    let octagon = all[p].guarded(alloc, Some(i), j, c)?;
    put_if(all, p, octagon);
    Ok(())
}

// In one octagon V(i) is at most c, if there is such a place.
fn bound_one(
    alloc: Global,
    all: &mut Vec<Marked>,
    p: usize,
    i: Option<u32>,
    c: i128,
) -> Result<(), AllocError>
    requires octagon { p < length all.old.items }
    requires place { IfSome i (λ k. k < 2 * (octagon_at all.old.items p).vars) }
    ensures { OnOk result (all.new.items ≡ slice_set all.old.items p (changed_at i (octagon_at all.old.items p)
        (λ k. or_else (octagon_at all.old.items p) (guard_of (octagon_at all.old.items p) (Some k) None c)))) }
{
    match i {
        None => Ok(()),
        Some(i) => guard_one(alloc, all, p, i, None, c),
    }
}

// V(a) is at most c.
fn bound_all(
    alloc: Global,
    all: &mut Vec<Marked>,
    packs: &PlacedPacks,
    a: usize,
    c: i128,
    over: &[usize],
) -> Result<(), AllocError>
    requires { widths all.old.items ≡ map length packs.now }
    ensures { OnOk result (all.new.items ≡ each_changed (bounded_in a c over.now) packs.now all.old.items) }
{
    let places = packs.places(a / 2);
    for i in 0..places.len() {
        let place = places[i];
        let first = side_over(packs.pack(place.pack), over, a);
        bound_one(alloc, all, place.pack, first, c)?;
    }
    Ok(())
}

// In one octagon V(i) + V(j) is at most c, where it is over the second variable.
fn relate_one(
    alloc: Global,
    all: &mut Vec<Marked>,
    p: usize,
    i: u32,
    j: Option<u32>,
    c: i128,
) -> Result<(), AllocError>
    requires octagon { p < length all.old.items }
    requires terms { IfSome j (λ k. IsGuard (octagon_at all.old.items p).vars (Some i) (Some k)) }
    ensures { OnOk result (all.new.items ≡ slice_set all.old.items p (changed_at j (octagon_at all.old.items p)
        (λ k. or_else (octagon_at all.old.items p) (guard_of (octagon_at all.old.items p) (Some i) (Some k) c)))) }
{
    match j {
        None => Ok(()),
        Some(j) => guard_one(alloc, all, p, i, Some(j), c),
    }
}

// V(a) + V(b) is at most c.
fn relate_all(
    alloc: Global,
    all: &mut Vec<Marked>,
    packs: &PlacedPacks,
    a: usize,
    b: usize,
    c: i128,
    over: &[usize],
) -> Result<(), AllocError>
    requires widths { widths all.old.items ≡ map length packs.now }
    requires terms { AreTerms (Some a) (Some b) }
    ensures { OnOk result (all.new.items ≡ each_changed (related_in a b c over.now) packs.now all.old.items) }
{
    let places = packs.places(a / 2);
    for i in 0..places.len() {
        let place = places[i];
        let first = side_at(place.place, a);
        let second = side_over(packs.pack(place.pack), over, b);
        relate_one(alloc, all, place.pack, first, second, c)?;
    }
    Ok(())
}

// Whether in one octagon V(i) is at most c already, if there is such a place.
fn obeys_bound(octagon: &Marked, i: Option<u32>, c: i128) -> bool
    requires { IfSome i (λ k. k < 2 * octagon.now.vars) }
    ensures { result ≡ true →
        changed_at i octagon.now (λ k. or_else octagon.now (guard_of octagon.now (Some k) None c)) ≡ octagon.now }
{
    match i {
        None => true,
        Some(i) => octagon.obeys(Some(i), None, c),
    }
}

// Whether V(a) is at most c already.
fn obey_bound(all: &[Marked], packs: &PlacedPacks, a: usize, c: i128, over: &[usize]) -> bool
    requires { widths all.now ≡ map length packs.now }
    ensures { result ≡ true → each_changed (bounded_in a c over.now) packs.now all.now ≡ all.now }
{
    let places = packs.places(a / 2);
    for i in 0..places.len() {
        let place = places[i];
        let first = side_over(packs.pack(place.pack), over, a);
        if !obeys_bound(&all[place.pack], first, c) {
            return false;
        }
    }
    true
}

// Whether in one octagon V(i) + V(j) is at most c already, where it is over the second variable.
fn obeys_relation(octagon: &Marked, i: u32, j: Option<u32>, c: i128) -> bool
    requires { IfSome j (λ k. IsGuard octagon.now.vars (Some i) (Some k)) }
    ensures { result ≡ true →
        changed_at j octagon.now (λ k. or_else octagon.now (guard_of octagon.now (Some i) (Some k) c)) ≡ octagon.now }
{
    match j {
        None => true,
        Some(j) => octagon.obeys(Some(i), Some(j), c),
    }
}

// Whether V(a) + V(b) is at most c already.
fn obey_relation(
    all: &[Marked],
    packs: &PlacedPacks,
    a: usize,
    b: usize,
    c: i128,
    over: &[usize],
) -> bool
    requires widths { widths all.now ≡ map length packs.now }
    requires terms { AreTerms (Some a) (Some b) }
    ensures { result ≡ true → each_changed (related_in a b c over.now) packs.now all.now ≡ all.now }
{
    let places = packs.places(a / 2);
    for i in 0..places.len() {
        let place = places[i];
        let first = side_at(place.place, a);
        let second = side_over(packs.pack(place.pack), over, b);
        if !obeys_relation(&all[place.pack], first, second, c) {
            return false;
        }
    }
    true
}

// The lesser of two bounds.
fn lesser(a: Option<i128>, b: Option<i128>) -> Option<i128>
    ensures { result ≡ lesser_of a b }
{
    match a {
        None => b,
        Some(x) => match b {
            None => a,
            Some(y) => { if y < x { b } else { a } }
        },
    }
}

// The bound on V(j) - V(i) of one octagon, where it is over the second variable.
fn bound_of(octagon: &Marked, i: u32, j: Option<u32>) -> Option<i128>
    requires row { i < 2 * octagon.now.vars }
    requires column { IfSome j (λ k. k < 2 * octagon.now.vars) }
    ensures { result ≡ then_with j (entry octagon.now i) }
{
    match j {
        None => None,
        Some(j) => octagon.bound(i, j),
    }
}

// The least bound on V(j) - V(i) of all octagons.
fn least_of(all: &[Marked], packs: &PlacedPacks, i: usize, j: usize) -> Option<i128>
    requires { widths all.now ≡ map length packs.now }
    ensures { result ≡ least_bound packs.now all.now i j }
{
    let places = packs.places(i / 2);
    let mut least = None;
    for n in 0..places.len() {
        let place = places[n];
        let first = side_at(place.place, i);
        let second = side(packs.pack(place.pack), j);
        let told = bound_of(&all[place.pack], first, second);
        least = lesser(least, told);
    }
    least
}

impl Octagons {
    /// Variable x gets V(term) + c, or any number where there is no term: in each octagon that is over it, and any number in one that isn't over each variable of `over`,
    /// which are those that are read. V(2y) is variable y, V(2y + 1) its negative.
    pub fn assigned(
        self,
        alloc: Global,
        packs: &PlacedPacks,
        x: usize,
        term: Option<usize>,
        c: i128,
        over: &[usize],
    ) -> Result<Octagons, AllocError>
        requires { widths self ≡ map length packs.now }
        ensures { IfOk result (λ o. o ≡ assigned_octagons packs.now self x term c over.now) }
    {
        let mut all = self.all;
        assign_all(alloc, &mut all, packs, x, term, c, over)?;
        Ok(Octagons { all })
    }

    /// V(a) + V(b) is at most c, where terms that are none are left out: in each octagon that is over each variable of `over`, which are those that are read. None where there
    /// is one, no term is left, and c is negative.
    pub fn guarded(
        self,
        alloc: Global,
        packs: &PlacedPacks,
        a: Option<usize>,
        b: Option<usize>,
        c: i128,
        over: &[usize],
    ) -> Result<Option<Octagons>, AllocError>
        requires widths { widths self ≡ map length packs.now }
        requires terms { AreTerms a b }
        ensures { IfOk result (λ o. o ≡ guarded_octagons packs.now self a b c over.now) }
    {
        let mut all = self.all;
        match (a, b) {
            (None, _) => {
                if c < 0 && is_some_over(packs, over) {
                    return Ok(None);
                }
            }
            (Some(a), None) => bound_all(alloc, &mut all, packs, a, c, over)?,
            (Some(a), Some(b)) => relate_all(alloc, &mut all, packs, a, b, c, over)?,
        }
        Ok(Some(Octagons { all }))
    }

    /// Whether V(a) + V(b) is at most c already, so that a guard changes nothing.
    pub fn obey(
        &self,
        packs: &PlacedPacks,
        a: Option<usize>,
        b: Option<usize>,
        c: i128,
        over: &[usize],
    ) -> bool
        requires widths { widths self.now ≡ map length packs.now }
        requires terms { AreTerms a b }
        ensures { result ≡ true → guarded_octagons packs.now self.now a b c over.now ≡ Some self.now }
    {
        match (a, b) {
            (None, _) => 0 <= c || !is_some_over(packs, over),
            (Some(a), None) => obey_bound(&self.all, packs, a, c, over),
            (Some(a), Some(b)) => obey_relation(&self.all, packs, a, b, c, over),
        }
    }

    /// The least bound on V(j) - V(i) of the octagons that are over both variables, if there is one.
    pub fn least_bound(&self, packs: &PlacedPacks, i: usize, j: usize) -> Option<i128>
        requires { widths self.now ≡ map length packs.now }
        ensures { result ≡ least_bound packs.now self.now i j }
    {
        least_of(&self.all, packs, i, j)
    }
}
