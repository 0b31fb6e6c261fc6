// Lists of octagons, one for each pack.

ghost use Rattle.std.specs.Prelude.{◌≡◌, ◌↔◌, ◌<◌, ◌*◌, ℕ, true, IfOk, length, map, slice_set};
ghost use Rattle.pk_octmat.specs.Octagon.{entry};
ghost use Rattle.pk_octagons.specs.Octagons.{octagon_at, widths, top_octagons, joined_octagons, widened_octagons, narrowed_octagons, AreBelow};

use crate::marked::Marked;
use crate::packs::PlacedPacks;
use pk_octmat::Matrix;
use std::alloc::{AllocError, Global};
use std::marker::Model;

/// An octagon for each pack, and what is known of it. Copies share the octagons.
#[derive(Drop)]
pub struct Octagons {
    pub(crate) all: Vec<Marked>,
}

impl Model for Octagons {
    ghost use Rattle.std.specs.Prelude.{List};
    ghost use Rattle.pk_octmat.specs.Octagon.{Octagon};

    ghost Value = { List Octagon };

    ghost view = { λ o. o.all.items };
}

fn top_all(alloc: Global, packs: &PlacedPacks) -> Result<Vec<Marked>, AllocError>
    ensures { IfOk result (λ v. v.items ≡ top_octagons packs.now) }
{
    let mut out = Vec::with_capacity(alloc, packs.count())?;
    for p in 0..packs.count() {
        out.push(Marked::top(alloc, packs.pack(p).len())?)?;
    }
    Ok(out)
}

fn copy_all(alloc: Global, all: &[Marked]) -> Result<Vec<Marked>, AllocError>
    ensures { IfOk result (λ v. v.items ≡ all.now) }
{
    let mut out = Vec::with_capacity(alloc, all.len())?;
    for octagon in all {
        out.push(octagon.copy()?)?;
    }
    Ok(out)
}

fn join_all(alloc: Global, a: &[Marked], b: &[Marked]) -> Result<Vec<Marked>, AllocError>
    requires { widths b.now ≡ widths a.now }
    ensures { IfOk result (λ v. v.items ≡ joined_octagons a.now b.now) }
{
    let mut out = Vec::with_capacity(alloc, a.len())?;
    for p in 0..a.len() {
        out.push(a[p].join(alloc, &b[p])?)?;
    }
    Ok(out)
}

fn widen_all(alloc: Global, a: &[Marked], b: &[Marked]) -> Result<Vec<Marked>, AllocError>
    requires { widths b.now ≡ widths a.now }
    ensures { IfOk result (λ v. v.items ≡ widened_octagons a.now b.now) }
{
    let mut out = Vec::with_capacity(alloc, a.len())?;
    for p in 0..a.len() {
        out.push(a[p].widen(alloc, &b[p])?)?;
    }
    Ok(out)
}

fn narrow_all(alloc: Global, a: &[Marked], b: &[Marked]) -> Result<Vec<Marked>, AllocError>
    requires { widths b.now ≡ widths a.now }
    ensures { IfOk result (λ v. v.items ≡ narrowed_octagons a.now b.now) }
{
    let mut out = Vec::with_capacity(alloc, a.len())?;
    for p in 0..a.len() {
        out.push(a[p].narrow(alloc, &b[p])?)?;
    }
    Ok(out)
}

fn leq_all(a: &[Marked], b: &[Marked]) -> bool
    requires { widths b.now ≡ widths a.now }
    ensures { result ≡ true ↔ AreBelow a.now b.now }
{
    for p in 0..a.len() {
        if !a[p].leq(&b[p]) {
            return false;
        }
    }
    true
}

fn same_all(a: &[Marked], b: &[Marked]) -> bool
    requires { length b.now ≡ length a.now }
    ensures { result ≡ true ↔ a.now ≡ b.now }
{
    for p in 0..a.len() {
        if !a[p].equals(&b[p]) {
            return false;
        }
    }
    true
}

impl Octagons {
    /// No bounds.
    pub fn top(alloc: Global, packs: &PlacedPacks) -> Result<Octagons, AllocError>
        ensures { IfOk result (λ o. o ≡ top_octagons packs.now) }
    {
        Ok(Octagons {
            all: top_all(alloc, packs)?,
        })
    }

    /// The same octagons, shared.
    pub fn copy(&self, alloc: Global) -> Result<Octagons, AllocError>
        ensures { IfOk result (λ o. o ≡ self.now) }
    {
        Ok(Octagons {
            all: copy_all(alloc, &self.all)?,
        })
    }

    /// Each joined with its own: shared, where that one is below it.
    pub fn join(&self, alloc: Global, other: &Octagons) -> Result<Octagons, AllocError>
        requires { widths other.now ≡ widths self.now }
        ensures { IfOk result (λ o. o ≡ joined_octagons self.now other.now) }
    {
        Ok(Octagons {
            all: join_all(alloc, &self.all, &other.all)?,
        })
    }

    /// Each widened by its own.
    pub fn widen(&self, alloc: Global, next: &Octagons) -> Result<Octagons, AllocError>
        requires { widths next.now ≡ widths self.now }
        ensures { IfOk result (λ o. o ≡ widened_octagons self.now next.now) }
    {
        Ok(Octagons {
            all: widen_all(alloc, &self.all, &next.all)?,
        })
    }

    /// Each narrowed by its own.
    pub fn narrow(&self, alloc: Global, next: &Octagons) -> Result<Octagons, AllocError>
        requires { widths next.now ≡ widths self.now }
        ensures { IfOk result (λ o. o ≡ narrowed_octagons self.now next.now) }
    {
        Ok(Octagons {
            all: narrow_all(alloc, &self.all, &next.all)?,
        })
    }

    /// Whether each is below its own.
    pub fn leq(&self, other: &Octagons) -> bool
        requires { widths other.now ≡ widths self.now }
        ensures { result ≡ true ↔ AreBelow self.now other.now }
    {
        leq_all(&self.all, &other.all)
    }

    /// Whether all have the same bounds.
    pub fn equals(&self, other: &Octagons) -> bool
        requires { length other.now ≡ length self.now }
        ensures { result ≡ true ↔ self.now ≡ other.now }
    {
        same_all(&self.all, &other.all)
    }

    /// The bound on V(j) - V(i) of one, if there is one.
    pub fn bound(&self, p: usize, i: u32, j: u32) -> Option<i128>
        requires octagon { p < length self.now }
        requires row { i < 2 * (octagon_at self.now p).vars }
        requires column { j < 2 * (octagon_at self.now p).vars }
        ensures { result ≡ entry (octagon_at self.now p) i j }
    {
        self.all[p].bound(i, j)
    }

    /// Another octagon in place of one.
    pub fn with_octagon(
        self,
        alloc: Global,
        p: usize,
        octagon: Matrix,
    ) -> Result<Octagons, AllocError>
        requires { p < length self }
        ensures { IfOk result (λ o. o ≡ slice_set self p octagon) }
    {
        let mut all = self.all;
        all[p] = Marked::unknown(alloc, octagon)?;
        Ok(Octagons { all })
    }
}
