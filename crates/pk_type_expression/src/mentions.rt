// Which objects an expression names, and which it changes.

ghost use Rattle.std.specs.Prelude.{◌≡◌, ◌||◌, [], false, IfOk, OnOk, map};
ghost use Rattle.std.specs.List.{list_any};
ghost use Rattle.pk_type_expression.specs.Mentions as definitions;
ghost use Rattle.pk_type_expression.specs.Views.{mentioned_in, has, IsBefore};

use crate::names::Target;
use pk_type_scope::Declaration;
use pk_typed::Variable;
use std::alloc::{AllocError, Global};
use std::collections::HashSet;

/// The objects that an expression names, and those that it changes, each as often as it does.
#[derive(Drop)]
pub struct Mentions {
    pub named: Vec<Variable>,
    pub changed: Vec<Variable>,
}

// So many objects are compared one by one with others.
const FEW: usize = 16;

// A set of objects.
#[derive(Drop)]
struct Objects {
    files: HashSet<usize>,
    locals: HashSet<usize>,
}

impl Objects {
    fn new(alloc: Global) -> Objects
        ensures { (x : Variable) → has result x ≡ false }
    {
        Objects {
            files: HashSet::new(alloc),
            locals: HashSet::new(alloc),
        }
    }

    fn add(&mut self, x: Variable) -> Result<(), AllocError>
        ensures { OnOk result ((y : Variable) → has self.new y ≡ (definitions.is_same y x || has self.old y)) }
    {
        match x {
            Variable::File(n) => self.files.insert(n)?,
            Variable::Local(n) => self.locals.insert(n)?,
        };
        Ok(())
    }

    fn add_all(&mut self, xs: &[Variable]) -> Result<(), AllocError>
        ensures { OnOk result ((y : Variable) → has self.new y ≡ (definitions.is_among xs.now y || has self.old y)) }
    {
        for x in xs {
            self.add(*x)?;
        }
        Ok(())
    }

    fn contains(&self, x: Variable) -> bool
        ensures { result ≡ has self.now x }
    {
        match x {
            Variable::File(n) => self.files.contains(&n),
            Variable::Local(n) => self.locals.contains(&n),
        }
    }

    // Whether one of these is in it.
    fn meets(&self, xs: &[Variable]) -> bool
        ensures { result ≡ list_any (has self.now) xs.now }
    {
        for x in xs {
            if self.contains(*x) {
                return true;
            }
        }
        false
    }
}

// What expressions before an expression mention.
#[derive(Drop)]
struct Before {
    named: Objects,
    changed: Objects,
}

impl Before {
    fn none(alloc: Global) -> Before
        ensures { IsBefore definitions.nothing_mentioned result }
    {
        Before {
            named: Objects::new(alloc),
            changed: Objects::new(alloc),
        }
    }

    fn clashes(&self, mentions: &Mentions) -> bool
        ensures { (before : definitions.Mentioned) → IsBefore before self.now
            → result ≡ definitions.clash before (mentioned_in mentions.now) }
    {
        let named = self.changed.meets(&mentions.named);
        let changed = self.named.meets(&mentions.changed);
        named || changed
    }

    fn add(&mut self, mentions: &Mentions) -> Result<(), AllocError>
        ensures { OnOk result ((before : definitions.Mentioned) → IsBefore before self.old
            → IsBefore (definitions.joined before (mentioned_in mentions.now)) self.new) }
    {
        self.named.add_all(&mentions.named)?;
        self.changed.add_all(&mentions.changed)?;
        Ok(())
    }
}

/// Whether the object is among these.
pub(crate) fn is_among(xs: &[Variable], x: Variable) -> bool
    ensures { result ≡ definitions.is_among xs.now x }
{
    for y in xs {
        if is_same(x, *y) {
            return true;
        }
    }
    false
}

// Whether one of the second is among the first, by comparing each with each.
fn meet_directly(first: &[Variable], second: &[Variable]) -> bool
    ensures { result ≡ definitions.meet first.now second.now }
{
    for y in second {
        if is_among(first, *y) {
            return true;
        }
    }
    false
}

// Whether one of the second is among the first. Mostly one of them has few, and nothing is made.
fn meet(alloc: Global, first: &[Variable], second: &[Variable]) -> Result<bool, AllocError>
    ensures { IfOk result (λ r. r ≡ definitions.meet first.now second.now) }
{
    if first.len() <= FEW || second.len() <= FEW {
        return Ok(meet_directly(first, second));
    }
    let mut objects = Objects::new(alloc);
    objects.add_all(first)?;
    Ok(objects.meets(second))
}

impl Mentions {
    pub(crate) fn none(alloc: Global) -> Mentions
        ensures { mentioned_in result ≡ definitions.nothing_mentioned }
    {
        Mentions {
            named: Vec::new(alloc),
            changed: Vec::new(alloc),
        }
    }

    /// What a name mentions.
    pub(crate) fn of_name(
        alloc: Global,
        declared: Option<Declaration>,
    ) -> Result<Mentions, AllocError>
        ensures { IfOk result
            (λ m. mentioned_in m ≡ record { named = definitions.object_named declared; changed = [] }) }
    {
        let mut mentions = Mentions::none(alloc);
        if let Some(Declaration::Object(object)) = declared {
            mentions.named.push(object.variable)?;
        }
        Ok(mentions)
    }

    /// Those of another expression too.
    pub(crate) fn join(&mut self, other: &Mentions) -> Result<(), AllocError>
        ensures { OnOk result
            (mentioned_in self.new ≡ definitions.joined (mentioned_in self.old) (mentioned_in other.now)) }
    {
        self.named.extend_from_slice(&other.named)?;
        self.changed.extend_from_slice(&other.changed)?;
        Ok(())
    }

    /// What is assigned too.
    pub(crate) fn change(&mut self, target: Option<Target>) -> Result<(), AllocError>
        ensures { OnOk result (mentioned_in self.new ≡ definitions.changing (mentioned_in self.old) target) }
    {
        if let Some(target) = target {
            self.changed.push(target.variable)?;
        }
        Ok(())
    }

    /// Whether one expression changes what the other names.
    pub(crate) fn clash(&self, alloc: Global, other: &Mentions) -> Result<bool, AllocError>
        ensures { IfOk result (λ r. r ≡ definitions.clash (mentioned_in self.now) (mentioned_in other.now)) }
    {
        let left = meet(alloc, &self.changed, &other.named)?;
        let right = meet(alloc, &other.changed, &self.named)?;
        Ok(left || right)
    }
}

fn is_same(x: Variable, y: Variable) -> bool
    ensures { result ≡ definitions.is_same x y }
{
    match x {
        Variable::File(a) => match y {
            Variable::File(b) => a == b,
            Variable::Local(_) => false,
        },
        Variable::Local(a) => match y {
            Variable::Local(b) => a == b,
            Variable::File(_) => false,
        },
    }
}

fn is_none(objects: &[Variable]) -> bool
    ensures { result ≡ definitions.is_empty objects.now }
{
    objects.is_empty()
}

fn changes_nothing(all: &[Mentions]) -> bool
    ensures { result ≡ definitions.change_nothing (map mentioned_in all.now) }
{
    for mentions in all {
        if !is_none(&mentions.changed) {
            return false;
        }
    }
    true
}

/// Whether the mentions of one clash with those of one before it.
pub(crate) fn some_clash(alloc: Global, all: &[Mentions]) -> Result<bool, AllocError>
    ensures { IfOk result (λ r. r ≡ definitions.some_clash (map mentioned_in all.now)) }
{
    if changes_nothing(all) {
        return Ok(false);
    }
    let mut before = Before::none(alloc);
    for mentions in all {
        if before.clashes(mentions) {
            return Ok(true);
        }
        before.add(mentions)?;
    }
    Ok(false)
}

/// Those of all of them.
pub(crate) fn all_joined(alloc: Global, all: &[Mentions]) -> Result<Mentions, AllocError>
    ensures { IfOk result (λ m. mentioned_in m ≡ definitions.all_joined (map mentioned_in all.now)) }
{
    let mut joined = Mentions::none(alloc);
    for mentions in all {
        joined.join(mentions)?;
    }
    Ok(joined)
}
