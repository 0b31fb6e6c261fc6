// Lists of events on texts: a line, a loop, nested loops, a jump into a loop, and two branches of loops.

ghost use Rattle.std.specs.Prelude.{◌≡◌, ℕ, Some, length, slice_get};
ghost use Rattle.pk_graph.specs.Shown.{graph_view};
ghost use Rattle.pk_state.specs.Facts.{Stated};
ghost use Rattle.pk_iterate.specs.Behaviour.{ReadsWithin};
ghost use Rattle.pk_phases.specs.declared.equations.Cell.{Cell};
ghost use Rattle.pk_phases.specs.Equations.{behaviour_of, may_hold_of};
ghost use Rattle.pk_analysis.specs.Flows.{equations_of, IsOverFlow};

use crate::agreeing::{agree, iterated};
use crate::drives::{driven, reads_within};
use Event::{Again, Claim, Finish, Offer, Send, Stable};
use pk_analysis::{Analysis, Options, digraph, frame_for};
use pk_core::{Event, PlayError, play};
use pk_graph::Graph;
use pk_iterate::Cells;
use pk_order::ordered;
use pk_phases::{Cell, Phase};
use pk_plan::{Order, Plan};
use pk_state::State;
use pk_text_graph::graph_of_text;
use std::alloc::Global;
use std::process::Abort;
use std::test::Fail;

// On the line of the first text, whose END is 5.
const LIST: [Event; 12] = [
    Claim(0),
    Finish(0),
    Send(0, 1),
    Finish(1),
    Send(1, 2),
    Finish(2),
    Send(2, 3),
    Finish(3),
    Send(3, 4),
    Finish(4),
    Send(4, 5),
    Finish(5),
];

// A text whose narrowed value fails its test. While x may be any number, x * y is a multiple of 3 * 2^62, and so of 2^62 when it is wrapped, and the loop sets x to 0 or to
// 3 * 2^62 alone. That is what the narrowing keeps; but then the class of x times that of y passes 2^127, nothing is known of the product, and the loop may set x to 1.
const FAILING: &str = "extern unsigned long __VERIFIER_nondet_ulong(void);
int main(void){
unsigned long x=0;
unsigned long y=0;
if(__VERIFIER_nondet_ulong())y=13835058055282163712u;
while(__VERIFIER_nondet_ulong()){
if(x*y%4611686018427387904u)x=1;
else if(__VERIFIER_nondet_ulong())x=13835058055282163712u;
else x=0;
}
return 0;
}";

// Texts, each with a list that ends with END done, if one is given, and how often Finish, Again and Stable come in such a list, if that is known.
const TEXTS: [(&str, &[Event], Option<(u32, u32, u32)>); 6] = [
    (
        "int main(void){unsigned u=0;u=u-1;return 0;}",
        &LIST,
        Some((6, 0, 0)),
    ),
    (
        "int main(void){int i=0;while(i<10)i=i+1;return i;}",
        &[],
        Some((24, 5, 1)),
    ),
    (
        "int main(void){int i=0;while(i<4){int j=0;while(j<i)j=j+1;i=i+1;}return 0;}",
        &[],
        None,
    ),
    (
        "int main(void){
int i=0;
if(i<1)goto M;
while(i<3){
i=i+2;
M:i=i+1;
}
return 0;
}",
        &[],
        None,
    ),
    (
        "extern int __VERIFIER_nondet_int(void);
int main(void){
int i=0;
int j=0;
if(__VERIFIER_nondet_int())
while(i<5)i=i+1;
else
while(j<7)j=j+1;
return 0;
}",
        &[],
        None,
    ),
    (FAILING, &[], Some((77, 4, 1))),
];

fn graph_of(alloc: Global, text: &str) -> Option<Graph> {
    graph_of_text(alloc, text.as_bytes(), "main").ok()
}

// How often Finish, Again and Stable come.
fn runs_in(events: &[Event]) -> (u32, u32, u32) {
    let mut finished = 0u32;
    let mut again = 0u32;
    let mut stable = 0u32;
    for event in events {
        match event {
            Finish(_) => finished = finished.wrapping_add(1),
            Again(_) => again = again.wrapping_add(1),
            Stable(_) => stable = stable.wrapping_add(1),
            Offer(_) | Claim(_) | Send(_, _) => (),
        }
    }
    (finished, again, stable)
}

// A list leads to what the iteration leaves.
fn played_as_iterated(
    rt: &impl Abort,
    alloc: Global,
    analysis: &Analysis,
    plan: &Plan,
    cells: &Cells<Cell<State>>,
    list: &[Event],
) -> Result<(), Fail>
    requires reads { ReadsWithin (behaviour_of (equations_of analysis.now)) plan.now.elements }
    requires cells { length cells.now.cells ≡ plan.now.elements }
    requires runs { length cells.now.runs ≡ plan.now.elements }
    requires held { (e : ℕ) (c : Cell Stated) → slice_get cells.now.cells e ≡ Some c →
        may_hold_of (equations_of analysis.now) (IsOverFlow analysis.now) e c }
{
    let core = play(alloc, analysis, plan, list).ok().ok_or("refused")?;
    assert!(rt; agree(&core, cells, plan.elements()));
    Ok(())
}

// What the draws of twenty seeds lead to is what the iteration leaves, by so many runs.
fn drawn_as_iterated(
    rt: &impl Abort,
    alloc: Global,
    analysis: &Analysis,
    plan: &Plan,
    cells: &Cells<Cell<State>>,
    runs: Option<(u32, u32, u32)>,
) -> Result<(), Fail>
    requires reads { ReadsWithin (behaviour_of (equations_of analysis.now)) plan.now.elements }
    requires cells { length cells.now.cells ≡ plan.now.elements }
    requires runs { length cells.now.runs ≡ plan.now.elements }
    requires held { (e : ℕ) (c : Cell Stated) → slice_get cells.now.cells e ≡ Some c →
        may_hold_of (equations_of analysis.now) (IsOverFlow analysis.now) e c }
{
    for seed in 1..21u32 {
        let drive = driven(alloc, analysis, plan, seed)?.ok_or("no end")?;
        assert!(rt; agree(&drive.core, cells, plan.elements()));
        let made = runs_in(&drive.events);
        assert!(rt; runs.unwrap_or(made) == made);
    }
    Ok(())
}

// Lists of an analysis lead to what the iteration leaves; an element is claimed once.
fn lists_as_iterated(
    rt: &impl Abort,
    alloc: Global,
    analysis: &Analysis,
    plan: &Plan,
    order: &Order,
    list: &[Event],
    runs: Option<(u32, u32, u32)>,
) -> Result<(), Fail>
    requires reads { ReadsWithin (behaviour_of (equations_of analysis.now)) plan.now.elements }
    requires elements { order.now.elements ≡ plan.now.elements }
{
    let cells = iterated(alloc, analysis, plan, order).ok().ok_or("no end")?;
    let twice = play(alloc, analysis, plan, &[Claim(0), Claim(0)]).err();
    assert!(rt; matches!(twice, Some(PlayError::NotEnabled { place: 1 })));
    if !list.is_empty() {
        played_as_iterated(rt, alloc, analysis, plan, &cells, list)?;
    }
    drawn_as_iterated(rt, alloc, analysis, plan, &cells, runs)
}

// The same, once it was seen that elements read elements alone.
fn analysis_as_iterated(
    rt: &impl Abort,
    alloc: Global,
    analysis: &Analysis,
    plan: &Plan,
    order: &Order,
    list: &[Event],
    runs: Option<(u32, u32, u32)>,
) -> Result<(), Fail>
    requires elements { order.now.elements ≡ plan.now.elements }
{
    assert!(rt; reads_within(analysis, plan.elements()));
    lists_as_iterated(rt, alloc, analysis, plan, order, list, runs)
}

fn graph_as_iterated(
    rt: &impl Abort,
    alloc: Global,
    graph: &Graph,
    plan: &Plan,
    order: &Order,
    list: &[Event],
    runs: Option<(u32, u32, u32)>,
) -> Result<(), Fail>
    requires points { plan.now.points ≡ length (graph_view graph.now).points }
    requires elements { order.now.elements ≡ plan.now.elements }
{
    let options = Options {
        delay: 0,
        narrow: 2,
        oct: 16,
        packs: false,
    };
    let frame = frame_for(alloc, graph, plan, options)
        .ok()
        .ok_or("no frame")?;
    let analysis = Analysis::new(alloc, graph, &frame, plan, options)?;
    analysis_as_iterated(rt, alloc, &analysis, plan, order, list, runs)
}

fn text_as_iterated(
    rt: &impl Abort,
    alloc: Global,
    text: &str,
    list: &[Event],
    runs: Option<(u32, u32, u32)>,
) -> Result<(), Fail> {
    let graph = graph_of(alloc, text).ok_or("no graph")?;
    let points = digraph(alloc, &graph)?;
    assert!(rt; points.vertices() < 1000);
    let (plan, order) = ordered(alloc, &points)?;
    assert!(rt; plan.points() as usize == graph.points());
    graph_as_iterated(rt, alloc, &graph, &plan, &order, list, runs)
}

#[test]
fn texts_lead_to_the_iteration(rt: HostRuntime) -> Result<(), Fail> {
    for (text, list, runs) in &TEXTS {
        text_as_iterated(&rt, rt.alloc(), text, list, *runs)?;
    }
    Ok(())
}

// The phase to which a list that ends with Again brings its exit.
fn phase_after(
    alloc: Global,
    analysis: &Analysis,
    plan: &Plan,
    list: &[Event],
) -> Result<Option<Phase>, Fail>
    requires { ReadsWithin (behaviour_of (equations_of analysis.now)) plan.now.elements }
{
    let core = play(alloc, analysis, plan, list).ok().ok_or("refused")?;
    match list.last() {
        Some(Again(exit)) if *exit < plan.elements() => match &**core.cell(*exit) {
            Cell::Exit(phase) => Ok(Some(*phase)),
            Cell::Value(_) => Ok(None),
        },
        _ => Ok(None),
    }
}

// The phases to which a drawn list brings the exits, each where it decides to go on.
fn phases(alloc: Global, analysis: &Analysis, plan: &Plan) -> Result<String, Fail>
    requires { ReadsWithin (behaviour_of (equations_of analysis.now)) plan.now.elements }
{
    let drive = driven(alloc, analysis, plan, 1)?.ok_or("no end")?;
    let mut text = String::new(alloc);
    for many in 0..drive.events.len() {
        let list = &drive.events[..many];
        match phase_after(alloc, analysis, plan, list)? {
            None => (),
            Some(Phase::Delay(k)) => write!(text, "Delay {k} ")?,
            Some(Phase::Up) => text.push_str("Up ")?,
            Some(Phase::Down(k)) => write!(text, "Down {k} ")?,
            Some(Phase::Last) => text.push_str("Last ")?,
        }
    }
    Ok(text)
}

// The same, once it was seen that elements read elements alone.
fn seen_phases(
    rt: &impl Abort,
    alloc: Global,
    analysis: &Analysis,
    plan: &Plan,
) -> Result<String, Fail> {
    assert!(rt; reads_within(analysis, plan.elements()));
    phases(alloc, analysis, plan)
}

#[test]
fn a_narrowed_value_fails_its_test(rt: HostRuntime) -> Result<(), Fail> {
    let alloc = rt.alloc();
    let graph = graph_of(alloc, FAILING).ok_or("no graph")?;
    let points = digraph(alloc, &graph)?;
    assert!(rt; points.vertices() < 1000);
    let (plan, _) = ordered(alloc, &points)?;
    assert!(rt; plan.points() as usize == graph.points());
    let options = Options {
        delay: 0,
        narrow: 2,
        oct: 16,
        packs: false,
    };
    let frame = frame_for(alloc, &graph, &plan, options)
        .ok()
        .ok_or("no frame")?;
    let analysis = Analysis::new(alloc, &graph, &frame, &plan, options)?;
    let phases = seen_phases(&rt, alloc, &analysis, &plan)?;
    assert!(rt; phases.as_str() == "Up Up Down 1 Last ");
    Ok(())
}
