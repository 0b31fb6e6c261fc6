// The elements of a plan as the core keeps them, and what changes them.

ghost use Rattle.std.specs.Prelude.{◌≡◌, ◌↔◌, ◌+◌, ◌-◌, ◌^◌, ◌<◌, List, map, All, IfOk, IsTrue, Some, length, slice_get};
ghost use Rattle.std.specs.Arc.{arc_value};
ghost use Rattle.std.specs.List.{filter_map};
ghost use Rattle.pk_core.specs.declared.events.Status.TheVariants.{Open, Held, Done};
ghost use Rattle.pk_core.specs.Events.{arrived, without};
ghost use Rattle.pk_core.specs.Entries.{standing_of, cells_of, changed, with_new_status, without_send, with_arrival, with_sends, after_run};

use crate::events::Status;
use std::alloc::{AllocError, Global};
use std::sync::Arc;

/// An element: its status, its run number, its cell and its sends left.
#[derive(Drop)]
pub struct Entry<C> {
    pub status: Status,
    pub run: u64,
    pub cell: Arc<C>,
    pub sends: Vec<u32>,
}

/// Whether an element is held.
pub fn is_held(status: Status) -> bool
    ensures { IsTrue result ↔ (status ≡ Held) }
{
    match status {
        Status::Held => true,
        Status::Waiting(_) | Status::Open | Status::Done => false,
    }
}

/// Whether an element is open.
pub fn is_open(status: Status) -> bool
    ensures { IsTrue result ↔ (status ≡ Open) }
{
    match status {
        Status::Open => true,
        Status::Waiting(_) | Status::Held | Status::Done => false,
    }
}

/// The status where one predecessor less is waited for.
pub fn arrived(status: Status) -> Status
    ensures { result ≡ arrived status }
{
    match status {
        Status::Waiting(0) => Status::Waiting(0),
        Status::Waiting(1) => Status::Held,
        Status::Waiting(n) => Status::Waiting(n - 1),
        Status::Open => Status::Open,
        Status::Held => Status::Held,
        Status::Done => Status::Done,
    }
}

/// Gives an element another status.
pub fn set_status<C: Drop>(entries: &mut [Entry<C>], e: u32, status: Status)
    requires { e < length entries.old }
    ensures { map standing_of entries.new ≡ changed (map standing_of entries.old) e (with_new_status status) }
{
    entries[e as usize].status = status;
}

/// The send to v is no longer left.
fn drop_send(sends: &mut Vec<u32>, v: u32)
    ensures { sends.new.items ≡ without v sends.old.items }
{
    sends.retain(move |w| *w != v);
}

fn take_send_at<C: Drop>(entry: &mut Entry<C>, v: u32)
    ensures { standing_of entry.new ≡ without_send v (standing_of entry.old) }
{
    drop_send(&mut entry.sends, v);
}

/// The send from u to v is no longer left.
fn take_send<C: Drop>(entries: &mut [Entry<C>], u: u32, v: u32)
    requires { u < length entries.old }
    ensures { map standing_of entries.new ≡ changed (map standing_of entries.old) u (without_send v) }
{
    take_send_at(&mut entries[u as usize], v);
}

/// One predecessor less is waited for.
fn arrive_at<C: Drop>(entry: &mut Entry<C>)
    ensures { standing_of entry.new ≡ with_arrival (standing_of entry.old) }
{
    entry.status = arrived(entry.status);
}

fn arrive<C: Drop>(entries: &mut [Entry<C>], v: u32)
    requires { v < length entries.old }
    ensures { map standing_of entries.new ≡ changed (map standing_of entries.old) v with_arrival }
{
    arrive_at(&mut entries[v as usize]);
}

/// A send from u to v.
pub fn send<C: Drop>(entries: &mut [Entry<C>], u: u32, v: u32)
    requires u { u < length entries.old }
    requires v { v < length entries.old }
    ensures { map standing_of entries.new
        ≡ changed (changed (map standing_of entries.old) u (without_send v)) v with_arrival }
{
    take_send(entries, u, v);
    arrive(entries, v);
}

/// One run more, which leaves an element with this status and this cell.
fn run_once<C: Drop>(entry: &mut Entry<C>, status: Status, cell: Arc<C>)
    requires { entry.old.run < 2 ^ 64 - 1 }
    ensures { standing_of entry.new ≡ after_run status (arc_value cell) (standing_of entry.old) }
{
    entry.status = status;
    entry.run += 1;
    entry.cell = cell;
}

/// A run of e, which leaves it with this status and this cell.
pub fn run<C: Drop>(entries: &mut [Entry<C>], e: u32, status: Status, cell: Arc<C>)
    requires e { e < length entries.old }
    requires room { (x : Entry C) → slice_get entries.old e ≡ Some x → x.run < 2 ^ 64 - 1 }
    ensures { map standing_of entries.new
        ≡ changed (map standing_of entries.old) e (after_run status (arc_value cell)) }
{
    run_once(&mut entries[e as usize], status, cell);
}

/// Leaves e with these sends.
fn set_sends<C: Drop>(entries: &mut [Entry<C>], e: u32, sends: Vec<u32>)
    requires { e < length entries.old }
    ensures { map standing_of entries.new ≡ changed (map standing_of entries.old) e (with_sends sends.items) }
{
    entries[e as usize].sends = sends;
}

/// A run of e that gives this cell, after which e is done and has these sends left.
pub fn finish<C: Drop>(entries: &mut [Entry<C>], e: u32, cell: Arc<C>, sends: Vec<u32>)
    requires e { e < length entries.old }
    requires room { (x : Entry C) → slice_get entries.old e ≡ Some x → x.run < 2 ^ 64 - 1 }
    ensures { map standing_of entries.new
        ≡ changed (changed (map standing_of entries.old) e (after_run Done (arc_value cell))) e
        (with_sends sends.items) }
{
    run(entries, e, Status::Done, cell);
    set_sends(entries, e, sends);
}

/// The cells of these elements, each shared once more.
pub fn shared<C: Drop>(
    alloc: Global,
    entries: &[Entry<C>],
    elements: &[u32],
) -> Result<Vec<Arc<C>>, AllocError>
    requires { All (λ u. u < length entries.now) elements.now }
    ensures { IfOk result (λ v. map arc_value v.items
        ≡ filter_map (slice_get (cells_of (map standing_of entries.now))) elements.now) }
{
    let mut out = Vec::new(alloc);
    for u in elements {
        let cell = &entries[*u as usize].cell;
        out.push(cell.clone()?)?;
    }
    Ok(out)
}
