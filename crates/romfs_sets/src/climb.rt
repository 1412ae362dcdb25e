//! The climb over a graph, from each of its cycles.
//!
//! Ways may merge and loop, so following the way of each point would be quadratic. Against their
//! direction the points are cycles with trees that grow from them; a point lies on another's way if
//! it is below it in its tree, or in the cycle that it leads to. Each cycle is therefore put on a
//! path, each tree is climbed from it depth first, and for each class the lowest point on the path
//! is kept; a new point is compared with that one alone, and the higher of both is noted. Leaving a
//! point restores what was lowest before it.

ghost use Rattle.std.specs.Prelude.{◌≡◌, ◌+◌, ◌<◌, ◌^◌, ℕ, true, false, IfOk, length, get_or, set, drop, reverse, []};
ghost use Rattle.romfs_sets.specs.Climb.{After, AreBelow, Clears, Enters, findings, IsFound, IsLow, IsCycle, IsMet, IsGathered, IsSkipped, AreMarksKept, AreNoted};

use crate::found::Found;
use crate::graph::Graph;
use std::alloc::{AllocError, Allocator};

// A point on the path, and what was the lowest of its class before it.
//
//     e   f
//      \ /
//   d   b         path while f is entered: the whole cycle, then b, f
//    \ /
// .-> a -> c -.   low: of each class on the path, its lowest point
// '-----------'
#[derive(Clone, Copy)]
struct Step {
    at: u32,
    low: u32,
}

/// Notes the points with a lower one of the same class before or after them: `next` is the point
/// that each leads on to, and `class` the class of each. `AllocError` only if memory was refused.
pub fn note_repeats<A: Allocator + Copy>(
    alloc: A,
    next: Vec<u32, A>,
    class: Vec<u32, A>,
) -> Result<Vec<bool, A>, AllocError>
    requires few { length next.items < 2 ^ 32 }
    requires leads { AreBelow next.items (length next.items) }
    requires classes { AreBelow class.items (length next.items) }
    ensures { IfOk result (λ noted. AreNoted next.items class.items noted.items) }
{
    let graph = Graph::of(alloc, next, class)?;
    note_all(alloc, &graph)
}

// Puts a point on the path, and notes the higher of it and the lowest of its class there.
fn enter<A: Allocator>(graph: &Graph<A>, found: &mut Found<A>, at: u32) -> u32
    requires at { at < length graph.now.next.items }
    requires low { length found.old.low.items ≡ length graph.now.next.items }
    ensures { Enters graph.now.next.items graph.now.class.items at result
        (findings found.old) (findings found.new) }
{
    let place = at as usize;
    let class = graph.class[place] as usize;
    let lowest = found.low[class];
    found.entered[place] = true;
    found.low[class] = lowest.min(at);
    if lowest != at && (lowest as usize) < graph.next.len() {
        found.noted[lowest.max(at) as usize] = true;
    }
    lowest
}

// The first point on a list that has not been entered.
fn skip_entered<A: Allocator>(graph: &Graph<A>, entered: &[bool], from: u32) -> u32
    requires { length entered.now ≡ length graph.now.next.items }
    ensures skipped { IsSkipped graph.now.sibling.items entered.now from result }
    ensures fresh { result < length graph.now.next.items → get_or entered.now result false ≡ false }
{
    let mut at = from;
    while (at as usize) < graph.sibling.len() && entered[at as usize] {
        at = graph.sibling[at as usize];
    }
    at
}

// Removes the last point from the path, and returns the next that leads where it does.
fn leave<A: Allocator>(graph: &Graph<A>, found: &mut Found<A>, step: Step) -> u32
    requires at { step.at < length graph.now.next.items }
    requires low { length found.old.low.items ≡ length graph.now.next.items }
    ensures next { result ≡ get_or graph.now.sibling.items step.at 0 }
    ensures low { found.new.low.items
        ≡ set found.old.low.items (get_or graph.now.class.items step.at 0) step.low }
    ensures entered { found.new.entered.items ≡ found.old.entered.items }
    ensures noted { found.new.noted.items ≡ found.old.noted.items }
{
    let place = step.at as usize;
    found.low[graph.class[place] as usize] = step.low;
    graph.sibling[place]
}

// Enters all that leads to one point of a cycle, once the full cycle is on the path.
fn climb<A: Allocator + Copy>(
    alloc: A,
    graph: &Graph<A>,
    found: &mut Found<A>,
    cycle: &[u32],
    turn: usize,
) -> Result<(), AllocError>
    requires turn { turn < length cycle.now }
    requires cycle { IsCycle graph.now.next.items (reverse cycle.now) }
    requires found { IsFound graph.now.next.items graph.now.class.items
        (reverse cycle.now) (drop turn cycle.now)
        (findings found.old) }
    ensures found { IfOk result (λ _. IsFound graph.now.next.items graph.now.class.items
        (reverse cycle.now) (drop (turn + 1) cycle.now)
        (findings found.new)) }
    ensures kept { AreMarksKept found.old.entered.items found.new.entered.items }
{
    let mut steps: Vec<Step, A> = Vec::new(alloc);
    let mut from = graph.first[cycle[turn] as usize];
    loop {
        let at = skip_entered(graph, &found.entered, from);
        if (at as usize) < graph.next.len() {
            let low = enter(graph, found, at);
            steps.push(Step { at, low })?;
            from = graph.first[at as usize];
        } else {
            match steps.pop() {
                Some(step) => from = leave(graph, found, step),
                None => return Ok(()),
            }
        }
    }
}

// A point of the cycle that a point leads to: a walk from there comes back to it.
fn seek(next: &[u32], visited: &mut [bool], from: u32) -> u32
    requires next { AreBelow next.now (length next.now) }
    requires visited { length visited.old ≡ length next.now }
    requires from { from < length next.now }
    ensures { IsMet next.now visited.old visited.new from result }
{
    let mut at = from;
    while !visited[at as usize] {
        visited[at as usize] = true;
        at = next[at as usize];
    }
    at
}

// Enters the points of a cycle, from one of them on.
fn gather<A: Allocator + Copy>(
    alloc: A,
    graph: &Graph<A>,
    found: &mut Found<A>,
    from: u32,
) -> Result<Vec<u32, A>, AllocError>
    requires from { from < length graph.now.next.items }
    requires fresh { get_or found.old.entered.items from false ≡ false }
    requires cycle { After graph.now.next.items from from }
    requires found { IsFound graph.now.next.items graph.now.class.items [] []
        (findings found.old) }
    ensures gathered { IfOk result (λ cycle. IsGathered graph.now.next.items graph.now.class.items
        from cycle.items (findings found.new)) }
    ensures kept { AreMarksKept found.old.entered.items found.new.entered.items }
{
    let mut cycle = Vec::new(alloc);
    let mut at = from;
    while !found.entered[at as usize] {
        enter(graph, found, at);
        cycle.push(at)?;
        at = graph.next[at as usize];
    }
    Ok(cycle)
}

// Removes a cycle from the path.
fn clear<A: Allocator>(graph: &Graph<A>, found: &mut Found<A>, cycle: &[u32])
    requires cycle { IsCycle graph.now.next.items (reverse cycle.now) }
    requires low { IsLow graph.now.class.items found.old.low.items (reverse cycle.now) }
    ensures { Clears graph.now.class.items (findings found.old) (findings found.new) }
{
    let none = graph.next.len() as u32;
    for at in cycle {
        found.low[graph.class[*at as usize] as usize] = none;
    }
}

// Enters the cycle that a point leads to, and all that leads to it.
fn enter_all<A: Allocator + Copy>(
    alloc: A,
    graph: &Graph<A>,
    found: &mut Found<A>,
    visited: &mut [bool],
    from: u32,
) -> Result<(), AllocError>
    requires from { from < length graph.now.next.items }
    requires visited { length visited.old ≡ length graph.now.next.items }
    requires walked { AreMarksKept visited.old found.old.entered.items }
    requires found { IsFound graph.now.next.items graph.now.class.items [] []
        (findings found.old) }
    ensures found { IfOk result (λ _. IsFound graph.now.next.items graph.now.class.items [] []
        (findings found.new)) }
    ensures kept { IfOk result (λ _. AreMarksKept found.old.entered.items found.new.entered.items) }
    ensures walked { IfOk result (λ _. AreMarksKept visited.new found.new.entered.items) }
    ensures entered { IfOk result (λ _. get_or found.new.entered.items from false ≡ true) }
{
    if found.entered[from as usize] {
        return Ok(());
    }
    let start = seek(&graph.next, visited, from);
    let cycle = gather(alloc, graph, found, start)?;
    for turn in 0..cycle.len() {
        climb(alloc, graph, found, &cycle, turn)?;
    }
    clear(graph, found, &cycle);
    Ok(())
}

// Notes the points of a graph.
fn note_all<A: Allocator + Copy>(alloc: A, graph: &Graph<A>) -> Result<Vec<bool, A>, AllocError>
    ensures { IfOk result
        (λ noted. AreNoted graph.now.next.items graph.now.class.items noted.items) }
{
    let count = graph.next.len();
    let mut found = Found {
        entered: vec![in alloc; false; count]?,
        low: vec![in alloc; count as u32; count]?,
        noted: vec![in alloc; false; count]?,
    };
    let mut marks = vec![in alloc; false; count]?;
    let visited = marks.as_mut_slice();
    for from in 0..count {
        enter_all(alloc, graph, &mut found, visited, from as u32)?;
    }
    let Found {
        entered: _,
        low: _,
        noted,
    } = found;
    Ok(noted)
}
