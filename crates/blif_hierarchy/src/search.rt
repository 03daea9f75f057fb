// Tarjan's search in depth for components, on a stack of its own.
ghost use Rattle.std.specs.Prelude.{◌≡◌, ◌≢◌, ◌∷◌, ◌<◌, ◌≤◌, [], IfOk, OnOk, length, replicate, reverse, sum_by};
ghost use Rattle.blif_hierarchy.specs.Components.{AreEdges, target, targets};
ghost use Rattle.blif_hierarchy.specs.Searching.{ComponentSearches, EndsPart, IsStack, MarksGoOn, node_mark, NoneNew, node_steps_left, OpensNode, SearchesAt, search_work_left};
ghost use Rattle.blif_hierarchy.specs.declared.scan.Mark.TheVariants.{New};

use crate::scan::{Frame, Mark, mark_of, targets_of};
use room::{NoRoom, filled, push};
use std::alloc::Global;

/// The marks of the nodes, the open nodes, the frames of their parts, and a node of each component so far.
#[derive(Drop)]
pub(crate) struct Search {
    pub marks: Vec<Mark>,
    pub nodes: Vec<usize>,
    pub path: Vec<Frame>,
    pub roots: Vec<usize>,
}

/// Gives the nodes from a place on the number of their component, and takes them from the stack.
fn number_nodes(marks: &mut Vec<Mark>, nodes: &mut Vec<usize>, place: usize, number: usize)
    requires stack { IsStack marks.old.items nodes.old.items }
    requires place { place ≤ length nodes.old.items }
    ensures stack { IsStack marks.new.items nodes.new.items }
    ensures nodes { length nodes.new.items ≡ place }
    ensures marks { MarksGoOn place number marks.old.items marks.new.items }
    ensures sized { length marks.new.items ≡ length marks.old.items }
    ensures less { sum_by node_steps_left marks.new.items ≤ sum_by node_steps_left marks.old.items }
{
    'nodes: while place < nodes.len() {
        let top = nodes.len() - 1;
        marks[nodes[top]] = Mark::Done(number);
        nodes.truncate(top);
    }
}

impl Search {
    /// A search of so many nodes that has opened none.
    pub fn new(alloc: Global, count: usize) -> Result<Search, NoRoom>
        ensures marks { IfOk result (λ s. s.marks.items ≡ replicate count New) }
        ensures nodes { IfOk result (λ s. s.nodes.items ≡ []) }
        ensures path { IfOk result (λ s. s.path.items ≡ []) }
        ensures roots { IfOk result (λ s. s.roots.items ≡ []) }
    {
        Ok(Search {
            marks: filled(alloc, Mark::New, count)?,
            nodes: Vec::new(alloc),
            path: Vec::new(alloc),
            roots: Vec::new(alloc),
        })
    }

    /// Opens a new node, in a part of its own.
    fn open(&mut self, node: usize) -> Result<(), NoRoom>
        requires new { node_mark self.old.marks.items node ≡ New }
        requires fits { node < length self.old.marks.items }
        ensures search { OnOk result (OpensNode self.old node self.new) }
        ensures less { OnOk result (search_work_left self.new < search_work_left self.old) }
        ensures none_new { OnOk result (NoneNew self.old self.new) }
        ensures seen { OnOk result (node_mark self.new.marks.items node ≢ New) }
    {
        let place = self.nodes.len();
        push(&mut self.nodes, node)?;
        push(
            &mut self.path,
            Frame {
                node,
                place,
                low: place,
                next: 0,
            },
        )?;
        self.marks[node] = Mark::Open(place);
        Ok(())
    }

    /// The topmost part reaches below its place, and becomes one with the part there.
    fn join(&mut self, frame: Frame) -> Result<(), NoRoom>
        requires { frame.low < frame.place }
        ensures search { OnOk result (EndsPart self.old frame self.new) }
        ensures less { OnOk result (search_work_left self.new ≤ search_work_left self.old) }
        ensures none_new { OnOk result (NoneNew self.old self.new) }
    {
        if let Some(below) = self.path.pop() {
            push(
                &mut self.path,
                Frame {
                    low: below.low.min(frame.low),
                    ..below
                },
            )?;
        }
        Ok(())
    }

    /// The topmost part reaches none below its place, and is a component.
    fn close(&mut self, frame: Frame) -> Result<(), NoRoom>
        requires low { frame.place ≤ frame.low }
        requires place { frame.place ≤ length self.old.nodes.items }
        requires stack { IsStack self.old.marks.items self.old.nodes.items }
        ensures search { OnOk result (EndsPart self.old frame self.new) }
        ensures less { OnOk result (search_work_left self.new ≤ search_work_left self.old) }
        ensures none_new { OnOk result (NoneNew self.old self.new) }
    {
        let number = self.roots.len();
        number_nodes(&mut self.marks, &mut self.nodes, frame.place, number);
        push(&mut self.roots, frame.node)?;
        Ok(())
    }

    /// The topmost frame after its edges up to the first that leads to a new node, which stays its next.
    fn look_ahead(&self, edges: &[Vec<usize>], mut frame: Frame) -> Frame
        requires { SearchesAt edges.now self.now (frame ∷ reverse self.now.path.items) }
        ensures search { SearchesAt edges.now self.now (result ∷ reverse self.now.path.items) }
        ensures stopped { result.next < length (targets edges.now result.node)
            → node_mark self.now.marks.items (target edges.now result.node result.next) ≡ New }
    {
        let targets = targets_of(edges, frame.node);
        'edges: while frame.next < targets.len() {
            match mark_of(self.marks.as_slice(), targets[frame.next]) {
                Mark::New => break,
                Mark::Open(place) => frame.low = frame.low.min(place),
                Mark::Done(_) => {}
            }
            frame.next += 1;
        }
        frame
    }

    /// A step of the topmost part: its frame's edges lead to a new node, or are all done.
    fn step(&mut self, edges: &[Vec<usize>], frame: Frame) -> Result<(), NoRoom>
        requires edges { AreEdges edges.now }
        requires search { SearchesAt edges.now self.old (frame ∷ reverse self.old.path.items) }
        ensures search { OnOk result (ComponentSearches edges.now self.new) }
        ensures less { OnOk result (search_work_left self.new ≤ search_work_left self.old) }
        ensures none_new { OnOk result (NoneNew self.old self.new) }
    {
        let frame = self.look_ahead(edges, frame);
        let targets = targets_of(edges, frame.node);
        if frame.next < targets.len() {
            push(&mut self.path, frame)?;
            self.open(targets[frame.next])?;
        } else if frame.low < frame.place {
            self.join(frame)?;
        } else {
            self.close(frame)?;
        }
        Ok(())
    }

    /// Steps until no node is open.
    fn finish(&mut self, edges: &[Vec<usize>]) -> Result<(), NoRoom>
        requires edges { AreEdges edges.now }
        requires search { ComponentSearches edges.now self.old }
        ensures search { OnOk result (ComponentSearches edges.now self.new) }
        ensures idle { OnOk result (length self.new.nodes.items ≡ 0) }
        ensures none_new { OnOk result (NoneNew self.old self.new) }
    {
        'steps: while let Some(frame) = self.path.pop() {
            self.step(edges, frame)?;
        }
        Ok(())
    }

    /// The component of a node, and those that it reaches.
    pub fn visit(&mut self, edges: &[Vec<usize>], root: usize) -> Result<(), NoRoom>
        requires edges { AreEdges edges.now }
        requires search { ComponentSearches edges.now self.old }
        requires idle { length self.old.nodes.items ≡ 0 }
        requires root { root < length edges.now }
        ensures search { OnOk result (ComponentSearches edges.now self.new) }
        ensures idle { OnOk result (length self.new.nodes.items ≡ 0) }
        ensures none_new { OnOk result (NoneNew self.old self.new) }
        ensures seen { OnOk result (node_mark self.new.marks.items root ≢ New) }
    {
        if let Mark::New = self.marks[root] {
            self.open(root)?;
            self.finish(edges)?;
        }
        Ok(())
    }
}
