// The edges that leave an element, in the order of the list.
ghost use Rattle.std.specs.Prelude.{◌≤◌};
ghost use Rattle.eval.specs.Index.{Ahead};

use crate::edges::{Edge, edge_at};
use crate::index::{EdgeIndex, Walk, walk_of};
use crate::lent::Judging;
use deck::numbers::Element;

#[derive(Drop)]
pub struct Leaving<'a> {
    of: EdgeIndex<'a>,
    x: Element,
    walk: Walk,
    ghost within: { walk.at ≤ of.count },
    ghost ahead: { Ahead of.edges.now of.elements of.index.now x.0 walk.at walk.run },
}

impl<'a> EdgeIndex<'a> {
    ghost use Rattle.std.specs.Prelude.{◌≡◌, ◌<◌};
    ghost use Rattle.eval.specs.Edges.{edges_of};
    ghost use Rattle.eval.specs.Leaving.{leaving, left, Steps};

    // The next edge that leaves x, and the walk after it. A `while`, as it goes on by jumps and not edge by edge.
    #[inline(always)]
    fn step(&self, x: Element, walk: Walk) -> Option<(Edge, Walk)>
        requires at_in_bounds { walk.at ≤ self.now.count }
        requires ahead { Ahead self.now.edges.now self.now.elements self.now.index.now x.0 walk.at walk.run }
        ensures { Steps self.now x.0 walk.at result }
    {
        let count = self.count as usize;
        let mut w = walk;
        while w.at < count {
            let e = edge_at(self.edges, w.at);
            if e.from == x {
                let run = w.run;
                return Some((e, Walk { at: w.at + 1, run }));
            }
            w = self.jump(x, w);
        }
        None
    }

    pub fn leaving(&self, x: Element) -> Leaving<'a>
        requires { x.0 < self.now.elements }
        ensures { left result ≡ leaving x.0 (edges_of self.now.edges.now self.now.count) }
    {
        Leaving {
            of: *self,
            x,
            walk: walk_of(self.index, x),
        }
    }
}

impl<'a> Judging<'a> {
    ghost use Rattle.std.specs.Prelude.{◌≡◌, ◌<◌};
    ghost use Rattle.eval.specs.InLent.{edges_in};
    ghost use Rattle.eval.specs.Leaving.{leaving, left};

    pub fn edge_index(&self) -> EdgeIndex<'a>
        ensures { (result.edges.now ≡ self.now.lent.edges.now) × (result.count ≡ self.now.lent.shape.edges) × (result.index.now ≡ self.now.index.now) × (result.elements ≡ self.now.lent.shape.elements) }
    {
        EdgeIndex {
            edges: self.lent.edges,
            count: self.lent.shape.edges,
            index: self.index,
            elements: self.lent.shape.elements,
        }
    }

    // The edges that leave x.
    pub fn leaving(&self, x: Element) -> Leaving<'a>
        requires { x.0 < self.now.lent.shape.elements }
        ensures { left result ≡ leaving x.0 (edges_in self.now.lent) }
    {
        self.edge_index().leaving(x)
    }
}

impl Iterator for Leaving<'_> {
    ghost use Rattle.std.specs.Iterator.{YieldsFirst, item_count};
    ghost use Rattle.eval.specs.Leaving.{left};

    type Item = Edge;

    ghost next_gives = { YieldsFirst left };

    ghost remaining = { item_count left };

    fn next(&mut self) -> Option<Edge> {
        let (e, walk) = self.of.step(self.x, self.walk)?;
        self.walk = walk;
        Some(e)
    }
}
