// The accesses of a point.

ghost use Rattle.std.specs.Prelude.{◌≡◌, ◌≤◌, ◌+◌, length};
ghost use Rattle.pk_graph.specs.AccessViews.{access_views};
ghost use Rattle.pk_graph.specs.Accesses.{accesses_of};
ghost use Rattle.pk_graph.specs.Shown.{graph_view};
ghost use Rattle.pk_pieces.specs.Accesses.{accesses_at, count_before};

use pk_graph::{Access, Graph};

// How many of these accesses, which are in order of their points, come before those of a point.
fn before(graph: &Graph, accesses: &[Access<'_>], point: usize) -> usize
    requires accesses { access_views accesses.now ≡ accesses_of (graph_view graph.now) }
    ensures within { result ≤ length accesses.now }
    ensures value { result ≡ count_before (graph_view graph.now) point }
{
    accesses.partition_point(|access| access.point < point)
}

fn upto(graph: &Graph, accesses: &[Access<'_>], point: usize) -> usize
    requires accesses { access_views accesses.now ≡ accesses_of (graph_view graph.now) }
    ensures within { result ≤ length accesses.now }
    ensures value { result ≡ count_before (graph_view graph.now) (point + 1) }
{
    accesses.partition_point(|access| access.point <= point)
}

/// The accesses of a point among all those of a graph, which are in order of their points.
pub fn accesses_at<'a, 'g>(
    graph: &Graph,
    accesses: &'a [Access<'g>],
    point: usize,
) -> &'a [Access<'g>]
    requires accesses { access_views accesses.now ≡ accesses_of (graph_view graph.now) }
    ensures { access_views result.now ≡ accesses_at (graph_view graph.now) point }
{
    let from = before(graph, accesses, point);
    let to = upto(graph, accesses, point);
    &accesses[from..to]
}
