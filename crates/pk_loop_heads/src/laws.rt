// Laws of loops into which nothing jumps.

ghost use Rattle.pk_loop_heads.specs.Laws.{LoopsHaveHeads};

use pk_calls::paths_are_all;

/// Where such a loop of a path begins again, and edges from two points lead, is a head.
pub fn loops_have_heads()
    ensures { LoopsHaveHeads }
{
    paths_are_all();
}
