//! What the heap of waiting nodes is.
ghost use Rattle.node_pool.specs.Heap.{SpinesAreShort};

/// Where the way to the right of each heap is never the longer one, as a pool keeps it, two to the power of that way's length is at
/// most one more than the number of its nodes. So a merge, which goes down two such ways, takes logarithmically many steps.
pub fn heap_laws()
    ensures { SpinesAreShort }
{}
