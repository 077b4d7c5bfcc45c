// What is lent to the walk: the tree, a node of it, and the buffers.
ghost use Rattle.std.specs.Prelude.{◌≤◌, length};
ghost use Rattle.words.specs.Words.{words};
ghost use Rattle.lowering.specs.Tree.{tree_of};
ghost use Rattle.lowering.specs.Checked.{Checked};
ghost use Rattle.codegen.specs.Once.{checked_prop, falling_prop};
ghost use Rattle.codegen.specs.Ready.{InArena};
ghost use Rattle.codegen.specs.Flat.{Falling};

// The tree that is lowered, which passed the questions. An arena of indices, since document 01 lends the tree as words, the compiler uses no heap, and definition and walk
// recurse over the indices.
#[derive(Drop)]
pub(crate) struct Arena<'a> {
    pub(crate) nodes: &'a [u8],
    pub(crate) list: &'a [u8],
    pub(crate) names: &'a [u8],
    pub ghost checked: { Checked (tree_of nodes.now list.now names.now) } by { checked_prop (tree_of nodes.now list.now names.now) },
    pub ghost falling: { Falling nodes.now } by { falling_prop nodes.now },
    pub ghost few: { length (words names.now) ≤ 256 },
}

// A node of the arena. The fact that it is one goes with it, and is proved where a node is made of a word: there the three lines stand, and no function, since each fact of a child would
// then be one of the function's result, and be carried over in each proof.
#[derive(Clone, Copy)]
pub(crate) struct NodeRef<'a> {
    pub(crate) arena: &'a Arena<'a>,
    pub(crate) index: u32,
    pub ghost inside: { InArena arena.now.nodes.now index },
}

// The buffers that are written. Each function says that the borrows are kept (`Kept`): that is about before and after, which no ghost field can tell.
#[derive(Drop)]
pub(crate) struct Buffers<'a> {
    pub(crate) code: &'a mut [u8],
    pub(crate) constants: &'a mut [u8],
    pub(crate) marks: &'a mut [u8],
}
