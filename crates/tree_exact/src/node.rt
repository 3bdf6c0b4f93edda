ghost use Rattle.std.specs.Prelude.{◌≡◌, cond, ◌∷◌, ◌+◌, ◌*◌, ◌≤◌, length};
ghost use Rattle.tree.specs.Layout.{first_at, second_at};
ghost use Rattle.tree_walk.specs.Areas.{on_stack};
ghost use Rattle.tree_exact.specs.Onward.{Opens};

use tree::layout;

// The places of a leaf, the children of a branch, or neither, a 5: three kinds of node.
#[derive(Clone, Copy)]
pub enum Node {
    Leaf { start: usize, end: usize },
    Branch { left: usize, right: usize },
    Bad,
}

// A node that is opened, as its words say.
pub fn node_at(count: usize, words: &[u32], node: usize) -> Node
    requires { 3 * node + 3 ≤ length words.now }
    ensures { Opens count words.now node result }
{
    let kind = layout::word_at(words, 3 * node);
    let first = layout::word_at(words, 3 * node + 1);
    let second = layout::word_at(words, 3 * node + 2);
    if kind == 0 {
        if first > count {
            return Node::Bad;
        }
        if second > count - first {
            return Node::Bad;
        }
        return Node::Leaf {
            start: first,
            end: first + second,
        };
    }
    if kind != 1 {
        return Node::Bad;
    }
    if first <= node {
        return Node::Bad;
    }
    if second <= node {
        return Node::Bad;
    }
    Node::Branch {
        left: first,
        right: second,
    }
}

// The children of a branch on the stack, the left one on top if it is to be taken first.
pub fn push(words: &[u32], stack: &mut [u32], node: usize, top: usize, left_first: bool)
    requires { (3 * node + 3 ≤ length words.now) × (top + 2 ≤ length stack.old) }
    ensures { on_stack stack.new (top + 2) ≡ cond left_first
        (first_at words.now node ∷ (second_at words.now node ∷ on_stack stack.old top))
        (second_at words.now node ∷ (first_at words.now node ∷ on_stack stack.old top)) }
{
    if left_first {
        stack[top] = words[3 * node + 2];
        stack[top + 1] = words[3 * node + 1];
        return;
    }
    stack[top] = words[3 * node + 1];
    stack[top + 1] = words[3 * node + 2];
}
