// Steps over an expression: its place past the end, without reading what is in it. (`SomeExpr` stays a clause: it names the expression that stands at a place of
// the words, and a ghost field takes a proposition alone.) Kinds of words are numbers, matched with ranges: document 01's form of a tree.
#![tactic(auto)]

ghost use Rattle.std.specs.Prelude.{◌≡◌, ℕ};
ghost use Rattle.tree_expr.specs.Expr.{Expr, Strings};
ghost use Rattle.tree_expr.specs.Stands.{Stands};
ghost use Rattle.tree_skip.specs.Shape.{SomeExpr, Shaped, literal_words};

// How an expression is written: so many words, then its children, then so many words.
#[derive(Clone, Copy)]
pub struct Shape {
    pub front: usize,
    pub children: u32,
    pub back: usize,
}

// The words of a literal of a kind, its head included.
#[tactic(auto, unfolding(crate::specs::Shape::literal_words))]
fn literal(kind: u32) -> usize
    ensures { result ≡ literal_words kind }
{
    match kind {
        26 | 27 => 3,
        _ => 2,
    }
}

// So many words, then so many children, then so many words.
fn sizes(front: usize, children: u32, back: usize) -> Shape
    ensures { result ≡ record { front = front; children = children; back = back } }
{
    Shape {
        front,
        children,
        back,
    }
}

// The shape of the expression there.
pub fn shape_at(words: &[u32], at: usize) -> Shape
    requires { SomeExpr words.now at }
    ensures { (n : Strings) (e : Expr) (end : ℕ) → Stands words.now n at e end → Shaped e result }
{
    match words[at] / 16777216 {
        16 => sizes(1 + literal(words[at + 1] / 16777216), 0, 0),
        17 => sizes(2, 0, 0),
        18 | 21 => sizes(3, words[at + 2] % 16777216, 0),
        19 => sizes(2, 1, 0),
        20 => sizes(2, 2, 0),
        22 => sizes(1, 1, 1),
        _ => sizes(1, 1, 0),
    }
}

// The place past the expression there. The number of words left falls.
pub fn expr(words: &[u32], at: usize) -> usize
    requires { SomeExpr words.now at }
    ensures { (n : Strings) (e : Expr) (end : ℕ) → Stands words.now n at e end → result ≡ end }
{
    let s = shape_at(words, at);
    let mut m = at + s.front;
    for _ in 0..s.children {
        m = expr(words, m);
    }
    m + s.back
}
