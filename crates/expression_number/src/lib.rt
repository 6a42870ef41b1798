// What the readers of an expression's text answer with, and the reader of a number.
#![tactic(auto)]

ghost use Rattle.std.specs.Prelude.{◌≡◌, ◌≤◌, get_or};
ghost use Rattle.sets.specs.Sets.{goal_limit};
ghost use Rattle.expression_number.specs.Nodes.{mask_of, extra_of, found, Numbered};

use graph::Graph;

#[derive(Clone, Copy, Debug, PartialEq, Eq)]
pub enum Kind {
    Goal,
    Group,
    Sequence,
}

// What is read: the place behind it, its kind, the goals up to 32 that stand in it, and a word that is 0 only if they stand in it once and no
// other number does. A reader answers with it, or refuses with the place with which no text of the grammar goes on. The place stands first, as
// a refusal's does: so both are kept in one register.
#[derive(Clone, Copy, Debug, PartialEq, Eq)]
pub struct Node {
    pub end: usize,
    pub kind: Kind,
    pub set: u32,
    // A word, and no `bool`: a join puts together those of its members and the goals that two of them have by `|`, with no test.
    pub extra: u32,
}

// The set of one number: empty if it is above 32.
fn mask_of(v: usize) -> u32
    requires { 1 ≤ v }
    ensures { result ≡ mask_of goal_limit v }
{
    if v <= Graph::MAX { Graph::single(v) } else { 0 }
}

// Not 0 if the number is above 32.
fn extra_of(v: usize) -> u32
    ensures { result ≡ extra_of goal_limit v }
{
    if v <= Graph::MAX { 0 } else { 1 }
}

fn goal(v: usize, end: usize) -> Node
    requires { 1 ≤ v }
    ensures { result ≡ found goal_limit v end }
{
    Node {
        end,
        kind: Kind::Goal,
        set: mask_of(v),
        extra: extra_of(v),
    }
}

// A digit 1 to 9, then at most one further digit.
pub fn number(text: &[u8], at: usize) -> Result<Node, usize>
    requires { get_or text.now at 0 ≡ 40 → ⊥ }
    ensures { Numbered goal_limit text.now at result }
{
    let first = match buffer::byte(text, at) {
        b @ b'1'..=b'9' => usize::from(b - b'0'),
        _ => return Err(at),
    };
    let d = buffer::byte(text, at + 1);
    if d.is_ascii_digit() {
        Ok(goal(10 * first + usize::from(d - b'0'), at + 2))
    } else {
        Ok(goal(first, at + 1))
    }
}
