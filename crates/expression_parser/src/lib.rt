// The readers of an expression's text: sequence, group and primary call each other in a cycle, bounded by the bytes left and the open parentheses.
// Members are read by loops; the rows of the order, turned round, are lent down the cycle, so that a member is put behind all before it by its own rows alone.
// Each reader answers with one node. The text and the rows stay parameters: in a struct that is lent down each byte would be read through one reference more.
#![tactic(auto)]

ghost use Rattle.std.specs.Prelude.{◌≡◌, leb};
ghost use Rattle.sets.specs.Sets.{goal_limit};
ghost use Rattle.expression_grammar.specs.TextRules.{open_limit};
ghost use Rattle.expression_number.specs.Nodes.{Primary};
ghost use Rattle.expression_parser.specs.Readers.{Sequence, Group, Parsed};

use expression_number::{Kind, Node};
use graph::Graph;

// At most so many parentheses are open at a time.
const DEEPEST: usize = 32;

// No further parenthesis may be opened.
pub fn full(depth: usize) -> bool
    ensures { result ≡ leb open_limit depth }
{
    DEEPEST <= depth
}

// Groups joined by `,`: each is before all that come after it.
// Beside `group`, though of its shape: 01 names sequence, group and primary readers that call each other. A `loop` in both: where the next member starts is known once
// this one is read.
#[cycle(group_primary_sequence)]
fn sequence(
    text: &[u8],
    start: usize,
    depth: usize,
    rows: &mut [u32; Graph::MAX],
) -> Result<Node, usize>
    ensures { Sequence goal_limit text.now start depth rows.old result rows.new }
{
    let mut at = start;
    let mut set: u32 = 0;
    let mut extra: u32 = 0;
    'members: loop {
        let node = group(text, at, depth, rows)?;
        let later = node.set;
        let end = node.end;
        graph::link(rows, later, set);
        extra = extra | node.extra | (set & later);
        set |= later;
        if buffer::byte(text, end) == b',' {
            at = end + 1;
        } else if at == start {
            return Ok(node);
        } else {
            let kind = Kind::Sequence;
            return Ok(Node {
                end,
                kind,
                set,
                extra,
            });
        }
    }
}

// Primaries joined by `&`: no order among them.
#[cycle(group_primary_sequence)]
fn group(
    text: &[u8],
    start: usize,
    depth: usize,
    rows: &mut [u32; Graph::MAX],
) -> Result<Node, usize>
    ensures { Group goal_limit text.now start depth rows.old result rows.new }
{
    let mut at = start;
    let mut set: u32 = 0;
    let mut extra: u32 = 0;
    'members: loop {
        let node = primary(text, at, depth, rows)?;
        let other = node.set;
        let end = node.end;
        extra = extra | node.extra | (set & other);
        set |= other;
        if buffer::byte(text, end) == b'&' {
            at = end + 1;
        } else if at == start {
            return Ok(node);
        } else {
            let kind = Kind::Group;
            return Ok(Node {
                end,
                kind,
                set,
                extra,
            });
        }
    }
}

// A number, or a sequence in parentheses.
#[cycle(group_primary_sequence)]
fn primary(
    text: &[u8],
    at: usize,
    depth: usize,
    rows: &mut [u32; Graph::MAX],
) -> Result<Node, usize>
    ensures { Primary goal_limit text.now at depth rows.old result rows.new }
{
    if buffer::byte(text, at) != b'(' {
        return expression_number::number(text, at);
    }
    if full(depth) {
        return Err(at);
    }
    let node = sequence(text, at + 1, depth + 1, rows)?;
    let end = node.end;
    let after = end + 1;
    if buffer::byte(text, end) == b')' {
        Ok(Node { end: after, ..node })
    } else {
        Err(end)
    }
}

// The whole text. A refusal leaves the rows as they were.
pub fn parse(text: &[u8], rows: &mut [u32; Graph::MAX]) -> Result<Node, usize>
    ensures { Parsed goal_limit text.now rows.old result rows.new }
{
    let kept = *rows;
    let place = match sequence(text, 0, 0, rows) {
        Ok(node) => {
            if text.len() <= node.end {
                return Ok(node);
            }
            node.end
        }
        Err(p) => p,
    };
    *rows = kept;
    Err(place)
}
