// Reading an expression's text for n goals: refusals 15, 16 and 17 in this sequence, else its order as a graph.
#![tactic(auto)]

ghost use Rattle.std.specs.Prelude.{◌≡◌, true, ◌<◌, ◌≤◌, ◌^◌, get_or};
ghost use Rattle.sets.specs.Sets.{goal_limit};
ghost use Rattle.expression_grammar.specs.TextRules.{read_text};
ghost use Rattle.expression_reading.specs.TextReading.{is_digit, value_at, fault_in, Counted, text_answer};

use graph::Graph;
use record_rules::Refusal;
use sets::Set;

// The longest text that is read.
const LONGEST: usize = 512;

// What is read of a text: the order that its expression induces, and the goals that stand in it.
#[derive(Drop)]
pub struct Drawn {
    pub graph: Graph,
    pub met: u32,
}

// The number that begins at a digit.
fn number_at(text: &[u8], at: usize) -> usize
    requires { (at < 2 ^ 63) × (is_digit (get_or text.now at 0) ≡ true) }
    ensures { result ≡ value_at text.now at }
{
    let v = usize::from(buffer::byte(text, at) - b'0');
    let c = buffer::byte(text, at + 1);
    if c.is_ascii_digit() {
        10 * v + usize::from(c - b'0')
    } else {
        v
    }
}

// The leftmost number above n or met before.
fn fault(text: &[u8], n: usize) -> Option<usize>
    requires { n ≤ goal_limit }
    ensures { result ≡ fault_in n text.now }
{
    let mut at: usize = 0;
    let mut met: u64 = 0;
    // The place by hand: a number is passed over with its second digit, or with the mark behind it.
    while at < text.len() {
        if text[at].is_ascii_digit() {
            let v = number_at(text, at);
            if n < v || met.has(v) {
                return Some(at);
            }
            met = met.union(u64::single(v));
            at += 2;
        } else {
            at += 1;
        }
    }
    None
}

// The same, from the set and the word that the node of a whole text has: it is scanned only if they do not show that each goal stands in it once.
fn fault_of(text: &[u8], n: usize, set: u32, extra: u32) -> Option<usize>
    requires { (n ≤ goal_limit) × Counted goal_limit text.now set extra }
    ensures { result ≡ fault_in n text.now }
{
    if extra == 0 && set == u32::below(n) {
        None
    } else {
        fault(text, n)
    }
}

pub fn read_text(text: &[u8], n: usize) -> Result<Drawn, Refusal>
    requires { n ≤ goal_limit }
    ensures { result ≡ text_answer n (read_text n text.now) }
{
    let len = text.len();
    if len < 1 || LONGEST < len {
        return Err(Refusal {
            number: 15,
            place: 0,
        });
    }
    let mut graph = Graph::empty(n);
    let node = match expression_parser::parse(text, &mut graph.rows) {
        Ok(node) => node,
        Err(place) => return Err(Refusal { number: 16, place }),
    };
    if let Some(place) = fault_of(text, n, node.set, node.extra) {
        return Err(Refusal { number: 17, place });
    }
    if !u32::below(n).subset(node.set) {
        return Err(Refusal {
            number: 17,
            place: len,
        });
    }
    graph_transpose::transpose(&mut graph.rows, n);
    Ok(Drawn {
        graph,
        met: node.set,
    })
}
