// A second encoder: each word from its index, by arithmetic on where its stretch of the list begins. It writes nothing: it is
// held against words that are there. Of the library it uses no code, no definition and no law. Its functions are proved to be
// safe and to end, and promise no more. Assumes nothing.
#![tactic(auto)]

use numbers::{add, difference, entry, product, quotient, remainder, sum, unlike, unlike_word};
use second::checker::{Due, Lists};

// What a written list has: its words, its clauses, and V, the last variable.
#[derive(Clone, Copy, PartialEq, Eq)]
pub struct Counts {
    pub words: usize,
    pub clauses: usize,
    pub variables: usize,
}

// The counts of what the encoder must have written, and how many of the words that are there are not the second encoder's.
#[derive(Clone, Copy)]
pub struct Expected {
    pub counts: Counts,
    pub unlike: usize,
}

// ---- counts

// D.
fn values(domains: &[u32]) -> usize {
    domains.iter().fold(0, |n, d| sum(n, *d as usize))
}

// How many nodes have this layer.
pub fn nodes_of(layers: &[u32], layer: usize) -> usize {
    layers.iter().filter(|l| **l as usize == layer).count()
}

// The words of an option of d values: d + 1 + 3d(d-1)/2.
fn option_words(d: usize) -> usize {
    sum(sum(d, 1), product(3, product(d, difference(d, 1)) / 2))
}

// The words of a node with d edges: 2 + 14d.
fn node_words(d: usize) -> usize {
    sum(2, product(14, d))
}

// The words of all options and the 6 of T, not F and the root.
fn words_before_nodes(domains: &[u32]) -> usize {
    domains
        .iter()
        .fold(6, |n, d| sum(n, option_words(*d as usize)))
}

// The formula of the scope for all words.
pub fn needed(lists: Lists<'_>) -> usize {
    let nodes = sum(
        product(2, lists.layers.len()),
        product(14, lists.edge_count()),
    );
    sum(words_before_nodes(lists.domains), nodes)
}

// ---- a word: a variable, its negation, or the 0 of a clause's end

fn plain(variable: usize) -> i32 {
    i32::try_from(variable).unwrap_or(0)
}

fn negated(variable: usize) -> i32 {
    plain(variable).wrapping_neg()
}

// ---- the word at an offset of a stretch of the list

// How many pairs of d values have a first below a: a(2d-a-1)/2.
fn pairs_before(d: usize, a: usize) -> usize {
    product(a, difference(product(2, d), sum(a, 1))) / 2
}

// The first of the pair of number p, of d values.
fn pair_first(d: usize, p: usize) -> usize {
    (0..d)
        .find(|a| p < pairs_before(d, sum(*a, 1)))
        .unwrap_or(d)
}

// The pair of number p of an option whose first value has variable `first`.
fn pair_word(first: usize, d: usize, p: usize, at: usize) -> i32 {
    let a = pair_first(d, p);
    match at {
        0 => negated(sum(first, a)),
        1 => {
            let after = difference(p, pairs_before(d, a));
            negated(sum(first, sum(sum(a, 1), after)))
        }
        _ => 0,
    }
}

// An option of d values whose first has variable `first`.
fn option_word(first: usize, d: usize, offset: usize) -> i32 {
    if offset < d {
        return plain(sum(first, offset));
    }
    if offset == d {
        return 0;
    }
    let o = difference(offset, sum(d, 1));
    pair_word(first, d, o / 3, o % 3)
}

// T, not F and the root, where F has variable `f`.
fn end_word(f: usize, offset: usize) -> i32 {
    match offset {
        0 => plain(sum(f, 1)),
        2 => negated(f),
        4 => plain(sum(f, 2)),
        _ => 0,
    }
}

// The variables of an edge, its node, its target and its value.
#[derive(Clone, Copy)]
struct Edge {
    edge: usize,
    node: usize,
    target: usize,
    value: usize,
}

impl Edge {
    // T2 to T5.
    fn word(self, offset: usize) -> i32 {
        match offset {
            0 | 3 | 6 => negated(self.edge),
            1 => plain(self.node),
            4 => plain(self.target),
            7 => plain(self.value),
            9 => negated(self.target),
            10 => negated(self.value),
            11 => plain(self.edge),
            _ => 0,
        }
    }
}

// A layer's nodes with their edges: the variables of its option's first value, of F, of its first node and of its first edge;
// the domain; and the index of its first edge.
#[derive(Clone, Copy)]
struct Layer {
    value: usize,
    domain: usize,
    f: usize,
    node: usize,
    edge: usize,
    first_edge: usize,
}

// Where the first layer begins; its domain is still to be put.
fn first_layer(lists: Lists<'_>) -> Layer {
    let f = sum(1, values(lists.domains));
    let node = sum(f, 2);
    Layer {
        value: 1,
        domain: 0,
        f,
        node,
        edge: sum(node, lists.layers.len()),
        first_edge: 0,
    }
}

impl Layer {
    // Where the next layer begins, behind so many nodes of this one; its domain is still to be put.
    fn after(self, nodes: usize) -> Layer {
        let edges = product(nodes, self.domain);
        Layer {
            value: sum(self.value, self.domain),
            domain: 0,
            f: self.f,
            node: sum(self.node, nodes),
            edge: sum(self.edge, edges),
            first_edge: sum(self.first_edge, edges),
        }
    }

    // The edge of value j of the node of this place in the layer.
    fn edge_at(self, targets: &[u32], place: usize, j: usize) -> Edge {
        let e = sum(product(place, self.domain), j);
        Edge {
            edge: sum(self.edge, e),
            node: sum(self.node, place),
            target: sum(self.f, entry(targets, sum(self.first_edge, e))),
            value: sum(self.value, j),
        }
    }

    // The node of this place in the layer.
    fn node_word(self, targets: &[u32], place: usize, offset: usize) -> i32 {
        let d = self.domain;
        if offset == 0 {
            return negated(sum(self.node, place));
        }
        if offset <= d {
            let edge = sum(self.edge, product(place, d));
            return plain(sum(edge, difference(offset, 1)));
        }
        if offset == sum(d, 1) {
            return 0;
        }
        let o = difference(offset, sum(d, 2));
        self.edge_at(targets, place, o / 13).word(o % 13)
    }

    fn word(self, targets: &[u32], offset: usize) -> i32 {
        let size = node_words(self.domain);
        self.node_word(targets, quotient(offset, size), remainder(offset, size))
    }
}

// ---- the words that are there, held against these

// How many words were held, how many of them are unlike, and how many of the second encoder's are 0.
#[derive(Drop)]
struct Held<'a> {
    words: &'a [i32],
    count: usize,
    unlike: usize,
    zeros: usize,
}

impl Held<'_> {
    // Holds the next stretch, of which `word` gives the second encoder's word at each offset.
    fn hold<F: Fn(usize) -> i32>(&mut self, size: usize, word: F)
        requires { F.IsAlwaysCallable word }
    {
        for offset in 0..size {
            let right = word(offset);
            let at = sum(self.count, offset);
            add(&mut self.unlike, unlike_word(self.words, at, right));
            add(&mut self.zeros, usize::from(right == 0));
        }
        add(&mut self.count, size);
    }

    fn hold_options(&mut self, domains: &[u32]) {
        let mut first = 1;
        for domain in domains {
            let d = *domain as usize;
            self.hold(option_words(d), |offset| option_word(first, d, offset));
            add(&mut first, d);
        }
    }

    fn hold_layers(&mut self, lists: Lists<'_>) {
        let mut layer = first_layer(lists);
        for (i, domain) in lists.domains.iter().enumerate() {
            layer.domain = *domain as usize;
            let nodes = nodes_of(lists.layers, sum(i, 1));
            let size = product(nodes, node_words(layer.domain));
            self.hold(size, |offset| layer.word(lists.targets, offset));
            layer = layer.after(nodes);
        }
    }
}

fn hold_all<'a>(lists: Lists<'_>, words: &'a [i32]) -> Held<'a> {
    let mut held = Held {
        words,
        count: 0,
        unlike: 0,
        zeros: 0,
    };
    held.hold_options(lists.domains);
    let f = sum(1, values(lists.domains));
    held.hold(6, |offset| end_word(f, offset));
    held.hold_layers(lists);
    held
}

// ---- what the encoder must answer

// Of a lent diagram, and the lent words as the encoder left them.
pub fn expect(lists: Lists<'_>, words: &[i32]) -> Result<Expected, Due> {
    lists.check()?;
    let need = needed(lists);
    if words.len() < need {
        return Err(Due {
            number: 7,
            place: need,
        });
    }
    let held = hold_all(lists, words);
    let counts = Counts {
        words: need,
        clauses: held.zeros,
        variables: sum(
            sum(values(lists.domains), lists.layers.len()),
            sum(2, lists.targets.len()),
        ),
    };
    Ok(Expected {
        counts,
        unlike: sum(held.unlike, unlike(held.count, need)),
    })
}
